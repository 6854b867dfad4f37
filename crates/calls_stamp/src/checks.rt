// The checker of stamped logs.
ghost use Rattle.std.specs.Prelude.{◌≡◌};
ghost use Rattle.record.specs.Record.{first_bad, records_in};
ghost use Rattle.log_block.specs.Block.{blocks_in, first_bad_block, list_of};
ghost use Rattle.spec_rules.specs.Neighbour.{context_of};
ghost use Rattle.spec_check.specs.Check.{records_of, rule_answer};
ghost use Rattle.calls_stamp.specs.Results.{stamped_answer, stamped_check_call};

use check_list::walked::judge_all;
use log_block::form::Per;
use log_stamp::tested;
use record::Refusal;
use settings::Settings;
use spec_calls::CheckAnswer;

// Judges the list that a stamped log keeps whose blocks and records are right.
fn judge_right(s: Settings, log: &[u8]) -> Result<(), Refusal>
    requires log_value { first_bad_block 14 log.now ≡ blocks_in log.now }
    requires list_value { first_bad s (list_of log.now) ≡ records_in (list_of log.now) }
    ensures { result ≡ rule_answer (context_of s) (records_of s (list_of log.now)) }
{
    judge_all(s, log, log_block::read::records_in(log, Per::STAMPED), 14)
}

// Judges the list that a stamped log keeps by the settings that it carries.
fn check_stamped(log: &[u8]) -> Result<(), Refusal>
    ensures { result ≡ stamped_answer log.now }
{
    if log.len() % 512 != 0 {
        return Err(Refusal::Length);
    }
    let s = tested(log)?;
    judge_right(s, log)
}

// The same in numbers.
pub fn check_by(log: &[u8]) -> CheckAnswer
    ensures { result ≡ stamped_check_call log.now }
{
    CheckAnswer::from(check_stamped(log))
}
