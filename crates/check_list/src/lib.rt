// The checker of whole lists and whole logs.
#![tactic(auto)]

pub mod shortest;
pub mod walked;

ghost use Rattle.std.specs.Prelude.{◌≡◌};
ghost use Rattle.spec_rules.specs.Neighbour.{context_of};
ghost use Rattle.spec_check.specs.Check.{list_answer, log_answer};

use crate::walked::judge_all;
use check_walk::walk;
use log_block::form::Per;
use record::Refusal;
use settings::Settings;

// Judges a list of records. One pass tests form and rules; a rule counts only where every record is well formed, so one that
// breaks a rule asks for a second.
pub fn check_list(s: Settings, list: &[u8]) -> Result<(), Refusal>
    ensures { result ≡ list_answer (context_of s) list.now }
{
    if list.len() % 32 != 0 {
        return Err(Refusal::Length);
    }
    let n = list.len() / 32;
    let stop = walk(s, list, n, 0);
    let at = stop.at;
    if at == n {
        return Ok(());
    }
    if stop.rule == 0 {
        return Err(Refusal::Word(at as u64));
    }
    let bad = record_bytes::first_bad(s, list);
    if bad != n {
        return Err(Refusal::Word(bad as u64));
    }
    Err(Refusal::Rule(stop.rule, at as u64))
}

// Judges the list that a log keeps.
pub fn check_log(s: Settings, log: &[u8]) -> Result<(), Refusal>
    ensures { result ≡ log_answer (context_of s) log.now }
{
    if log.len() % 512 != 0 {
        return Err(Refusal::Length);
    }
    let found = log_list::copy::faults(s, log, Per::PLAIN);
    let block = found.block;
    if block != log.len() / 512 {
        return Err(Refusal::Block(block as u64));
    }
    let n = log_block::read::records_in(log, Per::PLAIN);
    let bad = found.record;
    if bad != n {
        return Err(Refusal::Word(bad as u64));
    }
    judge_all(s, log, n, 15)
}
