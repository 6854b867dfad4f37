// The calls on an index of a log, of settings as bytes, answers in numbers (document 02, request b).
#![tactic(auto)]

ghost use Rattle.std.specs.Prelude.{◌≡◌};
ghost use Rattle.calls_index.specs.Results.{index_answer, index_add_call, index_query_call, checked_answer, index_check_call};

use record::Refusal;
use settings::Settings;
use settings::read::read_settings;
use spec_index::IndexRefusal;

// What a call on an index answers: number is 0 and count how many words or block numbers there are, or the refusal's number with
// the rule and the place that it names.
#[repr(C)]
#[derive(Clone, Copy)]
pub struct IndexAnswer {
    pub number: u32,
    pub rule: u32,
    pub place: u64,
    pub count: u64,
}

impl From<Result<u64, IndexRefusal>> for IndexAnswer {
    ghost from_gives = { λ x a. a ≡ index_answer x };

    fn from(x: Result<u64, IndexRefusal>) -> IndexAnswer {
        match x {
            Err(IndexRefusal::Refused(why)) => {
                let a = why.answer();
                IndexAnswer {
                    number: a.number,
                    rule: a.rule,
                    place: a.place,
                    count: 0,
                }
            }
            Err(IndexRefusal::Differs(k)) => IndexAnswer {
                number: 14,
                rule: 0,
                place: k,
                count: 0,
            },
            Ok(n) => IndexAnswer {
                number: 0,
                rule: 0,
                place: 0,
                count: n,
            },
        }
    }
}

// The index of a log to the start of a buffer whose first `kept` words are there already.
pub fn add_by(settings: &[u8], log: &[u8], kept: usize, index: &mut [u8]) -> IndexAnswer
    ensures { (result ≡ (index_add_call settings.now log.now kept index.old).answer) × (index.new ≡ (index_add_call settings.now log.now kept index.old).lent) }
{
    let Some(s) = read_settings(settings) else {
        return IndexAnswer::from(Err(IndexRefusal::Refused(Refusal::Settings)));
    };
    IndexAnswer::from(log_index::make::add(s, log, kept, index))
}

// The numbers of the blocks that touch a bank to the start of a buffer.
pub fn query_by(settings: &[u8], log: &[u8], index: &[u8], bank: u32, out: &mut [u8]) -> IndexAnswer
    ensures { (result ≡ (index_query_call settings.now log.now index.now bank out.old).answer) × (out.new ≡ (index_query_call settings.now log.now index.now bank out.old).lent) }
{
    let Some(s) = read_settings(settings) else {
        return IndexAnswer::from(Err(IndexRefusal::Refused(Refusal::Settings)));
    };
    IndexAnswer::from(log_index::query::query(s, log, index, bank, out))
}

// A log with its index: 13 (log, then index), 12, 10, 14, and then the rules.
fn checked(s: Settings, log: &[u8], index: &[u8]) -> Result<u64, IndexRefusal>
    ensures { result ≡ checked_answer s log.now index.now }
{
    if log.len() % 512 != 0 {
        return Err(IndexRefusal::Refused(Refusal::Length));
    }
    if index.len() % 4 != 0 {
        return Err(IndexRefusal::Refused(Refusal::Length));
    }
    log_index::query::beside(s, log, index)?;
    check_list::check_log(s, log)?;
    Ok((index.len() / 4) as u64)
}

// Judges a log with its index.
pub fn check_by(settings: &[u8], log: &[u8], index: &[u8]) -> IndexAnswer
    ensures { result ≡ index_check_call settings.now log.now index.now }
{
    let Some(s) = read_settings(settings) else {
        return IndexAnswer::from(Err(IndexRefusal::Refused(Refusal::Settings)));
    };
    IndexAnswer::from(checked(s, log, index))
}
