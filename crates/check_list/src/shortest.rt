// The shortest run of a list that still breaks its rule (document 02 l).
mod starts;

ghost use Rattle.std.specs.Prelude.{◌≡◌};
ghost use Rattle.spec_rules.specs.Neighbour.{context_of};
ghost use Rattle.spec_check.specs.Check.{records_of, list_answer};
ghost use Rattle.spec_check.specs.Shortest.{start_of, shortest_answer};

use crate::shortest::starts::latest_start;
use record::Refusal;
use settings::Settings;
use spec_check::Shortest;

// What is found of the run from one start: whether it breaks the rule at its last record and no rule before, and whether it is
// refused before its last record.
#[derive(Clone, Copy)]
pub struct Tried {
    pub found: bool,
    pub early: bool,
}

// Where the run of a verdict on a list starts.
fn start_of(s: Settings, list: &[u8], judged: Result<(), Refusal>) -> usize
    requires { judged ≡ list_answer (context_of s) list.now }
    ensures { result ≡ start_of (context_of s) (records_of s list.now) judged }
{
    match judged {
        Ok(()) => 0,
        Err(why) => match why {
            Refusal::Rule(rule, place) => latest_start(s, list, rule, place as usize),
            _ => 0,
        },
    }
}

// Judges a list of records; one that breaks a rule is then judged again from the starts before the record that breaks it.
pub fn check_shortest(s: Settings, list: &[u8]) -> Shortest
    ensures { result ≡ shortest_answer (context_of s) list.now }
{
    let judged = crate::check_list(s, list);
    let start = start_of(s, list, judged);
    Shortest {
        judged: judged,
        start: start as u64,
    }
}
