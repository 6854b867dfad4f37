// The shortest run of a list that still breaks its rule, of settings as bytes, answers in numbers (document 02 l).
#![tactic(auto)]

ghost use Rattle.std.specs.Prelude.{◌≡◌};
ghost use Rattle.calls_shortest.specs.Results.{in_numbers, shortest_call};

use record::Refusal;
use settings::read::read_settings;
use spec_calls::CheckAnswer;
use spec_check::Shortest;

// What is answered: number, rule and place as of the checker; and where number is 11, the record from which the run starts.
#[repr(C)]
#[derive(Clone, Copy)]
pub struct ShortestAnswer {
    pub number: u32,
    pub rule: u32,
    pub place: u64,
    pub start: u64,
}

fn in_numbers(x: Shortest) -> ShortestAnswer
    ensures { result ≡ in_numbers x }
{
    let judged = x.judged;
    let a = CheckAnswer::from(judged);
    ShortestAnswer {
        number: a.number,
        rule: a.rule,
        place: a.place,
        start: x.start,
    }
}

// The shortest run of a list that still breaks its rule.
pub fn shortest_by(settings: &[u8], list: &[u8]) -> ShortestAnswer
    ensures { result ≡ shortest_call settings.now list.now }
{
    let Some(s) = read_settings(settings) else {
        return in_numbers(Shortest {
            judged: Err(Refusal::Settings),
            start: 0,
        });
    };
    in_numbers(check_list::shortest::check_shortest(s, list))
}
