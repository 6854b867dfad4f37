// What the C calls answer, in numbers. The results of the calls, with every lent buffer, and the theorem of whole runs are in specs/
// and proofs/.
#![tactic(auto)]

ghost use Rattle.std.specs.Prelude.{◌≡◌};
ghost use Rattle.spec_calls.specs.Checks.{check_answer};
ghost use Rattle.spec_calls.specs.Logs.{copy_answer};

use record::Refusal;

// What a plan call answers: number is 0 and records what it made, or the refusal's number. banks is how many banks close looked at.
#[repr(C)]
#[derive(Clone, Copy)]
pub struct PlanAnswer {
    pub number: u32,
    pub banks: u32,
    pub records: u64,
}

// What a call with many requests answers: number is 0, or that of the refusal; place is how many requests were planned, which is the
// position from 0 of the refused one, and records what they made.
#[repr(C)]
#[derive(Clone, Copy)]
pub struct PlanAllAnswer {
    pub number: u32,
    pub place: u64,
    pub records: u64,
}

// What a model call answers: number is 0, or the refusal's with its rule; event is 0 where nothing was read or retired, 1
// where the dualoct is in the answer buffer, 2 where a write was retired, and bytes is how many bytes that wrote.
#[repr(C)]
#[derive(Clone, Copy)]
pub struct StepAnswer {
    pub number: u32,
    pub rule: u32,
    pub event: u32,
    pub bytes: u32,
}

// What the checker answers: number is 0, or the refusal's with the rule and the place that it names.
#[repr(C)]
#[derive(Clone, Copy)]
pub struct CheckAnswer {
    pub number: u32,
    pub rule: u32,
    pub place: u64,
}

// A verdict in numbers.
impl From<Result<(), Refusal>> for CheckAnswer {
    ghost from_gives = { λ verdict a. a ≡ check_answer verdict };

    fn from(verdict: Result<(), Refusal>) -> CheckAnswer {
        match verdict {
            Ok(()) => CheckAnswer {
                number: 0,
                rule: 0,
                place: 0,
            },
            Err(r) => {
                let a = r.answer();
                CheckAnswer {
                    number: a.number,
                    rule: a.rule,
                    place: a.place,
                }
            }
        }
    }
}

// What a copying call answers: number is 0 and count what it made, or the refusal's number and place.
#[repr(C)]
#[derive(Clone, Copy)]
pub struct CopyAnswer {
    pub number: u32,
    pub place: u64,
    pub count: u64,
}

impl From<Result<u64, Refusal>> for CopyAnswer {
    ghost from_gives = { λ c a. a ≡ copy_answer c };

    fn from(c: Result<u64, Refusal>) -> CopyAnswer {
        match c {
            Err(r) => {
                let a = r.answer();
                CopyAnswer {
                    number: a.number,
                    place: a.place,
                    count: 0,
                }
            }
            Ok(n) => CopyAnswer {
                number: 0,
                place: 0,
                count: n,
            },
        }
    }
}
