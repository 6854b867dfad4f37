// What the checker answers of whole lists and whole logs (document 01, "Rules over every earlier and later record", "What is turned
// back"): definitions and theorems.
#![tactic(auto)]

use record::Refusal;

// What is answered of a list: the checker's verdict on it and, where that names a rule and a record, the record from which the
// shortest run starts that still breaks the rule there.
#[derive(Clone, Copy)]
pub struct Shortest {
    pub judged: Result<(), Refusal>,
    pub start: u64,
}
