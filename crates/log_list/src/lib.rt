// Logs: a list of records to blocks and back (document 01, "Blocks").
#![tactic(auto)]

pub mod copy;

use record::Refusal;

// The first bad block of a log and, where no block is bad, the first bad record of its list. Where there is none, each is the count, as
// the definitions first_bad_block and first_bad are, of which the theorems speak.
#[derive(Clone, Copy)]
pub struct Faults {
    pub block: usize,
    pub record: usize,
}
