// One packet put at its least instant, on the bytes of a state that is calm: ROW packets and COL packets.
#![tactic(auto)]

pub mod cols;
pub mod rows;
