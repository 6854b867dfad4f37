// The C entry points. Buffers that are lent must not overlap.
#![tactic(auto)]

pub mod checks;
pub mod indexes;
pub mod logs;
pub mod meters;
pub mod models;
pub mod pages;
pub mod plans;
pub mod shortest;
pub mod stamped;
pub mod versions;
pub mod words;
