// The index of a log (document 02, request e): its words, making it and adding to it, and queries by bank.
#![tactic(auto)]

pub mod make;
pub mod query;
pub mod words;
