// Calls on lists and logs: settings as bytes, answers in numbers.
#![tactic(auto)]

pub mod checks;
pub mod logs;
