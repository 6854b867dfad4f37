// Calls on logs that carry their settings (document 02, request i): answers in numbers.
#![tactic(auto)]

pub mod checks;
pub mod indexes;
pub mod logs;
