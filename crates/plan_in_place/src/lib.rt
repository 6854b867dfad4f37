// The planner on its lent bytes, for states in which no packet of a request can be late and rooms for the most records: one function
// for each request.
#![tactic(auto)]

pub mod requests;
