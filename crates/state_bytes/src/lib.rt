// The states of planners and models as bytes: which bytes are refused, and the states that the others say.
#![tactic(auto)]

pub mod fresh;
pub mod models;
pub mod planners;
pub mod reads;
pub mod stores;
mod tested;
