// The planner's state, what a plan call answers, and in specs/ and proofs/ the plan of a request with its theorems.
#![tactic(auto)]

use record::Refusal;
use settings::PacketAt;
use spec_rules::Channel;

// The most records that a request makes under any core form, and the bytes that they take; the bytes of a planner.
pub const MOST_RECORDS: usize = 32;

pub const MOST_BYTES: usize = 1024;

pub const PLANNER_BYTES: usize = 768;

// A planner's bytes.
pub type PlannerBytes = [u8; PLANNER_BYTES];

// A planner between two requests: the channel after its packets, now, the bank of the next refresh, and the masks of the
// waiting writes, that of the older one first.
#[derive(Clone, Copy)]
pub struct PlannerState {
    pub channel: Channel,
    pub now: PacketAt,
    pub refresh: u32,
    pub mask: u32,
    pub second: u32,
}
