// The device model's state, what a model call answers, and in specs/ what a record does to the model and to the store.
#![tactic(auto)]

use record::{Dualoct, Refusal};
use spec_rules::Channel;

// The bytes of a model.
pub const MODEL_BYTES: usize = 792;

pub type ModelBytes = [u8; MODEL_BYTES];

// A model between two records: the channel, REFR, and the data of the waiting writes, those of the older one first.
#[derive(Clone, Copy)]
pub struct ModelState {
    pub channel: Channel,
    pub refr: u32,
    pub bytes: Dualoct,
    pub second: Dualoct,
}

// What a record that is taken does: the dualoct is in the answer buffer; a write was retired, with the number of bytes that it
// wrote; or neither.
#[derive(Clone, Copy)]
pub enum Event {
    Read,
    Retired(u32),
    Neither,
}
