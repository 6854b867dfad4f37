// The meter of the data pins (document 02, request g): how many of the last 1,024 cycles carried data.
#![tactic(auto)]

pub mod counts;
pub mod feeds;

// Mark i is 1 where an instant was accepted i cycles before the newest, which is 0 before any feed. A meter keeps no count: it
// would have to be tested with the marks, and costs less to make from them.
#[repr(C)]
#[derive(Clone, Copy)]
pub struct Meter {
    pub marks: [u64; 16],
    pub newest: u64,
}

// Why a feed is refused, by the trade words of documents 01 and 02.
#[derive(Clone, Copy)]
pub enum FeedRefusal {
    Settings,
    Horizon,
    Overlap,
}

// What the C call answers: the meter after a feed, refused or not, and 0 or the refusal's number. No Result, since its contract
// names both parts of every answer.
#[derive(Clone, Copy)]
pub struct FedNumber {
    pub meter: Meter,
    pub number: u32,
}

// What a count answers: number is 0, or the refusal's. A C struct, as a C caller reads it.
#[repr(C)]
#[derive(Clone, Copy)]
pub struct CountAnswer {
    pub number: u32,
    pub count: u32,
}

// What a share answers: number is 0, or the refusal's. A C struct too.
#[repr(C)]
#[derive(Clone, Copy)]
pub struct ShareAnswer {
    pub number: u32,
    pub share: f32,
}
