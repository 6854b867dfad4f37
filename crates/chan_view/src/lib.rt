// What a record, the write buffer and the banks are to the rules, in the form that code tests: a record as flags with one bank, the
// tracks of the banks that it concerns, the bounds that last instants ask.
#![tactic(auto)]

pub mod banks;
pub mod bounds;
pub mod neighbours;
pub mod views;

use settings::{DataAt, PacketAt};
use spec_rules::{Bank, BankTrack};

// What a packet is to the rules: its instant, the bank and column that it names (0: none) and what it makes of that bank; then
// whether it opens the bank (ACT, REFA), is an ACT, precharges (PRER, REFP), reads (RD), writes (WR), takes the ROW pins or
// the COL pins, is a COL packet other than RD, has M = 1, and closes the bank (RDA, WRA).
#[derive(Clone, Copy)]
pub struct View {
    pub at: PacketAt,
    pub bank: u32,
    pub column: u32,
    pub state: Bank,
    pub opens: bool,
    pub acts: bool,
    pub precharges: bool,
    pub reads: bool,
    pub writes: bool,
    pub row: bool,
    pub col: bool,
    pub other: bool,
    pub masked: bool,
    pub close: bool,
}

// A record: a packet, or data at their own instant.
#[derive(Clone, Copy)]
pub enum Seen {
    Packet(View),
    Data(DataAt),
}

// The write buffer in numbers: whether a write waits, whether two do, whether the data of the newest are due; the older write's
// bank, the instant of its WR and whether it is a WRA; the newer write's bank where two wait and whether it is a WRA; the instant
// of the newest WR. Number 32 stands for no bank. Flags and 32, not Options: the tests combine them without a branch, and the tracks
// are read at every such number alike.
#[derive(Clone, Copy)]
pub struct Held {
    pub waits: bool,
    pub two: bool,
    pub due: bool,
    pub bank: u32,
    pub at: PacketAt,
    pub close: bool,
    pub next: u32,
    pub next_close: bool,
    pub newest: PacketAt,
}

// The tracks of the banks that a packet concerns: the bank that it names, the neighbours below and above the bank of its PRER or
// else of the bank that it names, the banks of the older and of the newer waiting write; idle where there is none.
#[derive(Clone, Copy)]
pub struct Tracks {
    pub own: BankTrack,
    pub low: BankTrack,
    pub high: BankTrack,
    pub held: BankTrack,
    pub next: BankTrack,
}
