// What a planner, a checker and a device model keep of the packets so far (document 01, "Banks", "Write buffer"). The rules, and
// the theorem that this state decides them, are in specs/ and proofs/.
#![tactic(auto)]

use settings::PacketAt;

// "A bank is closed, open on a row, or under refresh."
#[derive(Clone, Copy)]
pub enum Bank {
    Closed,
    Open(u32),
    Refresh,
}

// A bank with its last instants, 0 where there was none: of an ACT or REFA, of an ACT, of a PRER or REFP to it or one that
// closed it, of an RD, and of a retire.
#[derive(Clone, Copy)]
pub struct BankTrack {
    pub bank: Bank,
    pub opened: PacketAt,
    pub act: PacketAt,
    pub pre: PacketAt,
    pub rd: PacketAt,
    pub retire: PacketAt,
}

// The last instants of the whole channel, 0 where there was none: of a ROW or COL packet, of a ROW packet, of a COL packet, of a
// PRER or REFP, of an RD, and of a PRER that an RDA or the retire of a WRA implied.
#[derive(Clone, Copy)]
pub struct LastInstants {
    pub packet: PacketAt,
    pub row: PacketAt,
    pub col: PacketAt,
    pub pre: PacketAt,
    pub rd: PacketAt,
    pub implied: PacketAt,
}

// A write that waits: its bank and column, the instant of its WR, and whether its retire closes the bank (WRA).
#[derive(Clone, Copy)]
pub struct Write {
    pub bank: u32,
    pub column: u32,
    pub at: PacketAt,
    pub close: bool,
}

// The writes that wait (document 02 a): "Two may wait, in order". The older one stands first.
#[derive(Clone, Copy)]
pub enum Buffer {
    Empty,
    One(Write),
    Two(Write, Write),
}

// The banks, the last instants, the writes that wait, and whether the record of the newest write's data is the next in the list.
#[derive(Clone, Copy)]
pub struct Channel {
    pub banks: [BankTrack; 32],
    pub lasts: LastInstants,
    pub buffer: Buffer,
    pub due: bool,
}
