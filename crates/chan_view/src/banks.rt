// A bank's track in the array of all banks. Number 32 stands for no bank.
ghost use Rattle.std.specs.Prelude.{◌≡◌, ◌<◌};
ghost use Rattle.spec_rules.specs.History.{is_closed, is_open};
ghost use Rattle.spec_rules.specs.Channel.{idle};
ghost use Rattle.chan_view.specs.Form.Beside.{slot_of, held_at, around_of};

use crate::neighbours::{high_of, low_of};
use crate::{Held, Tracks};
use settings::{PacketAt, Settings};
use spec_rules::{Bank, BankTrack};

// An index below 32 for a bank; 0 where there is no such bank.
pub fn slot_of(b: u32) -> usize
    ensures { (result ≡ slot_of b) × (result < 32) }
{
    if b < 32 { b as usize } else { 0 }
}

// A bank that nothing was sent to.
pub fn unused() -> BankTrack
    ensures { result ≡ idle }
{
    let never = PacketAt(0);
    BankTrack {
        bank: Bank::Closed,
        opened: never,
        act: never,
        pre: never,
        rd: never,
        retire: never,
    }
}

// The track at the index of bank b where there is such a bank, or else idle.
pub fn track_of(b: u32, t: BankTrack) -> BankTrack
    ensures { result ≡ held_at b t }
{
    if b < 32 { t } else { unused() }
}

// The tracks of bank b, of the neighbours of bank c and of the waiting writes' banks, from what stands at their indices.
pub fn around(
    s: Settings,
    b: u32,
    c: u32,
    h: Held,
    own: BankTrack,
    low: BankTrack,
    high: BankTrack,
    held: BankTrack,
    next: BankTrack,
) -> Tracks
    ensures { result ≡ around_of s b c h own low high held next }
{
    Tracks {
        own: track_of(b, own),
        low: track_of(low_of(s, c), low),
        high: track_of(high_of(s, c), high),
        held: track_of(h.bank, held),
        next: track_of(h.next, next),
    }
}

pub fn is_closed(t: BankTrack) -> bool
    ensures { result ≡ is_closed t.bank }
{
    matches!(t.bank, Bank::Closed)
}

// Whether a bank is open by ACT.
pub fn is_open(t: BankTrack) -> bool
    ensures { result ≡ is_open t.bank }
{
    matches!(t.bank, Bank::Open(_))
}
