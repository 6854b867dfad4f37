// What a record asks of the store, from the state of the channel before it.
ghost use Rattle.std.specs.Prelude.{◌≡◌};
ghost use Rattle.spec_rules.specs.History.{only_write, first};
ghost use Rattle.spec_rules.specs.Channel.{waiting_of};
ghost use Rattle.spec_model.specs.Model.{open_row};
ghost use Rattle.model_store.specs.Form.Touch.{write_place, retire_touch, col_touch, touch_of};

use crate::Touch;
use packet::ColPacket;
use record::{Place, Record};
use spec_rules::{Bank, BankTrack, Buffer, Write};

// The row open in a bank.
fn row_of(t: BankTrack) -> u32
    ensures { result ≡ open_row t.bank }
{
    let b = t.bank;
    match b {
        Bank::Closed => 0,
        Bank::Open(r) => r,
        Bank::Refresh => 0,
    }
}

// The place of a waiting write, whose bank has this track.
fn place_of(w: Write, held: BankTrack) -> Place
    ensures { result ≡ write_place w held.bank }
{
    Place {
        bank: w.bank,
        row: row_of(held),
        column: w.column,
    }
}

// The retire of a write, if it leaves, under the mask of the packet that retires it.
fn leave_touch(w: Write, leaves: bool, held: BankTrack, mask: u32) -> Touch
    ensures { result ≡ retire_touch (only_write leaves (Some w)) held.bank mask }
{
    if leaves {
        Touch::Retires(place_of(w, held), mask)
    } else {
        Touch::Nothing
    }
}

// The same of the older write that waits.
fn retire_touch(b: Buffer, leaves: bool, held: BankTrack, mask: u32) -> Touch
    ensures { result ≡ retire_touch (only_write leaves (first (waiting_of b))) held.bank mask }
{
    match b {
        Buffer::Empty => Touch::Nothing,
        Buffer::One(w) => leave_touch(w, leaves, held, mask),
        Buffer::Two(w, _) => leave_touch(w, leaves, held, mask),
    }
}

fn col_touch(p: ColPacket, b: Buffer, leaves: bool, own: BankTrack, held: BankTrack) -> Touch
    ensures { result ≡ col_touch p (only_write leaves (first (waiting_of b))) own.bank held.bank }
{
    match p {
        ColPacket::Nocop { mask } => retire_touch(b, leaves, held, mask),
        ColPacket::Wr { mask, .. } => retire_touch(b, leaves, held, mask),
        ColPacket::Rd { bank, column, .. } => Touch::Reads(Place {
            bank: bank,
            row: row_of(own),
            column: column,
        }),
    }
}

// What a record asks, where the bank that it names has one track and the bank of the older write, which leaves or not, another.
pub fn touch_of(r: Record, b: Buffer, leaves: bool, own: BankTrack, held: BankTrack) -> Touch
    ensures { result ≡ touch_of r (only_write leaves (first (waiting_of b))) own.bank held.bank }
{
    match r {
        Record::RowAt(_, _) => Touch::Nothing,
        Record::ColAt(_, p) => col_touch(p, b, leaves, own, held),
        Record::DataOf(_, _) => Touch::Nothing,
    }
}
