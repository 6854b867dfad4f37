// The state of the channel after a record, and what a record makes of its parts.
#![tactic(auto)]

pub mod tracks;

ghost use Rattle.std.specs.Prelude.{◌≡◌, ◌+◌, ◌<◌, ◌^◌, get_or, set};
ghost use Rattle.spec_rules.specs.Packets.{row_traits, col_traits, instant};
ghost use Rattle.spec_rules.specs.Neighbour.{context_of};
ghost use Rattle.spec_rules.specs.Channel.{never, idle, fresh, after_implied, after};
ghost use Rattle.chan_view.specs.Form.Beside.{low_of, high_of};
ghost use Rattle.chan_view.specs.Form.View.{seen_of};
ghost use Rattle.chan_step.specs.Form.Banks.{side_track, changed, closed_banks, row_banks, col_banks, retired_banks, banks_next};
ghost use Rattle.chan_step.specs.Form.Lasts.{lasts_by, lasts_next, implied_lasts, left_buffer, joined_buffer, col_buffer, buffer_next, retires_by};

use crate::tracks::{
    act_track, closed_track, read_track, refresh_track, retired_track, side_track,
};
use chan_view::banks::{slot_of, track_of, unused};
use chan_view::neighbours::{high_of, low_of};
use chan_view::views::{centre, held_of, implies, leaving, seen_of};
use chan_view::{Held, Seen};
use packet::{ColPacket, RowPacket};
use record::Record;
use settings::{PacketAt, Settings};
use spec_rules::{BankTrack, Buffer, Channel, LastInstants, Write};

// The track of a bank.
fn bank_at(banks: [BankTrack; 32], b: u32) -> BankTrack
    ensures { result ≡ get_or banks b idle }
{
    let i = slot_of(b);
    track_of(b, banks[i])
}

// The banks with one of them replaced, where there is such a bank.
fn put_bank(banks: [BankTrack; 32], b: u32, k: BankTrack) -> [BankTrack; 32]
    ensures { result ≡ set banks b k }
{
    if 32 <= b {
        return banks;
    }
    let mut next = banks;
    let i = slot_of(b);
    next[i] = k;
    next
}

// The banks once one beside a bank that a PRER or REFP names is closed.
fn side_banks(b: u32, at: PacketAt, banks: [BankTrack; 32]) -> [BankTrack; 32]
    ensures { result ≡ changed (side_track at) b banks }
{
    put_bank(banks, b, side_track(at, bank_at(banks, b)))
}

// The banks after a PRER or REFP to a bank, its own packet or implied.
fn closed_banks(s: Settings, b: u32, at: PacketAt, banks: [BankTrack; 32]) -> [BankTrack; 32]
    ensures { result ≡ closed_banks at b (low_of s b) (high_of s b) banks }
{
    let own = put_bank(banks, b, closed_track(at, bank_at(banks, b)));
    side_banks(high_of(s, b), at, side_banks(low_of(s, b), at, own))
}

fn row_banks(s: Settings, at: PacketAt, p: RowPacket, banks: [BankTrack; 32]) -> [BankTrack; 32]
    ensures { result ≡ row_banks s at p banks }
{
    match p {
        RowPacket::Act { bank, row } => put_bank(
            banks,
            bank,
            act_track(row, at, bank_at(banks, bank)),
        ),
        RowPacket::Prer { bank } => closed_banks(s, bank, at, banks),
        RowPacket::Refa { bank } => put_bank(banks, bank, refresh_track(at, bank_at(banks, bank))),
        RowPacket::Refp { bank } => closed_banks(s, bank, at, banks),
    }
}

fn col_banks(at: PacketAt, p: ColPacket, banks: [BankTrack; 32]) -> [BankTrack; 32]
    ensures { result ≡ col_banks at p banks }
{
    match p {
        ColPacket::Nocop { mask: _ } => banks,
        ColPacket::Wr {
            bank: _,
            column: _,
            mask: _,
            close: _,
        } => banks,
        ColPacket::Rd {
            bank,
            column: _,
            mask: _,
            close: _,
        } => put_bank(banks, bank, read_track(at, bank_at(banks, bank))),
    }
}

// The banks once a write to bank w is retired, if it is.
fn retired_banks(leaves: bool, w: u32, at: PacketAt, banks: [BankTrack; 32]) -> [BankTrack; 32]
    ensures { result ≡ retired_banks leaves w at banks }
{
    if leaves {
        return put_bank(banks, w, retired_track(at, bank_at(banks, w)));
    }
    banks
}

// The last instants after a ROW packet, a PRER or REFP among them.
fn row_lasts(at: PacketAt, p: RowPacket, l: LastInstants) -> LastInstants
    ensures { result ≡ lasts_by at (row_traits p) l }
{
    let next = LastInstants {
        packet: at,
        row: at,
        ..l
    };
    match p {
        RowPacket::Act { bank: _, row: _ } => next,
        RowPacket::Prer { bank: _ } => LastInstants { pre: at, ..next },
        RowPacket::Refa { bank: _ } => next,
        RowPacket::Refp { bank: _ } => LastInstants { pre: at, ..next },
    }
}

// The last instants after a COL packet, an RD among them.
fn col_lasts(at: PacketAt, p: ColPacket, l: LastInstants) -> LastInstants
    ensures { result ≡ lasts_by at (col_traits p) l }
{
    let next = LastInstants {
        packet: at,
        col: at,
        ..l
    };
    match p {
        ColPacket::Nocop { mask: _ } => next,
        ColPacket::Wr {
            bank: _,
            column: _,
            mask: _,
            close: _,
        } => next,
        ColPacket::Rd {
            bank: _,
            column: _,
            mask: _,
            close: _,
        } => LastInstants { rd: at, ..next },
    }
}

// The last instants after a record, but for the PRER that it implies.
pub fn lasts_after(r: Record, l: LastInstants) -> LastInstants
    ensures { result ≡ lasts_next r l }
{
    match r {
        Record::RowAt(t, p) => row_lasts(t, p, l),
        Record::ColAt(t, p) => col_lasts(t, p, l),
        Record::DataOf(_, _) => l,
    }
}

// The last instants after an implied PRER, which is no packet.
pub fn implied_lasts(at: PacketAt, l: LastInstants) -> LastInstants
    ensures { result ≡ implied_lasts at l }
{
    LastInstants {
        pre: at,
        implied: at,
        ..l
    }
}

// The same write, field by field: a copy of the whole takes the bytes between its fields along.
fn same_write(w: Write) -> Write
    ensures { result ≡ w }
{
    let at = w.at;
    Write {
        bank: w.bank,
        column: w.column,
        at: at,
        close: w.close,
    }
}

// The write buffer once the older write has left, if it does: the newer one becomes the older.
fn left(leaves: bool, b: Buffer) -> Buffer
    ensures { result ≡ left_buffer leaves b }
{
    if leaves {
        match b {
            Buffer::Empty => Buffer::Empty,
            Buffer::One(_) => Buffer::Empty,
            Buffer::Two(_, y) => Buffer::One(same_write(y)),
        }
    } else {
        b
    }
}

// A write behind the older one. Where two wait, rule 12 has no WR that retires none.
fn joined(b: Buffer, w: Write) -> Buffer
    ensures { result ≡ joined_buffer b w }
{
    match b {
        Buffer::Empty => Buffer::One(w),
        Buffer::One(x) => Buffer::Two(same_write(x), w),
        Buffer::Two(x, _) => Buffer::Two(x, w),
    }
}

fn col_buffer(at: PacketAt, p: ColPacket, leaves: bool, b: Buffer) -> Buffer
    ensures { result ≡ col_buffer at p leaves b }
{
    match p {
        ColPacket::Nocop { mask: _ } => left(leaves, b),
        ColPacket::Wr {
            bank,
            column,
            mask: _,
            close,
        } => joined(
            left(leaves, b),
            Write {
                bank,
                column,
                at,
                close,
            },
        ),
        ColPacket::Rd {
            bank: _,
            column: _,
            mask: _,
            close: _,
        } => left(leaves, b),
    }
}

// The write buffer after a record that retires the older write or does not.
pub fn buffer_after(r: Record, leaves: bool, b: Buffer) -> Buffer
    ensures { result ≡ buffer_next r leaves b }
{
    match r {
        Record::RowAt(_, _) => b,
        Record::ColAt(t, p) => col_buffer(t, p, leaves, b),
        Record::DataOf(_, _) => b,
    }
}

// Whether a record retires the older write.
pub fn retires(s: Settings, h: Held, r: Record) -> bool
    ensures { result ≡ retires_by s h (seen_of r) }
{
    let seen = seen_of(r);
    match seen {
        Seen::Packet(v) => leaving(s, h, v),
        Seen::Data(_) => false,
    }
}

// All banks after a packet, once the write that it retires has left.
fn banks_after(s: Settings, r: Record, banks: [BankTrack; 32]) -> [BankTrack; 32]
    ensures { result ≡ banks_next s r banks }
{
    match r {
        Record::RowAt(t, p) => row_banks(s, t, p, banks),
        Record::ColAt(t, p) => col_banks(t, p, banks),
        Record::DataOf(_, _) => banks,
    }
}

// The instant of the PRER that a packet implies.
pub fn implied_at(s: Settings, at: PacketAt) -> PacketAt
    requires { at.0 + s.offp < 2 ^ 32 }
    ensures { result.0 ≡ at.0 + s.offp }
{
    PacketAt(at.0 + s.offp)
}

// The state after an implied PRER to a bank.
fn after_implied(s: Settings, at: PacketAt, b: u32, ch: Channel) -> Channel
    ensures { result ≡ after_implied (context_of s) at.0 (Some b) ch }
{
    let banks = ch.banks;
    let lasts = ch.lasts;
    Channel {
        banks: closed_banks(s, b, at, banks),
        lasts: implied_lasts(at, lasts),
        ..ch
    }
}

// The state after a record. The PRER that a retire implies comes last too: a packet that retires is no RD and changes no bank itself.
pub fn after(s: Settings, ch: Channel, r: Record) -> Channel
    requires { instant r + s.offp < 2 ^ 32 }
    ensures { result ≡ after (context_of s) ch r }
{
    let Seen::Packet(v) = seen_of(r) else {
        return Channel { due: false, ..ch };
    };
    let buffer = ch.buffer;
    let banks = ch.banks;
    let lasts = ch.lasts;
    let h = held_of(buffer, ch.due);
    let leaves = leaving(s, h, v);
    let next = Channel {
        banks: banks_after(s, r, retired_banks(leaves, h.bank, v.at, banks)),
        lasts: lasts_after(r, lasts),
        buffer: buffer_after(r, leaves, buffer),
        due: v.writes,
    };
    if implies(s, h, v) {
        return after_implied(s, implied_at(s, v.at), centre(s, h, v), next);
    }
    next
}

// The last instants before every record.
pub fn no_lasts() -> LastInstants
    ensures { result ≡ record { packet = never; row = never; col = never; pre = never; rd = never; implied = never } }
{
    let never = PacketAt(0);
    LastInstants {
        packet: never,
        row: never,
        col: never,
        pre: never,
        rd: never,
        implied: never,
    }
}

// The state before every record.
pub fn fresh() -> Channel
    ensures { result ≡ fresh }
{
    let banks = [unused(); 32];
    Channel {
        banks: banks,
        lasts: no_lasts(),
        buffer: Buffer::Empty,
        due: false,
    }
}
