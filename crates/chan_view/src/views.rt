// What a record and the write buffer are to the rules.
ghost use Rattle.std.specs.Prelude.{◌≡◌};
ghost use Rattle.chan_view.specs.Form.View.{plain, row_view, col_view, seen_of, held_of, leaves, leaves_closing, implies_by, centre_of, stays_by};

use crate::{Held, Seen, View};
use packet::{ColPacket, FULL, RowPacket};
use record::Record;
use settings::{PacketAt, Settings};
use spec_rules::{Bank, Buffer};

// A packet at an instant that is no command.
pub fn plain_view(at: PacketAt) -> View
    ensures { result ≡ plain at }
{
    View {
        at: at,
        bank: 0,
        column: 0,
        state: Bank::Closed,
        opens: false,
        acts: false,
        precharges: false,
        reads: false,
        writes: false,
        row: false,
        col: false,
        other: false,
        masked: false,
        close: false,
    }
}

fn row_view(at: PacketAt, p: RowPacket) -> View
    ensures { result ≡ row_view at p }
{
    let v = View {
        row: true,
        ..plain_view(at)
    };
    match p {
        RowPacket::Act { bank, row } => View {
            bank: bank,
            state: Bank::Open(row),
            opens: true,
            acts: true,
            ..v
        },
        RowPacket::Prer { bank } => View {
            bank: bank,
            precharges: true,
            ..v
        },
        RowPacket::Refa { bank } => View {
            bank: bank,
            state: Bank::Refresh,
            opens: true,
            ..v
        },
        RowPacket::Refp { bank } => View {
            bank: bank,
            precharges: true,
            ..v
        },
    }
}

fn col_view(at: PacketAt, p: ColPacket) -> View
    ensures { result ≡ col_view at p }
{
    let v = View {
        col: true,
        ..plain_view(at)
    };
    match p {
        ColPacket::Nocop { mask } => View {
            other: true,
            masked: mask != FULL,
            ..v
        },
        ColPacket::Wr {
            bank,
            column,
            mask,
            close,
        } => View {
            bank: bank,
            column: column,
            writes: true,
            other: true,
            masked: mask != FULL,
            close: close,
            ..v
        },
        ColPacket::Rd {
            bank,
            column,
            mask,
            close,
        } => View {
            bank: bank,
            column: column,
            reads: true,
            masked: mask != FULL,
            close: close,
            ..v
        },
    }
}

// A record as flags.
pub fn seen_of(r: Record) -> Seen
    ensures { result ≡ seen_of r }
{
    match r {
        Record::RowAt(t, p) => Seen::Packet(row_view(t, p)),
        Record::ColAt(t, p) => Seen::Packet(col_view(t, p)),
        Record::DataOf(t, _) => Seen::Data(t),
    }
}

// The write buffer in numbers.
pub fn held_of(b: Buffer, due: bool) -> Held
    ensures { result ≡ held_of b due }
{
    match b {
        Buffer::Empty => Held {
            waits: false,
            two: false,
            due: false,
            bank: 32,
            at: PacketAt(0),
            close: false,
            next: 32,
            next_close: false,
            newest: PacketAt(0),
        },
        Buffer::One(x) => {
            let at = x.at;
            Held {
                waits: true,
                two: false,
                due: due,
                bank: x.bank,
                at: at,
                close: x.close,
                next: 32,
                next_close: false,
                newest: at,
            }
        }
        Buffer::Two(x, y) => {
            let at = x.at;
            let newest = y.at;
            Held {
                waits: true,
                two: true,
                due: due,
                bank: x.bank,
                at: at,
                close: x.close,
                next: y.bank,
                next_close: y.close,
                newest: newest,
            }
        }
    }
}

// Whether a packet retires the older write.
pub fn leaving(s: Settings, h: Held, v: View) -> bool
    ensures { result ≡ leaves s h v }
{
    h.waits & (v.other & (u64::from(h.at.0) + u64::from(s.rtr) <= u64::from(v.at.0)))
}

// Whether a packet retires a closing write.
pub fn leaves_closing(s: Settings, h: Held, v: View) -> bool
    ensures { result ≡ leaves_closing s h v }
{
    h.close & leaving(s, h, v)
}

// Whether a packet implies a PRER.
pub fn implies(s: Settings, h: Held, v: View) -> bool
    ensures { result ≡ implies_by s h v }
{
    (v.reads & v.close) | leaves_closing(s, h, v)
}

// The bank of a packet's PRER, its own or an implied one; of other packets the bank that they name.
pub fn centre(s: Settings, h: Held, v: View) -> u32
    ensures { result ≡ centre_of s h v }
{
    if leaves_closing(s, h, v) {
        h.bank
    } else {
        v.bank
    }
}

// Whether a packet may leave the waiting writes as they are.
pub fn stays(h: Held, v: View) -> bool
    ensures { result ≡ stays_by h v }
{
    if h.two {
        !v.col
    } else {
        !h.waits | (!v.other | v.writes)
    }
}
