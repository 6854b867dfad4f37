// The quick way through a record that breaks no rule, without a walk over all banks. What fails here is judged rule by rule; so is a
// packet that implies a PRER or comes while a closing write waits.
ghost use Rattle.std.specs.Prelude.{◌≡◌};
ghost use Rattle.chan_least.specs.Form.Quick.{comes_well, act_by, closed_near, loses, opens_well, closes_well, reads_well, writes_well, leaves_well, row_well, col_well, record_well};

use crate::bounds::{close_bound, latest_of, nocop_bound, open_bound, read_bound, write_bound};
use chan_judge::data_rule;
use chan_judge::tests::in_range;
use chan_step::retires;
use chan_view::banks::{is_closed, is_open};
use chan_view::bounds::after_gap;
use chan_view::neighbours::is_near;
use chan_view::{Held, Tracks};
use packet::{ColPacket, FULL, RowPacket};
use record::Record;
use settings::instants::{read_arrival, write_arrival};
use settings::{PacketAt, Settings};
use spec_rules::{BankTrack, LastInstants};

// Whether a packet is in range, no data are due and no closing write waits.
fn comes_well(t: PacketAt, h: Held) -> bool
    ensures { result ≡ comes_well t h }
{
    in_range(t.0) & !(h.due | (h.close | h.next_close))
}

// What rule 5 asks at most, where no bank was opened after newest.
fn act_by(s: Settings, k: Tracks, newest: PacketAt) -> u64
    ensures { result ≡ act_by s k newest }
{
    let near = latest_of(k.own.opened, k.low.opened, k.high.opened);
    after_gap(newest, s.rr).max(after_gap(near, s.rc))
}

fn closed_near(k: Tracks) -> bool
    ensures { result ≡ closed_near k }
{
    let own = k.own;
    let low = k.low;
    let high = k.high;
    is_closed(own) & (is_closed(low) & is_closed(high))
}

// Whether a PRER or REFP to bank b loses a write to bank x, where one waits.
fn loses(s: Settings, b: u32, waits: bool, x: u32, k: BankTrack) -> bool
    ensures { result ≡ loses s b waits x k }
{
    waits & (is_near(s, b, x) & !is_closed(k))
}

// ACT and REFA; act is what rule 5 asks.
fn opens_well(s: Settings, at: PacketAt, k: Tracks, l: LastInstants, act: u64) -> bool
    ensures { result ≡ opens_well s at k l act }
{
    let bound = open_bound(s, l, act, latest_of(k.own.pre, k.low.pre, k.high.pre));
    closed_near(k) & (bound <= u64::from(at.0))
}

// PRER and REFP to bank b.
fn closes_well(s: Settings, at: PacketAt, k: Tracks, l: LastInstants, b: u32, h: Held) -> bool
    ensures { result ≡ closes_well s at k l b h }
{
    let opened = latest_of(k.own.opened, k.low.opened, k.high.opened);
    let rd = latest_of(k.own.rd, k.low.rd, k.high.rd);
    let retire = latest_of(k.own.retire, k.low.retire, k.high.retire);
    let held = k.held;
    let next = k.next;
    let safe = !loses(s, b, h.waits, h.bank, held) & !loses(s, b, h.two, h.next, next);
    safe & (close_bound(s, l, opened, rd, retire) <= u64::from(at.0))
}

// RD with this mask.
fn reads_well(s: Settings, at: PacketAt, k: Tracks, l: LastInstants, mask: u32) -> bool
    ensures { result ≡ reads_well s at k l mask }
{
    let own = k.own;
    match read_arrival(s, at) {
        Some(_) => (mask == FULL) & (is_open(own) & (read_bound(s, l, own.act) <= u64::from(at.0))),
        None => false,
    }
}

// WR, but for what it retires.
fn writes_well(s: Settings, at: PacketAt, k: Tracks, l: LastInstants) -> bool
    ensures { result ≡ writes_well s at k l }
{
    let own = k.own;
    match write_arrival(s, at) {
        Some(_) => is_open(own) & (write_bound(s, l, own.act) <= u64::from(at.0)),
        None => false,
    }
}

// What a COL packet with this mask retires, if it does; stays says whether it may leave the waiting writes.
fn leaves_well(s: Settings, at: PacketAt, k: Tracks, stays: bool, mask: u32, out: bool) -> bool
    ensures { result ≡ leaves_well s at k stays mask out }
{
    if out {
        let held = k.held;
        return is_open(held) & (after_gap(held.act, s.rcd) <= u64::from(at.0));
    }
    stays & (mask == FULL)
}

fn row_well(
    s: Settings,
    at: PacketAt,
    p: RowPacket,
    h: Held,
    k: Tracks,
    l: LastInstants,
    newest: PacketAt,
) -> bool
    ensures { result ≡ row_well s at p h k l (act_by s k newest) }
{
    match p {
        RowPacket::Act { bank: _, row: _ } => opens_well(s, at, k, l, act_by(s, k, newest)),
        RowPacket::Prer { bank } => closes_well(s, at, k, l, bank, h),
        RowPacket::Refa { bank: _ } => opens_well(s, at, k, l, act_by(s, k, newest)),
        RowPacket::Refp { bank } => closes_well(s, at, k, l, bank, h),
    }
}

// out says whether the packet retires the older write. A NOCOP may leave none, a WR one; no RD comes where two wait, and no RDA here.
fn col_well(
    s: Settings,
    at: PacketAt,
    p: ColPacket,
    h: Held,
    k: Tracks,
    l: LastInstants,
    out: bool,
) -> bool
    ensures { result ≡ col_well s at p h k l out }
{
    match p {
        ColPacket::Nocop { mask } => leaves_well(s, at, k, !h.waits, mask, out)
            & (nocop_bound(s, l) <= u64::from(at.0)),
        ColPacket::Wr {
            bank: _,
            column: _,
            mask,
            close: _,
        } => leaves_well(s, at, k, !h.two, mask, out) & writes_well(s, at, k, l),
        ColPacket::Rd {
            bank: _,
            column: _,
            mask,
            close,
        } => !(h.two | close) & reads_well(s, at, k, l, mask),
    }
}

// Whether a record breaks no rule; never of a packet that implies a PRER or comes while a closing write waits. The tracks low and high
// are the bank's own where it has no such neighbour; newest is not before any ACT or REFA.
pub fn passes(s: Settings, r: Record, h: Held, k: Tracks, l: LastInstants, newest: PacketAt) -> bool
    ensures { result ≡ record_well s r h k l (act_by s k newest) }
{
    match r {
        Record::RowAt(t, p) => comes_well(t, h) & row_well(s, t, p, h, k, l, newest),
        Record::ColAt(t, p) => comes_well(t, h) & col_well(s, t, p, h, k, l, retires(s, h, r)),
        Record::DataOf(t, _) => data_rule(s, h, t) == 0,
    }
}
