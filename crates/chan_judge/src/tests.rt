// The rules as tests on what one record concerns. Those of a PRER alone, and of an ACT, leave at once where there is none: most
// packets are neither.
ghost use Rattle.std.specs.Prelude.{◌≡◌, leb};
ghost use Rattle.settings.specs.Instants.{is_instant};
ghost use Rattle.spec_rules.specs.Checks.{since};
ghost use Rattle.chan_view.specs.Form.Bounds.{bound_if};
ghost use Rattle.chan_judge.specs.Form.Tests.{in_time, comes_at, data_in_time, prer_of, prer_kept, test1, test4, test6, test7, closes_named, test9, test10, test11, test13, spared, test14, test17};

use crate::Precharge;
use chan_view::banks::{is_closed, is_open};
use chan_view::bounds::{after_gap, after_three, keeps, since_wide};
use chan_view::neighbours::is_near;
use chan_view::{Held, Tracks, View};
use settings::instants::{read_arrival, write_arrival};
use settings::{DataAt, HORIZON, HORIZON_WIDE, PacketAt, Settings};
use spec_rules::BankTrack;

// Whether a number is an instant.
pub fn in_range(t: u32) -> bool
    ensures { result ≡ is_instant t }
{
    (4 <= t) & (t <= HORIZON)
}

fn in_time(a: Option<DataAt>) -> bool
    ensures { result ≡ in_time a }
{
    a.is_some()
}

// Whether data come at an instant.
pub fn comes_at(t: DataAt, a: Option<DataAt>) -> bool
    ensures { result ≡ comes_at t a }
{
    match a {
        Some(u) => t.0 == u.0,
        None => false,
    }
}

// Whether the data of an RD or WR come in time.
pub fn data_in_time(s: Settings, v: View) -> bool
    ensures { result ≡ data_in_time s v }
{
    if v.reads {
        return in_time(read_arrival(s, v.at));
    }
    if v.writes {
        return in_time(write_arrival(s, v.at));
    }
    true
}

fn prer(
    applies: bool,
    at: u64,
    bank: u32,
    opened: PacketAt,
    rd: PacketAt,
    retire: PacketAt,
) -> Precharge
    ensures { result ≡ record { applies = applies; at = at; bank = bank; opened = opened; rd = rd; retire = retire } }
{
    Precharge {
        applies: applies,
        at: at,
        bank: bank,
        opened: opened,
        rd: rd,
        retire: retire,
    }
}

// A packet's PRER: implied by a retire, by an RDA, or its own; out says whether the older write is retired.
pub(crate) fn prer_of(s: Settings, v: View, h: Held, out: bool, k: Tracks) -> Precharge
    ensures { result ≡ prer_of s v h out k }
{
    let at = u64::from(v.at.0);
    let due = at + u64::from(s.offp);
    if h.close & out {
        return prer(true, due, h.bank, k.held.opened, k.held.rd, k.held.retire);
    }
    if v.reads & v.close {
        return prer(true, due, v.bank, k.own.opened, k.own.rd, k.own.retire);
    }
    prer(
        v.precharges,
        at,
        v.bank,
        k.own.opened,
        k.own.rd,
        k.own.retire,
    )
}

// Whether a PRER keeps a bound, where there is one: rule 8.
pub(crate) fn prer_keeps(p: Precharge, bound: u64) -> bool
    ensures { result ≡ prer_kept p bound }
{
    !p.applies | (bound <= p.at)
}

// Rule 1: instants are in range and never fall; the PRER at this instant is in time.
pub(crate) fn in_order(s: Settings, v: View, prer: u64, last: PacketAt) -> bool
    ensures { result ≡ test1 s v prer last.0 }
{
    let due = prer <= HORIZON_WIDE;
    in_range(v.at.0) & (data_in_time(s, v) & (due & (last.0 <= v.at.0)))
}

// Rules 2, 3 and 17: a distance after an earlier instant, where it applies.
pub(crate) fn apart(applies: bool, last: PacketAt, gap: u32, at: PacketAt) -> bool
    ensures { result ≡ leb (bound_if applies (since last.0 gap)) at.0 }
{
    keeps(applies, after_gap(last, gap), at)
}

// Rule 4: an ACT finds its bank and the neighbours closed.
pub(crate) fn finds_closed(v: View, k: Tracks) -> bool
    ensures { result ≡ test4 v k }
{
    !v.opens | (is_closed(k.own) & (is_closed(k.low) & is_closed(k.high)))
}

// Rule 6: ACT to PRER.
pub(crate) fn open_long(s: Settings, p: Precharge, k: Tracks) -> bool
    ensures { result ≡ test6 s p k }
{
    if p.applies {
        let opened = after_three(p.opened, k.low.opened, k.high.opened, s.ras);
        return prer_keeps(p, opened);
    }
    true
}

// Rule 7: PRER to ACT.
pub(crate) fn closed_long(s: Settings, v: View, k: Tracks) -> bool
    ensures { result ≡ test7 s v k }
{
    if v.opens {
        let pre = after_three(k.own.pre, k.low.pre, k.high.pre, s.rp);
        return keeps(true, pre, v.at);
    }
    true
}

// Whether the retire closes the bank that a packet names.
fn closes_named(s: Settings, v: View, h: Held, out: bool) -> bool
    ensures { result ≡ closes_named s v h out }
{
    if h.close & out {
        return is_near(s, h.bank, v.bank);
    }
    false
}

// Rule 9: RD, WR and a retire find their bank open.
pub(crate) fn finds_open(s: Settings, v: View, h: Held, out: bool, k: Tracks) -> bool
    ensures { result ≡ test9 s v h out k }
{
    let open = is_open(k.own) & !closes_named(s, v, h, out);
    (!v.reads | open) & ((!v.writes | open) & (!out | is_open(k.held)))
}

// Rule 10: ACT to RD, retire and WR.
pub(crate) fn row_ready(s: Settings, v: View, out: bool, k: Tracks) -> bool
    ensures { result ≡ test10 s v out k }
{
    let least = u64::from(s.rcd).saturating_sub(u64::from(s.rtr));
    let write = keeps(v.writes, since_wide(k.own.act, least), v.at);
    apart(v.reads, k.own.act, s.rcd, v.at) & (apart(out, k.held.act, s.rcd, v.at) & write)
}

// Rule 11: RD to WR.
pub(crate) fn turned(s: Settings, v: View, rd: PacketAt) -> bool
    ensures { result ≡ test11 s v rd.0 }
{
    let sum = u64::from(s.cc) + u64::from(s.cac);
    let gap = sum.saturating_sub(u64::from(s.cwd));
    keeps(v.writes, since_wide(rd, gap), v.at)
}

// Rule 13: RD and retire to PRER.
pub(crate) fn columns_done(s: Settings, p: Precharge, k: Tracks) -> bool
    ensures { result ≡ test13 s p k }
{
    if p.applies {
        let read = after_three(p.rd, k.low.rd, k.high.rd, s.rdp);
        let retire = after_three(p.retire, k.low.retire, k.high.retire, s.rtp);
        return prer_keeps(p, read) & prer_keeps(p, retire);
    }
    true
}

// Whether a PRER spares the bank x of a write, where one waits.
fn spared(s: Settings, p: Precharge, waits: bool, x: u32, k: BankTrack) -> bool
    ensures { result ≡ spared s p waits x k }
{
    let reaches = p.applies & is_near(s, p.bank, x);
    !(waits & reaches) | is_closed(k)
}

// Rule 14: a PRER closes the bank of no waiting write.
pub(crate) fn write_safe(s: Settings, p: Precharge, h: Held, out: bool, k: Tracks) -> bool
    ensures { result ≡ test14 s p h out k }
{
    if p.applies {
        return spared(s, p, h.waits & !out, h.bank, k.held) & spared(s, p, h.two, h.next, k.next);
    }
    true
}

// Rule 17: no ROW packet or WR leaves a closing write waiting, and no ROW packet comes before the implied PRER.
pub(crate) fn row_free(v: View, h: Held, out: bool, implied: PacketAt) -> bool
    ensures { result ≡ test17 v h out implied.0 }
{
    let left = (h.close & !out) | h.next_close;
    (!left | !(v.row | v.writes)) & apart(v.row, implied, 0, v.at)
}
