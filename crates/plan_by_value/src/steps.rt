// The steps of the plan's definition (spec_plan/specs/Plan.antt).
ghost use Rattle.std.specs.Prelude.{◌≡◌, ℕ, Bool, true, ◌≤◌, ◌<◌, List, leb};
ghost use Rattle.settings.specs.Instants.{horizon};
ghost use Rattle.spec_rules.specs.declared.Write.{Write as WriteOf};
ghost use Rattle.spec_rules.specs.Neighbour.{bank_count, context_of};
ghost use Rattle.spec_rules.specs.Channel.{waiting_of};
ghost use Rattle.spec_plan.specs.declared.PlannerState.{PlannerState as PlannerOf};
ghost use Rattle.spec_plan.specs.Plan.{Draft as DraftOf, when, waiting, sent, flushed, flushed_while, closed, closed_up_to, reached, planned_read, loaded, written, planned_write, planned_refresh, planned_flush, planned_close, planned};
ghost use Rattle.plan_by_value.specs.Form.Drawn.{packet_of, Draws};
ghost use Rattle.plan_by_value.specs.Form.Told.{Tells};

use crate::asks::{
    closing, delays, implied_delay, loses, not_closed, open_on, shifted, two, waits,
};
use crate::drafts::{added, moved, start, turned, waited};
use crate::packets::{clipped, data_delay, is_late, placed_in, record_at};
use crate::{Command, Draft};
use chan_least::least_from;
use chan_step::after;
use chan_view::neighbours::is_near;
use packet::{ColPacket, FULL, RowPacket};
use record::{Dualoct, Place, Record, Request};
use settings::{PacketAt, Settings};
use spec_plan::PlannerState;
use spec_rules::Buffer;

// A packet sent at its least instant, under the mask of the write that it retires.
fn sent(s: Settings, c: Command, d: Draft) -> Draft
    requires { s.offp ≤ 32 }
    ensures { (p : PlannerOf) (e : DraftOf) → Draws s p d e → Draws s p result (sent (context_of s) (packet_of c) e) }
{
    let p = d.planner;
    let ch = p.channel;
    let slot = least_from(s, ch, record_at(PacketAt(0), c), p.now);
    let at = clipped(slot);
    let q = placed_in(s, p, at, c);
    let next = after(s, ch, q);
    let planner = PlannerState {
        channel: next,
        now: at,
        mask: shifted(s, p, record_at(at, c)),
        ..p
    };
    let delay = data_delay(s, c).max(implied_delay(s, p, record_at(at, c)));
    added(d, planner, q, is_late(slot, delay))
}

// NOCOP, which retires the older write.
fn flushed(s: Settings, d: Draft) -> Draft
    requires { s.offp ≤ 32 }
    ensures { (p : PlannerOf) (e : DraftOf) → Draws s p d e → Draws s p result (flushed (context_of s) e) }
{
    sent(s, Command::Col(ColPacket::Nocop { mask: FULL }), d)
}

// NOCOP where a test of the buffer passes.
fn flushed_if<F: Fn(Buffer) -> bool>(s: Settings, test: F, d: Draft) -> Draft
    requires offp_bound { s.offp ≤ 32 }
    requires callable { F.IsAlwaysCallable test }
    ensures { (asks : List WriteOf → Bool) → Tells (F.post test) (λ b. asks (waiting_of b)) → (p : PlannerOf) (e : DraftOf) → Draws s p d e → Draws s p result (when (asks (waiting e)) (flushed (context_of s)) e) }
{
    let p = d.planner;
    let ch = p.channel;
    if test(ch.buffer) {
        return flushed(s, d);
    }
    d
}

// NOCOP while the test passes; two writes wait at most.
fn flushed_while<F: Fn(Buffer) -> bool + Copy>(s: Settings, test: F, d: Draft) -> Draft
    requires offp_bound { s.offp ≤ 32 }
    requires callable { F.IsAlwaysCallable test }
    ensures { (asks : List WriteOf → Bool) → Tells (F.post test) (λ b. asks (waiting_of b)) → (p : PlannerOf) (e : DraftOf) → Draws s p d e → Draws s p result (flushed_while (context_of s) asks e) }
{
    flushed_if(s, test, flushed_if(s, test, d))
}

// PRER; first NOCOP until no write waits in a bank that it closes.
fn closed(s: Settings, x: u32, d: Draft) -> Draft
    requires { s.offp ≤ 32 }
    ensures { (p : PlannerOf) (e : DraftOf) → Draws s p d e → Draws s p result (closed (context_of s) x e) }
{
    let z = flushed_while(s, move |b| loses(s, x, b), d);
    sent(s, Command::Row(RowPacket::Prer { bank: x }), z)
}

// Of the banks that a test picks, the open ones in rising order.
fn closed_up_to<F: Fn(u32) -> bool>(s: Settings, banks: F, d: Draft) -> Draft
    requires offp_bound { s.offp ≤ 32 }
    requires callable { F.IsAlwaysCallable banks }
    ensures { (pick : ℕ → Bool) → Tells (λ x r. (x < 32) × F.post banks x r) pick → (p : PlannerOf) (e : DraftOf) → Draws s p d e → Draws s p result (closed_up_to (context_of s) pick bank_count e) }
{
    let mut z = d;
    for x in 0..32 {
        let p = z.planner;
        if banks(x) & not_closed(p, x) {
            z = closed(s, x, z);
        }
    }
    z
}

// A row that is not open: of the bank and its neighbours, close the open ones, then ACT.
fn reached(s: Settings, bank: u32, row: u32, d: Draft) -> Draft
    requires { s.offp ≤ 32 }
    ensures { (p : PlannerOf) (e : DraftOf) → Draws s p d e → Draws s p result (reached (context_of s) bank row e) }
{
    let p = d.planner;
    if open_on(p, bank, row) {
        return d;
    }
    let z = closed_up_to(s, move |x| is_near(s, bank, x), d);
    sent(s, Command::Row(RowPacket::Act { bank, row }), z)
}

// RD or RDA; first NOCOP while two writes wait, or one has that bank and column, or one would lose its bank.
fn planned_read(s: Settings, close: bool, at: Place, d: Draft) -> Draft
    requires { s.offp ≤ 32 }
    ensures { (p : PlannerOf) (e : DraftOf) → Draws s p d e → Draws s p result (planned_read (context_of s) close at e) }
{
    let y = reached(s, at.bank, at.row, d);
    let z = flushed_while(s, move |b| delays(s, close, at, b), y);
    let rd = ColPacket::Rd {
        bank: at.bank,
        column: at.column,
        mask: FULL,
        close: close,
    };
    sent(s, Command::Col(rd), z)
}

// D after a WR, which now waits with its own mask, beside an older write or alone.
fn loaded(s: Settings, mask: u32, bytes: Dualoct, d: Draft) -> Draft
    requires { s.offp ≤ 32 }
    ensures { (p : PlannerOf) (e : DraftOf) → Draws s p d e → Draws s p result (loaded (context_of s) mask bytes e) }
{
    let p = d.planner;
    let Some(t) = settings::instants::write_arrival(s, p.now) else {
        return moved(d, p, true);
    };
    let q = Record::DataOf(t, bytes);
    let ch = p.channel;
    let beside = two(ch.buffer);
    let planner = PlannerState {
        channel: after(s, ch, q),
        mask: if beside { p.mask } else { mask },
        second: if beside { mask } else { p.second },
        ..p
    };
    added(d, planner, q, false)
}

// WR or WRA, which carries the mask of the write that it retires and never its own; then D.
fn written(s: Settings, close: bool, at: Place, mask: u32, bytes: Dualoct, d: Draft) -> Draft
    requires { s.offp ≤ 32 }
    ensures { (p : PlannerOf) (e : DraftOf) → Draws s p d e → Draws s p result (written (context_of s) close at mask bytes e) }
{
    let wr = ColPacket::Wr {
        bank: at.bank,
        column: at.column,
        mask: FULL,
        close: close,
    };
    loaded(s, mask, bytes, sent(s, Command::Col(wr), d))
}

// Then, after a WRA, the NOCOPs until it has retired.
fn planned_write(s: Settings, close: bool, at: Place, mask: u32, bytes: Dualoct, d: Draft) -> Draft
    requires { s.offp ≤ 32 }
    ensures { (p : PlannerOf) (e : DraftOf) → Draws s p d e → Draws s p result (planned_write (context_of s) close at mask bytes e) }
{
    let z = written(s, close, at, mask, bytes, reached(s, at.bank, at.row, d));
    flushed_while(s, |b| closing(b), z)
}

// Close as above, REFA, REFP, next bank modulo 32.
fn planned_refresh(s: Settings, d: Draft) -> Draft
    requires { s.offp ≤ 32 }
    ensures { (p : PlannerOf) (e : DraftOf) → Draws s p d e → Draws s p result (planned_refresh (context_of s) e) }
{
    let bank = d.planner.refresh;
    let y = closed_up_to(s, move |x| is_near(s, bank, x), d);
    let z = sent(s, Command::Row(RowPacket::Refa { bank }), y);
    turned(sent(s, Command::Row(RowPacket::Refp { bank }), z))
}

// NOCOP until no write waits.
fn planned_flush(s: Settings, d: Draft) -> Draft
    requires { s.offp ≤ 32 }
    ensures { (p : PlannerOf) (e : DraftOf) → Draws s p d e → Draws s p result (planned_flush (context_of s) e) }
{
    flushed_while(s, |b| waits(b), d)
}

// PRER to each open bank in rising order.
fn planned_close(s: Settings, d: Draft) -> Draft
    requires { s.offp ≤ 32 }
    ensures { (p : PlannerOf) (e : DraftOf) → Draws s p d e → Draws s p result (planned_close (context_of s) e) }
{
    closed_up_to(s, |_| true, d)
}

// What a request makes of a planner, with its records.
pub(crate) fn planned(s: Settings, q: Request, p: PlannerState) -> Draft
    requires offp_bound { s.offp ≤ 32 }
    requires horizon_value { leb p.now.0 horizon ≡ true }
    ensures { Draws s p result (planned (context_of s) q p) }
{
    let d = start(p);
    match q {
        Request::Read(at, close) => planned_read(s, close, at, d),
        Request::Write(at, mask, bytes, close) => planned_write(s, close, at, mask, bytes, d),
        Request::Refresh => planned_refresh(s, d),
        Request::Wait(cycles) => waited(cycles, d),
        Request::Flush => planned_flush(s, d),
        Request::Close => planned_close(s, d),
    }
}
