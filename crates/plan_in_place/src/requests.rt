// Requests on the bytes of a planner.
ghost use Rattle.std.specs.Prelude.{◌≡◌, true, false, cond, ◌/◌, ◌<◌, ◌≤◌, ◌^◌, max, leb, length};
ghost use Rattle.num.specs.Bytes.{splice};
ghost use Rattle.settings.specs.Settings.{valid};
ghost use Rattle.record.proofs.RequestLaws.{InPlace, InRange};
ghost use Rattle.record.specs.declared.Request.TheVariants.{Read, Write, Close};
ghost use Rattle.spec_rules.specs.Neighbour.{context_of};
ghost use Rattle.spec_rules.specs.Checks.{since};
ghost use Rattle.spec_plan.specs.Plan.{state_in, planned_read, planned_write, planned_refresh, planned_wait, planned_flush, planned_close, planned, reached};
ghost use Rattle.spec_plan.specs.Call.{list_bytes, timely, unretired};
ghost use Rattle.spec_plan.specs.Looked.{looked_up_to, looked};
ghost use Rattle.spec_plan.specs.PlannerBytes.{planner_bytes, planner_in, planner_right};
ghost use Rattle.spec_plan.proofs.Timely.{data_before};
ghost use Rattle.plan_bytes.specs.Form.Numbers.{word, Below};
ghost use Rattle.plan_bytes.specs.Form.Drawn.{drafted, Rested, Drawn};

use num::put::{put_u16, put_u32};
use num::u16_at;
use plan_bytes::{after, stored, waits};
use plan_packets::cols::{data_at, rd, rda, wr};
use plan_packets::rows::refresh_bank;
use plan_steps::{
    Walked, close_all, close_near, flush_all, flush_closing, flush_delaying, flush_wra, on_row,
    open_row,
};
use record::{Dualoct, Place, Request};
use settings::Settings;
use spec_plan::PlannerBytes;

// "To reach a row that is not open". The test of the row is apart from what opens it, so that a request of an open row takes it in
// line.
fn reach(s: Settings, b: &mut PlannerBytes, at: Place, room: &mut [u8]) -> usize
    requires rested { Rested s 999999997 b.old }
    requires in_place { InPlace s at }
    requires in_bounds { 1024 ≤ length room.old }
    ensures { Drawn s (reached (context_of s) at.bank at.row (drafted b.old)) room.old 0 b.new room.new result }
{
    if on_row(b, at.bank, at.row) {
        return 0;
    }
    open_row(s, b, at.bank, at.row, room)
}

// The row reached; "The planner sends NOCOP before an RD while two wait, and before a read [..] until the write concerned has
// retired", and "NOCOPs before such an RDA"; then RD, or RDA.
fn read(s: Settings, b: &mut PlannerBytes, at: Place, close: bool, room: &mut [u8]) -> usize
    requires rested { Rested s 999999997 b.old }
    requires in_place { InPlace s at }
    requires in_bounds { 1024 ≤ length room.old }
    ensures { Drawn s (planned_read (context_of s) close at (drafted b.old)) room.old 0 b.new room.new result }
{
    let to = reach(s, b, at, room);
    if close {
        let next = flush_closing(s, b, at, room, to);
        return rda(s, b, at.bank, at.column, room, next);
    }
    let next = flush_delaying(s, b, at, room, to);
    rd(s, b, at.bank, at.column, room, next)
}

// Where the next record goes after a write, and the instant of its D where NOCOPs follow it; else 0, as in `data_before`, of which a
// theorem speaks: no plainer as an `Option`, since 0 is in time.
#[derive(Clone, Copy)]
struct Written {
    to: usize,
    due: u32,
}

// "Write: WR, then D."; of a WRA "the planner sends the NOCOPs for it in the same request".
fn write(
    s: Settings,
    b: &mut PlannerBytes,
    at: Place,
    close: bool,
    mask: u32,
    d: Dualoct,
    room: &mut [u8],
) -> Written
    requires rested { Rested s 999999997 b.old }
    requires in_place { InPlace s at }
    requires mask_bound { mask < 2 ^ 16 }
    requires in_bounds { 1024 ≤ length room.old }
    ensures drawn { Drawn s (planned_write (context_of s) close at mask d (drafted b.old)) room.old 0 b.new room.new result.to }
    ensures due_value { result.due ≡ data_before (context_of s) (Write at mask d close) (planner_in b.old) }
{
    let to = reach(s, b, at, room);
    let next = wr(s, b, at, close, mask, d, room, to);
    if close {
        let due = data_at(s, stored(b, 752));
        let end = flush_wra(s, b, room, next);
        return Written {
            to: end,
            due: due.0,
        };
    }
    Written { to: next, due: 0 }
}

// "Refresh: close as above, REFA, REFP, next bank modulo 32."
fn refresh(s: Settings, b: &mut PlannerBytes, room: &mut [u8]) -> usize
    requires rested { Rested s 999999997 b.old }
    requires in_bounds { 1024 ≤ length room.old }
    ensures { Drawn s (planned_refresh (context_of s) (drafted b.old)) room.old 0 b.new room.new result }
{
    let bank = u16_at(b, 756);
    let to = close_near(s, b, bank as usize, room);
    let next = refresh_bank(s, b, bank, room, to);
    put_u16(b, 756, u64::from((bank + 1) % 32));
    next
}

// "wait adds to" now.
fn wait(s: Settings, b: &mut PlannerBytes, cycles: u32)
    requires rested { Rested s 999999997 b.old }
    ensures { b.new ≡ planner_bytes (planned_wait (context_of s) cycles (drafted b.old)).planner }
{
    let now = after(b, 752, cycles);
    put_u32(b, 752, now);
}

// "flush: NOCOPs until no write waits."
fn flush(s: Settings, b: &mut PlannerBytes, room: &mut [u8]) -> usize
    requires rested { Rested s 999999997 b.old }
    requires in_bounds { 1024 ≤ length room.old }
    ensures { Drawn s (planned_flush (context_of s) (drafted b.old)) room.old 0 b.new room.new result }
{
    flush_all(s, b, room, 0)
}

// "close: PRER to each open bank in rising order."
fn close(s: Settings, b: &mut PlannerBytes, room: &mut [u8]) -> Walked
    requires rested { Rested s 999999997 b.old }
    requires b_value { unretired Close (planner_in b.old) ≡ false }
    requires in_bounds { 1024 ≤ length room.old }
    ensures drawn { Drawn s (planned_close (context_of s) (drafted b.old)) room.old 0 b.new room.new result.to }
    ensures banks_value { result.banks ≡ looked_up_to (state_in (drafted b.old)) 32 }
{
    close_all(s, b, room)
}

// Whether a request is a close while a write waits.
#[tactic(auto, unfolding(spec_plan::specs::Call::unretired))]
pub fn unretired(planner: &PlannerBytes, q: Request) -> bool
    ensures { result ≡ unretired q (planner_in planner.now) }
{
    match q {
        Request::Read(_, _) => false,
        Request::Write(_, _, _, _) => false,
        Request::Refresh => false,
        Request::Wait(_) => false,
        Request::Flush => false,
        Request::Close => waits(planner),
    }
}

// How many records a request made, how many banks a close looked at, and the instant of D of a write that closes its bank; else 0.
#[derive(Clone, Copy)]
pub struct Counts {
    pub records: usize,
    pub banks: u32,
    pub due: u32,
}

// Those of a request that is no close, whose records end at a place.
fn no_walk(to: usize, due: u32) -> Counts
    ensures { (result.records ≡ to / 32) × ((result.banks ≡ 0) × (result.due ≡ due)) }
{
    Counts {
        records: to / 32,
        banks: 0,
        due: due,
    }
}

// Those of a write.
fn loaded(w: Written) -> Counts
    ensures { (result.records ≡ w.to / 32) × ((result.banks ≡ 0) × (result.due ≡ w.due)) }
{
    no_walk(w.to, w.due)
}

// Those of a close.
fn walk(w: Walked) -> Counts
    requires { w.banks ≤ 32 }
    ensures { (result.records ≡ w.to / 32) × ((result.banks ≡ w.banks) × (result.due ≡ 0)) }
{
    Counts {
        records: w.to / 32,
        banks: w.banks as u32,
        due: 0,
    }
}

// A request in range from a state that is not refused, no close while a write waits, with room for the most records, and what it
// counts. The records may be late.
pub fn plan(s: Settings, planner: &mut PlannerBytes, q: Request, room: &mut [u8]) -> Counts
    requires s_value { valid s ≡ true }
    requires planner_value { planner_right (context_of s) planner.old ≡ true }
    requires in_range { InRange s q }
    requires retired { unretired q (planner_in planner.old) ≡ false }
    requires in_bounds { 1024 ≤ length room.old }
    ensures planner_after { planner.new ≡ planner_bytes (planned (context_of s) q (planner_in planner.old)).planner }
    ensures room_after { room.new ≡ splice room.old 0 (list_bytes s (planned (context_of s) q (planner_in planner.old)).records) }
    ensures records_value { result.records ≡ length (planned (context_of s) q (planner_in planner.old)).records }
    ensures banks_value { result.banks ≡ looked q (planner_in planner.old) }
    ensures due_value { result.due ≡ data_before (context_of s) q (planner_in planner.old) }
{
    match q {
        Request::Read(at, close) => no_walk(read(s, planner, at, close, room), 0),
        Request::Write(at, mask, d, close) => {
            loaded(write(s, planner, at, close, mask, d, room))
        }
        Request::Refresh => no_walk(refresh(s, planner, room), 0),
        Request::Wait(cycles) => {
            wait(s, planner, cycles);
            no_walk(0, 0)
        }
        Request::Flush => no_walk(flush(s, planner, room), 0),
        Request::Close => walk(close(s, planner, room)),
    }
}

// As `plan`, of a read that leaves its bank open. Apart for speed: most requests are such reads, and a caller who knows one makes no
// `Request` of it.
pub fn plan_read(s: Settings, planner: &mut PlannerBytes, at: Place, room: &mut [u8]) -> Counts
    requires s_value { valid s ≡ true }
    requires planner_value { planner_right (context_of s) planner.old ≡ true }
    requires in_place { InPlace s at }
    requires in_bounds { 1024 ≤ length room.old }
    ensures planner_after { planner.new ≡ planner_bytes (planned (context_of s) (Read at false) (planner_in planner.old)).planner }
    ensures room_after { room.new ≡ splice room.old 0 (list_bytes s (planned (context_of s) (Read at false) (planner_in planner.old)).records) }
    ensures records_value { result.records ≡ length (planned (context_of s) (Read at false) (planner_in planner.old)).records }
    ensures banks_value { result.banks ≡ looked (Read at false) (planner_in planner.old) }
    ensures due_value { result.due ≡ data_before (context_of s) (Read at false) (planner_in planner.old) }
{
    no_walk(read(s, planner, at, false, room), 0)
}

// Whether a time after now passes the last instant, which is stored less 3.
fn ends_by(b: &PlannerBytes, delay: u32) -> bool
    ensures { result ≡ leb (since (word b.now 752) delay) 999999997 }
{
    after(b, 752, delay) <= 999999997
}

// Whether refusal 7 has nothing against a request from a state of which no instant is high: a wait alone can pass the last instant.
pub fn in_time(s: Settings, planner: &PlannerBytes, q: Request) -> bool
    requires s_value { valid s ≡ true }
    requires planner_value { planner_right (context_of s) planner.now ≡ true }
    requires below { Below 999990000 planner.now }
    ensures { result ≡ timely (context_of s) (planner_in planner.now) (planned (context_of s) q (planner_in planner.now)) }
{
    match q {
        Request::Read(_, _) => true,
        Request::Write(_, _, _, _) => true,
        Request::Refresh => true,
        Request::Wait(cycles) => ends_by(planner, cycles),
        Request::Flush => true,
        Request::Close => true,
    }
}

// How long after now the last instant of a read comes: its data, or the PRER that an RDA implies.
fn read_delay(s: Settings, close: bool) -> u32
    ensures { result ≡ cond close (max s.cac s.offp) s.cac }
{
    if close { s.cac.max(s.offp) } else { s.cac }
}

// The same of a write: its data, or the PRER that the retire of a WRA implies.
fn write_delay(s: Settings, close: bool) -> u32
    ensures { result ≡ cond close s.offp s.cwd }
{
    if close { s.offp } else { s.cwd }
}

// The same from any state, once the request is planned, by the bytes that it left: its last instant is now, that of its own data or
// that of a PRER which it implies. D of a closing write may come after both. What a wait leaves may have passed 2^32.
pub fn left_in_time(
    s: Settings,
    planner: &PlannerBytes,
    q: Request,
    left: &PlannerBytes,
    due: u32,
) -> bool
    requires s_value { valid s ≡ true }
    requires planner_value { planner_right (context_of s) planner.now ≡ true }
    requires in_range { InRange s q }
    requires left_value { left.now ≡ planner_bytes (planned (context_of s) q (planner_in planner.now)).planner }
    requires due_value { due ≡ data_before (context_of s) q (planner_in planner.now) }
    ensures { result ≡ timely (context_of s) (planner_in planner.now) (planned (context_of s) q (planner_in planner.now)) }
{
    match q {
        Request::Read(_, close) => ends_by(left, read_delay(s, close)),
        Request::Write(_, _, _, close) => {
            (due <= 1000000000) & ends_by(left, write_delay(s, close))
        }
        Request::Refresh => ends_by(left, 0),
        Request::Wait(cycles) => ends_by(planner, cycles),
        Request::Flush => ends_by(left, 0),
        Request::Close => ends_by(left, 0),
    }
}
