// What the steps ask of a planner.
ghost use Rattle.std.specs.Prelude.{◌≡◌, Bool, true, not};
ghost use Rattle.spec_rules.specs.declared.Write.{Write as WriteOf};
ghost use Rattle.spec_rules.specs.Neighbour.{context_of};
ghost use Rattle.spec_rules.specs.History.{is_closed, any_write, two};
ghost use Rattle.spec_rules.specs.Rules.{implied_delay};
ghost use Rattle.spec_rules.specs.Channel.{track_of, state_of, waiting_of, leaving_of};
ghost use Rattle.spec_plan.specs.Plan.{carried, shifted, open_on, loses, delays};
ghost use Rattle.spec_plan.specs.Call.{unretired};
ghost use Rattle.plan_by_value.specs.Form.Told.{Tells};

use chan_step::retires;
use chan_view::banks::{is_closed, slot_of, track_of};
use chan_view::neighbours::is_near;
use chan_view::views::held_of;
use packet::FULL;
use record::{Place, Record, Request};
use settings::Settings;
use spec_plan::PlannerState;
use spec_rules::{Bank, BankTrack, Buffer, Write};

// Whether a write waits that passes a test.
fn any_write<F: Fn(Write) -> bool>(b: Buffer, test: F) -> bool
    requires { F.IsAlwaysCallable test }
    ensures { (asks : WriteOf → Bool) → Tells (F.post test) asks → result ≡ any_write asks (waiting_of b) }
{
    match b {
        Buffer::Empty => false,
        Buffer::One(w) => test(w),
        Buffer::Two(x, y) => test(x) | test(y),
    }
}

pub(crate) fn waits(b: Buffer) -> bool
    ensures { result ≡ any_write (λ w. true) (waiting_of b) }
{
    any_write(b, |_| true)
}

// Whether a WRA waits.
pub(crate) fn closing(b: Buffer) -> bool
    ensures { result ≡ any_write (λ w. w.close) (waiting_of b) }
{
    any_write(b, |w| w.close)
}

// Whether a PRER to a bank would lose a waiting write.
pub(crate) fn loses(s: Settings, x: u32, b: Buffer) -> bool
    ensures { result ≡ loses (context_of s) x (waiting_of b) }
{
    any_write(b, move |w| is_near(s, x, w.bank))
}

// Whether an RD or RDA must not come yet.
pub(crate) fn delays(s: Settings, close: bool, at: Place, b: Buffer) -> bool
    ensures { result ≡ delays (context_of s) close at (waiting_of b) }
{
    let hit = any_write(b, move |w| (w.bank == at.bank) & (w.column == at.column));
    two(b) | (hit | (close & loses(s, at.bank, b)))
}

// Whether a request is a close while a write waits.
pub(crate) fn unretired(q: Request, p: PlannerState) -> bool
    ensures { result ≡ unretired q p }
{
    match q {
        Request::Read(_, _) => false,
        Request::Write(_, _, _, _) => false,
        Request::Refresh => false,
        Request::Wait(_) => false,
        Request::Flush => false,
        Request::Close => waits(p.channel.buffer),
    }
}

// Whether two writes wait.
pub(crate) fn two(b: Buffer) -> bool
    ensures { result ≡ two (waiting_of b) }
{
    match b {
        Buffer::Empty => false,
        Buffer::One(_) => false,
        Buffer::Two(_, _) => true,
    }
}

// The mask that a packet in its place carries: that of the write which it retires there, if it does.
pub(crate) fn carried(s: Settings, p: PlannerState, q: Record) -> u32
    ensures { result ≡ carried (leaving_of (context_of s) p.channel q) p.mask }
{
    let ch = p.channel;
    let b = ch.buffer;
    if retires(s, held_of(b, ch.due), q) {
        return p.mask;
    }
    FULL
}

// The older write's mask once a packet is in its place: where it retires the older write, the newer one moves up.
pub(crate) fn shifted(s: Settings, p: PlannerState, q: Record) -> u32
    ensures { result ≡ shifted (leaving_of (context_of s) p.channel q) p.mask p.second }
{
    let ch = p.channel;
    let b = ch.buffer;
    if retires(s, held_of(b, ch.due), q) {
        return p.second;
    }
    p.mask
}

// How long after a packet in its place the PRER comes that its retire implies, if it does.
pub(crate) fn implied_delay(s: Settings, p: PlannerState, q: Record) -> u32
    ensures { result ≡ implied_delay (context_of s) (leaving_of (context_of s) p.channel q) }
{
    let ch = p.channel;
    let b = ch.buffer;
    let h = held_of(b, ch.due);
    if retires(s, h, q) & h.close {
        return s.offp;
    }
    0
}

fn track_in(p: PlannerState, x: u32) -> BankTrack
    ensures { result ≡ track_of p.channel x }
{
    let ch = p.channel;
    let i = slot_of(x);
    track_of(x, ch.banks[i])
}

// Whether a bank is not closed.
pub(crate) fn not_closed(p: PlannerState, x: u32) -> bool
    ensures { result ≡ not (is_closed (state_of p.channel x)) }
{
    !is_closed(track_in(p, x))
}

fn open_row(b: Bank, row: u32) -> bool
    ensures { result ≡ open_on b row }
{
    match b {
        Bank::Closed => false,
        Bank::Open(r) => r == row,
        Bank::Refresh => false,
    }
}

pub(crate) fn open_on(p: PlannerState, bank: u32, row: u32) -> bool
    ensures { result ≡ open_on (state_of p.channel bank) row }
{
    let t = track_in(p, bank);
    let b = t.bank;
    open_row(b, row)
}
