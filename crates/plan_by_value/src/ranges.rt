// Which states of a planner are refused (document 01, "What is turned back").
ghost use Rattle.std.specs.Prelude.{◌≡◌, true};
ghost use Rattle.num.specs.Search.{all_up_to};
ghost use Rattle.settings.specs.Instants.{is_instant};
ghost use Rattle.spec_rules.specs.Neighbour.{bank_count, context_of};
ghost use Rattle.spec_rules.specs.History.{is_open, all_writes};
ghost use Rattle.spec_rules.specs.Channel.{track_of, state_of, waiting_of};
ghost use Rattle.spec_state.specs.Valid.{is_stamp, bank_valid, track_valid, write_valid, lasts_valid, apart, channel_valid};
ghost use Rattle.spec_plan.specs.Planner.{not_refresh, planner_valid};
ghost use Rattle.plan_by_value.specs.Form.Tested.{low_apart};

use crate::asks::{closing, waits};
use chan_view::banks::{is_closed, is_open, slot_of, track_of};
use chan_view::neighbours::low_of;
use settings::{HORIZON, PacketAt, Settings};
use spec_plan::PlannerState;
use spec_rules::{Bank, BankTrack, Buffer, Channel, Write};

fn is_instant(t: PacketAt) -> bool
    ensures { result ≡ is_instant t.0 }
{
    (4 <= t.0) & (t.0 <= HORIZON)
}

// Whether a last instant is 0, for none, or an instant.
fn is_stamp(t: PacketAt) -> bool
    ensures { result ≡ is_stamp t.0 }
{
    (t.0 == 0) | is_instant(t)
}

fn bank_valid(s: Settings, b: Bank) -> bool
    ensures { result ≡ bank_valid (context_of s) b }
{
    match b {
        Bank::Closed => true,
        Bank::Open(r) => r < s.rows,
        Bank::Refresh => true,
    }
}

fn track_valid(s: Settings, t: BankTrack) -> bool
    ensures { result ≡ track_valid (context_of s) t }
{
    let b = t.bank;
    let reads = is_stamp(t.pre) & (is_stamp(t.rd) & is_stamp(t.retire));
    bank_valid(s, b) & (is_stamp(t.opened) & (is_stamp(t.act) & reads))
}

fn tracks_valid(s: Settings, ch: Channel) -> bool
    ensures { result ≡ all_up_to (λ x. track_valid (context_of s) (track_of ch x)) bank_count }
{
    let mut right = true;
    for x in 0..32 {
        let t = ch.banks[x];
        right = right & track_valid(s, t);
    }
    right
}

fn lasts_valid(ch: Channel) -> bool
    ensures { result ≡ lasts_valid ch }
{
    let l = ch.lasts;
    let rest = is_stamp(l.col) & (is_stamp(l.pre) & (is_stamp(l.rd) & is_stamp(l.implied)));
    is_stamp(l.packet) & (is_stamp(l.row) & rest)
}

fn write_valid(s: Settings, w: Write) -> bool
    ensures { result ≡ write_valid (context_of s) w }
{
    (w.bank < 32) & ((w.column < s.columns) & is_instant(w.at))
}

fn writes_valid(s: Settings, b: Buffer) -> bool
    ensures { result ≡ all_writes (write_valid (context_of s)) (waiting_of b) }
{
    match b {
        Buffer::Empty => true,
        Buffer::One(w) => write_valid(s, w),
        Buffer::Two(x, y) => write_valid(s, x) & write_valid(s, y),
    }
}

// Whether a bank or the one below it is closed.
fn low_apart(s: Settings, ch: Channel, x: u32) -> bool
    ensures { result ≡ low_apart s ch x }
{
    let i = slot_of(x);
    let own = track_of(x, ch.banks[i]);
    let b = low_of(s, x);
    let j = slot_of(b);
    let low = track_of(b, ch.banks[j]);
    is_closed(low) | is_closed(own)
}

// Whether of two neighbours one is closed.
fn apart(s: Settings, ch: Channel) -> bool
    ensures { result ≡ apart (context_of s) (state_of ch) }
{
    let mut right = true;
    for x in 0..32 {
        right = right & low_apart(s, ch, x);
    }
    right
}

// Whether the bank of a waiting write is open by ACT.
fn write_open(ch: Channel, w: Write) -> bool
    ensures { result ≡ is_open (state_of ch w.bank) }
{
    let i = slot_of(w.bank);
    is_open(track_of(w.bank, ch.banks[i]))
}

fn writes_open(ch: Channel) -> bool
    ensures { result ≡ all_writes (λ w. is_open (state_of ch w.bank)) (waiting_of ch.buffer) }
{
    let b = ch.buffer;
    match b {
        Buffer::Empty => true,
        Buffer::One(w) => write_open(ch, w),
        Buffer::Two(x, y) => write_open(ch, x) & write_open(ch, y),
    }
}

fn channel_valid(s: Settings, ch: Channel) -> bool
    ensures { result ≡ channel_valid (context_of s) ch }
{
    let b = ch.buffer;
    let ranges = tracks_valid(s, ch) & (lasts_valid(ch) & writes_valid(s, b));
    let due = !ch.due | waits(b);
    ranges & (apart(s, ch) & (writes_open(ch) & due))
}

fn not_refresh(t: BankTrack) -> bool
    ensures { result ≡ not_refresh t.bank }
{
    let b = t.bank;
    match b {
        Bank::Closed => true,
        Bank::Open(_) => true,
        Bank::Refresh => false,
    }
}

fn none_refreshed(ch: Channel) -> bool
    ensures { result ≡ all_up_to (λ x. not_refresh (state_of ch x)) bank_count }
{
    let mut right = true;
    for x in 0..32 {
        let t = ch.banks[x];
        right = right & not_refresh(t);
    }
    right
}

// Whether refusal 1 has nothing against a state.
pub(crate) fn planner_valid(s: Settings, p: PlannerState) -> bool
    ensures { result ≡ planner_valid (context_of s) p }
{
    let ch = p.channel;
    let fields = is_instant(p.now) & ((p.refresh < 32) & ((p.mask < 65536) & (p.second < 65536)));
    let b = ch.buffer;
    let between = none_refreshed(ch) & (!closing(b) & (!ch.due & fields));
    channel_valid(s, ch) & between
}
