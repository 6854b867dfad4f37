// The least instant that the rules allow a packet in a state, and the quick way through a packet that breaks none.
#![tactic(auto)]

pub mod bounds;
pub mod quick;

ghost use Rattle.std.specs.Prelude.{◌≡◌};
ghost use Rattle.spec_rules.specs.Neighbour.{context_of};
ghost use Rattle.spec_rules.specs.Earliest.{least_from};
ghost use Rattle.chan_view.specs.Form.Beside.{tracks_of};
ghost use Rattle.chan_view.specs.Form.Bounds.{bound_if};
ghost use Rattle.chan_judge.specs.Form.Tests.{act_over};
ghost use Rattle.chan_least.specs.Form.Least.{packet_bound, may_stay_by, leaves_from, retire_least, centre_by, least_by};

use crate::bounds::{
    close_bound, implied_bound, latest_of, nocop_bound, open_bound, read_bound, retire_bound,
    write_bound,
};
use chan_judge::acts::act_bound;
use chan_view::banks::{around, slot_of};
use chan_view::neighbours::{high_of, low_of};
use chan_view::views::{held_of, seen_of, stays};
use chan_view::{Held, Seen, Tracks, View};
use record::Record;
use settings::{PacketAt, Settings};
use spec_rules::{BankTrack, Channel, LastInstants};

// What the rules ask of a packet, but for what it retires; act is what rule 5 asks of an ACT or REFA.
fn packet_bound(s: Settings, v: View, k: Tracks, act: u64, l: LastInstants) -> u64
    ensures { result ≡ packet_bound s v k act l }
{
    if v.opens {
        return open_bound(s, l, act, latest_of(k.own.pre, k.low.pre, k.high.pre));
    }
    if v.precharges {
        let opened = latest_of(k.own.opened, k.low.opened, k.high.opened);
        let rd = latest_of(k.own.rd, k.low.rd, k.high.rd);
        let retire = latest_of(k.own.retire, k.low.retire, k.high.retire);
        return close_bound(s, l, opened, rd, retire);
    }
    if v.reads {
        let read = read_bound(s, l, k.own.act);
        return read.max(implied_bound(s, v.close, l, k.own, k.low, k.high));
    }
    if v.writes {
        return write_bound(s, l, k.own.act);
    }
    nocop_bound(s, l)
}

// Whether a packet may leave the waiting writes as they are: rules 12 and 17.
fn may_stay(h: Held, v: View) -> bool
    ensures { result ≡ may_stay_by h v }
{
    stays(h, v) & (!(h.close | h.next_close) | !(v.row | v.writes))
}

// Whether a packet that is free to come from an instant on retires the older write: tRTR has passed there, or it may not leave it.
fn leaves_from(s: Settings, h: Held, v: View, free: u64) -> bool
    ensures { result ≡ leaves_from s h v free }
{
    let passed = u64::from(h.at.0) + u64::from(s.rtr) <= free;
    h.waits & (v.other & (!may_stay(h, v) | passed))
}

// What the rules ask of the retire of the older write.
fn retire_least(s: Settings, h: Held, k: Tracks, l: LastInstants) -> u64
    ensures { result ≡ retire_least s h k l }
{
    retire_bound(s, h.at, k.held.act).max(implied_bound(s, h.close, l, k.held, k.low, k.high))
}

// The least instant of a packet from now on, from the tracks of the banks that it concerns.
fn least_by(
    s: Settings,
    v: View,
    h: Held,
    k: Tracks,
    act: u64,
    l: LastInstants,
    now: PacketAt,
) -> u64
    ensures { result ≡ least_by s v h k act l now.0 }
{
    let free = u64::from(now.0).max(4).max(packet_bound(s, v, k, act, l));
    if leaves_from(s, h, v, free) {
        return free.max(retire_least(s, h, k, l));
    }
    free
}

// What rule 5 asks, where a bank is opened.
fn act_in(s: Settings, opens: bool, banks: [BankTrack; 32], b: u32) -> u64
    ensures { result ≡ bound_if opens (act_over s banks b) }
{
    if opens {
        return act_bound(s, banks, b);
    }
    0
}

// The bank whose neighbours count: of a packet that may retire a closing write that write's, else the one that it names.
fn centre_by(h: Held, v: View) -> u32
    ensures { result ≡ centre_by h v }
{
    if v.other & h.close { h.bank } else { v.bank }
}

// The tracks of bank b, of the neighbours of bank c and of the waiting writes' banks.
fn tracks_in(s: Settings, banks: [BankTrack; 32], b: u32, c: u32, h: Held) -> Tracks
    ensures { result ≡ tracks_of s banks b c h }
{
    let i = slot_of(b);
    let j = slot_of(low_of(s, c));
    let n = slot_of(high_of(s, c));
    let m = slot_of(h.bank);
    let o = slot_of(h.next);
    around(s, b, c, h, banks[i], banks[j], banks[n], banks[m], banks[o])
}

// The least instant of a record from now on that the rules allow in a state.
pub fn least_from(s: Settings, ch: Channel, r: Record, now: PacketAt) -> u64
    ensures { result ≡ least_from (context_of s) ch r now.0 }
{
    let Seen::Packet(v) = seen_of(r) else {
        return u64::from(now.0).max(4);
    };
    let buffer = ch.buffer;
    let banks = ch.banks;
    let h = held_of(buffer, ch.due);
    let k = tracks_in(s, banks, v.bank, centre_by(h, v), h);
    let act = act_in(s, v.opens, banks, v.bank);
    least_by(s, v, h, k, act, ch.lasts, now)
}
