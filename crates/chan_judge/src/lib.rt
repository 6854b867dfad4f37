// The lowest rule that a record breaks in a state of the channel.
#![tactic(auto)]

pub mod acts;
pub mod tests;

ghost use Rattle.std.specs.Prelude.{◌≡◌, cond};
ghost use Rattle.spec_rules.specs.Neighbour.{context_of};
ghost use Rattle.spec_rules.specs.Checks.{judged};
ghost use Rattle.chan_view.specs.Form.Beside.{tracks_of};
ghost use Rattle.chan_view.specs.Form.View.{centre_of};
ghost use Rattle.chan_judge.specs.Form.Tests.{act_over, lowest_or, pin_tests, row_tests, col_tests, buffer_tests, packet_rule, data_rule};

use chan_view::banks::{around, slot_of};
use chan_view::bounds::{after_gap, keeps};
use chan_view::neighbours::{high_of, low_of};
use chan_view::views::{centre, held_of, leaving, seen_of, stays};
use chan_view::{Held, Seen, Tracks, View};
use record::Record;
use settings::instants::write_arrival;
use settings::{DataAt, PacketAt, Settings};
use spec_rules::{Channel, LastInstants};

// The PRER of a packet, its own or one that it implies: whether there is one, its instant and its bank; of that bank the last
// instants before the packet, of an ACT or REFA, of an RD and of a retire. A flag, not an Option: each rule tests it once, and the
// definitions of the tests speak of a record whose flag is false too.
#[derive(Clone, Copy)]
pub struct Precharge {
    pub applies: bool,
    pub at: u64,
    pub bank: u32,
    pub opened: PacketAt,
    pub rd: PacketAt,
    pub retire: PacketAt,
}

// The rule where its test failed, or what the later rules found.
fn unless(ok: bool, rule: u32, rest: u32) -> u32
    ensures { result ≡ cond ok rest rule }
{
    if ok { rest } else { rule }
}

// Rules 1 to 3.
fn pin_rules(s: Settings, v: View, p: Precharge, l: LastInstants, rest: u32) -> u32
    ensures { result ≡ lowest_or rest 1 (pin_tests s v p l) }
{
    let n3 = unless(tests::apart(v.col, l.col, s.cc, v.at), 3, rest);
    let n2 = unless(tests::apart(v.row, l.row, 4, v.at), 2, n3);
    unless(tests::in_order(s, v, p.at, l.packet), 1, n2)
}

// Rules 4 to 8; act is what all banks ask by rule 5.
fn row_rules(
    s: Settings,
    v: View,
    p: Precharge,
    k: Tracks,
    act: u64,
    l: LastInstants,
    rest: u32,
) -> u32
    ensures { result ≡ lowest_or rest 4 (row_tests s v p k act l) }
{
    let n8 = unless(tests::prer_keeps(p, after_gap(l.pre, s.pp)), 8, rest);
    let n7 = unless(tests::closed_long(s, v, k), 7, n8);
    let n6 = unless(tests::open_long(s, p, k), 6, n7);
    let n5 = unless(keeps(v.opens, act, v.at), 5, n6);
    unless(tests::finds_closed(v, k), 4, n5)
}

// Rules 9 to 13; out says whether the older write is retired.
fn col_rules(
    s: Settings,
    v: View,
    h: Held,
    out: bool,
    p: Precharge,
    k: Tracks,
    l: LastInstants,
    rest: u32,
) -> u32
    ensures { result ≡ lowest_or rest 9 (col_tests s v h out p k l) }
{
    let n13 = unless(tests::columns_done(s, p, k), 13, rest);
    let n12 = unless(out | stays(h, v), 12, n13);
    let n11 = unless(tests::turned(s, v, l.rd), 11, n12);
    let n10 = unless(tests::row_ready(s, v, out, k), 10, n11);
    unless(tests::finds_open(s, v, h, out, k), 9, n10)
}

// Rules 14 to 17.
fn buffer_rules(
    s: Settings,
    v: View,
    h: Held,
    out: bool,
    p: Precharge,
    k: Tracks,
    l: LastInstants,
) -> u32
    ensures { result ≡ lowest_or 0 14 (buffer_tests s v h out p k l) }
{
    let n17 = unless(tests::row_free(v, h, out, l.implied), 17, 0);
    let n16 = unless(!v.masked | out, 16, n17);
    let n15 = unless(!h.due, 15, n16);
    unless(tests::write_safe(s, p, h, out, k), 14, n15)
}

// The lowest rule that a packet breaks, or 0, from the tracks of the banks that it concerns. For an ACT or REFA, act is what all
// banks ask by rule 5.
pub fn packet_rule(s: Settings, v: View, h: Held, k: Tracks, act: u64, l: LastInstants) -> u32
    ensures { result ≡ packet_rule s v h k act l }
{
    let out = leaving(s, h, v);
    let p = tests::prer_of(s, v, h, out, k);
    let n14 = buffer_rules(s, v, h, out, p, k, l);
    let n9 = col_rules(s, v, h, out, p, k, l, n14);
    let n4 = row_rules(s, v, p, k, act, l, n9);
    pin_rules(s, v, p, l, n4)
}

// The lowest rule that a data record at this instant breaks, or 0.
pub fn data_rule(s: Settings, h: Held, t: DataAt) -> u32
    ensures { result ≡ data_rule s h t }
{
    let right = h.due & tests::comes_at(t, write_arrival(s, h.newest));
    unless(tests::in_range(t.0), 1, unless(right, 15, 0))
}

// The lowest rule that a packet breaks in a state, or 0, where h is the write buffer of that state.
fn packet_in(s: Settings, ch: Channel, h: Held, v: View) -> u32
    ensures { result ≡ packet_rule s v h (tracks_of s ch.banks v.bank (centre_of s h v) h) (act_over s ch.banks v.bank) ch.lasts }
{
    let i = slot_of(v.bank);
    let own = ch.banks[i];
    let c = centre(s, h, v);
    let j = slot_of(low_of(s, c));
    let low = ch.banks[j];
    let n = slot_of(high_of(s, c));
    let high = ch.banks[n];
    let m = slot_of(h.bank);
    let held = ch.banks[m];
    let o = slot_of(h.next);
    let next = ch.banks[o];
    let k = around(s, v.bank, c, h, own, low, high, held, next);
    if v.opens {
        let banks = ch.banks;
        return packet_rule(s, v, h, k, acts::act_bound(s, banks, v.bank), ch.lasts);
    }
    packet_rule(s, v, h, k, 0, ch.lasts)
}

// The lowest rule that a record breaks in a state, or 0: a number, as the definition `judged` that the theorems speak of.
pub fn judge(s: Settings, ch: Channel, r: Record) -> u32
    ensures { result ≡ judged (context_of s) ch r }
{
    let buffer = ch.buffer;
    let h = held_of(buffer, ch.due);
    let seen = seen_of(r);
    match seen {
        Seen::Packet(v) => packet_in(s, ch, h, v),
        Seen::Data(t) => data_rule(s, h, t),
    }
}
