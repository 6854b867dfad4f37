// The lowest rule that a record breaks in the state that a model's bytes say: of the banks only those are read that it concerns.
#![tactic(auto)]

ghost use Rattle.std.specs.Prelude.{◌≡◌, true, ◌≤◌, length, get_or};
ghost use Rattle.spec_rules.specs.Neighbour.{context_of};
ghost use Rattle.spec_rules.specs.Channel.{never, idle};
ghost use Rattle.spec_rules.specs.Checks.{judged};
ghost use Rattle.spec_state.specs.ChannelBytes.{channel_in};
ghost use Rattle.spec_model.specs.ModelBytes.{model_in, model_right};
ghost use Rattle.state_bytes.specs.Form.Stored.{InRange};
ghost use Rattle.chan_view.specs.Form.Beside.{slot_of, tracks_of};
ghost use Rattle.chan_view.specs.Form.View.{held_of, centre_of};
ghost use Rattle.chan_judge.specs.Form.Tests.{act_over, packet_rule};

use chan_judge::acts::act_by;
use chan_judge::{data_rule, packet_rule};
use chan_view::banks::{around, slot_of, unused};
use chan_view::neighbours::{high_of, low_of};
use chan_view::views::{centre, held_of, seen_of};
use chan_view::{Held, Seen, View};
use record::Record;
use settings::Settings;
use spec_model::ModelBytes;
use spec_rules::BankTrack;
use state_bytes::reads::{buffer_at, due_at, instant_at, lasts_at, track_at};

// The track at the index of a bank.
pub fn track_for(b: &[u8], x: u32) -> BankTrack
    requires in_bounds { 752 ≤ length b.now }
    requires in_range { InRange b.now }
    ensures { result ≡ get_or (channel_in b.now).banks (slot_of x) idle }
{
    track_at(b, slot_of(x))
}

// A bank's state without its instants: rule 14 asks no more of the newer write's bank.
fn state_alone(k: BankTrack) -> BankTrack
    ensures { result ≡ record { bank = k.bank; opened = never; act = never; pre = never; rd = never; retire = never } }
{
    let bank = k.bank;
    BankTrack {
        bank: bank,
        ..unused()
    }
}

// The write buffer in numbers.
pub fn held_at(b: &[u8]) -> Held
    requires in_bounds { 752 ≤ length b.now }
    requires in_range { InRange b.now }
    ensures { result ≡ held_of (channel_in b.now).buffer (channel_in b.now).due }
{
    held_of(buffer_at(b), due_at(b))
}

// What all banks ask of an ACT or REFA to a bank by rule 5.
fn act_in(s: Settings, b: &[u8], bank: u32) -> u64
    requires in_bounds { 752 ≤ length b.now }
    requires in_range { InRange b.now }
    ensures { result ≡ act_over s (channel_in b.now).banks bank }
{
    act_by(s, bank, |x| instant_at(b, 4 * (x as usize)))
}

// The lowest rule that a packet breaks, or 0, where h is the write buffer.
fn packet_in(s: Settings, b: &[u8], h: Held, v: View) -> u32
    requires in_bounds { 752 ≤ length b.now }
    requires in_range { InRange b.now }
    ensures { result ≡ packet_rule s v h (tracks_of s (channel_in b.now).banks v.bank (centre_of s h v) h) (act_over s (channel_in b.now).banks v.bank) (channel_in b.now).lasts }
{
    let own = track_for(b, v.bank);
    let c = centre(s, h, v);
    let low = track_for(b, low_of(s, c));
    let high = track_for(b, high_of(s, c));
    let held = track_for(b, h.bank);
    let next = state_alone(track_for(b, h.next));
    let k = around(s, v.bank, c, h, own, low, high, held, next);
    let l = lasts_at(b);
    if v.opens {
        return packet_rule(s, v, h, k, act_in(s, b, v.bank), l);
    }
    packet_rule(s, v, h, k, 0, l)
}

// The lowest rule that a record breaks, or 0.
pub fn judge_in(s: Settings, b: &ModelBytes, r: Record) -> u32
    requires { model_right (context_of s) b.now ≡ true }
    ensures { result ≡ judged (context_of s) (model_in b.now).channel r }
{
    let h = held_at(b);
    let seen = seen_of(r);
    match seen {
        Seen::Packet(v) => packet_in(s, b, h, v),
        Seen::Data(t) => data_rule(s, h, t),
    }
}
