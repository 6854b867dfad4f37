// What one record is to the walk, and what it makes of the state.
ghost use Rattle.std.specs.Prelude.{◌≡◌, true, false, ◌+◌, ◌<◌, ◌^◌};
ghost use Rattle.chan_view.specs.Form.Beside.{slot_of};
ghost use Rattle.chan_view.specs.Form.View.{seen_of, held_of, leaves, implies_by};
ghost use Rattle.chan_step.specs.Form.Lasts.{buffer_next};
ghost use Rattle.check_walk.specs.Form.Turn.{view_in, opened_track, closed_near, implied_stores, lasts_implied};

use chan_step::tracks::{closed_track, side_track};
use chan_step::{buffer_after, implied_at, implied_lasts};
use chan_view::banks::slot_of;
use chan_view::neighbours::{first_near, last_near};
use chan_view::views::{centre, held_of, implies, leaving, plain_view, seen_of};
use chan_view::{Held, Seen, View};
use record::Record;
use settings::{PacketAt, Settings};
use spec_rules::{BankTrack, Buffer, LastInstants};

// A record as flags: data name no bank and change none.
pub(crate) fn view_of(r: Record) -> View
    ensures { result ≡ view_in (seen_of r) }
{
    let seen = seen_of(r);
    match seen {
        Seen::Packet(v) => v,
        Seen::Data(_) => plain_view(PacketAt(0)),
    }
}

// Where the bank of the newer write stands.
pub(crate) fn next_slot(h: Held) -> usize
    ensures value { result ≡ slot_of h.next }
    ensures upper_bound { result < 32 }
{
    slot_of(h.next)
}

// A bank after an ACT or REFA.
pub(crate) fn opened_track(v: View, k: BankTrack) -> BankTrack
    ensures { result ≡ opened_track v k }
{
    let at = v.at;
    let state = v.state;
    BankTrack {
        bank: state,
        opened: at,
        act: PacketAt(if v.acts { v.at.0 } else { k.act.0 }),
        ..k
    }
}

// The write buffer after a record that may retire the older write.
pub(crate) fn buffer_next(s: Settings, r: Record, v: View, h: Held, b: Buffer) -> Buffer
    ensures { result ≡ buffer_next r (leaves s h v) b }
{
    let leaves = leaving(s, h, v);
    buffer_after(r, leaves, b)
}

// The banks after a PRER to bank c.
fn closed_near(s: Settings, c: u32, at: PacketAt, banks: [BankTrack; 32]) -> [BankTrack; 32]
    ensures { result ≡ closed_near s at c banks }
{
    let x = slot_of(c);
    let y = first_near(s, x);
    let z = last_near(s, x);
    let mut next = banks;
    next[x] = closed_track(at, next[x]);
    next[y] = side_track(at, next[y]);
    next[z] = side_track(at, next[z]);
    next
}

// The banks after the PRER that a record implies, if it does. By the record itself, so that the walk's flags need not serve here.
pub(crate) fn banks_implied(
    s: Settings,
    b: Buffer,
    r: Record,
    banks: [BankTrack; 32],
) -> [BankTrack; 32]
    requires { implies_by s (held_of b false) (view_in (seen_of r)) ≡ true → (view_in (seen_of r)).at.0 + s.offp < 2 ^ 32 }
    ensures { result ≡ implied_stores s (view_in (seen_of r)) (held_of b false) banks }
{
    let v = view_of(r);
    let h = held_of(b, false);
    if implies(s, h, v) {
        return closed_near(s, centre(s, h, v), implied_at(s, v.at), banks);
    }
    banks
}

// The last instants after it.
pub(crate) fn lasts_implied(s: Settings, b: Buffer, r: Record, l: LastInstants) -> LastInstants
    requires { implies_by s (held_of b false) (view_in (seen_of r)) ≡ true → (view_in (seen_of r)).at.0 + s.offp < 2 ^ 32 }
    ensures { result ≡ lasts_implied s (view_in (seen_of r)) (held_of b false) l }
{
    let v = view_of(r);
    if implies(s, held_of(b, false), v) {
        return implied_lasts(implied_at(s, v.at), l);
    }
    l
}
