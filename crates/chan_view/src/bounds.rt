// Bounds: the least packet instants that earlier ones and the distances of the rules ask. Sums are made in 64 bits.
ghost use Rattle.std.specs.Prelude.{◌≡◌, ◌<◌, ◌^◌, leb};
ghost use Rattle.spec_rules.specs.Checks.{since};
ghost use Rattle.chan_view.specs.Form.Bounds.{bound_if, three};

use settings::PacketAt;

// The instant a distance after an earlier one; no earlier one asks nothing.
pub fn since_wide(last: PacketAt, gap: u64) -> u64
    requires { gap < 2 ^ 34 }
    ensures { result ≡ since last.0 gap }
{
    if last.0 == 0 {
        return 0;
    }
    u64::from(last.0) + gap
}

pub fn after_gap(last: PacketAt, gap: u32) -> u64
    ensures { result ≡ since last.0 gap }
{
    since_wide(last, u64::from(gap))
}

// The latest that three earlier instants ask: what the latest of them asks.
pub fn after_three(a: PacketAt, b: PacketAt, c: PacketAt, gap: u32) -> u64
    ensures { result ≡ three a.0 b.0 c.0 gap }
{
    let two = u64::from(a.0).max(u64::from(b.0));
    let last = two.max(u64::from(c.0));
    if last == 0 {
        return 0;
    }
    last + u64::from(gap)
}

// Whether an instant keeps a bound, where the bound applies.
pub fn keeps(applies: bool, bound: u64, at: PacketAt) -> bool
    ensures { result ≡ leb (bound_if applies bound) at.0 }
{
    if applies {
        bound <= u64::from(at.0)
    } else {
        true
    }
}
