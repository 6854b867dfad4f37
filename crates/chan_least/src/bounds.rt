// What the rules ask of each command at least, on last instants alone. Sums are made in 64 bits.
ghost use Rattle.std.specs.Prelude.{◌≡◌};
ghost use Rattle.chan_view.specs.Form.Bounds.{bound_if};
ghost use Rattle.chan_least.specs.Form.Least.{on_row, on_col, open_bound, prer_bound, close_bound, implied_bound, read_bound, write_bound, nocop_bound, retire_bound, latest};

use chan_view::bounds::{after_gap, since_wide};
use settings::{PacketAt, Settings};
use spec_rules::{BankTrack, LastInstants};

// The latest of three instants.
pub fn latest_of(a: PacketAt, b: PacketAt, c: PacketAt) -> PacketAt
    ensures { result ≡ latest a b c }
{
    PacketAt(a.0.max(b.0).max(c.0))
}

// Rules 1, 2 and 17 of a ROW packet, and what else is asked of it.
fn on_row(l: LastInstants, rest: u64) -> u64
    ensures { result ≡ on_row l rest }
{
    let free = rest.max(u64::from(l.implied.0));
    u64::from(l.packet.0).max(after_gap(l.row, 4).max(free))
}

// Rules 1 and 3 of a COL packet, and what else is asked of it.
fn on_col(s: Settings, l: LastInstants, rest: u64) -> u64
    ensures { result ≡ on_col s l rest }
{
    u64::from(l.packet.0).max(after_gap(l.col, s.cc).max(rest))
}

// ACT and REFA; act is what rule 5 asks, pre the latest PRER or REFP of the bank and its neighbours.
pub fn open_bound(s: Settings, l: LastInstants, act: u64, pre: PacketAt) -> u64
    ensures { result ≡ open_bound s l act pre }
{
    on_row(l, act.max(after_gap(pre, s.rp)))
}

// Rules 6, 8 and 13 of a PRER; opened, rd and retire are the latest of the bank and its neighbours.
fn prer_bound(s: Settings, l: LastInstants, opened: PacketAt, rd: PacketAt, retire: PacketAt) -> u64
    ensures { result ≡ prer_bound s l opened rd retire }
{
    let columns = after_gap(rd, s.rdp).max(after_gap(retire, s.rtp));
    after_gap(opened, s.ras).max(after_gap(l.pre, s.pp).max(columns))
}

// PRER and REFP, by the same instants.
pub fn close_bound(
    s: Settings,
    l: LastInstants,
    opened: PacketAt,
    rd: PacketAt,
    retire: PacketAt,
) -> u64
    ensures { result ≡ close_bound s l opened rd retire }
{
    on_row(l, prer_bound(s, l, opened, rd, retire))
}

// An RDA, or the retire of a closing write: what its PRER asks of it, tOFFP earlier. The tracks are of its bank and the neighbours.
pub fn implied_bound(
    s: Settings,
    closes: bool,
    l: LastInstants,
    own: BankTrack,
    low: BankTrack,
    high: BankTrack,
) -> u64
    ensures { result ≡ bound_if closes (implied_bound s l own low high) }
{
    if closes {
        let opened = latest_of(own.opened, low.opened, high.opened);
        let rd = latest_of(own.rd, low.rd, high.rd);
        let retire = latest_of(own.retire, low.retire, high.retire);
        let bound = prer_bound(s, l, opened, rd, retire);
        return bound.saturating_sub(u64::from(s.offp));
    }
    0
}

// RD, but for the PRER that it implies; act is the ACT of its bank.
pub fn read_bound(s: Settings, l: LastInstants, act: PacketAt) -> u64
    ensures { result ≡ read_bound s l act }
{
    on_col(s, l, after_gap(act, s.rcd))
}

// WR, but for what it retires; act is the ACT of its bank.
pub fn write_bound(s: Settings, l: LastInstants, act: PacketAt) -> u64
    ensures { result ≡ write_bound s l act }
{
    let least = u64::from(s.rcd).saturating_sub(u64::from(s.rtr));
    let sum = u64::from(s.cc) + u64::from(s.cac);
    let gap = sum.saturating_sub(u64::from(s.cwd));
    on_col(s, l, since_wide(act, least).max(since_wide(l.rd, gap)))
}

// NOCOP, but for what it retires.
pub fn nocop_bound(s: Settings, l: LastInstants) -> u64
    ensures { result ≡ nocop_bound s l }
{
    on_col(s, l, 0)
}

// A retire of a write whose WR was at an instant, but for the PRER that it implies; act is the ACT of its bank.
pub fn retire_bound(s: Settings, at: PacketAt, act: PacketAt) -> u64
    ensures { result ≡ retire_bound s at act }
{
    (u64::from(at.0) + u64::from(s.rtr)).max(after_gap(act, s.rcd))
}
