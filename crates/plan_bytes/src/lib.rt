// Numbers in the bytes of a planner, and records as bytes. Sums are made in 64 bits.
#![tactic(auto)]

pub mod calm;

ghost use Rattle.std.specs.Prelude.{◌≡◌, ◌+◌, ◌<◌, ◌≤◌, ◌^◌, length};
ghost use Rattle.num.specs.Bytes.{splice};
ghost use Rattle.record.specs.Record.{record_fields};
ghost use Rattle.spec_rules.specs.Checks.{since};
ghost use Rattle.plan_bytes.specs.Form.Numbers.{word, waits_in, held_bank, two_in, next_bank, now_stored};

use chan_view::bounds::after_gap;
use num::put::{put_u32, put_u64};
use num::u32_at;
use record::Dualoct;
use settings::{DataAt, PacketAt};
use spec_plan::PlannerBytes;

// The stored instant at a place.
pub fn stored(b: &[u8], at: usize) -> u64
    requires { at + 4 ≤ length b.now }
    ensures { result ≡ word b.now at }
{
    u64::from(u32_at(b, at))
}

// What the instant at a place and a distance ask; none asks nothing.
pub fn after(b: &[u8], at: usize, gap: u32) -> u64
    requires { at + 4 ≤ length b.now }
    ensures { result ≡ since (word b.now at) gap }
{
    after_gap(PacketAt(u32_at(b, at)), gap)
}

// Whether a write waits.
pub fn waits(b: &PlannerBytes) -> bool
    ensures { result ≡ waits_in b.now }
{
    b[728] != 0
}

// The bank of the older one.
pub fn held_bank(b: &PlannerBytes) -> u32
    ensures { (result ≡ held_bank b.now) × (result < 256) }
{
    u32::from(b[736])
}

// Whether two writes wait.
pub fn two(b: &PlannerBytes) -> bool
    ensures { result ≡ two_in b.now }
{
    1 < b[728]
}

// The bank of the newer one.
pub fn next_bank(b: &PlannerBytes) -> u32
    ensures { (result ≡ next_bank b.now) × (result < 256) }
{
    u32::from(b[744])
}

// Now after a packet at t, as it is stored.
pub fn put_now(b: &mut [u8], t: u64)
    requires { 756 ≤ length b.old }
    ensures { b.new ≡ now_stored b.old t }
{
    put_u32(b, 752, t);
}

fn put_record(out: &mut [u8], at: usize, t: u64, kind: u64, word: u64, dqa: u64, dqb: u64)
    requires at_in_bounds { at + 32 ≤ length out.old }
    requires t_bound { t < 2 ^ 32 }
    requires kind_bound { kind < 256 }
    ensures { out.new ≡ splice out.old at (record_fields t kind word dqa dqb) }
{
    put_u64(out, at, t + 4294967296 * kind);
    put_u64(out, at + 8, word);
    put_u64(out, at + 16, dqa);
    put_u64(out, at + 24, dqb);
}

// The record of a packet: kind is 0 for ROW and 1 for COL. Its instant comes as it is stored in a state, less 3.
pub fn put_packet(out: &mut [u8], at: usize, stored: u64, kind: u64, word: u64)
    requires at_in_bounds { at + 32 ≤ length out.old }
    requires stored_bound { stored + 3 < 2 ^ 32 }
    requires kind_bound { kind < 256 }
    ensures { out.new ≡ splice out.old at (record_fields (stored + 3) kind word 0 0) }
{
    put_record(out, at, stored + 3, kind, word, 0, 0);
}

// The record of a D.
pub fn put_data(out: &mut [u8], at: usize, t: DataAt, d: Dualoct)
    requires { at + 32 ≤ length out.old }
    ensures { out.new ≡ splice out.old at (record_fields t.0 2 0 d.dqa d.dqb) }
{
    put_record(out, at, u64::from(t.0), 2, 0, d.dqa, d.dqb);
}
