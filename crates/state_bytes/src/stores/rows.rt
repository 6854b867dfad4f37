// What a ROW packet and an implied PRER store.
ghost use Rattle.std.specs.Prelude.{◌≡◌, ◌<◌, ◌≤◌, length};
ghost use Rattle.spec_state.specs.Form.Stores.{row_stored, act_stored, refa_stored, close_stored, shut_stored, side_stored, prer_stored, implied_stored};
ghost use Rattle.chan_view.specs.Form.Beside.{low_of, high_of};

use chan_view::neighbours::{high_of, low_of};
use num::put::{put_u16, put_u32};
use settings::Settings;

// The last instants of the channel after any ROW packet.
fn store_row(b: &mut [u8], t: u64)
    requires { 752 ≤ length b.old }
    ensures { b.new ≡ row_stored b.old t }
{
    put_u32(b, 704, t);
    put_u32(b, 708, t);
}

// ACT to bank x.
pub fn store_act(b: &mut [u8], x: usize, row: u32, t: u64)
    requires in_bounds { 752 ≤ length b.old }
    requires x_bound { x < 32 }
    ensures { b.new ≡ act_stored b.old x row t }
{
    put_u32(b, 4 * x, t);
    put_u32(b, 128 + 4 * x, t);
    put_u16(b, 640 + 2 * x, u64::from(row) + 1);
    store_row(b, t);
}

// REFA to bank x.
pub fn store_refa(b: &mut [u8], x: usize, t: u64)
    requires in_bounds { 752 ≤ length b.old }
    requires x_bound { x < 32 }
    ensures { b.new ≡ refa_stored b.old x t }
{
    put_u32(b, 4 * x, t);
    put_u16(b, 640 + 2 * x, 65535);
    store_row(b, t);
}

// A bank that a PRER or REFP closes.
fn store_shut(b: &mut [u8], x: usize, t: u64)
    requires in_bounds { 752 ≤ length b.old }
    requires x_bound { x < 32 }
    ensures { b.new ≡ shut_stored b.old x t }
{
    put_u32(b, 256 + 4 * x, t);
    put_u16(b, 640 + 2 * x, 0);
}

// The same of a neighbour, where there is one and it is not closed.
fn store_side(b: &mut [u8], x: u32, t: u64)
    requires { 752 ≤ length b.old }
    ensures { b.new ≡ side_stored b.old x t }
{
    if 32 <= x {
        return;
    }
    let i = x as usize;
    if num::u16_at(b, 640 + 2 * i) == 0 {
        return;
    }
    store_shut(b, i, t);
}

// PRER or REFP to bank x, whose neighbours are closed.
pub fn store_close(b: &mut [u8], x: usize, t: u64)
    requires in_bounds { 752 ≤ length b.old }
    requires x_bound { x < 32 }
    ensures { b.new ≡ close_stored b.old x t }
{
    store_shut(b, x, t);
    put_u32(b, 716, t);
    store_row(b, t);
}

// PRER or REFP to bank x, which closes its neighbours too.
pub fn store_prer(s: Settings, b: &mut [u8], x: u32, t: u64)
    requires in_bounds { 752 ≤ length b.old }
    requires x_bound { x < 32 }
    ensures { b.new ≡ prer_stored b.old x (low_of s x) (high_of s x) t }
{
    store_shut(b, x as usize, t);
    store_side(b, low_of(s, x), t);
    store_side(b, high_of(s, x), t);
    put_u32(b, 716, t);
    store_row(b, t);
}

// An implied PRER to bank x, whose neighbours are closed since x is open.
pub fn store_implied(b: &mut [u8], x: usize, t: u64)
    requires in_bounds { 752 ≤ length b.old }
    requires x_bound { x < 32 }
    ensures { b.new ≡ implied_stored b.old x t }
{
    store_shut(b, x, t);
    put_u32(b, 716, t);
    put_u32(b, 724, t);
}
