// What a COL packet and its D store, and what a retire stores.
ghost use Rattle.std.specs.Prelude.{cond, ◌≡◌, ◌*◌, ◌<◌, ◌≤◌, ◌^◌, length};
ghost use Rattle.spec_state.specs.Form.Layout.{write_word};
ghost use Rattle.spec_state.specs.Form.Stores.{col_stored, rd_stored, retire_stored, empty_stored, shift_stored, write_stored, beside_stored, behind_stored, data_stored};

use num::put::{put_u32, put_u64};
use num::u64_at;

// The last instants of the channel after any COL packet.
pub fn store_col(b: &mut [u8], t: u64)
    requires { 752 ≤ length b.old }
    ensures { b.new ≡ col_stored b.old t }
{
    put_u32(b, 704, t);
    put_u32(b, 712, t);
}

// RD of bank x.
pub fn store_rd(b: &mut [u8], x: usize, t: u64)
    requires in_bounds { 752 ≤ length b.old }
    requires x_bound { x < 32 }
    ensures { b.new ≡ rd_stored b.old x t }
{
    put_u32(b, 384 + 4 * x, t);
    put_u32(b, 720, t);
    store_col(b, t);
}

// A retire to bank h.
pub fn store_retire(b: &mut [u8], h: usize, t: u64)
    requires in_bounds { 752 ≤ length b.old }
    requires h_bound { h < 32 }
    ensures { b.new ≡ retire_stored b.old h t }
{
    put_u32(b, 512 + 4 * h, t);
}

// No write waits, where one did.
pub fn store_empty(b: &mut [u8])
    requires { 752 ≤ length b.old }
    ensures { b.new ≡ empty_stored b.old }
{
    put_u64(b, 728, 0);
    put_u64(b, 736, 0);
}

// The second write, where one waits, becomes the first: count is how many then wait.
pub fn store_shift(b: &mut [u8], count: u64)
    requires { 752 ≤ length b.old }
    ensures { b.new ≡ shift_stored b.old count }
{
    let second = u64_at(b, 744);
    put_u64(b, 728, count);
    put_u64(b, 736, second);
    put_u64(b, 744, 0);
}

// The two bytes that say whether a waiting write closes its bank, at their place in its word.
fn close_part(close: bool) -> u64
    ensures { (result ≡ 65536 * cond close 1 0) × (result ≤ 65536) }
{
    if close { 65536 } else { 0 }
}

// The eight bytes of a waiting write, as one number.
fn word_of(x: u32, column: u32, close: bool, t: u64) -> u64
    requires x_bound { x < 256 }
    requires column_bound { column < 256 }
    requires t_bound { t < 2 ^ 32 }
    ensures { result ≡ write_word x column close t }
{
    u64::from(x) + 256 * u64::from(column) + close_part(close) + 4294967296 * t
}

// One write waits: count is 1, or 257 where its data are due.
pub fn store_write(b: &mut [u8], count: u64, x: u32, column: u32, close: bool, t: u64)
    requires in_bounds { 752 ≤ length b.old }
    requires x_bound { x < 256 }
    requires column_bound { column < 256 }
    requires t_bound { t < 2 ^ 32 }
    ensures { b.new ≡ write_stored b.old count x column close t }
{
    let word = word_of(x, column, close, t);
    put_u64(b, 728, count);
    put_u64(b, 736, word);
}

// A write waits beside another: count is 2, or 258 where its data are due.
pub fn store_beside(b: &mut [u8], count: u64, x: u32, column: u32, close: bool, t: u64)
    requires in_bounds { 752 ≤ length b.old }
    requires x_bound { x < 256 }
    requires column_bound { column < 256 }
    requires t_bound { t < 2 ^ 32 }
    ensures { b.new ≡ beside_stored b.old count x column close t }
{
    let word = word_of(x, column, close, t);
    put_u64(b, 728, count);
    put_u64(b, 744, word);
}

// The second write becomes the first, and another waits beside it.
pub fn store_behind(b: &mut [u8], count: u64, x: u32, column: u32, close: bool, t: u64)
    requires in_bounds { 752 ≤ length b.old }
    requires x_bound { x < 256 }
    requires column_bound { column < 256 }
    requires t_bound { t < 2 ^ 32 }
    ensures { b.new ≡ behind_stored b.old count x column close t }
{
    let newer = word_of(x, column, close, t);
    let older = u64_at(b, 744);
    put_u64(b, 728, count);
    put_u64(b, 736, older);
    put_u64(b, 744, newer);
}

// The data of the newest write have come: `waiting` writes wait.
pub fn store_data(b: &mut [u8], waiting: u64)
    requires { 752 ≤ length b.old }
    ensures { b.new ≡ data_stored b.old waiting }
{
    put_u64(b, 728, waiting);
}
