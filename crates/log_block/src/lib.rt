// Blocks of 512 bytes (document 01, "Blocks"; document 02 i): whether a block is right, what it keeps, and how it is written.
#![tactic(auto)]

pub mod form;
pub mod read;
pub mod sum;
pub mod write;

ghost use Rattle.std.specs.Prelude.{◌≡◌, ◌+◌, ◌*◌, ◌<◌, ◌≤◌, length, ◌==◌};
ghost use Rattle.log_block.specs.Block.{used, all_zero, number_right, count_right, zeros_right, sum_right, block_right, blocks_in, block_at};

use crate::form::Per;
use crate::sum::word_sum;

// The bytes of a block.
pub type Block = [u8; 512];

// Whether the n bytes from a place on are zero.
fn all_zero(b: &[u8], at: usize, n: usize) -> bool
    requires { at + n ≤ length b.now }
    ensures { result ≡ all_zero b.now at n }
{
    b[at..at + n].iter().all(|x| *x == 0)
}

// Whether the block number is k.
fn number_right(b: &Block, k: u64) -> bool
    ensures { result ≡ number_right k b.now }
{
    u64::from(num::u32_at(b, 480)) == k
}

// Whether 1 to `per` records are used, and `per` in every block but the last.
fn count_right(b: &Block, per: usize, last: bool) -> bool
    ensures { result ≡ count_right per last b.now }
{
    let n = num::u32_at(b, 484) as usize;
    if n < 1 {
        return false;
    }
    if per < n {
        return false;
    }
    if last {
        return true;
    }
    n == per
}

// Whether the zeros after the count and the unused records are zero.
fn zeros_right(b: &Block, per: Per) -> bool
    requires { used b.now ≤ per.records }
    ensures { result ≡ zeros_right per.records b.now }
{
    if all_zero(b, 488, 20) {
        let from = 32 * (num::u32_at(b, 484) as usize);
        return all_zero(b, from, 32 * per.records - from);
    }
    false
}

// Whether the 128 words sum to 0 modulo 2^32.
fn sum_right(b: &Block) -> bool
    ensures { result ≡ sum_right b.now }
{
    word_sum(b, 128) == 0
}

// Whether b is block k of a log of blocks of so many records, and its last block where last says so.
pub(crate) fn block_right(b: &Block, per: Per, k: u64, last: bool) -> bool
    ensures { result ≡ block_right per.records k last b.now }
{
    if !number_right(b, k) {
        return false;
    }
    if !count_right(b, per.records, last) {
        return false;
    }
    if !zeros_right(b, per) {
        return false;
    }
    sum_right(b)
}

// Whether block k of a log is right there.
pub fn right_at(log: &[u8], per: Per, k: usize) -> bool
    requires { k < blocks_in log.now }
    ensures { result ≡ block_right per.records k (k + 1 == blocks_in log.now) (block_at log.now k) }
{
    let at = 512 * k;
    let next = at + 512;
    let b = log[at..next].as_array::<512>().unwrap();
    block_right(b, per, k as u64, k + 1 == log.len() / 512)
}
