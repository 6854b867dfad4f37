// Reading the list that a log keeps.
ghost use Rattle.std.specs.Prelude.{◌≡◌, ◌+◌, ◌*◌, ◌/◌, ◌%◌, ◌<◌, ◌≤◌, length};
ghost use Rattle.num.specs.Bytes.{part, splice};
ghost use Rattle.log_block.specs.Block.{used, blocks_in, block_at, first_bad_block, list_of};

use crate::form::Per;

// How many records block k of a log uses.
pub fn used_at(log: &[u8], k: usize) -> usize
    requires { k < blocks_in log.now }
    ensures { result ≡ used (block_at log.now k) }
{
    let at = 512 * k;
    let next = at + 512;
    num::u32_at(&log[at..next], 484) as usize
}

// How many records the list has that a log of right blocks keeps: so many in every block but the last.
pub fn records_in(log: &[u8], per: Per) -> usize
    requires log_value { first_bad_block per.records log.now ≡ blocks_in log.now }
    ensures { result ≡ length (list_of log.now) / 32 }
{
    let n = log.len() / 512;
    if n == 0 {
        return 0;
    }
    let last = n - 1;
    per.records * last + used_at(log, last)
}

// How many records block k of a log of right blocks uses; only the last block is read for it.
fn used_of(log: &[u8], per: Per, k: usize) -> usize
    requires k_bound { (k < blocks_in log.now) × (first_bad_block per.records log.now ≡ blocks_in log.now) }
    ensures { result ≡ used (block_at log.now k) }
{
    if k + 1 < log.len() / 512 {
        return per.records;
    }
    used_at(log, k)
}

// Copies the used records of block k of a log of right blocks to their place in the list.
fn read_at(log: &[u8], per: Per, k: usize, list: &mut [u8])
    requires k_bound { (k < blocks_in log.now) × (first_bad_block per.records log.now ≡ blocks_in log.now) }
    requires k_in_bounds { 32 * (per.records * k) + 32 * used (block_at log.now k) ≤ length list.old }
    ensures { list.new ≡ splice list.old (32 * (per.records * k)) (part (block_at log.now k) 0 (32 * used (block_at log.now k))) }
{
    let at = 512 * k;
    let end = at + 32 * used_of(log, per, k);
    num::put::put_bytes(list, 32 * (per.records * k), &log[at..end]);
}

// Reads the list that a log of right blocks keeps.
pub fn read_list(log: &[u8], per: Per, list: &mut [u8])
    requires log_value { first_bad_block per.records log.now ≡ blocks_in log.now }
    requires log_in_bounds { length (list_of log.now) ≤ length list.old }
    ensures { list.new ≡ splice list.old 0 (list_of log.now) }
{
    let n = log.len() / 512;
    for k in 0..n {
        read_at(log, per, k, list);
    }
}
