// Writing a block, and a list as a log.
ghost use Rattle.std.specs.Prelude.{◌≡◌, ◌+◌, ◌*◌, ◌/◌, ◌%◌, ◌^◌, ◌<◌, ◌≤◌, min, length, take};
ghost use Rattle.num.specs.Bytes.{part, splice};
ghost use Rattle.log_block.specs.Block.{block_body, block, block_count, log_of};

use crate::form::Form;
use crate::sum::word_sum;

// Writes what follows the records at the start of block k, n bytes of them, but for the check word: zeros, the stamp, the block
// number, the records used and zeros.
fn write_fields(b: &mut [u8], n: usize, stamp: &[u8], k: u32)
    requires { (length b.old ≡ 512) × (n + length stamp.now ≤ 480) }
    ensures { b.new ≡ splice b.old 0 (block_body stamp.now k (take n b.old)) }
{
    let end = 480 - stamp.len();
    num::put::put_zeros(b, n, end - n);
    num::put::put_bytes(b, end, stamp);
    num::put::put_u32(b, 480, u64::from(k));
    num::put::put_u32(b, 484, (n / 32) as u64);
    num::put::put_zeros(b, 488, 20);
}

// Makes block k of the records that stand at its start, n bytes of them; its check word is the wrapping negative of the sum of the
// other words.
pub fn finish_block(b: &mut [u8], n: usize, stamp: &[u8], k: u32)
    requires { (length b.old ≡ 512) × (n + length stamp.now ≤ 480) }
    ensures { b.new ≡ block stamp.now k (take n b.old) }
{
    write_fields(b, n, stamp, k);
    let s = word_sum(b, 127);
    let check = 0u32.wrapping_sub(s);
    num::put::put_u32(b, 508, u64::from(check));
}

// Writes block k.
fn write_block(b: &mut [u8], stamp: &[u8], k: u32, recs: &[u8])
    requires { (length b.old ≡ 512) × (length recs.now + length stamp.now ≤ 480) }
    ensures { b.new ≡ block stamp.now k recs.now }
{
    num::put::put_bytes(b, 0, recs);
    finish_block(b, recs.len(), stamp, k);
}

// Writes block k of the log of a list, of blocks of so many records.
fn write_at(log: &mut [u8], form: Form<'_>, k: usize, list: &[u8])
    requires k_in_bounds { (512 * k + 512 ≤ length log.old) × (32 * (form.per * k) ≤ length list.now) × (k < 2 ^ 32) }
    ensures { log.new ≡ splice log.old (512 * k) (block form.entry.stamp.now k (part list.now (32 * (form.entry.per * k)) (32 * form.entry.per))) }
{
    let from = 32 * (form.per * k);
    let end = (from + 32 * form.per).min(list.len());
    let at = 512 * k;
    let next = at + 512;
    write_block(&mut log[at..next], form.stamp, k as u32, &list[from..end]);
}

// Writes the log of a list of records, of blocks of so many records with this stamp.
pub fn write_log(list: &[u8], form: Form<'_>, log: &mut [u8])
    requires list_in_bounds { 512 * block_count form.per (length list.now / 32) ≤ length log.old }
    requires list_bound { block_count form.per (length list.now / 32) ≤ 2 ^ 32 }
    ensures { log.new ≡ splice log.old 0 (log_of form.entry.per form.entry.stamp.now list.now) }
{
    let n = (list.len() / 32 + (form.per - 1)) / form.per;
    for k in 0..n {
        write_at(log, form, k, list);
    }
}
