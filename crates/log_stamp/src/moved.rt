// A log of one form to a log of the other (document 02, request i): the records of a new block stand in one or two old ones.
ghost use Rattle.std.specs.Prelude.{◌≡◌, ◌+◌, ◌*◌, ◌/◌, ◌^◌, ◌<◌, ◌≤◌, length};
ghost use Rattle.num.specs.Bytes.{part, splice};
ghost use Rattle.record.specs.Record.{records_in};
ghost use Rattle.log_block.specs.Block.{block, block_count, log_of, blocks_in, first_bad_block, list_of};

use log_block::form::{Form, Per};

// Copies m records of block k of a log, from its record j on, to a place in a buffer.
fn copy_records(log: &[u8], k: usize, j: usize, m: usize, b: &mut [u8], to: usize)
    requires { (512 * k + 32 * j + 32 * m ≤ length log.now) × (to + 32 * m ≤ length b.old) }
    ensures { b.new ≡ splice b.old to (part log.now (512 * k + 32 * j) (32 * m)) }
{
    let at = 512 * k + 32 * j;
    let end = at + 32 * m;
    num::put::put_bytes(b, to, &log[at..end]);
}

// Copies n records of the list that a log of right blocks keeps, from record `first` on, to the start of a buffer.
fn gather(log: &[u8], per: Per, first: usize, n: usize, b: &mut [u8])
    requires le_per { (14 ≤ per.records) × (1 ≤ n) × (n ≤ 15) × (32 * n ≤ length b.old) }
    requires log_value { first_bad_block per.records log.now ≡ blocks_in log.now }
    requires n_bound { first + n ≤ records_in (list_of log.now) }
    ensures { b.new ≡ splice b.old 0 (part (list_of log.now) (32 * first) (32 * n)) }
{
    let k = first / per.records;
    let j = first % per.records;
    let m = n.min(per.records - j);
    copy_records(log, k, j, m, b, 0);
    copy_records(log, k + 1, 0, n - m, b, 32 * m);
}

// Makes block k of n records of the list that a log of right blocks keeps, from record `first` on.
fn move_block(b: &mut [u8], log: &[u8], per: Per, first: usize, n: usize, stamp: &[u8], k: u32)
    requires le_per { (14 ≤ per.records) × (1 ≤ n) × (32 * n + length stamp.now ≤ 480) × (length b.old ≡ 512) }
    requires log_value { first_bad_block per.records log.now ≡ blocks_in log.now }
    requires n_bound { first + n ≤ records_in (list_of log.now) }
    ensures { b.new ≡ block stamp.now k (part (list_of log.now) (32 * first) (32 * n)) }
{
    gather(log, per, first, n, b);
    log_block::write::finish_block(b, 32 * n, stamp, k);
}

// Writes block k of the new log; the list has n records.
fn move_at(log: &[u8], per: Per, n: usize, next: Form<'_>, k: usize, out: &mut [u8])
    requires le_per { 14 ≤ per.records }
    requires log_value { (first_bad_block per.records log.now ≡ blocks_in log.now) × (n ≡ records_in (list_of log.now)) }
    requires k_bound { (next.per * k < n) × (k < 2 ^ 32) × (512 * k + 512 ≤ length out.old) }
    ensures { out.new ≡ splice out.old (512 * k) (block next.entry.stamp.now k (part (list_of log.now) (32 * (next.entry.per * k)) (32 * next.entry.per))) }
{
    let first = next.per * k;
    let m = next.per.min(n - first);
    let at = 512 * k;
    let end = at + 512;
    move_block(&mut out[at..end], log, per, first, m, next.stamp, k as u32);
}

// Writes the log, of blocks of `next` records with this stamp, of the list that a log of right blocks of `per` records keeps.
pub fn write_moved(log: &[u8], per: Per, next: Form<'_>, out: &mut [u8])
    requires le_per { 14 ≤ per.records }
    requires log_value { first_bad_block per.records log.now ≡ blocks_in log.now }
    requires log_in_bounds { (512 * block_count next.per (records_in (list_of log.now)) ≤ length out.old) × (block_count next.per (records_in (list_of log.now)) ≤ 2 ^ 32) }
    ensures { out.new ≡ splice out.old 0 (log_of next.entry.per next.entry.stamp.now (list_of log.now)) }
{
    let n = log_block::read::records_in(log, per);
    let blocks = (n + (next.per - 1)) / next.per;
    for k in 0..blocks {
        move_at(log, per, n, next, k, out);
    }
}
