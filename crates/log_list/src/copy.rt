// A list of records to a log, and back.
ghost use Rattle.std.specs.Prelude.{◌≡◌, cond, ◌&&◌, ◌*◌, ◌+◌, ◌/◌, ◌%◌, ◌^◌, ◌<◌, ◌≤◌, eqb, leb, length};
ghost use Rattle.num.specs.Bytes.{part};
ghost use Rattle.record.specs.Record.{first_bad};
ghost use Rattle.record.specs.declared.Refusal.TheVariants.{Full};
ghost use Rattle.log_block.specs.Block.{block_count, used, blocks_in, block_at, first_bad_block, list_up_to};
ghost use Rattle.log_list.specs.Log.{encode_answer, encode_log, decode_answer, decode_log};

use crate::Faults;
use log_block::form::{Form, Per};
use record::Refusal;
use settings::Settings;

// Whether so many blocks have room in so many bytes, and numbers of four bytes: their count, or 8. Only the number of records counts here,
// of a form that is known or not.
pub fn blocks_or_full(per: usize, n: usize, room: usize) -> Result<u64, Refusal>
    requires { (1 ≤ per) × (per ≤ 15) × (n < 2 ^ 60) }
    ensures { result ≡ cond (leb (block_count per n) (room / 512) && leb (block_count per n) (2 ^ 32)) (Ok (block_count per n)) (Err Full) }
{
    let blocks = (n + (per - 1)) / per;
    if (blocks <= room / 512) & (blocks <= 4294967296) {
        return Ok(blocks as u64);
    }
    Err(Refusal::Full)
}

// What encoding a list into so many bytes answers, in blocks of so many records.
fn encode_answer(s: Settings, form: Form<'_>, list: &[u8], room: usize) -> Result<u64, Refusal>
    ensures { result ≡ encode_answer form.entry.per s list.now room }
{
    if list.len() % 32 != 0 {
        return Err(Refusal::Length);
    }
    let n = list.len() / 32;
    let bad = record_bytes::quick::first_bad(s, list);
    if bad != n {
        return Err(Refusal::Word(bad as u64));
    }
    blocks_or_full(form.per, n, room)
}

// Encodes a list of records into the start of a log, and tests each record under the settings.
pub fn encode(s: Settings, form: Form<'_>, list: &[u8], log: &mut [u8]) -> Result<u64, Refusal>
    ensures { (result ≡ encode_answer form.entry.per s list.now (length log.old)) × (log.new ≡ encode_log form.entry.per form.entry.stamp.now s list.now log.old) }
{
    let answer = encode_answer(s, form, list, log.len());
    if let Ok(_) = answer {
        log_block::write::write_log(list, form, log);
    }
    answer
}

// The first bad record of block k of a log, counted from the block's first, or how many it uses.
fn bad_in_block(s: Settings, log: &[u8], k: usize) -> usize
    requires { (k < blocks_in log.now) × (used (block_at log.now k) ≤ 15) }
    ensures { result ≡ first_bad s (part (block_at log.now k) 0 (32 * used (block_at log.now k))) }
{
    let at = 512 * k;
    let end = at + 32 * log_block::read::used_at(log, k);
    record_bytes::quick::first_bad_of_few(s, &log[at..end])
}

// The first bad record up to block k: bad is that of the blocks before it, or the number of their records where they have none.
pub fn bad_up_to(s: Settings, log: &[u8], per: Per, k: usize, bad: usize) -> usize
    requires { (k < blocks_in log.now) × (used (block_at log.now k) ≤ per.records) }
    ensures { result ≡ cond (eqb bad (per.records * k)) (per.records * k + first_bad s (part (block_at log.now k) 0 (32 * used (block_at log.now k)))) bad }
{
    let first = per.records * k;
    if bad == first {
        return first + bad_in_block(s, log, k);
    }
    bad
}

// The first bad block of a log and the first bad record of the blocks before it, each block tested whole before the next one is
// read.
pub fn faults(s: Settings, log: &[u8], per: Per) -> Faults
    ensures { (result.block ≡ first_bad_block per.records log.now) × (result.record ≡ first_bad s (list_up_to log.now (first_bad_block per.records log.now))) }
{
    let n = log.len() / 512;
    let mut bad = 0;
    for k in 0..n {
        if !log_block::right_at(log, per, k) {
            return Faults {
                block: k,
                record: bad,
            };
        }
        bad = bad_up_to(s, log, per, k, bad);
    }
    Faults {
        block: n,
        record: bad,
    }
}

// What decoding a log into so many bytes answers.
fn decode_answer(s: Settings, log: &[u8], per: Per, room: usize) -> Result<u64, Refusal>
    ensures { result ≡ decode_answer per.records s log.now room }
{
    if log.len() % 512 != 0 {
        return Err(Refusal::Length);
    }
    let found = faults(s, log, per);
    if found.block != log.len() / 512 {
        return Err(Refusal::Block(found.block as u64));
    }
    let n = log_block::read::records_in(log, per);
    if found.record != n {
        return Err(Refusal::Word(found.record as u64));
    }
    if n <= room / 32 {
        return Ok(n as u64);
    }
    Err(Refusal::Full)
}

// Decodes a log into the start of a list of records, and tests each record under the settings.
pub fn decode(s: Settings, log: &[u8], per: Per, list: &mut [u8]) -> Result<u64, Refusal>
    ensures { (result ≡ decode_answer per.records s log.now (length list.old)) × (list.new ≡ decode_log per.records s log.now list.old) }
{
    let answer = decode_answer(s, log, per, list.len());
    if let Ok(_) = answer {
        log_block::read::read_list(log, per, list);
    }
    answer
}
