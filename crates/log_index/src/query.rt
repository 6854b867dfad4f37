// A query of an index by bank, and the test of an index beside its log.
ghost use Rattle.std.specs.Prelude.{◌≡◌, cond, [], ℕ, ◌+◌, ◌*◌, ◌<◌, ◌≤◌, length};
ghost use Rattle.num.specs.Bytes.{bytes, splice};
ghost use Rattle.num.specs.Marks.{count_up_to};
ghost use Rattle.log_block.specs.Block.{used, blocks_in, block_at};
ghost use Rattle.spec_index.specs.Index.{index_words};
ghost use Rattle.spec_index.specs.Query.{has_bit, queried};
ghost use Rattle.spec_index.specs.Answers.{lent_after, right_beside, count_or_full, query_answer};
ghost use Rattle.log_index.specs.Form.Beside.{beside_fields};

use crate::make::{first_wrong, right};
use record::Refusal;
use settings::Settings;
use spec_index::IndexRefusal;

// Whether word k of an index has the bit of a bank.
fn has_bit(index: &[u8], bank: u32, k: usize) -> bool
    requires { (bank < 32) × (k < index_words index.now) }
    ensures { result ≡ has_bit index.now bank k }
{
    (num::u32_at(index, 4 * k) >> bank) % 2 == 1
}

// 1 where word k of an index has the bit of a bank, else 0.
fn one_at(index: &[u8], bank: u32, k: usize) -> usize
    requires { (bank < 32) × (k < index_words index.now) }
    ensures { result ≡ cond (has_bit index.now bank k) 1 0 }
{
    if has_bit(index, bank, k) { 1 } else { 0 }
}

// How many words of an index have the bit of a bank.
pub fn found(index: &[u8], bank: u32) -> usize
    requires { bank < 32 }
    ensures { result ≡ count_up_to (has_bit index.now bank) (index_words index.now) }
{
    let words = index.len() / 4;
    let mut n = 0;
    for k in 0..words {
        n += one_at(index, bank, k);
    }
    n
}

// Lists block k after n others where its word has the bit of a bank: how many are listed then.
fn put_found(index: &[u8], bank: u32, k: usize, n: usize, out: &mut [u8]) -> usize
    requires { (bank < 32) × (k < index_words index.now) × (4 * (n + cond (has_bit index.now bank k) 1 0) ≤ length out.old) }
    ensures { (result ≡ n + cond (has_bit index.now bank k) 1 0) × (out.new ≡ splice out.old (4 * n) (cond (has_bit index.now bank k) (bytes 4 k) [])) }
{
    if has_bit(index, bank, k) {
        num::put::put_u32(out, 4 * n, k as u64);
        return n + 1;
    }
    n
}

// Lists the blocks whose words have the bit of a bank.
pub fn list_found(index: &[u8], bank: u32, out: &mut [u8])
    requires { (bank < 32) × (4 * count_up_to (has_bit index.now bank) (index_words index.now) ≤ length out.old) }
    ensures { out.new ≡ splice out.old 0 (queried index.now bank) }
{
    let words = index.len() / 4;
    let mut n = 0;
    for k in 0..words {
        n = put_found(index, bank, k, n, out);
    }
}

// 14 of a log of right blocks and an index, or the number of words.
fn compared(log: &[u8], index: &[u8]) -> Result<u64, IndexRefusal>
    requires { (k : ℕ) → k < blocks_in log.now → used (block_at log.now k) ≤ 15 }
    ensures { result ≡ beside_fields log.now index.now }
{
    let words = index.len() / 4;
    let blocks = log.len() / 512;
    let n = words.max(blocks);
    let wrong = first_wrong(log, index, n);
    if wrong == n {
        Ok(words as u64)
    } else {
        Err(IndexRefusal::Differs(wrong as u64))
    }
}

// Tests a log of whole blocks and an index of whole words for 12, 10 and 14: a refusal, or the number of words.
pub fn beside(s: Settings, log: &[u8], index: &[u8]) -> Result<u64, IndexRefusal>
    ensures { result ≡ right_beside s log.now index.now (Ok (index_words index.now)) }
{
    right(s, log)?;
    compared(log, index)
}

// So many words into so many bytes: 8, or their number.
pub fn fits(n: usize, room: usize) -> Result<u64, IndexRefusal>
    ensures { result ≡ count_or_full n room }
{
    if n <= room / 4 {
        Ok(n as u64)
    } else {
        Err(IndexRefusal::Refused(Refusal::Full))
    }
}

// What a query into so many bytes answers.
fn query_answer(
    s: Settings,
    log: &[u8],
    index: &[u8],
    bank: u32,
    room: usize,
) -> Result<u64, IndexRefusal>
    ensures { result ≡ query_answer s log.now index.now bank room }
{
    if log.len() % 512 != 0 {
        return Err(IndexRefusal::Refused(Refusal::Length));
    }
    if index.len() % 4 != 0 {
        return Err(IndexRefusal::Refused(Refusal::Length));
    }
    if bank >= 32 {
        return Err(IndexRefusal::Refused(Refusal::Bank));
    }
    beside(s, log, index)?;
    fits(found(index, bank), room)
}

// Lists the numbers of the blocks that touch a bank at the start of a buffer.
pub fn query(
    s: Settings,
    log: &[u8],
    index: &[u8],
    bank: u32,
    out: &mut [u8],
) -> Result<u64, IndexRefusal>
    ensures { (result ≡ query_answer s log.now index.now bank (length out.old)) × (out.new ≡ lent_after (query_answer s log.now index.now bank (length out.old)) (queried index.now bank) out.old) }
{
    let answer = query_answer(s, log, index, bank, out.len());
    if let Ok(_) = answer {
        list_found(index, bank, out);
    }
    answer
}
