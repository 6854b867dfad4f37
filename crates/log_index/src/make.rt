// Makes the index of a log, and compares an index with its log.
ghost use Rattle.std.specs.Prelude.{◌≡◌, ℕ, ◌+◌, ◌*◌, ◌<◌, ◌≤◌, length};
ghost use Rattle.num.specs.Bytes.{bytes, part, splice};
ghost use Rattle.num.specs.Search.{first_false};
ghost use Rattle.log_block.specs.Block.{used, blocks_in, block_at};
ghost use Rattle.log_block.specs.Right.{right_log};
ghost use Rattle.spec_index.specs.Index.{words_up_to, word_right, index_of};
ghost use Rattle.spec_index.specs.Answers.{lent_after, add_answer};
ghost use Rattle.log_index.specs.Form.Fields.{fields_word};
ghost use Rattle.log_index.specs.Form.Room.{room_answer};

use log_block::form::Per;
use record::Refusal;
use settings::Settings;
use spec_index::IndexRefusal;

// Whether word k of an index is that of block k of a log of right blocks. This and what follows asks of the blocks only that none uses more
// than 15 records, so that they may be of either form.
fn word_right(log: &[u8], index: &[u8], k: usize) -> bool
    requires { (k : ℕ) → k < blocks_in log.now → used (block_at log.now k) ≤ 15 }
    ensures { result ≡ word_right fields_word log.now index.now k }
{
    if k >= index.len() / 4 {
        return false;
    }
    if k >= log.len() / 512 {
        return false;
    }
    num::u32_at(index, 4 * k) == crate::words::block_word(log, k)
}

// The first of the words below n that is not right, or n.
pub fn first_wrong(log: &[u8], index: &[u8], n: usize) -> usize
    requires { (k : ℕ) → k < blocks_in log.now → used (block_at log.now k) ≤ 15 }
    ensures { result ≡ first_false (word_right fields_word log.now index.now) n }
{
    for k in 0..n {
        if !word_right(log, index, k) {
            return k;
        }
    }
    n
}

// Puts the word of block k of a log of right blocks into its place in an index.
fn put_word(log: &[u8], k: usize, index: &mut [u8])
    requires k_bound { (k < blocks_in log.now) × (used (block_at log.now k) ≤ 15) }
    requires k_in_bounds { 4 * k + 4 ≤ length index.old }
    ensures { index.new ≡ splice index.old (4 * k) (bytes 4 (fields_word (block_at log.now k))) }
{
    let w = crate::words::block_word(log, k);
    num::put::put_u32(index, 4 * k, u64::from(w));
}

// Makes the index of a log of right blocks whose first words are there already.
pub fn write_index(log: &[u8], kept: usize, index: &mut [u8])
    requires by_index { ((k : ℕ) → k < blocks_in log.now → used (block_at log.now k) ≤ 15) × (kept ≤ blocks_in log.now) × (4 * blocks_in log.now ≤ length index.old) }
    requires kept_value { part index.old 0 (4 * kept) ≡ words_up_to fields_word log.now kept }
    ensures { index.new ≡ splice index.old 0 (words_up_to fields_word log.now (blocks_in log.now)) }
{
    let n = log.len() / 512;
    for k in kept..n {
        put_word(log, k, index);
    }
}

// Tests a log of whole blocks for 12, then for 10: a refusal, or the number of its blocks.
pub fn right(s: Settings, log: &[u8]) -> Result<u64, Refusal>
    ensures { result ≡ right_log Err 15 s log.now (Ok (blocks_in log.now)) }
{
    let n = log.len() / 512;
    let found = log_list::copy::faults(s, log, Per::PLAIN);
    if found.block != n {
        return Err(Refusal::Block(found.block as u64));
    }
    if found.record != log_block::read::records_in(log, Per::PLAIN) {
        return Err(Refusal::Word(found.record as u64));
    }
    Ok(n as u64)
}

// What is answered of a log that passes 13, 12 and 10: 14 for the words that are there already, then 8.
pub fn room_answer(log: &[u8], kept: usize, index: &[u8]) -> Result<u64, IndexRefusal>
    requires { (k : ℕ) → k < blocks_in log.now → used (block_at log.now k) ≤ 15 }
    ensures { result ≡ room_answer log.now kept index.now }
{
    let wrong = first_wrong(log, index, kept);
    if wrong != kept {
        return Err(IndexRefusal::Differs(wrong as u64));
    }
    let n = log.len() / 512;
    if n <= index.len() / 4 {
        return Ok(n as u64);
    }
    Err(IndexRefusal::Refused(Refusal::Full))
}

// What making the index of a log into a buffer answers, of which the first `kept` words are there already.
fn add_answer(s: Settings, log: &[u8], kept: usize, index: &[u8]) -> Result<u64, IndexRefusal>
    ensures { result ≡ add_answer s log.now kept index.now }
{
    if log.len() % 512 != 0 {
        return Err(IndexRefusal::Refused(Refusal::Length));
    }
    right(s, log)?;
    room_answer(log, kept, index)
}

// Makes the index of a log at the start of a buffer of which the first `kept` words are there already, and stay.
pub fn add(s: Settings, log: &[u8], kept: usize, index: &mut [u8]) -> Result<u64, IndexRefusal>
    ensures { (result ≡ add_answer s log.now kept index.old) × (index.new ≡ lent_after (add_answer s log.now kept index.old) (index_of s log.now) index.old) }
{
    let answer = add_answer(s, log, kept, index);
    if let Ok(_) = answer {
        write_index(log, kept, index);
    }
    answer
}
