// The index of a stamped log, and its query.
ghost use Rattle.std.specs.Prelude.{◌≡◌, cond, ℕ, ◌<◌, ◌≤◌, eqb, length};
ghost use Rattle.num.specs.Search.{first_false};
ghost use Rattle.num.specs.Marks.{count_up_to};
ghost use Rattle.log_block.specs.Block.{used, blocks_in, block_at};
ghost use Rattle.spec_index.specs.Index.{index_words, words_of, word_right, index_of};
ghost use Rattle.spec_index.specs.Query.{has_bit, queried};
ghost use Rattle.spec_index.specs.Answers.{lent_after, count_or_full};
ghost use Rattle.log_index.specs.Form.Fields.{fields_word};
ghost use Rattle.log_stamp.specs.Stamp.{settings_of};
ghost use Rattle.calls_stamp.specs.Results.{stamped_index_answer, stamped_index_call, stamped_query_answer, stamped_query_call};

use calls_index::IndexAnswer;
use log_stamp::tested;
use record::Refusal;
use spec_index::IndexRefusal;

// What making the index of a stamped log into a buffer answers, of which the first `kept` words are there already.
fn add_answer(log: &[u8], kept: usize, index: &[u8]) -> Result<u64, IndexRefusal>
    ensures { result ≡ stamped_index_answer log.now kept index.now }
{
    if log.len() % 512 != 0 {
        return Err(IndexRefusal::Refused(Refusal::Length));
    }
    tested(log)?;
    log_index::make::room_answer(log, kept, index)
}

// Makes the index of a stamped log at the start of a buffer of which the first `kept` words are there already, and stay.
fn add(log: &[u8], kept: usize, index: &mut [u8]) -> Result<u64, IndexRefusal>
    ensures { (result ≡ stamped_index_answer log.now kept index.old) × (index.new ≡ lent_after (stamped_index_answer log.now kept index.old) (index_of (settings_of log.now) log.now) index.old) }
{
    let answer = add_answer(log, kept, index);
    if let Ok(_) = answer {
        log_index::make::write_index(log, kept, index);
    }
    answer
}

// The same in numbers.
pub fn add_by(log: &[u8], kept: usize, index: &mut [u8]) -> IndexAnswer
    ensures { (result ≡ (stamped_index_call log.now kept index.old).answer) × (index.new ≡ (stamped_index_call log.now kept index.old).lent) }
{
    IndexAnswer::from(add(log, kept, index))
}

// What a query of an index beside a log that passes answers: 14, then 8.
fn query_beside(log: &[u8], index: &[u8], bank: u32, room: usize) -> Result<u64, IndexRefusal>
    requires bank_bound { bank < 32 }
    requires by_index { (k : ℕ) → k < blocks_in log.now → used (block_at log.now k) ≤ 15 }
    ensures { result ≡ cond (eqb (first_false (word_right fields_word log.now index.now) (words_of log.now index.now)) (words_of log.now index.now)) (count_or_full (count_up_to (has_bit index.now bank) (index_words index.now)) room) (Err (IndexRefusal.Differs (first_false (word_right fields_word log.now index.now) (words_of log.now index.now)))) }
{
    let n = (index.len() / 4).max(log.len() / 512);
    let wrong = log_index::make::first_wrong(log, index, n);
    if wrong != n {
        return Err(IndexRefusal::Differs(wrong as u64));
    }
    log_index::query::fits(log_index::query::found(index, bank), room)
}

// What a query into so many bytes answers.
fn query_answer(log: &[u8], index: &[u8], bank: u32, room: usize) -> Result<u64, IndexRefusal>
    ensures { result ≡ stamped_query_answer log.now index.now bank room }
{
    if log.len() % 512 != 0 {
        return Err(IndexRefusal::Refused(Refusal::Length));
    }
    if index.len() % 4 != 0 {
        return Err(IndexRefusal::Refused(Refusal::Length));
    }
    if bank >= 32 {
        return Err(IndexRefusal::Refused(Refusal::Bank));
    }
    tested(log)?;
    query_beside(log, index, bank, room)
}

// Lists the numbers of the blocks of a stamped log that touch a bank at the start of a buffer.
fn query(log: &[u8], index: &[u8], bank: u32, out: &mut [u8]) -> Result<u64, IndexRefusal>
    ensures { (result ≡ stamped_query_answer log.now index.now bank (length out.old)) × (out.new ≡ lent_after (stamped_query_answer log.now index.now bank (length out.old)) (queried index.now bank) out.old) }
{
    let answer = query_answer(log, index, bank, out.len());
    if let Ok(_) = answer {
        log_index::query::list_found(index, bank, out);
    }
    answer
}

// The same in numbers.
pub fn query_by(log: &[u8], index: &[u8], bank: u32, out: &mut [u8]) -> IndexAnswer
    ensures { (result ≡ (stamped_query_call log.now index.now bank out.old).answer) × (out.new ≡ (stamped_query_call log.now index.now bank out.old).lent) }
{
    IndexAnswer::from(query(log, index, bank, out))
}
