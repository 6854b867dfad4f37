// A stamped log to a list, and logs of one form to the other.
ghost use Rattle.std.specs.Prelude.{◌≡◌, cond, ◌+◌, ◌*◌, ◌/◌, ◌%◌, ◌≤◌, leb, [], length};
ghost use Rattle.log_block.specs.Block.{log_of, list_of};
ghost use Rattle.record.specs.declared.Refusal.TheVariants.{Full};
ghost use Rattle.log_list.specs.Log.{copied};
ghost use Rattle.log_stamp.specs.Copy.{stamped_decode_answer, stamp_answer, unstamp_answer};

use crate::tested;
use log_block::form::{Form, Per};
use log_list::copy::blocks_or_full;
use record::Refusal;
use settings::Settings;

// So many records into so many bytes: their number, or 8.
fn records_or_full(n: usize, room: usize) -> Result<u64, Refusal>
    ensures { result ≡ cond (leb n (room / 32)) (Ok n) (Err Full) }
{
    if n <= room / 32 {
        return Ok(n as u64);
    }
    Err(Refusal::Full)
}

// What decoding a stamped log into so many bytes answers.
fn decode_answer(log: &[u8], room: usize) -> Result<u64, Refusal>
    ensures { result ≡ stamped_decode_answer log.now room }
{
    if log.len() % 512 != 0 {
        return Err(Refusal::Length);
    }
    tested(log)?;
    records_or_full(log_block::read::records_in(log, Per::STAMPED), room)
}

// Decodes a stamped log into the start of a list of records.
pub fn decode(log: &[u8], list: &mut [u8]) -> Result<u64, Refusal>
    ensures { (result ≡ stamped_decode_answer log.now (length list.old)) × (list.new ≡ copied (stamped_decode_answer log.now (length list.old)) (list_of log.now) list.old) }
{
    let answer = decode_answer(log, list.len());
    if let Ok(_) = answer {
        log_block::read::read_list(log, Per::STAMPED, list);
    }
    answer
}

// What moving a stamped log to the old form into so many bytes answers.
fn unstamp_answer(log: &[u8], room: usize) -> Result<u64, Refusal>
    ensures { result ≡ unstamp_answer log.now room }
{
    if log.len() % 512 != 0 {
        return Err(Refusal::Length);
    }
    tested(log)?;
    blocks_or_full(15, log_block::read::records_in(log, Per::STAMPED), room)
}

// Moves a stamped log to the old form.
pub fn unstamp(log: &[u8], out: &mut [u8]) -> Result<u64, Refusal>
    ensures { (result ≡ unstamp_answer log.now (length out.old)) × (out.new ≡ copied (unstamp_answer log.now (length out.old)) (log_of 15 [] (list_of log.now)) out.old) }
{
    let answer = unstamp_answer(log, out.len());
    if let Ok(_) = answer {
        crate::moved::write_moved(log, Per::STAMPED, Form::plain(), out);
    }
    answer
}

// What moving a log of the old form to a stamped one into so many bytes answers.
fn stamp_answer(s: Settings, log: &[u8], room: usize) -> Result<u64, Refusal>
    ensures { result ≡ stamp_answer s log.now room }
{
    if log.len() % 512 != 0 {
        return Err(Refusal::Length);
    }
    log_index::make::right(s, log)?;
    blocks_or_full(14, log_block::read::records_in(log, Per::PLAIN), room)
}

// Moves a log of the old form to a stamped one.
pub fn stamp(s: Settings, settings: &[u8], log: &[u8], out: &mut [u8]) -> Result<u64, Refusal>
    requires { length settings.now ≡ 32 }
    ensures { (result ≡ stamp_answer s log.now (length out.old)) × (out.new ≡ copied (stamp_answer s log.now (length out.old)) (log_of 14 settings.now (list_of log.now)) out.old) }
{
    let answer = stamp_answer(s, log, out.len());
    if let Ok(_) = answer {
        crate::moved::write_moved(log, Per::PLAIN, Form::stamped(settings), out);
    }
    answer
}
