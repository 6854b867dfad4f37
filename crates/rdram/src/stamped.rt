// Logs that carry their settings.
ghost use Rattle.std.specs.Prelude.{◌≡◌};
ghost use Rattle.calls_stamp.specs.Results.{stamped_encode_call, stamped_decode_call, stamp_call, unstamp_call, stamped_check_call, stamped_index_call, stamped_query_call};

use calls_index::IndexAnswer;
use spec_calls::{CheckAnswer, CopyAnswer};

// A list of records to the start of a log that carries the settings.
#[unsafe(no_mangle)]
pub extern "C" fn rdram_stamped_encode(settings: &[u8], list: &[u8], log: &mut [u8]) -> CopyAnswer
    ensures { (result ≡ (stamped_encode_call settings.now list.now log.old).answer) × (log.new ≡ (stamped_encode_call settings.now list.now log.old).lent) }
{
    calls_stamp::logs::encode_by(settings, list, log)
}

// A log that carries its settings to the start of a list of records.
#[unsafe(no_mangle)]
pub extern "C" fn rdram_stamped_decode(log: &[u8], list: &mut [u8]) -> CopyAnswer
    ensures { (result ≡ (stamped_decode_call log.now list.old).answer) × (list.new ≡ (stamped_decode_call log.now list.old).lent) }
{
    calls_stamp::logs::decode_by(log, list)
}

// Judges the list that such a log keeps by the settings that it carries.
#[unsafe(no_mangle)]
pub extern "C" fn rdram_stamped_check(log: &[u8]) -> CheckAnswer
    ensures { result ≡ stamped_check_call log.now }
{
    calls_stamp::checks::check_by(log)
}

// The index of such a log to a buffer whose first `kept` words are there already: only the others are written.
#[unsafe(no_mangle)]
pub extern "C" fn rdram_stamped_index(log: &[u8], kept: usize, index: &mut [u8]) -> IndexAnswer
    ensures { (result ≡ (stamped_index_call log.now kept index.old).answer) × (index.new ≡ (stamped_index_call log.now kept index.old).lent) }
{
    calls_stamp::indexes::add_by(log, kept, index)
}

// The numbers of the blocks of such a log that touch a bank, to the start of a buffer.
#[unsafe(no_mangle)]
pub extern "C" fn rdram_stamped_query(
    log: &[u8],
    index: &[u8],
    bank: u32,
    out: &mut [u8],
) -> IndexAnswer
    ensures { (result ≡ (stamped_query_call log.now index.now bank out.old).answer) × (out.new ≡ (stamped_query_call log.now index.now bank out.old).lent) }
{
    calls_stamp::indexes::query_by(log, index, bank, out)
}

// A log of the old form to the start of one that carries the settings.
#[unsafe(no_mangle)]
pub extern "C" fn rdram_log_stamp(settings: &[u8], log: &[u8], out: &mut [u8]) -> CopyAnswer
    ensures { (result ≡ (stamp_call settings.now log.now out.old).answer) × (out.new ≡ (stamp_call settings.now log.now out.old).lent) }
{
    calls_stamp::logs::stamp_by(settings, log, out)
}

// A log that carries its settings to the start of one of the old form.
#[unsafe(no_mangle)]
pub extern "C" fn rdram_log_unstamp(log: &[u8], out: &mut [u8]) -> CopyAnswer
    ensures { (result ≡ (unstamp_call log.now out.old).answer) × (out.new ≡ (unstamp_call log.now out.old).lent) }
{
    calls_stamp::logs::unstamp_by(log, out)
}
