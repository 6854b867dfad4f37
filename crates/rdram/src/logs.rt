// Lists of records and logs of blocks.
ghost use Rattle.std.specs.Prelude.{◌≡◌};
ghost use Rattle.spec_calls.specs.Logs.{log_encode_call, log_decode_call};

use spec_calls::CopyAnswer;

// A list of records to the start of a log.
#[unsafe(no_mangle)]
pub extern "C" fn rdram_log_encode(settings: &[u8], list: &[u8], log: &mut [u8]) -> CopyAnswer
    ensures { (result ≡ (log_encode_call settings.now list.now log.old).answer) × (log.new ≡ (log_encode_call settings.now list.now log.old).lent) }
{
    calls_list::logs::encode_by(settings, list, log)
}

// A log to the start of a list of records.
#[unsafe(no_mangle)]
pub extern "C" fn rdram_log_decode(settings: &[u8], log: &[u8], list: &mut [u8]) -> CopyAnswer
    ensures { (result ≡ (log_decode_call settings.now log.now list.old).answer) × (list.new ≡ (log_decode_call settings.now log.now list.old).lent) }
{
    calls_list::logs::decode_by(settings, log, list)
}
