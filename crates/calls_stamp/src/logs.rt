// Lists to stamped logs and back, and logs of one form to the other.
ghost use Rattle.std.specs.Prelude.{◌≡◌};
ghost use Rattle.calls_stamp.specs.Results.{stamped_encode_call, stamped_decode_call, stamp_call, unstamp_call};

use log_block::form::Form;
use record::Refusal;
use settings::read::read_settings;
use spec_calls::CopyAnswer;

// A list of records to the start of a stamped log.
pub fn encode_by(settings: &[u8], list: &[u8], log: &mut [u8]) -> CopyAnswer
    ensures { (result ≡ (stamped_encode_call settings.now list.now log.old).answer) × (log.new ≡ (stamped_encode_call settings.now list.now log.old).lent) }
{
    let Some(s) = read_settings(settings) else {
        return CopyAnswer::from(Err(Refusal::Settings));
    };
    CopyAnswer::from(log_list::copy::encode(s, Form::stamped(settings), list, log))
}

// A stamped log to the start of a list of records.
pub fn decode_by(log: &[u8], list: &mut [u8]) -> CopyAnswer
    ensures { (result ≡ (stamped_decode_call log.now list.old).answer) × (list.new ≡ (stamped_decode_call log.now list.old).lent) }
{
    CopyAnswer::from(log_stamp::copy::decode(log, list))
}

// A log of the old form to the start of a stamped one.
pub fn stamp_by(settings: &[u8], log: &[u8], out: &mut [u8]) -> CopyAnswer
    ensures { (result ≡ (stamp_call settings.now log.now out.old).answer) × (out.new ≡ (stamp_call settings.now log.now out.old).lent) }
{
    let Some(s) = read_settings(settings) else {
        return CopyAnswer::from(Err(Refusal::Settings));
    };
    CopyAnswer::from(log_stamp::copy::stamp(s, settings, log, out))
}

// A stamped log to the start of one of the old form.
pub fn unstamp_by(log: &[u8], out: &mut [u8]) -> CopyAnswer
    ensures { (result ≡ (unstamp_call log.now out.old).answer) × (out.new ≡ (unstamp_call log.now out.old).lent) }
{
    CopyAnswer::from(log_stamp::copy::unstamp(log, out))
}
