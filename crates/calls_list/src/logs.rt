// Lists of records and logs of blocks, of settings as bytes.
ghost use Rattle.std.specs.Prelude.{◌≡◌};
ghost use Rattle.spec_calls.specs.Logs.{log_encode_call, log_decode_call};

use log_block::form::{Form, Per};
use record::Refusal;
use settings::read::read_settings;
use spec_calls::CopyAnswer;

// A list of records to the start of a log.
pub fn encode_by(settings: &[u8], list: &[u8], log: &mut [u8]) -> CopyAnswer
    ensures { (result ≡ (log_encode_call settings.now list.now log.old).answer) × (log.new ≡ (log_encode_call settings.now list.now log.old).lent) }
{
    let Some(s) = read_settings(settings) else {
        return CopyAnswer::from(Err(Refusal::Settings));
    };
    let written = log_list::copy::encode(s, Form::plain(), list, log);
    CopyAnswer::from(written)
}

// A log to the start of a list of records.
pub fn decode_by(settings: &[u8], log: &[u8], list: &mut [u8]) -> CopyAnswer
    ensures { (result ≡ (log_decode_call settings.now log.now list.old).answer) × (list.new ≡ (log_decode_call settings.now log.now list.old).lent) }
{
    let Some(s) = read_settings(settings) else {
        return CopyAnswer::from(Err(Refusal::Settings));
    };
    let read = log_list::copy::decode(s, log, Per::PLAIN, list);
    CopyAnswer::from(read)
}
