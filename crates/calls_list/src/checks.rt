// The checker of lists and logs, of settings as bytes.
ghost use Rattle.std.specs.Prelude.{◌≡◌};
ghost use Rattle.spec_calls.specs.Checks.{check_call, check_log_call};

use record::Refusal;
use settings::read::read_settings;
use spec_calls::CheckAnswer;

// Judges a list of records.
pub fn check_by(settings: &[u8], list: &[u8]) -> CheckAnswer
    ensures { result ≡ check_call settings.now list.now }
{
    let Some(s) = read_settings(settings) else {
        return CheckAnswer::from(Err(Refusal::Settings));
    };
    CheckAnswer::from(check_list::check_list(s, list))
}

// Judges the list that a log keeps.
pub fn check_log_by(settings: &[u8], log: &[u8]) -> CheckAnswer
    ensures { result ≡ check_log_call settings.now log.now }
{
    let Some(s) = read_settings(settings) else {
        return CheckAnswer::from(Err(Refusal::Settings));
    };
    CheckAnswer::from(check_list::check_log(s, log))
}
