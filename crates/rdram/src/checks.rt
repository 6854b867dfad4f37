// The checker of lists and logs.
ghost use Rattle.std.specs.Prelude.{◌≡◌};
ghost use Rattle.spec_calls.specs.Checks.{check_call, check_log_call};

use spec_calls::CheckAnswer;

// Judges a list of records.
#[unsafe(no_mangle)]
pub extern "C" fn rdram_check(settings: &[u8], list: &[u8]) -> CheckAnswer
    ensures { result ≡ check_call settings.now list.now }
{
    calls_list::checks::check_by(settings, list)
}

// Judges the list that a log keeps.
#[unsafe(no_mangle)]
pub extern "C" fn rdram_check_log(settings: &[u8], log: &[u8]) -> CheckAnswer
    ensures { result ≡ check_log_call settings.now log.now }
{
    calls_list::checks::check_log_by(settings, log)
}
