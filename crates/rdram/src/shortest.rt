// The shortest run of a list that still breaks its rule.
ghost use Rattle.std.specs.Prelude.{◌≡◌};
ghost use Rattle.calls_shortest.specs.Results.{shortest_call};

use calls_shortest::ShortestAnswer;

// Judges a list of records, and finds the shortest run that breaks the same rule at the same record.
#[unsafe(no_mangle)]
pub extern "C" fn rdram_shortest(settings: &[u8], list: &[u8]) -> ShortestAnswer
    ensures { result ≡ shortest_call settings.now list.now }
{
    calls_shortest::shortest_by(settings, list)
}
