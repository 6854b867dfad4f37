// A page of the channel.
ghost use Rattle.std.specs.Prelude.{◌≡◌};
ghost use Rattle.calls_page.specs.Results.{page_call};

use spec_calls::CheckAnswer;

// The page of a list of records from cycle `start` on, to the start of a buffer.
#[unsafe(no_mangle)]
pub extern "C" fn rdram_page(
    settings: &[u8],
    list: &[u8],
    start: u32,
    room: &mut [u8],
) -> CheckAnswer
    ensures { (result ≡ (page_call settings.now list.now start room.old).answer) × (room.new ≡ (page_call settings.now list.now start room.old).lent) }
{
    calls_page::page_by(settings, list, start, room)
}
