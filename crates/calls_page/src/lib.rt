// A page of the channel, of settings as bytes, with an answer in numbers (document 02, request k).
#![tactic(auto)]

pub mod draw;

ghost use Rattle.std.specs.Prelude.{◌≡◌, length};
ghost use Rattle.spec_check.specs.Check.{records_of};
ghost use Rattle.spec_page.specs.Page.{page};
ghost use Rattle.calls_page.specs.Results.{page_answer, page_lent, page_call};

use record::Refusal;
use settings::read::read_settings;
use settings::{HORIZON, Settings};
use spec_calls::CheckAnswer;

// The bytes of a page.
const PAGE: usize = 292;

pub(crate) type PageBytes = [u8; PAGE];

// What a call answers whose room has so many bytes: 13, 7, 10, 11, 8.
fn page_answer(s: Settings, list: &[u8], start: u32, room: usize) -> Result<(), Refusal>
    ensures { result ≡ page_answer s list.now start room }
{
    if list.len() % 32 != 0 {
        return Err(Refusal::Length);
    }
    if start > HORIZON {
        return Err(Refusal::Horizon);
    }
    check_list::check_list(s, list)?;
    if room < PAGE {
        return Err(Refusal::Full);
    }
    Ok(())
}

// The page of a list from cycle `start` on, to the start of the room.
fn put_page(s: Settings, list: &[u8], start: u32, room: &mut [u8]) -> Result<(), Refusal>
    ensures { (result ≡ page_answer s list.now start (length room.old)) × (room.new ≡ page_lent result (page s (records_of s list.now) start) room.old) }
{
    page_answer(s, list, start, room.len())?;
    let Some(page) = room.first_chunk_mut::<PAGE>() else {
        return Err(Refusal::Full);
    };
    crate::draw::draw(s, list, start, page);
    Ok(())
}

// The page of a list of records, of settings as bytes.
pub fn page_by(settings: &[u8], list: &[u8], start: u32, room: &mut [u8]) -> CheckAnswer
    ensures { (result ≡ (page_call settings.now list.now start room.old).answer) × (room.new ≡ (page_call settings.now list.now start room.old).lent) }
{
    let Some(s) = read_settings(settings) else {
        return CheckAnswer::from(Err(Refusal::Settings));
    };
    CheckAnswer::from(put_page(s, list, start, room))
}
