// The calls of the device model on the bytes of a state.
#![tactic(auto)]

ghost use Rattle.std.specs.Prelude.{◌≡◌, true};
ghost use Rattle.settings.specs.Settings.{valid};
ghost use Rattle.spec_calls.specs.Models.{model_fresh, stepped_answer, step_under, step_call};

use record::Refusal;
use settings::Settings;
use settings::read::read_settings;
use spec_calls::StepAnswer;
use spec_model::{Event, MODEL_BYTES};

// Puts a fresh model into a buffer of its length.
pub fn model_fresh(model: &mut [u8]) -> u32
    ensures value { result ≡ (model_fresh model.old).number }
    ensures model_after { model.new ≡ (model_fresh model.old).state }
{
    let Some(fresh) = model.as_mut_array::<MODEL_BYTES>() else {
        return 1;
    };
    state_bytes::fresh::put_fresh_model(fresh);
    0
}

// An event that is no refusal: its number, and how many bytes it wrote.
fn event(event: u32, bytes: u32) -> StepAnswer
    ensures { result ≡ record { number = 0; rule = 0; event = event; bytes = bytes } }
{
    StepAnswer {
        number: 0,
        rule: 0,
        event,
        bytes,
    }
}

fn answer(a: Result<Event, Refusal>) -> StepAnswer
    ensures { result ≡ stepped_answer a }
{
    match a {
        Err(r) => {
            let why = r.answer();
            StepAnswer {
                number: why.number,
                rule: why.rule,
                event: 0,
                bytes: 0,
            }
        }
        Ok(Event::Read) => event(1, 0),
        Ok(Event::Retired(n)) => event(2, n),
        Ok(Event::Neither) => event(0, 0),
    }
}

// A model call under settings that are accepted.
fn step_under(
    s: Settings,
    model: &mut [u8],
    store: &mut [u8],
    given: &[u8],
    room: &mut [u8],
) -> StepAnswer
    requires { valid s ≡ true }
    ensures value { result ≡ (step_under model.old store.old given.now room.old s).answer }
    ensures model_after { model.new ≡ (step_under model.old store.old given.now room.old s).model }
    ensures store_after { store.new ≡ (step_under model.old store.old given.now room.old s).store }
    ensures room_after { room.new ≡ (step_under model.old store.old given.now room.old s).room }
{
    let Some(bytes) = model.as_mut_array::<MODEL_BYTES>() else {
        return answer(Err(Refusal::Settings));
    };
    if !state_bytes::models::model_right(s, bytes) {
        return answer(Err(Refusal::Settings));
    }
    answer(model_step::step(s, bytes, store, given, room))
}

// One record: an RD puts its dualoct at the start of room, a retire writes to the store.
pub fn step_call(
    settings: &[u8],
    model: &mut [u8],
    store: &mut [u8],
    given: &[u8],
    room: &mut [u8],
) -> StepAnswer
    ensures value { result ≡ (step_call settings.now model.old store.old given.now room.old).answer }
    ensures model_after { model.new ≡ (step_call settings.now model.old store.old given.now room.old).model }
    ensures store_after { store.new ≡ (step_call settings.now model.old store.old given.now room.old).store }
    ensures room_after { room.new ≡ (step_call settings.now model.old store.old given.now room.old).room }
{
    let Some(s) = read_settings(settings) else {
        return answer(Err(Refusal::Settings));
    };
    step_under(s, model, store, given, room)
}
