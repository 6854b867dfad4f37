// The device model.
ghost use Rattle.std.specs.Prelude.{◌≡◌};
ghost use Rattle.spec_calls.specs.Models.{model_fresh, step_call};

use spec_calls::StepAnswer;

// Puts a fresh model into a buffer of its length.
#[unsafe(no_mangle)]
pub extern "C" fn rdram_model_fresh(model: &mut [u8]) -> u32
    ensures value { result ≡ (model_fresh model.old).number }
    ensures model_after { model.new ≡ (model_fresh model.old).state }
{
    calls_model::model_fresh(model)
}

// Takes one record: an RD puts its dualoct at the start of room, a retire writes to the store.
#[unsafe(no_mangle)]
pub extern "C" fn rdram_model_step(
    settings: &[u8],
    model: &mut [u8],
    store: &mut [u8],
    given: &[u8],
    room: &mut [u8],
) -> StepAnswer
    ensures value { result ≡ (step_call settings.now model.old store.old given.now room.old).answer }
    ensures model_after { model.new ≡ (step_call settings.now model.old store.old given.now room.old).model }
    ensures store_after { store.new ≡ (step_call settings.now model.old store.old given.now room.old).store }
    ensures room_after { room.new ≡ (step_call settings.now model.old store.old given.now room.old).room }
{
    calls_model::step_call(settings, model, store, given, room)
}
