// A model call on the bytes of a model: of the banks it reads and writes only those that the record concerns.
#![tactic(auto)]

ghost use Rattle.std.specs.Prelude.{◌≡◌, true, length};
ghost use Rattle.settings.specs.Settings.{valid};
ghost use Rattle.record.specs.Record.{record_fits};
ghost use Rattle.spec_rules.specs.Neighbour.{context_of};
ghost use Rattle.spec_state.specs.ChannelBytes.{channel_in};
ghost use Rattle.spec_model.specs.Store.{store_length};
ghost use Rattle.spec_model.specs.ModelBytes.{model_bytes, model_in, model_right};
ghost use Rattle.spec_model.specs.Step.{record_answer, step_answer, step_model, step_store, step_room};
ghost use Rattle.state_bytes.specs.Form.Stored.{InRange};
ghost use Rattle.model_step.specs.Form.Take.{touch_for, take_model, take_store, take_room};

use chan_view::Seen;
use chan_view::views::{leaving, seen_of};
use model_judge::{held_at, judge_in, track_for};
use model_next::put_next;
use model_store::touching::touch_of;
use model_store::{Touch, access, store_length};
use record::{Record, Refusal};
use record_bytes::read_record;
use settings::Settings;
use spec_model::{Event, ModelBytes};
use state_bytes::models::data_at;
use state_bytes::reads::buffer_at;

// What a record asks of the store.
fn touch_in(s: Settings, b: &ModelBytes, r: Record) -> Touch
    requires in_range { InRange b.now }
    ensures { result ≡ touch_for (context_of s) (channel_in b.now) r }
{
    let seen = seen_of(r);
    match seen {
        Seen::Packet(v) => {
            let h = held_at(b);
            let own = track_for(b, v.bank);
            let held = track_for(b, h.bank);
            touch_of(r, buffer_at(b), leaving(s, h, v), own, held)
        }
        Seen::Data(_) => Touch::Nothing,
    }
}

// A call with a record: 11, then 8.
fn take_in(
    s: Settings,
    model: &mut ModelBytes,
    store: &mut [u8],
    r: Record,
    room: &mut [u8],
) -> Result<Event, Refusal>
    requires s_value { valid s ≡ true }
    requires model_value { model_right (context_of s) model.old ≡ true }
    requires store_len { length store.old ≡ store_length (context_of s) }
    requires r_value { record_fits s r ≡ true }
    ensures value { result ≡ record_answer (context_of s) (model_in model.old) r (length room.old) }
    ensures model_after { model.new ≡ model_bytes (take_model (context_of s) (model_in model.old) r (length room.old)) }
    ensures store_after { store.new ≡ take_store (context_of s) (model_in model.old) r store.old (length room.old) }
    ensures room_after { room.new ≡ take_room (context_of s) (model_in model.old) r store.old room.old }
{
    let rule = judge_in(s, model, r);
    if rule != 0 {
        return Err(Refusal::Rule(rule, 0));
    }
    let event = access(s, touch_in(s, model, r), data_at(model), store, room)?;
    put_next(s, model, r);
    Ok(event)
}

// A model call: one record, the store and a buffer for the answer. Refusals in their order: 9, 13, 10, 11, 8.
pub fn step(
    s: Settings,
    model: &mut ModelBytes,
    store: &mut [u8],
    given: &[u8],
    room: &mut [u8],
) -> Result<Event, Refusal>
    requires s_value { valid s ≡ true }
    requires model_value { model_right (context_of s) model.old ≡ true }
    ensures value { result ≡ step_answer (context_of s) (model_in model.old) (length store.old) given.now (length room.old) }
    ensures model_after { model.new ≡ model_bytes (step_model (context_of s) (model_in model.old) (length store.old) given.now (length room.old)) }
    ensures store_after { store.new ≡ step_store (context_of s) (model_in model.old) store.old given.now (length room.old) }
    ensures room_after { room.new ≡ step_room (context_of s) (model_in model.old) store.old given.now room.old }
{
    if store.len() != store_length(s) {
        return Err(Refusal::Store);
    }
    if given.len() != 32 {
        return Err(Refusal::Length);
    }
    let Some(r) = read_record(s, given, 0) else {
        return Err(Refusal::Word(0));
    };
    take_in(s, model, store, r, room)
}
