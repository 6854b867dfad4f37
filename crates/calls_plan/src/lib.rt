// The calls of the planner on the bytes of a state.
#![tactic(auto)]

pub mod all;
mod ways;

ghost use Rattle.std.specs.Prelude.{◌≡◌, true};
ghost use Rattle.settings.specs.Settings.{valid};
ghost use Rattle.spec_rules.specs.Neighbour.{context_of};
ghost use Rattle.spec_plan.specs.PlannerBytes.{planner_right};
ghost use Rattle.spec_calls.specs.Plans.{planner_fresh, plan_under, plan_call};
ghost use Rattle.plan_bytes.specs.Form.Calm.{is_calm};

use crate::ways::{answer, asked};
use record::Refusal;
use settings::Settings;
use settings::read::read_settings;
use spec_calls::PlanAnswer;
use spec_plan::{PLANNER_BYTES, PlannerBytes};
use state_bytes::planners::{planner_rest_right, planner_right};

// Puts a fresh planner into a buffer of its length. The number is that of the C call, which has no other result.
pub fn planner_fresh(planner: &mut [u8]) -> u32
    ensures value { result ≡ (planner_fresh planner.old).number }
    ensures planner_after { planner.new ≡ (planner_fresh planner.old).state }
{
    let Some(planner) = planner.as_mut_array::<PLANNER_BYTES>() else {
        return 1;
    };
    state_bytes::fresh::put_fresh_planner(planner);
    0
}

// Whether refusal 1 has nothing against a planner's bytes, of which is known whether they are calm: then no instant is out of range.
fn right(s: Settings, b: &PlannerBytes, quick: bool) -> bool
    requires quick_value { quick ≡ is_calm b.now }
    ensures { result ≡ planner_right (context_of s) b.now }
{
    if quick {
        return planner_rest_right(s, b);
    }
    planner_right(s, b)
}

// A plan call under settings that are accepted.
fn plan_under(s: Settings, planner: &mut [u8], request: &[u8], room: &mut [u8]) -> PlanAnswer
    requires { valid s ≡ true }
    ensures value { result ≡ (plan_under planner.old request.now room.old s).answer }
    ensures planner_after { planner.new ≡ (plan_under planner.old request.now room.old s).planner }
    ensures room_after { room.new ≡ (plan_under planner.old request.now room.old s).room }
{
    let Some(planner) = planner.as_mut_array::<PLANNER_BYTES>() else {
        return answer(Err(Refusal::Settings), 0);
    };
    let quick = plan_bytes::calm::calm(planner);
    if !right(s, planner, quick) {
        return answer(Err(Refusal::Settings), 0);
    }
    asked(s, planner, quick, request, room)
}

// One request: its records go to the start of room, and planner becomes the next state.
pub fn plan_call(settings: &[u8], planner: &mut [u8], request: &[u8], room: &mut [u8]) -> PlanAnswer
    ensures value { result ≡ (plan_call settings.now planner.old request.now room.old).answer }
    ensures planner_after { planner.new ≡ (plan_call settings.now planner.old request.now room.old).planner }
    ensures room_after { room.new ≡ (plan_call settings.now planner.old request.now room.old).room }
{
    let Some(s) = read_settings(settings) else {
        return answer(Err(Refusal::Settings), 0);
    };
    plan_under(s, planner, request, room)
}
