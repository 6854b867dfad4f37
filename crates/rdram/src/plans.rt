// The planner.
ghost use Rattle.std.specs.Prelude.{◌≡◌};
ghost use Rattle.spec_calls.specs.Plans.{planner_fresh, plan_call};
ghost use Rattle.spec_calls.specs.PlanAll.{plan_all_call};

use spec_calls::{PlanAllAnswer, PlanAnswer};

// Puts a fresh planner into a buffer of its length.
#[unsafe(no_mangle)]
pub extern "C" fn rdram_planner_fresh(planner: &mut [u8]) -> u32
    ensures value { result ≡ (planner_fresh planner.old).number }
    ensures planner_after { planner.new ≡ (planner_fresh planner.old).state }
{
    calls_plan::planner_fresh(planner)
}

// Plans one request: its records go to the start of room, and planner becomes the next state.
#[unsafe(no_mangle)]
pub extern "C" fn rdram_plan(
    settings: &[u8],
    planner: &mut [u8],
    request: &[u8],
    room: &mut [u8],
) -> PlanAnswer
    ensures value { result ≡ (plan_call settings.now planner.old request.now room.old).answer }
    ensures planner_after { planner.new ≡ (plan_call settings.now planner.old request.now room.old).planner }
    ensures room_after { room.new ≡ (plan_call settings.now planner.old request.now room.old).room }
{
    calls_plan::plan_call(settings, planner, request, room)
}

// Plans many requests in turn, up to the first that is refused: their records go to room one after the other from its start on, and
// planner becomes the state after the last that is planned.
#[unsafe(no_mangle)]
pub extern "C" fn rdram_plan_all(
    settings: &[u8],
    planner: &mut [u8],
    requests: &[u8],
    room: &mut [u8],
) -> PlanAllAnswer
    ensures value { result ≡ (plan_all_call settings.now planner.old requests.now room.old).answer }
    ensures planner_after { planner.new ≡ (plan_all_call settings.now planner.old requests.now room.old).planner }
    ensures room_after { room.new ≡ (plan_all_call settings.now planner.old requests.now room.old).room }
{
    calls_plan::all::plan_all_call(settings, planner, requests, room)
}
