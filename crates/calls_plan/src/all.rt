// Many requests in one call: each is planned from the state that the last one left, into what it left of the room.
ghost use Rattle.std.specs.Prelude.{◌≡◌, true, [], ◌++◌, ◌+◌, ◌*◌, ◌/◌, ◌≤◌, max, length, take, drop};
ghost use Rattle.settings.specs.Settings.{valid};
ghost use Rattle.spec_rules.specs.Neighbour.{context_of};
ghost use Rattle.spec_plan.specs.PlannerBytes.{planner_right};
ghost use Rattle.plan_bytes.specs.Form.Numbers.{word, Below};
ghost use Rattle.spec_calls.specs.Plans.{plan_under};
ghost use Rattle.spec_calls.specs.PlanAll.{request_at, in_turn, none_yet, all_refused, plan_all_under, plan_all_call};
ghost use Rattle.spec_calls.proofs.OneCall.{under};

use crate::ways::asked;
use num::u32_at;
use plan_bytes::calm::highest;
use record::Refusal;
use settings::Settings;
use settings::read::read_settings;
use spec_calls::{PlanAllAnswer, PlanAnswer};
use spec_plan::{PLANNER_BYTES, PlannerBytes};
use state_bytes::planners::planner_right;

// The request at a place, where so many records stand in the room.
fn plan_at(
    s: Settings,
    planner: &mut PlannerBytes,
    quick: bool,
    requests: &[u8],
    place: usize,
    room: &mut [u8],
    records: usize,
) -> PlanAnswer
    requires s_value { valid s ≡ true }
    requires planner_value { planner_right (context_of s) planner.old ≡ true }
    requires below { quick ≡ true → Below 999990000 planner.old }
    requires place_in_bounds { 24 * place + 24 ≤ length requests.now }
    requires records_in_bounds { 32 * records ≤ length room.old }
    ensures value { result ≡ (plan_under planner.old (request_at requests.now place) (drop (32 * records) room.old) s).answer }
    ensures planner_after { planner.new ≡ (plan_under planner.old (request_at requests.now place) (drop (32 * records) room.old) s).planner }
    ensures room_after { room.new ≡ take (32 * records) room.old ++ (plan_under planner.old (request_at requests.now place) (drop (32 * records) room.old) s).room }
{
    let at = 24 * place;
    let end = at + 24;
    let used = 32 * records;
    asked(s, planner, quick, &requests[at..end], &mut room[used..])
}

// The answer in numbers, with the requests before a place planned.
fn planned_to(number: u32, place: usize, records: usize) -> PlanAllAnswer
    ensures { (result.number ≡ number) × (result.place ≡ place) × (result.records ≡ records) }
{
    PlanAllAnswer {
        number: number,
        place: place as u64,
        records: records as u64,
    }
}

// A bound of the stored instants after a request that was planned, by one before it: it adds at most 9,700, or it leaves this now.
fn risen(planner: &PlannerBytes, top: u32) -> u32
    requires below { top ≤ 999990000 → Below (max (top + 9700) (word planner.now 752)) planner.now }
    ensures { Below result planner.now }
{
    if top <= 999990000 {
        return (top + 9700).max(u32_at(planner, 752));
    }
    highest(planner)
}

// Every request in turn, from a state that is not refused, up to the first that is refused.
fn plan_each(
    s: Settings,
    planner: &mut PlannerBytes,
    requests: &[u8],
    room: &mut [u8],
) -> PlanAllAnswer
    requires s_value { valid s ≡ true }
    requires planner_value { planner_right (context_of s) planner.old ≡ true }
    ensures value { result ≡ (in_turn (under s) requests.now (length requests.now / 24) (none_yet planner.old room.old)).answer }
    ensures planner_after { planner.new ≡ (in_turn (under s) requests.now (length requests.now / 24) (none_yet planner.old room.old)).planner }
    ensures room_after { room.new ≡ (in_turn (under s) requests.now (length requests.now / 24) (none_yet planner.old room.old)).room }
{
    let n = requests.len() / 24;
    let mut records = 0;
    let mut top = highest(planner);
    for place in 0..n {
        let made = plan_at(s, planner, top <= 999990000, requests, place, room, records);
        if made.number != 0 {
            return planned_to(made.number, place, records);
        }
        top = risen(planner, top);
        records += made.records as usize;
    }
    planned_to(0, n, records)
}

// The answer of a call that is refused before any request is planned.
fn none_planned(why: Refusal) -> PlanAllAnswer
    ensures { result ≡ (all_refused [] [] why).answer }
{
    let a = why.answer();
    PlanAllAnswer {
        number: a.number,
        place: 0,
        records: 0,
    }
}

// A call under settings that are accepted: 1 for the state, then 13.
pub fn plan_all_under(
    s: Settings,
    planner: &mut [u8],
    requests: &[u8],
    room: &mut [u8],
) -> PlanAllAnswer
    requires { valid s ≡ true }
    ensures value { result ≡ (plan_all_under (under s) planner.old requests.now room.old s).answer }
    ensures planner_after { planner.new ≡ (plan_all_under (under s) planner.old requests.now room.old s).planner }
    ensures room_after { room.new ≡ (plan_all_under (under s) planner.old requests.now room.old s).room }
{
    let Some(planner) = planner.as_mut_array::<PLANNER_BYTES>() else {
        return none_planned(Refusal::Settings);
    };
    if !planner_right(s, planner) {
        return none_planned(Refusal::Settings);
    }
    if requests.len() % 24 != 0 {
        return none_planned(Refusal::Length);
    }
    plan_each(s, planner, requests, room)
}

// Many requests: their records go to room one after the other from its start on, and planner becomes the state after the last that
// is planned.
pub fn plan_all_call(
    settings: &[u8],
    planner: &mut [u8],
    requests: &[u8],
    room: &mut [u8],
) -> PlanAllAnswer
    ensures value { result ≡ (plan_all_call settings.now planner.old requests.now room.old).answer }
    ensures planner_after { planner.new ≡ (plan_all_call settings.now planner.old requests.now room.old).planner }
    ensures room_after { room.new ≡ (plan_all_call settings.now planner.old requests.now room.old).room }
{
    let Some(s) = read_settings(settings) else {
        return none_planned(Refusal::Settings);
    };
    plan_all_under(s, planner, requests, room)
}
