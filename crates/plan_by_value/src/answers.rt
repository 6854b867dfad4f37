// What a plan call answers.
ghost use Rattle.std.specs.Prelude.{◌≡◌, true, false, ◌&&◌, length};
ghost use Rattle.num.specs.Bytes.{splice};
ghost use Rattle.settings.specs.Settings.{valid};
ghost use Rattle.spec_rules.specs.Neighbour.{context_of};
ghost use Rattle.spec_plan.specs.Planner.{planner_valid};
ghost use Rattle.spec_plan.specs.Call.{list_bytes, unretired, outcome_by};
ghost use Rattle.plan_by_value.specs.Form.Answered.{next_by, records_by};

use crate::asks::unretired;
use crate::ranges::planner_valid;
use crate::records::put_list;
use crate::steps::planned;
use crate::{Planned, Planner};
use record::{Refusal, Request};
use settings::Settings;
use spec_plan::PlannerState;

// Whether refusal 1 has nothing against settings and a state.
pub(crate) fn allowed(s: Settings, p: PlannerState) -> bool
    ensures { result ≡ (valid s && planner_valid (context_of s) p) }
{
    s.valid() & planner_valid(s, p)
}

// A refusal leaves the planner as it is.
pub(crate) fn refused(p: PlannerState, why: Refusal) -> Planned
    ensures { (result.outcome ≡ Err why) × (result.planner.state ≡ p) }
{
    Planned {
        planner: Planner { state: p },
        outcome: Err(why),
    }
}

// The answer to a request that is no close while a write waits: 7, then 8, then the number of its records, which go to the room.
fn served(s: Settings, q: Request, p: PlannerState, room: &mut [u8]) -> Planned
    requires { (valid s ≡ true) × (planner_valid (context_of s) p ≡ true) × (unretired q p ≡ false) }
    ensures outcome_value { result.outcome ≡ outcome_by (context_of s) p (Ok q) (length room.old) }
    ensures state_value { result.planner.state ≡ next_by (context_of s) p (Ok q) (length room.old) }
    ensures room_after { room.new ≡ splice room.old 0 (list_bytes s (records_by (context_of s) p (Ok q) (length room.old))) }
{
    let d = planned(s, q, p);
    if d.late {
        return refused(p, Refusal::Horizon);
    }
    let n = d.count;
    if room.len() / 32 < n {
        return refused(p, Refusal::Full);
    }
    let list = d.list;
    put_list(s, room, list, n);
    let next = d.planner;
    Planned {
        planner: Planner { state: next },
        outcome: Ok(n as u64),
    }
}

// The answer to a request: 15 first.
fn granted(s: Settings, q: Request, p: PlannerState, room: &mut [u8]) -> Planned
    requires { (valid s ≡ true) × (planner_valid (context_of s) p ≡ true) }
    ensures outcome_value { result.outcome ≡ outcome_by (context_of s) p (Ok q) (length room.old) }
    ensures state_value { result.planner.state ≡ next_by (context_of s) p (Ok q) (length room.old) }
    ensures room_after { room.new ≡ splice room.old 0 (list_bytes s (records_by (context_of s) p (Ok q) (length room.old))) }
{
    if unretired(q, p) {
        return refused(p, Refusal::Unretired);
    }
    served(s, q, p, room)
}

// The answer to what bytes say: the request's own refusals first.
pub(crate) fn answered(
    s: Settings,
    x: Result<Request, Refusal>,
    p: PlannerState,
    room: &mut [u8],
) -> Planned
    requires { (valid s ≡ true) × (planner_valid (context_of s) p ≡ true) }
    ensures outcome_value { result.outcome ≡ outcome_by (context_of s) p x (length room.old) }
    ensures state_value { result.planner.state ≡ next_by (context_of s) p x (length room.old) }
    ensures room_after { room.new ≡ splice room.old 0 (list_bytes s (records_by (context_of s) p x (length room.old))) }
{
    match x {
        Err(why) => refused(p, why),
        Ok(q) => granted(s, q, p, room),
    }
}
