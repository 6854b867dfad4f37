// The planner by value: a request to its records. Each step of the plan's definition (spec_plan/specs/Plan.antt) is the function of
// that name.
#![tactic(auto)]

mod answers;
mod asks;
mod drafts;
mod packets;
mod ranges;
mod records;
mod steps;

ghost use Rattle.std.specs.Prelude.{◌≡◌};
ghost use Rattle.spec_plan.specs.Planner.{fresh_planner};
ghost use Rattle.plan_by_value.specs.Call.{planning};

use packet::{ColPacket, RowPacket};
use record::{Record, Refusal};
use settings::{PacketAt, Settings};
use spec_plan::PlannerState;

// A ROW or COL packet that has no instant and no mask yet; a full mask stands for none.
#[derive(Clone, Copy)]
pub(crate) enum Command {
    Row(RowPacket),
    Col(ColPacket),
}

// A record of a draft.
#[derive(Clone, Copy)]
pub(crate) struct Entry {
    pub made: Record,
}

// A planner with the records that it has made for a request so far: the first count of the list. Late: the instant of a packet
// or of its data, or now, passed the last one; then the rest says nothing. A flag and no `Result`: the definition's steps go on from a
// late draft too, and each step here says only what one of those does.
#[derive(Clone, Copy)]
pub(crate) struct Draft {
    pub planner: PlannerState,
    pub list: [Entry; 32],
    pub count: usize,
    pub late: bool,
}

// A planner between two requests.
#[derive(Clone, Copy)]
pub struct Planner {
    pub state: PlannerState,
}

// What a plan call hands back: the planner that goes on, and its answer.
#[derive(Clone, Copy)]
pub struct Planned {
    pub planner: Planner,
    pub outcome: Result<u64, Refusal>,
}

impl Planner {
    // "Fresh: banks closed, buffer empty, refresh bank 0, now 4."
    pub fn fresh() -> Planner
        ensures { result.state ≡ fresh_planner }
    {
        let state = PlannerState {
            channel: chan_step::fresh(),
            now: PacketAt(4),
            refresh: 0,
            mask: 0,
            second: 0,
        };
        Planner { state }
    }

    // One request of any bytes, with any room.
    pub fn plan(self, s: Settings, request: &[u8], room: &mut [u8]) -> Planned
        ensures outcome_value { result.outcome ≡ (planning s self.state request.now room.old).outcome }
        ensures state_value { result.planner.state ≡ (planning s self.state request.now room.old).planner }
        ensures room_after { room.new ≡ (planning s self.state request.now room.old).room }
    {
        let p = self.state;
        if answers::allowed(s, p) {
            return answers::answered(s, record_bytes::requests::read_request(s, request), p, room);
        }
        answers::refused(p, Refusal::Settings)
    }
}
