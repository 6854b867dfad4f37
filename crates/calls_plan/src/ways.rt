// The two ways of a plan call from a state that is not refused: on the lent bytes, and beside them.
ghost use Rattle.std.specs.Prelude.{◌≡◌, true, false, ◌*◌, ◌≤◌, length};
ghost use Rattle.num.specs.Bytes.{part, splice};
ghost use Rattle.settings.specs.Settings.{valid};
ghost use Rattle.record.proofs.RequestLaws.{InPlace, InRange};
ghost use Rattle.record.specs.declared.Request.TheVariants.{Read};
ghost use Rattle.spec_rules.specs.Neighbour.{context_of};
ghost use Rattle.spec_plan.specs.PlannerBytes.{planner_right};
ghost use Rattle.plan_bytes.specs.Form.Numbers.{Below};
ghost use Rattle.spec_calls.specs.Plans.{plan_answer, plan_under};
ghost use Rattle.calls_plan.specs.Form.Served.{Granted, served};

use num::put::put_bytes;
use plan_in_place::requests::{in_time, left_in_time, plan, plan_read, unretired};
use record::{Place, Refusal, Request};
use record_bytes::requests::{place_of, plain_read};
use settings::Settings;
use spec_calls::PlanAnswer;
use spec_plan::{MOST_BYTES, PlannerBytes};

// The answer in numbers, with how many banks a close looked at.
pub(crate) fn answer(o: Result<u64, Refusal>, banks: u32) -> PlanAnswer
    ensures { result ≡ plan_answer banks o }
{
    match o {
        Err(why) => {
            let a = why.answer();
            PlanAnswer {
                number: a.number,
                banks: 0,
                records: 0,
            }
        }
        Ok(n) => PlanAnswer {
            number: 0,
            banks: banks,
            records: n,
        },
    }
}

// A request in range on the lent bytes of a state of which no instant is high. With room for the most records there is no refusal 8.
fn on_lent(s: Settings, planner: &mut PlannerBytes, q: Request, room: &mut [u8]) -> PlanAnswer
    requires s_value { valid s ≡ true }
    requires planner_value { planner_right (context_of s) planner.old ≡ true }
    requires below { Below 999990000 planner.old }
    requires granted { Granted s planner.old q }
    requires in_bounds { 1024 ≤ length room.old }
    ensures value { result ≡ (served (context_of s) planner.old (Ok q) room.old).answer }
    ensures planner_after { planner.new ≡ (served (context_of s) planner.old (Ok q) room.old).planner }
    ensures room_after { room.new ≡ (served (context_of s) planner.old (Ok q) room.old).room }
{
    if in_time(s, planner, q) {
        let made = plan(s, planner, q, room);
        return answer(Ok(made.records as u64), made.banks);
    }
    answer(Err(Refusal::Horizon), 0)
}

// The same of a read that leaves its bank open. Apart for speed, as `plan_read` is.
fn read_on_lent(s: Settings, planner: &mut PlannerBytes, at: Place, room: &mut [u8]) -> PlanAnswer
    requires s_value { valid s ≡ true }
    requires planner_value { planner_right (context_of s) planner.old ≡ true }
    requires below { Below 999990000 planner.old }
    requires in_place { InPlace s at }
    requires in_bounds { 1024 ≤ length room.old }
    ensures value { result ≡ (served (context_of s) planner.old (Ok (Read at false)) room.old).answer }
    ensures planner_after { planner.new ≡ (served (context_of s) planner.old (Ok (Read at false)) room.old).planner }
    ensures room_after { room.new ≡ (served (context_of s) planner.old (Ok (Read at false)) room.old).room }
{
    let made = plan_read(s, planner, at, room);
    answer(Ok(made.records as u64), made.banks)
}

// Copies the first n records of a list to the start of a room.
fn put_first(room: &mut [u8], list: &[u8], n: usize)
    requires n_in_bounds { 32 * n ≤ length list.now }
    requires room_in_bounds { 32 * n ≤ length room.old }
    ensures { room.new ≡ splice room.old 0 (part list.now 0 (32 * n)) }
{
    let end = 32 * n;
    put_bytes(room, 0, &list[0..end]);
}

// A request in range, planned in a state and a list of its own: they are copied to the lent ones once 7 and 8 have nothing against
// them.
fn tried(s: Settings, planner: &mut PlannerBytes, q: Request, room: &mut [u8]) -> PlanAnswer
    requires s_value { valid s ≡ true }
    requires planner_value { planner_right (context_of s) planner.old ≡ true }
    requires granted { Granted s planner.old q }
    ensures value { result ≡ (served (context_of s) planner.old (Ok q) room.old).answer }
    ensures planner_after { planner.new ≡ (served (context_of s) planner.old (Ok q) room.old).planner }
    ensures room_after { room.new ≡ (served (context_of s) planner.old (Ok q) room.old).room }
{
    let mut state = *planner;
    let mut list = [0u8; MOST_BYTES];
    let made = plan(s, &mut state, q, &mut list);
    let n = made.records;
    if !left_in_time(s, planner, q, &state, made.due) {
        return answer(Err(Refusal::Horizon), 0);
    }
    if room.len() / 32 < n {
        return answer(Err(Refusal::Full), 0);
    }
    *planner = state;
    put_first(room, &list, n);
    answer(Ok(n as u64), made.banks)
}

// A request in range, no close while a write waits: on the lent bytes where no packet can be late and the room has the most records.
fn served(
    s: Settings,
    planner: &mut PlannerBytes,
    quick: bool,
    q: Request,
    room: &mut [u8],
) -> PlanAnswer
    requires s_value { valid s ≡ true }
    requires planner_value { planner_right (context_of s) planner.old ≡ true }
    requires below { quick ≡ true → Below 999990000 planner.old }
    requires granted { Granted s planner.old q }
    ensures value { result ≡ (served (context_of s) planner.old (Ok q) room.old).answer }
    ensures planner_after { planner.new ≡ (served (context_of s) planner.old (Ok q) room.old).planner }
    ensures room_after { room.new ≡ (served (context_of s) planner.old (Ok q) room.old).room }
{
    if quick & (MOST_BYTES <= room.len()) {
        return on_lent(s, planner, q, room);
    }
    tried(s, planner, q, room)
}

// A request in range: 15 first.
fn granted(
    s: Settings,
    planner: &mut PlannerBytes,
    quick: bool,
    q: Request,
    room: &mut [u8],
) -> PlanAnswer
    requires s_value { valid s ≡ true }
    requires planner_value { planner_right (context_of s) planner.old ≡ true }
    requires below { quick ≡ true → Below 999990000 planner.old }
    requires in_range { InRange s q }
    ensures value { result ≡ (served (context_of s) planner.old (Ok q) room.old).answer }
    ensures planner_after { planner.new ≡ (served (context_of s) planner.old (Ok q) room.old).planner }
    ensures room_after { room.new ≡ (served (context_of s) planner.old (Ok q) room.old).room }
{
    if unretired(planner, q) {
        return answer(Err(Refusal::Unretired), 0);
    }
    served(s, planner, quick, q, room)
}

// From a state that is not refused: what the request says. The quick way is for a state of which no instant is high.
pub(crate) fn asked(
    s: Settings,
    planner: &mut PlannerBytes,
    quick: bool,
    request: &[u8],
    room: &mut [u8],
) -> PlanAnswer
    requires s_value { valid s ≡ true }
    requires planner_value { planner_right (context_of s) planner.old ≡ true }
    requires below { quick ≡ true → Below 999990000 planner.old }
    ensures value { result ≡ (plan_under planner.old request.now room.old s).answer }
    ensures planner_after { planner.new ≡ (plan_under planner.old request.now room.old s).planner }
    ensures room_after { room.new ≡ (plan_under planner.old request.now room.old s).room }
{
    if quick & (MOST_BYTES <= room.len()) & plain_read(s, request) {
        return read_on_lent(s, planner, place_of(request), room);
    }
    match record_bytes::requests::read_request(s, request) {
        Err(why) => answer(Err(why), 0),
        Ok(q) => granted(s, planner, quick, q, room),
    }
}
