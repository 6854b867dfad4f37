// Drafts: made, with one record more, and after the end of a refresh or a wait.
ghost use Rattle.std.specs.Prelude.{◌≡◌, true, cond, [], ◌+◌, leb, ltb, set};
ghost use Rattle.settings.specs.declared.Settings.{Settings as SettingsOf};
ghost use Rattle.settings.specs.Instants.{horizon};
ghost use Rattle.spec_rules.specs.Neighbour.{context_of};
ghost use Rattle.spec_plan.specs.declared.PlannerState.{PlannerState as PlannerOf};
ghost use Rattle.spec_plan.specs.Plan.{Draft as DraftOf, turned, planned_wait};
ghost use Rattle.plan_by_value.specs.Form.Drawn.{Draws, added_to, moved_to};

use crate::packets::{clipped, is_late};
use crate::{Draft, Entry};
use packet::RowPacket;
use record::Record;
use settings::PacketAt;
use spec_plan::PlannerState;

// A list with a record at place n, where there is such a place.
fn put_in(list: [Entry; 32], n: usize, q: Record) -> [Entry; 32]
    ensures { result ≡ cond (ltb n 32) (set list n (record { made = q })) list }
{
    if n < 32 {
        let mut next = list;
        next[n] = Entry { made: q };
        return next;
    }
    list
}

fn more(n: usize) -> usize
    ensures { result ≡ cond (ltb n 32) (n + 1) n }
{
    if n < 32 {
        return n + 1;
    }
    n
}

// A draft with one record more.
pub(crate) fn added(d: Draft, planner: PlannerState, q: Record, late: bool) -> Draft
    ensures { result ≡ added_to d planner q late }
{
    let list = d.list;
    Draft {
        planner: planner,
        list: put_in(list, d.count, q),
        count: more(d.count),
        late: d.late | late,
    }
}

// A draft with another planner and the same records.
pub(crate) fn moved(d: Draft, planner: PlannerState, late: bool) -> Draft
    ensures { result ≡ moved_to d planner late }
{
    let list = d.list;
    Draft {
        planner: planner,
        list: list,
        count: d.count,
        late: d.late | late,
    }
}

// No record yet.
pub(crate) fn start(p: PlannerState) -> Draft
    ensures { (s : SettingsOf) → leb p.now.0 horizon ≡ true → Draws s p result (record { planner = p; records = [] }) }
{
    let none = Record::RowAt(PacketAt(0), RowPacket::Act { bank: 0, row: 0 });
    let list = [Entry { made: none }; 32];
    Draft {
        planner: p,
        list,
        count: 0,
        late: false,
    }
}

// The next bank's turn.
pub(crate) fn turned(d: Draft) -> Draft
    ensures { (s : SettingsOf) (p : PlannerOf) (e : DraftOf) → Draws s p d e → Draws s p result (turned (context_of s) e) }
{
    let p = d.planner;
    let planner = PlannerState {
        refresh: (p.refresh % 32 + 1) % 32,
        ..p
    };
    moved(d, planner, false)
}

// wait adds to now.
pub(crate) fn waited(cycles: u32, d: Draft) -> Draft
    ensures { (s : SettingsOf) (p : PlannerOf) (e : DraftOf) → Draws s p d e → Draws s p result (planned_wait (context_of s) cycles e) }
{
    let p = d.planner;
    let slot = u64::from(p.now.0);
    let planner = PlannerState {
        now: clipped(slot + u64::from(cycles)),
        ..p
    };
    moved(d, planner, is_late(slot, cycles))
}
