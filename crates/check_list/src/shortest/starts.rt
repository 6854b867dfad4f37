// The search for the start of the shortest run, down from the record that breaks the rule.
ghost use Rattle.std.specs.Prelude.{◌≡◌, not, ◌||◌, ◌<◌, ◌≤◌};
ghost use Rattle.record.specs.Record.{records_in, first_bad};
ghost use Rattle.spec_rules.specs.Neighbour.{context_of};
ghost use Rattle.spec_rules.specs.Packets.{row_traits, traits};
ghost use Rattle.spec_rules.specs.History.{has};
ghost use Rattle.spec_rules.specs.Broken.{record_in};
ghost use Rattle.spec_check.specs.Check.{records_of};
ghost use Rattle.spec_check.specs.Shortest.{shortest_start};
ghost use Rattle.check_list.specs.Form.Tried.{tried_at};

use crate::shortest::Tried;
use check_walk::walk;
use packet::RowPacket;
use record::Record;
use record_bytes::read_record;
use settings::Settings;

fn row_opens(p: RowPacket) -> bool
    ensures { result ≡ has (row_traits p).opens }
{
    match p {
        RowPacket::Act { .. } => true,
        RowPacket::Prer { .. } => false,
        RowPacket::Refa { .. } => true,
        RowPacket::Refp { .. } => false,
    }
}

// Whether a record is an ACT or REFA.
fn opens(r: Record) -> bool
    ensures { result ≡ has (traits r).opens }
{
    match r {
        Record::RowAt(_, p) => row_opens(p),
        Record::ColAt(_, _) => false,
        Record::DataOf(_, _) => false,
    }
}

// Whether record i of a list is one.
fn opens_at(s: Settings, list: &[u8], i: usize) -> bool
    requires { i < records_in list.now }
    ensures { result ≡ has (traits (record_in (records_of s list.now) i)).opens }
{
    let read = read_record(s, list, 32 * i);
    match read {
        None => false,
        Some(r) => opens(r),
    }
}

// Whether a start has to be tried. Where the run after it is refused before its last record, so is the run from it, but for an ACT
// or REFA.
fn to_try(s: Settings, list: &[u8], i: usize, early: bool) -> bool
    requires { i < records_in list.now }
    ensures { result ≡ (not early || has (traits (record_in (records_of s list.now) i)).opens) }
{
    if early {
        return opens_at(s, list, i);
    }
    true
}

// Judges the run from record i to record j of a list.
fn try_from(s: Settings, list: &[u8], rule: u32, i: usize, j: usize) -> Tried
    requires i_le_j { (i ≤ j) × (j < records_in list.now) }
    requires list_value { first_bad s list.now ≡ records_in list.now }
    ensures { result ≡ tried_at (context_of s) (records_of s list.now) rule j i }
{
    let at = 32 * i;
    let end = 32 * j + 32;
    let last = j - i;
    let stop = walk(s, &list[at..end], last + 1, 0);
    let stopped = stop.at;
    Tried {
        found: (stopped == last) & (stop.rule == rule),
        early: stopped < last,
    }
}

// Where the shortest run starts that breaks a rule at record j. The first record needs no trial: the whole list breaks the rule
// there.
pub(crate) fn latest_start(s: Settings, list: &[u8], rule: u32, j: usize) -> usize
    requires j_bound { j < records_in list.now }
    requires list_value { first_bad s list.now ≡ records_in list.now }
    ensures { result ≡ shortest_start (context_of s) (records_of s list.now) rule j }
{
    let mut early = false;
    for i in (1..=j).rev() {
        if to_try(s, list, i, early) {
            let t = try_from(s, list, rule, i, j);
            if t.found {
                return i;
            }
            early = t.early;
        }
    }
    0
}
