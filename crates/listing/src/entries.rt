// The text of each request of an input. They are planned many in one call, up to the next that is refused.
ghost use Rattle.std.specs.Prelude.{◌≡◌, ◌%◌, ◌/◌, ◌≤◌, length};
ghost use Rattle.spec_plan.specs.Planner.{fresh_planner};
ghost use Rattle.spec_plan.specs.PlannerBytes.{planner_bytes};
ghost use Rattle.listing_text.specs.Text.{Put};
ghost use Rattle.listing.specs.Entries.{records_listed, text_up_to, longest_input, requests_room};

use calls_plan::all::plan_all_under;
use listing_text::lines::{Latest, put_lines, set_h};
use listing_text::put_refused;
use spec_plan::PLANNER_BYTES;
use state_bytes::fresh::put_fresh_planner;

// Room for the records of the longest input: 2,730 requests of at most 16.
const RECORDS: usize = 1_397_760;

// The number of records of a whole input, and the end of its requests' text.
#[derive(Clone, Copy)]
pub struct Total {
    pub records: u64,
    pub end: usize,
}

// Puts the text of each request, from a fresh planner on: the lines of the records that a call makes, and the refusal at which
// it stops. The next call starts after that request. Any room will do, as each call starts at its beginning.
fn put_each(input: &[u8], planner: &mut [u8], room: &mut [u8; RECORDS], out: &mut [u8]) -> Total
    requires input_len_bound { (length input.now ≤ longest_input) × (length input.now % 24 ≡ 0) × (requests_room ≤ length out.old) }
    requires planner_value { planner.old ≡ planner_bytes fresh_planner }
    ensures records_value { result.records ≡ length (records_listed input.now (length input.now / 24)) }
    ensures put { Put out.old 0 (text_up_to input.now (length input.now / 24)) out.new result.end × (result.end ≤ requests_room) }
{
    let n = input.len() / 24;
    let mut latest = Latest { bank: 0, column: 0 };
    let mut records = 0;
    let mut end = 0;
    let mut i = 0;
    // A turn goes past every request that its call planned, and past the one that it refused: no `for` counts so.
    while i < n {
        let planned = plan_all_under(set_h(), planner, &input[24 * i..], room);
        let lines = put_lines(out, end, room, planned.records as usize, latest);
        records += planned.records;
        i += planned.place as usize;
        end = lines.end;
        let next = lines.latest;
        latest = next;
        if planned.number != 0 {
            end = put_refused(out, end, planned.number);
            i += 1;
        }
    }
    Total { records, end }
}

// Puts the text of each request of an input.
pub fn put_requests(input: &[u8], out: &mut [u8]) -> Total
    requires { (length input.now ≤ longest_input) × (length input.now % 24 ≡ 0) × (requests_room ≤ length out.old) }
    ensures records_value { result.records ≡ length (records_listed input.now (length input.now / 24)) }
    ensures put { Put out.old 0 (text_up_to input.now (length input.now / 24)) out.new result.end × (result.end ≤ requests_room) }
{
    let mut planner = [0u8; PLANNER_BYTES];
    put_fresh_planner(&mut planner);
    let mut room = [0u8; RECORDS];
    put_each(input, &mut planner, &mut room, out)
}
