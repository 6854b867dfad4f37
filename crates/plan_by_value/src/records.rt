// The records of a draft to a lent buffer.
ghost use Rattle.std.specs.Prelude.{◌≡◌, ◌*◌, ◌≤◌, ◌<◌, length};
ghost use Rattle.num.specs.Bytes.{splice};
ghost use Rattle.spec_plan.specs.Call.{list_bytes};
ghost use Rattle.plan_by_value.specs.Form.Drawn.{records_of};

use crate::Entry;
use settings::Settings;

// Puts the first n records of a list from the start of a buffer on.
pub(crate) fn put_list(s: Settings, room: &mut [u8], list: [Entry; 32], n: usize)
    requires { (n ≤ 32) × (32 * n ≤ length room.old) × (s.device < 32) }
    ensures { room.new ≡ splice room.old 0 (list_bytes s (records_of list n)) }
{
    for i in 0..n {
        let e = list[i];
        let r = e.made;
        record_bytes::put_record(s, room, 32 * i, r);
    }
}
