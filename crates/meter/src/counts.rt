// The count and the share of a meter.
ghost use Rattle.std.specs.Prelude.{◌≡◌, true, false, ◌≤◌};
ghost use Rattle.std.specs.Float.Ieee.Exact.{HasValue};
ghost use Rattle.meter.specs.Meter.{meter_of, meter_valid, busy_count};
ghost use Rattle.meter.specs.Share.{share};
ghost use Rattle.meter.specs.Calls.{count_answered, share_answered};

use crate::feeds::right;
use crate::{CountAnswer, Meter, ShareAnswer};

// How many of the 1,024 cycles were busy: four for each mark, less those that the window cuts off the oldest three places.
fn busy_count(marks: &[u64; 16], newest: u64) -> u32
    requires newest_value { meter_valid (meter_of marks.now newest) ≡ true }
    ensures { (result ≡ busy_count (meter_of marks.now newest)) × (result ≤ 1024) }
{
    let n = num::bits::count(marks);
    let oldest = marks[15];
    let cut = num::bits::one(oldest, 61)
        + 2 * num::bits::one(oldest, 62)
        + 3 * num::bits::one(oldest, 63);
    4 * n - cut
}

// The count, or 1.
pub fn count(m: Meter) -> CountAnswer
    ensures { result ≡ count_answered m }
{
    let newest = m.newest;
    // a copy: lent from the struct itself, the marks would cost a call of memcpy
    let marks = m.marks;
    if right(&marks, newest) {
        let count = busy_count(&marks, newest);
        CountAnswer { number: 0, count }
    } else {
        CountAnswer {
            number: 1,
            count: 0,
        }
    }
}

// A count over 1,024, exactly.
fn share_of(count: u32) -> f32
    requires { count ≤ 1024 }
    ensures { (result ≡ share count) × HasValue result false count 1024 }
{
    (count as f32) / 1024.0
}

// The share, or 1 and no share.
pub fn share(m: Meter) -> ShareAnswer
    ensures { result ≡ share_answered m }
{
    let counted = count(m);
    ShareAnswer {
        number: counted.number,
        share: share_of(counted.count),
    }
}
