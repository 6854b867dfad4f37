// A fresh meter, the test of a meter, and one feed by value.
ghost use Rattle.std.specs.Prelude.{◌≡◌, ◌-◌, Err};
ghost use Rattle.num.specs.Marks.{below};
ghost use Rattle.meter.specs.Answer.{feed_number};
ghost use Rattle.meter.specs.Meter.{meter_of, fresh_meter, meter_valid, feed_answer, fed_by};
ghost use Rattle.meter.specs.Calls.{fed_answered};

use crate::{FedNumber, FeedRefusal, Meter};
use settings::{DataAt, HORIZON_WIDE};

// Before any feed.
pub fn fresh() -> Meter
    ensures { result ≡ fresh_meter }
{
    Meter {
        marks: [0; 16],
        newest: 0,
    }
}

// Whether every mark is of instant 4 or later. From 1,027 on no mark can be of an earlier one.
fn from_4(marks: &[u64; 16], newest: u64) -> bool
    ensures { result ≡ below marks.now (newest - 3) }
{
    if newest < 3 {
        return num::bits::below(marks, 0);
    }
    if newest < 1027 {
        return num::bits::below(marks, newest - 3);
    }
    true
}

// Whether a run of feeds gives a meter.
pub fn right(marks: &[u64; 16], newest: u64) -> bool
    ensures { result ≡ meter_valid (meter_of marks.now newest) }
{
    let marked = (newest == 0) | num::bits::first(marks);
    let apart = num::bits::apart(marks) & from_4(marks, newest);
    (newest <= HORIZON_WIDE) & (marked & apart)
}

// 1 for the meter, 7 and 16 for the instant.
fn answer_to(marks: &[u64; 16], newest: u64, at: u64) -> Result<(), FeedRefusal>
    ensures { result ≡ feed_answer (meter_of marks.now newest) at }
{
    if !right(marks, newest) {
        return Err(FeedRefusal::Settings);
    }
    if at < 4 {
        return Err(FeedRefusal::Horizon);
    }
    if HORIZON_WIDE < at {
        return Err(FeedRefusal::Horizon);
    }
    if at < newest + 4 {
        return Err(FeedRefusal::Overlap);
    }
    Ok(())
}

// The number of a refusal in the tables of documents 01 and 02.
impl From<FeedRefusal> for u32 {
    ghost from_gives = { λ why number. number ≡ feed_number (Err why) };

    fn from(why: FeedRefusal) -> u32 {
        match why {
            FeedRefusal::Settings => 1,
            FeedRefusal::Horizon => 7,
            FeedRefusal::Overlap => 16,
        }
    }
}

// One feed: the next meter, or why there is none.
pub fn step(m: Meter, at: DataAt) -> Result<Meter, FeedRefusal>
    ensures { result ≡ fed_by m at.0 }
{
    let t = u64::from(at.0);
    let newest = m.newest;
    // a copy: lent from the struct itself, the marks would cost a call of memcpy
    let marks = m.marks;
    answer_to(&marks, newest, t)?;
    let pushed = num::bits::pushed(&marks, t - newest);
    Ok(Meter {
        marks: pushed,
        newest: t,
    })
}

// One feed in numbers, for the C call.
pub fn step_at(m: Meter, at: u32) -> FedNumber
    ensures { result ≡ fed_answered m at }
{
    match step(m, DataAt(at)) {
        Ok(meter) => FedNumber { meter, number: 0 },
        Err(why) => FedNumber {
            meter: m,
            number: u32::from(why),
        },
    }
}
