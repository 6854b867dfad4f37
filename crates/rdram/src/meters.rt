// The meter of the data pins. The caller holds it as a struct.
ghost use Rattle.std.specs.Prelude.{◌≡◌};
ghost use Rattle.meter.specs.Meter.{fresh_meter};
ghost use Rattle.meter.specs.Calls.{fed_answered, count_answered, share_answered};

use meter::{CountAnswer, Meter, ShareAnswer};

// A fresh meter.
#[unsafe(no_mangle)]
pub extern "C" fn rdram_meter_fresh() -> Meter
    ensures { result ≡ fresh_meter }
{
    meter::feeds::fresh()
}

// Feeds one data instant to the meter that is lent: it becomes the next one in the caller's copy.
#[unsafe(no_mangle)]
pub extern "C" fn rdram_meter_feed(held: &mut Meter, at: u32) -> u32
    ensures { (result ≡ (fed_answered held.old at).number) × (held.new ≡ (fed_answered held.old at).meter) }
{
    let next = meter::feeds::step_at(*held, at);
    *held = next.meter;
    next.number
}

// How many of the last 1,024 cycles carried data.
#[unsafe(no_mangle)]
pub extern "C" fn rdram_meter_count(held: Meter) -> CountAnswer
    ensures { result ≡ count_answered held }
{
    meter::counts::count(held)
}

// That count over 1,024.
#[unsafe(no_mangle)]
pub extern "C" fn rdram_meter_share(held: Meter) -> ShareAnswer
    ensures { result ≡ share_answered held }
{
    meter::counts::share(held)
}
