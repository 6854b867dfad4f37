// The sums that turn a packet instant into a data instant.
ghost use Rattle.std.specs.Prelude.{◌≡◌, ◌+◌, ◌<◌, ◌^◌};
ghost use Rattle.settings.specs.Instants.{arrival, arrival_number, horizon_number};

use crate::{DataAt, HORIZON_WIDE, PacketAt, Settings};

// The data instant `delay` cycles after a packet; the sum is made in 64 bits.
fn arrival_after(t: PacketAt, delay: u32) -> Option<DataAt>
    ensures value { result ≡ arrival t delay }
    ensures result_value { arrival_number result ≡ horizon_number t delay }
{
    let sum = u64::from(t.0) + u64::from(delay);
    if sum <= HORIZON_WIDE {
        Some(DataAt(sum as u32))
    } else {
        None
    }
}

// Read data come tCAC after their RD. One function for reads and one for writes, so that a caller names the packet and not the figure.
pub fn read_arrival(s: Settings, t: PacketAt) -> Option<DataAt>
    ensures value { result ≡ arrival t s.cac }
    ensures result_value { arrival_number result ≡ horizon_number t s.cac }
{
    arrival_after(t, s.cac)
}

// Write data go tCWD after their WR.
pub fn write_arrival(s: Settings, t: PacketAt) -> Option<DataAt>
    ensures value { result ≡ arrival t s.cwd }
    ensures result_value { arrival_number result ≡ horizon_number t s.cwd }
{
    arrival_after(t, s.cwd)
}

// The same as a number, late or not: for a list whose instants are tested as a whole.
pub fn written_at(s: Settings, t: PacketAt) -> DataAt
    requires { t.0 + s.cwd < 2 ^ 32 }
    ensures { result ≡ record { 0 = t.0 + s.cwd } }
{
    DataAt(t.0 + s.cwd)
}
