// One bank after a packet at an instant.
ghost use Rattle.std.specs.Prelude.{◌≡◌};
ghost use Rattle.chan_step.specs.Form.Banks.{act_track, refa_track, prer_track, side_track, read_track, retired_track};

use chan_view::banks::is_closed;
use settings::PacketAt;
use spec_rules::{Bank, BankTrack};

// The bank that an ACT opens on a row.
pub fn act_track(row: u32, at: PacketAt, k: BankTrack) -> BankTrack
    ensures { result ≡ act_track row at k }
{
    BankTrack {
        bank: Bank::Open(row),
        opened: at,
        act: at,
        ..k
    }
}

// The bank that a REFA refreshes.
pub fn refresh_track(begun: PacketAt, k: BankTrack) -> BankTrack
    ensures { result ≡ refa_track begun k }
{
    BankTrack {
        bank: Bank::Refresh,
        opened: begun,
        ..k
    }
}

// The bank that a PRER or REFP names.
pub fn closed_track(at: PacketAt, k: BankTrack) -> BankTrack
    ensures { result ≡ prer_track at k }
{
    BankTrack {
        bank: Bank::Closed,
        pre: at,
        ..k
    }
}

// A neighbour of that bank: one that was not closed is closed by it.
pub fn side_track(at: PacketAt, k: BankTrack) -> BankTrack
    ensures { result ≡ side_track at k }
{
    BankTrack {
        bank: Bank::Closed,
        pre: if is_closed(k) { k.pre } else { at },
        ..k
    }
}

// The bank of an RD.
pub(crate) fn read_track(at: PacketAt, k: BankTrack) -> BankTrack
    ensures { result ≡ read_track at k }
{
    BankTrack { rd: at, ..k }
}

// The bank of the write that a COL packet retires.
pub(crate) fn retired_track(at: PacketAt, k: BankTrack) -> BankTrack
    ensures { result ≡ retired_track at k }
{
    BankTrack { retire: at, ..k }
}
