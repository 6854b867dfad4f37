// The packets that the steps send: their data's delay, and their place.
ghost use Rattle.std.specs.Prelude.{◌≡◌, not, cond, ◌+◌, max, leb};
ghost use Rattle.settings.specs.Instants.{horizon};
ghost use Rattle.spec_rules.specs.Neighbour.{context_of};
ghost use Rattle.spec_rules.specs.Rules.{longest_delay, col_delay};
ghost use Rattle.spec_rules.specs.Earliest.{placed_at, col_under, under};
ghost use Rattle.plan_by_value.specs.Form.Drawn.{packet_of, placed_by, clip};

use crate::Command;
use crate::asks::carried;
use packet::ColPacket;
use record::Record;
use settings::{HORIZON, HORIZON_WIDE, PacketAt, Settings};
use spec_plan::PlannerState;

// A packet at an instant.
pub(crate) fn record_at(at: PacketAt, c: Command) -> Record
    ensures { result ≡ placed_at at.0 (packet_of c) }
{
    match c {
        Command::Row(p) => Record::RowAt(at, p),
        Command::Col(p) => Record::ColAt(at, p),
    }
}

fn col_under(mask: u32, p: ColPacket) -> ColPacket
    ensures { result ≡ col_under mask p }
{
    match p {
        ColPacket::Nocop { mask: _ } => ColPacket::Nocop { mask },
        ColPacket::Wr {
            bank,
            column,
            mask: _,
            close,
        } => ColPacket::Wr {
            bank,
            column,
            mask,
            close,
        },
        ColPacket::Rd {
            bank,
            column,
            mask: _,
            close,
        } => ColPacket::Rd {
            bank,
            column,
            mask,
            close,
        },
    }
}

// A packet under a mask, where it can have one.
fn under_mask(mask: u32, c: Command) -> Command
    ensures { packet_of result ≡ under mask (packet_of c) }
{
    match c {
        Command::Row(p) => Command::Row(p),
        Command::Col(p) => Command::Col(col_under(mask, p)),
    }
}

// A packet in its place, under the mask of the write that it retires there.
pub(crate) fn placed_in(s: Settings, p: PlannerState, at: PacketAt, c: Command) -> Record
    ensures { result ≡ placed_by s p at.0 (packet_of c) }
{
    let mask = carried(s, p, record_at(at, c));
    record_at(at, under_mask(mask, c))
}

// The data of an RD, and the PRER that an RDA implies.
fn read_delay(s: Settings, close: bool) -> u32
    ensures { result ≡ cond close (max s.cac s.offp) s.cac }
{
    if close { s.cac.max(s.offp) } else { s.cac }
}

fn col_delay(s: Settings, p: ColPacket) -> u32
    ensures { result ≡ col_delay (context_of s) p }
{
    match p {
        ColPacket::Nocop { mask: _ } => 0,
        ColPacket::Wr { .. } => s.cwd,
        ColPacket::Rd { close, .. } => read_delay(s, close),
    }
}

// How long after a packet the last of what it sets itself comes.
pub(crate) fn data_delay(s: Settings, c: Command) -> u32
    ensures { result ≡ longest_delay (context_of s) (packet_of c) }
{
    match c {
        Command::Row(_) => 0,
        Command::Col(p) => col_delay(s, p),
    }
}

// Whether an instant that comes a delay after a slot would pass the last one.
pub(crate) fn is_late(slot: u64, delay: u32) -> bool
    ensures { result ≡ not (leb (slot + delay) horizon) }
{
    if HORIZON_WIDE < slot {
        return true;
    }
    HORIZON_WIDE < slot + u64::from(delay)
}

// A slot, or the last instant where it would pass that.
pub(crate) fn clipped(slot: u64) -> PacketAt
    ensures { result ≡ record { 0 = clip slot } }
{
    if HORIZON_WIDE < slot {
        return PacketAt(HORIZON);
    }
    PacketAt(slot as u32)
}
