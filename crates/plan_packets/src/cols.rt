// COL packets on the bytes of a planner: each at its least instant, its record to the room.
ghost use Rattle.std.specs.Prelude.{◌≡◌, true, false, cond, ◌+◌, ◌<◌, ◌≤◌, ◌^◌, length};
ghost use Rattle.packet.specs.declared.ColPacket.TheVariants.{Nocop, Rd};
ghost use Rattle.packet.specs.Col.{col_word};
ghost use Rattle.record.proofs.RequestLaws.{InPlace};
ghost use Rattle.spec_rules.specs.Neighbour.{context_of};
ghost use Rattle.spec_plan.specs.Plan.{col_packet, sent, flushed, written};
ghost use Rattle.plan_bytes.specs.Form.Numbers.{half, waits_in, held_bank, held_closes, two_in};
ghost use Rattle.plan_bytes.specs.Form.Drawn.{drafted, Ready, Rested, OpenAt, Drawn};
ghost use Rattle.plan_packets.specs.Form.ColSlots.{col_base, rd_at, rda_at, retire_at, closing_at, wr_base, retires_in, wr_from, carried_in, rda_stored, nocop_stored, closing_stored, alone_stored, newer_stored, moved_stored, instead_stored, wr_stored};

use crate::rows::prer_asks;
use num::put::put_u16;
use num::u16_at;
use packet::col::col_word;
use packet::{ColPacket, FULL};
use plan_bytes::{after, held_bank, put_data, put_now, put_packet, stored, two, waits};
use record::{Dualoct, Place};
use settings::instants::written_at;
use settings::{DataAt, PacketAt, Settings};
use spec_plan::PlannerBytes;
use state_bytes::stores::cols::{
    store_behind, store_beside, store_col, store_rd, store_retire, store_shift, store_write,
};
use state_bytes::stores::rows::store_implied;

// What now and rules 1 and 3 ask of a COL packet.
fn col_base(s: Settings, b: &PlannerBytes) -> u64
    ensures { result ≡ col_base s b.now }
{
    stored(b, 752).max(stored(b, 704)).max(after(b, 712, s.cc))
}

fn rd_at(s: Settings, b: &PlannerBytes, x: usize) -> u64
    requires x_bound { x < 32 }
    ensures { result ≡ rd_at s b.now x }
{
    col_base(s, b).max(after(b, 128 + 4 * x, s.rcd))
}

// RD.
pub fn rd(
    s: Settings,
    b: &mut PlannerBytes,
    bank: u32,
    column: u32,
    room: &mut [u8],
    to: usize,
) -> usize
    requires ready { Ready s 1000012000 b.old }
    requires bank_bound { bank < 32 }
    requires to_in_bounds { to + 32 ≤ length room.old }
    ensures { Drawn s (sent (context_of s) (col_packet (Rd bank column 0xFFFF false)) (drafted b.old)) room.old to b.new room.new result }
{
    let x = bank as usize;
    let t = rd_at(s, b, x);
    let word = col_word(
        s.device,
        ColPacket::Rd {
            bank,
            column,
            mask: FULL,
            close: false,
        },
    );
    put_packet(room, to, t, 1, word);
    store_rd(b, x, t);
    put_now(b, t);
    to + 32
}

// The instant of an RDA: the PRER that it implies stands tOFFP later.
fn rda_at(s: Settings, b: &PlannerBytes, x: usize) -> u64
    requires x_bound { x < 32 }
    ensures { result ≡ rda_at s b.now x }
{
    rd_at(s, b, x).max(prer_asks(s, b, x).saturating_sub(u64::from(s.offp)))
}

// An RDA at t, whose implied PRER stands at u.
fn put_rda(b: &mut PlannerBytes, x: usize, t: u64, u: u64)
    requires x_bound { x < 32 }
    ensures { b.new ≡ rda_stored b.old x t u }
{
    store_rd(b, x, t);
    store_implied(b, x, u);
    put_now(b, t);
}

// RDA, of a bank that is open. No plainer in one with `rd`: it asks that of the bank, and its instant and its stores are others.
pub fn rda(
    s: Settings,
    b: &mut PlannerBytes,
    bank: u32,
    column: u32,
    room: &mut [u8],
    to: usize,
) -> usize
    requires ready { Ready s 1000012000 b.old }
    requires bank_bound { bank < 32 }
    requires open_at { OpenAt b.old bank }
    requires to_in_bounds { to + 32 ≤ length room.old }
    ensures { Drawn s (sent (context_of s) (col_packet (Rd bank column 0xFFFF true)) (drafted b.old)) room.old to b.new room.new result }
{
    let x = bank as usize;
    let t = rda_at(s, b, x);
    let word = col_word(
        s.device,
        ColPacket::Rd {
            bank,
            column,
            mask: FULL,
            close: true,
        },
    );
    put_packet(room, to, t, 1, word);
    put_rda(b, x, t, t + u64::from(s.offp));
    to + 32
}

// What rules 12 and 10 ask of the retire of the older write.
fn retire_at(s: Settings, b: &PlannerBytes) -> u64
    requires b_bound { held_bank b.now < 32 }
    ensures { result ≡ retire_at s b.now }
{
    let h = held_bank(b) as usize;
    after(b, 740, s.rtr).max(after(b, 128 + 4 * h, s.rcd))
}

// How many writes wait once the older one has left.
fn left_count(b: &PlannerBytes) -> u64
    ensures { result ≡ cond (two_in b.now) 1 0 }
{
    if two(b) { 1 } else { 0 }
}

// The mask of the newer write.
fn newer_mask(b: &PlannerBytes) -> u64
    ensures { result ≡ half b.now 762 }
{
    u64::from(u16_at(b, 762))
}

// The word of a NOCOP, under the mask of the older write.
fn nocop_word(s: Settings, b: &PlannerBytes) -> u64
    requires device_bound { s.device < 32 }
    ensures { result ≡ col_word s.device (Nocop (half b.now 760)) }
{
    col_word(
        s.device,
        ColPacket::Nocop {
            mask: u16_at(b, 760),
        },
    )
}

// The older write leaves at t, and the newer one, if there is one, moves up with its mask.
fn put_nocop(b: &mut PlannerBytes, t: u64)
    requires b_bound { held_bank b.old < 32 }
    ensures { b.new ≡ nocop_stored b.old t }
{
    let h = held_bank(b) as usize;
    let left = left_count(b);
    let second = newer_mask(b);
    store_retire(b, h, t);
    store_shift(b, left);
    store_col(b, t);
    put_now(b, t);
    put_u16(b, 760, second);
}

// NOCOP, where a write waits of which the older does not close its bank.
pub fn nocop(s: Settings, b: &mut PlannerBytes, room: &mut [u8], to: usize) -> usize
    requires ready { Ready s 1000012000 b.old }
    requires b_value { waits_in b.old ≡ true }
    requires closes { held_closes b.old ≡ false }
    requires to_in_bounds { to + 32 ≤ length room.old }
    ensures { Drawn s (flushed (context_of s) (drafted b.old)) room.old to b.new room.new result }
{
    let t = col_base(s, b).max(retire_at(s, b));
    put_packet(room, to, t, 1, nocop_word(s, b));
    put_nocop(b, t);
    to + 32
}

// The instant of a NOCOP that retires a WRA: the PRER that the retire implies stands tOFFP later.
fn closing_at(s: Settings, b: &PlannerBytes) -> u64
    requires b_bound { held_bank b.now < 32 }
    ensures { result ≡ closing_at s b.now }
{
    let h = held_bank(b) as usize;
    let t = col_base(s, b).max(retire_at(s, b));
    t.max(prer_asks(s, b, h).saturating_sub(u64::from(s.offp)))
}

// The older write leaves at t, its bank is closed at u, and the newer one, if there is one, moves up with its mask. No plainer after
// `put_nocop`: the close stands between its stores.
fn put_closing(b: &mut PlannerBytes, t: u64, u: u64)
    requires b_bound { held_bank b.old < 32 }
    ensures { b.new ≡ closing_stored b.old t u }
{
    let h = held_bank(b) as usize;
    let left = left_count(b);
    let second = newer_mask(b);
    store_retire(b, h, t);
    store_shift(b, left);
    store_implied(b, h, u);
    store_col(b, t);
    put_now(b, t);
    put_u16(b, 760, second);
}

// NOCOP, where the older write closes its bank. No plainer in one with `nocop`: its instant and its stores are others.
pub fn nocop_closing(s: Settings, b: &mut PlannerBytes, room: &mut [u8], to: usize) -> usize
    requires ready { Ready s 1000012000 b.old }
    requires b_value { waits_in b.old ≡ true }
    requires closes { held_closes b.old ≡ true }
    requires to_in_bounds { to + 32 ≤ length room.old }
    ensures { Drawn s (flushed (context_of s) (drafted b.old)) room.old to b.new room.new result }
{
    let t = closing_at(s, b);
    put_packet(room, to, t, 1, nocop_word(s, b));
    put_closing(b, t, t + u64::from(s.offp));
    to + 32
}

// A WR but for what it retires.
fn wr_base(s: Settings, b: &PlannerBytes, x: usize) -> u64
    requires x_bound { x < 32 }
    requires cwd_le_cac { s.cwd ≤ s.cac }
    requires cac_bound { s.cc + s.cac < 2 ^ 32 }
    ensures { result ≡ wr_base s b.now x }
{
    let opened = after(b, 128 + 4 * x, s.rcd.saturating_sub(s.rtr));
    let free = opened.max(after(b, 720, s.cc + s.cac - s.cwd));
    col_base(s, b).max(free)
}

// Whether a WR that could stand at v retires the older write: it never waits for tRTR unless two wait.
fn retires(s: Settings, b: &PlannerBytes, v: u64) -> bool
    ensures { result ≡ retires_in s b.now v }
{
    let passed = after(b, 740, s.rtr) <= v;
    waits(b) & (two(b) | passed)
}

fn wr_from(s: Settings, b: &PlannerBytes, v: u64, leaves: bool) -> u64
    requires b_bound { leaves ≡ true → held_bank b.now < 32 }
    ensures { result ≡ wr_from s b.now v leaves }
{
    if leaves { v.max(retire_at(s, b)) } else { v }
}

// The mask that a WR carries: that of the write that it retires.
fn carried(b: &PlannerBytes, leaves: bool) -> u32
    ensures { (result ≡ carried_in b.now leaves) × (result < 2 ^ 16) }
{
    if leaves { u16_at(b, 760) } else { FULL }
}

// WR and its D: the write waits alone with its own mask. No plainer in one with the next two: the store, the count and the places of
// the masks are others, and two calls are left.
fn put_alone(b: &mut PlannerBytes, at: Place, close: bool, mask: u32, t: u64)
    requires bank_bound { at.bank < 256 }
    requires column_bound { at.column < 256 }
    requires t_bound { t < 2 ^ 32 }
    ensures { b.new ≡ alone_stored b.old at.bank at.column close mask t }
{
    store_write(b, 1, at.bank, at.column, close, t);
    store_col(b, t);
    put_now(b, t);
    put_u16(b, 760, u64::from(mask));
}

// Beside an older one.
fn put_newer(b: &mut PlannerBytes, at: Place, close: bool, mask: u32, t: u64)
    requires bank_bound { at.bank < 256 }
    requires column_bound { at.column < 256 }
    requires t_bound { t < 2 ^ 32 }
    ensures { b.new ≡ newer_stored b.old at.bank at.column close mask t }
{
    store_beside(b, 2, at.bank, at.column, close, t);
    store_col(b, t);
    put_now(b, t);
    put_u16(b, 762, u64::from(mask));
}

// Behind the one that moves up with its mask.
fn put_moved(b: &mut PlannerBytes, at: Place, close: bool, second: u32, mask: u32, t: u64)
    requires bank_bound { at.bank < 256 }
    requires column_bound { at.column < 256 }
    requires t_bound { t < 2 ^ 32 }
    ensures { b.new ≡ moved_stored b.old at.bank at.column close second mask t }
{
    store_behind(b, 2, at.bank, at.column, close, t);
    store_col(b, t);
    put_now(b, t);
    put_u16(b, 760, u64::from(second));
    put_u16(b, 762, u64::from(mask));
}

// Where the older one leaves.
fn put_instead(b: &mut PlannerBytes, at: Place, close: bool, mask: u32, t: u64)
    requires b_bound { held_bank b.old < 32 }
    requires bank_bound { at.bank < 256 }
    requires column_bound { at.column < 256 }
    requires t_bound { t < 2 ^ 32 }
    ensures { b.new ≡ instead_stored b.old at.bank at.column close mask t }
{
    let moved = two(b);
    let second = u16_at(b, 762);
    let h = held_bank(b) as usize;
    store_retire(b, h, t);
    if moved {
        put_moved(b, at, close, second, mask, t);
        return;
    }
    put_alone(b, at, close, mask, t);
}

fn put_wr(b: &mut PlannerBytes, at: Place, close: bool, mask: u32, leaves: bool, t: u64)
    requires b_bound { leaves ≡ true → held_bank b.old < 32 }
    requires bank_bound { at.bank < 256 }
    requires column_bound { at.column < 256 }
    requires t_bound { t < 2 ^ 32 }
    ensures { b.new ≡ wr_stored b.old at.bank at.column close mask leaves t }
{
    if leaves {
        put_instead(b, at, close, mask, t);
        return;
    }
    if waits(b) {
        put_newer(b, at, close, mask, t);
        return;
    }
    put_alone(b, at, close, mask, t);
}

// D's instant, of a WR whose instant comes as it is stored. It may be late: the whole request is tested after its last packet.
pub fn data_at(s: Settings, t: u64) -> DataAt
    requires { t + 3 + s.cwd < 2 ^ 32 }
    ensures { result ≡ record { 0 = t + 3 + s.cwd } }
{
    written_at(s, PacketAt((t + 3) as u32))
}

// WR or WRA, under the mask of the write that it retires, and its D.
pub fn wr(
    s: Settings,
    b: &mut PlannerBytes,
    at: Place,
    close: bool,
    mask: u32,
    d: Dualoct,
    room: &mut [u8],
    to: usize,
) -> usize
    requires rested { Rested s 1000012000 b.old }
    requires in_place { InPlace s at }
    requires to_in_bounds { to + 64 ≤ length room.old }
    ensures { Drawn s (written (context_of s) close at mask d (drafted b.old)) room.old to b.new room.new result }
{
    let v = wr_base(s, b, at.bank as usize);
    let leaves = retires(s, b, v);
    let t = wr_from(s, b, v, leaves);
    let left = carried(b, leaves);
    let word = col_word(
        s.device,
        ColPacket::Wr {
            bank: at.bank,
            column: at.column,
            mask: left,
            close,
        },
    );
    put_packet(room, to, t, 1, word);
    put_data(room, to + 32, data_at(s, t), d);
    put_wr(b, at, close, mask, leaves, t);
    to + 64
}
