// ROW packets on the bytes of a planner: each at its least instant, its record to the room.
ghost use Rattle.std.specs.Prelude.{◌≡◌, cond, ◌+◌, ◌*◌, ◌<◌, ◌≤◌, ◌^◌, length};
ghost use Rattle.num.specs.Bytes.{splice};
ghost use Rattle.packet.specs.declared.RowPacket.TheVariants.{Act, Prer, Refa, Refp};
ghost use Rattle.record.specs.Record.{record_fields};
ghost use Rattle.spec_rules.specs.Checks.{since};
ghost use Rattle.spec_rules.specs.Neighbour.{context_of, near};
ghost use Rattle.spec_state.specs.Form.Stores.{close_stored};
ghost use Rattle.spec_plan.specs.Plan.{row_packet, sent};
ghost use Rattle.plan_bytes.specs.Form.Numbers.{word, now_stored};
ghost use Rattle.plan_bytes.specs.Form.Drawn.{drafted, Ready, OpenAt, NearShut, Drawn};
ghost use Rattle.plan_packets.specs.Form.RowSlots.{row_base, most_in, prer_asks, close_at, latest_in, far_in, other_in, open_at};

use chan_view::bounds::after_gap;
use chan_view::neighbours::{first_near, is_near, last_near};
use num::u32_at;
use packet::RowPacket;
use packet::row::row_word;
use plan_bytes::{after, put_now, put_packet, stored};
use settings::{PacketAt, Settings};
use spec_plan::PlannerBytes;
use state_bytes::stores::rows::{store_act, store_close, store_refa};

// What the latest of a bank and its neighbours in a plane and a distance ask.
fn after_near(s: Settings, b: &PlannerBytes, plane: usize, x: usize, gap: u32) -> u64
    requires plane_bound { plane ≤ 512 }
    requires x_bound { x < 32 }
    ensures { result ≡ since (most_in s b.now plane x) gap }
{
    let own = u32_at(b, plane + 4 * x);
    let low = u32_at(b, plane + 4 * first_near(s, x));
    let high = u32_at(b, plane + 4 * last_near(s, x));
    after_gap(PacketAt(own.max(low).max(high)), gap)
}

// What now and rules 1, 2 and 17 ask of a ROW packet.
fn row_base(b: &PlannerBytes) -> u64
    ensures { result ≡ row_base b.now }
{
    let last = stored(b, 752).max(stored(b, 704));
    last.max(after(b, 708, 4)).max(stored(b, 724))
}

// What rules 6, 8 and 13 ask of a PRER, of an implied one too.
pub fn prer_asks(s: Settings, b: &PlannerBytes, x: usize) -> u64
    requires x_bound { x < 32 }
    ensures { result ≡ prer_asks s b.now x }
{
    let opened = after_near(s, b, 0, x, s.ras);
    let cols = after_near(s, b, 384, x, s.rdp).max(after_near(s, b, 512, x, s.rtp));
    opened.max(after(b, 716, s.pp).max(cols))
}

fn close_at(s: Settings, b: &PlannerBytes, x: usize) -> u64
    requires x_bound { x < 32 }
    ensures { result ≡ close_at s b.now x }
{
    row_base(b).max(prer_asks(s, b, x))
}

// PRER or REFP, by its word, to a bank whose neighbours are closed.
fn close(s: Settings, b: &mut PlannerBytes, x: usize, word: u64, room: &mut [u8], to: usize)
    requires x_bound { x < 32 }
    requires at_bound { close_at s b.old x + 3 < 2 ^ 32 }
    requires to_in_bounds { to + 32 ≤ length room.old }
    ensures b_after { b.new ≡ now_stored (close_stored b.old x (close_at s b.old x)) (close_at s b.old x) }
    ensures room_after { room.new ≡ splice room.old to (record_fields (close_at s b.old x + 3) 0 word 0 0) }
{
    let t = close_at(s, b, x);
    put_packet(room, to, t, 0, word);
    store_close(b, x, t);
    put_now(b, t);
}

// PRER, to a bank that is open.
pub fn prer(s: Settings, b: &mut PlannerBytes, x: usize, room: &mut [u8], to: usize) -> usize
    requires ready { Ready s 1000012000 b.old }
    requires x_bound { x < 32 }
    requires open_at { OpenAt b.old x }
    requires to_in_bounds { to + 32 ≤ length room.old }
    ensures { Drawn s (sent (context_of s) (row_packet (Prer x)) (drafted b.old)) room.old to b.new room.new result }
{
    let bank = x as u32;
    close(
        s,
        b,
        x,
        row_word(s.device, RowPacket::Prer { bank }),
        room,
        to,
    );
    to + 32
}

// The latest ACT or REFA of all banks.
fn latest_in(b: &PlannerBytes) -> u32
    ensures { result ≡ latest_in b.now }
{
    let mut m: u32 = 0;
    for i in 0..32 {
        m = m.max(u32_at(b, 4 * i));
    }
    m
}

// The latest ACT or REFA of bank i, or none where it is near bank x.
fn far_at(s: Settings, b: &PlannerBytes, x: u32, i: usize) -> u32
    requires i_bound { i < 32 }
    ensures { result ≡ cond (near (context_of s) x i) 0 (word b.now (4 * i)) }
{
    if is_near(s, x, i as u32) {
        0
    } else {
        u32_at(b, 4 * i)
    }
}

// The latest ACT or REFA of the banks that are not near bank x.
fn far_in(s: Settings, b: &PlannerBytes, x: u32) -> u32
    ensures { result ≡ far_in s b.now x }
{
    let mut m: u32 = 0;
    for i in 0..32 {
        m = m.max(far_at(s, b, x, i));
    }
    m
}

// What rule 5 reads for the banks that are not near: where tRR is at most tRC the latest of all stands for them.
fn other_in(s: Settings, b: &PlannerBytes, x: u32) -> u32
    ensures { result ≡ other_in s b.now x }
{
    if s.rc < s.rr {
        far_in(s, b, x)
    } else {
        latest_in(b)
    }
}

fn open_at(s: Settings, b: &PlannerBytes, bank: u32) -> u64
    requires bank_bound { bank < 32 }
    ensures { result ≡ open_at s b.now bank }
{
    let x = bank as usize;
    let other = after_gap(PacketAt(other_in(s, b, bank)), s.rr);
    let closed = after_near(s, b, 256, x, s.rp);
    row_base(b).max(after_near(s, b, 0, x, s.rc).max(other.max(closed)))
}

// ACT, to a bank that is closed with its neighbours.
pub fn act(
    s: Settings,
    b: &mut PlannerBytes,
    bank: u32,
    row: u32,
    room: &mut [u8],
    to: usize,
) -> usize
    requires ready { Ready s 1000012000 b.old }
    requires bank_bound { bank < 32 }
    requires to_in_bounds { to + 32 ≤ length room.old }
    ensures { Drawn s (sent (context_of s) (row_packet (Act bank row)) (drafted b.old)) room.old to b.new room.new result }
{
    let t = open_at(s, b, bank);
    let word = row_word(s.device, RowPacket::Act { bank, row });
    put_packet(room, to, t, 0, word);
    store_act(b, bank as usize, row, t);
    put_now(b, t);
    to + 32
}

// REFA, to a bank that is closed with its neighbours. No plainer in one with `act`: that would take the packet and, as a closure, its
// store.
fn refa(s: Settings, b: &mut PlannerBytes, bank: u32, room: &mut [u8], to: usize) -> usize
    requires ready { Ready s 1000012000 b.old }
    requires bank_bound { bank < 32 }
    requires to_in_bounds { to + 32 ≤ length room.old }
    ensures { Drawn s (sent (context_of s) (row_packet (Refa bank)) (drafted b.old)) room.old to b.new room.new result }
{
    let t = open_at(s, b, bank);
    let word = row_word(s.device, RowPacket::Refa { bank });
    put_packet(room, to, t, 0, word);
    store_refa(b, bank as usize, t);
    put_now(b, t);
    to + 32
}

// REFA, then REFP.
pub fn refresh_bank(
    s: Settings,
    b: &mut PlannerBytes,
    bank: u32,
    room: &mut [u8],
    to: usize,
) -> usize
    requires ready { Ready s 1000011000 b.old }
    requires bank_bound { bank < 32 }
    requires near_shut { NearShut s b.old bank }
    requires to_in_bounds { to + 64 ≤ length room.old }
    ensures { Drawn s (sent (context_of s) (row_packet (Refp bank)) (sent (context_of s) (row_packet (Refa bank)) (drafted b.old))) room.old to b.new room.new result }
{
    let next = refa(s, b, bank, room, to);
    close(
        s,
        b,
        bank as usize,
        row_word(s.device, RowPacket::Refp { bank }),
        room,
        next,
    );
    next + 32
}
