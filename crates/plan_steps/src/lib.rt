// The steps of the plan on the bytes of a planner.
#![tactic(auto)]

ghost use Rattle.std.specs.Prelude.{◌≡◌, true, false, ◌+◌, ◌*◌, ◌<◌, ◌≤◌, eqb, leb};
ghost use Rattle.std.specs.Fn.{FnReturnsAt};
ghost use Rattle.packet.specs.declared.RowPacket.TheVariants.{Act};
ghost use Rattle.spec_rules.specs.Neighbour.{bank_count, context_of, near};
ghost use Rattle.spec_rules.specs.History.{any_write};
ghost use Rattle.spec_plan.specs.Plan.{row_packet, when, waiting, state_in, open_on, delays, any_waits, any_closes, sent, flushed, flushed_while, closed, closed_up_to, planned_close};
ghost use Rattle.spec_plan.specs.Looked.{looked_up_to};
ghost use Rattle.plan_bytes.specs.Form.Numbers.{half};
ghost use Rattle.plan_bytes.specs.Form.Drawn.{drafted, Ready, Rested, OpenAt, Fits, Drawn};
ghost use Rattle.plan_steps.specs.Form.Closing.{NewestCloses};
ghost use Rattle.plan_steps.specs.Form.Opened.{opened, open_up_to};
ghost use Rattle.plan_steps.specs.Form.Tells.{Tells};

use chan_view::neighbours::{first_near, is_near, last_near};
use num::u16_at;
use plan_bytes::{held_bank, next_bank, two, waits};
use plan_packets::cols::{nocop, nocop_closing};
use plan_packets::rows::{act, prer};
use record::Place;
use settings::Settings;
use spec_plan::PlannerBytes;

// Where the next record goes after a close, and how many banks it looked at.
#[derive(Clone, Copy)]
pub struct Walked {
    pub to: usize,
    pub banks: usize,
}

// The state of a bank as it is stored: 0 closed, 1 + its row where it is open.
fn tag(b: &PlannerBytes, x: usize) -> u32
    requires x_bound { x < 32 }
    ensures { result ≡ half b.now (640 + 2 * x) }
{
    u16_at(b, 640 + 2 * x)
}

// Whether an RD must not come yet: two writes wait, or one of that bank and column does.
fn delayed(s: Settings, b: &PlannerBytes, at: Place) -> bool
    ensures { result ≡ delays (context_of s) false at (waiting (drafted b.now)) }
{
    let own = (held_bank(b) == at.bank) & (u32::from(b[737]) == at.column);
    two(b) | (waits(b) & own)
}

// Whether a PRER to a bank, also one that an RDA implies, would lose a waiting write.
fn loses(s: Settings, b: &PlannerBytes, bank: u32) -> bool
    ensures { result ≡ any_write (λ w. near (context_of s) bank w.bank) (waiting (drafted b.now)) }
{
    let older = waits(b) & is_near(s, bank, held_bank(b));
    let newer = two(b) & is_near(s, bank, next_bank(b));
    older | newer
}

// Whether an RDA must not come yet: an RD must not, or the PRER that it implies would lose a waiting write.
fn delayed_closing(s: Settings, b: &PlannerBytes, at: Place) -> bool
    ensures { result ≡ delays (context_of s) true at (waiting (drafted b.now)) }
{
    delayed(s, b, at) | loses(s, b, at.bank)
}

// NOCOP where a test has passed that no empty buffer passes.
fn flush_if(s: Settings, b: &mut PlannerBytes, test: bool, room: &mut [u8], to: usize) -> usize
    requires rested { Rested s 1000012000 b.old }
    requires b_value { test ≡ true → any_waits (waiting (drafted b.old)) ≡ true }
    requires fits { Fits (when test (flushed (context_of s)) (drafted b.old)) room.old to }
    ensures { Drawn s (when test (flushed (context_of s)) (drafted b.old)) room.old to b.new room.new result }
{
    if test {
        return nocop(s, b, room, to);
    }
    to
}

// NOCOP while a test of the bytes passes, at most twice: for each `asks` that the test tells of their waiting writes, while those pass
// it.
fn flush_while<F: Fn(&PlannerBytes) -> bool>(
    s: Settings,
    b: &mut PlannerBytes,
    test: F,
    room: &mut [u8],
    to: usize,
) -> usize
    requires rested { Rested s 1000011000 b.old }
    requires callable { (y : _) → F.pre test y }
    requires fits { (asks : _) × Tells s (FnReturnsAt F.Fn test) b.old asks × Fits (flushed_while (context_of s) asks (drafted b.old)) room.old to }
    ensures { (asks : _) → Tells s (FnReturnsAt F.Fn test) b.old asks → Fits (flushed_while (context_of s) asks (drafted b.old)) room.old to → Drawn s (flushed_while (context_of s) asks (drafted b.old)) room.old to b.new room.new result }
{
    if test(b) {
        let next = nocop(s, b, room, to);
        let again = test(b);
        return flush_if(s, b, again, room, next);
    }
    to
}

// Whether a write waits in a bank.
fn holds(b: &PlannerBytes, bank: u32) -> bool
    ensures { result ≡ any_write (λ w. eqb w.bank bank) (waiting (drafted b.now)) }
{
    let older = waits(b) & (held_bank(b) == bank);
    let newer = two(b) & (next_bank(b) == bank);
    older | newer
}

// NOCOP until no write waits that a PRER to a bank would lose. The bank is open, and so are those of the waiting writes: of two banks
// that are open neither is the other's neighbour, so that such a write waits in the bank itself.
fn flush_losing(s: Settings, b: &mut PlannerBytes, bank: u32, room: &mut [u8], to: usize) -> usize
    requires rested { Rested s 1000011000 b.old }
    requires bank_bound { bank < 32 }
    requires open_at { OpenAt b.old bank }
    requires fits { Fits (flushed_while (context_of s) (any_write (λ w. near (context_of s) bank w.bank)) (drafted b.old)) room.old to }
    ensures { Drawn s (flushed_while (context_of s) (any_write (λ w. near (context_of s) bank w.bank)) (drafted b.old)) room.old to b.new room.new result }
{
    flush_while(s, b, move |y| holds(y, bank), room, to)
}

// NOCOP until an RD may come.
pub fn flush_delaying(
    s: Settings,
    b: &mut PlannerBytes,
    at: Place,
    room: &mut [u8],
    to: usize,
) -> usize
    requires rested { Rested s 1000011000 b.old }
    requires fits { Fits (flushed_while (context_of s) (delays (context_of s) false at) (drafted b.old)) room.old to }
    ensures { Drawn s (flushed_while (context_of s) (delays (context_of s) false at) (drafted b.old)) room.old to b.new room.new result }
{
    flush_while(s, b, move |y| delayed(s, y, at), room, to)
}

// NOCOP until an RDA may come.
pub fn flush_closing(
    s: Settings,
    b: &mut PlannerBytes,
    at: Place,
    room: &mut [u8],
    to: usize,
) -> usize
    requires rested { Rested s 1000011000 b.old }
    requires fits { Fits (flushed_while (context_of s) (delays (context_of s) true at) (drafted b.old)) room.old to }
    ensures { Drawn s (flushed_while (context_of s) (delays (context_of s) true at) (drafted b.old)) room.old to b.new room.new result }
{
    flush_while(s, b, move |y| delayed_closing(s, y, at), room, to)
}

// NOCOP until the newest write has retired, a WRA.
pub fn flush_wra(s: Settings, b: &mut PlannerBytes, room: &mut [u8], to: usize) -> usize
    requires ready { Ready s 1000011000 b.old }
    requires newest_closes { NewestCloses b.old }
    requires fits { Fits (flushed_while (context_of s) any_closes (drafted b.old)) room.old to }
    ensures { Drawn s (flushed_while (context_of s) any_closes (drafted b.old)) room.old to b.new room.new result }
{
    if two(b) {
        let next = nocop(s, b, room, to);
        return nocop_closing(s, b, room, next);
    }
    nocop_closing(s, b, room, to)
}

// NOCOP until no write waits.
pub fn flush_all(s: Settings, b: &mut PlannerBytes, room: &mut [u8], to: usize) -> usize
    requires rested { Rested s 1000011000 b.old }
    requires fits { Fits (flushed_while (context_of s) any_waits (drafted b.old)) room.old to }
    ensures { Drawn s (flushed_while (context_of s) any_waits (drafted b.old)) room.old to b.new room.new result }
{
    flush_while(s, b, |y| waits(y), room, to)
}

// "each by PRER"; "The planner sends NOCOP [..] before a read or a PRER until the write concerned has retired"
fn close_bank(s: Settings, b: &mut PlannerBytes, x: usize, room: &mut [u8], to: usize) -> usize
    requires rested { Rested s 1000011000 b.old }
    requires x_bound { x < 32 }
    requires open_at { OpenAt b.old x }
    requires fits { Fits (closed (context_of s) x (drafted b.old)) room.old to }
    ensures { Drawn s (closed (context_of s) x (drafted b.old)) room.old to b.new room.new result }
{
    let next = flush_losing(s, b, x as u32, room, to);
    prer(s, b, x, room, next)
}

// Of the banks from the first to before an end, "close the open ones in rising order".
fn close_from(
    s: Settings,
    b: &mut PlannerBytes,
    first: usize,
    end: usize,
    room: &mut [u8],
    start: usize,
) -> usize
    requires rested { Rested s 1000001000 b.old }
    requires first_le_end { first ≤ end }
    requires end_bound { end ≤ 32 }
    requires fits { Fits (closed_up_to (context_of s) (λ x. leb first x) end (drafted b.old)) room.old start }
    ensures { Drawn s (closed_up_to (context_of s) (λ x. leb first x) end (drafted b.old)) room.old start b.new room.new result }
{
    let mut to = start;
    for k in first..end {
        if tag(b, k) != 0 {
            to = close_bank(s, b, k, room, to);
        }
    }
    to
}

// One where a bank is open.
fn opened(b: &PlannerBytes, x: usize) -> usize
    requires x_bound { x < 32 }
    ensures { result ≡ opened (state_in (drafted b.now) x) }
{
    if tag(b, x) == 0 { 0 } else { 1 }
}

// How many banks are open.
fn open_banks(b: &PlannerBytes) -> usize
    ensures { result ≡ open_up_to (state_in (drafted b.now)) 32 }
{
    let mut n: usize = 0;
    for x in 0..32 {
        n += opened(b, x);
    }
    n
}

// Goes up from bank 0 while some of the open banks, of which there are so many, are left, and closes them. The count is that of its
// turns. What ends it is that none is left, and not the number of banks: a `for` would need a second way out.
fn close_left(s: Settings, b: &mut PlannerBytes, count: usize, room: &mut [u8]) -> Walked
    requires rested { Rested s 999999997 b.old }
    requires count_value { count ≡ open_up_to (state_in (drafted b.old)) 32 }
    requires fits { Fits (planned_close (context_of s) (drafted b.old)) room.old 0 }
    ensures drawn { Drawn s (planned_close (context_of s) (drafted b.old)) room.old 0 b.new room.new result.to }
    ensures banks_value { result.banks ≡ looked_up_to (state_in (drafted b.old)) 32 }
{
    let mut left = count;
    let mut to: usize = 0;
    let mut x: usize = 0;
    while left != 0 {
        if tag(b, x) != 0 {
            to = close_bank(s, b, x, room, to);
            left -= 1;
        }
        x += 1;
    }
    Walked { to: to, banks: x }
}

// "PRER to each open bank in rising order"; "The walk should end as soon as no open bank remains"
pub fn close_all(s: Settings, b: &mut PlannerBytes, room: &mut [u8]) -> Walked
    requires rested { Rested s 999999997 b.old }
    requires fits { Fits (planned_close (context_of s) (drafted b.old)) room.old 0 }
    ensures drawn { Drawn s (planned_close (context_of s) (drafted b.old)) room.old 0 b.new room.new result.to }
    ensures banks_value { result.banks ≡ looked_up_to (state_in (drafted b.old)) 32 }
{
    let count = open_banks(b);
    close_left(s, b, count, room)
}

// "of the bank and its neighbours, close the open ones"
pub fn close_near(s: Settings, b: &mut PlannerBytes, x: usize, room: &mut [u8]) -> usize
    requires rested { Rested s 999999997 b.old }
    requires x_bound { x < 32 }
    requires fits { Fits (closed_up_to (context_of s) (near (context_of s) x) bank_count (drafted b.old)) room.old 0 }
    ensures { Drawn s (closed_up_to (context_of s) (near (context_of s) x) bank_count (drafted b.old)) room.old 0 b.new room.new result }
{
    let first = first_near(s, x);
    let end = last_near(s, x) + 1;
    close_from(s, b, first, end, room, 0)
}

// Whether a bank is open on a row.
pub fn on_row(b: &PlannerBytes, bank: u32, row: u32) -> bool
    requires bank_bound { bank < 32 }
    requires row_bound { row < 512 }
    ensures { result ≡ open_on (state_in (drafted b.now) bank) row }
{
    tag(b, bank as usize) == row + 1
}

// "To reach a row that is not open".
pub fn open_row(s: Settings, b: &mut PlannerBytes, bank: u32, row: u32, room: &mut [u8]) -> usize
    requires rested { Rested s 999999997 b.old }
    requires bank_bound { bank < 32 }
    requires row_lt_rows { row < s.rows }
    requires fits { Fits (sent (context_of s) (row_packet (Act bank row)) (closed_up_to (context_of s) (near (context_of s) bank) bank_count (drafted b.old))) room.old 0 }
    ensures { Drawn s (sent (context_of s) (row_packet (Act bank row)) (closed_up_to (context_of s) (near (context_of s) bank) bank_count (drafted b.old))) room.old 0 b.new room.new result }
{
    let to = close_near(s, b, bank as usize, room);
    act(s, b, bank, row, room, to)
}
