// Whether a state is calm: no instant of it is so high that a packet of one request could be late.
ghost use Rattle.std.specs.Prelude.{◌≡◌, ◌*◌, ◌≤◌};
ghost use Rattle.spec_rules.specs.Checks.{max_up_to};
ghost use Rattle.plan_bytes.specs.Form.Numbers.{word};
ghost use Rattle.plan_bytes.specs.Form.Calm.{highest_in, is_calm};

use num::u32_at;
use spec_plan::PlannerBytes;

// All instants of the banks, or-ed: none of them is above that.
fn banks_top(b: &PlannerBytes) -> u32
    ensures { max_up_to (λ k. word b.now (4 * k)) 160 ≤ result }
{
    let mut top: u32 = 0;
    for i in 0..160 {
        top = top | u32_at(b, 4 * i);
    }
    top
}

// All instants of the state, or-ed.
fn top(b: &PlannerBytes) -> u32
    ensures { highest_in b.now ≤ result }
{
    let rows = u32_at(b, 704) | u32_at(b, 708) | u32_at(b, 716) | u32_at(b, 724);
    let cols = u32_at(b, 712) | u32_at(b, 720) | u32_at(b, 740) | u32_at(b, 748);
    banks_top(b) | rows | cols | u32_at(b, 752)
}

// The highest of the banks.
fn banks_highest(b: &PlannerBytes) -> u32
    ensures { result ≡ max_up_to (λ k. word b.now (4 * k)) 160 }
{
    let mut high: u32 = 0;
    for i in 0..160 {
        high = high.max(u32_at(b, 4 * i));
    }
    high
}

// The highest of the state.
pub fn highest(b: &PlannerBytes) -> u32
    ensures { result ≡ highest_in b.now }
{
    let last = u32_at(b, 740).max(u32_at(b, 748).max(u32_at(b, 752)));
    let late = u32_at(b, 720).max(u32_at(b, 724).max(last));
    let cols = u32_at(b, 712).max(u32_at(b, 716).max(late));
    banks_highest(b).max(u32_at(b, 704).max(u32_at(b, 708).max(cols)))
}

// Below 2^29 the or of all instants is as good as the highest.
pub fn calm(b: &PlannerBytes) -> bool
    ensures { result ≡ is_calm b.now }
{
    if top(b) < 536870912 {
        return true;
    }
    highest(b) <= 999990000
}
