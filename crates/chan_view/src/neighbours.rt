// Which banks share sense amps, by the settings: every other crate asks here. Number 32 stands for no bank.
ghost use Rattle.std.specs.Prelude.{◌≡◌, ◌+◌, ◌<◌, ◌/◌, ◌^◌, eqb};
ghost use Rattle.spec_rules.specs.Neighbour.{run_of, context_of, near};
ghost use Rattle.chan_view.specs.Form.Beside.{is_first, low_of, high_of, first_near, last_near};

use settings::Settings;

// A run has two to the power of this many banks: a shift takes less than a division by a number that is not known beforehand.
fn run_bits(core: u32) -> u32
    ensures { (result < 32) × (2 ^ result ≡ run_of core) }
{
    if core == 0 {
        return 4;
    }
    if core == 1 { 5 } else { 0 }
}

// Whether a bank is the first of its run, by a shift: for one bank.
fn starts_run(core: u32, b: u64) -> bool
    ensures { result ≡ is_first core b }
{
    let bits = run_bits(core);
    ((b >> bits) << bits) == b
}

// The same by cases: a loop over all banks is then made once for each form, with numbers that are known beforehand.
pub fn is_first(core: u32, b: u32) -> bool
    ensures { result ≡ is_first core b }
{
    if core == 0 {
        return b % 16 == 0;
    }
    if core == 1 {
        return b % 32 == 0;
    }
    true
}

// Whether the bank after a bank is the first of its run.
fn is_last(core: u32, b: u32) -> bool
    ensures { result ≡ is_first core (b + 1) }
{
    if core == 0 {
        return b % 16 == 15;
    }
    if core == 1 {
        return b % 32 == 31;
    }
    true
}

// Whether two banks are of one run.
fn in_run(core: u32, b: u32, x: u32) -> bool
    ensures { result ≡ eqb (b / run_of core) (x / run_of core) }
{
    let bits = run_bits(core);
    (b >> bits) == (x >> bits)
}

// Whether bank x is bank b or a neighbour of it.
pub fn is_near(s: Settings, b: u32, x: u32) -> bool
    ensures { result ≡ near (context_of s) b x }
{
    let above = u64::from(b) + 1 == u64::from(x);
    let below = u64::from(x) + 1 == u64::from(b);
    (x == b) | ((above | below) & in_run(s.core, b, x))
}

// The neighbour below a bank.
pub fn low_of(s: Settings, b: u32) -> u32
    ensures { result ≡ low_of s b }
{
    if is_first(s.core, b) { 32 } else { b - 1 }
}

// The neighbour above a bank.
pub fn high_of(s: Settings, b: u32) -> u32
    ensures { result ≡ high_of s b }
{
    if is_last(s.core, b) { 32 } else { b + 1 }
}

// The neighbour below a bank, or the bank where there is none.
pub fn first_near(s: Settings, x: usize) -> usize
    requires { x < 32 }
    ensures { (result ≡ first_near s x) × (result < 32) }
{
    if starts_run(s.core, x as u64) {
        x
    } else {
        x - 1
    }
}

// The neighbour above a bank, or the bank where there is none.
pub fn last_near(s: Settings, x: usize) -> usize
    requires { x < 32 }
    ensures { (result ≡ last_near s x) × (result < 32) }
{
    if starts_run(s.core, (x as u64) + 1) {
        x
    } else {
        x + 1
    }
}
