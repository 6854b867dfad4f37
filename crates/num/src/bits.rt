// 1,024 marks in sixteen words of 64 bits, low word and low bit first. No loop ends early, so that one instruction takes several
// words.
ghost use Rattle.std.specs.Prelude.{◌≡◌, ◌≤◌, ◌<◌, length, cond};
ghost use Rattle.num.specs.Marks.{bit, mark, count_up_to, all_apart, below, pushed};
ghost use Rattle.num.specs.Form.Across.{across, lone, under, back};

// The 64 bits of a word and the next one of which the first r are the last of the low word.
fn across(low: u64, high: u64, r: u64) -> u64
    requires { r < 64 }
    ensures { result ≡ across low high r }
{
    (high << r) | (low >> 1 >> (63 - r))
}

// Whether no bit stands less than four after one of the low word.
fn lone(low: u64, high: u64) -> bool
    ensures { result ≡ lone low high }
{
    let near = across(low, high, 63) | across(low, high, 62) | across(low, high, 61);
    (low & near) == 0
}

// Whether no mark stands less than four after another.
pub fn apart(ws: &[u64; 16]) -> bool
    ensures { result ≡ all_apart ws.now }
{
    let mut right = true;
    let mut low = ws[0];
    for k in 0..15 {
        let high = ws[k + 1];
        right = right & lone(low, high);
        low = high;
    }
    right & lone(low, 0)
}

// Whether every bit of a word is below n.
fn under(w: u64, n: u64) -> bool
    ensures { result ≡ under w n }
{
    if n < 64 { w >> n == 0 } else { true }
}

// Whether every mark is below n.
pub fn below(ws: &[u64; 16], n: u64) -> bool
    ensures { result ≡ below ws.now n }
{
    let mut right = true;
    let mut left = n;
    for k in 0..16 {
        right = right & under(ws[k], left);
        left = left.saturating_sub(64);
    }
    right
}

// Word k of those that stand q words later, 0 before the first.
fn back(ws: &[u64], q: usize, k: usize) -> u64
    requires { k < length ws.now }
    ensures { result ≡ back ws.now q k }
{
    if k < q { 0 } else { ws[k - q] }
}

// Every mark d later, but for those that pass the last word, and a new one at 0.
pub fn pushed(ws: &[u64; 16], d: u64) -> [u64; 16]
    ensures { result ≡ pushed ws.now d }
{
    let q = (d / 64) as usize;
    let r = d % 64;
    let mut out = [0; 16];
    let mut low = 0;
    for k in 0..16 {
        let high = back(ws, q, k);
        out[k] = across(low, high, r);
        low = high;
    }
    out[0] = out[0] | 1;
    out
}

// How many marks there are.
pub fn count(ws: &[u64; 16]) -> u32
    ensures { (result ≡ count_up_to (mark ws.now) 1024) × (result ≤ 1024) }
{
    let mut n = 0;
    for k in 0..16 {
        n += ws[k].count_ones();
    }
    n
}

// Whether there is a mark at 0.
pub fn first(ws: &[u64; 16]) -> bool
    ensures { result ≡ mark ws.now 0 }
{
    ws[0] % 2 == 1
}

// Bit j of a word, as a number.
pub fn one(w: u64, j: u64) -> u32
    requires { j < 64 }
    ensures { (result ≡ cond (bit w j) 1 0) × (result < 2) }
{
    ((w >> j) % 2) as u32
}
