// A quick test of records: where it passes, none of them is bad; where it fails, each record is read. It has no branches, since
// kinds and commands follow no pattern, and takes 32 bits at a time, so that the compiler tests four records at once.
ghost use Rattle.std.specs.Prelude.{◌≡◌, ◌+◌, ◌*◌, ◌^◌, ◌≤◌, true, length};
ghost use Rattle.num.specs.Bytes.{number, part};
ghost use Rattle.num.specs.Search.{all_up_to};
ghost use Rattle.packet.specs.Row.{row_decoded};
ghost use Rattle.packet.specs.Col.{col_decoded};
ghost use Rattle.record.specs.Record.{is_known, row_record, col_record, record_of, well_formed, record_at, first_bad};

use packet::RowPacket;
use settings::Settings;

// The 32-bit number at a place, by one sum: of this the compiler makes one load before it looks for loops to widen.
fn number_at(b: &[u8], at: usize) -> u32
    requires { at + 4 ≤ length b.now }
    ensures { result ≡ number (part b.now at 4) }
{
    u32::from(b[at])
        + 256 * u32::from(b[at + 1])
        + 65536 * u32::from(b[at + 2])
        + 16777216 * u32::from(b[at + 3])
}

// Whether a ROW word, which has 24 bits, says a packet; the word without its bank is compared with the device's.
fn row_right(device: u32, rows: u32, w: u32) -> bool
    ensures { result ≡ true → is_known (row_record 0 (row_decoded device rows w)) ≡ true }
{
    let head = packet::row::row_word(device, RowPacket::Prer { bank: 0 }) as u32;
    let low = (w / 262144 * 262144 + w % 8192).wrapping_sub(head / 262144 * 262144);
    let row = low.wrapping_sub(4096);
    let act = (row < 4096) & (row < rows);
    act | (low == 0x600) | (low == 0x0C0) | (low == 0x540)
}

// Whether a COL word of two halves says a packet; the bit above the column is a zero, so column and zero are one number below 128.
// The opcodes with a column are the odd ones below 8.
fn col_right(device: u32, columns: u32, lo: u32, hi: u32) -> bool
    ensures { result ≡ true → is_known (col_record 0 (col_decoded device columns (lo + 2 ^ 32 * hi))) ≡ true }
{
    let d = device % 32;
    let low = lo % 0x2_0000;
    let sent = low.wrapping_sub(0x1_0000);
    let mask = (sent < 0xFFFF) | (low == d * 2048);
    let cop = lo / 0x2_0000 % 16;
    let column = lo / 0x20_0000 % 256;
    let access = (column < 128) & (column < columns) & ((cop < 8) & (cop % 2 == 1));
    let nocop = (hi % 4 == 0) & (lo / 0x2_0000 == 0);
    (d == device) & mask & ((hi / 4 == 32 + d) & (nocop | access))
}

// Whether a record with this head and no data may have this word of two halves.
fn word_right(s: Settings, head: u32, lo: u32, hi: u32) -> bool
    ensures { result ≡ true → is_known (record_of s 0 head (lo + 2 ^ 32 * hi) 0 0) ≡ true }
{
    let row = (head == 0) & (hi == 0) & row_right(s.device, s.rows, lo);
    let col = (head == 1) & col_right(s.device, s.columns, lo, hi);
    row | col | ((head == 2) & (lo == 0) & (hi == 0))
}

// Whether the 32 bytes from a place on are a record.
fn record_right(s: Settings, b: &[u8], at: usize) -> bool
    requires { at + 32 ≤ length b.now }
    ensures { result ≡ true → well_formed s (part b.now at 32) ≡ true }
{
    let head = number_at(b, at + 4);
    let lo = number_at(b, at + 8);
    let hi = number_at(b, at + 12);
    let dqa = (number_at(b, at + 16) == 0) & (number_at(b, at + 20) == 0);
    let dqb = (number_at(b, at + 24) == 0) & (number_at(b, at + 28) == 0);
    word_right(s, head, lo, hi) & ((head == 2) | (dqa & dqb))
}

// Whether the n records from record i on are records.
fn part_right(s: Settings, list: &[u8], i: usize, n: usize) -> bool
    requires { 32 * (i + n) ≤ length list.now }
    ensures { result ≡ true → all_up_to (λ j. well_formed s (record_at list.now (i + j))) n ≡ true }
{
    let mut right = true;
    for k in 0..n {
        right = right & record_right(s, list, 32 * (i + k));
    }
    right
}

// Whether the four records from record i on are records.
fn four_right(s: Settings, b: &[u8], i: usize) -> bool
    requires { 32 * (i + 4) ≤ length b.now }
    ensures { result ≡ true → all_up_to (λ j. well_formed s (record_at b.now (i + j))) 4 ≡ true }
{
    let at = 32 * i;
    let first = record_right(s, b, at);
    let second = record_right(s, b, at + 32);
    let third = record_right(s, b, at + 64);
    let fourth = record_right(s, b, at + 96);
    first & second & third & fourth
}

// Whether the first n records are records, four at a time; the last four may have been among those before. A loop of its own, since
// with one caller it stands in the caller's.
fn all_right(s: Settings, b: &[u8], n: usize) -> bool
    requires { 32 * n ≤ length b.now }
    ensures { result ≡ true → all_up_to (λ j. well_formed s (record_at b.now j)) n ≡ true }
{
    if n < 4 {
        return false;
    }
    let mut right = true;
    let mut k = 0;
    // a `while`, since the count goes by four
    while k < n {
        right = right & four_right(s, b, k.min(n - 4));
        k += 4;
    }
    right
}

// The first bad record of a list, or the number of whole records; 61 records pass the quick test at a time, of which the compiler
// leaves the last to be tested alone.
pub fn first_bad(s: Settings, list: &[u8]) -> usize
    ensures { result ≡ first_bad s list.now }
{
    let n = list.len() / 32;
    let mut i = 0;
    // a `while`, since the last part may be shorter than those before it
    while i < n {
        let m = (n - i).min(61);
        if part_right(s, list, i, m) {
            i += m;
        } else {
            return crate::first_bad(s, list);
        }
    }
    n
}

// The same for the few records of a block.
pub fn first_bad_of_few(s: Settings, b: &[u8]) -> usize
    ensures { result ≡ first_bad s b.now }
{
    let n = b.len() / 32;
    if all_right(s, b, n) {
        return n;
    }
    crate::first_bad(s, b)
}
