// What is tested of the channel's bytes. No loop ends early, and stored instants are or-ed: what is at most a bound all together is so
// one by one. One instruction then takes several numbers.
ghost use Rattle.std.specs.Prelude.{◌≡◌, ◌&&◌, ℕ, ◌+◌, ◌*◌, ◌≤◌, ◌<◌, length};
ghost use Rattle.num.specs.Bytes.{number, part};
ghost use Rattle.state_bytes.specs.Form.Tested.{all_stored, most_tag, tag_right, tags_right, write_right, buffer_right, channel_tested};

use chan_view::neighbours::is_first;
use settings::Settings;

// The last stored instant: 1,000,000,000 less 3.
pub(crate) const LATEST: u32 = 999999997;

// The n stored instants from a place on, or-ed: none of them is above that.
fn tops(b: &[u8], at: usize, n: usize) -> u32
    requires { at + 4 * n ≤ length b.now }
    ensures { (k : ℕ) → k < n → number (part b.now (at + 4 * k) 4) ≤ result }
{
    let mut top: u32 = 0;
    for i in 0..n {
        top = top | num::u32_at(b, at + 4 * i);
    }
    top
}

// Whether each of the n stored instants from a place on is in range.
fn all_stored(b: &[u8], at: usize, n: usize) -> bool
    requires { at + 4 * n ≤ length b.now }
    ensures { result ≡ all_stored b.now at n }
{
    let mut right = true;
    for i in 0..n {
        right = right & (num::u32_at(b, at + 4 * i) <= LATEST);
    }
    right
}

// The five planes of instants, and the last instants of the channel.
fn instants_right(b: &[u8]) -> bool
    requires { 752 ≤ length b.now }
    ensures { result ≡ (all_stored b.now 0 160 && all_stored b.now 704 6) }
{
    if (tops(b, 0, 160) | tops(b, 704, 6)) <= LATEST {
        return true;
    }
    all_stored(b, 0, 160) & all_stored(b, 704, 6)
}

// The highest tag of an open bank.
fn most_tag(rows: u32) -> u16
    ensures { result ≡ most_tag rows }
{
    if rows < 65535 { rows as u16 } else { 65534 }
}

// Whether a tag is at most the highest or the other one that is allowed, and bank x or its neighbour below is closed.
fn tag_right(core: u32, most: u16, also: u16, x: u32, below: u16, tag: u16) -> bool
    ensures { result ≡ tag_right core most also x below tag }
{
    ((tag <= most) | (tag == also)) & (is_first(core, x) | (below == 0) | (tag == 0))
}

// Whether each tag is right. Of the settings it takes two numbers: all of them would be copied.
pub(crate) fn tags_right(rows: u32, core: u32, also: u16, b: &[u8]) -> bool
    requires { 752 ≤ length b.now }
    ensures { result ≡ tags_right rows core also b.now }
{
    let most = most_tag(rows);
    let mut right = true;
    for x in 0..32u32 {
        let i = x as usize;
        let below = num::half_at(b, 638 + 2 * i);
        let tag = num::half_at(b, 640 + 2 * i);
        right = right & tag_right(core, most, also, x, below, tag);
    }
    right
}

// Whether the fields of the waiting write at a place are in range and its bank is open by ACT; `close` is the most that may be said of
// its closing the bank.
fn write_right(columns: u32, close: u32, b: &[u8], p: usize) -> bool
    requires in_bounds { 752 ≤ length b.now }
    requires p_bound { p + 8 ≤ 752 }
    ensures { result ≡ write_right columns close b.now p }
{
    let bank = u32::from(b[p]);
    let tag = num::u16_at(b, 640 + 2 * ((bank % 32) as usize));
    let at = num::u32_at(b, p + 4);
    let fields = (bank < 32) & (u32::from(b[p + 1]) < columns) & (num::u16_at(b, p + 2) <= close);
    fields & (tag != 0) & (tag != 65535) & (at != 0) & (at <= LATEST)
}

// The buffer: no write waits, or one or two, with one of two counts; the bytes that no field uses are 0. Only a write that waits is
// tested.
pub(crate) fn buffer_right(columns: u32, due: u64, close: u32, b: &[u8]) -> bool
    requires in_bounds { 752 ≤ length b.now }
    requires due_bound { due ≤ 256 }
    ensures { result ≡ buffer_right columns due close b.now }
{
    let count = num::u64_at(b, 728);
    if count == 0 {
        return (num::u64_at(b, 736) == 0) & (num::u64_at(b, 744) == 0);
    }
    let older = write_right(columns, close, b, 736);
    if (count == 1) | (count == 1 + due) {
        return older & (num::u64_at(b, 744) == 0);
    }
    older & ((count == 2) | (count == 2 + due)) & write_right(columns, close, b, 744)
}

// Whether the channel's bytes are not refused, where the tag `also` is allowed too, counts that are `due` more, and `close` of a write.
pub(crate) fn channel_right(s: Settings, also: u16, due: u64, close: u32, b: &[u8]) -> bool
    requires in_bounds { 752 ≤ length b.now }
    requires due_bound { due ≤ 256 }
    ensures { result ≡ channel_tested s also due close b.now }
{
    instants_right(b) & tags_right(s.rows, s.core, also, b) & buffer_right(s.columns, due, close, b)
}
