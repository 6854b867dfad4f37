// Numbers, words and lines as text. A function that puts text takes the place where it starts and answers where it ends.
// Text is put by hand and not by `write!`, since the contracts say every byte of the lent buffer.
#![tactic(auto)]

pub mod lines;

ghost use Rattle.std.specs.Prelude.{◌≡◌, [], ◌∷◌, ◌++◌, ◌+◌, ◌<◌, ◌≤◌, length};
ghost use Rattle.listing_text.specs.Text.{Put, line_room, digit, decimal, hex_four, mask_text, line, space, line_end, refused_line, records_line};

use packet::FULL;

// A digit, in lower case.
fn digit(d: u32) -> u8
    requires { d < 16 }
    ensures { result ≡ digit d }
{
    if d < 10 { 48 + d as u8 } else { 87 + d as u8 }
}

// Puts a number in decimal digits.
fn put_decimal(out: &mut [u8], at: usize, n: u64) -> usize
    requires { at + length (decimal n) ≤ length out.old }
    ensures { Put out.old at (decimal n) out.new result }
{
    let mut text = [0u8; 20];
    let k = io::decimal(n, &mut text);
    num::put::put_bytes(out, at, &text[..k]);
    at + k
}

// Puts a mask in four hexadecimal digits.
fn put_hex(out: &mut [u8], at: usize, mask: u32) -> usize
    requires { at + 4 ≤ length out.old }
    ensures { Put out.old at (hex_four mask) out.new result }
{
    out[at] = digit(mask / 4096 % 16);
    out[at + 1] = digit(mask / 256 % 16);
    out[at + 2] = digit(mask / 16 % 16);
    out[at + 3] = digit(mask % 16);
    at + 4
}

// Puts the end of a line: its mask.
fn put_mask(out: &mut [u8], at: usize, mask: u32) -> usize
    requires { at + 5 ≤ length out.old }
    ensures { Put out.old at (mask_text mask ++ (line_end ∷ [])) out.new result × (result ≤ at + 5) }
{
    if mask == FULL {
        out[at] = b'-';
        out[at + 1] = b'\n';
        return at + 2;
    }
    let end = put_hex(out, at, mask);
    out[end] = b'\n';
    end + 1
}

// Puts a word and a space.
fn put_name(out: &mut [u8], at: usize, name: &[u8]) -> usize
    requires { at + length name.now < length out.old }
    ensures { Put out.old at (name.now ++ (space ∷ [])) out.new result }
{
    num::put::put_bytes(out, at, name);
    let end = at + name.len();
    out[end] = b' ';
    end + 1
}

// Puts a number and a space.
fn put_number(out: &mut [u8], at: usize, n: u32) -> usize
    requires { at + 11 ≤ length out.old }
    ensures { Put out.old at (decimal n ++ (space ∷ [])) out.new result × (result ≤ at + 11) }
{
    let end = put_decimal(out, at, u64::from(n));
    out[end] = b' ';
    end + 1
}

// Puts a line: instant, name, bank, row or column, mask.
pub fn put_line(
    out: &mut [u8],
    at: usize,
    instant: u32,
    name: &[u8],
    bank: u32,
    place: u32,
    mask: u32,
) -> usize
    requires { (at + line_room ≤ length out.old) × (length name.now ≤ 5) }
    ensures { Put out.old at (line instant name.now bank place (mask_text mask)) out.new result × (result ≤ at + line_room) }
{
    let a = put_number(out, at, instant);
    let b = put_name(out, a, name);
    let c = put_number(out, b, bank);
    let d = put_number(out, c, place);
    put_mask(out, d, mask)
}

// Puts a line of a word, with the space after it, and a count.
fn put_count(out: &mut [u8], at: usize, word: &[u8], n: u64) -> usize
    requires { (at + line_room ≤ length out.old) × (length word.now ≡ 8) }
    ensures { Put out.old at (word.now ++ (decimal n ++ (line_end ∷ []))) out.new result × (result ≤ at + line_room) }
{
    num::put::put_bytes(out, at, word);
    let end = put_decimal(out, at + word.len(), n);
    out[end] = b'\n';
    end + 1
}

// Puts the line of a refusal.
pub fn put_refused(out: &mut [u8], at: usize, number: u32) -> usize
    requires { at + line_room ≤ length out.old }
    ensures { Put out.old at (refused_line number) out.new result × (result ≤ at + line_room) }
{
    put_count(out, at, b"refused ", u64::from(number))
}

// Puts the last line.
pub fn put_records(out: &mut [u8], at: usize, count: u64) -> usize
    requires { at + line_room ≤ length out.old }
    ensures { Put out.old at (records_line count) out.new result × (result ≤ at + line_room) }
{
    put_count(out, at, b"records ", count)
}
