// The channel's 752 bytes read: a bank, the last instants, the write buffer. An instant is stored less 3, and 0 stands for none.
ghost use Rattle.std.specs.Prelude.{◌≡◌, ◌+◌, ◌*◌, ◌≤◌, ◌<◌, eqb, length, get_or};
ghost use Rattle.num.specs.Bytes.{number, part};
ghost use Rattle.spec_state.specs.ChannelBytes.{bank_in, instant_in, track_in, lasts_in, write_in, buffer_in};
ghost use Rattle.state_bytes.specs.Form.Stored.{latest, InRange};

use settings::PacketAt;
use spec_rules::{Bank, BankTrack, Buffer, LastInstants, Write};

pub fn instant_at(b: &[u8], at: usize) -> PacketAt
    requires at_in_bounds { at + 4 ≤ length b.now }
    requires at_bound { number (part b.now at 4) ≤ latest }
    ensures { result ≡ instant_in b.now at }
{
    let n = num::u32_at(b, at);
    if n == 0 { PacketAt(0) } else { PacketAt(n + 3) }
}

// 0: closed. 65535: under refresh. Else open, on the row one below.
fn bank_of(tag: u32) -> Bank
    ensures { result ≡ bank_in tag }
{
    if tag == 0 {
        return Bank::Closed;
    }
    if tag == 65535 {
        return Bank::Refresh;
    }
    Bank::Open(tag - 1)
}

// Bank x with its last instants.
pub fn track_at(b: &[u8], x: usize) -> BankTrack
    requires in_bounds { 752 ≤ length b.now }
    requires in_range { InRange b.now }
    requires x_bound { x < 32 }
    ensures { result ≡ track_in b.now x }
{
    BankTrack {
        bank: bank_of(num::u16_at(b, 640 + 2 * x)),
        opened: instant_at(b, 4 * x),
        act: instant_at(b, 128 + 4 * x),
        pre: instant_at(b, 256 + 4 * x),
        rd: instant_at(b, 384 + 4 * x),
        retire: instant_at(b, 512 + 4 * x),
    }
}

// The last instants of the whole channel.
pub fn lasts_at(b: &[u8]) -> LastInstants
    requires in_bounds { 752 ≤ length b.now }
    requires in_range { InRange b.now }
    ensures { result ≡ lasts_in b.now }
{
    LastInstants {
        packet: instant_at(b, 704),
        row: instant_at(b, 708),
        col: instant_at(b, 712),
        pre: instant_at(b, 716),
        rd: instant_at(b, 720),
        implied: instant_at(b, 724),
    }
}

// The waiting write whose bytes are at a place.
fn write_at(b: &[u8], p: usize) -> Write
    requires p_in_bounds { p + 8 ≤ length b.now }
    requires p_bound { number (part b.now (p + 4) 4) ≤ latest }
    ensures { result ≡ write_in b.now p }
{
    Write {
        bank: u32::from(b[p]),
        column: u32::from(b[p + 1]),
        at: instant_at(b, p + 4),
        close: num::u16_at(b, p + 2) == 1,
    }
}

// The writes that wait.
pub fn buffer_at(b: &[u8]) -> Buffer
    requires in_bounds { 752 ≤ length b.now }
    requires in_range { InRange b.now }
    ensures { result ≡ buffer_in b.now }
{
    if b[728] == 0 {
        return Buffer::Empty;
    }
    if b[728] == 1 {
        return Buffer::One(write_at(b, 736));
    }
    Buffer::Two(write_at(b, 736), write_at(b, 744))
}

// Whether the data of the newest write are due.
pub fn due_at(b: &[u8]) -> bool
    requires { 752 ≤ length b.now }
    ensures { result ≡ eqb (get_or b.now 729 0) 1 }
{
    b[729] == 1
}
