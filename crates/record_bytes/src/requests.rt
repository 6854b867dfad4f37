// Requests as bytes.
ghost use Rattle.std.specs.Prelude.{◌≡◌, ◌≤◌, true, false, length};
ghost use Rattle.record.proofs.RequestLaws.{InPlace};
ghost use Rattle.record.specs.declared.Request.TheVariants.{Read};
ghost use Rattle.record.specs.Request.{kind_of, spare_right, place_of, placed, request_of, request_read};

use record::{Dualoct, Place, Refusal, Request};
use settings::Settings;

// Whether every byte that the kind does not use is zero.
fn spare_right(b: &[u8; 24]) -> bool
    ensures { result ≡ spare_right b.now }
{
    let kind = b[0];
    let place = (kind <= 1) | (6 <= kind) | (num::u32_at(b, 1) == 0);
    let none = b[5] == 0;
    let mask = num::u16_at(b, 6) == 0;
    let cycles = (kind == 3) | (num::u32_at(b, 8) == 0);
    let rest = (num::u32_at(b, 12) == 0) & (num::u64_at(b, 16) == 0);
    let data = mask & cycles & rest;
    place & none & ((kind == 1) | (kind == 7) | data)
}

// The bank, row and column of a request. A slice, since a caller has tested its length with `plain_read`.
pub fn place_of(b: &[u8]) -> Place
    requires { length b.now ≡ 24 }
    ensures { result ≡ place_of b.now }
{
    Place {
        bank: u32::from(b[1]),
        row: num::u16_at(b, 2),
        column: u32::from(b[4]),
    }
}

// Whether a place is in range.
fn in_place(s: Settings, p: Place) -> bool
    ensures { result ≡ true → InPlace s p }
{
    (p.bank < 32) & (p.row < s.rows) & (p.column < s.columns)
}

// Whether bytes say a read in range that leaves its bank open: most requests do, and a caller who knows it makes no request of them.
pub fn plain_read(s: Settings, b: &[u8]) -> bool
    ensures { result ≡ true → (length b.now ≡ 24) × InPlace s (place_of b.now) × (request_read s b.now ≡ Ok (Read (place_of b.now) false)) }
{
    let Some(b) = b.as_array::<24>() else {
        return false;
    };
    if b[0] != 0 {
        return false;
    }
    if spare_right(b) {
        return in_place(s, place_of(b));
    }
    false
}

// The request, where its place is in range.
fn placed(s: Settings, p: Place, q: Request) -> Result<Request, Refusal>
    ensures { result ≡ placed s p q }
{
    if 32 <= p.bank {
        return Err(Refusal::Bank);
    }
    if s.rows <= p.row {
        return Err(Refusal::Row);
    }
    if s.columns <= p.column {
        return Err(Refusal::Column);
    }
    Ok(q)
}

// The request of 24 bytes whose kind and spare bytes are right; kinds 6 and 7 are 0 and 1 that close their bank.
fn request_of(s: Settings, b: &[u8; 24]) -> Result<Request, Refusal>
    requires { kind_of b.now ≤ 7 }
    ensures { result ≡ request_of s b.now }
{
    let kind = b[0];
    let p = place_of(b);
    if (kind == 0) | (kind == 6) {
        return placed(s, p, Request::Read(p, kind == 6));
    }
    if (kind == 1) | (kind == 7) {
        let data = Dualoct {
            dqa: num::u64_at(b, 8),
            dqb: num::u64_at(b, 16),
        };
        return placed(s, p, Request::Write(p, num::u16_at(b, 6), data, kind == 7));
    }
    if kind == 2 {
        return Ok(Request::Refresh);
    }
    if kind == 3 {
        return Ok(Request::Wait(num::u32_at(b, 8)));
    }
    if kind == 4 {
        return Ok(Request::Flush);
    }
    Ok(Request::Close)
}

// The request that bytes say under the settings, or its refusal.
pub fn read_request(s: Settings, b: &[u8]) -> Result<Request, Refusal>
    ensures { result ≡ request_read s b.now }
{
    let Some(b) = b.as_array::<24>() else {
        return Err(Refusal::Length);
    };
    if 7 < b[0] {
        return Err(Refusal::Kind);
    }
    if spare_right(b) {
        return request_of(s, b);
    }
    Err(Refusal::Spare)
}
