// Records as bytes.
#![tactic(auto)]

pub mod quick;
pub mod requests;

ghost use Rattle.std.specs.Prelude.{◌≡◌, ◌+◌, ◌<◌, ◌≤◌, length};
ghost use Rattle.num.specs.Bytes.{part, splice};
ghost use Rattle.record.specs.Record.{record_fields, record_bytes, record_fits, record_of, record_read, well_formed, first_bad};

use record::{Dualoct, Record};
use settings::{DataAt, PacketAt, Settings};

// The record that these fields say under the settings.
fn record_of(s: Settings, at: u32, kind: u32, word: u64, d: Dualoct) -> Option<Record>
    ensures { result ≡ record_of s at kind word d.dqa d.dqb }
{
    if kind == 2 {
        if word == 0 {
            return Some(Record::DataOf(DataAt(at), d));
        }
        return None;
    }
    if d.dqa != 0 {
        return None;
    }
    if d.dqb != 0 {
        return None;
    }
    if kind == 0 {
        return packet::row::decode_row(s.device, s.rows, word).map(|p| Record::RowAt(
            PacketAt(at),
            p,
        ));
    }
    if kind == 1 {
        return packet::col::decode_col(s.device, s.columns, word).map(|p| Record::ColAt(
            PacketAt(at),
            p,
        ));
    }
    None
}

// The record in the 32 bytes from a place on.
pub fn read_record(s: Settings, b: &[u8], at: usize) -> Option<Record>
    requires { at + 32 ≤ length b.now }
    ensures { result ≡ record_read s (part b.now at 32) }
{
    let head = num::u32_at(b, at + 4);
    if head / 256 != 0 {
        return None;
    }
    let instant = num::u32_at(b, at);
    let word = num::u64_at(b, at + 8);
    let d = Dualoct {
        dqa: num::u64_at(b, at + 16),
        dqb: num::u64_at(b, at + 24),
    };
    record_of(s, instant, head % 256, word, d)
}

// Whether the 32 bytes from a place on are a record under the settings.
fn well_formed(s: Settings, b: &[u8], at: usize) -> bool
    requires { at + 32 ≤ length b.now }
    ensures { result ≡ well_formed s (part b.now at 32) }
{
    read_record(s, b, at).is_some()
}

// The first record of a list that is not one under the settings, or the number of whole records.
pub fn first_bad(s: Settings, list: &[u8]) -> usize
    ensures { result ≡ first_bad s list.now }
{
    let n = list.len() / 32;
    for i in 0..n {
        if !well_formed(s, list, 32 * i) {
            return i;
        }
    }
    n
}

// Puts the fields of a record from a place on.
fn put_fields(out: &mut [u8], at: usize, instant: u32, kind: u32, word: u64, d: Dualoct)
    requires { (at + 32 ≤ length out.old) × (kind < 256) }
    ensures { out.new ≡ splice out.old at (record_fields instant kind word d.dqa d.dqb) }
{
    num::put::put_u32(out, at, u64::from(instant));
    num::put::put_u32(out, at + 4, u64::from(kind));
    num::put::put_u64(out, at + 8, word);
    num::put::put_u64(out, at + 16, d.dqa);
    num::put::put_u64(out, at + 24, d.dqb);
}

// Puts a record from a place on.
pub fn put_record(s: Settings, out: &mut [u8], at: usize, r: Record)
    requires { (at + 32 ≤ length out.old) × (s.device < 32) }
    ensures { out.new ≡ splice out.old at (record_bytes s r) }
{
    match r {
        Record::RowAt(t, p) => put_fields(
            out,
            at,
            t.0,
            0,
            packet::row::row_word(s.device, p),
            Dualoct { dqa: 0, dqb: 0 },
        ),
        Record::ColAt(t, p) => put_fields(
            out,
            at,
            t.0,
            1,
            packet::col::col_word(s.device, p),
            Dualoct { dqa: 0, dqb: 0 },
        ),
        Record::DataOf(t, d) => put_fields(out, at, t.0, 2, 0, d),
    }
}
