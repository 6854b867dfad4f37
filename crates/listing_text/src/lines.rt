// The lines of records that stand in a buffer, as the planner leaves them.
ghost use Rattle.std.specs.Prelude.{◌≡◌, cond, ◌+◌, ◌*◌, ◌≤◌, length};
ghost use Rattle.num.specs.Bytes.{part};
ghost use Rattle.record.specs.Record.{record_read};
ghost use Rattle.spec_check.specs.Check.{known, records_up_to};
ghost use Rattle.listing_text.specs.Text.{Put, line_room, row_line, col_line, record_line, write_bank, write_column, write_bank_after, write_column_after, record_lines};
ghost use Rattle.settings.specs.Bench.{set_h};

use crate::put_line;
use packet::{ColPacket, FULL, RowPacket};
use record::{Dualoct, Record};
use settings::{DataAt, Settings};

// Set H of the bench.
pub fn set_h() -> Settings
    ensures { result ≡ set_h }
{
    Settings {
        rc: 28,
        ras: 20,
        rp: 8,
        pp: 8,
        rr: 8,
        rcd: 9,
        rtr: 8,
        rdp: 4,
        rtp: 4,
        cc: 4,
        cac: 8,
        cwd: 6,
        offp: 4,
        rows: 2,
        columns: 4,
        device: 0,
        core: 0,
    }
}

// Bank and column of the latest WR or WRA.
#[derive(Clone, Copy)]
pub struct Latest {
    pub bank: u32,
    pub column: u32,
}

// The latest WR or WRA after one more record.
fn latest_after(r: Record, before: Latest) -> Latest
    ensures { (result.bank ≡ write_bank r before.bank) × (result.column ≡ write_column r before.column) }
{
    match r {
        Record::RowAt(_, _) => before,
        Record::ColAt(_, p) => match p {
            ColPacket::Nocop { mask: _ } => before,
            ColPacket::Wr { bank, column, .. } => Latest { bank, column },
            ColPacket::Rd { .. } => before,
        },
        Record::DataOf(_, _) => before,
    }
}

fn put_row_line(out: &mut [u8], at: usize, instant: u32, p: RowPacket) -> usize
    requires { at + line_room ≤ length out.old }
    ensures { Put out.old at (row_line instant p) out.new result × (result ≤ at + line_room) }
{
    match p {
        RowPacket::Act { bank, row } => put_line(out, at, instant, b"ACT", bank, row, FULL),
        RowPacket::Prer { bank } => put_line(out, at, instant, b"PRER", bank, 0, FULL),
        RowPacket::Refa { bank } => put_line(out, at, instant, b"REFA", bank, 0, FULL),
        RowPacket::Refp { bank } => put_line(out, at, instant, b"REFP", bank, 0, FULL),
    }
}

// How many letters of WRA or RDA are the name of the packet: the A stands where it closes its bank.
fn letters(close: bool) -> usize
    ensures { (result ≡ cond close 3 2) × (result ≤ 3) }
{
    if close { 3 } else { 2 }
}

fn put_col_line(out: &mut [u8], at: usize, instant: u32, p: ColPacket) -> usize
    requires { at + line_room ≤ length out.old }
    ensures { Put out.old at (col_line instant p) out.new result × (result ≤ at + line_room) }
{
    match p {
        ColPacket::Nocop { mask } => put_line(out, at, instant, b"NOCOP", 0, 0, mask),
        ColPacket::Wr {
            bank,
            column,
            mask,
            close,
        } => {
            let name: &[u8] = b"WRA";
            let n = letters(close);
            put_line(out, at, instant, &name[..n], bank, column, mask)
        }
        ColPacket::Rd {
            bank,
            column,
            mask,
            close,
        } => {
            let name: &[u8] = b"RDA";
            let n = letters(close);
            put_line(out, at, instant, &name[..n], bank, column, mask)
        }
    }
}

// Puts the line of a record; D shows the bank and column of its WR, which are given.
fn put_record_line(out: &mut [u8], at: usize, r: Record, bank: u32, column: u32) -> usize
    requires { at + line_room ≤ length out.old }
    ensures { Put out.old at (record_line bank column r) out.new result × (result ≤ at + line_room) }
{
    match r {
        Record::RowAt(t, p) => put_row_line(out, at, t.0, p),
        Record::ColAt(t, p) => put_col_line(out, at, t.0, p),
        Record::DataOf(t, _) => put_line(out, at, t.0, b"D", bank, column, FULL),
    }
}

// The record from a place on; bytes that are none give some record.
fn record_at(s: Settings, b: &[u8], at: usize) -> Record
    requires { at + 32 ≤ length b.now }
    ensures { result ≡ known (record_read s (part b.now at 32)) }
{
    match record_bytes::read_record(s, b, at) {
        None => Record::DataOf(DataAt(0), Dualoct { dqa: 0, dqb: 0 }),
        Some(r) => r,
    }
}

// Where the lines of records end, and the latest WR or WRA after them.
#[derive(Clone, Copy)]
pub struct Lines {
    pub end: usize,
    pub latest: Latest,
}

// Puts the lines of the first n records of a buffer, which come after others.
pub fn put_lines(out: &mut [u8], at: usize, room: &[u8], n: usize, before: Latest) -> Lines
    requires { (32 * n ≤ length room.now) × (at + line_room * n ≤ length out.old) }
    ensures put { Put out.old at (record_lines before.bank before.column (records_up_to set_h room.now n)) out.new result.end × (result.end ≤ at + line_room * n) }
    ensures bank_value { (result.latest.bank ≡ write_bank_after before.bank (records_up_to set_h room.now n)) × (result.latest.column ≡ write_column_after before.column (records_up_to set_h room.now n)) }
{
    let s = set_h();
    let mut latest = before;
    let mut end = at;
    for i in 0..n {
        let r = record_at(s, room, 32 * i);
        end = put_record_line(out, end, r, latest.bank, latest.column);
        latest = latest_after(r, latest);
    }
    Lines { end, latest }
}
