// The marks of one record on a page.
ghost use Rattle.std.specs.Prelude.{◌≡◌, List, ◌∷◌, ◌+◌, ◌<◌, ◌^◌};
ghost use Rattle.record.specs.declared.Record.{Record};
ghost use Rattle.record.specs.declared.Record.TheVariants.{ColAt};
ghost use Rattle.spec_page.specs.Page.{row_letter, col_letter, page};
ghost use Rattle.calls_page.specs.Form.Paint.{Painted};

use crate::PageBytes;
use packet::{ColPacket, RowPacket};
use record::Record;
use settings::{PacketAt, Settings};

// The lines of a page from the top.
const ROW: usize = 0;

const COL: usize = 1;

const DQ: usize = 2;

fn row_letter(p: RowPacket) -> u8
    ensures { result ≡ row_letter p }
{
    match p {
        RowPacket::Act { .. } => b'A',
        RowPacket::Prer { .. } => b'P',
        RowPacket::Refa { .. } => b'F',
        RowPacket::Refp { .. } => b'E',
    }
}

fn col_letter(p: ColPacket) -> u8
    ensures { result ≡ col_letter p }
{
    match p {
        ColPacket::Nocop { .. } => b'N',
        ColPacket::Wr { .. } => b'W',
        ColPacket::Rd { .. } => b'R',
    }
}

// Puts a letter at the cycle four before an instant, where the page has this cycle.
fn put_cycle(out: &mut PageBytes, line: usize, start: u32, t: u64, letter: u8)
    requires { line < 3 }
    ensures { Painted line start t 1 letter out.old out.new }
{
    let start = u64::from(start);
    if t < start + 4 {
        return;
    }
    let k = t - (start + 4);
    if k < 64 {
        out[73 * line + 8 + k as usize] = letter;
    }
}

// Puts a letter at those of the four cycles before an instant that the page has.
fn put_mark(out: &mut PageBytes, line: usize, start: u32, t: u64, letter: u8)
    requires { (line < 3) × (t < 2 ^ 34) }
    ensures { Painted line start t 4 letter out.old out.new }
{
    for j in 0..4 {
        put_cycle(out, line, start, t + j, letter);
    }
}

// A COL packet, and the data of an RD.
fn draw_col(s: Settings, out: &mut PageBytes, start: u32, t: PacketAt, p: ColPacket)
    ensures { (rs : List Record) → out.old ≡ page s rs start → out.new ≡ page s (ColAt t p ∷ rs) start }
{
    put_mark(out, COL, start, u64::from(t.0), col_letter(p));
    match p {
        ColPacket::Nocop { .. } => {}
        ColPacket::Wr { .. } => {}
        ColPacket::Rd { .. } => {
            put_mark(out, DQ, start, u64::from(t.0) + u64::from(s.cac) + 4, b'Q')
        }
    }
}

// A record.
pub fn draw_record(s: Settings, out: &mut PageBytes, start: u32, r: Record)
    ensures { (rs : List Record) → out.old ≡ page s rs start → out.new ≡ page s (r ∷ rs) start }
{
    match r {
        Record::RowAt(t, p) => put_mark(out, ROW, start, u64::from(t.0), row_letter(p)),
        Record::ColAt(t, p) => draw_col(s, out, start, t, p),
        Record::DataOf(t, _) => put_mark(out, DQ, start, u64::from(t.0) + 4, b'D'),
    }
}
