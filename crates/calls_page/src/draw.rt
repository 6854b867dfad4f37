// Draws a page of the channel (document 02, request k): a blank one, then the marks of each record that lie inside.
pub mod marks;

ghost use Rattle.std.specs.Prelude.{◌≡◌, [], ◌<◌};
ghost use Rattle.settings.specs.declared.Settings.{Settings};
ghost use Rattle.record.specs.Record.{first_bad, records_in};
ghost use Rattle.spec_check.specs.Check.{records_of};
ghost use Rattle.spec_page.specs.Page.{page, page_bytes};
ghost use Rattle.spec_page.specs.Form.Bytes.{byte_by};
ghost use Rattle.calls_page.specs.Form.Paint.{blank};

use crate::PageBytes;
use crate::draw::marks::draw_record;
use record_bytes::read_record;
use settings::Settings;

// Byte i of a page without records.
fn blank_byte(start: u32, i: usize) -> u8
    requires { i < page_bytes }
    ensures { result ≡ byte_by blank start i }
{
    let start = u64::from(start);
    let n = i / 73;
    let k = i % 73;
    if k < 8 {
        let names: &[u8] = b"ROW     COL     DQ              ";
        return names[8 * n + k];
    }
    if k >= 72 {
        return b'\n';
    }
    if n < 3 {
        return b'.';
    }
    if (start + (k as u64 - 8)) % 8 == 0 {
        return b'|';
    }
    b' '
}

// A page without records.
fn put_blank(out: &mut PageBytes, start: u32)
    ensures { (s : Settings) → out.new ≡ page s [] start }
{
    for (i, byte) in out.iter_mut().enumerate() {
        *byte = blank_byte(start, i);
    }
}

// The page of a list of well formed records from cycle `start` on. Records are taken from the last to the first, in one pass.
pub fn draw(s: Settings, list: &[u8], start: u32, out: &mut PageBytes)
    requires list_value { first_bad s list.now ≡ records_in list.now }
    ensures { out.new ≡ page s (records_of s list.now) start }
{
    put_blank(out, start);
    for i in (0..list.len() / 32).rev() {
        match read_record(s, list, 32 * i) {
            None => {}
            Some(r) => draw_record(s, out, start, r),
        }
    }
}
