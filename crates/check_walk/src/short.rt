// Records that the walk knows by their numbers, without a Record between: an RD that has no mask and closes no bank, and data.
ghost use Rattle.std.specs.Prelude.{◌≡◌, true, ◌&&◌, ◌+◌, ◌<◌, ◌≤◌, eqb, leb, length};
ghost use Rattle.num.specs.Bytes.{part};
ghost use Rattle.packet.specs.Col.{col_decoded};
ghost use Rattle.record.specs.Record.{record_read};
ghost use Rattle.chan_view.specs.Form.View.{held_of};
ghost use Rattle.chan_judge.specs.Form.Tests.{data_rule};
ghost use Rattle.check_walk.specs.Form.Short.{fields_at, empty_at, bank_in, read_packet, read_record, data_record, reads_beside, reads_now, read_lasts};

use crate::Fields;
use chan_judge::data_rule;
use chan_view::banks::is_open;
use chan_view::views::held_of;
use settings::{DataAt, HORIZON_WIDE, PacketAt, Settings};
use spec_rules::{BankTrack, Buffer, LastInstants};

// The numbers of the record at a place.
pub(crate) fn fields_at(b: &[u8], at: usize) -> Fields
    requires { at + 32 ≤ length b.now }
    ensures { result ≡ fields_at b.now at }
{
    Fields {
        at: PacketAt(num::u32_at(b, at)),
        head: num::u32_at(b, at + 4),
        word: num::u64_at(b, at + 8),
    }
}

fn no_data(b: &[u8], at: usize) -> bool
    requires { at + 32 ≤ length b.now }
    ensures { result ≡ empty_at b.now at }
{
    let dqa = num::u64_at(b, at + 16);
    let dqb = num::u64_at(b, at + 24);
    (dqa == 0) & (dqb == 0)
}

// The bank that a COL word names.
pub(crate) fn bank_in(word: u64) -> usize
    ensures { (result ≡ bank_in word) × (result < 32) }
{
    (word / 0x2000_0000 % 32) as usize
}

// Whether a word is that of an RD with M = 0: it is made anew from its bank and column and compared.
fn read_word(s: Settings, word: u64) -> bool
    ensures { result ≡ true → col_decoded s.device s.columns word ≡ Some (read_packet word) }
{
    if s.device >= 32 {
        return false;
    }
    let device = u64::from(s.device);
    let bank = word / 0x2000_0000 % 32;
    let column = word / 0x20_0000 % 128;
    let head = (32 + device) * 0x4_0000_0000 + 3 * 0x2_0000 + device * 2048;
    (word == head + bank * 0x2000_0000 + column * 0x20_0000) & (column < u64::from(s.columns))
}

// Whether the record at a place, of these numbers, is an RD with M = 0.
pub(crate) fn is_read(s: Settings, b: &[u8], at: usize, f: Fields) -> bool
    requires { (at + 32 ≤ length b.now) × (f ≡ fields_at b.now at) }
    ensures { result ≡ true → record_read s (part b.now at 32) ≡ Some (read_record f) }
{
    if f.head != 1 {
        return false;
    }
    if !read_word(s, f.word) {
        return false;
    }
    no_data(b, at)
}

// Whether the record at a place is data.
pub(crate) fn is_data(s: Settings, b: &[u8], at: usize) -> bool
    requires { at + 32 ≤ length b.now }
    ensures { result ≡ true → record_read s (part b.now at 32) ≡ Some (data_record b.now at) }
{
    let head = num::u32_at(b, at + 4);
    let word = num::u64_at(b, at + 8);
    (head == 2) & (word == 0)
}

// Whether an instant is so long after an earlier one.
fn is_after(last: PacketAt, gap: u32, at: PacketAt) -> bool
    ensures { result ≡ leb (last.0 + gap) at.0 }
{
    u64::from(last.0) + u64::from(gap) <= u64::from(at.0)
}

// Whether an RD may come beside the waiting writes.
fn reads_beside(b: Buffer, due: bool) -> bool
    ensures { result ≡ reads_beside b due }
{
    match b {
        Buffer::Empty => true,
        Buffer::One(x) => !(due | x.close),
        Buffer::Two(_, _) => false,
    }
}

// Whether an RD at an instant breaks no rule, beside these writes and to this bank. It asks more than the rules do of a packet before
// which no COL packet came: that one is judged by the rules.
pub(crate) fn reads_now(
    s: Settings,
    at: PacketAt,
    l: LastInstants,
    b: Buffer,
    due: bool,
    own: BankTrack,
) -> bool
    ensures { result ≡ (reads_beside b due && reads_now s at l own) }
{
    let ranged = (4 <= at.0) & (u64::from(at.0) + u64::from(s.cac) <= HORIZON_WIDE);
    let order = (l.packet.0 <= at.0) & is_after(l.col, s.cc, at);
    let row = is_open(own) & is_after(own.act, s.rcd, at);
    reads_beside(b, due) & (ranged & (order & row))
}

// Whether data at an instant break no rule.
pub(crate) fn data_now(s: Settings, at: PacketAt, b: Buffer, due: bool) -> bool
    ensures { result ≡ eqb (data_rule s (held_of b due) (record { 0 = at.0 })) 0 }
{
    data_rule(s, held_of(b, due), DataAt(at.0)) == 0
}

// The last instants after an RD.
pub(crate) fn read_lasts(at: PacketAt, l: LastInstants) -> LastInstants
    ensures { result ≡ read_lasts at l }
{
    LastInstants {
        packet: at,
        col: at,
        rd: at,
        ..l
    }
}
