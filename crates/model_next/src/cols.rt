// What a COL packet and its D change.
ghost use Rattle.std.specs.Prelude.{true, ◌≡◌, ◌<◌, ◌≤◌, ◌^◌, get_or};
ghost use Rattle.packet.specs.Col.{col_fits};
ghost use Rattle.spec_state.specs.Form.Stores.{col_stored, rd_stored};
ghost use Rattle.model_next.specs.Form.Next.{HeldIn, leaves_at, implied_next, out_next, left_next, left_count, joined, join_next, col_next, data_next};

use model_store::dualocts::put_dualoct;
use num::{u16_at, u32_at};
use packet::ColPacket;
use record::Dualoct;
use settings::Settings;
use spec_model::ModelBytes;
use state_bytes::models::second_at;
use state_bytes::stores::cols::{
    store_beside, store_col, store_data, store_rd, store_retire, store_shift, store_write,
};
use state_bytes::stores::rows::store_implied;

// Whether the older write leaves at a stored instant.
fn leaves_at(s: Settings, b: &ModelBytes, t: u64) -> bool
    ensures { result ≡ leaves_at s b.now t }
{
    (b[728] != 0) & (u64::from(u32_at(b, 740)) + u64::from(s.rtr) <= t)
}

// An implied PRER to a bank whose neighbours are closed, tOFFP after t, where there is one.
fn put_implied(s: Settings, b: &mut ModelBytes, implied: bool, x: usize, t: u64)
    requires x_bound { x < 32 }
    requires t_bound { t < 2 ^ 32 }
    ensures { b.new ≡ implied_next s b.old implied x t }
{
    if implied {
        store_implied(b, x, t + u64::from(s.offp));
    }
}

// The older of so many writes is retired: the newer and its data move up, and a WRA closes its bank.
fn put_out(s: Settings, b: &mut ModelBytes, count: u64, t: u64)
    requires b_bound { get_or b.old 736 0 < 32 }
    requires le_count { 1 ≤ count }
    requires count_value { count ≡ get_or b.old 728 0 }
    requires t_bound { t < 2 ^ 32 }
    ensures { b.new ≡ out_next s b.old t }
{
    let h = usize::from(b[736]);
    let closes = u16_at(b, 738) == 1;
    let data = second_at(b);
    store_retire(b, h, t);
    store_shift(b, count - 1);
    put_dualoct(b, 760, data);
    put_implied(s, b, closes, h, t);
}

// The same, if it leaves. How many then wait.
fn put_left(s: Settings, b: &mut ModelBytes, t: u64) -> u64
    requires held_in { HeldIn b.old }
    requires t_bound { t < 2 ^ 32 }
    ensures value { result ≡ left_count s b.old t }
    ensures b_after { b.new ≡ left_next s b.old t }
{
    let count = u64::from(b[728]);
    if !leaves_at(s, b, t) {
        return count;
    }
    put_out(s, b, count, t);
    count - 1
}

// A write where so many wait, its data due: alone, or beside another.
fn put_join(b: &mut ModelBytes, left: u64, bank: u32, column: u32, close: bool, t: u64)
    requires bank_bound { bank < 256 }
    requires column_bound { column < 256 }
    requires t_bound { t < 2 ^ 32 }
    ensures { b.new ≡ joined b.old left bank column close t }
{
    if left == 0 {
        store_write(b, 257, bank, column, close, t);
    } else {
        store_beside(b, 258, bank, column, close, t);
    }
}

// WR.
fn put_wr(s: Settings, b: &mut ModelBytes, bank: u32, column: u32, close: bool, t: u64)
    requires held_in { HeldIn b.old }
    requires bank_bound { bank < 256 }
    requires column_bound { column < 256 }
    requires t_bound { t < 2 ^ 32 }
    ensures { b.new ≡ col_stored (join_next s b.old bank column close t) t }
{
    let left = put_left(s, b, t);
    put_join(b, left, bank, column, close, t);
    store_col(b, t);
}

// NOCOP.
fn put_nocop(s: Settings, b: &mut ModelBytes, t: u64)
    requires held_in { HeldIn b.old }
    requires t_bound { t < 2 ^ 32 }
    ensures { b.new ≡ col_stored (left_next s b.old t) t }
{
    put_left(s, b, t);
    store_col(b, t);
}

// RD, and the PRER that an RDA implies.
fn put_rd(s: Settings, b: &mut ModelBytes, bank: u32, close: bool, t: u64)
    requires bank_bound { bank < 32 }
    requires t_bound { t < 2 ^ 32 }
    ensures { b.new ≡ implied_next s (rd_stored b.old bank t) close bank t }
{
    let x = bank as usize;
    store_rd(b, x, t);
    put_implied(s, b, close, x, t);
}

// Any COL packet.
pub(crate) fn put_col(s: Settings, b: &mut ModelBytes, p: ColPacket, t: u64)
    requires held_in { HeldIn b.old }
    requires p_value { col_fits 256 p ≡ true }
    requires t_bound { t < 2 ^ 32 }
    ensures { b.new ≡ col_next s b.old p t }
{
    match p {
        ColPacket::Nocop { mask: _ } => put_nocop(s, b, t),
        ColPacket::Wr {
            bank,
            column,
            mask: _,
            close,
        } => put_wr(s, b, bank, column, close, t),
        ColPacket::Rd { bank, close, .. } => put_rd(s, b, bank, close, t),
    }
}

// The data of the newest write.
pub(crate) fn put_data(b: &mut ModelBytes, d: Dualoct)
    ensures { b.new ≡ data_next b.old d }
{
    let count = u64::from(b[728]);
    store_data(b, count);
    if count == 2 {
        put_dualoct(b, 776, d);
    } else {
        put_dualoct(b, 760, d);
    }
}
