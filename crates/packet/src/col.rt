// Words of COL packets.
ghost use Rattle.std.specs.Prelude.{◌≡◌, cond, ◌&&◌, ◌+◌, ◌/◌, ◌%◌, ◌^◌, ◌<◌, eqb, ltb};
ghost use Rattle.packet.specs.Col.{mask_bit, mask_field, col_fields, close_bit, col_word, col_fits, col_coded, mask_said, mask_of, col_of, col_decoded};

use crate::{ColPacket, FULL};

// Opcodes by command: NOCOP, WR, RD. A WR or RD that closes its bank (WRA, RDA) has bit 2 too.
const COP: [u32; 3] = [0, 1, 3];

const CLOSE_BIT: u32 = 4;

// The lowest bit of each field; the gap is the zero below the bank, and the device stands again where M = 0.
const S_BIT: u64 = 0x80_0000_0000;

const DEVICE_BIT: u64 = 0x4_0000_0000;

const BANK_BIT: u64 = 0x2000_0000;

const GAP_BIT: u64 = 0x1000_0000;

const COLUMN_BIT: u64 = 0x20_0000;

const COP_BIT: u64 = 0x2_0000;

const M_BIT: u64 = 0x1_0000;

const AGAIN_BIT: u64 = 0x800;

// M.
fn mask_bit(mask: u32) -> u64
    ensures { (result ≡ mask_bit mask) × (result < 2) }
{
    if mask == FULL { 0 } else { 1 }
}

// The bits below M: the mask, or the device again where M = 0.
fn mask_field(device: u32, mask: u32) -> u64
    ensures { (result ≡ mask_field device mask) × (result < 2 ^ 43) }
{
    if mask == FULL {
        u64::from(device) * AGAIN_BIT
    } else {
        u64::from(mask)
    }
}

// The word with these fields; under 32 devices no sum of 32-bit fields wraps.
fn col_fields(device: u32, bank: u32, column: u32, cop: u32, mask: u32) -> u64
    requires { device < 32 }
    ensures { result ≡ col_fields device bank column cop (mask_bit mask) (mask_field device mask) }
{
    let top = S_BIT + u64::from(device) * DEVICE_BIT + u64::from(bank) * BANK_BIT;
    let middle = u64::from(column) * COLUMN_BIT + u64::from(cop) * COP_BIT;
    top + middle + mask_bit(mask) * M_BIT + mask_field(device, mask)
}

// The opcode of WR or RD, or of the one that closes its bank.
fn access_cop(plain: u32, close: bool) -> u32
    requires { plain < 4 }
    ensures { result ≡ plain + close_bit close }
{
    if close { plain + CLOSE_BIT } else { plain }
}

// The word of a COL packet, whether or not the packet fits the settings.
pub fn col_word(device: u32, p: ColPacket) -> u64
    requires { device < 32 }
    ensures { result ≡ col_word device p }
{
    match p {
        ColPacket::Nocop { mask } => col_fields(device, 0, 0, COP[0], mask),
        ColPacket::Wr {
            bank,
            column,
            mask,
            close,
        } => col_fields(device, bank, column, access_cop(COP[1], close), mask),
        ColPacket::Rd {
            bank,
            column,
            mask,
            close,
        } => col_fields(device, bank, column, access_cop(COP[2], close), mask),
    }
}

// Whether WR or RD may have these fields under the settings.
fn access_fits(columns: u32, bank: u32, column: u32, mask: u32) -> bool
    ensures { result ≡ (ltb bank 32 && (ltb column columns && ltb mask (2 ^ 16))) }
{
    bank < 32 && column < columns && mask < 65536
}

// Whether a COL packet has a word under the settings.
fn col_fits(columns: u32, p: ColPacket) -> bool
    ensures { result ≡ col_fits columns p }
{
    match p {
        ColPacket::Nocop { mask } => mask < 65536,
        ColPacket::Wr {
            bank,
            column,
            mask,
            ..
        } => access_fits(columns, bank, column, mask),
        ColPacket::Rd {
            bank,
            column,
            mask,
            ..
        } => access_fits(columns, bank, column, mask),
    }
}

// The word of a COL packet, where it has one under the settings.
pub fn encode_col(device: u32, columns: u32, p: ColPacket) -> Option<u64>
    requires { device < 32 }
    ensures { result ≡ col_coded device columns p }
{
    if col_fits(columns, p) {
        Some(col_word(device, p))
    } else {
        None
    }
}

// Whether S is 1, the device is this one, and the bit below the bank is 0.
fn head_fits(device: u32, w: u64) -> bool
    ensures { result ≡ (eqb (w / 2 ^ 34) (2 ^ 5 + device) && eqb (w / 2 ^ 28 % 2) 0) }
{
    w / DEVICE_BIT == 32 + u64::from(device) && w / GAP_BIT % 2 == 0
}

// Whether M and the bits below it say a mask.
fn mask_said(device: u32, m: u32, low: u32) -> bool
    ensures { result ≡ mask_said device m low }
{
    if m == 1 {
        low < FULL
    } else {
        u64::from(low) == u64::from(device) * AGAIN_BIT
    }
}

// The mask that M and the bits below it say.
fn mask_of(m: u32, low: u32) -> u32
    ensures { result ≡ mask_of m low }
{
    if m == 1 { low } else { FULL }
}

// NOCOP, which has bank and column 0.
fn nocop_of(bank: u32, column: u32, mask: u32) -> Option<ColPacket>
    ensures { result ≡ cond (eqb bank 0 && eqb column 0) (Some (ColPacket.Nocop mask)) None }
{
    if bank == 0 && column == 0 {
        Some(ColPacket::Nocop { mask })
    } else {
        None
    }
}

// WR or WRA. One function for each of the two variants, since a variant with named fields is no function that could be handed on.
fn wr_of(bank: u32, column: u32, mask: u32, close: bool) -> Option<ColPacket>
    ensures { result ≡ Some (ColPacket.Wr bank column mask close) }
{
    Some(ColPacket::Wr {
        bank,
        column,
        mask,
        close,
    })
}

// RD or RDA.
fn rd_of(bank: u32, column: u32, mask: u32, close: bool) -> Option<ColPacket>
    ensures { result ≡ Some (ColPacket.Rd bank column mask close) }
{
    Some(ColPacket::Rd {
        bank,
        column,
        mask,
        close,
    })
}

// The packet of an opcode.
fn col_of(columns: u32, bank: u32, column: u32, cop: u32, mask: u32) -> Option<ColPacket>
    ensures { result ≡ col_of columns bank column cop mask }
{
    if cop == COP[0] {
        return nocop_of(bank, column, mask);
    }
    if column >= columns {
        return None;
    }
    if cop == COP[1] {
        return wr_of(bank, column, mask, false);
    }
    if cop == COP[1] + CLOSE_BIT {
        return wr_of(bank, column, mask, true);
    }
    if cop == COP[2] {
        return rd_of(bank, column, mask, false);
    }
    if cop == COP[2] + CLOSE_BIT {
        return rd_of(bank, column, mask, true);
    }
    None
}

// The packet of a COL word under the settings.
pub fn decode_col(device: u32, columns: u32, w: u64) -> Option<ColPacket>
    ensures { result ≡ col_decoded device columns w }
{
    let m = (w / M_BIT % 2) as u32;
    let low = (w % M_BIT) as u32;
    if !head_fits(device, w) {
        return None;
    }
    if !mask_said(device, m, low) {
        return None;
    }
    let bank = (w / BANK_BIT % 32) as u32;
    let column = (w / COLUMN_BIT % 128) as u32;
    let cop = (w / COP_BIT % 16) as u32;
    col_of(columns, bank, column, cop, mask_of(m, low))
}
