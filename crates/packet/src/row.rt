// Words of ROW packets.
ghost use Rattle.std.specs.Prelude.{◌≡◌, ◌^◌, ◌<◌};
ghost use Rattle.packet.specs.Row.{device_head, row_fields, row_word, row_fits, row_coded, row_of, row_decoded};

use crate::RowPacket;

// Opcodes by command: PRER, REFA, REFP.
const ROP: [u32; 3] = [0x600, 0x0C0, 0x540];

// DR4T, DR4F and DR3 to DR0.
fn device_head(device: u32) -> u64
    ensures { (result ≡ device_head device) × (result < 2 ^ 6) }
{
    let low = u64::from(device % 16);
    if device < 16 { 16 + low } else { 32 + low }
}

// The word with these fields; in 64 bits no sum of 32-bit fields wraps.
fn row_fields(device: u32, bank: u32, av: u32, low: u32) -> u64
    ensures { result ≡ row_fields device bank av low }
{
    device_head(device) * 262144 + u64::from(bank) * 8192 + u64::from(av) * 4096 + u64::from(low)
}

// The word of a ROW packet, whether or not the packet fits the settings.
pub fn row_word(device: u32, p: RowPacket) -> u64
    ensures { result ≡ row_word device p }
{
    match p {
        RowPacket::Act { bank, row } => row_fields(device, bank, 1, row),
        RowPacket::Prer { bank } => row_fields(device, bank, 0, ROP[0]),
        RowPacket::Refa { bank } => row_fields(device, bank, 0, ROP[1]),
        RowPacket::Refp { bank } => row_fields(device, bank, 0, ROP[2]),
    }
}

// Whether a ROW packet has a word under the settings.
fn row_fits(rows: u32, p: RowPacket) -> bool
    ensures { result ≡ row_fits rows p }
{
    match p {
        RowPacket::Act { bank, row } => bank < 32 && row < rows,
        RowPacket::Prer { bank } => bank < 32,
        RowPacket::Refa { bank } => bank < 32,
        RowPacket::Refp { bank } => bank < 32,
    }
}

// The word of a ROW packet, where it has one under the settings.
pub fn encode_row(device: u32, rows: u32, p: RowPacket) -> Option<u64>
    ensures { result ≡ row_coded device rows p }
{
    if row_fits(rows, p) {
        Some(row_word(device, p))
    } else {
        None
    }
}

// The packet of an opcode.
fn row_of(bank: u32, rop: u32) -> Option<RowPacket>
    ensures { result ≡ row_of bank rop }
{
    if rop == ROP[0] {
        return Some(RowPacket::Prer { bank });
    }
    if rop == ROP[1] {
        return Some(RowPacket::Refa { bank });
    }
    if rop == ROP[2] {
        return Some(RowPacket::Refp { bank });
    }
    None
}

// The packet of a ROW word under the settings.
pub fn decode_row(device: u32, rows: u32, w: u64) -> Option<RowPacket>
    ensures { result ≡ row_decoded device rows w }
{
    if w / 262144 != device_head(device) {
        return None;
    }
    let bank = (w / 8192 % 32) as u32;
    let low = (w % 4096) as u32;
    if w / 4096 % 2 != 1 {
        return row_of(bank, low);
    }
    if low < rows {
        return Some(RowPacket::Act { bank, row: low });
    }
    None
}
