// Packet words in numbers, as C callers give and take them.
#![tactic(auto)]

ghost use Rattle.std.specs.Prelude.{◌≡◌, cond, ◌+◌, ◌<◌};
ghost use Rattle.calls_word.specs.Words.{fields_right, row_command, col_command, command_coded, no_word_answer, why_no_word, word_answer, word_encode_call, row_numbers, col_numbers, no_packet, row_answer, col_answer, packet_answer, word_decode_call};

use packet::{ColPacket, RowPacket};
use record::Refusal;
use settings::Settings;
use settings::read::read_settings;

// The word of a packet: number is 0, or the refusal's and word 0.
#[repr(C)]
#[derive(Clone, Copy)]
pub struct WordAnswer {
    pub number: u32,
    pub word: u64,
}

// The packet of a word: number is 0, or the refusal's and the rest 0.
#[repr(C)]
#[derive(Clone, Copy)]
pub struct PacketAnswer {
    pub number: u32,
    pub command: u32,
    pub bank: u32,
    pub place: u32,
    pub mask: u32,
}

const ZEROS: PacketAnswer = PacketAnswer {
    number: 0,
    command: 0,
    bank: 0,
    place: 0,
    mask: 0,
};

// Whether a command is one, and the fields that it does not use are 0. A command stays a number, as the definitions have it: an enum
// would be one more form of the packets that are made of it.
fn fields_right(command: u32, bank: u32, place: u32, mask: u32) -> bool
    ensures { result ≡ fields_right command bank place mask }
{
    match command {
        0 => mask == 0,
        1..=3 => (place == 0) & (mask == 0),
        4 => (bank == 0) & (place == 0),
        _ => command <= 8,
    }
}

fn row_command(command: u32, bank: u32, place: u32) -> RowPacket
    ensures { result ≡ row_command command bank place }
{
    match command {
        0 => RowPacket::Act { bank, row: place },
        1 => RowPacket::Prer { bank },
        2 => RowPacket::Refa { bank },
        _ => RowPacket::Refp { bank },
    }
}

// The COL packet of a command; WRA and RDA, from 7 on, close their bank.
fn col_command(command: u32, bank: u32, place: u32, mask: u32) -> ColPacket
    ensures { result ≡ col_command command bank place mask }
{
    let column = place;
    let close = 7 <= command;
    match command {
        4 => ColPacket::Nocop { mask },
        5 | 7 => ColPacket::Wr {
            bank,
            column,
            mask,
            close,
        },
        _ => ColPacket::Rd {
            bank,
            column,
            mask,
            close,
        },
    }
}

// The word of a command with these fields, where it has one under the settings.
fn command_coded(s: Settings, command: u32, bank: u32, place: u32, mask: u32) -> Option<u64>
    requires { s.device < 32 }
    ensures { result ≡ command_coded s command bank place mask }
{
    if fields_right(command, bank, place, mask) {
        if command <= 3 {
            return packet::row::encode_row(s.device, s.rows, row_command(command, bank, place));
        }
        return packet::col::encode_col(
            s.device,
            s.columns,
            col_command(command, bank, place, mask),
        );
    }
    None
}

impl From<Refusal> for WordAnswer {
    ghost from_gives = { λ why a. a ≡ no_word_answer why };

    fn from(why: Refusal) -> WordAnswer {
        WordAnswer {
            number: why.answer().number,
            word: 0,
        }
    }
}

// Why a command with these fields has no word.
fn why_no_word(s: Settings, command: u32, bank: u32, place: u32) -> Refusal
    ensures { result ≡ why_no_word s command bank place }
{
    if 31 < bank {
        return Refusal::Bank;
    }
    if (command == 0) & (s.rows <= place) {
        return Refusal::Row;
    }
    let column = (5 <= command) & (command <= 8);
    if column & (s.columns <= place) {
        return Refusal::Column;
    }
    Refusal::Word(0)
}

fn word_answer(why: Refusal, c: Option<u64>) -> WordAnswer
    ensures { result ≡ word_answer why c }
{
    match c {
        None => WordAnswer::from(why),
        Some(w) => WordAnswer { number: 0, word: w },
    }
}

impl From<RowPacket> for PacketAnswer {
    ghost from_gives = { λ p a. a ≡ row_numbers p };

    fn from(p: RowPacket) -> PacketAnswer {
        match p {
            RowPacket::Act { bank, row } => PacketAnswer {
                bank,
                place: row,
                ..ZEROS
            },
            RowPacket::Prer { bank } => PacketAnswer {
                command: 1,
                bank,
                ..ZEROS
            },
            RowPacket::Refa { bank } => PacketAnswer {
                command: 2,
                bank,
                ..ZEROS
            },
            RowPacket::Refp { bank } => PacketAnswer {
                command: 3,
                bank,
                ..ZEROS
            },
        }
    }
}

// The number of WR or RD, or of the one that closes its bank.
fn access_command(plain: u32, close: bool) -> u32
    requires { plain < 7 }
    ensures { result ≡ cond close (plain + 2) plain }
{
    if close { plain + 2 } else { plain }
}

impl From<ColPacket> for PacketAnswer {
    ghost from_gives = { λ p a. a ≡ col_numbers p };

    fn from(p: ColPacket) -> PacketAnswer {
        match p {
            ColPacket::Nocop { mask } => PacketAnswer {
                command: 4,
                mask,
                ..ZEROS
            },
            ColPacket::Wr {
                bank,
                column,
                mask,
                close,
            } => PacketAnswer {
                number: 0,
                command: access_command(5, close),
                bank,
                place: column,
                mask,
            },
            ColPacket::Rd {
                bank,
                column,
                mask,
                close,
            } => PacketAnswer {
                number: 0,
                command: access_command(6, close),
                bank,
                place: column,
                mask,
            },
        }
    }
}

impl From<Refusal> for PacketAnswer {
    ghost from_gives = { λ why a. a ≡ no_packet why };

    fn from(why: Refusal) -> PacketAnswer {
        PacketAnswer {
            number: why.answer().number,
            ..ZEROS
        }
    }
}

// For a ROW word, and below for a COL word: the packets are of two types.
fn row_answer(d: Option<RowPacket>) -> PacketAnswer
    ensures { result ≡ row_answer d }
{
    match d {
        None => PacketAnswer::from(Refusal::Word(0)),
        Some(p) => PacketAnswer::from(p),
    }
}

fn col_answer(d: Option<ColPacket>) -> PacketAnswer
    ensures { result ≡ col_answer d }
{
    match d {
        None => PacketAnswer::from(Refusal::Word(0)),
        Some(p) => PacketAnswer::from(p),
    }
}

fn packet_answer(s: Settings, kind: u32, word: u64) -> PacketAnswer
    ensures { result ≡ packet_answer s kind word }
{
    if kind == 0 {
        return row_answer(packet::row::decode_row(s.device, s.rows, word));
    }
    if kind == 1 {
        return col_answer(packet::col::decode_col(s.device, s.columns, word));
    }
    PacketAnswer::from(Refusal::Word(0))
}

// The word of a packet under settings as bytes.
pub fn encode_by(settings: &[u8], command: u32, bank: u32, place: u32, mask: u32) -> WordAnswer
    ensures { result ≡ word_encode_call settings.now command bank place mask }
{
    let Some(s) = read_settings(settings) else {
        return WordAnswer::from(Refusal::Settings);
    };
    let why = why_no_word(s, command, bank, place);
    word_answer(why, command_coded(s, command, bank, place, mask))
}

// The packet of a word under settings as bytes; kind 0 is ROW, 1 COL.
pub fn decode_by(settings: &[u8], kind: u32, word: u64) -> PacketAnswer
    ensures { result ≡ word_decode_call settings.now kind word }
{
    let Some(s) = read_settings(settings) else {
        return PacketAnswer::from(Refusal::Settings);
    };
    packet_answer(s, kind, word)
}
