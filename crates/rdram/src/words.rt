// Packet words.
ghost use Rattle.std.specs.Prelude.{◌≡◌};
ghost use Rattle.calls_word.specs.Words.{word_encode_call, word_decode_call};

use calls_word::{PacketAnswer, WordAnswer};

// The word of a packet under the settings.
#[unsafe(no_mangle)]
pub extern "C" fn rdram_word_encode(
    settings: &[u8],
    command: u32,
    bank: u32,
    place: u32,
    mask: u32,
) -> WordAnswer
    ensures { result ≡ word_encode_call settings.now command bank place mask }
{
    calls_word::encode_by(settings, command, bank, place, mask)
}

// The packet of a word under the settings; kind 0 is ROW, 1 COL.
#[unsafe(no_mangle)]
pub extern "C" fn rdram_word_decode(settings: &[u8], kind: u32, word: u64) -> PacketAnswer
    ensures { result ≡ word_decode_call settings.now kind word }
{
    calls_word::decode_by(settings, kind, word)
}
