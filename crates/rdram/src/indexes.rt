// The index of a log: which blocks touch a bank.
ghost use Rattle.std.specs.Prelude.{◌≡◌};
ghost use Rattle.num.specs.Marks.{bit, count_up_to};
ghost use Rattle.calls_index.specs.Results.{index_add_call, index_query_call, index_check_call};

use calls_index::IndexAnswer;

// The index of a log to the start of a buffer.
#[unsafe(no_mangle)]
pub extern "C" fn rdram_index_make(settings: &[u8], log: &[u8], index: &mut [u8]) -> IndexAnswer
    ensures { (result ≡ (index_add_call settings.now log.now 0 index.old).answer) × (index.new ≡ (index_add_call settings.now log.now 0 index.old).lent) }
{
    calls_index::add_by(settings, log, 0, index)
}

// The index of a log to a buffer whose first `kept` words are there already: only the others are written.
#[unsafe(no_mangle)]
pub extern "C" fn rdram_index_add(
    settings: &[u8],
    log: &[u8],
    kept: usize,
    index: &mut [u8],
) -> IndexAnswer
    ensures { (result ≡ (index_add_call settings.now log.now kept index.old).answer) × (index.new ≡ (index_add_call settings.now log.now kept index.old).lent) }
{
    calls_index::add_by(settings, log, kept, index)
}

// The numbers of the blocks that touch a bank, to the start of a buffer.
#[unsafe(no_mangle)]
pub extern "C" fn rdram_index_query(
    settings: &[u8],
    log: &[u8],
    index: &[u8],
    bank: u32,
    out: &mut [u8],
) -> IndexAnswer
    ensures { (result ≡ (index_query_call settings.now log.now index.now bank out.old).answer) × (out.new ≡ (index_query_call settings.now log.now index.now bank out.old).lent) }
{
    calls_index::query_by(settings, log, index, bank, out)
}

// Judges a log with its index.
#[unsafe(no_mangle)]
pub extern "C" fn rdram_index_check(settings: &[u8], log: &[u8], index: &[u8]) -> IndexAnswer
    ensures { result ≡ index_check_call settings.now log.now index.now }
{
    calls_index::check_by(settings, log, index)
}

// How many banks the word of a block has.
#[unsafe(no_mangle)]
pub extern "C" fn rdram_index_banks(word: u32) -> u32
    ensures { result ≡ count_up_to (bit word) 32 }
{
    log_index::words::banks(word)
}
