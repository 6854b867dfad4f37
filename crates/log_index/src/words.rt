// The word of a block of a log, and the number of banks in it.
ghost use Rattle.std.specs.Prelude.{◌≡◌, ◌&&◌, cond, ◌+◌, ◌*◌, ◌/◌, ◌%◌, ◌^◌, ◌<◌, ◌≤◌, eqb, length};
ghost use Rattle.num.specs.Marks.{bit, count_up_to, word};
ghost use Rattle.log_block.specs.Block.{used, blocks_in, block_at};
ghost use Rattle.log_index.specs.Form.Fields.{fields_at, fields_up_to, fields_word};

// The word with the bit of a bank, or 0.
fn one_bit(on: bool, bank: u32) -> u32
    requires { bank < 32 }
    ensures { result ≡ word (λ b. on && eqb bank b) 32 }
{
    if on { 1 << bank } else { 0 }
}

// The bank field of a ROW word, or of a COL word.
fn bank_field(row: bool, w: u64) -> u32
    ensures { (result ≡ cond row (w / 2 ^ 13 % 32) (w / 2 ^ 29 % 32)) × (result < 32) }
{
    if row {
        (w / 0x2000 % 32) as u32
    } else {
        (w / 0x2000_0000 % 32) as u32
    }
}

// The bit of the bank that the record at a place names, or 0.
fn record_word(b: &[u8], at: usize) -> u32
    requires { at + 16 ≤ length b.now }
    ensures { result ≡ word (fields_at b.now at) 32 }
{
    let head = num::u32_at(b, at + 4);
    let w = num::u64_at(b, at + 8);
    let row = head == 0;
    let col = (head == 1) & (w / 0x2_0000 % 16 != 0);
    one_bit(row | col, bank_field(row, w))
}

// The word of the first n records of a block.
fn records_word(b: &[u8], n: usize) -> u32
    requires { 32 * n ≤ length b.now }
    ensures { result ≡ fields_up_to b.now n }
{
    let mut w: u32 = 0;
    for i in 0..n {
        w = w | record_word(b, 32 * i);
    }
    w
}

// The word of block k of a log.
pub fn block_word(log: &[u8], k: usize) -> u32
    requires { (k < blocks_in log.now) × (used (block_at log.now k) ≤ 15) }
    ensures { result ≡ fields_word (block_at log.now k) }
{
    let n = log_block::read::used_at(log, k);
    let at = 512 * k;
    let next = at + 512;
    records_word(&log[at..next], n)
}

// How many banks a word has.
pub fn banks(w: u32) -> u32
    ensures { result ≡ count_up_to (bit w) 32 }
{
    w.count_ones()
}
