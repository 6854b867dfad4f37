// The sum of the words of a block.
ghost use Rattle.std.specs.Prelude.{◌≡◌, ◌*◌, ◌%◌, ◌^◌, ◌≤◌, length};
ghost use Rattle.log_block.specs.Block.{word_sum};

// The sum of the first n words, modulo 2^32.
pub(crate) fn word_sum(b: &[u8], n: usize) -> u32
    requires { 4 * n ≤ length b.now }
    ensures { result ≡ word_sum b.now n % 2 ^ 32 }
{
    let mut s: u32 = 0;
    for k in 0..n {
        s = s.wrapping_add(num::u32_at(b, 4 * k));
    }
    s
}
