// Puts numbers as bytes, low byte first, slices and zeros into a buffer.
ghost use Rattle.std.specs.Prelude.{◌≡◌, ◌+◌, ◌≤◌, length};
ghost use Rattle.num.specs.Bytes.{bytes, splice, zeros};

// Puts the two low bytes of a number at a place.
pub fn put_u16(b: &mut [u8], at: usize, x: u64)
    requires { at + 2 ≤ length b.old }
    ensures { b.new ≡ splice b.old at (bytes 2 x) }
{
    b[at] = (x % 256) as u8;
    b[at + 1] = (x / 256 % 256) as u8;
}

// Puts the four low bytes of a number at a place.
pub fn put_u32(b: &mut [u8], at: usize, x: u64)
    requires { at + 4 ≤ length b.old }
    ensures { b.new ≡ splice b.old at (bytes 4 x) }
{
    put_u16(b, at, x);
    put_u16(b, at + 2, x / 65536);
}

// Puts the eight bytes of a number at a place.
pub fn put_u64(b: &mut [u8], at: usize, x: u64)
    requires { at + 8 ≤ length b.old }
    ensures { b.new ≡ splice b.old at (bytes 8 x) }
{
    put_u32(b, at, x);
    put_u32(b, at + 4, x / 4294967296);
}

// Copies all of one slice into another from a place on, in a loop: `copy_from_slice` would have the archive call `memmove`, and it calls
// nothing but `memcpy` and `memset`.
pub fn put_bytes(out: &mut [u8], at: usize, src: &[u8])
    requires { at + length src.now ≤ length out.old }
    ensures { out.new ≡ splice out.old at src.now }
{
    for j in 0..src.len() {
        out[at + j] = src[j];
    }
}

// Puts n zeros from a place on.
pub fn put_zeros(out: &mut [u8], at: usize, n: usize)
    requires { at + n ≤ length out.old }
    ensures { out.new ≡ splice out.old at (zeros n) }
{
    out[at..at + n].fill(0);
}
