// The listing program (document 01, "Bench runs"). The text is made whole before it is printed, so that one contract,
// of `put_listing`, says all that is printed; only the reading of the input and the writing of the text are outside.
#![tactic(auto)]

pub mod entries;

ghost use Rattle.std.specs.Prelude.{◌≡◌, ℕ, ◌≤◌, List, length, take};
ghost use Rattle.listing_text.specs.Text.{Put};
ghost use Rattle.listing.specs.Listing.{length_right, listing_room, listing};

use crate::entries::put_requests;
use listing_text::{put_records, put_refused};

// Room for the longest listing: 2,730 requests of at most 16 lines and the last line, each of at most 64 bytes.
pub const ROOM: usize = 2_795_584;

// The longest input that is listed: 2,730 requests.
const LONGEST: usize = 65_520;

// Room for one byte more, so that a longer input is seen to be so.
pub const INPUT: usize = 65_521;

// Whether an input of n bytes is listed: whole requests, and no more than 2,730.
fn length_right(n: usize) -> bool
    ensures { result ≡ length_right n }
{
    if LONGEST < n {
        return false;
    }
    n % 24 == 0
}

// Puts the listing of an input.
pub fn put_listing(input: &[u8], out: &mut [u8]) -> usize
    requires { listing_room ≤ length out.old }
    ensures { Put out.old 0 (listing input.now) out.new result }
{
    if length_right(input.len()) {
        let total = put_requests(input, out);
        put_records(out, total.end, total.records)
    } else {
        let end = put_refused(out, 0, 13);
        put_records(out, end, 0)
    }
}

// Prints the first bytes of a text.
fn print(text: &[u8], n: usize)
    requires { n ≤ length text.now }
{
    io::write_all(1, &text[..n]);
}

// Puts the listing of the first n bytes and prints it. The array's length is in its type, so nothing need be shown of
// 2,795,584 zeros.
fn print_listing(input: &[u8], n: usize, out: &mut [u8; ROOM]) -> usize
    requires { n ≤ length input.now }
    ensures { Put out.old 0 (listing (take n input.now)) out.new result }
{
    let end = put_listing(&input[..n], out);
    print(out, end);
    end
}

// How many bytes of its buffers a run has read and printed.
#[derive(Clone, Copy)]
pub struct Counts {
    pub read: usize,
    pub printed: usize,
}

// Reads standard input into one buffer, puts its listing into the other and prints that. A contract cannot name what the
// system gives and takes, so this one speaks of every input of which the bytes that were read are all that the buffer
// takes: whole, or the first `INPUT` bytes of a longer one. What is printed is the listing of that input.
pub fn run(input: &mut [u8; INPUT], out: &mut [u8; ROOM]) -> Counts
    ensures read_in_bounds { result.read ≤ length input.new }
    ensures by_index { (given : List ℕ) → take (length input.new) given ≡ take result.read input.new → Put out.old 0 (listing given) out.new result.printed }
{
    let read = io::read_full(0, input);
    let printed = print_listing(input, read, out);
    Counts { read, printed }
}
