// The store: which dualoct stands where, what a read takes out of it, what a retire writes and how many bytes that are.
#![tactic(auto)]

pub mod dualocts;
pub mod refresh;
pub mod touching;

ghost use Rattle.std.specs.Prelude.{◌≡◌, true, cond, [], ◌+◌, ◌*◌, ◌<◌, ◌≤◌, ◌^◌, leb, length};
ghost use Rattle.num.specs.Bytes.{splice};
ghost use Rattle.settings.specs.Settings.{valid};
ghost use Rattle.spec_rules.specs.Neighbour.{context_of};
ghost use Rattle.spec_model.specs.Store.{store_length, dualoct, dualoct_bytes, masked, ones};
ghost use Rattle.model_store.specs.Form.Touch.{PlaceIn, TouchIn, place_at, touch_answer, touch_store, touch_bytes};

use crate::dualocts::{dualoct_at, put_dualoct};
use packet::FULL;
use record::{Dualoct, Place, Refusal};
use settings::Settings;
use spec_model::Event;

// What a record that breaks no rule asks of the store: nothing, a dualoct, or a write under a mask.
#[derive(Clone, Copy)]
pub enum Touch {
    Nothing,
    Reads(Place),
    Retires(Place, u32),
}

// "The store has rows × columns × 512 bytes".
pub fn store_length(s: Settings) -> usize
    requires { valid s ≡ true }
    ensures { result ≡ store_length (context_of s) }
{
    (s.rows as usize) * (s.columns as usize) * 512
}

// The number of a dualoct.
fn number_of(s: Settings, p: Place) -> usize
    requires s_value { valid s ≡ true }
    requires place_in { PlaceIn (context_of s) p }
    ensures { result ≡ place_at (context_of s) p }
{
    let row = (p.bank as usize) * (s.rows as usize) + (p.row as usize);
    row * (s.columns as usize) + (p.column as usize)
}

// "the number of bytes a retire wrote": the ones of the mask.
fn ones_of(mask: u32) -> u32
    requires { mask < 2 ^ 16 }
    ensures { result ≡ ones mask }
{
    (mask as u16).count_ones()
}

// Puts 16 bytes into dualoct k, byte i where mask bit i is 1.
fn put_masked(store: &mut [u8], k: usize, mask: u32, new: &[u8; 16])
    requires { 16 * k + 16 ≤ length store.old }
    ensures { store.new ≡ masked store.old k mask new.now }
{
    let at = 16 * k;
    let mut bits = mask;
    for i in 0..16 {
        if bits % 2 == 1 {
            store[at + i] = new[i];
        }
        bits = bits / 2;
    }
}

// Retires a write with these data to dualoct k; a full mask needs no test of its bits.
fn retire_to(store: &mut [u8], k: usize, mask: u32, d: Dualoct)
    requires { 16 * k + 16 ≤ length store.old }
    ensures { store.new ≡ masked store.old k mask (dualoct_bytes d) }
{
    if mask == FULL {
        put_dualoct(store, 16 * k, d);
        return;
    }
    let mut new = [0u8; 16];
    put_dualoct(&mut new, 0, d);
    put_masked(store, k, mask, &new);
}

// Copies dualoct k into the answer buffer, where it has room.
fn read_out(store: &[u8], k: usize, room: &mut [u8]) -> Result<Event, Refusal>
    requires { 16 * k + 16 ≤ length store.now }
    ensures value { result ≡ cond (leb 16 (length room.old)) (Ok Event.Read) (Err Refusal.Full) }
    ensures room_after { room.new ≡ splice room.old 0 (cond (leb 16 (length room.old)) (dualoct store.now k) []) }
{
    if room.len() < 16 {
        return Err(Refusal::Full);
    }
    put_dualoct(room, 0, dualoct_at(store, 16 * k));
    Ok(Event::Read)
}

// Does what a record asks of the store.
pub fn access(
    s: Settings,
    t: Touch,
    d: Dualoct,
    store: &mut [u8],
    room: &mut [u8],
) -> Result<Event, Refusal>
    requires s_value { valid s ≡ true }
    requires store_len { length store.old ≡ store_length (context_of s) }
    requires touch_in { TouchIn (context_of s) t }
    ensures value { result ≡ touch_answer t (length room.old) }
    ensures store_after { store.new ≡ touch_store (context_of s) t d store.old }
    ensures room_after { room.new ≡ splice room.old 0 (touch_bytes (context_of s) t store.old (length room.old)) }
{
    match t {
        Touch::Nothing => Ok(Event::Neither),
        Touch::Reads(p) => read_out(store, number_of(s, p), room),
        Touch::Retires(p, mask) => {
            retire_to(store, number_of(s, p), mask, d);
            Ok(Event::Retired(ones_of(mask)))
        }
    }
}
