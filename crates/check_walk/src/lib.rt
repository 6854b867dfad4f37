// A walk over the records of a list or of a log of either form: the first that is none or breaks a rule.
#![tactic(auto)]

mod short;
mod turn;

ghost use Rattle.std.specs.Prelude.{◌≡◌, ℕ, ◌+◌, ◌<◌, ◌≤◌, ◌^◌, length};
ghost use Rattle.spec_rules.specs.Neighbour.{context_of};
ghost use Rattle.check_walk.specs.Form.Walk.{place_in, stop_of};

use crate::short::{bank_in, data_now, fields_at, is_data, is_read, read_lasts, reads_now};
use crate::turn::{banks_implied, buffer_next, lasts_implied, next_slot, opened_track, view_of};
use chan_judge::judge;
use chan_least::quick::passes;
use chan_step::tracks::{closed_track, side_track};
use chan_step::{lasts_after, no_lasts};
use chan_view::Tracks;
use chan_view::banks::{slot_of, unused};
use chan_view::neighbours::{first_near, last_near};
use chan_view::views::{held_of, leaving};
use record_bytes::read_record;
use settings::{PacketAt, Settings};
use spec_rules::{Buffer, Channel};

// Where a walk over records stopped: its end with rule 0, a record that is none with rule 0, or one that breaks this rule. Numbers, not
// an enum: callers compare `at` with the end of their own run, and a list that breaks a rule is judged for its form again.
#[derive(Clone, Copy)]
pub struct Stop {
    pub at: usize,
    pub rule: u32,
}

// An instant after which no bank was opened, and whether the last record is a WR, whose data are due.
#[derive(Clone, Copy)]
pub struct Latest {
    pub opened: u32,
    pub due: bool,
}

// The numbers of a record, but for its data; head is the kind with the three bytes after it.
#[derive(Clone, Copy)]
pub struct Fields {
    pub at: PacketAt,
    pub head: u32,
    pub word: u64,
}

// Where record i stands, in a log of blocks of 15 or 14 records or, where per is 0, in a list. The divisors are constants, so that no
// division is made.
pub fn place_of(per: usize, i: usize) -> usize
    requires { (i < 2 ^ 58) × (per ≤ 15) × (1 ≤ per → 14 ≤ per) }
    ensures { result ≡ place_in per i }
{
    if per == 0 {
        return 32 * i;
    }
    if per == 15 {
        return 512 * (i / 15) + 32 * (i % 15);
    }
    512 * (i / 14) + 32 * (i % 14)
}

// The first of n records that is none or breaks a rule. An RD and data that pass their tests by number need no more. The state of the
// channel stands in locals: only another record that fails the quick test is judged by all of it. So does every one that implies a PRER; that PRER may be stored before the packet itself, which
// changes other parts of the state.
pub fn walk(s: Settings, b: &[u8], n: usize, per: usize) -> Stop
    requires n_bound { (n < 2 ^ 58) × (per ≤ 15) × (1 ≤ per → 14 ≤ per) }
    requires by_index { (i : ℕ) → i < n → place_in per i + 32 ≤ length b.now }
    ensures { result ≡ stop_of (context_of s) per b.now n }
{
    let mut banks = [unused(); 32];
    let mut l = no_lasts();
    let mut buffer = Buffer::Empty;
    let mut latest = Latest {
        opened: 0,
        due: false,
    };
    for i in 0..n {
        let at = place_of(per, i);
        let f = fields_at(b, at);
        let g = bank_in(f.word);
        if is_read(s, b, at, f) {
            if reads_now(s, f.at, l, buffer, latest.due, banks[g]) {
                banks[g].rd.0 = f.at.0;
                l = read_lasts(f.at, l);
                latest.due = false;
                continue;
            }
        }
        if is_data(s, b, at) {
            if data_now(s, f.at, buffer, latest.due) {
                latest.due = false;
                continue;
            }
        }
        let Some(r) = read_record(s, b, at) else {
            return Stop { at: i, rule: 0 };
        };
        let v = view_of(r);
        let h = held_of(buffer, latest.due);
        let x = slot_of(v.bank);
        let y = first_near(s, x);
        let z = last_near(s, x);
        let w = slot_of(h.bank);
        let k = Tracks {
            own: banks[x],
            low: banks[y],
            high: banks[z],
            held: banks[w],
            next: banks[next_slot(h)],
        };
        if !passes(s, r, h, k, l, PacketAt(latest.opened)) {
            let ch = Channel {
                banks: banks,
                lasts: l,
                buffer: buffer,
                due: latest.due,
            };
            let rule = judge(s, ch, r);
            if rule != 0 {
                return Stop { at: i, rule: rule };
            }
            banks = banks_implied(s, buffer, r, banks);
            l = lasts_implied(s, buffer, r, l);
        }
        if v.opens {
            banks[x] = opened_track(v, banks[x]);
            latest.opened = latest.opened.max(v.at.0);
        } else if v.precharges {
            banks[x] = closed_track(v.at, banks[x]);
            banks[y] = side_track(v.at, banks[y]);
            banks[z] = side_track(v.at, banks[z]);
        } else if v.reads {
            banks[x].rd.0 = v.at.0;
        } else if v.other {
            let kept = banks[w].retire.0;
            let retire = if leaving(s, h, v) { v.at.0 } else { kept };
            banks[w].retire.0 = retire;
            buffer = buffer_next(s, r, v, h, buffer);
        }
        l = lasts_after(r, l);
        latest.due = v.writes;
    }
    Stop { at: n, rule: 0 }
}
