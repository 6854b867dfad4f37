// What all banks ask of an ACT or REFA to a bank by rule 5.
ghost use Rattle.std.specs.Prelude.{◌≡◌, ℕ, ◌<◌, cond, max, List, get_or};
ghost use Rattle.settings.specs.declared.PacketAt.{PacketAt};
ghost use Rattle.spec_rules.specs.declared.BankTrack.{BankTrack};
ghost use Rattle.spec_rules.specs.Channel.{idle};
ghost use Rattle.spec_rules.specs.Neighbour.{context_of, near};
ghost use Rattle.spec_rules.specs.Checks.{since};
ghost use Rattle.chan_judge.specs.Form.Tests.{act_over};

use chan_view::bounds::after_gap;
use chan_view::neighbours::is_near;
use settings::{PacketAt, Settings};
use spec_rules::BankTrack;

// The distance that rule 5 asks between ACTs to two banks.
fn act_gap(s: Settings, b: u32, x: u32) -> u32
    ensures { result ≡ cond (near (context_of s) b x) s.rc s.rr }
{
    if is_near(s, b, x) { s.rc } else { s.rr }
}

// With what earlier banks ask of an ACT to bank b, also what bank x asks, which was opened last at this instant.
fn act_with(s: Settings, b: u32, asked: u64, x: u32, opened: PacketAt) -> u64
    ensures { result ≡ max asked (since opened.0 (cond (near (context_of s) b x) s.rc s.rr)) }
{
    asked.max(after_gap(opened, act_gap(s, b, x)))
}

// The same of all banks, where `opened` tells when each was opened last: it reads a state or the bytes of one.
pub fn act_by<F: Fn(u32) -> PacketAt>(s: Settings, b: u32, opened: F) -> u64
    requires { (x : ℕ) → x < 32 → F.pre opened x }
    ensures { (l : List BankTrack) → ((x : ℕ) (t : PacketAt) → x < 32 → F.post opened x t → t ≡ (get_or l x idle).opened) → result ≡ act_over s l b }
{
    let mut asked: u64 = 0;
    for x in 0..32u32 {
        asked = act_with(s, b, asked, x, opened(x));
    }
    asked
}

pub fn act_bound(s: Settings, banks: [BankTrack; 32], b: u32) -> u64
    ensures { result ≡ act_over s banks b }
{
    act_by(s, b, |x| banks[x as usize].opened)
}
