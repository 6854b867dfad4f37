// The rules on the records of a list or of a log.
ghost use Rattle.std.specs.Prelude.{◌≡◌, true, ℕ, ◌+◌, ◌<◌, ◌≤◌, ◌^◌, length};
ghost use Rattle.num.specs.Bytes.{part};
ghost use Rattle.record.specs.Record.{well_formed};
ghost use Rattle.spec_rules.specs.Neighbour.{context_of};
ghost use Rattle.spec_check.specs.Check.{rule_answer};
ghost use Rattle.check_walk.specs.Form.Walk.{place_in, records_via};

use check_walk::walk;
use record::Refusal;
use settings::Settings;

// The first broken rule of n well formed records of a log of blocks of so many records.
pub fn judge_all(s: Settings, b: &[u8], n: usize, per: usize) -> Result<(), Refusal>
    requires n_bound { (n < 2 ^ 58) × (per ≤ 15) × (1 ≤ per → 14 ≤ per) }
    requires by_index { (i : ℕ) → i < n → place_in per i + 32 ≤ length b.now }
    requires by_index_2 { (i : ℕ) → i < n → well_formed s (part b.now (place_in per i) 32) ≡ true }
    ensures { result ≡ rule_answer (context_of s) (records_via s per b.now n) }
{
    let stop = walk(s, b, n, per);
    let at = stop.at;
    if at == n {
        return Ok(());
    }
    Err(Refusal::Rule(stop.rule, at as u64))
}
