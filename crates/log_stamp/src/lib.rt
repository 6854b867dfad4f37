// Logs that carry their settings (document 02, request i): the tests of a log and of its stamps.
#![tactic(auto)]

pub mod copy;
pub mod moved;

ghost use Rattle.std.specs.Prelude.{◌≡◌, true, cond, [], ℕ, ◌+◌, ◌*◌, ◌%◌, ◌<◌, ◌≤◌, eqb, length};
ghost use Rattle.num.specs.Bytes.{part};
ghost use Rattle.num.specs.Search.{first_false};
ghost use Rattle.settings.specs.Settings.{settings_in, settings_read};
ghost use Rattle.record.specs.declared.Refusal.TheVariants.{Block, Stamp};
ghost use Rattle.record.specs.Record.{first_bad};
ghost use Rattle.log_block.specs.Block.{blocks_in, first_bad_block, list_up_to};
ghost use Rattle.log_stamp.specs.Stamp.{stamp_at, same_stamp, settings_of, in_range, right_stamped};

use log_block::form::Per;
use record::Refusal;
use settings::Settings;

// Whether two stamps of 32 bytes are the same. The loop has no branches, so that one instruction compares several bytes; the `==` of slices
// would call a function for each block.
fn same_stamp(a: &[u8], b: &[u8]) -> bool
    requires { (length a.now ≡ 32) × (length b.now ≡ 32) }
    ensures { result ≡ same_stamp a.now b.now }
{
    let mut same = true;
    for i in 0..32 {
        same = same & (a[i] == b[i]);
    }
    same
}

// Whether the stamp of block k is that of block 0.
fn same_at(log: &[u8], k: usize) -> bool
    requires { k < blocks_in log.now }
    ensures { result ≡ same_stamp (stamp_at log.now k) (stamp_at log.now 0) }
{
    let at = 512 * k + 448;
    let end = at + 32;
    same_stamp(&log[at..end], &log[448..480])
}

// The first block whose stamp differs from that of block 0, or the number of blocks.
fn first_other(log: &[u8]) -> usize
    ensures { result ≡ first_false (λ k. same_stamp (stamp_at log.now k) (stamp_at log.now 0)) (blocks_in log.now) }
{
    let n = log.len() / 512;
    for k in 0..n {
        if !same_at(log, k) {
            return k;
        }
    }
    n
}

// What the tests of the blocks of a log find: the first bad block, the first bad record of the blocks before it, and whether the stamps
// of these are that of block 0. Where none is bad, the first two are the counts, as the definitions are of which the theorems speak.
#[derive(Clone, Copy)]
pub struct Found {
    pub block: usize,
    pub record: usize,
    pub same: bool,
}

// Each block is tested whole, with its records and its stamp, before the next one is read. This is log_list's walk with the stamps: a walk
// for both would compare stamps where a log has none.
fn found_in(s: Settings, log: &[u8]) -> Found
    ensures block_value { (result.block ≡ first_bad_block 14 log.now) × (result.record ≡ first_bad s (list_up_to log.now (first_bad_block 14 log.now))) }
    ensures log_value { result.same ≡ true → (i : ℕ) → i < result.block → same_stamp (stamp_at log.now i) (stamp_at log.now 0) ≡ true }
{
    let n = log.len() / 512;
    let mut bad = 0;
    let mut same = true;
    for k in 0..n {
        if !log_block::right_at(log, Per::STAMPED, k) {
            return Found {
                block: k,
                record: bad,
                same: same,
            };
        }
        bad = log_list::copy::bad_up_to(s, log, Per::STAMPED, k, bad);
        same = same & same_at(log, k);
    }
    Found {
        block: n,
        record: bad,
        same: same,
    }
}

// The first block whose stamp differs from that of block 0, or the number of blocks; stamps that are known to be the same are not read
// again.
fn first_unlike(log: &[u8], same: bool) -> usize
    requires { same ≡ true → (i : ℕ) → i < blocks_in log.now → same_stamp (stamp_at log.now i) (stamp_at log.now 0) ≡ true }
    ensures { result ≡ first_false (λ k. same_stamp (stamp_at log.now k) (stamp_at log.now 0)) (blocks_in log.now) }
{
    if same {
        return log.len() / 512;
    }
    first_other(log)
}

// The settings of no log.
fn no_settings() -> Settings
    ensures { result ≡ settings_in [] }
{
    Settings {
        rc: 0,
        ras: 0,
        rp: 0,
        pp: 0,
        rr: 0,
        rcd: 0,
        rtr: 0,
        rdp: 0,
        rtp: 0,
        cc: 0,
        cac: 0,
        cwd: 0,
        offp: 0,
        rows: 0,
        columns: 0,
        device: 0,
        core: 0,
    }
}

// What the stamp of block 0 says. An empty log has none, and no record that settings would judge.
fn settings_of(log: &[u8]) -> Option<Settings>
    requires { length log.now % 512 ≡ 0 }
    ensures { result ≡ cond (eqb (blocks_in log.now) 0) (Some (settings_of log.now)) (settings_read (stamp_at log.now 0)) }
{
    if log.len() / 512 == 0 {
        return Some(no_settings());
    }
    settings::read::read_settings(&log[448..480])
}

// Why a log is refused whose block 0 says no settings: 12 of its blocks comes first.
fn unstamped(log: &[u8]) -> Refusal
    ensures { result ≡ cond (eqb (first_bad_block 14 log.now) (blocks_in log.now)) (Stamp 0) (Block (first_bad_block 14 log.now)) }
{
    let found = log_list::copy::faults(no_settings(), log, Per::STAMPED);
    if found.block != log.len() / 512 {
        return Refusal::Block(found.block as u64);
    }
    Refusal::Stamp(0)
}

// Tests a log under the settings of its block 0 for 12, then for 17, then for 10.
fn tested_under(s: Settings, log: &[u8]) -> Result<Settings, Refusal>
    requires log_value { (blocks_in log.now ≡ 0 → ⊥) → in_range (settings_read (stamp_at log.now 0)) ≡ true }
    requires s_value { s ≡ settings_of log.now }
    ensures { result ≡ right_stamped Err log.now Ok }
{
    let n = log.len() / 512;
    let found = found_in(s, log);
    if found.block != n {
        return Err(Refusal::Block(found.block as u64));
    }
    let other = first_unlike(log, found.same);
    if other != n {
        return Err(Refusal::Stamp(other as u64));
    }
    if found.record != log_block::read::records_in(log, Per::STAMPED) {
        return Err(Refusal::Word(found.record as u64));
    }
    Ok(s)
}

// Tests a log of whole blocks for 12, then for 17, then for 10: a refusal, or the settings that it carries.
pub fn tested(log: &[u8]) -> Result<Settings, Refusal>
    requires { length log.now % 512 ≡ 0 }
    ensures { result ≡ right_stamped Err log.now Ok }
{
    match settings_of(log) {
        None => Err(unstamped(log)),
        Some(s) => tested_under(s, log),
    }
}
