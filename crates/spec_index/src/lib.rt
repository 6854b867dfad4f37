// Which blocks of a log touch a bank (document 02, request b): definitions and theorems.
#![tactic(auto)]

ghost use Rattle.spec_index.specs.declared.IndexRefusal.TheVariants.{Refused};
ghost use Rattle.std.specs.Prelude.{◌≡◌};

use record::Refusal;

// Why a call on an index is refused: by document 01's table, or the first word of the index that is wrong, missing or surplus.
#[derive(Clone, Copy)]
pub enum IndexRefusal {
    Refused(Refusal),
    Differs(u64),
}

impl From<Refusal> for IndexRefusal {
    ghost from_gives = { λ why e. e ≡ Refused why };

    fn from(why: Refusal) -> IndexRefusal {
        IndexRefusal::Refused(why)
    }
}
