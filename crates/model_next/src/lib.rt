// What a record that is taken changes in the 792 bytes of a model. Instants are stored ones: less 3.
#![tactic(auto)]

mod cols;
mod rows;

ghost use Rattle.std.specs.Prelude.{true, ◌≡◌};
ghost use Rattle.settings.specs.Settings.{valid};
ghost use Rattle.record.specs.Record.{record_fits};
ghost use Rattle.spec_rules.specs.Neighbour.{context_of};
ghost use Rattle.spec_rules.specs.Checks.{judged};
ghost use Rattle.spec_model.specs.Model.{model_next};
ghost use Rattle.spec_model.specs.ModelBytes.{model_bytes, model_in, model_right};

use crate::cols::{put_col, put_data};
use crate::rows::put_row;
use record::Record;
use settings::Settings;
use spec_model::ModelBytes;

// The model after a record that breaks no rule.
pub fn put_next(s: Settings, b: &mut ModelBytes, r: Record)
    requires s_value { valid s ≡ true }
    requires b_value { model_right (context_of s) b.old ≡ true }
    requires r_value { record_fits s r ≡ true }
    requires breaks_none { judged (context_of s) (model_in b.old).channel r ≡ 0 }
    ensures { b.new ≡ model_bytes (model_next (context_of s) (model_in b.old) r) }
{
    match r {
        Record::RowAt(t, p) => put_row(s, b, p, u64::from(t.0) - 3),
        Record::ColAt(t, p) => put_col(s, b, p, u64::from(t.0) - 3),
        Record::DataOf(_, d) => put_data(b, d),
    }
}
