// The bytes of fresh planners and models: every number is 0 but for now, which is 4 and stored as 1.
ghost use Rattle.std.specs.Prelude.{◌≡◌};
ghost use Rattle.spec_plan.specs.Planner.{fresh_planner};
ghost use Rattle.spec_plan.specs.PlannerBytes.{planner_bytes};
ghost use Rattle.spec_model.specs.Model.{fresh_model};
ghost use Rattle.spec_model.specs.ModelBytes.{model_bytes};

use spec_model::{MODEL_BYTES, ModelBytes};
use spec_plan::{PLANNER_BYTES, PlannerBytes};

// Puts the bytes of a fresh planner.
pub fn put_fresh_planner(b: &mut PlannerBytes)
    ensures { b.new ≡ planner_bytes fresh_planner }
{
    num::put::put_zeros(b, 0, PLANNER_BYTES);
    num::put::put_u32(b, 752, 1);
}

// Puts the bytes of a fresh model.
pub fn put_fresh_model(b: &mut ModelBytes)
    ensures { b.new ≡ model_bytes fresh_model }
{
    num::put::put_zeros(b, 0, MODEL_BYTES);
}
