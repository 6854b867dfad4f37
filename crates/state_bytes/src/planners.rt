// A planner's 768 bytes.
ghost use Rattle.std.specs.Prelude.{◌≡◌, true, ◌&&◌};
ghost use Rattle.spec_rules.specs.Neighbour.{context_of};
ghost use Rattle.spec_plan.specs.PlannerBytes.{planner_right};
ghost use Rattle.state_bytes.specs.Form.Tested.{all_stored, planner_fields};

use crate::tested::{LATEST, buffer_right, channel_right, tags_right};
use settings::Settings;
use spec_plan::{PLANNER_BYTES, PlannerBytes};

// The fields after the channel's.
fn fields_right(b: &PlannerBytes) -> bool
    ensures { result ≡ planner_fields b.now }
{
    let now = num::u32_at(b, 752);
    (now != 0) & (now <= LATEST) & (num::u32_at(b, 756) < 32) & (num::u32_at(b, 764) == 0)
}

// Whether refusal 1 has nothing against a planner's bytes.
pub fn planner_right(s: Settings, b: &[u8]) -> bool
    ensures { result ≡ planner_right (context_of s) b.now }
{
    let Some(b) = b.as_array::<PLANNER_BYTES>() else {
        return false;
    };
    fields_right(b) & channel_right(s, 0, 0, 0, b)
}

// The same of bytes whose stored instants are known to be in range.
pub fn planner_rest_right(s: Settings, b: &PlannerBytes) -> bool
    requires b_value { all_stored b.now 0 160 && all_stored b.now 704 6 ≡ true }
    ensures { result ≡ planner_right (context_of s) b.now }
{
    fields_right(b) & tags_right(s.rows, s.core, 0, b) & buffer_right(s.columns, 0, 0, b)
}
