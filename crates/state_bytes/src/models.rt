// A model's 792 bytes.
ghost use Rattle.std.specs.Prelude.{◌≡◌};
ghost use Rattle.spec_rules.specs.Neighbour.{context_of};
ghost use Rattle.spec_model.specs.ModelBytes.{model_in, model_right};

use crate::tested::channel_right;
use record::Dualoct;
use settings::Settings;
use spec_model::{MODEL_BYTES, ModelBytes};

// Whether refusal 1 has nothing against a model's bytes.
pub fn model_right(s: Settings, b: &[u8]) -> bool
    ensures { result ≡ model_right (context_of s) b.now }
{
    if b.len() != MODEL_BYTES {
        return false;
    }
    let refr = num::u64_at(b, 752);
    (refr < 65536) & (refr < u64::from(s.rows)) & channel_right(s, 65535, 256, 1, b)
}

// The model's REFR.
pub fn refr_at(b: &ModelBytes) -> u32
    ensures { result ≡ (model_in b.now).refr }
{
    num::u16_at(b, 752)
}

// The data of the older waiting write.
pub fn data_at(b: &ModelBytes) -> Dualoct
    ensures { result ≡ (model_in b.now).bytes }
{
    Dualoct {
        dqa: num::u64_at(b, 760),
        dqb: num::u64_at(b, 768),
    }
}

// The data of the newer one.
pub fn second_at(b: &ModelBytes) -> Dualoct
    ensures { result ≡ (model_in b.now).second }
{
    Dualoct {
        dqa: num::u64_at(b, 776),
        dqb: num::u64_at(b, 784),
    }
}
