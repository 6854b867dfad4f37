// What a ROW packet changes.
ghost use Rattle.std.specs.Prelude.{true, ◌≡◌, ◌<◌};
ghost use Rattle.packet.specs.Row.{row_fits};
ghost use Rattle.spec_model.specs.ModelBytes.{model_in};
ghost use Rattle.model_next.specs.Form.Next.{refa_next, row_next};

use model_store::refresh::refr_after;
use num::put::put_u16;
use packet::RowPacket;
use settings::Settings;
use spec_model::ModelBytes;
use state_bytes::models::refr_at;
use state_bytes::stores::rows::{store_act, store_prer, store_refa};

// REFA to a bank, and REFR after it.
fn put_refa(s: Settings, b: &mut ModelBytes, bank: u32, t: u64)
    requires bank_bound { bank < 32 }
    requires b_bound { (model_in b.old).refr < s.rows }
    ensures { b.new ≡ refa_next s b.old bank t }
{
    let refr = refr_after(s, bank, refr_at(b));
    store_refa(b, bank as usize, t);
    put_u16(b, 752, u64::from(refr));
}

// Any ROW packet.
pub(crate) fn put_row(s: Settings, b: &mut ModelBytes, p: RowPacket, t: u64)
    requires p_value { row_fits s.rows p ≡ true }
    requires b_bound { (model_in b.old).refr < s.rows }
    ensures { b.new ≡ row_next s b.old p t }
{
    match p {
        RowPacket::Act { bank, row } => store_act(b, bank as usize, row, t),
        RowPacket::Prer { bank } => store_prer(s, b, bank, t),
        RowPacket::Refa { bank } => put_refa(s, b, bank, t),
        RowPacket::Refp { bank } => store_prer(s, b, bank, t),
    }
}
