// REFR: "The model's REFR starts at 0 and rises, modulo rows, after REFA to bank 31."
ghost use Rattle.std.specs.Prelude.{◌≡◌, ◌<◌};
ghost use Rattle.packet.specs.declared.RowPacket.TheVariants.{Refa};
ghost use Rattle.spec_rules.specs.Neighbour.{context_of};
ghost use Rattle.spec_model.specs.Model.{refr_by};

use settings::Settings;

// REFR after REFA to a bank.
pub fn refr_after(s: Settings, bank: u32, refr: u32) -> u32
    requires { refr < s.rows }
    ensures { result ≡ refr_by (context_of s) (Refa bank) refr }
{
    if bank != 31 {
        return refr;
    }
    let up = refr + 1;
    if up == s.rows { 0 } else { up }
}
