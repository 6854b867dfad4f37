// Dualocts in bytes: "Bytes 0 to 7 of a dualoct travel on DQA, earliest first, 8 to 15 on DQB."
ghost use Rattle.std.specs.Prelude.{◌≡◌, ◌+◌, ◌≤◌, length};
ghost use Rattle.num.specs.Bytes.{splice};
ghost use Rattle.spec_model.specs.Store.{dualoct_bytes};
ghost use Rattle.model_store.specs.Form.Touch.{dualoct_in};

use record::Dualoct;

// The dualoct from a place on.
pub fn dualoct_at(b: &[u8], at: usize) -> Dualoct
    requires { at + 16 ≤ length b.now }
    ensures { result ≡ dualoct_in b.now at }
{
    Dualoct {
        dqa: num::u64_at(b, at),
        dqb: num::u64_at(b, at + 8),
    }
}

// Puts a dualoct from a place on.
pub fn put_dualoct(b: &mut [u8], at: usize, d: Dualoct)
    requires { at + 16 ≤ length b.old }
    ensures { b.new ≡ splice b.old at (dualoct_bytes d) }
{
    num::put::put_u64(b, at, d.dqa);
    num::put::put_u64(b, at + 8, d.dqb);
}
