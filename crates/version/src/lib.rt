// The version of the library.
#![tactic(auto)]

ghost use Rattle.std.specs.Prelude.{◌≡◌};
ghost use Rattle.version.specs.Version.{version};

// 65,536 times the major number, 256 times the minor, and the patch.
const VERSION: u32 = 256;

// The version as one number.
pub fn number() -> u32
    ensures { result ≡ version }
{
    VERSION
}
