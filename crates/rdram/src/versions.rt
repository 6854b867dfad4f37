// The version.
ghost use Rattle.std.specs.Prelude.{◌≡◌};
ghost use Rattle.version.specs.Version.{version};

// The version of the archive.
#[unsafe(no_mangle)]
pub extern "C" fn rdram_version() -> u32
    ensures { result ≡ version }
{
    version::number()
}
