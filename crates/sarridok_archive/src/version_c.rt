// The version of the archive.
ghost use Rattle.std.specs.Prelude.{◌≡◌};
ghost use Rattle.sarridok_c.specs.Version.{version};

// SARRIDOK_VERSION of the header that belongs to the archive; `bindings/version` holds the two together.
#[unsafe(no_mangle)]
pub extern "C" fn sarridok_version() -> u32
    ensures { result ≡ version }
{
    sarridok_c::sarridok_version()
}
