// The version of the archive.
ghost use Rattle.std.specs.Prelude.{◌≡◌};
ghost use Rattle.sarridok_c.specs.Version.{version};

// SARRIDOK_VERSION of the header that belongs to the archive; `bindings/version` holds the two together.
pub fn sarridok_version() -> u32
    ensures { result ≡ version }
{
    700
}
