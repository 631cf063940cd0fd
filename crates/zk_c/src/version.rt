//! Which release this is.

ghost use Rattle.std.specs.Prelude.{◌≡◌};

/// The number of the release: a million for each major one, a thousand for each minor one, and the rest. `VERSION` and
/// include/zk.h have the same (tests/release).
#[unsafe(no_mangle)]
pub extern "C" fn zk_version() -> u32
    // It is 0.10.0.
    ensures { result ≡ 10000 }
{
    10_000
}
