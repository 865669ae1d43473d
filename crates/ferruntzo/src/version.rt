// The version of the library, for a caller that has linked it or loaded it.
ghost use Rattle.std.specs.Prelude.{◌≡◌};
ghost use Rattle.ferruntzo.specs.definitions.Version.{library_version};

// FERRUNTZO_VERSION_MAJOR, _MINOR and _PATCH of include/ferruntzo.h.
const MAJOR: u32 = 5;

const MINOR: u32 = 1;

const PATCH: u32 = 0;

// The three numbers in one.
#[unsafe(no_mangle)]
pub extern "C" fn ferruntzo_version() -> u32
    ensures { result ≡ library_version }
{
    65536 * MAJOR + 256 * MINOR + PATCH
}
