// The version of the library.
ghost use Rattle.std.specs.Prelude.{◌≡◌};
ghost use Rattle.ferruntzo.specs.definitions.Version.{library_version};

// The three numbers in one.
#[unsafe(no_mangle)]
pub extern "C" fn ferruntzo_version() -> u32
    ensures { result ≡ library_version }
{
    ferruntzo::version::ferruntzo_version()
}
