// Areas of bytes.
ghost use Rattle.std.specs.Prelude.{◌≡◌, length, set};

// The bytes of a slice of one length.
// Kept: a loop, as the library asks C for memcpy and memset alone, and copy_from_slice asks for memmove here.
pub(crate) fn copy(from: &[u8], to: &mut [u8])
    requires { length from.now ≡ length to.old }
    ensures { to.new ≡ from.now }
{
    for i in 0..from.len() {
        to[i] = from[i];
    }
}

// A byte at a place of an area; one that is too short stays.
pub(crate) fn put(area: &mut [u8], i: usize, b: u8)
    ensures { area.new ≡ set area.old i b }
{
    if i < area.len() {
        area[i] = b;
    }
}
