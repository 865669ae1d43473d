// The scratch after a call.
ghost use Rattle.std.specs.Prelude.{◌≡◌};
ghost use Rattle.certificate.specs.definitions.Tests.{scratch_after};

use crate::types::SCRATCH_SIZE;

// The 16 numbers become zero, numbers behind them stay; a scratch that is too short is not touched.
pub fn clear_scratch(scratch: &mut [i64])
    ensures { scratch.new ≡ scratch_after scratch.old }
{
    if SCRATCH_SIZE <= scratch.len() {
        scratch[..SCRATCH_SIZE].fill(0);
    }
}
