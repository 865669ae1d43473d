// Proposals made on the mill, over lent areas: crate `proposals` has the makers and says what each area holds afterwards.
ghost use Rattle.std.specs.Prelude.{◌≡◌};
ghost use Rattle.proposals.specs.definitions.Areas.{reciprocal_answer, make_reciprocal_answer, quotient_answer, make_quotient_answer};
ghost use Rattle.proposals.specs.definitions.Areas.{units_answer, to_units_answer};

use proposals::areas::{make_quotient_in, make_reciprocal_in, to_units_in};

// A proposal w for 1/g.
#[unsafe(no_mangle)]
pub extern "C" fn ferruntzo_make_reciprocal(
    g: &[i32],
    recorded: &mut [f64],
    w: &mut [i32],
    outcome: &mut [u32],
) -> u32
    ensures { reciprocal_answer result recorded.new w.new outcome.new
        ≡ make_reciprocal_answer g.now recorded.old w.old outcome.old }
{
    make_reciprocal_in(g, recorded, w, outcome)
}

// Proposals h for f/g and w for 1/g.
#[unsafe(no_mangle)]
pub extern "C" fn ferruntzo_make_quotient(
    f: &[i32],
    g: &[i32],
    recorded: &mut [f64],
    h: &mut [i32],
    w: &mut [i32],
    outcome: &mut [u32],
) -> u32
    ensures { quotient_answer result recorded.new h.new w.new outcome.new
        ≡ make_quotient_answer f.now g.now
        recorded.old h.old w.old outcome.old }
{
    make_quotient_in(f, g, recorded, h, w, outcome)
}

// Values in units.
#[unsafe(no_mangle)]
pub extern "C" fn ferruntzo_to_units(values: &[f64], units: &mut [i32]) -> u32
    ensures { units_answer result units.new ≡ to_units_answer values.now units.old }
{
    to_units_in(values, units)
}
