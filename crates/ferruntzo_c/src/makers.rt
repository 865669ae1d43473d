// Proposals made on the mill.
ghost use Rattle.std.specs.Prelude.{◌≡◌};
ghost use Rattle.proposals.specs.definitions.Areas.{reciprocal_answer, make_reciprocal_answer, quotient_answer, make_quotient_answer};
ghost use Rattle.proposals.specs.definitions.Areas.{units_answer, to_units_answer};

// A proposal w for 1/g.
#[unsafe(no_mangle)]
pub extern "C" fn ferruntzo_make_reciprocal(
    g: &[i32],
    recorded: &mut [f64],
    w: &mut [i32],
    outcome: &mut [u32],
) -> u32
    ensures { reciprocal_answer result recorded.new w.new outcome.new
        ≡ make_reciprocal_answer g.now recorded.old w.old outcome.old }
{
    ferruntzo::makers::ferruntzo_make_reciprocal(g, recorded, w, outcome)
}

// Proposals h for f/g and w for 1/g.
#[unsafe(no_mangle)]
pub extern "C" fn ferruntzo_make_quotient(
    f: &[i32],
    g: &[i32],
    recorded: &mut [f64],
    h: &mut [i32],
    w: &mut [i32],
    outcome: &mut [u32],
) -> u32
    ensures { quotient_answer result recorded.new h.new w.new outcome.new
        ≡ make_quotient_answer f.now g.now
        recorded.old h.old w.old outcome.old }
{
    ferruntzo::makers::ferruntzo_make_quotient(f, g, recorded, h, w, outcome)
}

// Values in units.
#[unsafe(no_mangle)]
pub extern "C" fn ferruntzo_to_units(values: &[f64], units: &mut [i32]) -> u32
    ensures { units_answer result units.new ≡ to_units_answer values.now units.old }
{
    ferruntzo::makers::ferruntzo_to_units(values, units)
}
