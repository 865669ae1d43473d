// Integrate from the lower end: the coefficients are formed from the highest down, so that c_0 = c_1 - (c_2 - (c_3 - ..))
// needs no signs.
ghost use Rattle.std.specs.Prelude.{false, ◌≡◌, suc, ◌*◌, ◌^◌, ◌≤◌, pos, nat_abs, ◌-ℤ◌, ◌*ℤ◌, take};
ghost use Rattle.chebyshev.specs.definitions.Coefficients.{weight};
ghost use Rattle.integer.specs.definitions.Rounding.{near};
ghost use Rattle.model.specs.definitions.Models.{scale, max_weight};
ghost use Rattle.model.specs.definitions.InnerContracts.{Integrable, Numerator, rounded_integral};
ghost use Rattle.model.specs.definitions.Outcomes.{outcome_of};
ghost use Rattle.model.specs.definitions.Integrate.{integration};

use crate::measure::checked_weight;
use crate::types::{COEFFICIENTS, Model, Refusal};
use integer::rounding::up_unsigned;

// 4S, of the divisors 4S·k.
const DIVISOR: i64 = 4 * Model::SCALE;

// 4S: up to this extent every coefficient fits 32 bits.
const NARROW: u64 = 4194304;

// The coefficients count only where their weight is within its limit.
#[derive(Clone, Copy)]
struct Integral {
    coefficients: [i32; COEFFICIENTS],
    weight: u64,
}

// c_k, from the numbers at k - 1 and k + 1, over an interval of that extent.
fn rounded_coefficient(below: i64, above: i64, extent: u64, k: usize) -> i64
    requires { Numerator below above extent k }
    ensures { result ≡ near ((below -ℤ above) *ℤ pos extent) (4 * scale * k) }
{
    integer::rounding::near((below - above) * (extent as i64), DIVISOR * (k as i64))
}

// c in 32 bits. On an extent above 4S it may not fit: then the weight is too large, and no coefficient counts.
fn narrowed(c: i64, size: u64, wide: bool) -> i32
    requires size_value { size ≡ nat_abs c }
    requires size_bound { wide ≡ false → size ≤ 2 ^ 30 }
    ensures { size ≤ max_weight → result ≡ c }
{
    if wide {
        if size <= Model::MAX_WEIGHT {
            c as i32
        } else {
            0
        }
    } else {
        c as i32
    }
}

// The integral of 2·a_0, a_1, .., a_n, 0, .. over an interval of that extent, and its weight. On the way `above`, `here` and
// `below` are the numbers of that list at places k + 2, k + 1 and k.
fn rounded_integral(degree: u32, doubled: &[i32; COEFFICIENTS], extent: u64) -> Integral
    requires { Integrable degree doubled.now extent }
    ensures weight_value { result.weight ≡ weight (rounded_integral extent (take (suc degree) doubled.now)) }
    ensures coefficients_value { result.weight ≤ max_weight
        → result.coefficients ≡ rounded_integral extent (take (suc degree) doubled.now) }
{
    let wide = NARROW < extent;
    let mut coefficients = [0i32; COEFFICIENTS];
    let mut weight: u64 = 0;
    let mut first: i64 = 0;
    let mut above: i64 = 0;
    let mut here: i64 = 0;
    for k in (0..degree as usize + 1).rev() {
        let below = doubled[k] as i64;
        let c = rounded_coefficient(below, above, extent, k + 1);
        let size = c.unsigned_abs();
        weight += size;
        coefficients[k + 1] = narrowed(c, size, wide);
        first = c - first;
        above = here;
        here = below;
    }
    weight += first.unsigned_abs();
    if weight <= Model::MAX_WEIGHT {
        coefficients[0] = first as i32;
    }
    Integral {
        coefficients,
        weight,
    }
}

pub fn integrate(a: Model) -> Result<Model, Refusal>
    ensures { outcome_of result ≡ integration a }
{
    checked_weight(a)?;
    if a.degree == Model::MAX_DEGREE {
        return Err(Refusal::LargeResult);
    }
    let mut doubled = a.coefficients;
    doubled[0] = 2 * doubled[0];
    let extent = a.interval.extent();
    let result = rounded_integral(a.degree, &doubled, extent);
    let spread = up_unsigned(a.radius as u64 * extent, Model::SCALE as u64);
    let radius = spread + (a.degree as u64) + 1;
    Model::formed(
        a.degree + 1,
        result.coefficients,
        result.weight,
        radius,
        a.interval,
    )
}
