// Values in units: the nearest whole number to value times S, a tie going to the even one, by exact work on the bits.
ghost use Rattle.std.specs.Prelude.{◌≡◌, true, map, ◌<◌, ◌^◌, T, leb};
ghost use Rattle.std.specs.Float.Ieee.Scale.{finite};
ghost use Rattle.proposals.specs.definitions.Values.{all_finite};
ghost use Rattle.proposals.specs.definitions.Units.{signed as signed_of, in_units, in_units_of};
ghost use Rattle.proposals.specs.definitions.InnerContracts.{limited_units};

use crate::values::{are_finite, each};
use integer::rounding::near;
use model::measure::measure_candidate;
use model::types::{COEFFICIENTS, Candidate, Model, Refusal};

// 2^63 and 2^52: where the sign and the exponent of an f64 stand. 2^52 is also the leading digit, which the bits leave out.
const SIGN: u64 = 9223372036854775808;

const HIDDEN: u64 = 4503599627370496;

// 2^29 units, the size of 512: above every weight that is accepted.
const LIMIT: u64 = 536870912;

// n with the sign of these bits.
fn signed(n: u64, bits: u64) -> i64
    requires { n < 2 ^ 63 }
    ensures { result ≡ signed_of (leb (2 ^ 63) bits) n }
{
    let size = n as i64;
    if SIGN <= bits { -size } else { size }
}

// Below 2^-21, half a unit, there is no unit. From 512 on the size is given as 2^29.
fn units_of(x: f64) -> i32
    requires { T (finite x) }
    ensures { result ≡ limited_units x }
{
    let bits = f64::to_bits(x);
    let exponent = bits / HIDDEN % 2048;
    if exponent < 1002 {
        return 0;
    }
    if 1032 <= exponent {
        return signed(LIMIT, bits) as i32;
    }
    let digits = HIDDEN + bits % HIDDEN;
    let unit: u64 = 1 << ((1055 - exponent) as u32);
    near(signed(digits, bits), unit as i64) as i32
}

fn list_of(values: [f64; COEFFICIENTS]) -> [i32; COEFFICIENTS]
    requires { all_finite values ≡ true }
    ensures { result ≡ map limited_units values }
{
    each(values, 0, units_of)
}

// A list of values in units.
pub fn to_units(values: [f64; COEFFICIENTS]) -> Result<Candidate, Refusal>
    ensures { in_units_of result ≡ in_units values }
{
    if !are_finite(values) {
        return Err(Refusal::NotFinite);
    }
    let candidate = Candidate {
        degree: Model::MAX_DEGREE,
        coefficients: list_of(values),
    };
    let measured = measure_candidate(candidate);
    if Model::MAX_WEIGHT < measured.weight {
        return Err(Refusal::LargeProposal);
    }
    Ok(candidate)
}
