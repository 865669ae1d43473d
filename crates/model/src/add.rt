// Add and subtract: coefficient by coefficient, the larger degree, radii added.
ghost use Rattle.std.specs.Prelude.{◌≡◌, nat_abs};
ghost use Rattle.ring.specs.definitions.Integer.{ℤ_ring};
ghost use Rattle.chebyshev.specs.definitions.Coefficients.{weight, add_lists, scale_list};
ghost use Rattle.model.specs.definitions.InnerContracts.{Summands, combination};
ghost use Rattle.model.specs.definitions.Outcomes.{outcome_of};
ghost use Rattle.model.specs.definitions.Add.{addition, subtraction};

use crate::measure::checked_weight;
use crate::types::{COEFFICIENTS, Model, Refusal};

#[derive(Clone, Copy)]
struct Combined {
    coefficients: [i32; COEFFICIENTS],
    weight: u64,
}

// a + sign·b, with its weight.
fn combine(a: &[i32; COEFFICIENTS], b: &[i32; COEFFICIENTS], sign: i32) -> Combined
    requires { Summands a.now b.now sign }
    ensures coefficients_value { result.coefficients ≡ add_lists ℤ_ring a.now (scale_list ℤ_ring sign b.now) }
    ensures weight_value { result.weight ≡ weight result.coefficients }
{
    let mut coefficients = [0i32; COEFFICIENTS];
    let mut weight: u64 = 0;
    for i in 0..COEFFICIENTS {
        let c = a[i] + sign * b[i];
        coefficients[i] = c;
        weight += c.unsigned_abs() as u64;
    }
    Combined {
        coefficients,
        weight,
    }
}

// a + sign·b of two models.
fn combine_models(a: Model, b: Model, sign: i32) -> Result<Model, Refusal>
    requires { nat_abs sign ≡ 1 }
    ensures { outcome_of result ≡ combination sign a b }
{
    checked_weight(a)?;
    checked_weight(b)?;
    if a.interval != b.interval {
        return Err(Refusal::DifferentIntervals);
    }
    let sum = combine(&a.coefficients, &b.coefficients, sign);
    let degree = a.degree.max(b.degree);
    let radius = a.radius as u64 + b.radius as u64;
    Model::formed(degree, sum.coefficients, sum.weight, radius, a.interval)
}

pub fn add(a: Model, b: Model) -> Result<Model, Refusal>
    ensures { outcome_of result ≡ addition a b }
{
    combine_models(a, b, 1)
}

pub fn subtract(a: Model, b: Model) -> Result<Model, Refusal>
    ensures { outcome_of result ≡ subtraction a b }
{
    combine_models(a, b, -1)
}
