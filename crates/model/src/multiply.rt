// Multiply with a kept degree: the list C, rounded, and what the rounding and the dropped coefficients lose.
ghost use Rattle.std.specs.Prelude.{◌≡◌, ◌+◌, ◌*◌, ◌^◌, ◌<◌, ◌≤◌, length};
ghost use Rattle.ring.specs.definitions.Integer.{ℤ_ring};
ghost use Rattle.chebyshev.specs.definitions.Product.{product_walk};
ghost use Rattle.model.specs.definitions.InnerContracts.{Factors, Limited, Multipliable, RoundedWalk, unless_large};
ghost use Rattle.model.specs.definitions.Models.{scale, coefficient_count, product_size};
ghost use Rattle.model.specs.definitions.Outcomes.{outcome_of};
ghost use Rattle.model.specs.definitions.Multiply.{bad_kept, kept_degree, product_model, product_visits, multiplication};

use crate::measure::checked_weight;
use crate::products::add_products;
use crate::round::{Rounded, round};
use crate::types::{Model, PRODUCT_SIZE, Refusal};
use integer::rounding::up_unsigned;

// One unit of a coefficient, in units of C.
const UNIT: i64 = 2 * Model::SCALE;

// A kept degree that means the larger degree of the two factors.
// Kept: a number and no enum, as `multiply` takes every number, and refuses one behind the models and their intervals.
const LARGER_DEGREE: u32 = 255;

// Neither 0 to 32 nor 255.
pub fn is_bad_kept(kept: u32) -> bool
    ensures { result ≡ bad_kept kept }
{
    (kept != LARGER_DEGREE) & (Model::MAX_DEGREE < kept)
}

// The kept degree that a number stands for between factors of two degrees.
fn kept_degree(kept: u32, first: u32, second: u32) -> u32
    ensures { result ≡ kept_degree kept first second }
{
    if kept == LARGER_DEGREE {
        first.max(second)
    } else {
        kept
    }
}

// A list C, rounded, and how many pairs the walk that formed it visited.
#[derive(Clone, Copy)]
pub struct RoundedProduct {
    pub rounded: Rounded,
    pub visits: usize,
}

// A product, and how many pairs were visited for it.
#[derive(Clone, Copy)]
pub struct Multiplied {
    pub outcome: Result<Model, Refusal>,
    pub visits: usize,
}

// What the radii lose: 2(A·e_b + B·e_a + e_a·e_b) of weights A, B and radii e_a, e_b.
fn radius_loss(a: u64, ea: u64, b: u64, eb: u64) -> u64
    requires { Limited a ea b eb }
    ensures { (result ≡ 2 * (a * eb + b * ea + ea * eb)) × (result < 2 ^ 62) }
{
    2 * (a * eb + b * ea + ea * eb)
}

// The list C of two lists of coefficients, rounded. It ends at the sum of the degrees.
fn round_product(a: &[i32], b: &[i32], kept: usize) -> RoundedProduct
    requires factors { Factors a.now b.now }
    requires kept_le_coefficient_count { (kept ≤ coefficient_count) × (kept < length a.now + length b.now) }
    ensures { RoundedWalk (2 * scale) (product_walk ℤ_ring product_size a.now b.now) kept result }
{
    let mut c = [0i64; PRODUCT_SIZE];
    let visits = add_products(&mut c, a, b);
    let end = a.len() + b.len() - 1;
    let rounded = round(&c[..end], kept, UNIT);
    RoundedProduct { rounded, visits }
}

// Of two good models, with their weights, to a kept degree within its limit.
fn multiply_good(a: Model, b: Model, weight_a: u64, weight_b: u64, kept: u32) -> Multiplied
    requires { Multipliable a b weight_a weight_b kept }
    ensures outcome_value { outcome_of result.outcome ≡ unless_large (product_model kept a b) }
    ensures visits_value { result.visits ≡ product_visits a b }
{
    let top = a.degree + b.degree;
    let degree = kept.min(top);
    let product = round_product(
        &a.coefficients[..a.degree as usize + 1],
        &b.coefficients[..b.degree as usize + 1],
        degree as usize + 1,
    );
    let rounded = product.rounded;
    let loss = rounded.loss + radius_loss(weight_a, a.radius as u64, weight_b, b.radius as u64);
    let radius = up_unsigned(loss, UNIT as u64);
    let outcome = Model::formed(
        degree,
        rounded.coefficients,
        rounded.weight,
        radius,
        a.interval,
    );
    Multiplied {
        outcome,
        visits: product.visits,
    }
}

pub fn multiply(a: Model, b: Model, kept: u32) -> Result<Model, Refusal>
    ensures { outcome_of result ≡ multiplication kept a b }
{
    let weight_a = checked_weight(a)?;
    let weight_b = checked_weight(b)?;
    if a.interval != b.interval {
        return Err(Refusal::DifferentIntervals);
    }
    if is_bad_kept(kept) {
        return Err(Refusal::BadValue);
    }
    let degree = kept_degree(kept, a.degree, b.degree);
    multiply_good(a, b, weight_a, weight_b, degree).outcome
}
