// Evaluate at p/S: a pass over the coefficients forms V and W, from which the bounds are taken.
ghost use Rattle.std.specs.Prelude.{◌≡◌, true, suc, ◌≤◌, take};
ghost use Rattle.model.specs.definitions.InnerContracts.{Evaluable, error_factor, error_from};
ghost use Rattle.model.specs.definitions.Intervals.{good_ends};
ghost use Rattle.model.specs.definitions.Models.{max_degree};
ghost use Rattle.model.specs.definitions.Evaluate.{point_sum, mapped_point, maps_exactly, bounds_of, evaluation};

use crate::measure::checked_weight;
use crate::types::{Bounds, COEFFICIENTS, Interval, Model, Refusal};

// 2^30, the scale of t_k: t_0 = 2^30 and t_1 = 2^10·p.
const TERM_SCALE: i64 = 1073741824;

const POINT_FACTOR: i64 = 1024;
// 2^32 = 4·2^30, the scale of 4V and W.
const SUM_SCALE: i64 = 4294967296;

// V and W of document 01, at the mapped point.
#[derive(Clone, Copy)]
struct PointSums {
    value: i64,
    error: u64,
}

// A point of an interval taken to one from -1 to 1, and whether that is exact.
// Kept: the point counts whether it is exact or not, so that a None would lose it.
#[derive(Clone, Copy)]
struct MappedPoint {
    point: i64,
    exact: bool,
}

fn map_point(i: Interval, p: i32) -> MappedPoint
    requires { good_ends i ≡ true }
    ensures point_value { result.point ≡ mapped_point i p }
    ensures exact_value { result.exact ≡ maps_exactly i p }
{
    let lower = i.lower as i64;
    let upper = i.upper as i64;
    let extent = upper - lower;
    let numerator = Model::SCALE * (2 * (p as i64) - lower - upper);
    let point = integer::rounding::near(numerator, extent);
    MappedPoint {
        point,
        exact: point * extent == numerator,
    }
}

// What |a_k| counts for in W: k·(k-1), and 2^11·k² more where the point was rounded.
fn error_factor(k: usize, exact: bool) -> u64
    requires { k ≤ max_degree }
    ensures { result ≡ error_factor exact k }
{
    let square = k * k;
    if exact {
        (square - k) as u64
    } else {
        (2049 * square - k) as u64
    }
}

// One pass over the coefficients up to the degree, with t_k and t_(k+1) at hand; `exact` is whether nothing was rounded in p.
fn point_sums(degree: u32, coefficients: &[i32; COEFFICIENTS], p: i64, exact: bool) -> PointSums
    requires { Evaluable degree coefficients.now p }
    ensures value_value { result.value ≡ point_sum p 0 (take (suc degree) coefficients.now) }
    ensures error_value { result.error ≡ error_from exact 0 (take (suc degree) coefficients.now) }
{
    let mut value: i64 = 0;
    let mut error: u64 = 0;
    let mut t = TERM_SCALE;
    let mut next = POINT_FACTOR * p;
    for (k, c) in coefficients[..=degree as usize].iter().enumerate() {
        value += *c as i64 * t;
        error += c.unsigned_abs() as u64 * error_factor(k, exact);
        let after = integer::rounding::near(2 * p * next, Model::SCALE) - t;
        t = next;
        next = after;
    }
    PointSums { value, error }
}

pub fn evaluate(a: Model, p: i32) -> Result<Bounds, Refusal>
    ensures { bounds_of result ≡ evaluation a p }
{
    checked_weight(a)?;
    if !a.interval.contains(p) {
        return Err(Refusal::PointOutside);
    }
    let mapped = map_point(a.interval, p);
    let sums = point_sums(a.degree, &a.coefficients, mapped.point, mapped.exact);
    let value = 4 * sums.value;
    let error = sums.error as i64;
    let radius = a.radius as i64;
    let low = integer::rounding::floor(value - error, SUM_SCALE) - radius;
    let high = integer::rounding::up(value + error, SUM_SCALE) + radius;
    Ok(Bounds { low, high })
}
