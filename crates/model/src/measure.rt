// The test for a good model, and the weight, in one pass over the coefficients.
ghost use Rattle.std.specs.Prelude.{◌≡◌, ◌<◌, ◌^◌, length, true, false, IfOk, IfErr};
ghost use Rattle.model.specs.declared.types.Refusal.TheVariants.{BadModel};
ghost use Rattle.chebyshev.specs.definitions.Coefficients.{weight};
ghost use Rattle.model.specs.definitions.Models.{coefficient_count, parts_within_limits, within_limits, good, fault};
ghost use Rattle.model.specs.definitions.Outcomes.{number_of};

use crate::types::{COEFFICIENTS, Candidate, Model, Refusal};

// Kept: `measure` and `measure_candidate` promise the weight of a bad model too; `checked_weight` has the Result.
#[derive(Clone, Copy)]
pub struct Measured {
    pub good: bool,
    pub weight: u64,
}

// The degree, the weight and what lies beyond the degree, of a model with radius 0 given by its parts.
fn measure_parts(degree: u32, coefficients: &[i32; COEFFICIENTS]) -> Measured
    ensures good_value { result.good ≡ parts_within_limits degree coefficients.now 0 }
    ensures weight_value { result.weight ≡ weight coefficients.now }
{
    let n = degree as usize;
    let mut total: u64 = 0;
    let mut beyond: u64 = 0;
    for (i, c) in coefficients.iter().enumerate() {
        let size = c.unsigned_abs() as u64;
        total += size;
        if n < i {
            beyond += size;
        }
    }
    Measured {
        good: (degree <= Model::MAX_DEGREE) & (total <= Model::MAX_WEIGHT) & (beyond == 0),
        weight: total,
    }
}

// All but the ends.
fn measure_limits(m: Model) -> Measured
    ensures { (result.good ≡ within_limits m) × (result.weight ≡ weight m.coefficients) }
{
    let parts = measure_parts(m.degree, &m.coefficients);
    Measured {
        good: parts.good & (m.radius as u64 <= Model::MAX_RADIUS),
        weight: parts.weight,
    }
}

pub fn measure(m: Model) -> Measured
    ensures { (result.good ≡ good m) × (result.weight ≡ weight m.coefficients) }
{
    let limits = measure_limits(m);
    Measured {
        good: limits.good & m.interval.is_good(),
        weight: limits.weight,
    }
}

// A candidate's ends are its operand's.
pub fn measure_candidate(c: Candidate) -> Measured
    ensures { (result.good ≡ parts_within_limits c.degree c.coefficients 0) × (result.weight ≡ weight c.coefficients) }
{
    measure_parts(c.degree, &c.coefficients)
}

// The test for a good model.
pub fn is_good(m: Model) -> bool
    ensures { result ≡ good m }
{
    measure(m).good
}

// Why a model is not good: its ends count only where nothing else is wrong. Where they are good, it is not measured again.
pub fn fault_of(m: Model) -> Refusal
    ensures { number_of result ≡ fault m }
{
    if !m.interval.is_good() && measure_limits(m).good {
        Refusal::BadEnds
    } else {
        Refusal::BadModel
    }
}

// The weight of a good model, or why it is not good.
pub fn checked_weight(m: Model) -> Result<u64, Refusal>
    ensures ok { IfOk result (λ weight_value. (good m ≡ true) × (weight_value ≡ weight m.coefficients)) }
    ensures err { IfErr result (λ refusal. (good m ≡ false) × (number_of refusal ≡ fault m)) }
{
    let measured = measure(m);
    if measured.good {
        Ok(measured.weight)
    } else {
        Err(fault_of(m))
    }
}

// The weight of a good candidate.
pub fn checked_candidate(c: Candidate) -> Result<u64, Refusal>
    ensures ok { IfOk result
        (λ weight_value. (parts_within_limits c.degree c.coefficients 0 ≡ true) × (weight_value ≡ weight c.coefficients)) }
    ensures err { IfErr result (λ refusal. (parts_within_limits c.degree c.coefficients 0 ≡ false) × (refusal ≡ BadModel)) }
{
    let measured = measure_candidate(c);
    if measured.good {
        Ok(measured.weight)
    } else {
        Err(Refusal::BadModel)
    }
}

// The sum of the absolute values of a list.
pub fn weigh(c: &[i64]) -> u64
    requires { weight c.now < 2 ^ 64 }
    ensures { result ≡ weight c.now }
{
    let mut total: u64 = 0;
    for x in c {
        total += x.unsigned_abs();
    }
    total
}
