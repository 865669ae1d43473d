// The root tests: is h a square root of f, with w as a helper?
ghost use Rattle.std.specs.Prelude.{◌≡◌, ◌<◌, length, IfOk};
ghost use Rattle.chebyshev.specs.definitions.Coefficients.{coefficient_sum};
ghost use Rattle.certificate.specs.definitions.Tests.{scratch_size, scratch_after, test_of};
ghost use Rattle.certificate.specs.definitions.Root.{root_test};
ghost use Rattle.certificate.specs.definitions.Promise.{RootAllowed};
ghost use Rattle.certificate.specs.definitions.InnerContracts.{RootReady, reach_of, root_reach};

use crate::numbers::{SCALE, Weighed, displacement, root_contraction, root_residual};
use crate::root_end::RootNumbers;
use crate::scratch::clear_scratch;
use crate::types::{Certificate, RootRule, SCRATCH_SIZE};
use model::measure::{checked_candidate, checked_weight};
use model::types::{COEFFICIENTS, Candidate, Model, Refusal};

// Σ w_k
fn total(coefficients: &[i32; COEFFICIENTS]) -> i64
    ensures { result ≡ coefficient_sum coefficients.now }
{
    let mut sum: i64 = 0;
    for x in coefficients {
        sum += i64::from(*x);
    }
    sum
}

// The places from the helper's sign to N, of good models and candidates, over a part of the scratch of any length from 1.
fn numbers_of_good(
    part: &mut [i64],
    f: Model,
    h: &Candidate,
    w: Weighed,
) -> Result<RootNumbers, Refusal>
    requires { RootReady part.old f h.now w.candidate.now }
    ensures { reach_of result ≡ root_reach scratch_size f h.now w.entry.candidate.now }
{
    if total(&w.candidate.coefficients) <= 0 {
        return Err(Refusal::HelperNotPositive);
    }
    let m = root_contraction(part, h, w.candidate);
    if SCALE <= m {
        return Err(Refusal::NotContracting);
    }
    let n = root_residual(part, f, h);
    if Model::MAX_RADIUS < n {
        return Err(Refusal::LargeResidual);
    }
    let b = displacement(w.weight, n);
    Ok(RootNumbers {
        weight: w.weight,
        contraction: m,
        residual: n,
        displacement: b,
    })
}

// The places through N, over a part of the scratch of any length from 1. Kept: its parameters, as in quotient.rt.
fn numbers_in(
    part: &mut [i64],
    f: Model,
    h: Candidate,
    w: Candidate,
) -> Result<RootNumbers, Refusal>
    requires { 0 < length part.old }
    ensures { reach_of result ≡ root_reach scratch_size f h w }
{
    checked_weight(f)?;
    checked_candidate(h)?;
    let weighed_w = Weighed {
        candidate: &w,
        weight: checked_candidate(w)?,
    };
    numbers_of_good(part, f, &h, weighed_w)
}

// The places through N, and b.
fn root_numbers(
    f: Model,
    h: Candidate,
    w: Candidate,
    scratch: &mut [i64],
) -> Result<RootNumbers, Refusal>
    ensures result_value { reach_of result ≡ root_reach (length scratch.old) f h w }
    ensures scratch_after { scratch.new ≡ scratch_after scratch.old }
{
    if scratch.len() < SCRATCH_SIZE {
        return Err(Refusal::ShortArea);
    }
    let numbers = numbers_in(&mut scratch[..SCRATCH_SIZE], f, h, w);
    clear_scratch(scratch);
    numbers
}

// The last clause is what is promised of an accepted root, by either rule.
pub fn root(
    rule: RootRule,
    f: Model,
    h: Candidate,
    w: Candidate,
    scratch: &mut [i64],
) -> Result<Certificate, Refusal>
    ensures result_value { test_of result ≡ root_test rule (length scratch.old) f h w }
    ensures scratch_after { scratch.new ≡ scratch_after scratch.old }
    ensures root_allowed { IfOk result (λ c. RootAllowed f c.model) }
{
    let numbers = root_numbers(f, h, w, scratch)?;
    let radius = numbers.radius(rule)?;
    Ok(Certificate::new(
        h,
        f.interval,
        radius,
        numbers.contraction,
        numbers.residual,
        numbers.displacement,
    ))
}
