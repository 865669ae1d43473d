// Document 01's numbers of the tests, m, N and b, and the radii, over a part of the scratch of any length from 1.
ghost use Rattle.std.specs.Prelude.{◌≡◌, true, suc, ◌+◌, ◌*◌, ◌-◌, ◌≤◌, ◌<◌, ◌^◌, length, take};
ghost use Rattle.integer.specs.definitions.Rounding.{upℕ};
ghost use Rattle.chebyshev.specs.definitions.Coefficients.{weight as weight_of};
ghost use Rattle.model.specs.definitions.Models.{scale, max_degree, max_weight, max_radius, good};
ghost use Rattle.certificate.specs.definitions.Quotient.{quotient_contraction, quotient_residual};
ghost use Rattle.certificate.specs.definitions.Root.{root_contraction, root_residual};
ghost use Rattle.certificate.specs.definitions.InnerContracts.{Ready, standard_candidate};

use crate::residual::residual;
use integer::rounding::up_unsigned;
use model::types::{COEFFICIENTS, Candidate, Model};

// S and 2S
pub(crate) const SCALE: u64 = Model::SCALE as u64;

const UNIT: u64 = 2 * SCALE;

// S and S/2 as coefficients: at place 0 of C they stand for 2S² and S².
const ONE: i32 = Model::SCALE as i32;

const HALF: i32 = ONE / 2;

// A candidate and its weight: M of w, H of h.
#[derive(Clone, Copy)]
pub(crate) struct Weighed<'a> {
    pub(crate) candidate: &'a Candidate,
    pub(crate) weight: u64,
    ghost weighed: { weight ≡ weight_of candidate.now.coefficients },
}

// The coefficients up to the degree.
fn terms(coefficients: &[i32; COEFFICIENTS], degree: u32) -> &[i32]
    requires { degree ≤ max_degree }
    ensures value { result.now ≡ take (suc degree) coefficients.now }
    ensures some { 0 < length result.now }
{
    &coefficients[..degree as usize + 1]
}

// m of the quotient.
pub(crate) fn quotient_contraction(part: &mut [i64], g: Model, w: Weighed) -> u64
    requires { Ready part.old (standard_candidate w.candidate.now) g }
    ensures { result ≡ quotient_contraction g (standard_candidate w.entry.candidate.now) }
{
    let constant = [ONE];
    let distance = residual(
        part,
        terms(&w.candidate.coefficients, w.candidate.degree),
        terms(&g.coefficients, g.degree),
        &constant,
    );
    up_unsigned(distance + 2 * w.weight * (g.radius as u64), UNIT)
}

// N of the quotient.
pub(crate) fn quotient_residual(part: &mut [i64], f: Model, g: Model, h: Weighed) -> u64
    requires { Ready part.old g (standard_candidate h.candidate.now) × (good f ≡ true) }
    ensures { result ≡ quotient_residual f g (standard_candidate h.entry.candidate.now) }
{
    let distance = residual(
        part,
        terms(&g.coefficients, g.degree),
        terms(&h.candidate.coefficients, h.candidate.degree),
        terms(&f.coefficients, f.degree),
    );
    up_unsigned(
        distance + UNIT * (f.radius as u64) + 2 * h.weight * (g.radius as u64),
        UNIT,
    )
}

// m of the root.
pub(crate) fn root_contraction(part: &mut [i64], h: &Candidate, w: &Candidate) -> u64
    requires { Ready part.old (standard_candidate w.now) (standard_candidate h.now) }
    ensures { result ≡ root_contraction (standard_candidate h.now) (standard_candidate w.now) }
{
    let constant = [HALF];
    let distance = residual(
        part,
        terms(&w.coefficients, w.degree),
        terms(&h.coefficients, h.degree),
        &constant,
    );
    up_unsigned(distance, SCALE)
}

// N of the root.
pub(crate) fn root_residual(part: &mut [i64], f: Model, h: &Candidate) -> u64
    requires { Ready part.old (standard_candidate h.now) (standard_candidate h.now) × (good f ≡ true) }
    ensures { result ≡ root_residual f (standard_candidate h.now) }
{
    let distance = residual(
        part,
        terms(&h.coefficients, h.degree),
        terms(&h.coefficients, h.degree),
        terms(&f.coefficients, f.degree),
    );
    up_unsigned(distance + UNIT * (f.radius as u64), UNIT)
}

// b; `weight` is M.
pub(crate) fn displacement(weight: u64, n: u64) -> u64
    requires { (weight ≤ max_weight) × (n ≤ max_radius) }
    ensures { result ≡ upℕ (weight * n) scale }
{
    up_unsigned(weight * n, SCALE)
}

// up(n·S/(S-m)): a quotient's radius where n is b, a root's by the discriminant where n is 2b.
pub(crate) fn radius_for(n: u64, m: u64) -> u64
    requires { (n ≤ 2 ^ 37) × (m < scale) }
    ensures { result ≡ upℕ (n * scale) (scale - m) }
{
    up_unsigned(n * SCALE, SCALE - m)
}
