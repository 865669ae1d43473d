// The quotient test: is h a quotient f/g, with w as a helper?
ghost use Rattle.std.specs.Prelude.{◌≡◌, ◌<◌, length, IfOk};
ghost use Rattle.certificate.specs.definitions.Tests.{scratch_size, scratch_after, test_of};
ghost use Rattle.certificate.specs.definitions.Quotient.{quotient_test};
ghost use Rattle.certificate.specs.definitions.Promise.{QuotientAllowed};
ghost use Rattle.certificate.specs.definitions.InnerContracts.{QuotientReady};

use crate::numbers::{
    SCALE, Weighed, displacement, quotient_contraction, quotient_residual, radius_for,
};
use crate::scratch::clear_scratch;
use crate::types::{Certificate, SCRATCH_SIZE};
use model::measure::{checked_candidate, checked_weight};
use model::types::{Candidate, Model, Refusal};

// The test of good models and candidates, over a part of the scratch of any length from 1.
// Inline, as a call of its own takes 464 bytes of stack more.
#[inline(always)]
fn test_good(
    part: &mut [i64],
    f: Model,
    g: Model,
    h: Weighed,
    w: Weighed,
) -> Result<Certificate, Refusal>
    requires { QuotientReady part.old f g h.candidate.now w.candidate.now }
    ensures { test_of result ≡ quotient_test scratch_size f g h.entry.candidate.now w.entry.candidate.now }
{
    let m = quotient_contraction(part, g, w);
    if SCALE <= m {
        return Err(Refusal::NotContracting);
    }
    let n = quotient_residual(part, f, g, h);
    if Model::MAX_RADIUS < n {
        return Err(Refusal::LargeResidual);
    }
    let b = displacement(w.weight, n);
    let radius = radius_for(b, m);
    Certificate::formed(*h.candidate, f.interval, radius, m, n, b)
}

// The test over a part of the scratch of any length from 1.
// Kept: its parameters by themselves, and the part's length a clause: a struct writes each clause longer, and saves no call.
fn test_in(
    part: &mut [i64],
    f: Model,
    g: Model,
    h: Candidate,
    w: Candidate,
) -> Result<Certificate, Refusal>
    requires { 0 < length part.old }
    ensures { test_of result ≡ quotient_test scratch_size f g h w }
{
    checked_weight(f)?;
    checked_weight(g)?;
    let weighed_h = Weighed {
        candidate: &h,
        weight: checked_candidate(h)?,
    };
    let weighed_w = Weighed {
        candidate: &w,
        weight: checked_candidate(w)?,
    };
    if f.interval != g.interval {
        return Err(Refusal::DifferentIntervals);
    }
    test_good(part, f, g, weighed_h, weighed_w)
}

// The last clause is what is promised of an accepted quotient.
pub fn quotient(
    f: Model,
    g: Model,
    h: Candidate,
    w: Candidate,
    scratch: &mut [i64],
) -> Result<Certificate, Refusal>
    ensures result_value { test_of result ≡ quotient_test (length scratch.old) f g h w }
    ensures scratch_after { scratch.new ≡ scratch_after scratch.old }
    ensures quotient_allowed { IfOk result (λ c. QuotientAllowed f g c.model) }
{
    if scratch.len() < SCRATCH_SIZE {
        return Err(Refusal::ShortArea);
    }
    let result = test_in(&mut scratch[..SCRATCH_SIZE], f, g, h, w);
    clear_scratch(scratch);
    result
}
