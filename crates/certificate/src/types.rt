// What a test that passes gives, and the rules of the root tests.
ghost use Rattle.std.specs.Prelude.{◌≡◌, true};
ghost use Rattle.model.specs.definitions.Models.{good, candidate_model};
ghost use Rattle.certificate.specs.definitions.Tests.{make_certificate, with_radius, certificate_of, test_of};
ghost use Rattle.certificate.specs.definitions.InnerContracts.{formed_test};

use model::types::{Candidate, Interval, Model, Refusal};

// How many numbers a test borrows.
pub const SCRATCH_SIZE: usize = 16;

// The result, and document 01's m, N and b.
#[derive(Clone, Copy)]
pub struct Certificate {
    pub model: Model,
    pub contraction: u64,
    pub residual: u64,
    pub displacement: u64,
}

impl Certificate {
    // h with its radius, on its operand's interval.
    pub(crate) fn new(
        h: Candidate,
        interval: Interval,
        radius: u32,
        contraction: u64,
        residual: u64,
        displacement: u64,
    ) -> Certificate
        ensures { certificate_of result
            ≡ make_certificate (with_radius (candidate_model interval h) radius) contraction residual displacement }
    {
        let coefficients = h.coefficients;
        Certificate {
            model: Model::new(h.degree, coefficients, radius, interval),
            contraction,
            residual,
            displacement,
        }
    }

    // The same, unless that is too large.
    pub(crate) fn formed(
        h: Candidate,
        interval: Interval,
        radius: u64,
        contraction: u64,
        residual: u64,
        displacement: u64,
    ) -> Result<Certificate, Refusal>
        requires { good (candidate_model interval h) ≡ true }
        ensures { test_of result ≡ formed_test (candidate_model interval h) radius contraction residual displacement }
    {
        if radius <= Model::MAX_RADIUS {
            Ok(Certificate::new(
                h,
                interval,
                radius as u32,
                contraction,
                residual,
                displacement,
            ))
        } else {
            Err(Refusal::LargeResult)
        }
    }
}

// What is asked of a root behind N and b, and its radius: command 0x21's discriminant and radius, or command 0x22's least radius.
#[derive(Clone, Copy)]
pub enum RootRule {
    ByDiscriminant,
    ByLeastRadius,
}
