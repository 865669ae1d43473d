// What a round keeps, how the rounds end, and what the makers make.
ghost use Rattle.std.specs.Prelude.{◌≡◌};
ghost use Rattle.proposals.specs.definitions.Areas.{ending_number};
ghost use Rattle.proposals.specs.definitions.Reciprocal.{zero_round, refused_reciprocal};
ghost use Rattle.proposals.specs.definitions.Quotient.{refused_quotient};
ghost use Rattle.proposals.specs.definitions.Units.{zero_candidate as zero_candidate_of};

use model::types::{COEFFICIENTS, Candidate};

// The f64 coefficients and the largest change of a round.
#[derive(Clone, Copy)]
pub struct Round {
    pub coefficients: [f64; COEFFICIENTS],
    pub change: f64,
}

// How the rounds end, each with the last change. Kept: 01 names this form.
#[derive(Clone, Copy)]
pub enum Ending {
    Settled(f64),
    GivenUp(f64),
}

// Whether the rounds settled, for C.
impl From<Ending> for u32 {
    ghost from_gives = { λ ending n. n ≡ ending_number ending };

    fn from(ending: Ending) -> u32 {
        match ending {
            Ending::Settled(_) => 1,
            Ending::GivenUp(_) => 0,
        }
    }
}

// Rounds that were found finite: how they ended, and the last one.
#[derive(Clone, Copy)]
pub(crate) struct FiniteRounds {
    pub ending: Ending,
    pub round: Round,
}

// A proposal for 1/g: the outcome beside the record, and w in units.
#[derive(Clone, Copy)]
pub struct Reciprocal {
    pub ending: Ending,
    pub round: Round,
    pub w: Candidate,
}

// The record of a quotient: the f64 coefficients of f·w, and the round that keeps w.
#[derive(Clone, Copy)]
pub struct QuotientRecord {
    pub quotient: [f64; COEFFICIENTS],
    pub round: Round,
}

// Proposals for f/g and 1/g: the outcome beside the record, and both lists in units.
#[derive(Clone, Copy)]
pub struct Quotient {
    pub ending: Ending,
    pub recorded: QuotientRecord,
    pub h: Candidate,
    pub w: Candidate,
}

fn zero_round() -> Round
    ensures { result ≡ zero_round }
{
    Round {
        coefficients: [0.0; COEFFICIENTS],
        change: 0.0,
    }
}

// What stands beside the refusal of a list.
pub(crate) fn zero_candidate() -> Candidate
    ensures { result ≡ zero_candidate_of }
{
    Candidate {
        degree: 0,
        coefficients: [0i32; COEFFICIENTS],
    }
}

impl Reciprocal {
    // What stands beside a refusal: given up with change 0, and zero lists.
    pub(crate) fn zero() -> Reciprocal
        ensures { result ≡ refused_reciprocal }
    {
        Reciprocal {
            ending: Ending::GivenUp(0.0),
            round: zero_round(),
            w: zero_candidate(),
        }
    }
}

impl Quotient {
    // What stands beside a refusal, likewise.
    pub(crate) fn zero() -> Quotient
        ensures { result ≡ refused_quotient }
    {
        Quotient {
            ending: Ending::GivenUp(0.0),
            recorded: QuotientRecord {
                quotient: [0.0; COEFFICIENTS],
                round: zero_round(),
            },
            h: zero_candidate(),
            w: zero_candidate(),
        }
    }
}
