// The makers over lent areas: numbers behind those in use play no part and stay; an area that is itself too short is not written
// to. If any area is too short, refusal 1 before all else.
ghost use Rattle.std.specs.Prelude.{◌≡◌, [], ◌∷◌, ◌≤◌, length, IfOk};
ghost use Rattle.model.specs.definitions.Area.{candidate_size, area_out};
ghost use Rattle.model.specs.definitions.Models.{max_degree};
ghost use Rattle.model.specs.definitions.Outcomes.{verdict_number};
ghost use Rattle.proposals.specs.definitions.Areas.{value_count, round_size, quotient_size, outcome_size};
ghost use Rattle.proposals.specs.definitions.Areas.{round_numbers, quotient_numbers, candidate_numbers};
ghost use Rattle.proposals.specs.definitions.Areas.{reciprocal_in, reciprocal_answer, make_reciprocal_answer};
ghost use Rattle.proposals.specs.definitions.Areas.{quotient_in, quotient_answer, make_quotient_answer};
ghost use Rattle.proposals.specs.definitions.Areas.{units_in, units_answer, to_units_answer, area_values};
ghost use Rattle.proposals.specs.definitions.Reciprocal.{reciprocal_of};
ghost use Rattle.proposals.specs.definitions.Quotient.{quotient_of};
ghost use Rattle.proposals.specs.definitions.Units.{in_units_of};

use crate::quotient::make_quotient;
use crate::reciprocal::make_reciprocal;
use crate::types::{Quotient, QuotientRecord, Reciprocal, Round, zero_candidate};
use crate::units::to_units;
use model::area::{CANDIDATE_SIZE, MODEL_SIZE, model_in, store};
use model::types::{COEFFICIENTS, Candidate, Refusal};

// The coefficients of a round and its change.
const ROUND_SIZE: usize = 34;

// The 33 values of f·w, and a round.
const QUOTIENT_SIZE: usize = 67;

// Settled is 1, given up 0.
const OUTCOME_SIZE: usize = 1;

// The values in an area, which may be longer.
fn values_in(area: &[f64]) -> [f64; COEFFICIENTS]
    requires { value_count ≤ length area.now }
    ensures { result ≡ area_values area.now }
{
    let mut values = [0.0f64; COEFFICIENTS];
    values.copy_from_slice(&area[..COEFFICIENTS]);
    values
}

// The numbers of a round: its coefficients, then its change.
fn round_numbers(round: Round) -> [f64; ROUND_SIZE]
    ensures { result ≡ round_numbers round }
{
    let mut numbers = [0.0; ROUND_SIZE];
    numbers[..COEFFICIENTS].copy_from_slice(&round.coefficients);
    numbers[COEFFICIENTS] = round.change;
    numbers
}

// The record of a quotient: f·w, then the round with w.
fn quotient_numbers(made: QuotientRecord) -> [f64; QUOTIENT_SIZE]
    ensures { result ≡ quotient_numbers made }
{
    let mut numbers = [0.0; QUOTIENT_SIZE];
    numbers[..COEFFICIENTS].copy_from_slice(&made.quotient);
    numbers[COEFFICIENTS..].copy_from_slice(&round_numbers(made.round));
    numbers
}

// The degree of a candidate, then its coefficients.
fn candidate_numbers(c: Candidate) -> [i32; CANDIDATE_SIZE]
    requires { c.degree ≤ max_degree }
    ensures { result ≡ candidate_numbers c }
{
    let mut numbers = [0; CANDIDATE_SIZE];
    numbers[0] = c.degree as i32;
    numbers[1..].copy_from_slice(&c.coefficients);
    numbers
}

// The number of a refusal, or 0.
fn number<A: Copy>(made: &Result<A, Refusal>) -> u32
    ensures { result ≡ verdict_number made.now }
{
    match made {
        Ok(_) => 0,
        Err(refusal) => u32::from(*refusal),
    }
}

// Stores what the maker of reciprocals answers, and gives the number of its verdict.
// Kept: the areas as C lends them, here and below.
fn answer_reciprocal(
    made: Result<Reciprocal, Refusal>,
    recorded: &mut [f64],
    w: &mut [i32],
    outcome: &mut [u32],
) -> u32
    requires { IfOk made (λ m. m.w.degree ≤ max_degree) }
    ensures { reciprocal_answer result recorded.new w.new outcome.new
        ≡ reciprocal_in (reciprocal_of made) recorded.old w.old outcome.old }
{
    let values = made.unwrap_or(Reciprocal::zero());
    store(recorded, round_numbers(values.round));
    store(w, candidate_numbers(values.w));
    store(outcome, [u32::from(values.ending); OUTCOME_SIZE]);
    number(&made)
}

// A proposal for 1/g.
pub fn make_reciprocal_in(
    g: &[i32],
    recorded: &mut [f64],
    w: &mut [i32],
    outcome: &mut [u32],
) -> u32
    ensures { reciprocal_answer result recorded.new w.new outcome.new
        ≡ make_reciprocal_answer g.now recorded.old w.old outcome.old }
{
    if (MODEL_SIZE <= g.len())
        & (ROUND_SIZE <= recorded.len())
        & (CANDIDATE_SIZE <= w.len())
        & (OUTCOME_SIZE <= outcome.len())
    {
        answer_reciprocal(make_reciprocal(model_in(g)), recorded, w, outcome)
    } else {
        answer_reciprocal(Err(Refusal::ShortArea), recorded, w, outcome)
    }
}

// Stores what the maker of quotients answers, and gives the number of its verdict.
fn answer_quotient(
    made: Result<Quotient, Refusal>,
    recorded: &mut [f64],
    h: &mut [i32],
    w: &mut [i32],
    outcome: &mut [u32],
) -> u32
    requires { IfOk made (λ m. (m.h.degree ≤ max_degree) × (m.w.degree ≤ max_degree)) }
    ensures { quotient_answer result recorded.new h.new w.new outcome.new
        ≡ quotient_in (quotient_of made) recorded.old h.old w.old outcome.old }
{
    let values = made.unwrap_or(Quotient::zero());
    store(recorded, quotient_numbers(values.recorded));
    store(h, candidate_numbers(values.h));
    store(w, candidate_numbers(values.w));
    store(outcome, [u32::from(values.ending); OUTCOME_SIZE]);
    number(&made)
}

// Proposals h for f/g and w for 1/g.
pub fn make_quotient_in(
    f: &[i32],
    g: &[i32],
    recorded: &mut [f64],
    h: &mut [i32],
    w: &mut [i32],
    outcome: &mut [u32],
) -> u32
    ensures { quotient_answer result recorded.new h.new w.new outcome.new
        ≡ make_quotient_answer f.now g.now
        recorded.old h.old w.old outcome.old }
{
    if (MODEL_SIZE <= f.len())
        & (MODEL_SIZE <= g.len())
        & (QUOTIENT_SIZE <= recorded.len())
        & (CANDIDATE_SIZE <= h.len())
        & (CANDIDATE_SIZE <= w.len())
        & (OUTCOME_SIZE <= outcome.len())
    {
        answer_quotient(
            make_quotient(model_in(f), model_in(g)),
            recorded,
            h,
            w,
            outcome,
        )
    } else {
        answer_quotient(Err(Refusal::ShortArea), recorded, h, w, outcome)
    }
}

// Stores a list in units, and gives the number of its verdict.
fn answer_units(list: Result<Candidate, Refusal>, units: &mut [i32]) -> u32
    requires { IfOk list (λ c. c.degree ≤ max_degree) }
    ensures { units_answer result units.new ≡ units_in (in_units_of list) units.old }
{
    store(units, candidate_numbers(list.unwrap_or(zero_candidate())));
    number(&list)
}

// Values in units.
pub fn to_units_in(values: &[f64], units: &mut [i32]) -> u32
    ensures { units_answer result units.new ≡ to_units_answer values.now units.old }
{
    if (COEFFICIENTS <= values.len()) & (CANDIDATE_SIZE <= units.len()) {
        answer_units(to_units(values_in(values)), units)
    } else {
        answer_units(Err(Refusal::ShortArea), units)
    }
}
