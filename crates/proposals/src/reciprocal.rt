// The maker of reciprocals: from a model in units, by rounds in f64, back to units.
ghost use Rattle.std.specs.Prelude.{◌≡◌, map};
ghost use Rattle.proposals.specs.definitions.Values.{value_of};
ghost use Rattle.proposals.specs.definitions.Rounds.{found_finite};
ghost use Rattle.proposals.specs.definitions.Reciprocal.{constant_list, reciprocal_rounds, reciprocal_proposal, reciprocal_of};
ghost use Rattle.proposals.specs.definitions.ExactCase.{ExactReciprocal};

use crate::rounds::run_rounds;
use crate::types::{FiniteRounds, Reciprocal};
use crate::units::to_units;
use crate::values::values_of;
use model::measure::checked_weight;
use model::types::{COEFFICIENTS, Model, Refusal};

fn constant(x: f64) -> [f64; COEFFICIENTS]
    ensures { result ≡ constant_list x }
{
    let mut list = [0.0f64; COEFFICIENTS];
    list[0] = x;
    list
}

// The rounds for 1/g, of coefficients in units.
pub(crate) fn make(g: [i32; COEFFICIENTS]) -> Result<FiniteRounds, Refusal>
    ensures { result ≡ found_finite (reciprocal_rounds (map value_of g)) }
{
    let values = values_of(g);
    let first = values[0];
    if first == 0.0 {
        return Err(Refusal::NotFinite);
    }
    run_rounds(values, constant(1.0 / first))
}

// A proposal for 1/g.
pub fn make_reciprocal(g: Model) -> Result<Reciprocal, Refusal>
    ensures result_value { reciprocal_of result ≡ reciprocal_proposal g }
    ensures exact_reciprocal { ExactReciprocal g (reciprocal_of result) }
{
    checked_weight(g)?;
    let FiniteRounds { ending, round } = make(g.coefficients)?;
    let w = to_units(round.coefficients)?;
    Ok(Reciprocal { ending, round, w })
}
