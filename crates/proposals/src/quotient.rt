// The maker of quotients: f times the reciprocal of g.
ghost use Rattle.std.specs.Prelude.{◌≡◌};
ghost use Rattle.proposals.specs.definitions.Quotient.{quotient_proposal, quotient_of};
ghost use Rattle.proposals.specs.definitions.ExactCase.{ExactQuotient};

use crate::product::multiply;
use crate::reciprocal::make;
use crate::types::{FiniteRounds, Quotient, QuotientRecord};
use crate::units::to_units;
use crate::values::values_of;
use model::measure::checked_weight;
use model::types::{Model, Refusal};

// Proposals h for f/g and w for 1/g. The rounds were found finite before f·w is tested, so 15 of either comes before 16 of
// either.
pub fn make_quotient(f: Model, g: Model) -> Result<Quotient, Refusal>
    ensures result_value { quotient_of result ≡ quotient_proposal f g }
    ensures exact_quotient { ExactQuotient f g (quotient_of result) }
{
    checked_weight(f)?;
    checked_weight(g)?;
    if f.interval != g.interval {
        return Err(Refusal::DifferentIntervals);
    }
    let FiniteRounds { ending, round } = make(g.coefficients)?;
    let quotient = multiply(values_of(f.coefficients), round.coefficients);
    let h = to_units(quotient)?;
    let w = to_units(round.coefficients)?;
    let recorded = QuotientRecord { quotient, round };
    Ok(Quotient {
        ending,
        recorded,
        h,
        w,
    })
}
