// Rounds of w times (2 - g·w).
ghost use Rattle.std.specs.Prelude.{◌≡◌};
ghost use Rattle.proposals.specs.definitions.Values.{nought};
ghost use Rattle.proposals.specs.definitions.Rounds.{two_less, change_from, next_round, finite_round};
ghost use Rattle.proposals.specs.definitions.Rounds.{max_rounds, rounds, round_of, found_finite};

use crate::product::multiply;
use crate::types::{Ending, FiniteRounds, Round};
use crate::values::{are_finite, difference, each, greater};
use model::types::{COEFFICIENTS, Refusal};

const ROUNDS: u32 = 12;

// 2^-24, at or below which a change is settled.
const SETTLED: f64 = 0.000000059604644775390625;

// 2 - c.
fn two_less(c: [f64; COEFFICIENTS]) -> [f64; COEFFICIENTS]
    ensures { result ≡ two_less c }
{
    let mut d = each(c, 0.0, |x| 0.0 - x);
    d[0] = 2.0 - c[0];
    d
}

// The largest rounded absolute difference.
fn largest_change(a: [f64; COEFFICIENTS], b: [f64; COEFFICIENTS]) -> f64
    ensures { result ≡ change_from nought a b }
{
    let mut change = 0.0;
    for (x, y) in a.iter().zip(&b) {
        change = greater(change, difference(*x, *y));
    }
    change
}

fn next_round(g: [f64; COEFFICIENTS], r: Round) -> Round
    ensures { result ≡ next_round g r }
{
    let w = r.coefficients;
    let c = two_less(multiply(g, w));
    let v = multiply(w, c);
    Round {
        coefficients: v,
        change: largest_change(v, w),
    }
}

fn is_finite_round(r: Round) -> bool
    ensures { result ≡ finite_round r }
{
    let w = r.coefficients;
    are_finite(w) & r.change.is_finite()
}

// At most 12 rounds from w on.
pub(crate) fn run_rounds(
    g: [f64; COEFFICIENTS],
    w: [f64; COEFFICIENTS],
) -> Result<FiniteRounds, Refusal>
    ensures { result ≡ found_finite (rounds max_rounds g (round_of w nought)) }
{
    let mut round = Round {
        coefficients: w,
        change: 0.0,
    };
    for _ in 0..ROUNDS {
        round = next_round(g, round);
        let change = round.change;
        if !is_finite_round(round) {
            return Err(Refusal::NotFinite);
        }
        if change <= SETTLED {
            let ending = Ending::Settled(change);
            return Ok(FiniteRounds { ending, round });
        }
    }
    let ending = Ending::GivenUp(round.change);
    Ok(FiniteRounds { ending, round })
}
