// A list of whole numbers over one divisor, rounded, with what the rounding and the dropped numbers lose.
ghost use Rattle.std.specs.Prelude.{nat_abs};
ghost use Rattle.model.specs.definitions.InnerContracts.{Roundable, RoundedFrom};

use crate::measure::weigh;
use crate::types::{COEFFICIENTS, Model};
use integer::rounding::near;

// The rounded coefficients, which count only where their weight is within its limit, their weight, and what the rounding
// and the dropped coefficients lose, in units of the list.
#[derive(Clone, Copy)]
pub struct Rounded {
    pub coefficients: [i32; COEFFICIENTS],
    pub weight: u64,
    pub loss: u64,
}

// The first `kept` numbers of the list c divided by `unit` and rounded, the others dropped.
pub fn round(c: &[i64], kept: usize, unit: i64) -> Rounded
    requires { Roundable c.now kept unit }
    ensures { RoundedFrom (nat_abs unit) c.now kept result }
{
    let mut coefficients = [0i32; COEFFICIENTS];
    let mut weight: u64 = 0;
    let mut loss: u64 = weigh(&c[kept..]);
    for (k, exact) in c[..kept].iter().enumerate() {
        let q = near(*exact, unit);
        loss += (exact - unit * q).unsigned_abs();
        weight += q.unsigned_abs();
        if weight <= Model::MAX_WEIGHT {
            coefficients[k] = q as i32;
        }
    }
    Rounded {
        coefficients,
        weight,
        loss,
    }
}
