// A group of places of the list C, two places at a time, without the rest of the list.
ghost use Rattle.std.specs.Prelude.{◌≡◌, ◌+◌, ◌*◌, ◌≤◌, ◌<◌, ◌^◌, length};
ghost use Rattle.ring.specs.definitions.Integer.{ℤ_ring};
ghost use Rattle.chebyshev.specs.definitions.Coefficients.{weight};
ghost use Rattle.chebyshev.specs.definitions.TwoSums.{two_sums, places_from};
ghost use Rattle.groups.specs.definitions.InnerContracts.{Holds};

use crate::pairs::{Factors, TwoPlaces};

// C_k and C_(k+1). At place 0 the pairs with i-j = 0 and with j-i = 0 are the same and count once.
fn two_places(factors: Factors, k: usize) -> TwoPlaces
    requires { (0 < length factors.b.now) × (k + 1 < 2 ^ 64) }
    ensures { Holds result (two_sums ℤ_ring k factors.entry.a.now factors.entry.b.now)
        (two_sums ℤ_ring (k + 1) factors.entry.a.now factors.entry.b.now) }
{
    let x = factors.convolutions(k);
    let swapped = Factors {
        a: factors.b,
        b: factors.a,
    };
    let y = swapped.add_correlations(x, k);
    let z = factors.add_correlations(y, k);
    if k == 0 {
        return TwoPlaces {
            first: y.first,
            second: z.second,
        };
    }
    z
}

// The places of C(a, b) from `start` on, as many as the part has numbers.
pub fn form(part: &mut [i64], start: usize, a: &[i32], b: &[i32])
    requires { (0 < length b.now) × (weight a.now * weight b.now ≤ 2 ^ 56) × (start + length part.old < 2 ^ 64) }
    ensures { part.new ≡ places_from ℤ_ring (length part.old) start a.now b.now }
{
    let factors = Factors { a, b };
    // Kept: with (0..part.len()).step_by(2) a product takes 15 to 25 percent more instructions.
    let mut t = 0;
    while t < part.len() {
        let two = two_places(factors, start + t);
        part[t] = two.first;
        t += 1;
        if t < part.len() {
            part[t] = two.second;
            t += 1;
        }
    }
}
