// The product of two lists of 33 values. A term of the walk over all pairs is three passes, which add at each place in the walk's
// order.
ghost use Rattle.std.specs.Prelude.{◌≡◌, reverse, ◌<◌, length};
ghost use Rattle.std.specs.Float.{binary64};
ghost use Rattle.std.specs.Float.Ieee.{add, mul};
ghost use Rattle.chebyshev.specs.definitions.Passes.{add_from_by};
ghost use Rattle.chebyshev.specs.definitions.Product.{add_term_by};
ghost use Rattle.proposals.specs.definitions.Product.{product};

use crate::values::each;
use model::types::COEFFICIENTS;

// x times each element of b, added to c as far as both reach.
// Kept by index: a proof knows nothing of what was written through `iter_mut` under `zip`.
fn add_multiple(c: &mut [f64], x: f64, b: &[f64])
    ensures { c.new ≡ add_from_by (add binary64) (mul binary64) c.old x 0 b.now }
{
    for k in 0..c.len().min(b.len()) {
        c[k] = c[k] + x * b[k];
    }
}

// The term of x at place i: at i+j, at i-j, and at j-i. `back` is b reversed.
// Kept apart from the products of whole numbers: f64 rounds, and the order of its sums is promised to the last bit.
fn add_term(c: &mut [f64], x: f64, i: usize, b: &[f64], back: &[f64])
    requires { (i < length b.now) × (i < length c.old) × (back.now ≡ reverse b.now) }
    ensures { c.new ≡ (add_term_by (add binary64) (mul binary64) (c.old, 0) x i 0 b.now).0 }
{
    add_multiple(&mut c[i..], x, b);
    add_multiple(c, x, &back[b.len() - 1 - i..]);
    add_multiple(&mut c[1..], x, &b[i + 1..]);
}

pub(crate) fn multiply(a: [f64; COEFFICIENTS], b: [f64; COEFFICIENTS]) -> [f64; COEFFICIENTS]
    ensures { result ≡ product a b }
{
    let mut back = b;
    back.reverse();
    let mut c = [0.0f64; COEFFICIENTS];
    for (i, x) in a.iter().enumerate() {
        add_term(&mut c, *x, i, &b, &back);
    }
    each(c, 0.0, |x| x / 2.0)
}
