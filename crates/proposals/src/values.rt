// Values in f64, and lists of them.
ghost use Rattle.std.specs.Prelude.{◌≡◌, map};
ghost use Rattle.std.specs.List.{All};
ghost use Rattle.proposals.specs.definitions.Values.{value_of, difference as difference_of, greater as greater_of, all_finite};
ghost use Rattle.proposals.specs.definitions.InnerContracts.{Each};

use model::types::COEFFICIENTS;

// n units as a value, n / S: exact.
fn value_of(n: i32) -> f64
    ensures { result ≡ value_of n }
{
    (n as f64) / 1048576.0
}

// f of each element. Kept beside std's `map` of an array: its iterator takes 0.1 us more for each list.
pub(crate) fn each<A: Copy, B: Copy, F: Fn(A) -> B, const N: usize>(
    from: [A; N],
    fill: B,
    f: F,
) -> [B; N]
    requires { All (λ x. F.pre f x) from }
    ensures { Each (λ x y. F.post f x y) from result }
{
    let mut to = [fill; N];
    for (k, x) in from.iter().enumerate() {
        to[k] = f(*x);
    }
    to
}

// Coefficients in units, as values.
pub(crate) fn values_of(coefficients: [i32; COEFFICIENTS]) -> [f64; COEFFICIENTS]
    ensures { result ≡ map value_of coefficients }
{
    each(coefficients, 0.0, value_of)
}

// |x - y|, rounded once. Kept beside std's `abs`: the definition leaves a zero its sign.
pub(crate) fn difference(x: f64, y: f64) -> f64
    ensures { result ≡ difference_of x y }
{
    let d = x - y;
    if d < 0.0 { -d } else { d }
}

// Kept beside std's `max`: the definition gives x where x is a NaN, and -0 for -0 and +0.
pub(crate) fn greater(x: f64, y: f64) -> f64
    ensures { result ≡ greater_of x y }
{
    if x < y { y } else { x }
}

pub(crate) fn are_finite(values: [f64; COEFFICIENTS]) -> bool
    ensures { result ≡ all_finite values }
{
    values.iter().all(|x| x.is_finite())
}
