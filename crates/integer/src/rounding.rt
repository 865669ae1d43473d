ghost use Rattle.std.specs.Prelude.{◌≡◌, ◌<◌, pos, nat_abs, ◌-ℤ◌, ◌*ℤ◌, ◌<ℤ◌};
ghost use Rattle.integer.specs.definitions.Rounding.{floor as floor_of, up as up_of, upℕ, near as near_of};

// n / d rounded down, for every n. Kept: 0 < d in each clause, as a type for it would be made and opened at each call.
// Kept: slower by div_euclid, and near is slower where one function gives both numbers: of a constant d, a power of two, the
// compiler then makes no shift.
pub fn floor(n: i64, d: i64) -> i64
    requires { pos 0 <ℤ d }
    ensures { result ≡ floor_of n (nat_abs d) }
{
    let q = n / d;
    let r = n % d;
    if r < 0 { q - 1 } else { q }
}

// n / d rounded up, for every n.
// Kept: std has div_ceil of unsigned numbers alone.
pub fn up(n: i64, d: i64) -> i64
    requires { pos 0 <ℤ d }
    ensures { result ≡ up_of n (nat_abs d) }
{
    let q = n / d;
    let r = n % d;
    if 0 < r { q + 1 } else { q }
}

// What n / d rounded down leaves of n: at least 0, less than d.
fn modulo(n: i64, d: i64) -> i64
    requires { pos 0 <ℤ d }
    ensures { result ≡ n -ℤ floor_of n (nat_abs d) *ℤ d }
{
    let r = n % d;
    if r < 0 { r + d } else { r }
}

// The nearest whole number to n / d, a tie going to the even one, for every n. What is left above c·d is compared with what
// is missing up to (c + 1)·d: twice n, or twice a remainder, need not fit.
pub fn near(n: i64, d: i64) -> i64
    requires { pos 0 <ℤ d }
    ensures { result ≡ near_of n (nat_abs d) }
{
    let rest = modulo(n, d);
    let c = floor(n, d);
    let odd = c & 1;
    if d - rest < rest + odd { c + 1 } else { c }
}

// n / d rounded up, of unsigned numbers.
pub fn up_unsigned(n: u64, d: u64) -> u64
    requires { 0 < d }
    ensures { result ≡ upℕ n d }
{
    n.div_ceil(d)
}
