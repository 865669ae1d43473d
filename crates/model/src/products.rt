// The list C of two lists of coefficients, added to a list: one walk over all pairs, which answers how many it visited.
ghost use Rattle.std.specs.Prelude.{◌≡◌, suc, ◌+◌, ◌*◌, ◌^◌, ◌<◌, ◌≤◌, nat_abs, length};
ghost use Rattle.ring.specs.definitions.Integer.{ℤ_ring};
ghost use Rattle.chebyshev.specs.definitions.Coefficients.{weight};
ghost use Rattle.chebyshev.specs.definitions.Product.{add_at, add_pair, add_term, add_terms};

// v at place k.
fn add_at(c: &mut [i64], k: usize, v: i64)
    requires { (k < length c.old) × (weight c.old + nat_abs v < 2 ^ 63) }
    ensures { c.new ≡ add_at ℤ_ring c.old k v }
{
    c[k] += v;
}

// One visit of the pair (i, j) with the product v, for both its places: a pair with i + j = |i - j| counts twice.
// abs_diff is asked of j: of i, the loop over j < i would keep a test.
fn add_pair(c: &mut [i64], i: usize, j: usize, v: i64)
    requires { (i + j < length c.old) × (weight c.old + 2 * nat_abs v < 2 ^ 63) }
    ensures { c.new ≡ add_pair ℤ_ring c.old i j v }
{
    add_at(c, i + j, v);
    add_at(c, j.abs_diff(i), v);
}

// The pairs of x, at place i, with each element of b, the first at place j; answers how many they are.
fn add_pairs(c: &mut [i64], x: i64, i: usize, j: usize, b: &[i32]) -> usize
    requires { (i + j + length b.now ≤ length c.old) × (weight c.old + 2 * nat_abs x * weight b.now < 2 ^ 63) }
    ensures { (c.new, result) ≡ add_term ℤ_ring (c.old, 0) x i j b.now }
{
    for k in 0..b.len() {
        add_pair(c, i, j + k, x * (b[k] as i64));
    }
    b.len()
}

// The whole term of x, at place i, cut at j = i, so that no loop has to choose between i - j and j - i.
fn add_term(c: &mut [i64], x: i64, i: usize, b: &[i32]) -> usize
    requires { (i + length b.now ≤ length c.old) × (weight c.old + 2 * nat_abs x * weight b.now < 2 ^ 63) }
    ensures { (c.new, result) ≡ add_term ℤ_ring (c.old, 0) x i 0 b.now }
{
    if i < b.len() {
        let before = add_pairs(c, x, i, 0, &b[..i]);
        let behind = add_pairs(c, x, i, i, &b[i..]);
        before + behind
    } else {
        add_pairs(c, x, i, 0, b)
    }
}

// C(a, b), which c has room for; answers how many pairs were visited.
pub fn add_products(c: &mut [i64], a: &[i32], b: &[i32]) -> usize
    requires b_len_bound { length a.now + length b.now ≤ suc (length c.old) }
    requires b_bound { weight c.old + 2 * weight a.now * weight b.now < 2 ^ 63 }
    requires b_len_bound_2 { length a.now * length b.now < 2 ^ 64 }
    ensures result_after { (c.new, result) ≡ add_terms ℤ_ring (c.old, 0) 0 a.now b.now }
    ensures value { result ≡ length a.now * length b.now }
{
    let mut visits = 0;
    for (i, x) in a.iter().enumerate() {
        visits += add_term(c, *x as i64, i, b);
    }
    visits
}
