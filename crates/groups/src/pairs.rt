// The sums over the pairs that belong to a place of the list C, for two places at a time: they share the loads of coefficients.
ghost use Rattle.std.specs.Prelude.{◌+◌, ◌-◌, ◌*◌, ◌≤◌, ◌<◌, ◌^◌, ◌+ℤ◌, ◌*ℤ◌, length, drop};
ghost use Rattle.ring.specs.definitions.Integer.{ℤ_ring};
ghost use Rattle.chebyshev.specs.definitions.Coefficients.{weight};
ghost use Rattle.chebyshev.specs.definitions.Convolution.{convolution, correlation};

// The numbers at places k and k+1 of C, or what is summed of them.
#[derive(Clone, Copy)]
pub(crate) struct TwoPlaces {
    pub(crate) first: i64,
    pub(crate) second: i64,
}

impl TwoPlaces {
    ghost use Rattle.groups.specs.definitions.InnerContracts.{Below, Holds};

    // Added: x·y to the first, x·z to the second.
    fn multiply_add(self, x: i32, y: i32, z: i32) -> Self
        requires { Below (2 ^ 62) self }
        ensures { Holds result (self.first +ℤ x *ℤ y) (self.second +ℤ x *ℤ z) }
    {
        TwoPlaces {
            first: self.first + (x as i64) * (y as i64),
            second: self.second + (x as i64) * (z as i64),
        }
    }
}

// Two lists of coefficients, such that every sum over their pairs is at most 2^56.
#[derive(Clone, Copy)]
pub(crate) struct Factors<'a> {
    pub(crate) a: &'a [i32],
    pub(crate) b: &'a [i32],
    ghost small: { weight a.now * weight b.now ≤ 2 ^ 56 },
}

impl<'a> Factors<'a> {
    ghost use Rattle.groups.specs.definitions.InnerContracts.{Below, Holds};

    // Added: Σ a_i·b_(k-i) and Σ a_i·b_(k+1-i), over i from `from` on, where b reaches place k+1-from.
    fn add_convolutions(self, sums: TwoPlaces, k: usize, from: usize) -> TwoPlaces
        requires from_bound { (from ≤ k + 1) × (k + 1 < from + length self.b.now) × (k + 1 < 2 ^ 64) }
        requires below { Below (2 ^ 61) sums }
        ensures { Holds result (sums.first +ℤ convolution ℤ_ring (k + 1 - from) (drop from self.entry.a.now) self.entry.b.now)
            (sums.second +ℤ convolution ℤ_ring (k + 2 - from) (drop from self.entry.a.now) self.entry.b.now) }
    {
        let a = self.a;
        let b = self.b;
        let end = (k + 1).min(a.len());
        let mut total = sums;
        for i in from..end {
            total = total.multiply_add(a[i], b[k - i], b[k + 1 - i]);
        }
        if k + 1 < a.len() {
            return total.multiply_add(a[k + 1], 0, b[0]);
        }
        total
    }

    // Σ a_i·b_j over i+j = k and over i+j = k+1. Kept: the bound on k in each clause, as k is another at each call.
    pub(crate) fn convolutions(self, k: usize) -> TwoPlaces
        requires { (0 < length self.b.now) × (k + 1 < 2 ^ 64) }
        ensures { Holds result (convolution ℤ_ring (k + 1) self.entry.a.now self.entry.b.now)
            (convolution ℤ_ring (k + 2) self.entry.a.now self.entry.b.now) }
    {
        let none = TwoPlaces {
            first: 0,
            second: 0,
        };
        let m = self.b.len();
        if k + 1 < m {
            return self.add_convolutions(none, k, 0);
        }
        let from = k + 1 - m;
        if from < self.a.len() {
            let pair = none.multiply_add(self.a[from], self.b[m - 1], 0);
            return self.add_convolutions(pair, k, from + 1);
        }
        none
    }

    // Added: Σ a_i·b_(i+k) and Σ a_i·b_(i+k+1).
    pub(crate) fn add_correlations(self, sums: TwoPlaces, k: usize) -> TwoPlaces
        requires { Below (2 ^ 61) sums }
        ensures { Holds result (sums.first +ℤ correlation ℤ_ring k self.entry.a.now self.entry.b.now)
            (sums.second +ℤ correlation ℤ_ring (k + 1) self.entry.a.now self.entry.b.now) }
    {
        let a = self.a;
        let b = self.b;
        if b.len() <= k {
            return sums;
        }
        let end = (b.len() - 1 - k).min(a.len());
        let mut total = sums;
        for i in 0..end {
            total = total.multiply_add(a[i], b[k + i], b[k + i + 1]);
        }
        if end < a.len() {
            return total.multiply_add(a[end], b[k + end], 0);
        }
        total
    }
}
