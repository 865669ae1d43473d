// The least radius r with 2·M·r² + b·S² ≤ (S-m)·S·r, by bisection.
ghost use Rattle.std.specs.Prelude.{◌≡◌, ◌+◌, ◌*◌, ◌-◌, ◌^◌, ◌≤◌, ◌<◌};
ghost use Rattle.model.specs.definitions.Models.{scale, max_weight};
ghost use Rattle.radius.specs.definitions.LeastRadius.{RadiusSatisfies, radius_satisfies, least_radius};

use model::types::Model;

// S
const SCALE: u64 = Model::SCALE as u64;

// The inequality of M, m and b, where b may have a radius.
#[derive(Clone, Copy)]
struct Inequality {
    weight: u64,
    m: u64,
    b: u64,
    ghost weight_bounded: { weight ≤ max_weight },
    ghost contracting: { m < scale },
    ghost displacement_bounded: { b ≤ scale },
}

impl Inequality {
    // Does r satisfy? Formed as (2·M·r)·r, every number is below 2^61; 2·M·r is at most 2^39 + 2^29 up to v + 1 (`least_radius`).
    fn satisfies(self, r: u64) -> bool
        requires { (r ≤ scale) × (2 * self.weight * r ≤ 2 ^ 39 + 2 ^ 29) }
        ensures { result ≡ radius_satisfies self.weight self.m self.b r }
    {
        let linear = (SCALE - self.m) * SCALE * r;
        let square = 2 * self.weight * r * r;
        let constant = self.b * SCALE * SCALE;
        square + constant <= linear
    }

    // The least r up to `top` that satisfies, where `top` does. At most 21 passes: each halves what is left of 0 to S.
    fn least_up_to(self, top: u64) -> u64
        requires small { (top ≤ scale) × (4 * self.weight * top ≤ (scale - self.m) * scale) }
        requires top_satisfies { RadiusSatisfies self.weight self.m self.b top }
        ensures { least_radius self.weight self.m self.b ≡ Some result }
    {
        let mut low = 0;
        let mut high = top;
        while low < high {
            let middle = low + (high - low) / 2;
            if self.satisfies(middle) {
                high = middle;
            } else {
                low = middle + 1;
            }
        }
        low
    }
}

// The least r from 0 to S that satisfies. Up to v = (S-m)·S / (4·M) what satisfies stays so as r grows, from v + 1 on as r falls.
pub fn least_radius(weight: u64, m: u64, b: u64) -> Option<u64>
    requires { (0 < weight) × (weight ≤ max_weight) × (m < scale) }
    ensures { result ≡ least_radius weight m b }
{
    // b·S² would pass (S-m)·S·r for every r up to S, and could pass 64 bits.
    if SCALE < b {
        return None;
    }
    // Spares the search; bisection gives 0 too.
    if b == 0 {
        return Some(0);
    }
    let inequality = Inequality { weight, m, b };
    let v = (SCALE - m) * SCALE / (4 * weight);
    if v < SCALE {
        if inequality.satisfies(v) {
            return Some(inequality.least_up_to(v));
        }
        let next = v + 1;
        if inequality.satisfies(next) {
            return Some(next);
        }
        return None;
    }
    if inequality.satisfies(SCALE) {
        return Some(inequality.least_up_to(SCALE));
    }
    None
}
