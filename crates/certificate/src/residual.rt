// Weights of residuals C - 2S f. The list C is formed in groups as long as a part of the scratch, which may have any length from
// 1; a group is weighed before the next one is formed.
ghost use Rattle.std.specs.Prelude.{◌≡◌, ◌+◌, ◌*◌, ◌≤◌, ◌<◌, ◌^◌, length};
ghost use Rattle.ring.specs.definitions.Integer.{ℤ_ring};
ghost use Rattle.chebyshev.specs.definitions.Coefficients.{weight};
ghost use Rattle.chebyshev.specs.definitions.Product.{product};
ghost use Rattle.model.specs.definitions.Models.{scale, product_size};
ghost use Rattle.certificate.specs.definitions.Groups.{group};
ghost use Rattle.certificate.specs.definitions.InnerContracts.{residual_list, group_residual, ProductTerms, Subtrahend};

use groups::form::form;
use model::measure::weigh;
use model::types::Model;

// 2S, one unit of a coefficient in units of C.
const UNIT: i64 = 2 * Model::SCALE;

// c_k - 2S f_k at the places of f, which is no longer than the part.
fn subtract(part: &mut [i64], f: &[i32])
    requires { (length f.now ≤ length part.old) × (weight part.old + 2 * scale * weight f.now < 2 ^ 63) }
    ensures { part.new ≡ residual_list part.old f.now }
{
    for (k, x) in f.iter().enumerate() {
        part[k] -= UNIT * i64::from(*x);
    }
}

// The coefficients of f from place `start` on, at most `count` of them.
fn window(f: &[i32], start: usize, count: usize) -> &[i32]
    ensures { result.now ≡ group count start f.now }
{
    if start < f.len() {
        let rest = &f[start..];
        &rest[..count.min(rest.len())]
    } else {
        &[]
    }
}

// The weight of C(a, b) - 2S f over a group: as many places from `start` on as the part has numbers.
fn group_residual(part: &mut [i64], start: usize, a: &[i32], b: &[i32], f: &[i32]) -> u64
    requires { ProductTerms a.now b.now × Subtrahend f.now × (start + length part.old ≤ product_size) }
    ensures { result ≡ group_residual (length part.old) start (product ℤ_ring product_size a.now b.now)
        f.now }
{
    form(part, start, a, b);
    subtract(part, window(f, start, part.len()));
    weigh(part)
}

// The weight of C(a, b) - 2S f, group by group up to where C and f have ended.
pub(crate) fn residual(part: &mut [i64], a: &[i32], b: &[i32], f: &[i32]) -> u64
    requires { (0 < length part.old) × ProductTerms a.now b.now × Subtrahend f.now }
    ensures { result ≡ weight (residual_list (product ℤ_ring product_size a.now b.now) f.now) }
{
    let end = (a.len() + b.len() - 1).max(f.len());
    let mut sum: u64 = 0;
    // Kept: with (0..end).step_by(part.len()) a test takes 7 percent more instructions.
    let mut start = 0;
    while start < end {
        let n = part.len().min(end - start);
        sum += group_residual(&mut part[..n], start, a, b, f);
        start += n;
    }
    sum
}
