// The quotient test and the root tests over lent areas; if an area is too short, refusal 1 and zeros.
ghost use Rattle.std.specs.Prelude.{◌≡◌, List, ℤ, IfOk};
ghost use Rattle.model.specs.definitions.Area.{area_model, Storable};
ghost use Rattle.certificate.specs.definitions.Tests.{scratch_after, test_of};
ghost use Rattle.certificate.specs.definitions.Promise.{QuotientAllowed, RootAllowed};
ghost use Rattle.ferruntzo.specs.definitions.Certificates.{short_test, test_in, test_answer, quotient_answer, root_answer};

use crate::areas::{NUMBERS_SIZE, candidate_in, store_model};
use certificate::quotient::quotient;
use certificate::root::root;
use certificate::scratch::clear_scratch;
use certificate::types::{Certificate, RootRule, SCRATCH_SIZE};
use model::area::{CANDIDATE_SIZE, MODEL_SIZE, model_in, store};
use model::types::{Model, Refusal};

// Stores what a test answers, and gives its number; s is the scratch of the test.
// Kept, as `answer_operation`, and the areas as C lends them.
#[tactic(auto, unfolding(crate::specs::definitions::Certificates::test_in), using(crate::proofs::Answering::zero_storable))]
fn answer_test(test: Result<Certificate, Refusal>, out: &mut [i32], numbers: &mut [u64]) -> u32
    requires { IfOk test (λ c. Storable c.model) }
    ensures { (s : List ℤ) → test_answer result (scratch_after s) out.new numbers.new
        ≡ test_in (test_of test) s out.old numbers.old }
{
    match test {
        Ok(c) => {
            store_model(out, c.model);
            store(numbers, [c.contraction, c.residual, c.displacement]);
            0
        }
        Err(refusal) => {
            store_model(out, Model::zero());
            store(numbers, [0; NUMBERS_SIZE]);
            u32::from(refusal)
        }
    }
}

// Refusal 1 of a test.
fn refuse_test(scratch: &mut [i64], out: &mut [i32], numbers: &mut [u64]) -> u32
    ensures { test_answer result scratch.new out.new numbers.new
        ≡ test_in short_test scratch.old out.old numbers.old }
{
    clear_scratch(scratch);
    answer_test(Err(Refusal::ShortArea), out, numbers)
}

// Is h a quotient f/g, with w as a helper? The last clause is what is promised of the result, here and below.
#[unsafe(no_mangle)]
pub extern "C" fn ferruntzo_quotient(
    f: &[i32],
    g: &[i32],
    h: &[i32],
    w: &[i32],
    scratch: &mut [i64],
    out: &mut [i32],
    numbers: &mut [u64],
) -> u32
    ensures numbers_after { test_answer result scratch.new out.new numbers.new
        ≡ quotient_answer f.now g.now h.now w.now
        scratch.old out.old numbers.old }
    ensures quotient_allowed { result ≡ 0 → QuotientAllowed (area_model f.now) (area_model g.now)
        (area_model out.new) }
{
    if (MODEL_SIZE <= f.len())
        & (MODEL_SIZE <= g.len())
        & (CANDIDATE_SIZE <= h.len())
        & (CANDIDATE_SIZE <= w.len())
        & (SCRATCH_SIZE <= scratch.len())
        & (MODEL_SIZE <= out.len())
        & (NUMBERS_SIZE <= numbers.len())
    {
        let test = quotient(
            model_in(f),
            model_in(g),
            candidate_in(h),
            candidate_in(w),
            scratch,
        );
        answer_test(test, out, numbers)
    } else {
        refuse_test(scratch, out, numbers)
    }
}

// A root test by its rule.
fn root_in(
    rule: RootRule,
    f: &[i32],
    h: &[i32],
    w: &[i32],
    scratch: &mut [i64],
    out: &mut [i32],
    numbers: &mut [u64],
) -> u32
    ensures numbers_after { test_answer result scratch.new out.new numbers.new
        ≡ root_answer rule f.now h.now w.now
        scratch.old out.old numbers.old }
    ensures root_allowed { result ≡ 0 → RootAllowed (area_model f.now) (area_model out.new) }
{
    if (MODEL_SIZE <= f.len())
        & (CANDIDATE_SIZE <= h.len())
        & (CANDIDATE_SIZE <= w.len())
        & (SCRATCH_SIZE <= scratch.len())
        & (MODEL_SIZE <= out.len())
        & (NUMBERS_SIZE <= numbers.len())
    {
        let test = root(rule, model_in(f), candidate_in(h), candidate_in(w), scratch);
        answer_test(test, out, numbers)
    } else {
        refuse_test(scratch, out, numbers)
    }
}

// Is h a square root of f, with w as a helper?
#[unsafe(no_mangle)]
pub extern "C" fn ferruntzo_root(
    f: &[i32],
    h: &[i32],
    w: &[i32],
    scratch: &mut [i64],
    out: &mut [i32],
    numbers: &mut [u64],
) -> u32
    ensures numbers_after { test_answer result scratch.new out.new numbers.new
        ≡ root_answer RootRule.ByDiscriminant f.now h.now w.now
        scratch.old out.old numbers.old }
    ensures root_allowed { result ≡ 0 → RootAllowed (area_model f.now) (area_model out.new) }
{
    root_in(RootRule::ByDiscriminant, f, h, w, scratch, out, numbers)
}

// The same, with the least radius.
#[unsafe(no_mangle)]
pub extern "C" fn ferruntzo_tight_root(
    f: &[i32],
    h: &[i32],
    w: &[i32],
    scratch: &mut [i64],
    out: &mut [i32],
    numbers: &mut [u64],
) -> u32
    ensures numbers_after { test_answer result scratch.new out.new numbers.new
        ≡ root_answer RootRule.ByLeastRadius f.now h.now w.now
        scratch.old out.old numbers.old }
    ensures root_allowed { result ≡ 0 → RootAllowed (area_model f.now) (area_model out.new) }
{
    root_in(RootRule::ByLeastRadius, f, h, w, scratch, out, numbers)
}
