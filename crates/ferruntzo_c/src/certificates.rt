// The quotient test and the root tests.
ghost use Rattle.std.specs.Prelude.{◌≡◌};
ghost use Rattle.model.specs.definitions.Area.{area_model};
ghost use Rattle.certificate.specs.definitions.Promise.{QuotientAllowed, RootAllowed};
ghost use Rattle.ferruntzo.specs.definitions.Certificates.{test_answer, quotient_answer, root_answer};

use certificate::types::RootRule;

// Is h a quotient f/g, with w as a helper? The last clause is what is promised of the result, here and below.
#[unsafe(no_mangle)]
pub extern "C" fn ferruntzo_quotient(
    f: &[i32],
    g: &[i32],
    h: &[i32],
    w: &[i32],
    scratch: &mut [i64],
    out: &mut [i32],
    numbers: &mut [u64],
) -> u32
    ensures numbers_after { test_answer result scratch.new out.new numbers.new
        ≡ quotient_answer f.now g.now h.now w.now
        scratch.old out.old numbers.old }
    ensures quotient_allowed { result ≡ 0 → QuotientAllowed (area_model f.now) (area_model g.now)
        (area_model out.new) }
{
    ferruntzo::certificates::ferruntzo_quotient(f, g, h, w, scratch, out, numbers)
}

// Is h a square root of f, with w as a helper?
#[unsafe(no_mangle)]
pub extern "C" fn ferruntzo_root(
    f: &[i32],
    h: &[i32],
    w: &[i32],
    scratch: &mut [i64],
    out: &mut [i32],
    numbers: &mut [u64],
) -> u32
    ensures numbers_after { test_answer result scratch.new out.new numbers.new
        ≡ root_answer RootRule.ByDiscriminant f.now h.now w.now
        scratch.old out.old numbers.old }
    ensures root_allowed { result ≡ 0 → RootAllowed (area_model f.now) (area_model out.new) }
{
    ferruntzo::certificates::ferruntzo_root(f, h, w, scratch, out, numbers)
}

// The same, with the least radius.
#[unsafe(no_mangle)]
pub extern "C" fn ferruntzo_tight_root(
    f: &[i32],
    h: &[i32],
    w: &[i32],
    scratch: &mut [i64],
    out: &mut [i32],
    numbers: &mut [u64],
) -> u32
    ensures numbers_after { test_answer result scratch.new out.new numbers.new
        ≡ root_answer RootRule.ByLeastRadius f.now h.now w.now
        scratch.old out.old numbers.old }
    ensures root_allowed { result ≡ 0 → RootAllowed (area_model f.now) (area_model out.new) }
{
    ferruntzo::certificates::ferruntzo_tight_root(f, h, w, scratch, out, numbers)
}
