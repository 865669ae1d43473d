// Add, subtract, multiply, integrate and evaluate.
ghost use Rattle.std.specs.Prelude.{◌≡◌};
ghost use Rattle.model.specs.definitions.Add.{addition, subtraction};
ghost use Rattle.model.specs.definitions.Multiply.{multiplication};
ghost use Rattle.model.specs.definitions.Integrate.{integration};
ghost use Rattle.ferruntzo.specs.definitions.Operations.{operation_answer};
ghost use Rattle.ferruntzo.specs.definitions.Operations.{binary_answer, unary_answer};
ghost use Rattle.ferruntzo.specs.definitions.Operations.{evaluation_answer, evaluate_answer};

// a + b.
#[unsafe(no_mangle)]
pub extern "C" fn ferruntzo_add(a: &[i32], b: &[i32], out: &mut [i32]) -> u32
    ensures { operation_answer result out.new
        ≡ binary_answer addition a.now b.now out.old }
{
    ferruntzo::operations::ferruntzo_add(a, b, out)
}

// a - b.
#[unsafe(no_mangle)]
pub extern "C" fn ferruntzo_subtract(a: &[i32], b: &[i32], out: &mut [i32]) -> u32
    ensures { operation_answer result out.new
        ≡ binary_answer subtraction a.now b.now out.old }
{
    ferruntzo::operations::ferruntzo_subtract(a, b, out)
}

// a times b, to a kept degree from 0 to 32; 255 means the larger degree of the two.
#[unsafe(no_mangle)]
pub extern "C" fn ferruntzo_multiply(a: &[i32], b: &[i32], kept: u32, out: &mut [i32]) -> u32
    ensures { operation_answer result out.new
        ≡ binary_answer (multiplication kept) a.now b.now out.old }
{
    ferruntzo::operations::ferruntzo_multiply(a, b, kept, out)
}

// The integral of a from its lower end.
#[unsafe(no_mangle)]
pub extern "C" fn ferruntzo_integrate(a: &[i32], out: &mut [i32]) -> u32
    ensures { operation_answer result out.new ≡ unary_answer integration a.now out.old }
{
    ferruntzo::operations::ferruntzo_integrate(a, out)
}

// Bounds of the values that a allows at p/S.
#[unsafe(no_mangle)]
pub extern "C" fn ferruntzo_evaluate(a: &[i32], p: i32, bounds: &mut [i64]) -> u32
    ensures { evaluation_answer result bounds.new ≡ evaluate_answer a.now p bounds.old }
{
    ferruntzo::operations::ferruntzo_evaluate(a, p, bounds)
}
