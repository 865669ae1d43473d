// Add, subtract, multiply, integrate and evaluate over lent areas. Each answers and writes what the definition gives for the
// models that the areas hold; if an area is too short, refusal 1 and zeros.
ghost use Rattle.std.specs.Prelude.{◌≡◌, Result, IfOk};
ghost use Rattle.model.specs.definitions.Outcomes.{Outcome, outcome_of};
ghost use Rattle.model.specs.definitions.Area.{Storable};
ghost use Rattle.model.specs.definitions.Add.{addition, subtraction};
ghost use Rattle.model.specs.definitions.Multiply.{multiplication};
ghost use Rattle.model.specs.definitions.Integrate.{integration};
ghost use Rattle.model.specs.definitions.Evaluate.{bounds_of};
ghost use Rattle.ferruntzo.specs.definitions.Operations.{Computes, outcome_in, operation_answer};
ghost use Rattle.ferruntzo.specs.definitions.Operations.{binary_answer, unary_answer};
ghost use Rattle.ferruntzo.specs.definitions.Operations.{bounds_in, evaluation_answer, evaluate_answer};

use crate::areas::{BOUNDS_SIZE, store_model};
use model::add::{add, subtract};
use model::area::{MODEL_SIZE, model_in, store};
use model::evaluate::evaluate;
use model::integrate::integrate;
use model::multiply::multiply;
use model::types::{Bounds, Model, Refusal};

// Stores what an operation answers, and gives its number. Kept apart from the other answers: each stores areas of its own types.
#[tactic(auto, unfolding(crate::specs::definitions::Operations::outcome_in), using(crate::proofs::Answering::zero_storable))]
pub(crate) fn answer_operation(answer: Result<Model, Refusal>, out: &mut [i32]) -> u32
    requires { IfOk answer Storable }
    ensures { operation_answer result out.new ≡ outcome_in (outcome_of answer) out.old }
{
    match answer {
        Ok(model) => {
            store_model(out, model);
            0
        }
        Err(refusal) => {
            store_model(out, Model::zero());
            u32::from(refusal)
        }
    }
}

// An operation on two models over lent areas.
fn perform<F: Fn(Model, Model) -> Result<Model, Refusal>>(
    operation: F,
    a: &[i32],
    b: &[i32],
    out: &mut [i32],
) -> u32
    requires callable { F.IsAlwaysCallable operation }
    requires storable { (x y : Model) (r : Result Model Refusal) → F.post operation x y r → IfOk r Storable }
    ensures { (f : Model → Model → Outcome Model) → Computes (F.post operation) f
        → operation_answer result out.new ≡ binary_answer f a.now b.now out.old }
{
    if (MODEL_SIZE <= a.len()) & (MODEL_SIZE <= b.len()) & (MODEL_SIZE <= out.len()) {
        answer_operation(operation(model_in(a), model_in(b)), out)
    } else {
        answer_operation(Err(Refusal::ShortArea), out)
    }
}

// a + b.
#[unsafe(no_mangle)]
pub extern "C" fn ferruntzo_add(a: &[i32], b: &[i32], out: &mut [i32]) -> u32
    ensures { operation_answer result out.new
        ≡ binary_answer addition a.now b.now out.old }
{
    perform(add, a, b, out)
}

// a - b.
#[unsafe(no_mangle)]
pub extern "C" fn ferruntzo_subtract(a: &[i32], b: &[i32], out: &mut [i32]) -> u32
    ensures { operation_answer result out.new
        ≡ binary_answer subtraction a.now b.now out.old }
{
    perform(subtract, a, b, out)
}

// a times b, to a kept degree from 0 to 32; 255 means the larger degree of the two.
#[unsafe(no_mangle)]
pub extern "C" fn ferruntzo_multiply(a: &[i32], b: &[i32], kept: u32, out: &mut [i32]) -> u32
    ensures { operation_answer result out.new
        ≡ binary_answer (multiplication kept) a.now b.now out.old }
{
    perform(|x, y| multiply(x, y, kept), a, b, out)
}

// The integral of a from its lower end.
#[tactic(auto, using(crate::proofs::Answering::outcome_storable, model::proofs::laws::ResultLaws::integration_storable))]
#[unsafe(no_mangle)]
pub extern "C" fn ferruntzo_integrate(a: &[i32], out: &mut [i32]) -> u32
    ensures { operation_answer result out.new ≡ unary_answer integration a.now out.old }
{
    if (MODEL_SIZE <= a.len()) & (MODEL_SIZE <= out.len()) {
        answer_operation(integrate(model_in(a)), out)
    } else {
        answer_operation(Err(Refusal::ShortArea), out)
    }
}

// Stores what an evaluation answers, and gives its number. Kept, as `answer_operation`.
#[tactic(auto, unfolding(crate::specs::definitions::Operations::bounds_in))]
fn answer_evaluation(answer: Result<Bounds, Refusal>, bounds: &mut [i64]) -> u32
    ensures { evaluation_answer result bounds.new ≡ bounds_in (bounds_of answer) bounds.old }
{
    match answer {
        Ok(found) => {
            store(bounds, [found.low, found.high]);
            0
        }
        Err(refusal) => {
            store(bounds, [0, 0]);
            u32::from(refusal)
        }
    }
}

// Bounds of the values that a allows at p/S.
#[unsafe(no_mangle)]
pub extern "C" fn ferruntzo_evaluate(a: &[i32], p: i32, bounds: &mut [i64]) -> u32
    ensures { evaluation_answer result bounds.new ≡ evaluate_answer a.now p bounds.old }
{
    if (MODEL_SIZE <= a.len()) & (BOUNDS_SIZE <= bounds.len()) {
        answer_evaluation(evaluate(model_in(a), p), bounds)
    } else {
        answer_evaluation(Err(Refusal::ShortArea), bounds)
    }
}
