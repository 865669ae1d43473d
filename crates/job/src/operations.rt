// The operations of the commands that make a result, on the results and blocks that they name.
ghost use Rattle.std.specs.Prelude.{◌≡◌, List, ◌+◌, ◌≤◌, ℤ, length};
ghost use Rattle.model.specs.definitions.Outcomes.{outcome_of};
ghost use Rattle.certificate.specs.definitions.Tests.{test_of};
ghost use Rattle.model.specs.definitions.Load.{loading};
ghost use Rattle.job.specs.definitions.Bytes.{byte_at, unsigned_at, block_at};
ghost use Rattle.job.specs.definitions.Decode.{kept_byte, maker_at};
ghost use Rattle.job.specs.definitions.Work.{stored_result};
ghost use Rattle.job.specs.definitions.InnerContracts.{untested_outcome, Performs, Operable, NamesOne, NamesTwo, Clear};

use crate::bytes::{read_candidate, read_interval, read_model, read_unsigned};
use crate::types::Operation;
use crate::work::stored_result;
use certificate::types::{Certificate, RootRule};
use model::types::{Interval, Model, Refusal};

// The result that byte i of the job names.
fn named(job: &[u8], i: usize, work: &[i32]) -> Model
    requires { NamesOne job.now i work.now }
    ensures { result ≡ stored_result work.now (byte_at job.now i) }
{
    stored_result(work, usize::from(job[i]))
}

// The results that the two bytes after a command name.
// Kept: job, position and work area by themselves, here and below: a struct of them writes each clause longer, and saves no call.
#[derive(Clone, Copy)]
struct Operands {
    first: Model,
    second: Model,
}

fn read_operands(job: &[u8], at: usize, work: &[i32]) -> Operands
    requires { NamesTwo job.now at work.now }
    ensures first_value { result.first ≡ stored_result work.now (byte_at job.now (at + 1)) }
    ensures second_value { result.second ≡ stored_result work.now (byte_at job.now (at + 2)) }
{
    let first = named(job, at + 1, work);
    let second = named(job, at + 2, work);
    Operands { first, second }
}

// Where no test runs, m, N and b are zero.
fn untested(made: Result<Model, Refusal>) -> Result<Certificate, Refusal>
    ensures { test_of result ≡ untested_outcome (outcome_of made) }
{
    let model = made?;
    Ok(Certificate {
        model,
        contraction: 0,
        residual: 0,
        displacement: 0,
    })
}

// The block and the radius behind a command byte, as a model on an interval.
fn load_block(job: &[u8], at: usize, interval: Interval) -> Result<Certificate, Refusal>
    requires { at + 138 ≤ length job.now }
    ensures { test_of result
        ≡ untested_outcome (loading (block_at job.now (at + 1) (unsigned_at job.now (at + 134)) interval)) }
{
    let radius = read_unsigned(job, at + 134);
    let m = read_model(job, at + 1, radius, interval);
    untested(model::load::load(m))
}

fn load(job: &[u8], at: usize) -> Result<Certificate, Refusal>
    requires { at + 138 ≤ length job.now }
    ensures { (w : List ℤ) → Performs (maker_at Operation.Load job.now at) w (test_of result) }
{
    let interval = Interval::standard();
    load_block(job, at, interval)
}

fn load_on(job: &[u8], at: usize) -> Result<Certificate, Refusal>
    requires { at + 146 ≤ length job.now }
    ensures { (w : List ℤ) → Performs (maker_at Operation.LoadOn job.now at) w (test_of result) }
{
    let interval = read_interval(job, at + 138);
    load_block(job, at, interval)
}

// Kept: add and subtract are three lines each; one function of a closure needs two clauses on the closure besides.
fn add(job: &[u8], at: usize, work: &[i32]) -> Result<Certificate, Refusal>
    requires { Operable Operation.Add job.now at work.now }
    ensures { Performs (maker_at Operation.Add job.now at) work.now (test_of result) }
{
    let o = read_operands(job, at, work);
    untested(model::add::add(o.first, o.second))
}

fn subtract(job: &[u8], at: usize, work: &[i32]) -> Result<Certificate, Refusal>
    requires { Operable Operation.Subtract job.now at work.now }
    ensures { Performs (maker_at Operation.Subtract job.now at) work.now (test_of result) }
{
    let o = read_operands(job, at, work);
    untested(model::add::subtract(o.first, o.second))
}

// What the library takes for a byte in an edition: in edition 1 0xFF means 32, in edition 2 what 255 means in the library.
// Kept: the edition is its byte and no enum, as no clause here says that it is 1 or 2 (`edition_known` does).
fn kept_byte(edition: u8, d: u8) -> u32
    ensures { result ≡ kept_byte edition d }
{
    if edition != 2 && d == 0xff {
        Model::MAX_DEGREE
    } else {
        u32::from(d)
    }
}

fn multiply(job: &[u8], at: usize, work: &[i32]) -> Result<Certificate, Refusal>
    requires { Operable Operation.Multiply job.now at work.now }
    ensures { Performs (maker_at Operation.Multiply job.now at) work.now (test_of result) }
{
    let o = read_operands(job, at, work);
    let kept = kept_byte(job[1], job[at + 3]);
    untested(model::multiply::multiply(o.first, o.second, kept))
}

// Kept: that the scratch is clear, in each clause, as its length is no part of it.
fn quotient(
    job: &[u8],
    at: usize,
    work: &[i32],
    scratch: &mut [i64],
) -> Result<Certificate, Refusal>
    requires { Operable Operation.Quotient job.now at work.now × Clear scratch.old }
    ensures performs { Performs (maker_at Operation.Quotient job.now at) work.now (test_of result) }
    ensures scratch_unchanged { scratch.new ≡ scratch.old }
{
    let o = read_operands(job, at, work);
    let h = read_candidate(job, at + 3);
    let w = read_candidate(job, at + 136);
    certificate::quotient::quotient(o.first, o.second, h, w, scratch)
}

fn root(
    rule: RootRule,
    job: &[u8],
    at: usize,
    work: &[i32],
    scratch: &mut [i64],
) -> Result<Certificate, Refusal>
    requires { Operable (Operation.Root rule) job.now at work.now × Clear scratch.old }
    ensures performs { Performs (maker_at (Operation.Root rule) job.now at) work.now (test_of result) }
    ensures scratch_unchanged { scratch.new ≡ scratch.old }
{
    let f = named(job, at + 1, work);
    let h = read_candidate(job, at + 2);
    let w = read_candidate(job, at + 135);
    certificate::root::root(rule, f, h, w, scratch)
}

// The operation of a command that makes a result.
pub(crate) fn operate(
    op: Operation,
    job: &[u8],
    at: usize,
    work: &[i32],
    scratch: &mut [i64],
) -> Result<Certificate, Refusal>
    requires { Operable op job.now at work.now × Clear scratch.old }
    ensures performs { Performs (maker_at op job.now at) work.now (test_of result) }
    ensures scratch_unchanged { scratch.new ≡ scratch.old }
{
    match op {
        Operation::Load => load(job, at),
        Operation::Add => add(job, at, work),
        Operation::Subtract => subtract(job, at, work),
        Operation::Multiply => multiply(job, at, work),
        Operation::LoadOn => load_on(job, at),
        Operation::Quotient => quotient(job, at, work, scratch),
        Operation::Root(rule) => root(rule, job, at, work, scratch),
    }
}
