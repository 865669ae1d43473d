// The work area: result i in its own 37 numbers from 37 i on. Kept: numbers of the caller's at fixed places, with no heap.
ghost use Rattle.std.specs.Prelude.{◌≡◌, ◌++◌, ◌≤◌, ◌<◌, length, drop};
ghost use Rattle.integer.specs.definitions.Lists.{zeros};
ghost use Rattle.job.specs.definitions.Reading.{max_results};
ghost use Rattle.job.specs.definitions.Work.{work_size, stored_result, stored_at};
ghost use Rattle.job.specs.definitions.InnerContracts.{Storing};

use model::area::{MODEL_SIZE, read, write};
use model::types::Model;

pub const WORK_SIZE: usize = 1184;

// Writes a model as result i.
pub(crate) fn store(work: &mut [i32], i: usize, m: Model)
    requires { Storing work.old i m }
    ensures { work.new ≡ stored_at work.old i m }
{
    let a = MODEL_SIZE * i;
    write(&mut work[a..a + MODEL_SIZE], m);
}

// The model of result i.
pub fn stored_result(work: &[i32], i: usize) -> Model
    requires { (work_size ≤ length work.now) × (i < max_results) }
    ensures { result ≡ stored_result work.now i }
{
    let a = MODEL_SIZE * i;
    read(&work[a..a + MODEL_SIZE])
}

// The first 1,184 numbers become zero.
pub(crate) fn clear_work(work: &mut [i32])
    requires { work_size ≤ length work.old }
    ensures { work.new ≡ zeros work_size ++ drop work_size work.old }
{
    work[..WORK_SIZE].fill(0);
}
