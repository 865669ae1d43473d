// Checks a job from standard input: a line for each result, number, degree, radius, then 'accepted' and the count; or one
// line: 'refused', number, command; 'too long'; or 'unreadable', if a read failed. A write that fails ends the program with its
// error.
#![tactic(auto)]

ghost use Rattle.jobcheck.specs.definitions.Main.{Printable};
ghost use Rattle.std.specs.Prelude.{◌+◌};

use certificate::types::SCRATCH_SIZE;
use input::InputError;
use job::types::RefusedCommand;
use job::work::WORK_SIZE;
use std::io;

mod input;

// The program takes up to so many bytes.
const LIMIT: usize = 65536;

fn main(rt: HostRuntime) -> io::Result<()> {
    // Kept: a buffer of fixed size, as the program takes no heap.
    let mut buffer = [0u8; LIMIT + 1];
    match input::read_input(&mut rt.stdin(), &mut buffer) {
        Ok(length) => answer(&rt, &buffer[..length]),
        Err(InputError::TooLong) => println!(rt; "too long"),
        Err(InputError::Unreadable) => println!(rt; "unreadable"),
    }
}

// Checks a job and prints the answer.
fn answer(rt: &impl Print, job: &[u8]) -> io::Result<()> {
    let mut work = [0i32; WORK_SIZE];
    let mut scratch = [0i64; SCRATCH_SIZE];
    match job::run::check(job, &mut work, &mut scratch) {
        Ok(count) => accepted(rt, &work, count),
        Err(r) => refused(rt, r),
    }
}

// The line of result i.
fn line(rt: &impl Print, work: &[i32], i: usize) -> io::Result<()>
    requires { Printable work.now (i + 1) }
{
    let m = job::work::stored_result(work, i);
    println!(rt; "{i} {} {}", m.degree, m.radius)
}

fn lines(rt: &impl Print, work: &[i32], count: usize) -> io::Result<()>
    requires { Printable work.now count }
{
    for i in 0..count {
        line(rt, work, i)?;
    }
    Ok(())
}

fn accepted(rt: &impl Print, work: &[i32], count: usize) -> io::Result<()>
    requires { Printable work.now count }
{
    lines(rt, work, count)?;
    println!(rt; "accepted {count}")
}

fn refused(rt: &impl Print, r: RefusedCommand) -> io::Result<()> {
    println!(rt; "refused {} {}", u32::from(r.refusal), r.command)
}
