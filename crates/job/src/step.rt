// One command: its reading, its operation, and its result's 37 numbers of the work area.
ghost use Rattle.std.specs.Prelude.{◌≡◌, ◌≤◌, length};
ghost use Rattle.certificate.specs.definitions.Tests.{certificate_of};
ghost use Rattle.job.specs.definitions.Decode.{command_at};
ghost use Rattle.job.specs.definitions.Step.{performed, command};
ghost use Rattle.job.specs.definitions.InnerContracts.{StepsBy, Performable, Storing, Between, Clear};
ghost use Rattle.job.specs.definitions.InnerContracts.{written_at, added_by, added_at, RecordsBy};
ghost use Rattle.job.specs.definitions.Work.{stored_at};
ghost use Rattle.job.specs.definitions.Reports.{room_size, record_bytes};

use crate::operations::operate;
use crate::reader::read_next;
use crate::reports::write_record;
use crate::types::{Kind, Progress, ReadCommand, Report};
use crate::work::store;
use certificate::types::Certificate;
use model::types::Refusal;

// A certificate's model becomes the next result, with its record.
fn add_result(work: &mut [i32], count: usize, made: &Certificate, report: Report, room: &mut [u8])
    requires { Storing work.old count made.now.model × (room_size report ≤ length room.old) }
    ensures work_after { work.new ≡ stored_at work.old count made.now.model }
    ensures room_after { room.new
        ≡ written_at report room.old count (record_bytes report count (certificate_of made.now)) }
{
    let m = made.model;
    store(work, count, m);
    write_record(report, room, count, made);
}

// A command that was read, whose byte stands where the commands before it led.
// Kept: each area by itself, its size a clause: a struct of them asks a clause of every function for each `&mut` in it.
fn perform(
    read: ReadCommand,
    job: &[u8],
    before: Progress,
    work: &mut [i32],
    scratch: &mut [i64],
    report: Report,
    room: &mut [u8],
) -> Result<Option<Progress>, Refusal>
    requires { Performable read.kind job.now before.results before.next work.old
        × (Clear scratch.old × (room_size report ≤ length room.old)) }
    ensures steps_by { StepsBy result work.old work.new before.results
        (λ rs. performed (command_at read.kind job.now before.next) rs read.next) }
    ensures scratch_unchanged { scratch.new ≡ scratch.old }
    ensures records_by { RecordsBy report room.old room.new work.old before.results
        (λ rs. added_by (command_at read.kind job.now before.next) rs) }
{
    match read.kind {
        Kind::End => Ok(None),
        Kind::Edition => Ok(Some(Progress {
            results: before.results,
            next: read.next,
        })),
        Kind::Result(op) => {
            let made = operate(op, job, before.next, work, scratch)?;
            add_result(work, before.results, &made, report, room);
            Ok(Some(Progress {
                results: before.results + 1,
                next: read.next,
            }))
        }
        Kind::Unknown => Err(Refusal::BadValue),
    }
}

// Command k, where the commands before it led.
pub(crate) fn step(
    job: &[u8],
    k: usize,
    before: Progress,
    work: &mut [i32],
    scratch: &mut [i64],
    report: Report,
    room: &mut [u8],
) -> Result<Option<Progress>, Refusal>
    requires { Between work.old before.results scratch.old × (room_size report ≤ length room.old) }
    ensures steps_by { StepsBy result work.old work.new before.results
        (λ rs. command job.now k rs before.next) }
    ensures scratch_unchanged { scratch.new ≡ scratch.old }
    ensures records_by { RecordsBy report room.old room.new work.old before.results
        (λ rs. added_at job.now k rs before.next) }
{
    let read = read_next(job, k, before.results, before.next)?;
    perform(read, job, before, work, scratch, report, room)
}
