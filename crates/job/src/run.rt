// The check of a whole job.
ghost use Rattle.std.specs.Prelude.{◌≡◌, [], ◌++◌, drop};
ghost use Rattle.job.specs.definitions.Outcomes.{job_outcome_of, counted};
ghost use Rattle.job.specs.definitions.Run.{job_outcome};
ghost use Rattle.job.specs.definitions.Work.{work_size, work_with, area_places, results_in, work_after};
ghost use Rattle.job.specs.definitions.Work.{check_outcome, scratch_after_job};
ghost use Rattle.job.specs.definitions.Reports.{room_size, report_fits, room_with, job_certificates, report_places};
ghost use Rattle.job.specs.definitions.Reports.{report_outcome, report_work, report_scratch, room_after};
ghost use Rattle.job.specs.definitions.InnerContracts.{Cleared, ClearedRoom};
ghost use Rattle.job.specs.definitions.Requirement.{Requirement3};

use crate::reports::{clear_room, room_size};
use crate::step::step;
use crate::types::{Progress, RefusedCommand, Report};
use crate::work::{WORK_SIZE, clear_work};
use certificate::scratch::clear_scratch;
use certificate::types::SCRATCH_SIZE;
use model::types::Refusal;

// Refusal 1 goes with command 0.
const SHORT_AREA: RefusedCommand = RefusedCommand {
    refusal: Refusal::ShortArea,
    command: 0,
};

// A job over cleared areas. Kept: each area is lent by itself, as in step.rt.
fn run(
    job: &[u8],
    work: &mut [i32],
    scratch: &mut [i64],
    report: Report,
    room: &mut [u8],
) -> Result<usize, RefusedCommand>
    requires { Cleared work.old scratch.old × ClearedRoom report room.old }
    ensures result_value { job_outcome_of result ≡ counted (job_outcome job.now) }
    ensures work_after { work.new
        ≡ work_with (results_in (job_outcome job.now)) ++ drop work_size work.old }
    ensures scratch_unchanged { scratch.new ≡ scratch.old }
    ensures requirement3 { Requirement3 [] job.now (job_outcome_of result) work.new }
    ensures room_after { room.new
        ≡ room_with report (job_certificates job.now) ++ drop (room_size report) room.old }
{
    let mut done = Progress {
        results: 0,
        next: 0,
    };
    let mut k: usize = 0;
    loop {
        match step(job, k, done, work, scratch, report, room) {
            Ok(Some(after)) => {
                done = after;
                k += 1;
            }
            Ok(None) => return Ok(done.results),
            Err(refusal) => {
                clear_work(work);
                clear_room(report, room);
                return Err(RefusedCommand {
                    refusal,
                    command: k,
                });
            }
        }
    }
}

// The lent areas are long enough.
fn areas_fit(work: &[i32], scratch: &[i64], report: Report, room: &[u8]) -> bool
    ensures { result ≡ report_fits report work.now scratch.now room.now }
{
    WORK_SIZE <= work.len() && SCRATCH_SIZE <= scratch.len() && room_size(report) <= room.len()
}

// Checks a job and writes a report: the work area gets its results and the room their report records, or zeros on a refusal.
// Areas are not touched where one is too short. The last clause is requirement 3.
pub fn check_and_report(
    job: &[u8],
    work: &mut [i32],
    scratch: &mut [i64],
    report: Report,
    room: &mut [u8],
) -> Result<usize, RefusedCommand>
    ensures result_value { job_outcome_of result
        ≡ counted (report_outcome report job.now work.old scratch.old room.old) }
    ensures work_after { work.new
        ≡ report_work report job.now work.old scratch.old room.old }
    ensures scratch_after { scratch.new
        ≡ report_scratch report work.old scratch.old room.old }
    ensures room_after { room.new
        ≡ room_after report job.now work.old scratch.old room.old }
    ensures requirement3 { Requirement3 (report_places report work.old scratch.old room.old)
        job.now (job_outcome_of result) work.new }
{
    if !areas_fit(work, scratch, report, room) {
        return Err(SHORT_AREA);
    }
    clear_work(work);
    clear_scratch(scratch);
    clear_room(report, room);
    run(job, work, scratch, report, room)
}

// Checks a job, without a report.
pub fn check(job: &[u8], work: &mut [i32], scratch: &mut [i64]) -> Result<usize, RefusedCommand>
    ensures result_value { job_outcome_of result ≡ counted (check_outcome job.now work.old scratch.old) }
    ensures work_after { work.new ≡ work_after job.now work.old scratch.old }
    ensures scratch_after { scratch.new ≡ scratch_after_job work.old scratch.old }
    ensures requirement3 { Requirement3 (area_places work.old scratch.old)
        job.now (job_outcome_of result) work.new }
{
    check_and_report(job, work, scratch, Report::Empty, &mut [])
}
