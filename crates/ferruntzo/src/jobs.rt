// Jobs over lent areas: their check, with and without a report, and their conversion to the other edition.
ghost use Rattle.std.specs.Prelude.{◌≡◌, ℕ, take};
ghost use Rattle.model.specs.definitions.Area.{area_out};
ghost use Rattle.job.specs.definitions.Outcomes.{accepted, job_outcome_of, refusal_number};
ghost use Rattle.job.specs.definitions.Requirement.{Requirement3};
ghost use Rattle.job.specs.declared.types.Report.TheVariants.{Workshop, Service};
ghost use Rattle.survey.specs.definitions.Editions.{ConvertedJob};
ghost use Rattle.ferruntzo.specs.definitions.Jobs.{answer_size, answer_numbers, Answerable, answer_in, exported_places};
ghost use Rattle.ferruntzo.specs.definitions.Jobs.{job_answer, check_answer, edition_answer, convert_answer};
ghost use Rattle.ferruntzo.specs.definitions.Jobs.{report_answer, room_left, exported_report_places};

use job::run::{check, check_and_report};
use job::types::{RefusedCommand, Report};
use model::area::store;
use model::types::Refusal;
use survey::editions::convert_edition;

// The count of results or the length, and the number of the refused command.
const ANSWER_SIZE: usize = 2;

// Writes both numbers, and answers the number of the refusal. Kept, as `answer_operation`.
fn write_answer(outcome: Result<usize, RefusedCommand>, answer: &mut [u32]) -> u32
    requires { Answerable (job_outcome_of outcome) }
    ensures value { result ≡ refusal_number (job_outcome_of outcome) }
    ensures answer_after { answer.new ≡ area_out answer_size (answer_numbers (job_outcome_of outcome)) answer.old }
{
    match outcome {
        Ok(count) => {
            store(answer, [count as u32, 0]);
            0
        }
        Err(refused) => {
            store(answer, [0, refused.command as u32]);
            u32::from(refused.refusal)
        }
    }
}

// Checks a job. The last clause is requirement 3.
#[tactic(auto, unfolding(crate::specs::definitions::Jobs::check_answer, model::specs::definitions::Area::area_out))]
#[unsafe(no_mangle)]
pub extern "C" fn ferruntzo_check(
    job: &[u8],
    work: &mut [i32],
    scratch: &mut [i64],
    answer: &mut [u32],
) -> u32
    ensures answer_after { job_answer result work.new scratch.new answer.new
        ≡ check_answer job.now work.old scratch.old answer.old }
    ensures requirement3 { Requirement3 (exported_places work.old scratch.old answer.old)
        job.now (answer_in result answer.new) work.new }
{
    if ANSWER_SIZE <= answer.len() {
        let outcome = check(job, work, scratch);
        write_answer(outcome, answer)
    } else {
        u32::from(Refusal::ShortArea)
    }
}

// Checks a job and writes a report. The last clause is requirement 3. Kept: the areas as C lends them.
#[tactic(auto, unfolding(crate::specs::definitions::Jobs::report_answer, crate::specs::definitions::Jobs::room_left))]
fn report_job(
    job: &[u8],
    work: &mut [i32],
    scratch: &mut [i64],
    report: Report,
    room: &mut [u8],
    answer: &mut [u32],
) -> u32
    ensures answer_after { job_answer result work.new scratch.new answer.new
        ≡ report_answer report job.now work.old scratch.old room.old
        answer.old }
    ensures room_after { room.new
        ≡ room_left report job.now work.old scratch.old room.old
        answer.old }
    ensures requirement3 { Requirement3
        (exported_report_places report work.old scratch.old room.old answer.old)
        job.now (answer_in result answer.new) work.new }
{
    if ANSWER_SIZE <= answer.len() {
        let outcome = check_and_report(job, work, scratch, report, room);
        write_answer(outcome, answer)
    } else {
        u32::from(Refusal::ShortArea)
    }
}

// Checks a job and writes the workshop's report records. The last clause is requirement 3.
#[unsafe(no_mangle)]
pub extern "C" fn ferruntzo_check_workshop(
    job: &[u8],
    work: &mut [i32],
    scratch: &mut [i64],
    room: &mut [u8],
    answer: &mut [u32],
) -> u32
    ensures answer_after { job_answer result work.new scratch.new answer.new
        ≡ report_answer Workshop job.now work.old scratch.old room.old
        answer.old }
    ensures room_after { room.new
        ≡ room_left Workshop job.now work.old scratch.old room.old
        answer.old }
    ensures requirement3 { Requirement3
        (exported_report_places Workshop work.old scratch.old room.old answer.old)
        job.now (answer_in result answer.new) work.new }
{
    report_job(job, work, scratch, Report::Workshop, room, answer)
}

// Checks a job and writes the service's report records. The last clause is requirement 3.
#[unsafe(no_mangle)]
pub extern "C" fn ferruntzo_check_service(
    job: &[u8],
    work: &mut [i32],
    scratch: &mut [i64],
    room: &mut [u8],
    answer: &mut [u32],
) -> u32
    ensures answer_after { job_answer result work.new scratch.new answer.new
        ≡ report_answer Service job.now work.old scratch.old room.old
        answer.old }
    ensures room_after { room.new
        ≡ room_left Service job.now work.old scratch.old room.old
        answer.old }
    ensures requirement3 { Requirement3
        (exported_report_places Service work.old scratch.old room.old answer.old)
        job.now (answer_in result answer.new) work.new }
{
    report_job(job, work, scratch, Report::Service, room, answer)
}

// Converts a job to the other edition. The last clause is what the converted job has to do with its source.
#[tactic(auto, unfolding(crate::specs::definitions::Jobs::convert_answer, model::specs::definitions::Area::area_out))]
#[unsafe(no_mangle)]
pub extern "C" fn ferruntzo_convert_edition(job: &[u8], out: &mut [u8], answer: &mut [u32]) -> u32
    ensures answer_after { edition_answer result out.new answer.new
        ≡ convert_answer job.now out.old answer.old }
    ensures by_index { (n : ℕ) → answer_in result answer.new ≡ accepted n
        → ConvertedJob job.now (take n out.new) }
{
    if ANSWER_SIZE <= answer.len() {
        let outcome = convert_edition(job, out);
        write_answer(outcome, answer)
    } else {
        out.fill(0);
        u32::from(Refusal::ShortArea)
    }
}
