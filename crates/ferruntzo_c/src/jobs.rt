// Jobs: their check, with and without a report, and their conversion to the other edition.
ghost use Rattle.std.specs.Prelude.{◌≡◌, ℕ, take};
ghost use Rattle.job.specs.definitions.Outcomes.{accepted};
ghost use Rattle.job.specs.definitions.Requirement.{Requirement3};
ghost use Rattle.job.specs.declared.types.Report.TheVariants.{Workshop, Service};
ghost use Rattle.survey.specs.definitions.Editions.{ConvertedJob};
ghost use Rattle.ferruntzo.specs.definitions.Jobs.{answer_in, exported_places};
ghost use Rattle.ferruntzo.specs.definitions.Jobs.{job_answer, check_answer, edition_answer, convert_answer};
ghost use Rattle.ferruntzo.specs.definitions.Jobs.{report_answer, room_left, exported_report_places};

// Checks a job. The last clause is requirement 3.
#[unsafe(no_mangle)]
pub extern "C" fn ferruntzo_check(
    job: &[u8],
    work: &mut [i32],
    scratch: &mut [i64],
    answer: &mut [u32],
) -> u32
    ensures answer_after { job_answer result work.new scratch.new answer.new
        ≡ check_answer job.now work.old scratch.old answer.old }
    ensures requirement3 { Requirement3 (exported_places work.old scratch.old answer.old)
        job.now (answer_in result answer.new) work.new }
{
    ferruntzo::jobs::ferruntzo_check(job, work, scratch, answer)
}

// Checks a job and writes the workshop's report records. The last clause is requirement 3.
#[unsafe(no_mangle)]
pub extern "C" fn ferruntzo_check_workshop(
    job: &[u8],
    work: &mut [i32],
    scratch: &mut [i64],
    room: &mut [u8],
    answer: &mut [u32],
) -> u32
    ensures answer_after { job_answer result work.new scratch.new answer.new
        ≡ report_answer Workshop job.now work.old scratch.old room.old
        answer.old }
    ensures room_after { room.new
        ≡ room_left Workshop job.now work.old scratch.old room.old
        answer.old }
    ensures requirement3 { Requirement3
        (exported_report_places Workshop work.old scratch.old room.old answer.old)
        job.now (answer_in result answer.new) work.new }
{
    ferruntzo::jobs::ferruntzo_check_workshop(job, work, scratch, room, answer)
}

// Checks a job and writes the service's report records. The last clause is requirement 3.
#[unsafe(no_mangle)]
pub extern "C" fn ferruntzo_check_service(
    job: &[u8],
    work: &mut [i32],
    scratch: &mut [i64],
    room: &mut [u8],
    answer: &mut [u32],
) -> u32
    ensures answer_after { job_answer result work.new scratch.new answer.new
        ≡ report_answer Service job.now work.old scratch.old room.old
        answer.old }
    ensures room_after { room.new
        ≡ room_left Service job.now work.old scratch.old room.old
        answer.old }
    ensures requirement3 { Requirement3
        (exported_report_places Service work.old scratch.old room.old answer.old)
        job.now (answer_in result answer.new) work.new }
{
    ferruntzo::jobs::ferruntzo_check_service(job, work, scratch, room, answer)
}

// Converts a job to the other edition. The last clause is what the converted job has to do with its source.
#[unsafe(no_mangle)]
pub extern "C" fn ferruntzo_convert_edition(job: &[u8], out: &mut [u8], answer: &mut [u32]) -> u32
    ensures answer_after { edition_answer result out.new answer.new
        ≡ convert_answer job.now out.old answer.old }
    ensures by_index { (n : ℕ) → answer_in result answer.new ≡ accepted n
        → ConvertedJob job.now (take n out.new) }
{
    ferruntzo::jobs::ferruntzo_convert_edition(job, out, answer)
}
