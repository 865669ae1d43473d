// The conversion of a job to the other edition.
ghost use Rattle.std.specs.Prelude.{◌≡◌, ℕ, length, take};
ghost use Rattle.job.specs.definitions.Outcomes.{accepted, job_outcome_of};
ghost use Rattle.survey.specs.definitions.Editions.{ConvertedJob, edition_conversion, output_after};

use crate::areas::copy;
use crate::walk::walk;
use job::types::RefusedCommand;
use model::types::Refusal;

// Refusal 20 goes with command 0.
const SHORT_OUTPUT: RefusedCommand = RefusedCommand {
    refusal: Refusal::ShortOutput,
    command: 0,
};

// Converts a job that reads well to the other edition: it answers the length, and bytes of the output behind that stay. After a
// refusal the whole output is zero. The last clause is what the converted job has to do with its source.
pub fn convert_edition(job: &[u8], out: &mut [u8]) -> Result<usize, RefusedCommand>
    ensures result_value { job_outcome_of result ≡ edition_conversion job.now (length out.old) }
    ensures out_after { out.new ≡ output_after job.now out.old }
    ensures by_index { (n : ℕ) → job_outcome_of result ≡ accepted n → ConvertedJob job.now (take n out.new) }
{
    let len = job.len();
    if out.len() < len {
        let read = walk(job, out);
        out.fill(0);
        read?;
        return Err(SHORT_OUTPUT);
    }
    copy(job, &mut out[..len]);
    if let Err(refused) = walk(job, &mut out[..len]) {
        out.fill(0);
        return Err(refused);
    }
    Ok(len)
}
