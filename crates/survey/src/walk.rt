// The walk over a job's commands, on their bytes alone, which converts them in a copy of the job.
ghost use Rattle.std.specs.Prelude.{◌≡◌, [], ◌+◌, ◌<◌, length};
ghost use Rattle.job.specs.definitions.Outcomes.{job_outcome_of};
ghost use Rattle.job.specs.definitions.Reader.{job_reading, ReadsWell};
ghost use Rattle.job.specs.definitions.Decode.{maker_at, command_at};
ghost use Rattle.survey.specs.definitions.Degrees.{maker_degree};
ghost use Rattle.survey.specs.definitions.Editions.{other_edition, maker_converted, command_converted, convert_from};
ghost use Rattle.survey.specs.definitions.InnerContracts.{NamesTwo, TellsDegree, Converting, degree_made, reading_outcome};

use crate::areas::put;
use crate::degrees::{Place, block_degree, product_degree, stands_for};
use job::reader::read_next;
use job::types::{Kind, MAX_RESULTS, Operation, RefusedCommand};

impl Place<'_> {
    // A multiply command is converted: its kept degree is stated. It answers the degree of the result.
    #[tactic(auto, unfolding(crate::specs::definitions::Degrees::maker_degree, job::specs::definitions::Decode::maker_at))]
    fn convert_multiply(self, out: &mut [u8]) -> u8
        requires { NamesTwo self.job.now self.at self.degrees.now
            × (self.at + 3 < length self.job.now) }
        ensures value { result
            ≡ maker_degree (maker_at Operation.Multiply self.entry.job.now self.entry.at) self.entry.degrees.now }
        ensures out_after { out.new
            ≡ maker_converted (maker_at Operation.Multiply self.entry.job.now self.entry.at) self.entry.at
            self.entry.degrees.now out.old }
    {
        let first = self.named_degree(1);
        let second = self.named_degree(2);
        let kept = stands_for(self.job[1], self.job[self.at + 3], first, second);
        put(out, self.at + 3, kept);
        product_degree(kept, first, second)
    }

    // A command that makes a result is converted. It answers the degree of the result.
    #[tactic(auto, unfolding(crate::specs::definitions::Degrees::maker_degree, job::specs::definitions::Decode::maker_at))]
    fn convert_result(self, op: Operation, out: &mut [u8]) -> u8
        requires { TellsDegree op self.job.now self.at self.degrees.now }
        ensures value { result ≡ maker_degree (maker_at op self.entry.job.now self.entry.at) self.entry.degrees.now }
        ensures out_after { out.new
            ≡ maker_converted (maker_at op self.entry.job.now self.entry.at) self.entry.at self.entry.degrees.now out.old }
    {
        match op {
            Operation::Load | Operation::LoadOn => block_degree(self.job[self.at + 1]),
            Operation::Add | Operation::Subtract => self.sum_degree(),
            Operation::Multiply => self.convert_multiply(out),
            Operation::Quotient => block_degree(self.job[self.at + 3]),
            Operation::Root(_) => block_degree(self.job[self.at + 2]),
        }
    }

    // A command that was read is converted. It answers the degree of the result that it makes.
    fn convert(self, kind: Kind, out: &mut [u8]) -> Option<u8>
        requires { Converting kind self.job.now self.at self.degrees.now }
        ensures degree { result ≡ degree_made (command_at kind self.entry.job.now self.entry.at) self.entry.degrees.now }
        ensures out_after { out.new
            ≡ command_converted (command_at kind self.entry.job.now self.entry.at) self.entry.job.now self.entry.at
            self.entry.degrees.now out.old }
    {
        match kind {
            Kind::Result(op) => Some(self.convert_result(op, out)),
            Kind::Edition => {
                put(out, self.at + 1, other_edition(self.job[self.at + 1]));
                None
            }
            Kind::End | Kind::Unknown => None,
        }
    }
}

// 1 to 2, and 2 to 1. Kept: bytes and no enum, as no clause here says that a job's edition is 1 or 2 (`edition_known` does).
fn other_edition(e: u8) -> u8
    ensures { result ≡ other_edition e }
{
    if e == 1 { 2 } else { 1 }
}

// The reading of a whole job, and the conversion of its commands in `out`, which holds a copy of the job or is too short for one.
pub(crate) fn walk(job: &[u8], out: &mut [u8]) -> Result<usize, RefusedCommand>
    ensures result_value { job_outcome_of result ≡ reading_outcome (job_reading job.now) }
    ensures out_after { ReadsWell job.now
        → out.new ≡ convert_from (length job.now + 1) job.now [] 0 out.old }
{
    // Kept: an array and its count, as the library has no heap; what is lent is the part in use.
    let mut list = [0u8; MAX_RESULTS];
    let mut count = 0;
    let mut at = 0;
    let mut command = 0;
    loop {
        let read = read_next(job, command, count, at).map_err(|refusal| RefusedCommand {
            refusal,
            command,
        })?;
        if let Kind::End = read.kind {
            return Ok(count);
        }
        let place = Place {
            job,
            at,
            degrees: &list[..count],
        };
        if let Some(degree) = place.convert(read.kind, out) {
            list[count] = degree;
            count += 1;
        }
        at = read.next;
        command += 1;
    }
}
