// The reader: "refers to the job's bytes and to the next unread one". These are thin, and the work is `read_command`'s.
ghost use Rattle.std.specs.Prelude.{◌≡◌};
ghost use Rattle.job.specs.definitions.Reading.{command_reading, command_reading_of};

use crate::reading::read_command;
use crate::types::ReadCommand;
use model::types::Refusal;

#[derive(Clone, Copy)]
struct Reader<'a> {
    job: &'a [u8],
    at: usize,
}

impl Reader<'_> {
    // Command k, at the reader's position, with so many results before it.
    fn next(self, k: usize, count: usize) -> Result<ReadCommand, Refusal>
        ensures { command_reading_of result ≡ command_reading self.entry.job.now k count self.entry.at }
    {
        read_command(self.job, k, count, self.at)
    }
}

// The same with plain parameters, for callers that keep the position themselves.
pub fn read_next(job: &[u8], k: usize, count: usize, at: usize) -> Result<ReadCommand, Refusal>
    ensures { command_reading_of result ≡ command_reading job.now k count at }
{
    Reader { job, at }.next(k, count)
}
