// What a command's bytes tell of its result's degree, with the degrees of the results before it.
ghost use Rattle.std.specs.Prelude.{◌≡◌, ◌+◌, min as least};
ghost use Rattle.job.specs.definitions.Bytes.{byte_at};
ghost use Rattle.job.specs.definitions.Decode.{kept_in, maker_at};
ghost use Rattle.survey.specs.definitions.Degrees.{degree_at, block_degree, maker_degree};
ghost use Rattle.survey.specs.definitions.InnerContracts.{NamesOne, NamesTwo};

use job::types::Operation;
use model::types::Model;

const MAX_DEGREE: u8 = Model::MAX_DEGREE as u8;

// A degree byte above 32 counts as 32.
pub(crate) fn block_degree(b: u8) -> u8
    ensures { result ≡ block_degree b }
{
    b.min(MAX_DEGREE)
}

// The kept degree that a byte stands for in an edition, between factors of two degrees.
// Kept: the edition is its byte and no enum, as no clause here says that it is 1 or 2 (`edition_known` does).
pub(crate) fn stands_for(edition: u8, d: u8, n: u8, m: u8) -> u8
    ensures { result ≡ kept_in edition d n m }
{
    if d != 255 {
        return d;
    }
    if edition == 2 {
        return n.max(m);
    }
    MAX_DEGREE
}

// The degree of a product with a kept degree.
pub(crate) fn product_degree(kept: u8, n: u8, m: u8) -> u8
    ensures { result ≡ least kept (n + m) }
{
    kept.min(n.saturating_add(m))
}

// A command at its position in a job, with the degrees of the results before it.
#[derive(Clone, Copy)]
pub(crate) struct Place<'a> {
    pub job: &'a [u8],
    pub at: usize,
    pub degrees: &'a [u8],
}

impl Place<'_> {
    // The degree of the result that the command's operand byte i names, counted from 1.
    pub(crate) fn named_degree(self, i: usize) -> u8
        requires { NamesOne self.job.now (self.at + i) self.degrees.now }
        ensures { result ≡ degree_at self.entry.degrees.now (byte_at self.entry.job.now (self.entry.at + i)) }
    {
        self.degrees[self.job[self.at + i] as usize]
    }

    // Of a sum and of a difference.
    #[tactic(auto, unfolding(crate::specs::definitions::Degrees::maker_degree, job::specs::definitions::Decode::maker_at))]
    pub(crate) fn sum_degree(self) -> u8
        requires { NamesTwo self.job.now self.at self.degrees.now }
        ensures value { result ≡ maker_degree (maker_at Operation.Add self.entry.job.now self.entry.at) self.entry.degrees.now }
        ensures value_2 { result
            ≡ maker_degree (maker_at Operation.Subtract self.entry.job.now self.entry.at) self.entry.degrees.now }
    {
        let first = self.named_degree(1);
        let second = self.named_degree(2);
        first.max(second)
    }
}
