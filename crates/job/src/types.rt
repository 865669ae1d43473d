// The kinds of commands, and what the check of a job answers.
use certificate::types::RootRule;
use model::types::Refusal;

// Results are counted 0 to 31.
pub const MAX_RESULTS: usize = 32;

// The operations of the commands that make a result.
#[derive(Clone, Copy)]
pub enum Operation {
    Load,
    Add,
    Subtract,
    Multiply,
    LoadOn,
    Quotient,
    Root(RootRule),
}

// A command is the end, the edition or one that makes a result.
// Kept: an unknown byte is a kind and no None, since 01's table has a place for it, and its command a meaning.
#[derive(Clone, Copy)]
pub enum Kind {
    End,
    Edition,
    Result(Operation),
    Unknown,
}

// How many of a command's operand bytes, from the first on, name results.
#[derive(Clone, Copy, Debug, PartialEq, Eq)]
pub enum Names {
    Nothing,
    One,
    Two,
}

// What values are asked of a command's operand bytes: none, a known edition, or a kept degree after two names.
#[derive(Clone, Copy, Debug, PartialEq, Eq)]
pub enum OperandValues {
    Any,
    KnownEdition,
    KeptDegree,
}

// A command's shape: its kind, the width of its operands in bytes, which of them name results, and what values are asked.
#[derive(Clone, Copy)]
pub struct Shape {
    pub kind: Kind,
    pub width: usize,
    pub names: Names,
    pub values: OperandValues,
}

// A command that was read, and the next position.
#[derive(Clone, Copy)]
pub struct ReadCommand {
    pub kind: Kind,
    pub next: usize,
}

// The count of results after a command, and the next position.
#[derive(Clone, Copy, Debug, PartialEq, Eq)]
pub(crate) struct Progress {
    pub results: usize,
    pub next: usize,
}

// Why a job is refused, and the command that is refused, counted from 0.
#[derive(Clone, Copy, Debug, PartialEq, Eq)]
pub struct RefusedCommand {
    pub refusal: Refusal,
    pub command: usize,
}

// Which report records a check writes: none, the workshop's of 6 bytes, or the service's of 18.
#[derive(Clone, Copy, Debug, PartialEq, Eq)]
pub enum Report {
    Empty,
    Workshop,
    Service,
}
