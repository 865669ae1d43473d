// Reading one command: the places of document 01's table that its bytes pass through.
ghost use Rattle.std.specs.Prelude.{◌≡◌, not, ◌&&◌, ◌+◌, ◌≤◌, leb, ltb, eqb, length};
ghost use Rattle.model.specs.definitions.Multiply.{bad_kept};
ghost use Rattle.job.specs.definitions.Reading.{max_results, bad_kind, bad_values, value_bytes, bad_bytes, name_bytes};
ghost use Rattle.job.specs.definitions.Reading.{makes_result, is_end, command_reading, command_reading_of};

use crate::decode::shape_of;
use crate::types::{Kind, MAX_RESULTS, Names, OperandValues, ReadCommand};
use model::multiply::is_bad_kept;
use model::types::Refusal;

// Unknown, no edition first, edition again.
fn is_bad_kind(k: usize, kind: Kind) -> bool
    ensures { result ≡ bad_kind k kind }
{
    match kind {
        Kind::Unknown => true,
        Kind::Edition => k != 0,
        _ => k == 0,
    }
}

// 33 to 254.
fn is_bad_degree(d: u8) -> bool
    ensures { result ≡ bad_kept d }
{
    is_bad_kept(u32::from(d))
}

// Neither edition 1 nor 2. Kept: this is the test of the byte itself.
fn is_bad_edition(e: u8) -> bool
    ensures { result ≡ (not (eqb e 1) && not (eqb e 2)) }
{
    e != 1 && e != 2
}

// An unknown edition; a bad kept degree.
fn has_bad_values(values: OperandValues, job: &[u8], at: usize) -> bool
    requires { at + 1 + value_bytes values ≤ length job.now }
    ensures { result ≡ bad_values values job.now at }
{
    match values {
        OperandValues::Any => false,
        OperandValues::KnownEdition => is_bad_edition(job[at + 1]),
        OperandValues::KeptDegree => is_bad_degree(job[at + 3]),
    }
}

// The byte names a result that is not there yet.
fn is_bad_name(b: u8, count: usize) -> bool
    ensures { result ≡ leb count b }
{
    count <= usize::from(b)
}

// The two bytes after a command name results of which one is not there yet.
fn is_bad_pair(job: &[u8], at: usize, count: usize) -> bool
    requires { at + 3 ≤ length job.now }
    ensures { result ≡ bad_bytes Names.Two job.now at count }
{
    is_bad_name(job[at + 1], count) || is_bad_name(job[at + 2], count)
}

fn has_bad_names(names: Names, job: &[u8], at: usize, count: usize) -> bool
    requires { at + 1 + name_bytes names ≤ length job.now }
    ensures { result ≡ bad_bytes names job.now at count }
{
    match names {
        Names::Nothing => false,
        Names::One => is_bad_name(job[at + 1], count),
        Names::Two => is_bad_pair(job, at, count),
    }
}

// A 33rd result.
fn is_full(kind: Kind, count: usize) -> bool
    ensures { result ≡ (makes_result kind && leb max_results count) }
{
    matches!(kind, Kind::Result(_)) && MAX_RESULTS <= count
}

// Bytes after the end.
fn is_too_long(kind: Kind, next: usize, len: usize) -> bool
    ensures { result ≡ (is_end kind && ltb next len) }
{
    matches!(kind, Kind::End) && next < len
}

// Command k, whose byte stands at a position, with so many results before it.
pub(crate) fn read_command(
    job: &[u8],
    k: usize,
    count: usize,
    at: usize,
) -> Result<ReadCommand, Refusal>
    ensures { command_reading_of result ≡ command_reading job.now k count at }
{
    if job.len() <= at {
        return Err(Refusal::JobEnds);
    }
    let shape = shape_of(job[at]);
    let kind = shape.kind;
    if is_bad_kind(k, kind) {
        return Err(Refusal::BadValue);
    }
    if job.len() - at <= shape.width {
        return Err(Refusal::JobEnds);
    }
    if has_bad_values(shape.values, job, at) {
        return Err(Refusal::BadValue);
    }
    if has_bad_names(shape.names, job, at, count) {
        return Err(Refusal::NotAResult);
    }
    if is_full(kind, count) {
        return Err(Refusal::TooManyResults);
    }
    let next = at + 1 + shape.width;
    if is_too_long(kind, next, job.len()) {
        return Err(Refusal::BytesAfterEnd);
    }
    Ok(ReadCommand { kind, next })
}
