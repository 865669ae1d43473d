// Numbers and blocks in a job's bytes, little-endian.
ghost use Rattle.std.specs.Prelude.{◌≡◌, ◌+◌, ◌≤◌, ◌<◌, length};
ghost use Rattle.job.specs.definitions.Bytes.{unsigned_at, signed as signed_of, signeds_at, candidate_at, block_at, interval_at};

use model::types::{COEFFICIENTS, Candidate, Interval, Model};

// The unsigned 32-bit number of the four bytes from i on.
pub(crate) fn read_unsigned(s: &[u8], i: usize) -> u32
    requires { i + 4 ≤ length s.now }
    ensures { result ≡ unsigned_at s.now i }
{
    u32::from_le_bytes([s[i], s[i + 1], s[i + 2], s[i + 3]])
}

// The signed one, in two's complement.
fn read_signed(s: &[u8], i: usize) -> i32
    requires { i + 4 ≤ length s.now }
    ensures { result ≡ signed_of (unsigned_at s.now i) }
{
    read_unsigned(s, i).cast_signed()
}

// The coefficients of a block from i on.
fn read_coefficients(s: &[u8], i: usize) -> [i32; COEFFICIENTS]
    requires { i + 132 ≤ length s.now }
    ensures { result ≡ signeds_at s.now i 33 }
{
    let mut coefficients = [0i32; COEFFICIENTS];
    for k in 0..COEFFICIENTS {
        coefficients[k] = read_signed(s, i + 4 * k);
    }
    coefficients
}

// The block from i on, as a candidate.
pub(crate) fn read_candidate(s: &[u8], i: usize) -> Candidate
    requires { i + 133 ≤ length s.now }
    ensures { result ≡ candidate_at s.now i }
{
    let coefficients = read_coefficients(s, i + 1);
    Candidate {
        degree: u32::from(s[i]),
        coefficients,
    }
}

// The two ends from i on.
pub(crate) fn read_interval(s: &[u8], i: usize) -> Interval
    requires { i + 8 ≤ length s.now }
    ensures { result ≡ interval_at s.now i }
{
    let lower = read_signed(s, i);
    let upper = read_signed(s, i + 4);
    Interval { lower, upper }
}

// The block from i on, with a radius and an interval.
pub(crate) fn read_model(s: &[u8], i: usize, radius: u32, interval: Interval) -> Model
    requires { i + 133 ≤ length s.now }
    ensures { result ≡ block_at s.now i radius interval }
{
    let block = read_candidate(s, i);
    let coefficients = block.coefficients;
    Model::new(block.degree, coefficients, radius, interval)
}
