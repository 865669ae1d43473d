// Areas of signed 32-bit numbers: a model is its degree, its coefficients, its radius and its ends, a candidate the
// first two.
ghost use Rattle.std.specs.Prelude.{◌≡◌, ◌≤◌, length};
ghost use Rattle.model.specs.definitions.Area.{model_size, candidate_size, area_model, area_candidate};
ghost use Rattle.model.specs.definitions.Area.{area_out, words, Storable};

use crate::types::{COEFFICIENTS, Candidate, Interval, Model};

pub const MODEL_SIZE: usize = 37;

pub const CANDIDATE_SIZE: usize = 34;

// Where the ends stand.
const LOWER: usize = 35;

const UPPER: usize = 36;

// Stores numbers in an area, which may be longer; one that is too short is not touched.
pub fn store<T: Copy, const N: usize>(area: &mut [T], values: [T; N])
    ensures { area.new ≡ area_out N values area.old }
{
    if N <= area.len() {
        area[..N].copy_from_slice(&values);
    }
}

// The numbers of a slice of one length.
// Kept: a loop, as a model written so stays in registers on its way; with copy_from_slice a job of 32 loads takes 1.8 times the time.
pub fn copy(from: &[i32], to: &mut [i32])
    requires { length from.now ≡ length to.old }
    ensures { to.new ≡ from.now }
{
    for i in 0..from.len() {
        to[i] = from[i];
    }
}

// The candidate whose 34 numbers these are.
pub fn read_candidate(area: &[i32]) -> Candidate
    requires { length area.now ≡ candidate_size }
    ensures { result ≡ area_candidate area.now }
{
    let mut coefficients = [0i32; COEFFICIENTS];
    coefficients.copy_from_slice(&area[1..CANDIDATE_SIZE]);
    Candidate {
        degree: area[0].cast_unsigned(),
        coefficients,
    }
}

// The model whose 37 numbers these are.
pub fn read(area: &[i32]) -> Model
    requires { length area.now ≡ model_size }
    ensures { result ≡ area_model area.now }
{
    let candidate = read_candidate(&area[..CANDIDATE_SIZE]);
    let radius = area[CANDIDATE_SIZE].cast_unsigned();
    let lower = area[LOWER];
    let upper = area[UPPER];
    let interval = Interval { lower, upper };
    Model::new(candidate.degree, candidate.coefficients, radius, interval)
}

// The model in an area, which may be longer.
pub fn model_in(area: &[i32]) -> Model
    requires { model_size ≤ length area.now }
    ensures { result ≡ area_model area.now }
{
    read(&area[..MODEL_SIZE])
}

// The 37 numbers of a model.
pub fn write(area: &mut [i32], m: Model)
    requires { (length area.old ≡ model_size) × Storable m }
    ensures { area.new ≡ words m }
{
    area[0] = m.degree as i32;
    copy(&m.coefficients, &mut area[1..CANDIDATE_SIZE]);
    area[CANDIDATE_SIZE] = m.radius as i32;
    area[LOWER] = m.interval.lower;
    area[UPPER] = m.interval.upper;
}
