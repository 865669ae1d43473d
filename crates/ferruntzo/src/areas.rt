// Lent areas: numbers behind those in use play no part and stay; an area that is itself too short is not written to.
ghost use Rattle.std.specs.Prelude.{◌≡◌, ◌≤◌, length};
ghost use Rattle.model.specs.definitions.Area.{model_size, candidate_size, words, area_candidate, Storable, area_out};

use model::area::{CANDIDATE_SIZE, MODEL_SIZE, read_candidate, write};
use model::types::{Candidate, Model};

// The low and the high bound of an evaluation.
pub(crate) const BOUNDS_SIZE: usize = 2;

// Document 01's m, N and b.
pub(crate) const NUMBERS_SIZE: usize = 3;

// Which of two proposals is chosen, and its radius.
pub(crate) const SELECTION_SIZE: usize = 2;

// The candidate in an area.
pub(crate) fn candidate_in(area: &[i32]) -> Candidate
    requires { candidate_size ≤ length area.now }
    ensures { result ≡ area_candidate area.now }
{
    read_candidate(&area[..CANDIDATE_SIZE])
}

// Stores a model.
#[tactic(auto, unfolding(model::specs::definitions::Area::area_out))]
pub(crate) fn store_model(out: &mut [i32], m: Model)
    requires { Storable m }
    ensures { out.new ≡ area_out model_size (words m) out.old }
{
    if MODEL_SIZE <= out.len() {
        write(&mut out[..MODEL_SIZE], m);
    }
}
