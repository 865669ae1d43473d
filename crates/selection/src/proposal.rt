// The test of one proposal: degree and coefficients of h, then of w.
ghost use Rattle.std.specs.Prelude.{◌≡◌, length, IfOk};
ghost use Rattle.certificate.specs.definitions.Tests.{scratch_after};
ghost use Rattle.certificate.specs.definitions.Promise.{QuotientAllowed};
ghost use Rattle.selection.specs.definitions.Proposal.{proposed_answer, proposal_radius, proposal_of};
ghost use Rattle.selection.specs.definitions.Promise.{part_model};

use certificate::quotient::quotient;
use certificate::scratch::clear_scratch;
use model::area::{CANDIDATE_SIZE, read_candidate};
use model::types::{Model, Refusal};

pub const PROPOSAL_SIZE: usize = 68;

// The radius of one that passes. One that is too short is refused before the models are looked at. The last clause is what is
// promised of one that passes.
#[tactic(auto, using(crate::proofs::laws::ProposalLaws::short_radius))]
pub(crate) fn test_proposal(
    f: Model,
    g: Model,
    proposal: &[i32],
    scratch: &mut [i64],
) -> Result<u32, Refusal>
    ensures result_value { proposal_of result ≡ proposal_radius (length scratch.old) f g proposal.now }
    ensures scratch_after { scratch.new ≡ scratch_after scratch.old }
    ensures quotient_allowed { IfOk result (λ radius.
        QuotientAllowed f g (part_model (proposed_answer proposal.now).coefficients radius f.interval)) }
{
    if proposal.len() < PROPOSAL_SIZE {
        clear_scratch(scratch);
        return Err(Refusal::ShortArea);
    }
    let h = read_candidate(&proposal[..CANDIDATE_SIZE]);
    let w = read_candidate(&proposal[CANDIDATE_SIZE..PROPOSAL_SIZE]);
    let test = quotient(f, g, h, w, scratch)?;
    Ok(test.model.radius)
}
