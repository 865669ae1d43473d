// The tighter of two proposals for the quotient f/g.
ghost use Rattle.std.specs.Prelude.{◌≡◌, length};
ghost use Rattle.certificate.specs.definitions.Tests.{scratch_after};
ghost use Rattle.certificate.specs.definitions.Promise.{QuotientAllowed};
ghost use Rattle.selection.specs.definitions.Proposal.{proposal_radius, proposal_of};
ghost use Rattle.selection.specs.definitions.Select.{make_selected, tighter, selection, selection_of, selected_of, IsPart};
ghost use Rattle.selection.specs.definitions.Promise.{part_model, Tightest};

use crate::proposal::test_proposal;
use crate::types::Chosen;
use model::area::CANDIDATE_SIZE;
use model::types::{Model, Refusal};

// The smaller radius of those that pass; equal radii favour the first.
#[tactic(auto, unfolding(crate::specs::definitions::Select::tighter))]
fn select(a: Result<u32, Refusal>, b: Result<u32, Refusal>) -> Result<Chosen, Refusal>
    ensures { selection_of result ≡ tighter (proposal_of a) (proposal_of b) }
{
    match (a, b) {
        (Ok(a), Ok(b)) => Ok(if b < a {
            Chosen::Second(b)
        } else {
            Chosen::First(a)
        }),
        (Ok(a), Err(_)) => Ok(Chosen::First(a)),
        (Err(_), Ok(b)) => Ok(Chosen::Second(b)),
        (Err(refusal), Err(_)) => Err(refusal),
    }
}

// Tests two proposals for f/g and gives the coefficients of the tighter one, a part of its own slice; where neither passes, an
// empty part of the first. The last two clauses are what is promised of the part with its radius.
pub fn quotient_of_two<'a>(
    f: Model,
    g: Model,
    first: &'a [i32],
    second: &'a [i32],
    scratch: &mut [i64],
    number: &mut u32,
    chosen: &mut u32,
    radius: &mut u32,
) -> &'a [i32]
    ensures radius_after { selected_of number.new chosen.new radius.new
        ≡ selection (length scratch.old) f g first.now second.now }
    ensures part { IsPart chosen.new first.entry second.entry result }
    ensures scratch_after { scratch.new ≡ scratch_after scratch.old }
    ensures quotient_allowed { number.new ≡ 0 → QuotientAllowed f g (part_model result.now radius.new f.interval) }
    ensures tightest { number.new ≡ 0 → Tightest
        (proposal_radius (length scratch.old) f g first.now)
        (proposal_radius (length scratch.old) f g second.now)
        (make_selected chosen.new radius.new) }
{
    let a = test_proposal(f, g, first, scratch);
    let b = test_proposal(f, g, second, scratch);
    // Kept: lent numbers and no Result: S-14 names the form, and `IsPart` promises an empty part of the first on a refusal.
    match select(a, b) {
        Ok(Chosen::First(e)) => {
            *number = 0;
            *chosen = 1;
            *radius = e;
            &first[1..CANDIDATE_SIZE]
        }
        Ok(Chosen::Second(e)) => {
            *number = 0;
            *chosen = 2;
            *radius = e;
            &second[1..CANDIDATE_SIZE]
        }
        Err(refusal) => {
            *number = u32::from(refusal);
            *chosen = 0;
            *radius = 0;
            &first[..0]
        }
    }
}
