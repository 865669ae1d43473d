// The tighter of two proposals for a quotient over lent areas. A proposal that is too short is refused by itself; if another area
// is too short, refusal 1 and zeros.
ghost use Rattle.std.specs.Prelude.{◌≡◌, length, get_or};
ghost use Rattle.model.specs.definitions.Area.{area_model};
ghost use Rattle.certificate.specs.definitions.Promise.{QuotientAllowed};
ghost use Rattle.selection.specs.definitions.Proposal.{proposal_radius};
ghost use Rattle.selection.specs.definitions.Select.{make_selected, part_numbers};
ghost use Rattle.selection.specs.definitions.Promise.{part_model, Tightest};
ghost use Rattle.ferruntzo.specs.definitions.Selections.{selection_answer, short_selection, selection_in, quotient_of_two_answer};

use crate::areas::SELECTION_SIZE;
use certificate::scratch::clear_scratch;
use certificate::types::SCRATCH_SIZE;
use model::area::{MODEL_SIZE, model_in, store};
use model::types::Refusal;
use selection::select::quotient_of_two;

// Refusal 1 of a selection.
#[tactic(auto, unfolding(crate::specs::definitions::Selections::selection_in))]
fn refuse_selection(scratch: &mut [i64], answer: &mut [u32]) -> u32
    ensures { selection_answer result scratch.new answer.new
        ≡ selection_in short_selection scratch.old answer.old }
{
    clear_scratch(scratch);
    store(answer, [0; SELECTION_SIZE]);
    u32::from(Refusal::ShortArea)
}

// Which of two proposals for f/g is accepted with the smaller radius? Both have one lifetime, as quotient_of_two asks. The last
// two clauses are what is promised of the chosen one.
#[tactic(auto, unfolding(crate::specs::definitions::Selections::selection_in, model::specs::definitions::Area::area_out))]
#[unsafe(no_mangle)]
pub extern "C" fn ferruntzo_quotient_of_two<'a>(
    f: &[i32],
    g: &[i32],
    first: &'a [i32],
    second: &'a [i32],
    scratch: &mut [i64],
    answer: &mut [u32],
) -> u32
    ensures answer_after { selection_answer result scratch.new answer.new
        ≡ quotient_of_two_answer f.now g.now first.now second.now
        scratch.old answer.old }
    ensures quotient_allowed { result ≡ 0 → QuotientAllowed (area_model f.now) (area_model g.now)
        (part_model (part_numbers (get_or answer.new 0 0) first.now second.now)
        (get_or answer.new 1 0) (area_model f.now).interval) }
    ensures tightest { result ≡ 0 → Tightest
        (proposal_radius (length scratch.old) (area_model f.now) (area_model g.now)
        first.now)
        (proposal_radius (length scratch.old) (area_model f.now) (area_model g.now)
        second.now)
        (make_selected (get_or answer.new 0 0) (get_or answer.new 1 0)) }
{
    if (MODEL_SIZE <= f.len())
        & (MODEL_SIZE <= g.len())
        & (SCRATCH_SIZE <= scratch.len())
        & (SELECTION_SIZE <= answer.len())
    {
        // Kept: lent numbers, as `quotient_of_two` takes them: document 02, S-14, names its form.
        let mut number: u32 = 0;
        let mut chosen: u32 = 0;
        let mut radius: u32 = 0;
        quotient_of_two(
            model_in(f),
            model_in(g),
            first,
            second,
            scratch,
            &mut number,
            &mut chosen,
            &mut radius,
        );
        store(answer, [chosen, radius]);
        number
    } else {
        refuse_selection(scratch, answer)
    }
}
