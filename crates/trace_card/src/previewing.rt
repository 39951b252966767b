// Previewing.
ghost use Rattle.std.specs.Prelude.{◌≡◌};
ghost use Rattle.trace_card.specs.Boundary as B;

use crate::ANSWER;
use crate::answer::plan_from;
use crate::reading::put_reached;
use sheet::MOST_LAYERS;

// Shows in `next` what adding the next plane of a layer would make of the values.
pub fn trace_card_preview(
    card: &[u8],
    plan: &[u64],
    layer: u64,
    coefficients: &[i32],
    values: &[i64],
    next: &mut [i64],
    answer: &mut [u64],
) -> u64
    ensures { B.saw result answer.new coefficients.now values.now next.new ≡ B.preview_call coefficients.now values.now next.old answer.old card.now plan.now layer }
{
    if answer.len() != ANSWER {
        return 3;
    }
    if plan.len() != MOST_LAYERS {
        return 3;
    }
    let reached = preview::preview(card, plan_from(plan), layer, coefficients, values, next);
    put_reached(answer, reached)
}
