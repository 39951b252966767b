// The figure of a plan.
ghost use Rattle.std.specs.Prelude.{◌≡◌};
ghost use Rattle.trace_card.specs.Boundary as B;

use crate::ANSWER;
use crate::answer::{plan_from, put_answer, put_refusal};
use sheet::MOST_LAYERS;

// The figure of a plan of a card.
pub fn trace_card_figure(card: &[u8], plan: &[u64], answer: &mut [u64]) -> u64
    ensures { B.asked result answer.new ≡ B.figure_call card.now plan.now answer.old }
{
    if answer.len() != ANSWER {
        return 3;
    }
    if plan.len() != MOST_LAYERS {
        return 3;
    }
    let given = plan_from(plan);
    match figure::figure(card, given) {
        Ok(figure) => put_answer(answer, 0, figure, given),
        Err(refusal) => put_refusal(answer, refusal),
    }
}
