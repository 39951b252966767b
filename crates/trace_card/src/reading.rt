// Reading, showing and refining.
ghost use Rattle.std.specs.Prelude.{◌≡◌, List, ℤ, length};
ghost use Rattle.card.specs.Reading as R;
ghost use Rattle.trace_card.specs.Boundary as B;

use crate::ANSWER;
use crate::answer::{plan_from, put_answer, put_refusal};
use card::Reached;
use header::Refusal;
use sheet::MOST_LAYERS;

// Fills the answer of a call that reaches a plan.
pub(crate) fn put_reached(answer: &mut [u64], reached: Result<Reached, Refusal>) -> u64
    requires { length answer.old ≡ B.answer_length }
    ensures { (qs vs : List ℤ) → B.left result answer.new qs vs ≡ B.read_as (R.as_reading reached qs vs) }
{
    match reached {
        Ok(reached) => put_answer(answer, 0, reached.figure, reached.plan),
        Err(refusal) => put_refusal(answer, refusal),
    }
}

// Reads a card, truncated or whole, with a plan.
pub fn trace_card_read(
    card: &[u8],
    plan: &[u64],
    coefficients: &mut [i32],
    values: &mut [i64],
    answer: &mut [u64],
) -> u64
    ensures { B.left result answer.new coefficients.new values.new ≡ B.read_call coefficients.old values.old answer.old card.now plan.now }
{
    if answer.len() != ANSWER {
        return 3;
    }
    if plan.len() != MOST_LAYERS {
        return 3;
    }
    let reached = card::read(card, plan_from(plan), coefficients, values);
    put_reached(answer, reached)
}

// Reads a card, truncated or whole, with all the planes that are there.
pub fn trace_card_show(
    card: &[u8],
    coefficients: &mut [i32],
    values: &mut [i64],
    answer: &mut [u64],
) -> u64
    ensures { B.left result answer.new coefficients.new values.new ≡ B.show_call coefficients.old values.old answer.old card.now }
{
    if answer.len() != ANSWER {
        return 3;
    }
    let reached = card::show(card, coefficients, values);
    put_reached(answer, reached)
}

// Adds the next plane of a layer to a reading with a plan.
pub fn trace_card_refine(
    card: &[u8],
    plan: &[u64],
    layer: u64,
    coefficients: &mut [i32],
    values: &mut [i64],
    answer: &mut [u64],
) -> u64
    ensures { B.left result answer.new coefficients.new values.new ≡ B.refine_call coefficients.old values.old answer.old card.now plan.now layer }
{
    if answer.len() != ANSWER {
        return 3;
    }
    if plan.len() != MOST_LAYERS {
        return 3;
    }
    let reached = card::refine(card, plan_from(plan), layer, coefficients, values);
    put_reached(answer, reached)
}
