// Planning, by a limit on the figure or in so many cells.
ghost use Rattle.std.specs.Prelude.{◌≡◌, length};
ghost use Rattle.planner.specs.Planning as N;
ghost use Rattle.trace_card.specs.Boundary as B;

use crate::ANSWER;
use crate::answer::{put_answer, put_refusal};
use header::Refusal;
use planner::Planned;

// Fills the answer of a call that finds a plan.
fn put_planned(answer: &mut [u64], planned: Result<Planned, Refusal>) -> u64
    requires { length answer.old ≡ B.answer_length }
    ensures { B.asked result answer.new ≡ B.planned_as (N.as_planning planned) }
{
    match planned {
        Ok(planned) => put_answer(answer, planned.cells, planned.figure, planned.plan),
        Err(refusal) => put_refusal(answer, refusal),
    }
}

// The plan with the fewest cells whose figure is at most the limit.
pub fn trace_card_plan_by_limit(card: &[u8], limit: u64, answer: &mut [u64]) -> u64
    ensures { B.asked result answer.new ≡ B.limit_call card.now limit answer.old }
{
    if answer.len() != ANSWER {
        return 3;
    }
    put_planned(answer, planner::plan_by_limit(card, limit))
}

// The plan with the smallest figure in at most so many cells.
pub fn trace_card_plan_by_cells(card: &[u8], cells: u64, answer: &mut [u64]) -> u64
    ensures { B.asked result answer.new ≡ B.cells_call card.now cells answer.old }
{
    if answer.len() != ANSWER {
        return 3;
    }
    put_planned(answer, planner::plan_by_cells(card, cells))
}
