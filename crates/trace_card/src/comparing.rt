// Comparing.
ghost use Rattle.std.specs.Prelude.{◌≡◌, length};
ghost use Rattle.header.specs.Refusals.{refusal};
ghost use Rattle.compare.specs.Comparing as C;
ghost use Rattle.trace_card.specs.Boundary as B;

use crate::ANSWER;
use crate::answer::{put_answer, put_refusal};
use compare::Compared;
use header::Plan;
use sheet::MOST_LAYERS;

// Fills the answer of a comparison: the row stands where other calls have the figure, and the column where their plan begins.
fn put_compared(answer: &mut [u64], compared: Compared) -> u64
    requires { length answer.old ≡ B.answer_length }
    ensures { (result ≡ 0) × (answer.new ≡ B.numbers (refusal 0 0 0) compared.number compared.row (B.column_first compared.column)) }
{
    let mut planes = [0u64; MOST_LAYERS];
    planes[0] = compared.column;
    put_answer(answer, compared.number, compared.row, Plan { planes })
}

// Compares what two cards show, each in its two slices: for each point 1 where they are apart, otherwise 0.
pub fn trace_card_compare(
    first: &[u8],
    second: &[u8],
    coefficients1: &mut [i32],
    values1: &mut [i64],
    coefficients2: &mut [i32],
    values2: &mut [i64],
    apart: &mut [u8],
    answer: &mut [u64],
) -> u64
    ensures { B.marked result answer.new (C.lent coefficients1.new values1.new) (C.lent coefficients2.new values2.new) apart.new ≡ B.compare_call (C.lent coefficients1.old values1.old) (C.lent coefficients2.old values2.old) apart.old answer.old first.now second.now }
{
    if answer.len() != ANSWER {
        return 3;
    }
    match compare::compare(
        first,
        second,
        coefficients1,
        values1,
        coefficients2,
        values2,
        apart,
    ) {
        Ok(compared) => put_compared(answer, compared),
        Err(refusal) => put_refusal(answer, refusal),
    }
}
