// The numbers that come and go by slices: a call's answer, and a plan.
ghost use Rattle.std.specs.Prelude.{◌≡◌, ◌+◌, ◌≤◌, length};
ghost use Rattle.std.proofs.lemmas.List.Edits.{sets};
ghost use Rattle.sheet.specs.Limits.{layers_most};
ghost use Rattle.header.specs.Refusals.{refusal, details_of};
ghost use Rattle.trace_card.specs.Boundary as B;

use crate::ANSWER;
use header::{Details, Plan, Refusal};
use sheet::MOST_LAYERS;

// Where the plan stands in an answer, and where the numbers that stay 0 begin.
const PLAN_AT: usize = 5;

const REST_AT: usize = PLAN_AT + MOST_LAYERS;

const REST: usize = ANSWER - REST_AT;

const ACCEPTED: Details = Details {
    number: 0,
    first: 0,
    second: 0,
};

// Puts numbers into a slice, from a place on.
fn put(numbers: &[u64], out: &mut [u64], at: usize)
    requires { at + length numbers.now ≤ length out.old }
    ensures { out.new ≡ sets out.old at numbers.now }
{
    out[at..at + numbers.len()].copy_from_slice(numbers);
}

// The plan whose numbers are given.
pub(crate) fn plan_from(numbers: &[u64]) -> Plan
    requires { length numbers.now ≡ layers_most }
    ensures { result ≡ B.plan_of numbers.now }
{
    let mut planes = [0u64; MOST_LAYERS];
    planes.copy_from_slice(numbers);
    Plan { planes }
}

// Fills the answer: the refusal's number and details, then what the call tells.
fn fill(answer: &mut [u64], details: Details, size: u64, figure: u64, plan: Plan)
    requires { length answer.old ≡ B.answer_length }
    ensures { answer.new ≡ B.numbers details size figure plan.planes }
{
    let front = [details.number, details.first, details.second, size, figure];
    let rest = [0u64; REST];
    put(&front, answer, 0);
    put(&plan.planes, answer, PLAN_AT);
    put(&rest, answer, REST_AT);
}

// Fills the answer of a call that is not refused, and hands back what it returns.
pub(crate) fn put_answer(answer: &mut [u64], size: u64, figure: u64, plan: Plan) -> u64
    requires { length answer.old ≡ B.answer_length }
    ensures { (result ≡ 0) × (answer.new ≡ B.numbers (refusal 0 0 0) size figure plan.planes) }
{
    fill(answer, ACCEPTED, size, figure, plan);
    ACCEPTED.number
}

// And of one that is refused: what it does not tell is 0.
pub(crate) fn put_refusal(answer: &mut [u64], refusal: Refusal) -> u64
    requires { length answer.old ≡ B.answer_length }
    ensures { (result ≡ (details_of refusal).number) × (answer.new ≡ B.numbers (details_of refusal) 0 0 B.nothing) }
{
    let details = header::details_of(refusal);
    let none = Plan {
        planes: [0; MOST_LAYERS],
    };
    fill(answer, details, 0, 0, none);
    details.number
}
