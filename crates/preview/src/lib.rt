// Looking before refining: the values that one plane more would give, in a slice of their own.
#![tactic(auto)]

ghost use Rattle.std.specs.Prelude.{◌≡◌, ◌≤◌, length, take};
ghost use Rattle.header.specs.Refusals.{details_of};
ghost use Rattle.card.specs.Reading as R;
ghost use Rattle.card.specs.Refining as F;
ghost use Rattle.preview.specs.Previewing as P;
ghost use Rattle.preview.specs.Workings as W;

use card::Reached;
use header::{Plan, Refusal};
use sheet::MOST_POINTS;

// Refines a copy of the coefficients, at the front of the room, with the values in a slice of their own.
fn refine_copy(
    bytes: &[u8],
    plan: Plan,
    layer: u64,
    coefficients: &[i32],
    room: &mut [i32],
    next: &mut [i64],
) -> Result<Reached, Refusal>
    requires { length coefficients.now ≤ length room.old }
    ensures { R.as_reading result (take (length coefficients.now) room.new) next.new ≡ F.refining coefficients.now next.old bytes.now plan layer }
{
    let copy = &mut room[..coefficients.len()];
    copy.copy_from_slice(coefficients);
    card::refine(bytes, plan, layer, copy, next)
}

// What slices of wrong lengths are refused for: what opening is refused for comes first.
fn length_refusal(bytes: &[u8]) -> Refusal
    ensures { details_of result ≡ W.length_refusal bytes.now }
{
    match header::open(bytes) {
        Ok(_) => Refusal::BadLengths,
        Err(refusal) => refusal,
    }
}

// Shows in `next` what refining would make of the values: a copy is refined, and coefficients and values are only read. Where these two are
// not as long as each other, or longer than any sheet, one of them is too long or too short; all else is for refining to refuse.
pub fn preview(
    bytes: &[u8],
    plan: Plan,
    layer: u64,
    coefficients: &[i32],
    values: &[i64],
    next: &mut [i64],
) -> Result<Reached, Refusal>
    ensures { P.as_previewing result coefficients.now values.now next.new ≡ P.previewing coefficients.now values.now next.old bytes.now plan layer }
{
    let n = coefficients.len();
    if MOST_POINTS < n || values.len() != n {
        return Err(length_refusal(bytes));
    }
    let mut room = [0i32; MOST_POINTS];
    refine_copy(bytes, plan, layer, coefficients, &mut room, next)
}
