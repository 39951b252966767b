// Rolling.
ghost use Rattle.std.specs.Prelude.{◌≡◌};
ghost use Rattle.trace_card.specs.Boundary as B;

use crate::ANSWER;
use crate::reading::put_reached;

// Shows a card and prints what it shows on the page.
pub fn trace_card_roll(
    card: &[u8],
    coefficients: &mut [i32],
    values: &mut [i64],
    page: &mut [u8],
    answer: &mut [u64],
) -> u64
    ensures { B.printed_on result answer.new coefficients.new values.new page.new ≡ B.roll_call coefficients.old values.old page.old answer.old card.now }
{
    if answer.len() != ANSWER {
        return 3;
    }
    let reached = roll::roll(card, coefficients, values, page);
    put_reached(answer, reached)
}
