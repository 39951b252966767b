// The calls as C sees them (include/trace_card.h): each export is a call of `trace_card`, and promises what that promises.
#![tactic(auto)]

ghost use Rattle.std.specs.Prelude.{◌≡◌};
ghost use Rattle.compare.specs.Comparing as C;
ghost use Rattle.trace_card.specs.Boundary as B;

// Writes a sheet of rows by cols samples: coefficients, the values as they will be read, and the card at the front of the output.
#[unsafe(no_mangle)]
pub extern "C" fn trace_card_write(
    samples: &[i32],
    rows: u64,
    cols: u64,
    levels: u64,
    curve: u64,
    step: u64,
    coefficients: &mut [i32],
    values: &mut [i64],
    output: &mut [u8],
    answer: &mut [u64],
) -> u64
    ensures { B.wrote result answer.new coefficients.new values.new output.new ≡ B.write_call samples.now rows cols levels curve step coefficients.old values.old output.old answer.old }
{
    trace_card::trace_card_write(
        samples,
        rows,
        cols,
        levels,
        curve,
        step,
        coefficients,
        values,
        output,
        answer,
    )
}

// Reads a card, truncated or whole, with a plan.
#[unsafe(no_mangle)]
pub extern "C" fn trace_card_read(
    card: &[u8],
    plan: &[u64],
    coefficients: &mut [i32],
    values: &mut [i64],
    answer: &mut [u64],
) -> u64
    ensures { B.left result answer.new coefficients.new values.new ≡ B.read_call coefficients.old values.old answer.old card.now plan.now }
{
    trace_card::trace_card_read(card, plan, coefficients, values, answer)
}

// Reads a card, truncated or whole, with all the planes that are there.
#[unsafe(no_mangle)]
pub extern "C" fn trace_card_show(
    card: &[u8],
    coefficients: &mut [i32],
    values: &mut [i64],
    answer: &mut [u64],
) -> u64
    ensures { B.left result answer.new coefficients.new values.new ≡ B.show_call coefficients.old values.old answer.old card.now }
{
    trace_card::trace_card_show(card, coefficients, values, answer)
}

// Adds the next plane of a layer to a reading with a plan.
#[unsafe(no_mangle)]
pub extern "C" fn trace_card_refine(
    card: &[u8],
    plan: &[u64],
    layer: u64,
    coefficients: &mut [i32],
    values: &mut [i64],
    answer: &mut [u64],
) -> u64
    ensures { B.left result answer.new coefficients.new values.new ≡ B.refine_call coefficients.old values.old answer.old card.now plan.now layer }
{
    trace_card::trace_card_refine(card, plan, layer, coefficients, values, answer)
}

// Shows in `next` what adding the next plane of a layer would make of the values.
#[unsafe(no_mangle)]
pub extern "C" fn trace_card_preview(
    card: &[u8],
    plan: &[u64],
    layer: u64,
    coefficients: &[i32],
    values: &[i64],
    next: &mut [i64],
    answer: &mut [u64],
) -> u64
    ensures { B.saw result answer.new coefficients.now values.now next.new ≡ B.preview_call coefficients.now values.now next.old answer.old card.now plan.now layer }
{
    trace_card::trace_card_preview(card, plan, layer, coefficients, values, next, answer)
}

// Shows a card and prints what it shows on the page.
#[unsafe(no_mangle)]
pub extern "C" fn trace_card_roll(
    card: &[u8],
    coefficients: &mut [i32],
    values: &mut [i64],
    page: &mut [u8],
    answer: &mut [u64],
) -> u64
    ensures { B.printed_on result answer.new coefficients.new values.new page.new ≡ B.roll_call coefficients.old values.old page.old answer.old card.now }
{
    trace_card::trace_card_roll(card, coefficients, values, page, answer)
}

// The figure of a plan of a card.
#[unsafe(no_mangle)]
pub extern "C" fn trace_card_figure(card: &[u8], plan: &[u64], answer: &mut [u64]) -> u64
    ensures { B.asked result answer.new ≡ B.figure_call card.now plan.now answer.old }
{
    trace_card::trace_card_figure(card, plan, answer)
}

// The plan with the fewest cells whose figure is at most the limit.
#[unsafe(no_mangle)]
pub extern "C" fn trace_card_plan_by_limit(card: &[u8], limit: u64, answer: &mut [u64]) -> u64
    ensures { B.asked result answer.new ≡ B.limit_call card.now limit answer.old }
{
    trace_card::trace_card_plan_by_limit(card, limit, answer)
}

// The plan with the smallest figure in at most so many cells.
#[unsafe(no_mangle)]
pub extern "C" fn trace_card_plan_by_cells(card: &[u8], cells: u64, answer: &mut [u64]) -> u64
    ensures { B.asked result answer.new ≡ B.cells_call card.now cells answer.old }
{
    trace_card::trace_card_plan_by_cells(card, cells, answer)
}

// Compares what two cards show, each in its two slices: for each point 1 where they are apart, otherwise 0.
#[unsafe(no_mangle)]
pub extern "C" fn trace_card_compare(
    first: &[u8],
    second: &[u8],
    coefficients1: &mut [i32],
    values1: &mut [i64],
    coefficients2: &mut [i32],
    values2: &mut [i64],
    apart: &mut [u8],
    answer: &mut [u64],
) -> u64
    ensures { B.marked result answer.new (C.lent coefficients1.new values1.new) (C.lent coefficients2.new values2.new) apart.new ≡ B.compare_call (C.lent coefficients1.old values1.old) (C.lent coefficients2.old values2.old) apart.old answer.old first.now second.now }
{
    trace_card::trace_card_compare(
        first,
        second,
        coefficients1,
        values1,
        coefficients2,
        values2,
        apart,
        answer,
    )
}
