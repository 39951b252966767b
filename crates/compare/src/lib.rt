// Two cards of one sheet, a coarse one and a fine one: where what they show differs by more than both their figures.
#![tactic(auto)]

ghost use Rattle.std.specs.Prelude.{◌≡◌};
ghost use Rattle.sheet.specs.Sheet.{points};
ghost use Rattle.sheet.specs.Workings.Shapes.{points_in};
ghost use Rattle.header.specs.Refusals.{details_in};
ghost use Rattle.compare.specs.Comparing as C;
ghost use Rattle.compare.specs.Workings as W;

mod marking;

use header::Refusal;
use marking::{first_apart, mark};
use sheet::Shape;

// How many points are apart, and row and column of the first.
#[derive(Clone, Copy)]
pub struct Compared {
    pub number: u64,
    pub row: u64,
    pub column: u64,
}

#[tactic(auto, unfolding(crate::specs::Comparing::same_size))]
fn same_size(shape: Shape, other: Shape) -> bool
    ensures { result ≡ C.same_size shape other }
{
    (shape.depth, shape.rows, shape.cols) == (other.depth, other.rows, other.cols)
}

// The sizes of the two sheets, then that of the slice for the answer.
fn check_sizes(shape: Shape, other: Shape, apart: &[u8]) -> Result<(), Refusal>
    requires { points_in shape ≡ points shape }
    ensures { details_in result ≡ C.size_refusal shape other apart.now }
{
    if !same_size(shape, other) {
        return Err(Refusal::SizesDiffer);
    }
    if apart.len() != sheet::points(shape) {
        return Err(Refusal::BadLengths);
    }
    Ok(())
}

// What comparing is refused for behind the first card's own refusals: what showing the second is refused for, then the sizes. Nothing is filled.
fn examine_second(
    second: &[u8],
    shape: Shape,
    coefficients2: &[i32],
    values2: &[i64],
    apart: &[u8],
) -> Result<(), Refusal>
    requires { points_in shape ≡ points shape }
    ensures { details_in result ≡ W.behind_first shape (C.lent coefficients2.now values2.now) apart.now second.now }
{
    let own = card::examine(second, coefficients2, values2);
    let other = header::open(second)?.header.shape;
    own.and(check_sizes(shape, other, apart))
}

// Shows both cards and marks where they are apart. Only the first can be refused here, and a refused showing changes nothing.
fn compare_shown(
    first: &[u8],
    second: &[u8],
    cols: usize,
    coefficients1: &mut [i32],
    values1: &mut [i64],
    coefficients2: &mut [i32],
    values2: &mut [i64],
    apart: &mut [u8],
) -> Result<Compared, Refusal>
    requires { (cols ≡ (W.shape_of first.now).cols) × ((W.behind_first (W.shape_of first.now) (C.lent coefficients2.old values2.old) apart.old second.now).number ≡ 0) }
    ensures { C.as_comparing result (C.lent coefficients1.new values1.new) (C.lent coefficients2.new values2.new) apart.new ≡ C.comparing (C.lent coefficients1.old values1.old) (C.lent coefficients2.old values2.old) apart.old first.now second.now }
{
    let coarse = card::show(first, coefficients1, values1)?;
    let fine = card::show(second, coefficients2, values2)?;
    let number = mark(coarse.figure, values1, fine.figure, values2, apart);
    let place = first_apart(number, apart);
    Ok(Compared {
        number,
        row: (place / cols) as u64,
        column: (place % cols) as u64,
    })
}

// Compares what two cards show: each is shown into its two slices, and for each point 1 is put where they are apart, otherwise 0. A refusal changes
// nothing: all that can be refused behind the first card is known before that one is shown.
pub fn compare(
    first: &[u8],
    second: &[u8],
    coefficients1: &mut [i32],
    values1: &mut [i64],
    coefficients2: &mut [i32],
    values2: &mut [i64],
    apart: &mut [u8],
) -> Result<Compared, Refusal>
    ensures { C.as_comparing result (C.lent coefficients1.new values1.new) (C.lent coefficients2.new values2.new) apart.new ≡ C.comparing (C.lent coefficients1.old values1.old) (C.lent coefficients2.old values2.old) apart.old first.now second.now }
{
    let shape = header::open(first)?.header.shape;
    if let Err(behind) = examine_second(second, shape, coefficients2, values2, apart) {
        card::examine(first, coefficients1, values1)?;
        return Err(behind);
    }
    compare_shown(
        first,
        second,
        shape.cols,
        coefficients1,
        values1,
        coefficients2,
        values2,
        apart,
    )
}
