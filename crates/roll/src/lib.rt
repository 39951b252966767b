// The roll: what a card shows, in lines for a printer of 24 characters.
#![tactic(auto)]

ghost use Rattle.std.specs.Prelude.{◌≡◌, ◌+◌, ◌*◌, Err};
ghost use Rattle.sheet.specs.Workings.Shapes.{points_in};
ghost use Rattle.card.specs.Reading as R;
ghost use Rattle.roll.specs.Page as P;
ghost use Rattle.roll.specs.Rolling as L;
ghost use Rattle.roll.specs.Workings as W;

mod pairs;
mod printing;

use card::Reached;
use header::Refusal;
use printing::print;
use sheet::Shape;

// The places of each field, and of a line.
pub(crate) const ROW_PLACES: usize = 4;

pub(crate) const COLUMN_PLACES: usize = 4;

pub(crate) const VALUE_PLACES: usize = 16;

pub(crate) const LINE_PLACES: usize = ROW_PLACES + COLUMN_PLACES + VALUE_PLACES;

// The bytes of a line: byte 10 stands behind it.
pub const LINE_BYTES: usize = LINE_PLACES + 1;

// The bytes that the lines of a sheet take; 25, the figure's line alone, where the shape is none.
pub fn page_length(shape: Shape) -> usize
    ensures { result ≡ (P.line_places + 1) * (points_in shape + 1) }
{
    LINE_BYTES * (sheet::points(shape) + 1)
}

// Why a roll is refused whose page is too short: what showing is refused for comes first.
fn short(bytes: &[u8], coefficients: &[i32], values: &[i64]) -> Refusal
    ensures { R.as_reading (Err result) coefficients.now values.now ≡ W.on_short coefficients.now values.now bytes.now }
{
    match card::examine(bytes, coefficients, values) {
        Ok(()) => Refusal::ShortPage,
        Err(refusal) => refusal,
    }
}

// Shows a card and prints what it shows on the page. A refusal changes nothing: where the page is too short, the card is only examined.
pub fn roll(
    bytes: &[u8],
    coefficients: &mut [i32],
    values: &mut [i64],
    page: &mut [u8],
) -> Result<Reached, Refusal>
    ensures { L.as_rolling result coefficients.new values.new page.new ≡ L.rolling coefficients.old values.old page.old bytes.now }
{
    let shape = header::open(bytes)?.header.shape;
    if page.len() < page_length(shape) {
        return Err(short(bytes, coefficients, values));
    }
    let reached = card::show(bytes, coefficients, values)?;
    print(shape, reached.figure, values, page);
    Ok(reached)
}
