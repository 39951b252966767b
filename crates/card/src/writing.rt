// Writing a sheet as a card.
ghost use Rattle.std.specs.Prelude.{◌≡◌};
ghost use Rattle.sheet.specs.Sheet as S;
ghost use Rattle.card.specs.Writing as Wr;

use header::Refusal;
use layers::QuantizeError;
use sheet::{Curve, MOST_LEVELS, MOST_STEP};

// The room that writing asks for.
const LEAST_OUTPUT: usize = 36864;

// Writes a sheet: coefficients, rebuilt values, and the card at the front of the output. A refusal changes nothing.
pub fn write(
    samples: &[i32],
    rows: usize,
    cols: usize,
    levels: usize,
    curve: Curve,
    step: u64,
    coefficients: &mut [i32],
    values: &mut [i64],
    output: &mut [u8],
) -> Result<usize, Refusal>
    ensures { Wr.as_writing result coefficients.new values.new output.new ≡ Wr.writing samples.now (S.sheet_of rows cols levels) curve step coefficients.old values.old output.old }
{
    if !sheet::sized(1, rows, cols) {
        return Err(Refusal::BadSize);
    }
    if MOST_LEVELS < levels || MOST_STEP < step {
        return Err(Refusal::BadSettings);
    }
    let shape = sheet::sheet_of(rows, cols, levels);
    let points = sheet::points(shape);
    if samples.len() != points || coefficients.len() != points {
        return Err(Refusal::BadLengths);
    }
    if values.len() != points || output.len() < LEAST_OUTPUT {
        return Err(Refusal::BadLengths);
    }
    match layers::quantize(samples, shape, curve, step, coefficients, values) {
        Err(QuantizeError::BadLengths) => Err(Refusal::BadLengths),
        Err(QuantizeError::OutOfRange(place)) => Err(Refusal::BadSample {
            row: place.row as u64,
            col: place.col as u64,
        }),
        Ok(()) => Ok(packing::write_card(coefficients, shape, curve, step, output)),
    }
}
