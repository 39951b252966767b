// Writing.
ghost use Rattle.std.specs.Prelude.{◌≡◌, cond};
ghost use Rattle.header.specs.Refusals.{refusal, details_of};
ghost use Rattle.card.specs.Writing as W;
ghost use Rattle.trace_card.specs.Boundary as B;

use crate::ANSWER;
use crate::answer::{put_answer, put_refusal};
use header::{Plan, Refusal};
use sheet::{Curve, MOST_LAYERS};

// The refusal of a curve that is none: a wrong size still comes first.
fn no_curve(rows: usize, cols: usize) -> Refusal
    ensures { details_of result ≡ cond (W.bad_sizes rows cols) (refusal 1 0 0) (refusal 2 0 0) }
{
    if sheet::sized(1, rows, cols) {
        return Refusal::BadSettings;
    }
    Refusal::BadSize
}

// Writes a sheet by a curve's number: 0 is linear, 1 is cubic.
fn write_by(
    samples: &[i32],
    rows: usize,
    cols: usize,
    levels: usize,
    curve: u64,
    step: u64,
    coefficients: &mut [i32],
    values: &mut [i64],
    output: &mut [u8],
) -> Result<usize, Refusal>
    ensures { W.as_writing result coefficients.new values.new output.new ≡ B.writing_by samples.now rows cols levels curve step coefficients.old values.old output.old }
{
    if curve == 0 {
        return card::write(
            samples,
            rows,
            cols,
            levels,
            Curve::Linear,
            step,
            coefficients,
            values,
            output,
        );
    }
    if curve == 1 {
        return card::write(
            samples,
            rows,
            cols,
            levels,
            Curve::Cubic,
            step,
            coefficients,
            values,
            output,
        );
    }
    Err(no_curve(rows, cols))
}

// Writes a sheet of rows by cols samples: coefficients, the values as they will be read, and the card at the front of the output.
pub fn trace_card_write(
    samples: &[i32],
    rows: u64,
    cols: u64,
    levels: u64,
    curve: u64,
    step: u64,
    coefficients: &mut [i32],
    values: &mut [i64],
    output: &mut [u8],
    answer: &mut [u64],
) -> u64
    ensures { B.wrote result answer.new coefficients.new values.new output.new ≡ B.write_call samples.now rows cols levels curve step coefficients.old values.old output.old answer.old }
{
    if answer.len() != ANSWER {
        return 3;
    }
    let written = write_by(
        samples,
        rows as usize,
        cols as usize,
        levels as usize,
        curve,
        step,
        coefficients,
        values,
        output,
    );
    match written {
        Ok(length) => {
            let none = Plan {
                planes: [0; MOST_LAYERS],
            };
            put_answer(answer, length as u64, 0, none)
        }
        Err(refusal) => put_refusal(answer, refusal),
    }
}
