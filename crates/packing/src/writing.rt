// The card of coefficients.
ghost use Rattle.std.specs.Prelude.{◌≡◌, true, length, replicate};
ghost use Rattle.text.specs.Workings as Wk;
ghost use Rattle.layers.specs.Samples.{full};
ghost use Rattle.layers.specs.Workings.Calls.{settled};
ghost use Rattle.header.specs.Opening as O;
ghost use Rattle.packing.specs.Workings.Words as W;
ghost use Rattle.packing.specs.Workings.Calls as C;

use crate::MOST_WORDS;
use crate::measuring::measure_layers;
use crate::putting::put_body;
use crate::rows::{rows_end, turn};
use crate::starts::{BLOCKS, block_starts};
use crate::words::{OFFSET, counts, gather};
use header::{CELL_BYTES, Header, MOST_LOSSES, MOST_PLACES};
use sheet::{Curve, MOST_LAYERS, MOST_STEP, Shape};

// Room for the text of any card's header.
const TEXT_ROOM: usize = 4096;

// The text of a header with its losses and the planes of rows behind it, at the front of the output; answers their length. Their length is taken first: where
// they do not fit, nothing is put.
fn put_rows(
    rows: &[u32],
    header: Header,
    starts: [usize; BLOCKS],
    losses: &[u64],
    output: &mut [u8],
) -> usize
    requires { (O.well_formed header ≡ true) × W.Starts header.shape starts × (length rows.now ≡ W.words_most) × W.TextFits header losses.now }
    ensures { (result ≡ Wk.after output.old 0 (W.flat_card header losses.now rows.now)) × (output.new ≡ Wk.putting output.old 0 (W.flat_card header losses.now rows.now)) }
{
    let mut bytes = [0u8; TEXT_ROOM];
    let length = header::put_header(&mut bytes, header, losses);
    if output.len() < length + CELL_BYTES * header.cells as usize {
        return 0;
    }
    text::put(output, 0, &bytes[..length]);
    put_body(rows, header, starts, output, length)
}

// The card of coefficients, by way of the words: the counts of the words tell whether 23 digits hold all of them. Once they are measured, rows take their place.
fn put_card(
    words: &mut [u32],
    coefficients: &[i32],
    shape: Shape,
    curve: Curve,
    step: u64,
    output: &mut [u8],
) -> usize
    requires { (settled shape step ≡ true) × (full shape coefficients.now ≡ true) × (words.old ≡ replicate W.words_most W.offset) }
    ensures { (result ≡ Wk.after output.old 0 (C.card_for shape curve step coefficients.now)) × (output.new ≡ Wk.putting output.old 0 (C.card_for shape curve step coefficients.now)) }
{
    let starts = block_starts(shape);
    gather(coefficients, shape, starts, words);
    let planes = counts(words, shape, starts);
    if header::first_over([MOST_PLACES; MOST_LAYERS], planes).is_some() {
        return 0;
    }
    let cells = header::total_cells(shape, planes);
    let mut losses = [0u64; MOST_LOSSES];
    let told = measure_layers(words, shape, starts, planes, &mut losses);
    turn(words, rows_end(shape, starts, planes));
    put_rows(
        words,
        Header {
            shape,
            curve,
            step,
            planes,
            cells,
        },
        starts,
        &losses[..told],
        output,
    )
}

// Puts the card of coefficients at the front of the output and answers its length. Where they make no card or it does not fit, nothing is put, and
// the answer is 0.
pub fn write_card(
    coefficients: &[i32],
    shape: Shape,
    curve: Curve,
    step: u64,
    output: &mut [u8],
) -> usize
    ensures { (result ≡ Wk.after output.old 0 (C.card_for shape curve step coefficients.now)) × (output.new ≡ Wk.putting output.old 0 (C.card_for shape curve step coefficients.now)) }
{
    if !sheet::accepted(shape) || MOST_STEP < step {
        return 0;
    }
    if coefficients.len() != sheet::points(shape) {
        return 0;
    }
    let mut words = [OFFSET; MOST_WORDS];
    put_card(&mut words, coefficients, shape, curve, step, output)
}
