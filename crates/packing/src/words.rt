// Coefficients to words: gathered in layer order, and counted for the header.
ghost use Rattle.std.specs.Prelude.{◌≡◌, true, ℕ, ◌+◌, ◌*◌, ◌<◌, length, replicate};
ghost use Rattle.sheet.specs.Limits.{layers_most};
ghost use Rattle.sheet.specs.Lists.{at, tabulate};
ghost use Rattle.sheet.specs.Sheet as S;
ghost use Rattle.packing.specs.Workings.Words as W;

use crate::starts::{BLOCKS, layer_words};
use header::MOST_PLACES;
use sheet::{MOST_LAYERS, Shape};

// The weights of the odd places of 23 digits: what a word adds to its coefficient.
pub(crate) const OFFSET: u32 = 2796202;

// One more than the largest word of 23 digits.
const WORDS_END: u32 = 1 << MOST_PLACES;

// Added to any coefficient, the sum is no less than 0, and its last 32 bits are the word.
const SIGNED_OFFSET: i64 = (1 << 32) + OFFSET as i64;

// The word of a coefficient; past all words of 23 digits where these do not hold it.
fn word_of(q: i32) -> u32
    ensures { result ≡ W.word_of q }
{
    ((q as i64 + SIGNED_OFFSET) as u64 % (1 << 32)) as u32
}

// The words of the coefficients on a line, as many as there is room for.
fn gather_line(coefficients: &[i32], first: usize, stride: usize, words: &mut [u32])
    requires { (j : ℕ) → j < length words.old → first + j * stride < length coefficients.now }
    ensures { words.new ≡ tabulate (length words.old) (λ j. W.word_of (at coefficients.now (first + j * stride))) }
{
    for (j, word) in words.iter_mut().enumerate() {
        *word = word_of(coefficients[first + j * stride]);
    }
}

// The words of one layer in row order.
fn gather_layer(coefficients: &[i32], shape: Shape, layer: usize, words: &mut [u32])
    requires shape_value { (S.accepted shape ≡ true) × (layer < S.layers shape) }
    requires coefficients_len { (length coefficients.now ≡ S.points shape) × (length words.old ≡ S.layer_size shape layer) }
    ensures { words.new ≡ tabulate (S.layer_size shape layer) (λ i. W.word_of (at coefficients.now (S.point_of shape layer i))) }
{
    let l = sheet::layer_lines(shape, layer);
    for t in 0..l.sheets * l.lines {
        let start = t * l.points;
        gather_line(
            coefficients,
            sheet::line_start(l, t),
            l.stride,
            &mut words[start..start + l.points],
        );
    }
}

// The words of all layers, each in whole cells; spare words stay as they are.
pub(crate) fn gather(coefficients: &[i32], shape: Shape, starts: [usize; BLOCKS], words: &mut [u32])
    requires shape_value { (S.accepted shape ≡ true) × W.Starts shape starts × (length coefficients.now ≡ S.points shape) }
    requires words_value { words.old ≡ replicate W.words_most W.offset }
    ensures { W.Gathered shape coefficients.now words.new }
{
    for k in 0..sheet::layer_count(shape) {
        let start = starts[k];
        let end = start + sheet::layer_size(shape, k);
        gather_layer(coefficients, shape, k, &mut words[start..end]);
    }
}

// The fewest digits that hold the numbers of the words: those of the smallest and of the largest. 24 where 23 do not.
fn count_of(words: &[u32]) -> u64
    ensures { result ≡ W.count_of words.now }
{
    let mut low = OFFSET;
    let mut high = OFFSET;
    for word in words {
        low = low.min(*word);
        high = high.max(*word);
    }
    if WORDS_END <= high {
        return MOST_PLACES + 1;
    }
    let below = digits::digits_needed(low as i32 - OFFSET as i32);
    let above = digits::digits_needed(high as i32 - OFFSET as i32);
    below.max(above)
}

// The counts of the header: the fewest digits of each layer, 0 past the last; 24 where 23 do not hold a layer.
pub(crate) fn counts(words: &[u32], shape: Shape, starts: [usize; BLOCKS]) -> [u64; MOST_LAYERS]
    requires { (S.accepted shape ≡ true) × W.Starts shape starts × (length words.now ≡ W.words_most) }
    ensures { result ≡ tabulate layers_most (W.count_at shape words.now) }
{
    let mut planes = [0u64; MOST_LAYERS];
    for k in 0..sheet::layer_count(shape) {
        planes[k] = count_of(layer_words(words, shape, starts, k));
    }
    planes
}
