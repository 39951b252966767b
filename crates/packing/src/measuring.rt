// Losses as measured: how far the d low digits of a layer's numbers are from their middle at most, for every d.
ghost use Rattle.std.specs.Prelude.{◌≡◌, true, ℕ, suc, max, ◌+◌, ◌-◌, ◌<◌, ◌≤◌, ◌^◌, ltb, length, get_or};
ghost use Rattle.std.proofs.lemmas.List.Edits.{sets};
ghost use Rattle.digits.specs.Digits as D;
ghost use Rattle.sheet.specs.Limits.{layers_most};
ghost use Rattle.sheet.specs.Lists.{tabulate, total};
ghost use Rattle.sheet.specs.Sheet as S;
ghost use Rattle.header.specs.Header as Hd;
ghost use Rattle.header.specs.Losses as Ls;
ghost use Rattle.packing.specs.Workings.Words as W;

use crate::starts::{BLOCKS, layer_words};
use sheet::{MOST_LAYERS, Shape};

// How far the d low digits of words are from their middle at most. A word's d low bits say how far the low digits stand above the least that they can be, and the middle stands 1 less than
// the loss above it.
fn measure_run(words: &[u32], d: u64) -> u32
    requires small { W.Small words.now }
    requires d_nonzero { (0 < d) × (d ≤ Hd.places_most) }
    ensures { result ≡ W.measured words.now d }
{
    let loss = digits::loss(d) as u32;
    let mask = 2 * loss - 1;
    let middle = loss - 1;
    let mut most: u32 = 0;
    for word in words {
        most = most.max((*word & mask).abs_diff(middle));
    }
    most
}

// Is any of the words further off than `most`? Low bits that are no further off are the numbers up to twice `most` once they are shifted round, so one comparison tells. Words
// are counted, since with no way out of the loop several are looked at at a time.
fn any_further(words: &[u32], d: u64, most: u32) -> bool
    requires small { W.Small words.now × (length words.now < 2 ^ 31) }
    requires d_nonzero { (0 < d) × (d ≤ Hd.places_most) × (most < D.loss d) }
    ensures { result ≡ ltb most (W.measured words.now d) }
{
    let loss = digits::loss(d) as u32;
    let mask = 2 * loss - 1;
    let shift = most + loss + 1;
    let near = 2 * most;
    let mut further: u32 = 0;
    for word in words {
        further += u32::from(near < (*word + shift) & mask);
    }
    0 < further
}

// The larger of `most` and what the words measure. Most runs of words have none further off, and need not be measured.
fn measure_more(words: &[u32], d: u64, most: u32) -> u32
    requires small { W.Small words.now × (length words.now < 2 ^ 31) }
    requires d_nonzero { (0 < d) × (d ≤ Hd.places_most) × (most < D.loss d) }
    ensures { result ≡ max most (W.measured words.now d) }
{
    if any_further(words, d, most) {
        measure_run(words, d)
    } else {
        most
    }
}

// The words that are measured at a time.
const RUN: usize = 256;

// What the words measure, run by run, and no further once it is the closed loss: none is larger. Few digits reach it soon.
fn measure(words: &[u32], d: u64) -> u32
    requires small { W.Small words.now }
    requires d_nonzero { (0 < d) × (d ≤ Hd.places_most) }
    ensures { result ≡ W.measured words.now d }
{
    let loss = digits::loss(d) as u32;
    let (first, rest) = words.split_at(words.len().min(RUN));
    let mut most = measure_run(first, d);
    for run in rest.chunks(RUN) {
        if most == loss {
            return most;
        }
        most = measure_more(run, d, most);
    }
    most
}

// What the words measure for d = 1, 2, .., as many as the table has.
fn measure_layer(words: &[u32], table: &mut [u64])
    requires { W.Small words.now × (length table.old ≤ Hd.places_most) }
    ensures { table.new ≡ tabulate (length table.old) (λ j. W.measured words.now (suc j)) }
{
    for (j, loss) in table.iter_mut().enumerate() {
        *loss = u64::from(measure(words, j as u64 + 1));
    }
}

// The line of losses of all layers, at the front of the table; answers how many numbers there are.
pub(crate) fn measure_layers(
    words: &[u32],
    shape: Shape,
    starts: [usize; BLOCKS],
    planes: [u64; MOST_LAYERS],
    table: &mut [u64],
) -> usize
    requires shape_value { (S.accepted shape ≡ true) × W.Starts shape starts × (length words.now ≡ W.words_most) × (length table.old ≡ Ls.losses_most) }
    requires by_index { ((k : ℕ) → k < layers_most → get_or planes k 0 ≤ Hd.places_most) × ((k : ℕ) → k < S.layers shape → W.Small (W.layer_words shape words.now k)) }
    ensures { (result ≡ total (λ k. get_or planes k 0) (S.layers shape)) × (table.new ≡ sets table.old 0 (Ls.laid (W.measured_at shape words.now) (λ k. get_or planes k 0) (S.layers shape))) }
{
    let mut to: usize = 0;
    for k in 0..sheet::layer_count(shape) {
        let end = to + planes[k] as usize;
        measure_layer(layer_words(words, shape, starts, k), &mut table[to..end]);
        to = end;
    }
    to
}
