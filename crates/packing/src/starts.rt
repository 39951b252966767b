// Where the words of each layer lie.
ghost use Rattle.std.specs.Prelude.{◌≡◌, true, ◌<◌, length};
ghost use Rattle.sheet.specs.Sheet as S;
ghost use Rattle.packing.specs.Workings.Words as W;

use header::CELL_POINTS;
use sheet::{MOST_LAYERS, Shape};

// A block begins for each layer, and one more where the last ends.
pub(crate) const BLOCKS: usize = MOST_LAYERS + 1;

// Where the block of each layer begins, and behind the last layer, where its block ends.
pub(crate) fn block_starts(shape: Shape) -> [usize; BLOCKS]
    requires { S.accepted shape ≡ true }
    ensures { W.Starts shape result }
{
    let mut starts = [0; BLOCKS];
    let mut end: usize = 0;
    for k in 0..sheet::layer_count(shape) {
        end += CELL_POINTS * header::plane_cells(shape, k) as usize;
        starts[k + 1] = end;
    }
    starts
}

// The words of a layer: those at the front of its block, one for each point.
pub(crate) fn layer_words(words: &[u32], shape: Shape, starts: [usize; BLOCKS], k: usize) -> &[u32]
    requires { (S.accepted shape ≡ true) × W.Starts shape starts × (length words.now ≡ W.words_most) × (k < S.layers shape) }
    ensures { result.now ≡ W.layer_words shape words.now k }
{
    let start = starts[k];
    &words[start..start + sheet::layer_size(shape, k)]
}
