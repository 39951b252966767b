// Words to rows: of each eight words, row r has the bits at the places r, r + 8 and r + 16, each a byte of its plane.
ghost use Rattle.std.specs.Prelude.{◌≡◌, true, ◌+◌, ◌%◌, ◌<◌, ◌≤◌, length};
ghost use Rattle.std.proofs.lemmas.List.Edits.{sets};
ghost use Rattle.sheet.specs.Lists.{tabulate};
ghost use Rattle.sheet.specs.Sheet as S;
ghost use Rattle.packing.specs.Workings.Words as W;

use crate::starts::BLOCKS;
use sheet::{MOST_LAYERS, Shape};

// One row of eight words, the first word lowest in each byte.
fn row_of(words: &[u32], first: usize, r: u64) -> u32
    requires { (r < 8) × (first + 8 ≤ length words.now) }
    ensures { result ≡ W.row_of words.now first r }
{
    let mut row: u32 = 0;
    // By place: over the slice backwards an edit that takes words twice changes the iterator, and there a right one is refused too.
    for j in 0..8usize {
        let bits = words[first + 7 - j] >> r;
        row = 2 * row + bits % 2 + 256 * ((bits >> 8) % 2) + 65536 * ((bits >> 16) % 2);
    }
    row
}

// All eight rows.
fn rows_of(words: &[u32], first: usize) -> [u32; 8]
    requires { first + 8 ≤ length words.now }
    ensures { result ≡ tabulate 8 (W.row_of words.now first) }
{
    std::array::from_fn(|r| row_of(words, first, r as u64))
}

// Puts them where the words stood: one by one, since with `copy_from_slice` the writing of a card takes 1.4 to 1.9 times as long.
fn turn_eight(words: &mut [u32], first: usize)
    requires { first + 8 ≤ length words.old }
    ensures { words.new ≡ sets words.old first (tabulate 8 (W.row_of words.old first)) }
{
    let rows = rows_of(words, first);
    for (r, row) in rows.iter().enumerate() {
        words[first + r] = *row;
    }
}

// How many rows the planes are put from: those of all layers up to the last that has planes.
pub(crate) fn rows_end(shape: Shape, starts: [usize; BLOCKS], planes: [u64; MOST_LAYERS]) -> usize
    requires { (S.accepted shape ≡ true) × W.Starts shape starts }
    ensures { W.RowsEnd shape planes result }
{
    let mut end: usize = 0;
    for k in 0..sheet::layer_count(shape) {
        if 0 < planes[k] {
            end = starts[k + 1];
        }
    }
    end
}

// The first n words, eight by eight. By number, since nothing would be known of the words behind a `chunks_exact_mut`.
pub(crate) fn turn(words: &mut [u32], n: usize)
    requires { (n % 8 ≡ 0) × (n ≤ length words.old) }
    ensures { words.new ≡ W.rows_of words.old n }
{
    let eights = n / 8;
    for g in 0..eights {
        turn_eight(words, 8 * g);
    }
}
