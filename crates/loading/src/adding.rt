// Planes added to words by halves of their bytes: a table has the four numbers that each of the 16 half bytes adds, at the place in hand.
ghost use Rattle.std.specs.Prelude.{◌≡◌, ℕ, suc, ◌+◌, ◌*◌, ◌^◌, ◌<◌, ◌≤◌, ◌-◌, length, get_or};
ghost use Rattle.header.specs.Header as Hd;
ghost use Rattle.packing.specs.Workings.Words.{words_most};
ghost use Rattle.loading.specs.Workings.Words as W;

use crate::walking::Taking;
use header::MOST_PLACES;

// The numbers of the table, four of each half byte.
const HALF_BITS: usize = 64;

// The table for place p.
fn halves(p: u64) -> [u32; HALF_BITS]
    requires { p < Hd.places_most }
    ensures { result ≡ W.halves p }
{
    let mut table = [0u32; HALF_BITS];
    for (i, number) in table.iter_mut().enumerate() {
        let bit = ((i / 4) >> (i % 4)) % 2;
        *number = (bit as u32) << p;
    }
    table
}

// Makes a table that for the place below: places go down in card order, and this costs less than the table anew.
fn halve(table: &mut [u32; HALF_BITS])
    ensures { table.new ≡ W.halved table.old }
{
    for number in table.iter_mut() {
        *number /= 2;
    }
}

// The four numbers of one half byte, added to four words.
fn add_half(table: &[u32; HALF_BITS], half: usize, words: &mut [u32], first: usize)
    requires { (half < 16) × (first + 4 ≤ length words.old) × ((i : ℕ) → get_or table.now i 0 < 2 ^ 31) × ((j : ℕ) → first ≤ j → get_or words.old j 0 < 2 ^ 31) }
    ensures { words.new ≡ W.words_with words.old first 4 0 (λ i. get_or table.now (4 * half + i) 0) }
{
    for (j, number) in table[4 * half..4 * half + 4].iter().enumerate() {
        words[first + j] += *number;
    }
}

// The numbers of n bytes of a plane, added to the words that begin at `start`.
fn add_bytes(
    bytes: &[u8],
    from: usize,
    n: usize,
    table: &[u32; HALF_BITS],
    words: &mut [u32],
    start: usize,
)
    requires { (n ≤ Hd.cell_bytes * words_most) × (start + 8 * n ≤ length words.old) × (from + n ≤ length bytes.now) × ((i : ℕ) → get_or table.now i 0 < 2 ^ 31) × ((j : ℕ) → get_or words.old j 0 < 2 ^ 31) }
    ensures { words.new ≡ W.words_with words.old start (8 * n) 0 (W.added table.now bytes.now from) }
{
    for (b, byte) in bytes[from..from + n].iter().enumerate() {
        let byte = *byte as usize;
        let first = start + 8 * b;
        add_half(table, byte % 16, words, first);
        add_half(table, byte / 16, words, first + 4);
    }
}

// Planes are added to words, by the table for the place in hand.
#[derive(Drop)]
pub(crate) struct Adding<'a> {
    table: [u32; HALF_BITS],
    pub(crate) words: &'a mut [u32],
}

impl<'a> Adding<'a> {
    // To words that are 0, beginning with the first place.
    pub(crate) fn new(words: &'a mut [u32]) -> Adding<'a>
        ensures { (result.words.now ≡ words.old) × (result.table ≡ W.halves (Hd.places_most - 1)) }
    {
        Adding {
            table: halves(MOST_PLACES - 1),
            words,
        }
    }
}

impl Taking for Adding<'_> {
    ghost Kept = { λ ws n it. (it.words.now ≡ ws) × ((p : ℕ) → n ≡ suc p → it.table ≡ W.halves p) };

    fn take(&mut self, bytes: &[u8], from: usize, n: usize, start: usize) {
        add_bytes(
            bytes,
            from,
            (n + 7) / 8,
            &self.table,
            &mut self.words,
            start,
        );
    }

    fn descend(&mut self) {
        halve(&mut self.table);
    }
}
