// Words to coefficients: each at its point's place.
ghost use Rattle.std.specs.Prelude.{◌≡◌, true, ℕ, ◌+◌, ◌*◌, ◌^◌, ◌<◌, ◌≤◌, length, get_or};
ghost use Rattle.digits.specs.Digits.{value};
ghost use Rattle.digits.specs.Groups.{bits_of, group_values};
ghost use Rattle.sheet.specs.Sheet as S;
ghost use Rattle.header.specs.Header as Hd;
ghost use Rattle.packing.specs.Workings.Words.{words_most};
ghost use Rattle.loading.specs.Workings.Words as W;

use digits::GROUPS;
use header::CELL_POINTS;
use sheet::Shape;

// The numbers of n words, by the values of their groups of eight digits, put on a line of the sheet.
fn spread_line(
    table: &[i32; GROUPS],
    words: &[u32],
    start: usize,
    n: usize,
    coefficients: &mut [i32],
    first: usize,
    stride: usize,
)
    requires table_value { (table.now ≡ group_values) × (start + n ≤ length words.now) × ((i : ℕ) → get_or words.now i 0 < 2 ^ Hd.places_most) }
    requires stride_nonzero { (1 < n → 0 < stride) × ((j : ℕ) → j < n → first + j * stride < length coefficients.old) }
    ensures { W.Scattered (λ j. first + j * stride) n (λ j. value (bits_of 32 (get_or words.now (start + j) 0))) coefficients.old coefficients.new }
{
    for (j, word) in words[start..start + n].iter().enumerate() {
        coefficients[first + j * stride] = digits::by_groups(table, *word) as i32;
    }
}

// The numbers of one layer's words, put at its points' places in the sheet.
fn spread_layer(
    table: &[i32; GROUPS],
    words: &[u32],
    start: usize,
    shape: Shape,
    layer: usize,
    coefficients: &mut [i32],
)
    requires table_value { table.now ≡ group_values }
    requires shape_value { (S.accepted shape ≡ true) × (layer < S.layers shape) }
    requires coefficients_len { (length coefficients.old ≡ S.points shape) × (start + S.layer_size shape layer ≤ length words.now) }
    requires by_index { (i : ℕ) → get_or words.now i 0 < 2 ^ Hd.places_most }
    ensures { coefficients.new ≡ W.spread_over shape layer words.now start coefficients.old }
{
    let l = sheet::layer_lines(shape, layer);
    for t in 0..l.sheets * l.lines {
        spread_line(
            table,
            words,
            start + t * l.points,
            l.points,
            coefficients,
            sheet::line_start(l, t),
            l.stride,
        );
    }
}

// The numbers of all words, each at its point's place.
pub(crate) fn spread(words: &[u32], shape: Shape, coefficients: &mut [i32])
    requires shape_value { S.accepted shape ≡ true }
    requires coefficients_len { (length coefficients.old ≡ S.points shape) × (length words.now ≡ words_most) }
    requires by_index { (i : ℕ) → get_or words.now i 0 < 2 ^ Hd.places_most }
    ensures { coefficients.new ≡ W.spread_all shape words.now }
{
    let table = digits::group_values();
    let layers = sheet::layer_count(shape);
    let mut start: usize = 0;
    for k in 0..layers {
        spread_layer(&table, words, start, shape, k, coefficients);
        start += CELL_POINTS * header::plane_cells(shape, k) as usize;
    }
}
