// The lines of a roll. Each of a row's lines begins as the same line, with the row put and the rest blank.
ghost use Rattle.std.specs.Prelude.{◌≡◌, ◌+◌, ◌-◌, ◌*◌, ◌≤◌, length};
ghost use Rattle.std.proofs.lemmas.List.Edits.{sets};
ghost use Rattle.sheet.specs.Sheet.{points};
ghost use Rattle.text.specs.Decimal as D;
ghost use Rattle.roll.specs.Page as P;
ghost use Rattle.roll.specs.Workings as W;

use crate::pairs::{PAIR_CHARACTERS, pairs, put_pairs};
use crate::{COLUMN_PLACES, LINE_BYTES, LINE_PLACES, ROW_PLACES};
use sheet::Shape;

// A line of spaces.
fn blank(page: &mut [u8], at: usize)
    requires { at + (P.line_places + 1) ≤ length page.old }
    ensures { page.new ≡ sets page.old at W.blank_line }
{
    page[at..at + LINE_PLACES].fill(b' ');
    page[at + LINE_PLACES] = b'\n';
}

// The line of the figure, the page's first.
fn figure_line(page: &mut [u8], figure: u64, pairs: &[u8; PAIR_CHARACTERS])
    requires { (P.line_places + 1 ≤ length page.old) × (pairs.now ≡ W.pair_table) }
    ensures { page.new ≡ sets page.old 0 (P.figure_line figure) }
{
    blank(page, 0);
    put_pairs(page, LINE_PLACES, figure, pairs);
}

// The line of a row before its column and value are put: each line of the row begins as this one.
fn row_line(row: usize, pairs: &[u8; PAIR_CHARACTERS]) -> [u8; LINE_BYTES]
    requires { (length (D.decimal row) ≤ P.row_places) × (pairs.now ≡ W.pair_table) }
    ensures { result ≡ W.row_line row }
{
    let mut line = [0u8; LINE_BYTES];
    blank(&mut line, 0);
    put_pairs(&mut line, ROW_PLACES, row as u64, pairs);
    line
}

// Begins a line as its row's.
fn begin_line(page: &mut [u8], at: usize, line: &[u8])
    requires { (at + (P.line_places + 1) ≤ length page.old) × (length line.now ≡ P.line_places + 1) }
    ensures { page.new ≡ sets page.old at line.now }
{
    // By hand: `copy_from_slice` reads the line anew for each value, and a roll took an eighth longer.
    for i in 0..LINE_BYTES {
        page[at + i] = line[i];
    }
}

// A value straight before a place.
fn put_value(page: &mut [u8], end: usize, value: i64, pairs: &[u8; PAIR_CHARACTERS])
    requires { (length (D.signed value) ≤ end) × (end ≤ length page.old) × (pairs.now ≡ W.pair_table) }
    ensures { page.new ≡ sets page.old (end - length (D.signed value)) (D.signed value) }
{
    let first = put_pairs(page, end, integers::magnitude(value), pairs);
    if value < 0 {
        page[first - 1] = b'-';
    }
}

// The line of a value, begun as its row's. (The row is named by the contract alone.)
fn value_line(
    page: &mut [u8],
    at: usize,
    line: &[u8],
    row: usize,
    column: usize,
    value: i64,
    pairs: &[u8; PAIR_CHARACTERS],
)
    requires at_in_bounds { (at + (P.line_places + 1) ≤ length page.old) × (line.now ≡ W.row_line row) × (pairs.now ≡ W.pair_table) }
    requires row_len_bound { (length (D.decimal row) ≤ P.row_places) × (length (D.decimal column) ≤ P.column_places) × (length (D.signed value) ≤ P.value_places) }
    ensures { page.new ≡ sets page.old at (P.value_line row column value) }
{
    begin_line(page, at, line);
    put_pairs(page, at + ROW_PLACES + COLUMN_PLACES, column as u64, pairs);
    put_value(page, at + LINE_PLACES, value, pairs);
}

// The lines of a row, each behind the last.
fn row_lines(
    page: &mut [u8],
    row: usize,
    cols: usize,
    values: &[i64],
    pairs: &[u8; PAIR_CHARACTERS],
)
    requires { W.Printable cols values.now × ((row + 1) * cols ≤ length values.now) × ((P.line_places + 1) * (length values.now + 1) ≤ length page.old) × (pairs.now ≡ W.pair_table) }
    ensures { (length page.new ≡ length page.old) × (W.printed_from cols values.now page.new ((row + 1) * cols) ≡ W.printed_from cols values.now page.old (row * cols)) }
{
    let line = row_line(row, pairs);
    let first = row * cols;
    for (column, value) in values[first..first + cols].iter().enumerate() {
        value_line(
            page,
            LINE_BYTES * (first + column + 1),
            &line,
            row,
            column,
            *value,
            pairs,
        );
    }
}

// The lines of all rows, behind the first line.
fn value_lines(
    page: &mut [u8],
    rows: usize,
    cols: usize,
    values: &[i64],
    pairs: &[u8; PAIR_CHARACTERS],
)
    requires { W.Printable cols values.now × (rows * cols ≡ length values.now) × ((P.line_places + 1) * (length values.now + 1) ≤ length page.old) × (pairs.now ≡ W.pair_table) }
    ensures { page.new ≡ W.printed_from cols values.now page.old 0 }
{
    for row in 0..rows {
        row_lines(page, row, cols, values, pairs);
    }
}

// All lines. Rows count on through a stack's sheets, once stacks come.
pub(crate) fn print(shape: Shape, figure: u64, values: &[i64], page: &mut [u8])
    requires { W.Printable shape.cols values.now × (length values.now ≡ points shape) × ((P.line_places + 1) * (length values.now + 1) ≤ length page.old) }
    ensures { page.new ≡ sets page.old 0 (P.page_text shape figure values.now) }
{
    let table = pairs();
    figure_line(page, figure, &table);
    value_lines(page, shape.depth * shape.rows, shape.cols, values, &table);
}
