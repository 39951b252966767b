// Two cards that are all there, compared, and the lines of marks: a line of the characters 0 and 1 for each row.
ghost use Rattle.std.specs.Prelude.{◌≡◌, ◌+◌, ◌*◌, ◌≤◌, pos, length, replicate, take, IfOk};
ghost use Rattle.std.proofs.lemmas.List.Edits.{sets};
ghost use Rattle.sheet.specs.Limits.{points_most};
ghost use Rattle.sheet.specs.Sheet.{points};
ghost use Rattle.header.specs.Opening as O;
ghost use Rattle.display.specs.Compared as C;
ghost use Rattle.display.specs.Workings as W;

use crate::Compared;
use header::Refusal;

// The line of a row.
fn row_marks(page: &mut [u8], at: usize, marks: &[u8])
    requires { (at + length marks.now + 1 ≤ length page.old) × W.Marks marks.now }
    ensures { page.new ≡ sets page.old at (C.row_marks marks.now) }
{
    for (i, mark) in marks.iter().enumerate() {
        page[at + i] = b'0' + *mark;
    }
    page[at + marks.len()] = b'\n';
}

// The lines of all rows, at the front of the page. Not by `chunks`, which takes no width of 0, as rows of no points have.
fn all_marks(page: &mut [u8], rows: usize, cols: usize, marks: &[u8])
    requires { (rows * cols ≡ length marks.now) × (length marks.now + rows ≤ length page.old) × W.Marks marks.now }
    ensures { page.new ≡ sets page.old 0 (C.marks_text rows cols marks.now) }
{
    for row in 0..rows {
        let from = row * cols;
        let to = from + cols;
        row_marks(page, from + row, &marks[from..to]);
    }
}

// How many points the sheet of a card has; none where it does not open.
fn points_of(bytes: &[u8]) -> usize
    ensures { (result ≡ points (O.opening bytes.now).header.shape) × (result ≤ points_most) }
{
    match header::open(bytes) {
        Ok(opened) => sheet::points(opened.header.shape),
        Err(_) => 0,
    }
}

// Compares two cards in slices with room for any sheet, and leaves the lines of marks at the front of the page.
pub(crate) fn compared_of(
    first: &[u8],
    second: &[u8],
    coefficients1: &mut [i32],
    values1: &mut [i64],
    coefficients2: &mut [i32],
    values2: &mut [i64],
    apart: &mut [u8],
    page: &mut [u8],
) -> Result<Compared, Refusal>
    requires { (coefficients1.old ≡ replicate points_most (pos 0)) × (values1.old ≡ replicate points_most (pos 0)) × (coefficients2.old ≡ replicate points_most (pos 0)) × (values2.old ≡ replicate points_most (pos 0)) × (apart.old ≡ replicate points_most 0) × (length page.old ≡ W.marks_most) }
    ensures compares { W.as_compared result ≡ W.compared_of first.now second.now }
    ensures fills { IfOk result (λ c. (c.length ≤ W.marks_most) × (take c.length page.new ≡ C.marks_of first.now second.now)) }
{
    let shape = header::open(first)?.header.shape;
    let points1 = sheet::points(shape);
    let points2 = points_of(second);
    let compared = compare::compare(
        first,
        second,
        &mut coefficients1[..points1],
        &mut values1[..points1],
        &mut coefficients2[..points2],
        &mut values2[..points2],
        &mut apart[..points1],
    )?;
    let rows = shape.depth * shape.rows;
    all_marks(page, rows, shape.cols, &apart[..points1]);
    Ok(Compared {
        apart: compared.number,
        row: compared.row,
        column: compared.column,
        length: points1 + rows,
    })
}
