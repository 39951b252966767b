// A layer as lines of points, where each starts, and how many points it has.
ghost use Rattle.std.specs.Prelude.{◌≡◌, ◌*◌, ◌^◌, ◌<◌, ◌≤◌};
ghost use Rattle.sheet.specs.Limits.{points_most, levels_most};
ghost use Rattle.sheet.specs.Workings.Shapes as W;
ghost use Rattle.sheet.specs.Workings.Lines as L;

use crate::grids::grid_here;
use crate::shapes::has_layer;
use crate::{Lines, MOST_DEPTH, MOST_LEVELS, MOST_POINTS, Shape};

// How many of first, first + stride, .. lie below end.
fn steps(first: usize, stride: usize, end: usize) -> usize
    requires { (0 < stride) × (stride ≤ 2 * 2 ^ levels_most) × (first ≤ 2 ^ levels_most) × (end ≤ points_most) }
    ensures { result ≡ L.steps first stride end }
{
    if first < end {
        return (end - first - 1) / stride + 1;
    }
    0
}

// The lines of a layer that is not there.
const NO_LINES: Lines = Lines {
    first: 0,
    sheets: 0,
    beyond: 0,
    lines: 0,
    apart: 0,
    points: 0,
    stride: 0,
};

// A layer's rows as lines; no lines where there is no such layer.
fn row_lines(shape: Shape, layer: usize) -> Lines
    ensures { result ≡ L.row_lines shape layer }
{
    if !has_layer(shape, layer) {
        return NO_LINES;
    }
    let depth = shape.depth;
    let rows = shape.rows;
    let cols = shape.cols;
    let g = grid_here(shape, layer);
    Lines {
        first: (g.sheet * rows + g.row) * cols + g.col,
        sheets: steps(g.sheet, g.deep, depth),
        beyond: g.deep * rows * cols,
        lines: steps(g.row, g.down, rows),
        apart: g.down * cols,
        points: steps(g.col, g.right, cols),
        stride: g.right,
    }
}

// A layer as lines: its rows, or its columns where every row has one point, so that a walk goes along whichever is long.
pub fn layer_lines(shape: Shape, layer: usize) -> Lines
    ensures { L.Lined shape layer result }
{
    let l = row_lines(shape, layer);
    if l.points != 1 {
        return l;
    }
    Lines {
        first: l.first,
        sheets: l.sheets,
        beyond: l.beyond,
        lines: 1,
        apart: l.apart,
        points: l.lines,
        stride: l.apart,
    }
}

// How many points a layer has; none where there is no such layer.
pub fn layer_size(shape: Shape, layer: usize) -> usize
    ensures { result ≡ W.size_at shape layer }
{
    let l = row_lines(shape, layer);
    l.sheets * l.lines * l.points
}

// The first point of a layer's lines and the distances between them are no larger than this.
const FAR: usize = (4 << MOST_LEVELS) * MOST_POINTS * MOST_POINTS;

// No layer has more lines.
const MOST_LINES: usize = MOST_DEPTH * MOST_POINTS;

// Are there lines, is t at most the most of them, and is none of their numbers past `FAR`?
fn is_near(l: Lines, t: usize) -> bool
    ensures { result ≡ L.near l t }
{
    let lines = l.lines;
    let first = l.first;
    let beyond = l.beyond;
    let apart = l.apart;
    if lines < 1 {
        return false;
    }
    if MOST_LINES < t {
        return false;
    }
    if FAR < first {
        return false;
    }
    if FAR < beyond {
        return false;
    }
    apart <= FAR
}

// Where line t of a layer starts; 0 where there are no lines, or t or a number of theirs is past any layer's. Lines count on through the sheets; of
// a single sheet (until stacks come) none lies beyond the first.
pub fn line_start(l: Lines, t: usize) -> usize
    ensures { result ≡ L.start_in l t }
{
    if !is_near(l, t) {
        return 0;
    }
    let first = l.first;
    let lines = l.lines;
    let apart = l.apart;
    if t < lines {
        return first + t * apart;
    }
    first + t / lines * l.beyond + t % lines * apart
}
