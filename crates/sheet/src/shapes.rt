// Shapes that a sheet can have, and how many layers each has.
ghost use Rattle.std.specs.Prelude.{◌≡◌};
ghost use Rattle.sheet.specs.Sheet as S;
ghost use Rattle.sheet.specs.Workings.Shapes as W;

use crate::{MOST_DEPTH, MOST_LAYERS, MOST_LEVELS, MOST_POINTS, Shape};

// Can a sheet have so many rows and columns? They are bounded before they are multiplied. Its depth is 1, until stacks come.
pub fn sized(depth: usize, rows: usize, cols: usize) -> bool
    ensures { result ≡ S.sized depth rows cols }
{
    if depth < 1 || MOST_DEPTH < depth {
        return false;
    }
    if rows < 1 || MOST_POINTS < rows {
        return false;
    }
    if cols < 1 || MOST_POINTS < cols {
        return false;
    }
    depth * rows * cols <= MOST_POINTS
}

// The shape of a sheet by itself.
pub fn sheet_of(rows: usize, cols: usize, levels: usize) -> Shape
    ensures { result ≡ S.sheet_of rows cols levels }
{
    Shape {
        depth: 1,
        rows,
        cols,
        levels,
    }
}

// Is this a shape that a sheet can have?
pub fn accepted(shape: Shape) -> bool
    ensures { result ≡ S.accepted shape }
{
    if sized(shape.depth, shape.rows, shape.cols) {
        return shape.levels <= MOST_LEVELS;
    }
    false
}

// How many points a sheet has; 0 where no sheet has such a shape.
pub fn points(shape: Shape) -> usize
    ensures { result ≡ W.points_in shape }
{
    if !accepted(shape) {
        return 0;
    }
    let depth = shape.depth;
    let rows = shape.rows;
    let cols = shape.cols;
    depth * rows * cols
}

// A single column stands in memory as a single row does, and is walked as one.
pub fn laid(shape: Shape) -> Shape
    ensures { result ≡ W.laid shape }
{
    if shape.cols != 1 {
        return shape;
    }
    Shape {
        depth: shape.depth,
        rows: 1,
        cols: shape.rows,
        levels: shape.levels,
    }
}

// The directions of a level: across and down, and between where there are several sheets.
pub(crate) fn directions(shape: Shape) -> usize
    ensures { result ≡ S.directions shape }
{
    if 1 < shape.depth { 3 } else { 2 }
}

// How many layers a shape has; no more than a sheet can have, whatever the levels.
pub fn layer_count(shape: Shape) -> usize
    ensures { result ≡ W.layer_count shape }
{
    let levels = shape.levels;
    let n = directions(shape);
    if levels < MOST_LAYERS {
        let layers = 1 + n * levels;
        if layers < MOST_LAYERS {
            return layers;
        }
    }
    MOST_LAYERS
}

// Is this layer one of an accepted shape's?
pub(crate) fn has_layer(shape: Shape, layer: usize) -> bool
    ensures { result ≡ W.has_layer shape layer }
{
    if accepted(shape) {
        return layer < layer_count(shape);
    }
    false
}
