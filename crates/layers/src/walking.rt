// A layer's walk, point by point along its grid, in place: what a point's coefficient gives becomes its value. Quantizing and rebuilding walk alike, and
// differ in where the coefficient comes from.
ghost use Rattle.std.specs.Prelude.{◌≡◌, true, List, ℕ, ◌+◌, ◌*◌, ◌<◌, ◌≤◌, ℤ, length, slice_set};
ghost use Rattle.integers.specs.Distance.{Within};
ghost use Rattle.sheet.specs.Limits.{step_most};
ghost use Rattle.sheet.specs.declared.Curve.TheVariants.{Cubic};
ghost use Rattle.sheet.specs.declared.Direction.TheVariants.{Anchor, Across};
ghost use Rattle.sheet.specs.Sheet as S;
ghost use Rattle.layers.specs.Carry.{carried};
ghost use Rattle.layers.specs.Layering as Y;
ghost use Rattle.layers.specs.Workings.Loops as L;

use crate::prediction::{Line, crossing, value};
use sheet::{Curve, Direction, Grid, Shape, grid_of};

// Where a point's coefficient comes from, once y is predicted there.
pub(crate) trait Coefficients {
    // What no call changes, and the coefficients that are held, which a call may change.
    ghost Given: { Type 0 };

    ghost given: { Self → Given };

    ghost held: { Self → List ℤ };

    // The coefficient of point p where y is predicted.
    ghost makes: { Given → ℤ → ℕ → ℤ };

    // What a call needs: of its point, and how far from 0 the values may be that y is predicted from.
    ghost CanMake: { Given → ℕ → Type 0 };

    ghost most: { ℕ };

    // The coefficient of point p, which is held afterwards.
    fn at(&mut self, y: i64, p: usize) -> i64
        requires near { Within (carried Cubic most) y }
        requires here { p < length (held self.old) }
        requires can { CanMake (given self.old) p }
        ensures made { result ≡ makes (given self.old) y p }
        ensures small { Within L.counted_most result }
        ensures held { held self.new ≡ slice_set (held self.old) p (makes (given self.old) y p) }
        ensures given { given self.new ≡ given self.old };

    // So values stay within an i64.
    ghost most_small: { most ≤ L.value_most };
}

// A layer of a sheet, to be walked.
#[derive(Clone, Copy)]
struct Layer {
    shape: Shape,
    curve: Curve,
    step: u64,
    grid: Grid,
}

impl Layer {
    // One row of anchors: they are predicted as 0.
    fn anchors<C: Coefficients>(&self, sheet: usize, row: usize, source: &mut C, values: &mut [i64])
        requires here { L.AtRow self.now.shape self.now.grid.layer self.now.grid sheet row }
        requires direction { self.now.grid.direction ≡ Anchor }
        requires begun { L.Begun self.now C.most (C.CanMake (C.given source.old)) (C.held source.old) values.old }
        ensures given { C.given source.new ≡ C.given source.old }
        ensures walked { L.Walked self.now (L.in_row self.now.shape (sheet * self.now.shape.rows + row)) (C.makes (C.given source.old)) (C.held source.old) values.old (C.held source.new) values.new }
    {
        let g = self.grid;
        let cols = self.shape.cols;
        let start = (sheet * self.shape.rows + row) * cols;
        // By hand, as every loop inside a sheet: a `for` over `step_by` makes the innermost loops an eighth slower, and takes a sixth more instructions on narrow sheets.
        let mut col = g.col;
        while col < cols {
            let p = start + col;
            let q = source.at(0, p);
            values[p] = value(0, q, self.step);
            col += g.right;
        }
    }

    // One row of a layer across: the row itself is the line of its points.
    fn along<C: Coefficients>(&self, sheet: usize, row: usize, source: &mut C, values: &mut [i64])
        requires here { L.AtRow self.now.shape self.now.grid.layer self.now.grid sheet row }
        requires direction { self.now.grid.direction ≡ Across }
        requires begun { L.Begun self.now C.most (C.CanMake (C.given source.old)) (C.held source.old) values.old }
        ensures given { C.given source.new ≡ C.given source.old }
        ensures walked { L.Walked self.now (L.in_row self.now.shape (sheet * self.now.shape.rows + row)) (C.makes (C.given source.old)) (C.held source.old) values.old (C.held source.new) values.new }
    {
        let g = self.grid;
        let cols = self.shape.cols;
        let start = (sheet * self.shape.rows + row) * cols;
        // Read out first, so that the compiler makes a loop for each curve.
        let curve = self.curve;
        let step = self.step;
        let mut col = g.col;
        while col < cols {
            let p = start + col;
            let line = Line {
                values,
                start,
                stride: 1,
                count: cols,
            };
            let y = line.predicted(curve, col, g.spacing);
            let q = source.at(y, p);
            values[p] = value(y, q, step);
            col += g.right;
        }
    }

    // One row of a layer down or between: a line crosses it at each of its points.
    fn crossed<C: Coefficients>(&self, sheet: usize, row: usize, source: &mut C, values: &mut [i64])
        requires here { L.AtRow self.now.shape self.now.grid.layer self.now.grid sheet row }
        requires direction { L.crosses self.now.grid.direction ≡ true }
        requires begun { L.Begun self.now C.most (C.CanMake (C.given source.old)) (C.held source.old) values.old }
        ensures given { C.given source.new ≡ C.given source.old }
        ensures walked { L.Walked self.now (L.in_row self.now.shape (sheet * self.now.shape.rows + row)) (C.makes (C.given source.old)) (C.held source.old) values.old (C.held source.new) values.new }
    {
        let g = self.grid;
        let cols = self.shape.cols;
        let start = (sheet * self.shape.rows + row) * cols;
        let x = crossing(self.shape, g.direction, sheet, row);
        let curve = self.curve;
        let step = self.step;
        let mut col = g.col;
        while col < cols {
            let p = start + col;
            let line = Line {
                values,
                start: x.start + col,
                stride: x.stride,
                count: x.count,
            };
            let y = line.predicted(curve, x.place, g.spacing);
            let q = source.at(y, p);
            values[p] = value(y, q, step);
            col += g.right;
        }
    }

    // One row, whatever its direction.
    fn row<C: Coefficients>(&self, sheet: usize, row: usize, source: &mut C, values: &mut [i64])
        requires here { L.AtRow self.now.shape self.now.grid.layer self.now.grid sheet row }
        requires begun { L.Begun self.now C.most (C.CanMake (C.given source.old)) (C.held source.old) values.old }
        ensures given { C.given source.new ≡ C.given source.old }
        ensures walked { L.Walked self.now (L.in_row self.now.shape (sheet * self.now.shape.rows + row)) (C.makes (C.given source.old)) (C.held source.old) values.old (C.held source.new) values.new }
    {
        match self.grid.direction {
            Direction::Anchor => self.anchors(sheet, row, source, values),
            Direction::Across => self.along(sheet, row, source, values),
            Direction::Down | Direction::Between => self.crossed(sheet, row, source, values),
        }
    }

    // One sheet, row by row.
    fn sheet<C: Coefficients>(&self, sheet: usize, source: &mut C, values: &mut [i64])
        requires here { L.AtSheet self.now.shape self.now.grid.layer self.now.grid sheet }
        requires begun { L.Begun self.now C.most (C.CanMake (C.given source.old)) (C.held source.old) values.old }
        ensures given { C.given source.new ≡ C.given source.old }
        ensures walked { L.Walked self.now (L.in_sheet self.now.shape sheet) (C.makes (C.given source.old)) (C.held source.old) values.old (C.held source.new) values.new }
    {
        let g = self.grid;
        let mut row = g.row;
        while row < self.shape.rows {
            self.row(sheet, row, source, values);
            row += g.down;
        }
    }
}

// Walks one layer, sheet by sheet.
pub(crate) fn walk<C: Coefficients>(
    shape: Shape,
    curve: Curve,
    step: u64,
    layer: usize,
    source: &mut C,
    values: &mut [i64],
)
    requires shape { (S.accepted shape ≡ true) × (step ≤ step_most) × (layer < S.layers shape) }
    requires begun { (length (C.held source.old) ≡ S.points shape) × (length values.old ≡ S.points shape) × L.Below C.most shape curve layer values.old }
    requires can { (p : ℕ) → p < S.points shape → C.CanMake (C.given source.old) p }
    ensures given { C.given source.new ≡ C.given source.old }
    ensures coefficients { C.held source.new ≡ Y.layer_by (Y.layering shape curve) layer (C.makes (C.given source.old)) values.old (C.held source.old) }
    ensures values { values.new ≡ Y.layer_by (Y.layering shape curve) layer (L.rebuilds step (C.makes (C.given source.old))) values.old values.old }
{
    let grid = grid_of(shape, layer);
    let walk = Layer {
        shape,
        curve,
        step,
        grid,
    };
    for sheet in (grid.sheet..shape.depth).step_by(grid.deep) {
        walk.sheet(sheet, source, values);
    }
}
