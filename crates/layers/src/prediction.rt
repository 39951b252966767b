// Prediction along a line, by one rule for all directions, and the value that a coefficient gives.
ghost use Rattle.std.specs.Prelude.{◌≡◌, true, ◌+◌, ◌-◌, ◌*◌, ◌^◌, ◌<◌, ◌≤◌, length};
ghost use Rattle.integers.specs.Distance.{Within};
ghost use Rattle.sheet.specs.Limits.{points_most, levels_most, step_most};
ghost use Rattle.sheet.specs.Sheet as S;
ghost use Rattle.layers.specs.Prediction as P;
ghost use Rattle.layers.specs.Workings.Calls as W;
ghost use Rattle.layers.specs.Workings.Loops as L;

use crate::Crossing;
use sheet::{Curve, Direction, MOST_STEP, Shape};

// Does the curve take four neighbours of place t on a line of n points?
fn uses_four(curve: Curve, n: usize, t: usize, s: usize) -> bool
    requires { (s ≤ 2 ^ levels_most) × (t ≤ points_most) }
    ensures { result ≡ P.uses_four curve n t s }
{
    match curve {
        Curve::Linear => false,
        Curve::Cubic => 3 * s <= t && t + 3 * s < n,
    }
}

fn linear(b: i64, c: i64) -> i64
    requires { Within L.value_most b × Within L.value_most c }
    ensures { result ≡ P.linear b c }
{
    integers::floor_div(b + c, 2)
}

fn cubic(a: i64, b: i64, c: i64, d: i64) -> i64
    requires { Within L.value_most a × Within L.value_most b × Within L.value_most c × Within L.value_most d }
    ensures { result ≡ P.cubic a b c d }
{
    integers::floor_div(9 * b + 9 * c - a - d, 16)
}

// A line of points: where it starts in the values lent, how far apart its points are (its stride, since a layer has a spacing too), and how many it has.
#[derive(Clone, Copy)]
pub(crate) struct Line<'a> {
    pub values: &'a [i64],
    pub start: usize,
    pub stride: usize,
    pub count: usize,
}

impl<'a> Line<'a> {
    fn at(&self, t: usize) -> i64
        requires { (t < self.now.count) × (self.now.start + (self.now.count - 1) * self.now.stride < length self.now.values.now) }
        ensures { result ≡ P.on self.now.values.now self.now.start self.now.stride t }
    {
        self.values[self.start + t * self.stride]
    }

    // What is predicted at place t, an odd multiple of s, with its four neighbours there.
    fn predicted_from_four(&self, t: usize, s: usize) -> i64
        requires on_line { L.OnLine self.now.values.now self.now.start self.now.stride self.now.count t s }
        requires s_bound { (3 * s ≤ t) × (t + 3 * s < self.now.count) }
        ensures { let on = P.on self.now.values.now self.now.start self.now.stride in result ≡ P.cubic (on (t - 3 * s)) (on (t - s)) (on (t + s)) (on (t + 3 * s)) }
    {
        let a = self.at(t - 3 * s);
        let b = self.at(t - s);
        let c = self.at(t + s);
        let d = self.at(t + 3 * s);
        cubic(a, b, c, d)
    }

    // What is predicted at place t, an odd multiple of s.
    pub(crate) fn predicted(&self, curve: Curve, t: usize, s: usize) -> i64
        requires { L.OnLine self.now.values.now self.now.start self.now.stride self.now.count t s }
        ensures { result ≡ P.line curve self.now.values.now self.now.start self.now.stride self.now.count t s }
    {
        if uses_four(curve, self.count, t, s) {
            return self.predicted_from_four(t, s);
        }
        let before = self.at(t - s);
        if t + s < self.count {
            return linear(before, self.at(t + s));
        }
        before
    }
}

// The columns that cross row `row` of a sheet.
fn columns(shape: Shape, sheet: usize, row: usize) -> Crossing
    requires { (S.accepted shape ≡ true) × (sheet < shape.depth) × (row < shape.rows) }
    ensures { result ≡ L.columns shape sheet row }
{
    let rows = shape.rows;
    let cols = shape.cols;
    Crossing {
        start: sheet * rows * cols,
        stride: cols,
        count: rows,
        place: row,
    }
}

// The lines that cross row `row` of a sheet: its columns, or those from sheet to sheet in a layer between, of a stack.
pub(crate) fn crossing(shape: Shape, direction: Direction, sheet: usize, row: usize) -> Crossing
    requires { (S.accepted shape ≡ true) × (sheet < shape.depth) × (row < shape.rows) }
    ensures { result ≡ L.crossing_of shape direction sheet row }
{
    let depth = shape.depth;
    let rows = shape.rows;
    let cols = shape.cols;
    match direction {
        Direction::Anchor | Direction::Across | Direction::Down => columns(shape, sheet, row),
        Direction::Between => Crossing {
            start: row * cols,
            stride: rows * cols,
            count: depth,
            place: sheet,
        },
    }
}

// w: how far apart the values of neighbouring coefficients are.
pub(crate) fn width(step: u64) -> u64
    requires { step ≤ step_most }
    ensures { result ≡ P.width step }
{
    2 * step + 1
}

// The same for any step; 0 where it is not accepted.
pub fn width_of(step: u64) -> u64
    ensures { result ≡ W.width_of step }
{
    if MOST_STEP < step {
        return 0;
    }
    width(step)
}

// The value that a coefficient gives where y is predicted.
pub(crate) fn value(y: i64, q: i64, step: u64) -> i64
    requires { Within (2 * L.value_most) y × Within L.counted_most q × (step ≤ step_most) }
    ensures { result ≡ P.rebuilt_from y q step }
{
    y + q * width(step) as i64
}
