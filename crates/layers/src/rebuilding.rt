// Coefficients to values, layer by layer, in place.
ghost use Rattle.std.specs.Prelude.{FitsSigned, ◌≡◌, true, List, ℤ, ◌+ℤ◌, map, ℕ, ◌<◌, ◌≤◌, length};
ghost use Rattle.sheet.specs.Limits.{step_most};
ghost use Rattle.sheet.specs.Lists.{at};
ghost use Rattle.std.specs.Int.{w32};
ghost use Rattle.std.proofs.Common.{rules};
ghost use Rattle.sheet.specs.Sheet as S;
ghost use Rattle.layers.specs.Layering as Y;
ghost use Rattle.layers.specs.Workings.Calls as W;
ghost use Rattle.layers.specs.Workings.Loops as L;

use crate::settled;
use crate::walking::{Coefficients, walk};
use sheet::{Curve, Direction, MOST_LAYERS, Shape, grid_of, laid, layer_count};

// A point's coefficient is there already; the layer adds `more` to it.
#[derive(Drop)]
struct Rebuilding<'a> {
    coefficients: &'a [i32],
    more: i32,
}

impl<'a> Coefficients for Rebuilding<'a> {
    ghost Given = { List ℤ × ℤ };

    ghost given = { λ s. (s.coefficients.now, s.more) };

    ghost held = { λ s. map (λ q. q +ℤ s.more) s.coefficients.now };

    ghost makes = { λ g y p. at g.0 p +ℤ g.1 };

    ghost CanMake = { λ g p. p < length g.0 };

    ghost most = { L.value_most };

    ghost most_small = { Prim.search rules };

    fn at(&mut self, _y: i64, p: usize) -> i64 {
        i64::from(self.coefficients[p]) + i64::from(self.more)
    }
}

// No effect: the proofs learn that an element of a slice is an i32 where it is read alone (of unsigned numbers they know it).
fn are_i32(numbers: &[i32])
    ensures { (p : ℕ) → p < length numbers.now → FitsSigned w32 (at numbers.now p) }
{
    for q in numbers {
        let _q = *q;
    }
}

// The layer of a shape that has the points of this layer of the shape as it is laid: a row's layers across are a column's layers down.
fn laid_layer(shape: Shape, layer: usize) -> usize
    requires { (S.accepted shape ≡ true) × (layer < S.layers shape) }
    ensures { result ≡ L.laid_layer shape layer }
{
    if shape.cols != 1 {
        return layer;
    }
    match grid_of(shape, layer).direction {
        Direction::Across => layer + 1,
        Direction::Anchor | Direction::Down | Direction::Between => layer,
    }
}

fn rebuild_layers(
    coefficients: &[i32],
    shape: Shape,
    curve: Curve,
    step: u64,
    more: &[i32; MOST_LAYERS],
    values: &mut [i64],
)
    requires shape_value { (S.accepted shape ≡ true) × (step ≤ step_most) }
    requires coefficients_len { (length coefficients.now ≡ S.points shape) × (length values.old ≡ S.points shape) }
    ensures { values.new ≡ Y.rebuilt (Y.layering shape curve) step (Y.counted shape (at more.now) coefficients.now) }
{
    are_i32(coefficients);
    are_i32(more);
    let row = laid(shape);
    let layers = layer_count(shape);
    for layer in 0..layers {
        let own = laid_layer(shape, layer);
        let mut source = Rebuilding {
            coefficients,
            more: more[own],
        };
        walk(row, curve, step, layer, &mut source, values);
    }
}

// Coefficients to values, whatever the coefficients; `more` is what each layer adds to its own. Where a size is not right, nothing changes.
pub fn rebuild(
    coefficients: &[i32],
    shape: Shape,
    curve: Curve,
    step: u64,
    more: &[i32; MOST_LAYERS],
    values: &mut [i64],
) -> bool
    ensures { (result ≡ W.rebuildable shape step coefficients.now values.old) × (values.new ≡ W.rebuilding shape curve step more.now coefficients.now values.old) }
{
    if !settled(shape, step) {
        return false;
    }
    let points = sheet::points(shape);
    if coefficients.len() != points || values.len() != points {
        return false;
    }
    rebuild_layers(coefficients, shape, curve, step, more, values);
    true
}
