// A sheet's layers: quantizing samples to coefficients and values, and rebuilding values from coefficients, in the caller's slices.
// Each layer is walked as a grid of rows and columns; of sheets too, once stacks come.
#![tactic(auto)]

ghost use Rattle.std.specs.Prelude.{◌≡◌};
ghost use Rattle.layers.specs.Workings.Calls as W;

mod prediction;
mod quantizing;
mod rebuilding;
mod walking;

pub use prediction::width_of;
pub use quantizing::quantize;
pub use rebuilding::rebuild;
use sheet::{MOST_STEP, Shape};

// The lines that cross a row at its points: each has `count` points, `stride` apart, and starts at `start` and the point's column; the point has
// `place` on it.
#[derive(Clone, Copy)]
pub struct Crossing {
    pub start: usize,
    pub stride: usize,
    pub count: usize,
    pub place: usize,
}

// Where a sample stands.
#[derive(Clone, Copy)]
pub struct Place {
    pub row: usize,
    pub col: usize,
}

// Why quantizing refuses: a shape, a step or a length is not right, or the first sample out of range stands there.
#[derive(Clone, Copy)]
pub enum QuantizeError {
    BadLengths,
    OutOfRange(Place),
}

// Can a sheet be written or rebuilt so: a shape and a step that are accepted?
pub(crate) fn settled(shape: Shape, step: u64) -> bool
    ensures { result ≡ W.settled shape step }
{
    sheet::accepted(shape) && step <= MOST_STEP
}
