// Samples to coefficients and values, layer by layer, in place.
ghost use Rattle.std.specs.Prelude.{◌≡◌, ◌*◌, List, ℕ, ℤ, ◌<◌, ◌≤◌, length};
ghost use Rattle.integers.specs.Distance.{Within};
ghost use Rattle.sheet.specs.Limits.{step_most, sample_most};
ghost use Rattle.std.specs.Borrow.{GName};
ghost use Rattle.std.proofs.Common.{rules};
ghost use Rattle.sheet.specs.Lists.{at};
ghost use Rattle.sheet.specs.Sheet as S;
ghost use Rattle.layers.specs.Prediction as P;
ghost use Rattle.layers.specs.Layering as Y;
ghost use Rattle.layers.specs.Samples as C;
ghost use Rattle.layers.specs.Workings.Calls as W;
ghost use Rattle.layers.specs.Workings.Loops as L;

use crate::prediction::width;
use crate::walking::{Coefficients, walk};
use crate::{Place, QuantizeError, settled};
use sheet::{Curve, Shape, laid, layer_count};

const MOST_SAMPLE: i32 = 1048575;

fn in_range(sample: i32) -> bool
    ensures { result ≡ C.in_range sample }
{
    -MOST_SAMPLE <= sample && sample <= MOST_SAMPLE
}

// Where the first sample out of range stands, in row order. Two loops that a label leaves: the customer names this form.
fn scan_samples(samples: &[i32], rows: usize, cols: usize) -> Option<Place>
    requires { length samples.now ≡ rows * cols }
    ensures { result ≡ C.scanned cols samples.now }
{
    let mut found = None;
    'rows: for row in 0..rows {
        for col in 0..cols {
            if !in_range(samples[row * cols + col]) {
                found = Some(Place { row, col });
                break 'rows;
            }
        }
    }
    found
}

// The coefficient of a sample where y is predicted.
fn coefficient(sample: i32, y: i64, step: u64) -> i32
    requires { Within sample_most sample × Within L.predicted_most y × (step ≤ step_most) }
    ensures { result ≡ P.coefficient_of sample y step }
{
    integers::floor_div(sample as i64 - y + step as i64, width(step)) as i32
}

// A point's coefficient is made from its sample, and is kept.
#[derive(Drop)]
struct Quantizing<'a> {
    samples: &'a [i32],
    coefficients: &'a mut [i32],
    step: u64,
}

impl<'a> Coefficients for Quantizing<'a> {
    ghost Given = { List ℤ × ℕ × GName };

    ghost given = { λ s. (s.samples.now, s.step, s.coefficients.ghost_name) };

    ghost held = { λ s. s.coefficients.now };

    ghost makes = { λ g. Y.makes g.1 g.0 };

    ghost CanMake = { λ g p. (p < length g.0) × Within sample_most (at g.0 p) × (g.1 ≤ step_most) };

    ghost most = { L.written_most };

    ghost most_small = { Prim.search rules };

    fn at(&mut self, y: i64, p: usize) -> i64 {
        let q = coefficient(self.samples[p], y, self.step);
        self.coefficients[p] = q;
        i64::from(q)
    }
}

fn quantize_layers(
    samples: &[i32],
    shape: Shape,
    curve: Curve,
    step: u64,
    coefficients: &mut [i32],
    values: &mut [i64],
)
    requires samples { L.Samples shape step samples.now }
    requires coefficients_len { (length coefficients.old ≡ S.points shape) × (length values.old ≡ S.points shape) }
    ensures { (coefficients.new ≡ Y.coefs (Y.layering shape curve) step samples.now) × (values.new ≡ Y.written (Y.layering shape curve) step samples.now) }
{
    let layers = layer_count(shape);
    let mut source = Quantizing {
        samples,
        coefficients,
        step,
    };
    for layer in 0..layers {
        walk(shape, curve, step, layer, &mut source, values);
    }
}

// Samples to coefficients and values. Where a size is not right or a sample is out of range, nothing changes.
pub fn quantize(
    samples: &[i32],
    shape: Shape,
    curve: Curve,
    step: u64,
    coefficients: &mut [i32],
    values: &mut [i64],
) -> Result<(), QuantizeError>
    ensures { (result ≡ (W.quantizing shape curve step samples.now coefficients.old values.old).answer) × (coefficients.new ≡ (W.quantizing shape curve step samples.now coefficients.old values.old).coefficients) × (values.new ≡ (W.quantizing shape curve step samples.now coefficients.old values.old).values) }
{
    if !settled(shape, step) {
        return Err(QuantizeError::BadLengths);
    }
    let points = sheet::points(shape);
    if samples.len() != points {
        return Err(QuantizeError::BadLengths);
    }
    if coefficients.len() != points || values.len() != points {
        return Err(QuantizeError::BadLengths);
    }
    if let Some(place) = scan_samples(samples, shape.depth * shape.rows, shape.cols) {
        return Err(QuantizeError::OutOfRange(place));
    }
    quantize_layers(samples, laid(shape), curve, step, coefficients, values);
    Ok(())
}
