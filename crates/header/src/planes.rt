// The planes that a header names: their cells, and how many each layer may have.
ghost use Rattle.std.specs.Prelude.{◌≡◌, ℕ, ◌<◌, ◌≤◌, get_or};
ghost use Rattle.sheet.specs.Limits.{layers_most};
ghost use Rattle.header.specs.Header as Hd;
ghost use Rattle.header.specs.Workings as W;
ghost use Rattle.header.specs.Plan as P;
ghost use Rattle.header.specs.Opening as O;

use crate::{CELL_POINTS, Header, MOST_PLACES};
use sheet::{MOST_LAYERS, MOST_STEP, Shape};

// The cells of one plane of a layer; 0 where there is no such layer.
pub fn plane_cells(shape: Shape, layer: usize) -> u64
    ensures { result ≡ W.cells_at shape layer }
{
    ((sheet::layer_size(shape, layer) + (CELL_POINTS - 1)) / CELL_POINTS) as u64
}

// The cells that one plane of each layer spans.
pub(crate) fn spans_of(shape: Shape) -> [u64; MOST_LAYERS]
    ensures { result ≡ W.spans_of shape }
{
    std::array::from_fn(|k| plane_cells(shape, k))
}

// The cells of all the planes that the counts name, where one plane of each layer spans so many.
pub(crate) fn cells_of(spans: [u64; MOST_LAYERS], planes: [u64; MOST_LAYERS]) -> u64
    requires { (k : ℕ) → (get_or spans k 0 ≤ W.plane_cells_most) × (get_or planes k 0 ≤ Hd.places_most) }
    ensures { result ≡ W.cells_by spans planes }
{
    let mut cells: u64 = 0;
    for (span, count) in spans.iter().zip(&planes) {
        cells += span * count;
    }
    cells
}

// The most planes that a layer may have: none where it is empty, so that a plane of it spans no cells.
#[tactic(auto, unfolding(crate::specs::Workings::most_by))]
fn planes_most(span: u64) -> u64
    ensures { result ≡ W.most_by span }
{
    if span == 0 { 0 } else { MOST_PLACES }
}

// The most planes that each layer may have.
pub(crate) fn limits(spans: [u64; MOST_LAYERS]) -> [u64; MOST_LAYERS]
    ensures { result ≡ W.limits_by spans }
{
    spans.map(planes_most)
}

// The first place where a plan loads more than the limit there.
#[tactic(auto, using(crate::proofs::Over::over_at, crate::proofs::Over::over_nowhere))]
pub fn first_over(limit: [u64; MOST_LAYERS], plan: [u64; MOST_LAYERS]) -> Option<usize>
    ensures { result ≡ W.place_in layers_most (P.first_over (λ k. get_or limit k 0) (λ k. get_or plan k 0)) }
{
    limit
        .iter()
        .zip(&plan)
        .position(|(most, loaded)| most < loaded)
}

// Are these a shape that is accepted and counts that a header of it may have? `spans` are the cells of one plane of each layer.
#[tactic(auto, unfolding(crate::specs::Opening::counts_fit))]
fn counts_fit(shape: Shape, spans: [u64; MOST_LAYERS], planes: [u64; MOST_LAYERS]) -> bool
    requires { spans ≡ W.spans_of shape }
    ensures { result ≡ O.counts_fit shape planes }
{
    sheet::accepted(shape) && first_over(limits(spans), planes).is_none()
}

// The cells of all the planes that the counts name; 0 where no header has such a shape or such counts.
pub fn total_cells(shape: Shape, planes: [u64; MOST_LAYERS]) -> u64
    ensures { result ≡ W.cells_named shape planes }
{
    let spans = spans_of(shape);
    if counts_fit(shape, spans, planes) {
        cells_of(spans, planes)
    } else {
        0
    }
}

// Is this a header that opening can give?
pub fn is_well_formed(header: Header) -> bool
    ensures { result ≡ O.well_formed header }
{
    if MOST_STEP < header.step {
        return false;
    }
    let spans = spans_of(header.shape);
    counts_fit(header.shape, spans, header.planes) && header.cells == cells_of(spans, header.planes)
}
