// Where each plane of a card stands, in card order, and the planes that are whole in the bytes behind a header.
#![tactic(auto)]

ghost use Rattle.std.specs.Prelude.{◌≡◌, cond, ℕ, ◌<◌, ◌≤◌, leb, ltb, get_or};
ghost use Rattle.sheet.specs.Limits.{layers_most};
ghost use Rattle.header.specs.Header as Hd;
ghost use Rattle.header.specs.Workings as W;
ghost use Rattle.order.specs.Workings as Wk;

use header::{CELL_BYTES, Header, Plan};
use sheet::MOST_LAYERS;

// The cells up to the end of layer k's plane at place p, in card order.
fn cells_through(spans: [u64; MOST_LAYERS], planes: [u64; MOST_LAYERS], k: usize, p: u64) -> u64
    requires { (k < layers_most) × ((j : ℕ) → (get_or spans j 0 ≤ W.plane_cells_most) × (get_or planes j 0 ≤ Hd.places_most)) × (p < Hd.places_most) }
    ensures { result ≡ Wk.cells_through spans planes k p }
{
    let mut cells = spans[k];
    for (j, (span, count)) in spans.iter().zip(planes.iter()).enumerate() {
        let from = if j < k { p } else { p + 1 };
        cells += *span * count.saturating_sub(from);
    }
    cells
}

// The cells before a layer's plane at place p, in card order; 0 where opening gives no such header or it names no such plane.
pub fn cells_before(header: Header, layer: usize, p: u64) -> u64
    ensures { result ≡ Wk.cells_before_in header layer p }
{
    if !header::is_well_formed(header) {
        return 0;
    }
    let counts = header.planes;
    if MOST_LAYERS <= layer {
        return 0;
    }
    if counts[layer] <= p {
        return 0;
    }
    let spans = header.spans();
    cells_through(spans, counts, layer, p) - spans[layer]
}

// The planes found whole so far in card order, and the cells passed.
#[derive(Clone, Copy)]
struct Found {
    planes: [u64; MOST_LAYERS],
    cells: u64,
}

// The cells of a layer's plane at place p; 0 where it has none there.
pub fn span_at(span: u64, count: u64, p: u64) -> u64
    ensures { result ≡ cond (ltb p count) span 0 }
{
    if p < count { span } else { 0 }
}

// 1 where a layer has a plane at place p and it ends within the room; otherwise 0.
fn whole_count(count: u64, p: u64, end: u64, room: u64) -> u64
    ensures { result ≡ cond (ltb p count) (cond (leb end room) 1 0) 0 }
{
    u64::from(p < count && end <= room)
}

// Passes the planes at place p, layer 0 first: one that ends within `room` cells is whole.
fn whole_at(
    spans: [u64; MOST_LAYERS],
    counts: [u64; MOST_LAYERS],
    p: u64,
    room: u64,
    before: Found,
) -> Found
    requires by_index { (j : ℕ) → (get_or spans j 0 ≤ W.plane_cells_most) × (get_or counts j 0 ≤ Hd.places_most) }
    requires walked { Wk.Walked spans counts room 0 p before.planes before.cells }
    ensures { Wk.Walked spans counts room layers_most p result.planes result.cells }
{
    let mut planes = before.planes;
    let mut cells = before.cells;
    // k indexes: behind a zip with iter_mut nothing is known of the planes, and the goal `returns` stays open.
    for (k, whole) in planes.iter_mut().enumerate() {
        cells += span_at(spans[k], counts[k], p);
        *whole += whole_count(counts[k], p, cells, room);
    }
    Found { planes, cells }
}

// A place that no layer has planes at or above: the largest count.
fn top_of(counts: [u64; MOST_LAYERS]) -> u64
    ensures { (j : ℕ) → j < layers_most → get_or counts j 0 ≤ result }
{
    counts.into_iter().max().unwrap_or(0)
}

// The planes that are whole in n bytes behind a header that opening can give; none behind any other.
// Where all cells are there they are all the planes; otherwise one walk in card order finds them, from the top place on as far as the room goes.
pub fn whole_planes(header: Header, n: usize) -> Plan
    ensures { result ≡ Wk.whole_in header n }
{
    let planes = [0u64; MOST_LAYERS];
    if !header::is_well_formed(header) {
        return Plan { planes };
    }
    let counts = header.planes;
    let room = (n / CELL_BYTES) as u64;
    if header.cells <= room {
        return Plan { planes: counts };
    }
    let spans = header.spans();
    let mut found = Found { planes, cells: 0 };
    for p in (0..top_of(counts)).rev() {
        if room < found.cells {
            break;
        }
        found = whole_at(spans, counts, p, room, found);
    }
    let planes = found.planes;
    Plan { planes }
}
