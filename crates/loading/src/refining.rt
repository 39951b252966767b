// One plane more, added to coefficients.
ghost use Rattle.std.specs.Prelude.{◌≡◌, true, not, ℕ, ◌+◌, ◌*◌, ◌/◌, ◌^◌, ◌<◌, ◌≤◌, pos, ◌+ℤ◌, ◌*ℤ◌, length};
ghost use Rattle.integers.specs.Distance.{Within};
ghost use Rattle.digits.specs.Digits.{weight, holds};
ghost use Rattle.sheet.specs.Limits.{points_most};
ghost use Rattle.sheet.specs.Lists.{at};
ghost use Rattle.sheet.specs.Sheet as S;
ghost use Rattle.header.specs.Header as Hd;
ghost use Rattle.packing.specs.Planes as P;
ghost use Rattle.loading.specs.InBytes as L;
ghost use Rattle.loading.specs.Workings.Words as W;
ghost use Rattle.loading.specs.Workings.Calls as C;

use crate::loading::is_loadable;
use crate::walking::is_fine;
use header::{CELL_BYTES, Header, Refusal};
use sheet::Shape;

// The reach of 23 digits: from -2,796,202 to 5,592,405.
const LEAST_COEFFICIENT: i32 = -2796202;

const MOST_COEFFICIENT: i32 = 5592405;

// Do 23 digits not hold a number?
fn is_outside(q: i32) -> bool
    ensures { result ≡ not (holds Hd.places_most q) }
{
    q < LEAST_COEFFICIENT || MOST_COEFFICIENT < q
}

// Is every coefficient one of 23 digits? Those that are not are counted: with no way out of the loop, several are looked at at a time.
fn all_held(coefficients: &[i32]) -> bool
    requires { length coefficients.now ≤ points_most }
    ensures { result ≡ P.all_held coefficients.now }
{
    let mut number: u32 = 0;
    for q in coefficients {
        number += u32::from(is_outside(*q));
    }
    number == 0
}

// (-2) to the power p.
fn weight_of(p: u64) -> i32
    requires { p < Hd.places_most }
    ensures { result ≡ weight p }
{
    let size = (1u32 << p) as i32;
    if p % 2 == 0 { size } else { 0 - size }
}

// Bit i of the bytes from `from` on.
fn bit_at(bytes: &[u8], from: usize, i: usize) -> u8
    requires { from + i / 8 < length bytes.now }
    ensures { result ≡ L.bit_at bytes.now from i }
{
    (bytes[from + i / 8] >> (i % 8)) % 2
}

// The n digits from bit i on, times their weight `scale`, added to the coefficients on a line.
fn add_line(
    bytes: &[u8],
    from: usize,
    i: usize,
    scale: i32,
    n: usize,
    coefficients: &mut [i32],
    first: usize,
    stride: usize,
)
    requires n_in_bounds { (from + (i + n + 7) / 8 ≤ length bytes.now) × (i + n ≤ length coefficients.old) × Within (2 ^ Hd.places_most) scale }
    requires stride_nonzero { (1 < n → 0 < stride) × ((j : ℕ) → j < n → (first + j * stride < length coefficients.old) × (holds Hd.places_most (at coefficients.old (first + j * stride)) ≡ true)) }
    ensures { W.Scattered (λ j. first + j * stride) n (λ j. at coefficients.old (first + j * stride) +ℤ pos (L.bit_at bytes.now from (i + j)) *ℤ scale) coefficients.old coefficients.new }
{
    for j in 0..n {
        let at = first + j * stride;
        let d = bit_at(bytes, from, i + j) as i32;
        coefficients[at] += d * scale;
    }
}

// The digits of a layer's plane at place p, which stands at `from`, added to its points' coefficients.
fn add_digits(
    bytes: &[u8],
    from: usize,
    shape: Shape,
    layer: usize,
    p: u64,
    coefficients: &mut [i32],
)
    requires shape_value { (S.accepted shape ≡ true) × (layer < S.layers shape) × (p < Hd.places_most) }
    requires coefficients_len { (length coefficients.old ≡ S.points shape) × (P.all_held coefficients.old ≡ true) × (from + Hd.cell_bytes * Hd.plane_cells shape layer ≤ length bytes.now) }
    ensures { coefficients.new ≡ L.coefs_plus shape layer p (L.bit_at bytes.now from) coefficients.old }
{
    let l = sheet::layer_lines(shape, layer);
    let scale = weight_of(p);
    for t in 0..l.sheets * l.lines {
        add_line(
            bytes,
            from,
            t * l.points,
            scale,
            l.points,
            coefficients,
            sheet::line_start(l, t),
            l.stride,
        );
    }
}

// The plane of a layer at place p, which the header names: where it is whole and the coefficients are held, checked and added.
fn add_named(
    bytes: &[u8],
    header: Header,
    at: usize,
    layer: usize,
    p: u64,
    coefficients: &mut [i32],
) -> Result<(), Refusal>
    requires { (C.loadable coefficients.old bytes.now header at ≡ true) × (layer < S.layers header.shape) × (p < Hd.planes_of header layer) }
    ensures { C.as_loading result coefficients.new ≡ C.adding coefficients.old bytes.now header at layer p }
{
    let shape = header.shape;
    let counts = header.planes;
    let cells = header::plane_cells(shape, layer) as usize;
    let from = at + CELL_BYTES * order::cells_before(header, layer, p) as usize;
    if bytes.len() < from + CELL_BYTES * cells {
        return Err(Refusal::BadLengths);
    }
    if !all_held(coefficients) {
        return Err(Refusal::BadCoefficient);
    }
    let n = sheet::layer_size(shape, layer);
    if !is_fine(bytes, from, n, cells, p + 1 == counts[layer]) {
        return Err(Refusal::BadPlane(layer as u64));
    }
    add_digits(bytes, from, shape, layer, p, coefficients);
    Ok(())
}

// Adds one plane of a card to coefficients, the plane of a layer at place p. A refusal changes nothing.
pub fn add_plane(
    bytes: &[u8],
    header: Header,
    at: usize,
    layer: usize,
    p: u64,
    coefficients: &mut [i32],
) -> Result<(), Refusal>
    ensures { C.as_loading result coefficients.new ≡ C.adding coefficients.old bytes.now header at layer p }
{
    if !is_loadable(bytes, header, at, coefficients) {
        return Err(Refusal::BadLengths);
    }
    let counts = header.planes;
    if sheet::layer_count(header.shape) <= layer {
        return Err(Refusal::BadLengths);
    }
    if counts[layer] <= p {
        return Err(Refusal::BadLengths);
    }
    add_named(bytes, header, at, layer, p, coefficients)
}
