// Planes from rows: a byte of a plane is a byte of a row.
ghost use Rattle.std.specs.Prelude.{◌≡◌, true, ◌+◌, ◌*◌, ◌%◌, ◌<◌, ◌≤◌, length, get_or};
ghost use Rattle.std.proofs.lemmas.List.Edits.{sets};
ghost use Rattle.sheet.specs.Lists.{tabulate};
ghost use Rattle.sheet.specs.Sheet as S;
ghost use Rattle.header.specs.Header as Hd;
ghost use Rattle.order.specs.CardOrder as O;
ghost use Rattle.packing.specs.Workings.Words as W;

use crate::starts::BLOCKS;
use header::{Header, MOST_PLACES};

// The byte of a plane at place p in a row: turned over at an odd place.
fn byte_at(row: u32, p: u64) -> u8
    requires { p < Hd.places_most }
    ensures { result ≡ W.byte_at p row }
{
    let bits = ((row >> (8 * (p / 8))) % 256) as u8;
    if p % 2 == 0 { bits } else { 255 - bits }
}

// A plane from the rows that begin at `start`, as many bytes as there is room for.
fn put_plane(rows: &[u32], start: usize, p: u64, out: &mut [u8])
    requires { (p < Hd.places_most) × (start + 8 * length out.old ≤ length rows.now) }
    ensures { out.new ≡ tabulate (length out.old) (λ b. W.byte_at p (get_or rows.now (start + 8 * b + p % 8) 0)) }
{
    for (b, byte) in out.iter_mut().enumerate() {
        *byte = byte_at(rows[start + 8 * b + (p % 8) as usize], p);
    }
}

// The planes at place p of every layer that has one; answers the byte after them.
fn put_place(
    rows: &[u32],
    header: Header,
    starts: [usize; BLOCKS],
    p: u64,
    out: &mut [u8],
    at: usize,
) -> usize
    requires shape_value { (S.accepted header.shape ≡ true) × W.Starts header.shape starts × (p < Hd.places_most) × (length rows.now ≡ W.words_most) }
    requires shape_in_bounds { at + length (O.at_place header (W.row_plane header.shape rows.now) p (S.layers header.shape)) ≤ length out.old }
    ensures { (result ≡ at + length (O.at_place header (W.row_plane header.shape rows.now) p (S.layers header.shape))) × (out.new ≡ sets out.old at (O.at_place header (W.row_plane header.shape rows.now) p (S.layers header.shape))) }
{
    let mut to = at;
    for k in 0..sheet::layer_count(header.shape) {
        if p < header.planes[k] {
            let end = to + (starts[k + 1] - starts[k]) / 8;
            put_plane(rows, starts[k], p, &mut out[to..end]);
            to = end;
        }
    }
    to
}

// All planes in card order, from the highest place down; answers the byte after them.
pub(crate) fn put_body(
    rows: &[u32],
    header: Header,
    starts: [usize; BLOCKS],
    out: &mut [u8],
    at: usize,
) -> usize
    requires shape_value { (S.accepted header.shape ≡ true) × W.Starts header.shape starts × (length rows.now ≡ W.words_most) }
    requires rows_in_bounds { at + length (O.in_order header (W.row_plane header.shape rows.now)) ≤ length out.old }
    ensures { (result ≡ at + length (O.in_order header (W.row_plane header.shape rows.now))) × (out.new ≡ sets out.old at (O.in_order header (W.row_plane header.shape rows.now))) }
{
    let mut to = at;
    for p in (0..MOST_PLACES).rev() {
        to = put_place(rows, header, starts, p, out, to);
    }
    to
}
