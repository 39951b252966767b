// The text of a header.
ghost use Rattle.std.proofs.Math.Option.{some};
ghost use Rattle.std.specs.Prelude.{◌≡◌, ◌+◌, ◌≤◌, length};
ghost use Rattle.std.proofs.lemmas.List.Edits.{sets};
ghost use Rattle.text.specs.Joined.{joined};
ghost use Rattle.text.specs.Line as L;
ghost use Rattle.header.specs.Header as Hd;
ghost use Rattle.header.specs.Workings as W;

use crate::{Header, MOST_TEXT};
use sheet::Curve;

// Puts a line of a key and a number.
fn put_line(out: &mut [u8], at: usize, key: &[u8], n: u64) -> usize
    requires { at + length (L.line_text key.now n) ≤ length out.old }
    ensures { (result ≡ at + length (L.line_text key.now n)) × (out.new ≡ sets out.old at (L.line_text key.now n)) }
{
    let from = text::put(out, at, key);
    let end = text::put_number(out, from, n);
    out[end] = b'\n';
    end + 1
}

fn put_curve(out: &mut [u8], at: usize, curve: Curve) -> usize
    requires { at + length (Hd.curve_text curve) ≤ length out.old }
    ensures { (result ≡ at + length (Hd.curve_text curve)) × (out.new ≡ sets out.old at (Hd.curve_text curve)) }
{
    match curve {
        Curve::Linear => text::put(out, at, b"linear"),
        Curve::Cubic => text::put(out, at, b"cubic"),
    }
}

// Puts the first six lines, in a slice with room for any header, and answers their length.
fn put_first(out: &mut [u8], header: Header) -> usize
    requires { W.text_most ≤ length out.old }
    ensures { (result ≡ length (Hd.first_lines header)) × (out.new ≡ sets out.old 0 (Hd.first_lines header)) }
{
    let shape = header.shape;
    let rows = shape.rows;
    let cols = shape.cols;
    let levels = shape.levels;
    let curve = header.curve;
    let planes = header.planes;
    let a = put_line(out, 0, b"rows=", rows as u64);
    let b = put_line(out, a, b"cols=", cols as u64);
    let c = put_line(out, b, b"levels=", levels as u64);
    let d = text::put(out, c, b"curve=");
    let e = put_curve(out, d, curve);
    out[e] = b'\n';
    let f = put_line(out, e + 1, b"step=", header.step);
    let g = text::put(out, f, b"planes=");
    let layers = sheet::layer_count(shape);
    let h = text::put_joined(out, g, &planes[..layers]);
    out[h] = b'\n';
    h + 1
}

// Puts the line of losses.
fn put_losses(out: &mut [u8], at: usize, losses: &[u64]) -> usize
    requires { at + length (Hd.loss_text (some losses.now)) ≤ length out.old }
    ensures { (result ≡ at + length (Hd.loss_text (some losses.now))) × (out.new ≡ sets out.old at (Hd.loss_text (some losses.now))) }
{
    let from = text::put(out, at, b"loss=");
    let end = text::put_joined(out, from, losses);
    out[end] = b'\n';
    end + 1
}

// Puts all lines, where there is room for any header with these losses.
fn put_lines(out: &mut [u8], header: Header, losses: &[u64]) -> usize
    requires { W.text_most + length (joined losses.now) ≤ length out.old }
    ensures { (result ≡ length (Hd.header_text header (some losses.now))) × (out.new ≡ sets out.old 0 (Hd.header_text header (some losses.now))) }
{
    let first = put_first(out, header);
    let end = put_losses(out, first, losses);
    put_line(out, end, b"cells=", header.cells)
}

// Puts the text of a header and its losses at the front of the output and answers its length. Where there is not room for any header with these losses,
// nothing is put, and the answer is 0.
pub fn put_header(out: &mut [u8], header: Header, losses: &[u64]) -> usize
    ensures { (result ≡ W.header_end out.old header losses.now) × (out.new ≡ W.putting_header out.old header losses.now) }
{
    let room = out.len();
    if room < MOST_TEXT {
        return 0;
    }
    if !text::joined_fits(losses, room - MOST_TEXT) {
        return 0;
    }
    put_lines(out, header, losses)
}
