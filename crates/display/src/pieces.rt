// The pieces of text, each made by putting text behind text.
ghost use Rattle.std.specs.Prelude.{◌≡◌, [], ◌+◌, ◌≤◌, length};
ghost use Rattle.sheet.specs.Limits.{points_most};
ghost use Rattle.text.specs.Decimal as T;
ghost use Rattle.text.specs.Workings as W;
ghost use Rattle.text.specs.Line as L;
ghost use Rattle.text.specs.Joined as J;
ghost use Rattle.display.specs.Shown as S;
ghost use Rattle.display.specs.Compared as C;
ghost use Rattle.display.specs.Workings as Wk;

use crate::{MOST_PIECE, Piece, Shown};
use header::Plan;
use sheet::Shape;

// The lines before the values.
const SHEET_LINES: usize = 4;

fn nothing() -> Piece
    ensures { result ≡ Wk.piece_of [] }
{
    Piece {
        bytes: [0; MOST_PIECE],
        length: 0,
    }
}

// A piece with a text behind it.
fn with_text(piece: Piece, text: &[u8]) -> Piece
    requires { piece.length + length text.now ≤ Wk.piece_most }
    ensures { result ≡ Wk.extended piece text.now }
{
    let mut bytes = piece.bytes;
    let length = text::put(&mut bytes, piece.length, text);
    Piece { bytes, length }
}

// A piece with a number behind it.
fn with_number(piece: Piece, n: u64) -> Piece
    requires { piece.length + W.characters_most ≤ Wk.piece_most }
    ensures { result ≡ Wk.extended piece (T.decimal n) }
{
    let mut bytes = piece.bytes;
    let length = text::put_number(&mut bytes, piece.length, n);
    Piece { bytes, length }
}

// A piece with a value behind it, a minus before a negative one.
fn with_value(piece: Piece, value: i64) -> Piece
    requires { piece.length + 1 + W.characters_most ≤ Wk.piece_most }
    ensures { result ≡ Wk.extended piece (T.signed value) }
{
    if value < 0 {
        with_number(with_text(piece, b"-"), integers::magnitude(value))
    } else {
        with_number(piece, integers::magnitude(value))
    }
}

// The line of a key and a number.
pub(crate) fn line(key: &[u8], n: u64) -> Piece
    requires { length key.now ≤ Wk.key_most }
    ensures { result ≡ Wk.piece_of (L.line_text key.now n) }
{
    with_text(with_number(with_text(nothing(), key), n), b"\n")
}

// The line of the first point apart.
pub(crate) fn first_line(row: u64, column: u64) -> Piece
    ensures { result ≡ Wk.piece_of (C.first_text row column) }
{
    let first = with_text(with_number(with_text(nothing(), b"first="), row), b",");
    with_text(with_number(first, column), b"\n")
}

// A piece with numbers behind it, commas between.
fn with_list(piece: Piece, numbers: &[u64]) -> Piece
    requires { piece.length + length (J.joined numbers.now) ≤ Wk.piece_most }
    ensures { result ≡ Wk.extended piece (J.joined numbers.now) }
{
    let mut bytes = piece.bytes;
    let length = text::put_joined(&mut bytes, piece.length, numbers);
    Piece { bytes, length }
}

// The line of the planes loaded.
pub(crate) fn loaded_line(shape: Shape, plan: Plan) -> Piece
    ensures { result ≡ Wk.piece_of (S.loaded_text shape plan) }
{
    let planes = &plan.planes[..sheet::layer_count(shape)];
    with_text(with_list(with_text(nothing(), b"loaded="), planes), b"\n")
}

// What stands before a value: the key of its line, where it is the first.
fn row_start(column: usize) -> Piece
    ensures { result ≡ Wk.piece_of (Wk.row_start column) }
{
    if column == 0 {
        with_text(nothing(), b"row=")
    } else {
        nothing()
    }
}

// What stands behind a value: a comma, or the line's end behind the last.
fn with_end(piece: Piece, last: bool) -> Piece
    requires { piece.length + 1 ≤ Wk.piece_most }
    ensures { result ≡ Wk.extended piece (Wk.row_end last) }
{
    if last {
        with_text(piece, b"\n")
    } else {
        with_text(piece, b",")
    }
}

// Value i of a sheet of so many columns, with what stands before and behind it in its line; nothing where there is none.
pub(crate) fn value_piece(values: &[i64], cols: usize, i: usize) -> Piece
    ensures { result ≡ Wk.piece_of (Wk.value_piece values.now cols i) }
{
    let Some(value) = values.get(i) else {
        return nothing();
    };
    if cols == 0 {
        return nothing();
    }
    let column = i % cols;
    let piece = with_value(row_start(column), *value);
    with_end(piece, column + 1 == cols)
}

// Line i of those before the values.
#[tactic(auto, unfolding(header::specs::Header::ascii_from))]
fn sheet_line(shown: Shown, i: usize) -> Piece
    ensures { result ≡ Wk.piece_of (Wk.sheet_line shown i) }
{
    let shape = shown.shape;
    match i {
        0 => line(b"rows=", shape.rows as u64),
        1 => line(b"cols=", shape.cols as u64),
        2 => loaded_line(shape, shown.plan),
        _ => line(b"figure=", shown.figure),
    }
}

// The one line of a refused card.
pub(crate) fn refused_line(number: u64, i: usize) -> Piece
    ensures { result ≡ Wk.piece_of (Wk.refused_line number i) }
{
    if i == 0 {
        line(b"refused=", number)
    } else {
        nothing()
    }
}

// Piece i of the text that is printed, of what is shown or of a refusal's number; nothing past the last.
#[tactic(auto, unfolding(crate::specs::Workings::piece_at))]
pub fn piece_at(shown: Result<Shown, u64>, values: &[i64], i: usize) -> Piece
    ensures { result ≡ Wk.piece_of (Wk.piece_at shown values.now i) }
{
    match shown {
        Ok(shown) if i < SHEET_LINES => sheet_line(shown, i),
        Ok(shown) => value_piece(values, shown.shape.cols, i - SHEET_LINES),
        Err(number) => refused_line(number, i),
    }
}

// How many pieces the text has.
pub(crate) fn pieces(shown: Result<Shown, u64>, values: &[i64]) -> usize
    requires { length values.now ≤ points_most }
    ensures { result ≡ Wk.pieces shown values.now }
{
    match shown {
        Ok(_) => SHEET_LINES + values.len(),
        Err(_) => 1,
    }
}
