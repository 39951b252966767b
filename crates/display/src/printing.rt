// Printing what a card shows, its roll, and where two cards are apart. No contract can speak of what was written to a file, so what is written is to be read:
// one loop over all pieces (`print`), the one line of a refusal (`refuse`), the one write of a roll (`roll`), and two lines and one write of two cards
// (`compare`). The pieces and the pages are promised, and so are the answers.
ghost use Rattle.std.specs.Prelude.{◌≡◌, ◌≤◌, length};
ghost use Rattle.sheet.specs.Limits.{points_most};
ghost use Rattle.display.specs.Workings as W;

use crate::answers::{number_in, number_of, rolled_of, shown_of};
use crate::comparing::compared_of;
use crate::pieces::{first_line, line, piece_at, pieces, refused_line};
use crate::{BUFFER, MOST_MARKS, MOST_PAGE, Piece, STDOUT, Shown};
use sheet::MOST_POINTS;

// Over `io`, which needs no runtime. Whether all was written is passed over.
fn write(piece: Piece)
    requires { piece.length ≤ W.piece_most }
{
    io::write_all(STDOUT, &piece.bytes[..piece.length]);
}

// All pieces, in order.
fn print(shown: Result<Shown, u64>, values: &[i64])
    requires { length values.now ≤ points_most }
{
    for i in 0..pieces(shown, values) {
        write(piece_at(shown, values, i));
    }
}

// The one line of a refusal, whose number it answers.
fn refuse(number: u64) -> u64
    ensures { result ≡ number }
{
    write(refused_line(number, 0));
    number
}

// Prints what a card shows, and answers the number of its refusal, 0 where it is shown. The bytes are all of an input, or its first `BUFFER` and `ends`
// says whether a byte 10 follows them.
pub fn show(bytes: &[u8], ends: bool) -> u64
    ensures { result ≡ W.input_number bytes.now ends }
{
    if BUFFER <= bytes.len() {
        return refuse(number_of(bytes, ends));
    }
    let mut coefficients = [0i32; MOST_POINTS];
    let mut values = [0i64; MOST_POINTS];
    let shown = shown_of(bytes, &mut coefficients, &mut values);
    let points = shown.map_or(0, |shown| sheet::points(shown.shape));
    print(
        shown.map_err(|refusal| header::details_of(refusal).number),
        &values[..points],
    );
    number_in(shown)
}

// Prints a card's roll, and answers as `show` does. A test and two arrays are all that they share; a closure over slices of both would be longer.
pub fn roll(bytes: &[u8], ends: bool) -> u64
    ensures { result ≡ W.input_number bytes.now ends }
{
    if BUFFER <= bytes.len() {
        return refuse(number_of(bytes, ends));
    }
    let mut coefficients = [0i32; MOST_POINTS];
    let mut values = [0i64; MOST_POINTS];
    let mut page = [0u8; MOST_PAGE];
    match rolled_of(bytes, &mut coefficients, &mut values, &mut page) {
        Ok(length) => {
            io::write_all(STDOUT, &page[..length]);
            0
        }
        Err(refusal) => refuse(header::details_of(refusal).number),
    }
}

// Prints where two cards are apart, and answers the number of their refusal, 0 where they are compared. Each is handed in as to `show`.
pub fn compare(first: &[u8], ends1: bool, second: &[u8], ends2: bool) -> u64
    ensures { result ≡ W.both_number first.now ends1 second.now ends2 }
{
    let number1 = number_of(first, ends1);
    if number1 != 0 {
        return refuse(number1);
    }
    let number2 = number_of(second, ends2);
    if number2 != 0 {
        return refuse(number2);
    }
    let mut coefficients1 = [0i32; MOST_POINTS];
    let mut values1 = [0i64; MOST_POINTS];
    let mut coefficients2 = [0i32; MOST_POINTS];
    let mut values2 = [0i64; MOST_POINTS];
    let mut apart = [0u8; MOST_POINTS];
    let mut page = [0u8; MOST_MARKS];
    match compared_of(
        first,
        second,
        &mut coefficients1,
        &mut values1,
        &mut coefficients2,
        &mut values2,
        &mut apart,
        &mut page,
    ) {
        Ok(compared) => {
            write(line(b"apart=", compared.apart));
            write(first_line(compared.row, compared.column));
            io::write_all(STDOUT, &page[..compared.length]);
            0
        }
        Err(refusal) => refuse(header::details_of(refusal).number),
    }
}
