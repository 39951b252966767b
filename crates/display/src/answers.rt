// What is to be printed: of a card that is all there, and of an input that is longer than any card.
ghost use Rattle.std.specs.Prelude.{◌≡◌, ◌≤◌, pos, length, replicate, take, IfOk};
ghost use Rattle.sheet.specs.Limits.{points_most};
ghost use Rattle.sheet.specs.Sheet.{points};
ghost use Rattle.sheet.specs.Workings.Shapes.{points_in};
ghost use Rattle.text.specs.Line as L;
ghost use Rattle.header.specs.Opening as O;
ghost use Rattle.header.specs.Refusals as R;
ghost use Rattle.display.specs.Shown as S;
ghost use Rattle.display.specs.Workings as W;

use crate::{Ahead, BUFFER, CHUNK, Shown};
use header::Refusal;
use sheet::MOST_POINTS;

// The number of a refusal, 0 where there is none.
pub(crate) fn number_in<A: Copy>(answer: Result<A, Refusal>) -> u64
    ensures { result ≡ (R.details_in answer).number }
{
    match answer {
        Ok(_) => 0,
        Err(refusal) => header::details_of(refusal).number,
    }
}

// What is shown of a card that is all there, with its values at the front of their slice.
pub(crate) fn shown_of(
    bytes: &[u8],
    coefficients: &mut [i32],
    values: &mut [i64],
) -> Result<Shown, Refusal>
    requires { (coefficients.old ≡ replicate points_most (pos 0)) × (values.old ≡ replicate points_most (pos 0)) }
    ensures shows { S.as_shown result ≡ S.shown_of bytes.now }
    ensures fills { IfOk result (λ s. (take (points s.shape) values.new ≡ S.values_of bytes.now) × (points_in s.shape ≡ points s.shape) × (points s.shape ≤ points_most)) }
{
    let shape = header::open(bytes)?.header.shape;
    let points = sheet::points(shape);
    let reached = card::show(bytes, &mut coefficients[..points], &mut values[..points])?;
    Ok(Shown {
        shape,
        plan: reached.plan,
        figure: reached.figure,
    })
}

// The number of the refusal that opening gives, 0 where it gives none.
pub(crate) fn opening_number(bytes: &[u8]) -> u64
    ensures { result ≡ (O.opening bytes.now).refused.number }
{
    number_in(header::open(bytes))
}

// Is there a byte 10?
fn has_end(bytes: &[u8]) -> bool
    ensures { result ≡ L.has_end bytes.now }
{
    bytes.contains(&b'\n')
}

// What the bytes of one turn tell of the rest of an input: fewer than were asked for are its last.
pub(crate) fn ahead_of(bytes: &[u8]) -> Ahead
    ensures { result ≡ W.ahead_of bytes.now }
{
    if has_end(bytes) {
        return Ahead::End;
    }
    if bytes.len() < CHUNK {
        return Ahead::Nothing;
    }
    Ahead::More
}

// The number of the refusal of an input that is longer than any card: that of its first bytes, but for a line whose byte 10 comes later.
// That refusal, 6, has no line to name here: so a number is answered, and no `Refusal`.
fn long_number(number: u64, ends: bool) -> u64
    ensures { result ≡ W.long_number number ends }
{
    if number == 5 {
        if ends { 6 } else { 5 }
    } else {
        number
    }
}

// The number of an input's refusal, 0 where it is a card that is shown.
pub(crate) fn number_of(bytes: &[u8], ends: bool) -> u64
    ensures { result ≡ W.input_number bytes.now ends }
{
    if BUFFER <= bytes.len() {
        return long_number(opening_number(bytes), ends);
    }
    let mut coefficients = [0i32; MOST_POINTS];
    let mut values = [0i64; MOST_POINTS];
    number_in(shown_of(bytes, &mut coefficients, &mut values))
}

// How many bytes the roll of a card takes that is all there, with its lines at the front of the page.
pub(crate) fn rolled_of(
    bytes: &[u8],
    coefficients: &mut [i32],
    values: &mut [i64],
    page: &mut [u8],
) -> Result<usize, Refusal>
    requires { (coefficients.old ≡ replicate points_most (pos 0)) × (values.old ≡ replicate points_most (pos 0)) × (length page.old ≡ W.page_most) }
    ensures refuses { (R.details_in result).number ≡ (S.seen bytes.now).refused.number }
    ensures fills { IfOk result (λ n. (n ≤ W.page_most) × (take n page.new ≡ S.rolled_text bytes.now)) }
{
    let shape = header::open(bytes)?.header.shape;
    let points = sheet::points(shape);
    roll::roll(
        bytes,
        &mut coefficients[..points],
        &mut values[..points],
        page,
    )?;
    Ok(roll::page_length(shape))
}
