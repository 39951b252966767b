// Opening any bytes: the first six lines in turn, and then what stands behind them.
ghost use Rattle.std.specs.Prelude.{◌≡◌, true, length, drop, ℕ, IfOk, MatchResult};
ghost use Rattle.sheet.specs.declared.Curve.{Curve};
ghost use Rattle.header.specs.Refusals as R;
ghost use Rattle.std.proofs.Math.Option.{none};
ghost use Rattle.sheet.specs.Sheet as S;
ghost use Rattle.text.specs.Workings as Wk;
ghost use Rattle.text.specs.Line as T;
ghost use Rattle.header.specs.Header as Hd;
ghost use Rattle.header.specs.Losses as L;
ghost use Rattle.header.specs.Opening as O;
ghost use Rattle.header.specs.Workings as W;

use crate::ending::open_losses;
use crate::planes::{cells_of, limits, spans_of};
use crate::{Header, Opened, Refusal};
use sheet::{Curve, MOST_LAYERS, MOST_LEVELS, MOST_POINTS, MOST_STEP, Shape};
use text::{Line, LineError};

// What line n is refused for where it is not read.
fn line_refusal(error: LineError, n: u64) -> Refusal
    ensures { result ≡ W.line_refused n error }
{
    match error {
        LineError::Short => Refusal::HeaderCut,
        LineError::Wrong => Refusal::BadLine(n),
    }
}

// Line n: a key and a number from low to high.
#[tactic(auto, unfolding(crate::specs::Workings::refusing))]
pub(crate) fn number_line(
    bytes: &[u8],
    n: u64,
    at: usize,
    key: &[u8],
    low: u64,
    high: u64,
) -> Result<Line<u64>, Refusal>
    ensures { result ≡ W.refusing n (T.line_at key.now low high (drop at bytes.now)) }
{
    text::read_line(bytes, at, key, low, high).map_err(|error| line_refusal(error, n))
}

// Line n: what stands behind its key.
#[tactic(auto, using(text::proofs::Search::starts_length, text::proofs::Lines::tail), unfolding(crate::specs::Workings::refusing, crate::specs::Workings::keyed_at, text::specs::Line::place_of, text::specs::Line::has_end))]
pub(crate) fn keyed_line<'a>(
    bytes: &'a [u8],
    n: u64,
    at: usize,
    key: &[u8],
) -> Result<Line<&'a [u8]>, Refusal>
    ensures { W.lent_line result ≡ W.refusing n (W.keyed_at key.now (drop at bytes.now)) }
{
    let end = text::find(bytes, at, b'\n').ok_or(Refusal::HeaderCut)?;
    let line = &bytes[at..end];
    if !text::starts_with(line, key) {
        return Err(Refusal::BadLine(n));
    }
    Ok(Line {
        value: &line[key.len()..],
        length: end - at + 1,
    })
}

// The curve of a word.
fn curve_of(word: &[u8]) -> Option<Curve>
    ensures { result ≡ W.curve_in word.now }
{
    if word == b"linear".as_slice() {
        return Some(Curve::Linear);
    }
    (word == b"cubic".as_slice()).then_some(Curve::Cubic)
}

// Line 4.
fn curve_line(bytes: &[u8], at: usize) -> Result<Line<Curve>, Refusal>
    ensures { result ≡ W.refusing 4 (O.curve_line (drop at bytes.now)) }
{
    let line = keyed_line(bytes, 4, at, b"curve=")?;
    let value = curve_of(line.value).ok_or(Refusal::BadLine(4))?;
    Ok(Line {
        value,
        length: line.length,
    })
}

// Line 6: one count for each layer, 0 past the last; and the cells of all their planes, by the cells that the counts are tested by.
fn planes_line(
    bytes: &[u8],
    shape: Shape,
    at: usize,
) -> Result<(Line<[u64; MOST_LAYERS]>, u64), Refusal>
    requires { S.accepted shape ≡ true }
    ensures { MatchResult result (λ l. W.PlanesRead l.0 bytes.now shape at × (l.1 ≡ Hd.cells_of shape l.0.value)) (λ r. (curve : Curve) (step : ℕ) → O.opening_planes bytes.now shape curve step at ≡ O.not_opened (R.details_of r)) }
{
    let line = keyed_line(bytes, 6, at, b"planes=")?;
    let spans = spans_of(shape);
    let mut value = limits(spans);
    let layers = sheet::layer_count(shape);
    if !text::read_joined(line.value, &mut value[..layers]) {
        return Err(Refusal::BadLine(6));
    }
    let cells = cells_of(spans, value);
    let length = line.length;
    Ok((Line { value, length }, cells))
}

// The first six lines: line 2 has at most so many columns that the points are at most 8,192.
fn open_first(bytes: &[u8]) -> Result<Opened, Refusal>
    ensures { O.as_opening result none ≡ O.opening_rows bytes.now }
{
    let rows = number_line(bytes, 1, 0, b"rows=", 1, MOST_POINTS as u64)?;
    let at = rows.length;
    let cols = number_line(bytes, 2, at, b"cols=", 1, MOST_POINTS as u64 / rows.value)?;
    let at = at + cols.length;
    let levels = number_line(bytes, 3, at, b"levels=", 0, MOST_LEVELS as u64)?;
    let at = at + levels.length;
    let curve = curve_line(bytes, at)?;
    let at = at + curve.length;
    let step = number_line(bytes, 5, at, b"step=", 0, MOST_STEP)?;
    let at = at + step.length;
    let shape = sheet::sheet_of(
        rows.value as usize,
        cols.value as usize,
        levels.value as usize,
    );
    let (last, cells) = planes_line(bytes, shape, at)?;
    let planes = last.value;
    Ok(Opened {
        header: Header {
            shape,
            curve: curve.value,
            step: step.value,
            planes,
            cells,
        },
        losses: 0,
        length: at + last.length,
    })
}

// Opens any bytes: the header and the losses that its line tells, put at the front of a lent table that has room for them, or the first thing that is wrong.
pub fn open_with_losses(bytes: &[u8], losses: &mut [u32]) -> Result<Opened, Refusal>
    ensures opens { O.as_opening result (O.opening bytes.now).losses ≡ O.opening bytes.now }
    ensures tells { IfOk result (λ o. o.losses ≡ length (L.told (O.opening bytes.now).losses)) × (losses.new ≡ Wk.putting losses.old 0 (L.told (O.opening bytes.now).losses)) }
{
    let first = open_first(bytes)?;
    open_losses(bytes, first.header, first.length, losses)
}

// Opens any bytes, where only the header is asked for.
pub fn open(bytes: &[u8]) -> Result<Opened, Refusal>
    ensures opens { O.as_opening result (O.opening bytes.now).losses ≡ O.opening bytes.now }
    ensures tells { IfOk result (λ o. o.losses ≡ length (L.told (O.opening bytes.now).losses)) }
{
    open_with_losses(bytes, &mut [])
}
