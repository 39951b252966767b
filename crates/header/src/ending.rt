// What stands behind the first six lines: the line of losses, where the card has one, and the line of cells.
ghost use Rattle.std.specs.Prelude.{◌≡◌, true, ℕ, suc, ◌+◌, ◌^◌, ◌≤◌, ◌<◌, length, get_or, IfOk};
ghost use Rattle.std.proofs.Math.Option.{none};
ghost use Rattle.std.proofs.lemmas.List.Edits.{sets};
ghost use Rattle.digits.specs.Digits as D;
ghost use Rattle.sheet.specs.Limits.{layers_most};
ghost use Rattle.sheet.specs.Lists.{tabulate, total};
ghost use Rattle.text.specs.Workings as Wk;
ghost use Rattle.header.specs.declared.Header.{Header};
ghost use Rattle.header.specs.Header as Hd;
ghost use Rattle.header.specs.Losses as L;
ghost use Rattle.header.specs.Opening as O;
ghost use Rattle.header.specs.Workings as W;

use crate::opening::{keyed_line, number_line};
use crate::{CELL_BYTES, Header, MOST_LOSSES, Opened, Refusal};
use sheet::MOST_LAYERS;

// The line of cells, by its number, and what follows it: where the header ends.
fn end_cells(bytes: &[u8], cells: u64, line: u64, at: usize) -> Result<usize, Refusal>
    requires { cells ≤ 2 ^ 32 }
    ensures { (h : Header) → h.cells ≡ cells → W.ended_by result h ≡ O.opening_cells bytes.now h none line at }
{
    let end = at + number_line(bytes, line, at, b"cells=", cells, cells)?.length;
    if CELL_BYTES * (cells as usize) < bytes.len() - end {
        return Err(Refusal::TrailingBytes);
    }
    Ok(end)
}

// The same as what opening answers; the header is only handed through.
fn open_cells(bytes: &[u8], header: Header, line: u64, at: usize) -> Result<Opened, Refusal>
    requires { header.cells ≤ 2 ^ 32 }
    ensures { (O.as_opening result none ≡ O.opening_cells bytes.now header none line at) × IfOk result (λ o. o.losses ≡ 0) }
{
    let length = end_cells(bytes, header.cells, line, at)?;
    Ok(Opened {
        header,
        losses: 0,
        length,
    })
}

// The closed losses of d = 1 to `planes`, put at a place.
fn close_layer(table: &mut [u64], at: usize, planes: u64)
    requires { (planes ≤ Hd.places_most) × (at + planes ≤ length table.old) }
    ensures { table.new ≡ sets table.old at (tabulate planes (λ j. D.loss (suc j))) }
{
    let own = &mut table[at..at + planes as usize];
    for (j, loss) in own.iter_mut().enumerate() {
        *loss = digits::loss(j as u64 + 1);
    }
}

// The closed losses of so many layers, at the front of the table; answers how many.
fn close_table(planes: [u64; MOST_LAYERS], layers: usize, table: &mut [u64]) -> usize
    requires { (layers ≤ layers_most) × ((k : ℕ) → get_or planes k 0 ≤ Hd.places_most) × (L.losses_most ≤ length table.old) }
    ensures { (result ≡ total (λ k. get_or planes k 0) layers) × (table.new ≡ sets table.old 0 (L.closed (λ k. get_or planes k 0) layers)) }
{
    let mut at: usize = 0;
    for count in &planes[..layers] {
        close_layer(table, at, *count);
        at += *count as usize;
    }
    at
}

// Puts numbers below 2^32 at the front of a table; where they do not fit it stays.
fn keep(numbers: &[u64], table: &mut [u32])
    requires { (i : ℕ) → get_or numbers.now i 0 < 2 ^ 32 }
    ensures { table.new ≡ Wk.putting table.old 0 numbers.now }
{
    if table.len() < numbers.len() {
        return;
    }
    // By place: what a `zip` with `iter_mut` leaves in the table, no proof knows.
    for (i, number) in numbers.iter().enumerate() {
        table[i] = *number as u32;
    }
}

// The line of losses, and what follows it. The numbers are kept where nothing is refused.
fn open_told(bytes: &[u8], header: Header, at: usize, losses: &mut [u32]) -> Result<Opened, Refusal>
    requires { (O.well_formed header ≡ true) × (at ≤ length bytes.now) }
    ensures { W.Answers result losses.old losses.new (O.opening_told bytes.now header at) }
{
    let line = keyed_line(bytes, 7, at, b"loss=")?;
    let mut numbers = [0u64; MOST_LOSSES];
    let layers = sheet::layer_count(header.shape);
    let count = close_table(header.planes, layers, &mut numbers);
    if !text::read_joined(line.value, &mut numbers[..count]) {
        return Err(Refusal::BadLine(7));
    }
    let length = end_cells(bytes, header.cells, 8, at + line.length)?;
    keep(&numbers[..count], losses);
    Ok(Opened {
        header,
        losses: count,
        length,
    })
}

// Line 7 and what follows it: the losses, where it starts with their key, and otherwise the cells of an old card.
pub(crate) fn open_losses(
    bytes: &[u8],
    header: Header,
    at: usize,
    losses: &mut [u32],
) -> Result<Opened, Refusal>
    requires { (O.well_formed header ≡ true) × (at ≤ length bytes.now) }
    ensures { W.Answers result losses.old losses.new (O.opening_losses bytes.now header at) }
{
    if text::starts_with(&bytes[at..], b"loss=") {
        return open_told(bytes, header, at, losses);
    }
    open_cells(bytes, header, 7, at)
}
