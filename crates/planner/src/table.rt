// The table: the least that the first k layers can stand at in exactly c cells, for every k and c.
ghost use Rattle.std.specs.Prelude.{◌≡◌, true, List, ℕ, suc, ◌+◌, ◌*◌, ◌<◌, ◌≤◌, length, get_or, replicate};
ghost use Rattle.header.specs.Header as Hd;
ghost use Rattle.header.specs.Workings as W;
ghost use Rattle.header.specs.Plan.{layers_most};
ghost use Rattle.header.specs.Opening as O;
ghost use Rattle.planner.specs.Workings.Table as T;

use header::{Header, MOST_CELLS, MOST_LAYERS};

// No plan of a card stands this high: it stands for no plan in the table, where a number is quicker than an Option.
pub(crate) const NONE: u64 = 1 << 60;

// A row has an entry for each number of cells, and there is one for each number of layers.
pub(crate) const ROW: usize = MOST_CELLS + 1;

pub(crate) const TABLE: usize = (MOST_LAYERS + 1) * ROW;

// Where each layer's numbers begin, behind those of the layers before it.
pub(crate) fn firsts_of(header: Header) -> [usize; MOST_LAYERS]
    requires { O.well_formed header ≡ true }
    ensures { (k : ℕ) → k < layers_most → get_or result k 0 ≡ Hd.total (Hd.planes_of header) k }
{
    let counts = header.planes;
    let mut firsts = [0usize; MOST_LAYERS];
    let mut passed: usize = 0;
    // k indexes: behind a zip with iter_mut nothing is known of what was written, and the goal `returns` stays open.
    for (k, first) in firsts.iter_mut().enumerate() {
        *first = passed;
        passed += counts[k] as usize;
    }
    firsts
}

// What the entries of row k that are reached are carried to by layer k: once for all counts of its planes.
fn carry_row(t: &[u64], held: &mut [u64], header: Header, k: usize, reach: usize)
    requires { (k < layers_most) × (reach < T.row_length) × (length held.old ≡ T.row_length) × (length t.now ≡ T.table_length) }
    ensures { (ls : List ℕ) → T.Rows (T.layers_of header ls) t.now k → T.Held (T.layers_of header ls) k held.new reach }
{
    let rule = figure::rule_of(header, k);
    let row = &t[k * ROW..(k + 1) * ROW];
    // c indexes: behind a zip with iter_mut nothing is known of what was written, and the goal `returns` stays open.
    for (c, standing) in row[..reach + 1].iter().enumerate() {
        held[c] = figure::carried(rule, *standing);
    }
}

// A pass over entries: each becomes the lesser of itself and of what is held for it with `own` added.
fn pass(entries: &mut [u64], held: &[u64], own: u64)
    requires { (length entries.old ≤ length held.now) × (own ≤ T.none) × ((b : ℕ) → b < length entries.old → get_or held.now b 0 ≤ 2 * T.none) }
    ensures { T.Passed (λ b. get_or held.now b 0 + own) 0 entries.old entries.new (length entries.old) }
{
    // b indexes: behind a zip with iter_mut nothing is known of what was written, and the goal `returns` stays open.
    for (b, entry) in entries.iter_mut().enumerate() {
        *entry = (*entry).min(held[b] + own);
    }
}

// Row k + 1, from what row k is carried to: for each count of layer k's planes a pass over the cells that the layers before it can reach, and the cells of these planes more.
fn fill_row(
    t: &mut [u64],
    held: &[u64],
    header: Header,
    losses: &[u32],
    k: usize,
    first: usize,
    span: u64,
    reach: usize,
)
    requires header_value { (O.well_formed header ≡ true) × (k < layers_most) × (first ≡ Hd.total (Hd.planes_of header) k) × (span ≡ W.cells_at header.shape k) × (reach ≡ T.reach (T.layers_of header losses.now) k) }
    requires held { T.Held (T.layers_of header losses.now) k held.now reach }
    requires rows { T.Rows (T.layers_of header losses.now) t.old k }
    ensures { T.Rows (T.layers_of header losses.now) t.new (suc k) }
{
    let counts = header.planes;
    let top = counts[k];
    for n in 0..=top {
        let own = figure::charge(losses, first, top, n, header.step);
        let to = (k + 1) * ROW + (n * span) as usize;
        pass(&mut t[to..to + reach + 1], held, own);
    }
}

// The whole table, from one that holds nothing; `held` has room for a row.
pub(crate) fn fill(t: &mut [u64], held: &mut [u64], header: Header, losses: &[u32])
    requires { (O.well_formed header ≡ true) × (t.old ≡ replicate T.table_length T.none) × (length held.old ≡ T.row_length) }
    ensures { T.Rows (T.layers_of header losses.now) t.new layers_most }
{
    t[0] = 0;
    let counts = header.planes;
    let spans = header.spans();
    let mut first: usize = 0;
    let mut reach: usize = 0;
    for (k, (count, span)) in counts.iter().zip(spans.iter()).enumerate() {
        carry_row(t, held, header, k, reach);
        fill_row(t, held, header, losses, k, first, *span, reach);
        first += *count as usize;
        reach += (*count * *span) as usize;
    }
}
