// Searching the table's last row, and the walk back from there to a plan.
ghost use Rattle.std.specs.Prelude.{◌≡◌, true, cond, ℕ, suc, ◌+◌, ◌-◌, ◌*◌, ◌<◌, ◌≤◌, leb, length, get_or, Ok};
ghost use Rattle.header.specs.Header as Hd;
ghost use Rattle.header.specs.Workings as W;
ghost use Rattle.header.specs.Plan.{layers_most};
ghost use Rattle.header.specs.Opening as O;
ghost use Rattle.figure.specs.Workings as Wk;
ghost use Rattle.planner.specs.Planning as N;
ghost use Rattle.planner.specs.Workings.Table as T;

use crate::Planned;
use crate::table::{NONE, ROW, TABLE, fill, firsts_of};
use figure::Rule;
use header::{Header, MOST_CELLS, MOST_LAYERS, Plan};

// The most that a plan may stand at by the limit, below NONE.
fn room_of(step: u64, limit: u64) -> u64
    requires { step ≤ limit }
    ensures { T.Room step limit result }
{
    (limit - step).min(NONE - 1)
}

// The last entry of a row that is for at most so many cells.
fn row_end(most: u64) -> usize
    ensures { T.RowEnd most result }
{
    most.min(MOST_CELLS as u64) as usize
}

// The first count of cells whose entry in the last row is within the room.
fn first_within(t: &[u64], room: u64) -> usize
    requires { length t.now ≡ T.table_length }
    ensures { T.FirstWithin (λ c. get_or t.now (layers_most * T.row_length + c) 0) room result }
{
    let row = &t[MOST_LAYERS * ROW..];
    for (c, standing) in row.iter().enumerate() {
        if *standing <= room {
            return c;
        }
    }
    MOST_CELLS
}

// The first of the least entries of the last row for at most `top` cells.
fn least_within(t: &[u64], top: usize) -> usize
    requires { (length t.now ≡ T.table_length) × (top < T.row_length) }
    ensures { T.LeastWithin (λ c. get_or t.now (layers_most * T.row_length + c) 0) top result }
{
    let row = &t[MOST_LAYERS * ROW..];
    let mut at: usize = 0;
    for (c, standing) in row[..top + 1].iter().enumerate() {
        if *standing < row[at] {
            at = c;
        }
    }
    at
}

// Where the first k + 1 layers stand in c cells when layer k takes `used` of them and adds `own`, and the layers before it stand as low as they can in the rest.
fn choice_at(t: &[u64], k: usize, rule: Rule, c: usize, used: usize, own: u64) -> u64
    requires { (k < layers_most) × (c < T.row_length) × (length t.now ≡ T.table_length) × (own ≤ T.none) × ((b : ℕ) → b ≤ c → get_or t.now (k * T.row_length + b) 0 ≤ T.none) }
    ensures { result ≡ cond (leb used c) (Wk.carried_in rule (get_or t.now (k * T.row_length + (c - used)) 0) + own) T.none }
{
    if c < used {
        return NONE;
    }
    figure::carried(rule, t[k * ROW + (c - used)]) + own
}

// The preferred count of layer k's planes among those that give the least that the first k + 1 layers can stand at in c cells.
fn preferred(
    t: &[u64],
    header: Header,
    losses: &[u32],
    k: usize,
    first: usize,
    span: u64,
    c: usize,
) -> u64
    requires header_value { (O.well_formed header ≡ true) × (k < layers_most) × (first ≡ Hd.total (Hd.planes_of header) k) × (span ≡ W.cells_at header.shape k) × (c < T.row_length) }
    requires rows { T.Rows (T.layers_of header losses.now) t.now layers_most }
    requires c_bound { T.best (T.layers_of header losses.now) (suc k) c < T.none }
    ensures { T.Preferred (T.layers_of header losses.now) k c result }
{
    let counts = header.planes;
    let top = counts[k];
    let rule = figure::rule_of(header, k);
    let least = t[(k + 1) * ROW + c];
    for n in 0..top {
        let own = figure::charge(losses, first, top, n, header.step);
        if choice_at(t, k, rule, c, (n * span) as usize, own) == least {
            return n;
        }
    }
    top
}

// The plan that the table gives in exactly `size` cells, from the last layer back.
fn trace(t: &[u64], header: Header, losses: &[u32], size: usize) -> [u64; MOST_LAYERS]
    requires header_value { (O.well_formed header ≡ true) × (size < T.row_length) }
    requires rows { T.Rows (T.layers_of header losses.now) t.now layers_most }
    requires size_bound { T.best (T.layers_of header losses.now) layers_most size < T.none }
    ensures { T.Traced (T.layers_of header losses.now) layers_most size (N.counts result) }
{
    let spans = header.spans();
    let firsts = firsts_of(header);
    let mut planes = [0u64; MOST_LAYERS];
    let mut c = size;
    // k is passed on; the three arrays zipped and reversed are no plainer.
    for k in (0..MOST_LAYERS).rev() {
        let n = preferred(t, header, losses, k, firsts[k], spans[k], c);
        planes[k] = n;
        c -= (n * spans[k]) as usize;
    }
    planes
}

// That plan, with its cells and its figure, which is what it stands at and the step.
fn plan_in(t: &[u64], header: Header, losses: &[u32], size: usize) -> Planned
    requires header_value { (O.well_formed header ≡ true) × (size < T.row_length) }
    requires rows { T.Rows (T.layers_of header losses.now) t.now layers_most }
    requires size_bound { T.best (T.layers_of header losses.now) layers_most size < T.none }
    ensures traced { T.Traced (T.layers_of header losses.now) layers_most size (N.counts result.plan.planes) }
    ensures answers { (result.cells ≡ size) × (result.figure ≡ header.step + T.best (T.layers_of header losses.now) layers_most size) }
{
    let planes = trace(t, header, losses, size);
    let figure = header.step + t[MOST_LAYERS * ROW + size];
    Planned {
        plan: Plan { planes },
        cells: size as u64,
        figure,
    }
}

// The best plan by a limit that is not below the step.
pub(crate) fn search_by_limit(header: Header, losses: &[u32], limit: u64) -> Planned
    requires { (O.well_formed header ≡ true) × (header.step ≤ limit) }
    ensures { N.as_planning (Ok result) ≡ N.found header losses.now (N.best_by_limit header losses.now limit) }
{
    let mut t = [NONE; TABLE];
    let mut held = [NONE; ROW];
    fill(&mut t, &mut held, header, losses);
    let room = room_of(header.step, limit);
    let size = first_within(&t, room);
    plan_in(&t, header, losses, size)
}

// The best plan in at most so many cells.
pub(crate) fn search_by_cells(header: Header, losses: &[u32], most: u64) -> Planned
    requires { O.well_formed header ≡ true }
    ensures { N.as_planning (Ok result) ≡ N.found header losses.now (N.best_by_cells header losses.now most) }
{
    let mut t = [NONE; TABLE];
    let mut held = [NONE; ROW];
    fill(&mut t, &mut held, header, losses);
    let top = row_end(most);
    let size = least_within(&t, top);
    plan_in(&t, header, losses, size)
}
