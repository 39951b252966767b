// Planes from a card's bytes in card order: one walk, which checks each plane and hands it on.
ghost use Rattle.std.specs.Prelude.{◌≡◌, true, eqb, ℕ, suc, ◌+◌, ◌*◌, ◌-◌, ◌/◌, ◌<◌, ◌≤◌, List, length, get_or, replicate, IfOk};
ghost use Rattle.sheet.specs.Limits.{layers_most};
ghost use Rattle.sheet.specs.Lists.{tabulate};
ghost use Rattle.sheet.specs.Sheet as S;
ghost use Rattle.sheet.specs.Workings.Shapes.{size_at};
ghost use Rattle.header.specs.Header as Hd;
ghost use Rattle.header.specs.Workings as Wk;
ghost use Rattle.header.specs.Plan as N;
ghost use Rattle.header.specs.Opening as O;
ghost use Rattle.order.specs.CardOrder as K;
ghost use Rattle.order.specs.Workings as Ow;
ghost use Rattle.packing.specs.Planes as P;
ghost use Rattle.packing.specs.Workings.Words.{words_most};
ghost use Rattle.loading.specs.InBytes as L;
ghost use Rattle.loading.specs.Workings.Words as W;

use crate::BadLayer;
use header::{CELL_BYTES, CELL_POINTS, Header, MOST_PLACES, Plan};
use sheet::MOST_LAYERS;

// Is every byte of a range 0?
fn all_zero(bytes: &[u8], from: usize, to: usize) -> bool
    requires { (from ≤ to) × (to ≤ length bytes.now) }
    ensures { result ≡ P.all_below (λ b. eqb (get_or bytes.now (from + b) 0) 0) (to - from) }
{
    for byte in &bytes[from..to] {
        if *byte != 0 {
            return false;
        }
    }
    true
}

// Are the spare bits of a plane of n points 0? They begin inside byte n / 8.
fn spare_zero(bytes: &[u8], from: usize, n: usize, cells: usize) -> bool
    requires { (n ≤ Hd.cell_points * cells) × (cells ≤ words_most) × (from + Hd.cell_bytes * cells ≤ length bytes.now) }
    ensures { result ≡ L.clean (L.bit_at bytes.now from) n cells }
{
    let end = from + CELL_BYTES * cells;
    let part = from + n / 8;
    if n % 8 == 0 {
        return all_zero(bytes, part, end);
    }
    if bytes[part] >> (n % 8) != 0 {
        return false;
    }
    all_zero(bytes, part + 1, end)
}

// Is a plane of n points fine: no spare bit set, and a 1 where it is its layer's top plane?
pub(crate) fn is_fine(bytes: &[u8], from: usize, n: usize, cells: usize, top: bool) -> bool
    requires { (n ≤ Hd.cell_points * cells) × (cells ≤ words_most) × (from + Hd.cell_bytes * cells ≤ length bytes.now) }
    ensures { result ≡ L.fine_bits (L.bit_at bytes.now from) n cells top }
{
    if !spare_zero(bytes, from, n, cells) {
        return false;
    }
    if top {
        return !all_zero(bytes, from, from + CELL_BYTES * cells);
    }
    true
}

// Is the plane at place p one of the top `want` of `count`?
fn is_among_top(count: u64, want: u64, p: u64) -> bool
    ensures { result ≡ L.among_top count want p }
{
    if count <= p {
        return false;
    }
    if want < count - p {
        return false;
    }
    true
}

// What a walk does with each plane that is fine. `Kept` says of some words that the planes taken so far add up to them, with n places to come.
pub(crate) trait Taking {
    ghost Kept: { List ℕ → ℕ → Self → Type 0 };

    // Takes the plane of n points that stands at `from`, whose words begin at `start`.
    fn take(&mut self, bytes: &[u8], from: usize, n: usize, start: usize)
        requires { W.Takes (λ ws p. Kept ws (suc p) self.old) bytes.now from ((n + 7) / 8) start }
        ensures { (ws : List ℕ) (p : ℕ) → Kept ws (suc p) self.old → Kept (W.words_with ws start (8 * ((n + 7) / 8)) p (L.bit_at bytes.now from)) (suc p) self.new };

    // Goes on to the place below.
    fn descend(&mut self)
        ensures { (ws : List ℕ) (n : ℕ) → Kept ws (suc n) self.old → Kept ws n self.new };
}

// The planes are checked alone, and nothing is kept of them.
#[derive(Clone, Copy)]
pub(crate) struct Checking;

impl Taking for Checking {
    ghost Kept = { λ ws n it. Unit {0} };

    fn take(&mut self, _bytes: &[u8], _from: usize, _n: usize, _start: usize) {}

    fn descend(&mut self) {}
}

// A walk over the planes of a plan in card order, with the points of each layer and the cells of one plane of it.
#[derive(Clone, Copy)]
pub(crate) struct Walk<'a> {
    bytes: &'a [u8],
    at: usize,
    header: Header,
    plan: Plan,
    sizes: [usize; MOST_LAYERS],
    spans: [u64; MOST_LAYERS],
    ghost formed: { O.well_formed header ≡ true },
    ghost room: { at ≤ length bytes.now },
    ghost sizes_are: { sizes ≡ tabulate layers_most (size_at header.shape) },
    ghost spans_are: { spans ≡ Wk.spans_of header.shape },
    ghost all_there: { W.AllThere header at bytes.now (N.loads plan) },
}

impl<'a> Walk<'a> {
    pub(crate) fn new(bytes: &'a [u8], at: usize, header: Header, plan: Plan) -> Walk<'a>
        requires { (O.well_formed header ≡ true) × (at ≤ length bytes.now) × W.AllThere header at bytes.now (N.loads plan) }
        ensures { (result.bytes.now ≡ bytes.now) × (result.at ≡ at) × (result.header ≡ header) × (result.plan ≡ plan) }
    {
        Walk {
            bytes,
            at,
            header,
            plan,
            sizes: std::array::from_fn(|k| sheet::layer_size(header.shape, k)),
            spans: header.spans(),
        }
    }

    // The planes at place p, layer after layer: those of the plan are checked and taken, until one is not fine. `before` cells stand before them; the
    // answer is those up to their end.
    fn place<T: Taking>(&self, p: u64, before: usize, taking: &mut T) -> Result<usize, BadLayer>
        requires place { (p < Hd.places_most) × (before ≡ K.cells_before self.now.header 0 p) }
        requires kept { W.Holding (λ ws. T.Kept ws (suc p) taking.old) self.now.header self.now.at self.now.bytes.now (N.loads self.now.plan) (Ow.slot_no self.now.header 0 p) }
        ensures checked { W.PlaceChecked self.now.header self.now.at self.now.bytes.now (N.loads self.now.plan) p result }
        ensures kept { IfOk result (λ c. W.Holding (λ ws. T.Kept ws (suc p) taking.new) self.now.header self.now.at self.now.bytes.now (N.loads self.now.plan) (Ow.slot_no self.now.header (S.layers self.now.header.shape) p)) }
    {
        let mut cells = before;
        let mut start: usize = 0;
        for k in 0..sheet::layer_count(self.header.shape) {
            let count = self.header.planes[k];
            let span = self.spans[k];
            if is_among_top(count, self.plan.planes[k], p) {
                let from = self.at + CELL_BYTES * cells;
                let n = self.sizes[k];
                if !is_fine(self.bytes, from, n, span as usize, p + 1 == count) {
                    return Err(BadLayer(k));
                }
                taking.take(self.bytes, from, n, start);
            }
            cells += order::span_at(span, count, p) as usize;
            start += CELL_POINTS * span as usize;
        }
        Ok(cells)
    }

    // All planes of the plan, each checked and taken, until one is not fine.
    pub(crate) fn all<T: Taking>(&self, taking: &mut T) -> Result<(), BadLayer>
        requires { T.Kept (replicate words_most 0) Hd.places_most taking.old }
        ensures answer { result ≡ W.loaded_as self.now.header self.now.at self.now.bytes.now (N.loads self.now.plan) }
        ensures kept { IfOk result (λ u. (ws : List ℕ) × (T.Kept ws 0 taking.new × W.Read self.now.header self.now.at self.now.bytes.now (N.loads self.now.plan) ws)) }
    {
        let mut cells: usize = 0;
        for p in (0..MOST_PLACES).rev() {
            cells = self.place(p, cells, taking)?;
            taking.descend();
        }
        Ok(())
    }
}
