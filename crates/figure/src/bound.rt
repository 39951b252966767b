// The figure of a plan: how far off any value may be.
ghost use Rattle.std.specs.Prelude.{◌≡◌, true};
ghost use Rattle.sheet.specs.Limits.{layers_most};
ghost use Rattle.header.specs.Header as Hd;
ghost use Rattle.header.specs.Plan as P;
ghost use Rattle.header.specs.Opening as O;
ghost use Rattle.figure.specs.Figure as F;
ghost use Rattle.figure.specs.Bounding as B;
ghost use Rattle.figure.specs.Workings as W;

use crate::rules::{carried, charge, rule_of};
use header::{Header, MOST_LOSSES, Plan, Refusal};

// What stands is carried from layer to layer; `first` is where the layer's numbers begin.
fn figure_of(header: Header, losses: &[u32], plan: Plan) -> u64
    requires header_value { O.well_formed header ≡ true }
    requires plan_value { P.first_over (Hd.planes_of header) (P.loads plan) ≡ layers_most }
    ensures { result ≡ F.figure_of header losses.now (P.loads plan) }
{
    let layers = sheet::layer_count(header.shape);
    let counts = &header.planes[..layers];
    let loaded = &plan.planes[..layers];
    let mut first: usize = 0;
    let mut standing: u64 = 0;
    for (k, (count, n)) in counts.iter().zip(loaded.iter()).enumerate() {
        let rule = rule_of(header, k);
        standing = carried(rule, standing) + charge(losses, first, *count, *n, header.step);
        first += *count as usize;
    }
    header.step + standing
}

// The figure of a plan of a well-formed header, unless the plan asks for more than its planes.
fn bounded(header: Header, losses: &[u32], plan: Plan) -> Result<u64, Refusal>
    requires { O.well_formed header ≡ true }
    ensures { B.as_bounding result ≡ B.bounded_by header losses.now (P.loads plan) (P.first_over (Hd.planes_of header) (P.loads plan)) }
{
    match header::first_over(header.planes, plan.planes) {
        Some(place) => Err(Refusal::BadPlan(place as u64)),
        None => Ok(figure_of(header, losses, plan)),
    }
}

// The figure of a plan of any header and numbers; refused where opening gives no such header.
pub fn error_bound(header: Header, losses: &[u32], plan: Plan) -> Result<u64, Refusal>
    ensures { B.as_bounding result ≡ W.bound_of header losses.now plan }
{
    if !header::is_well_formed(header) {
        return Err(Refusal::BadLengths);
    }
    bounded(header, losses, plan)
}

// The figure of a plan of a card, truncated or whole.
pub fn figure(bytes: &[u8], plan: Plan) -> Result<u64, Refusal>
    ensures { B.as_bounding result ≡ B.bounding bytes.now plan }
{
    let mut table = [0u32; MOST_LOSSES];
    let opened = header::open_with_losses(bytes, &mut table)?;
    bounded(opened.header, &table[..opened.losses], plan)
}
