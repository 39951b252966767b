// Refining a reading: the next plane of one layer.
ghost use Rattle.std.specs.Prelude.{◌≡◌, true, ◌≤◌, length};
ghost use Rattle.sheet.specs.Limits.{layers_most};
ghost use Rattle.header.specs.Header as Hd;
ghost use Rattle.header.specs.Plan as N;
ghost use Rattle.header.specs.Opening as O;
ghost use Rattle.header.specs.Refusals.{details_in};
ghost use Rattle.order.specs.CardOrder.{whole_of};
ghost use Rattle.card.specs.Reading as R;
ghost use Rattle.card.specs.Refining as F;

use crate::Reached;
use crate::reading::{finish, good_lengths};
use header::{Header, MOST_LOSSES, Plan, Refusal};

// The first refusal of the slices' lengths and of the plan, given the planes that are whole.
fn check(
    header: Header,
    whole: Plan,
    plan: Plan,
    coefficients: &[i32],
    values: &[i64],
) -> Result<(), Refusal>
    requires { O.well_formed header ≡ true }
    ensures { details_in result ≡ R.first_refusal coefficients.now values.now header whole plan }
{
    if !good_lengths(header, coefficients, values) {
        return Err(Refusal::BadLengths);
    }
    match header::first_over(whole.planes, plan.planes) {
        Some(place) => Err(Refusal::BadPlan(place as u64)),
        None => Ok(()),
    }
}

// A reading with one plane more of a layer that may not be there, or may have no further plane that is whole.
fn refine_layer(
    bytes: &[u8],
    header: Header,
    losses: &[u32],
    at: usize,
    whole: Plan,
    plan: Plan,
    layer: u64,
    coefficients: &mut [i32],
    values: &mut [i64],
) -> Result<Reached, Refusal>
    requires opened { (O.well_formed header ≡ true) × (at ≤ length bytes.now) × (whole ≡ whole_of bytes.now header at) }
    requires fits { (R.good_lengths coefficients.old values.old header ≡ true) × (N.first_over (Hd.planes_of header) (N.loads plan) ≡ layers_most) }
    ensures { R.as_reading result coefficients.new values.new ≡ F.refine_layer coefficients.old values.old bytes.now header losses.now at plan layer }
{
    if sheet::layer_count(header.shape) as u64 <= layer {
        return Err(Refusal::BadPlan(layer));
    }
    let k = layer as usize;
    if whole.planes[k] <= plan.planes[k] {
        return Err(Refusal::BadPlan(layer));
    }
    let p = header.planes[k] - plan.planes[k] - 1;
    loading::add_plane(bytes, header, at, k, p, coefficients)?;
    Ok(finish(header, losses, plan.with_plane(k), coefficients, values))
}

// A card that has been opened, refined with a plan that may ask too much.
fn refine_opened(
    bytes: &[u8],
    header: Header,
    losses: &[u32],
    at: usize,
    plan: Plan,
    layer: u64,
    coefficients: &mut [i32],
    values: &mut [i64],
) -> Result<Reached, Refusal>
    requires { (O.well_formed header ≡ true) × (at ≤ length bytes.now) }
    ensures { R.as_reading result coefficients.new values.new ≡ F.refine_opened coefficients.old values.old bytes.now header losses.now at plan layer }
{
    let whole = order::whole_planes(header, bytes.len() - at);
    check(header, whole, plan, coefficients, values)?;
    refine_layer(
        bytes,
        header,
        losses,
        at,
        whole,
        plan,
        layer,
        coefficients,
        values,
    )
}

// Adds the next plane of one layer to a reading with a plan, and rebuilds all values. A refusal changes nothing.
pub fn refine(
    bytes: &[u8],
    plan: Plan,
    layer: u64,
    coefficients: &mut [i32],
    values: &mut [i64],
) -> Result<Reached, Refusal>
    ensures { R.as_reading result coefficients.new values.new ≡ F.refining coefficients.old values.old bytes.now plan layer }
{
    let mut table = [0u32; MOST_LOSSES];
    let opened = header::open_with_losses(bytes, &mut table)?;
    refine_opened(
        bytes,
        opened.header,
        &table[..opened.losses],
        opened.length,
        plan,
        layer,
        coefficients,
        values,
    )
}
