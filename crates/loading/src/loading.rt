// The planes of a plan, or all that are whole, to coefficients.
ghost use Rattle.std.specs.Prelude.{◌≡◌, true, ◌≤◌, length, IfOk};
ghost use Rattle.layers.specs.Samples.{full};
ghost use Rattle.header.specs.Plan as N;
ghost use Rattle.header.specs.Opening as O;
ghost use Rattle.header.specs.Refusals.{details_in};
ghost use Rattle.loading.specs.InBytes as L;
ghost use Rattle.loading.specs.Workings.Words as W;
ghost use Rattle.loading.specs.Workings.Calls as C;

use crate::BadLayer;
use crate::adding::Adding;
use crate::spreading::spread;
use crate::walking::{Checking, Walk};
use header::{Header, Plan, Refusal};
use packing::MOST_WORDS;

// Can planes be loaded: behind a header that opening gives, in bytes that have it whole, into a coefficient for each point?
pub(crate) fn is_loadable(bytes: &[u8], header: Header, at: usize, coefficients: &[i32]) -> bool
    ensures { result ≡ C.loadable coefficients.now bytes.now header at }
{
    if !header::is_well_formed(header) {
        return false;
    }
    if bytes.len() < at {
        return false;
    }
    coefficients.len() == sheet::points(header.shape)
}

// The planes of a plan, all of them whole, to coefficients, by way of the words.
fn load_planes(
    bytes: &[u8],
    header: Header,
    at: usize,
    plan: Plan,
    coefficients: &mut [i32],
) -> Result<(), Refusal>
    requires header_value { (O.well_formed header ≡ true) × (at ≤ length bytes.now) }
    requires coefficients_value { full header.shape coefficients.old ≡ true }
    requires all_there { W.AllThere header at bytes.now (N.loads plan) }
    ensures { C.as_loading result coefficients.new ≡ C.loading_whole coefficients.old bytes.now header at plan (L.first_bad header at bytes.now (N.loads plan)) }
{
    let mut words = [0u32; MOST_WORDS];
    let mut adding = Adding::new(&mut words);
    match Walk::new(bytes, at, header, plan).all(&mut adding) {
        Err(BadLayer(layer)) => Err(Refusal::BadPlane(layer as u64)),
        Ok(()) => {
            spread(adding.words, header.shape, coefficients);
            Ok(())
        }
    }
}

// Loads the planes of a plan into coefficients. A refusal changes nothing.
pub fn load(
    bytes: &[u8],
    header: Header,
    at: usize,
    plan: Plan,
    coefficients: &mut [i32],
) -> Result<(), Refusal>
    ensures { C.as_loading result coefficients.new ≡ C.loading coefficients.old bytes.now header at plan }
{
    if !is_loadable(bytes, header, at, coefficients) {
        return Err(Refusal::BadLengths);
    }
    let whole = order::whole_planes(header, bytes.len() - at);
    if let Some(place) = header::first_over(whole.planes, plan.planes) {
        return Err(Refusal::BadPlan(place as u64));
    }
    load_planes(bytes, header, at, plan, coefficients)
}

// Loads all planes that are whole into coefficients, and answers them as a plan. A refusal changes nothing.
pub fn load_whole(
    bytes: &[u8],
    header: Header,
    at: usize,
    coefficients: &mut [i32],
) -> Result<Plan, Refusal>
    ensures { (C.as_loading result coefficients.new ≡ C.all_whole coefficients.old bytes.now header at) × IfOk result (λ plan. plan ≡ C.whole_loaded coefficients.old bytes.now header at) }
{
    if !is_loadable(bytes, header, at, coefficients) {
        return Err(Refusal::BadLengths);
    }
    let plan = order::whole_planes(header, bytes.len() - at);
    load_planes(bytes, header, at, plan, coefficients)?;
    Ok(plan)
}

// What loading all whole planes is refused for: they are examined, and no coefficient is touched.
pub fn examine(bytes: &[u8], header: Header, at: usize, coefficients: &[i32]) -> Result<(), Refusal>
    ensures { details_in result ≡ (C.all_whole coefficients.now bytes.now header at).refused }
{
    if !is_loadable(bytes, header, at, coefficients) {
        return Err(Refusal::BadLengths);
    }
    let all = order::whole_planes(header, bytes.len() - at);
    match Walk::new(bytes, at, header, all).all(&mut Checking) {
        Err(BadLayer(layer)) => Err(Refusal::BadPlane(layer as u64)),
        Ok(()) => Ok(()),
    }
}
