// The figure: how a layer carries what stands before it and what it adds of its own, and how far off any value may be.
#![tactic(auto)]

mod bound;
mod rules;

pub use bound::{error_bound, figure};
pub use rules::{carried, charge, rule_of};
use sheet::Curve;

// How a layer carries what stands before it: as a curve does.
#[derive(Clone, Copy)]
pub struct Rule {
    pub curve: Curve,
}
