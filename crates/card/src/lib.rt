// The card: writing a sheet, reading it with a plan, showing what is there, and refining a reading by a plane.
#![tactic(auto)]

mod reading;
mod refining;
mod writing;

use header::Plan;
pub use reading::{examine, read, show};
pub use refining::refine;
pub use writing::write;

// What reading and refining answer: the plan reached and its figure.
#[derive(Clone, Copy)]
pub struct Reached {
    pub plan: Plan,
    pub figure: u64,
}
