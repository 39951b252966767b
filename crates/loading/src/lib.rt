// The planes in a card's bytes, loaded into coefficients: those of a plan, all that are whole, or one more.
#![tactic(auto)]

mod adding;
mod loading;
mod refining;
mod spreading;
mod walking;

pub use loading::{examine, load, load_whole};
pub use refining::add_plane;

// The layer of the first plane that is not fine.
#[derive(Clone, Copy)]
pub(crate) struct BadLayer(pub(crate) usize);
