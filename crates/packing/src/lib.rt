// The card of coefficients: their words in layer order, the losses that these measure, the words turned into rows, and the planes of the rows behind the header's text.
#![tactic(auto)]

mod measuring;
mod putting;
mod rows;
mod starts;
mod words;
mod writing;

use header::{CELL_POINTS, MOST_PLACE_CELLS};
pub use writing::write_card;

// Room for the words of all layers, each in whole cells: one plane of every layer, a word for each point of its cells.
pub const MOST_WORDS: usize = CELL_POINTS * MOST_PLACE_CELLS;
