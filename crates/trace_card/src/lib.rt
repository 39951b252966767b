// The calls with numbers and slices alone, as include/trace_card.h has them, so a refusal is its number: 3 where a length is wrong. `trace_card_c` exports them to C.
#![tactic(auto)]

mod answer;
mod bounding;
mod comparing;
mod planning;
mod previewing;
mod reading;
mod rolling;
mod writing;

pub use bounding::trace_card_figure;
pub use comparing::trace_card_compare;
pub use planning::{trace_card_plan_by_cells, trace_card_plan_by_limit};
pub use previewing::trace_card_preview;
pub use reading::{trace_card_read, trace_card_refine, trace_card_show};
pub use rolling::trace_card_roll;
pub use writing::trace_card_write;

// Numbers in an answer.
pub(crate) const ANSWER: usize = 24;
