// The planner: the best plan of a card by a limit on its figure, or in so many cells.
#![tactic(auto)]

ghost use Rattle.std.specs.Prelude.{◌≡◌};
ghost use Rattle.planner.specs.Planning as N;

mod searching;
mod table;

use header::{MOST_LOSSES, Plan, Refusal};
use searching::{search_by_cells, search_by_limit};

// A plan, its cells and its figure.
#[derive(Clone, Copy)]
pub struct Planned {
    pub plan: Plan,
    pub cells: u64,
    pub figure: u64,
}

// The plan with the fewest cells whose figure is at most the limit.
pub fn plan_by_limit(bytes: &[u8], limit: u64) -> Result<Planned, Refusal>
    ensures { N.as_planning result ≡ N.by_limit bytes.now limit }
{
    let mut table = [0u32; MOST_LOSSES];
    let opened = header::open_with_losses(bytes, &mut table)?;
    let header = opened.header;
    if limit < header.step {
        return Err(Refusal::LimitBelowStep);
    }
    Ok(search_by_limit(header, &table[..opened.losses], limit))
}

// The plan with the smallest figure in at most so many cells.
pub fn plan_by_cells(bytes: &[u8], cells: u64) -> Result<Planned, Refusal>
    ensures { N.as_planning result ≡ N.by_cells bytes.now cells }
{
    let mut table = [0u32; MOST_LOSSES];
    let opened = header::open_with_losses(bytes, &mut table)?;
    Ok(search_by_cells(opened.header, &table[..opened.losses], cells))
}
