// A card's header: its text, opening any bytes, and the planes that it names; refusals and plans.
#![tactic(auto)]

ghost use Rattle.std.specs.Prelude.{◌≡◌};
ghost use Rattle.header.specs.Refusals as R;
ghost use Rattle.header.specs.Workings as W;
ghost use Rattle.header.specs.Plan as P;

mod ending;
mod opening;
mod planes;
mod printing;

pub use opening::{open, open_with_losses};
use planes::spans_of;
pub use planes::{first_over, is_well_formed, plane_cells, total_cells};
pub use printing::put_header;
pub use sheet::MOST_LAYERS;
use sheet::{Curve, MOST_POINTS, Shape};

// The sizes of a card: digits of a coefficient, the bytes of a cell and the points that it holds.
pub const MOST_PLACES: u64 = 23;

pub const CELL_BYTES: usize = 32;

pub const CELL_POINTS: usize = 8 * CELL_BYTES;

// The most cells of one plane of every layer: each layer wastes less than a cell. And the most of a card.
pub const MOST_PLACE_CELLS: usize = (MOST_POINTS + MOST_LAYERS * (CELL_POINTS - 1)) / CELL_POINTS;

pub const MOST_CELLS: usize = MOST_PLACES as usize * MOST_PLACE_CELLS;

// The most losses that a card tells: one for each plane that there may be.
pub const MOST_LOSSES: usize = MOST_LAYERS * MOST_PLACES as usize;

// Room for the text of any header but its losses.
pub const MOST_TEXT: usize = 512;

// Why a call is refused; `details_of` gives the number and the details.
#[derive(Clone, Copy, PartialEq, Eq, Debug)]
pub enum Refusal {
    BadSize,
    BadSettings,
    BadLengths,
    BadSample { row: u64, col: u64 },
    HeaderCut,
    BadLine(u64),
    TrailingBytes,
    BadPlane(u64),
    BadPlan(u64),
    LimitBelowStep,
    BadCoefficient,
    ShortPage,
    SizesDiffer,
}

// A refusal by number, with two details.
#[derive(Clone, Copy, PartialEq, Eq, Debug)]
pub struct Details {
    pub number: u64,
    pub first: u64,
    pub second: u64,
}

// Planes loaded from the top, for each layer; 0 past the last.
#[derive(Clone, Copy, PartialEq, Eq, Debug)]
pub struct Plan {
    pub planes: [u64; MOST_LAYERS],
}

// What a header says: a count of planes for each layer, 0 past the last, and the cells of all of them.
#[derive(Clone, Copy)]
pub struct Header {
    pub shape: Shape,
    pub curve: Curve,
    pub step: u64,
    pub planes: [u64; MOST_LAYERS],
    pub cells: u64,
}

// A card's header, how many losses its line tells, 0 for an old card, and how many bytes it has.
#[derive(Clone, Copy)]
pub struct Opened {
    pub header: Header,
    pub losses: usize,
    pub length: usize,
}

// The number and details of a refusal.
pub fn details_of(refusal: Refusal) -> Details
    ensures { result ≡ R.details_of refusal }
{
    match refusal {
        Refusal::BadSize => Details {
            number: 1,
            first: 0,
            second: 0,
        },
        Refusal::BadSettings => Details {
            number: 2,
            first: 0,
            second: 0,
        },
        Refusal::BadLengths => Details {
            number: 3,
            first: 0,
            second: 0,
        },
        Refusal::BadSample { row, col } => Details {
            number: 4,
            first: row,
            second: col,
        },
        Refusal::HeaderCut => Details {
            number: 5,
            first: 0,
            second: 0,
        },
        Refusal::BadLine(line) => Details {
            number: 6,
            first: line,
            second: 0,
        },
        Refusal::TrailingBytes => Details {
            number: 7,
            first: 0,
            second: 0,
        },
        Refusal::BadPlane(layer) => Details {
            number: 8,
            first: layer,
            second: 0,
        },
        Refusal::BadPlan(place) => Details {
            number: 9,
            first: place,
            second: 0,
        },
        Refusal::LimitBelowStep => Details {
            number: 10,
            first: 0,
            second: 0,
        },
        Refusal::BadCoefficient => Details {
            number: 11,
            first: 0,
            second: 0,
        },
        Refusal::ShortPage => Details {
            number: 12,
            first: 0,
            second: 0,
        },
        Refusal::SizesDiffer => Details {
            number: 13,
            first: 0,
            second: 0,
        },
    }
}

impl Plan {
    // The plan with one plane more of a layer; unchanged where the layer or the number is past the last.
    pub fn with_plane(self, layer: usize) -> Plan
        ensures { result ≡ P.with_plane self layer }
    {
        if MOST_LAYERS <= layer {
            return self;
        }
        let mut next = self;
        let n = self.planes[layer];
        next.planes[layer] = n.saturating_add(1);
        next
    }
}

impl Header {
    // The cells that one plane of each layer spans.
    pub fn spans(self) -> [u64; MOST_LAYERS]
        ensures { result ≡ W.spans_of self.shape }
    {
        spans_of(self.shape)
    }
}
