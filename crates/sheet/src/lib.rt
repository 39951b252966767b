// A sheet and its layers: the shapes that are accepted, and the points of each layer as a grid and as lines.
// Sheets stand in a stack too, once stacks come.
#![tactic(auto)]

mod grids;
mod shapes;
mod sizes;

pub use grids::grid_of;
pub use shapes::{accepted, laid, layer_count, points, sheet_of, sized};
pub use sizes::{layer_lines, layer_size, line_start};

// The sizes of a sheet, and the layers that so many levels make.
pub const MOST_POINTS: usize = 8192;

// Sheets in a stack: one, until stacks come.
pub const MOST_DEPTH: usize = 1;

pub const MOST_LEVELS: usize = 6;

// Across and down; a third, between sheets, where there are several.
const MOST_DIRECTIONS: usize = 2 + (1 < MOST_DEPTH) as usize;

pub const MOST_LAYERS: usize = 1 + MOST_DIRECTIONS * MOST_LEVELS;

pub const MOST_STEP: u64 = 65535;

// Rows, columns and levels, as the caller gives them; and the depth, which is 1 of a sheet by itself.
#[derive(Clone, Copy)]
pub struct Shape {
    pub depth: usize,
    pub rows: usize,
    pub cols: usize,
    pub levels: usize,
}

// What a layer is predicted by.
#[derive(Clone, Copy)]
pub enum Curve {
    Linear,
    Cubic,
}

#[derive(Clone, Copy)]
pub enum Direction {
    Anchor,
    Across,
    Down,
    Between,
}

// A layer's number, direction and spacing, worked out once, and its points: rows row, row + down, .. and columns col, col + right, .. of the
// sheets sheet, sheet + deep, ..
#[derive(Clone, Copy)]
pub struct Grid {
    pub layer: usize,
    pub direction: Direction,
    pub spacing: usize,
    pub sheet: usize,
    pub deep: usize,
    pub row: usize,
    pub down: usize,
    pub col: usize,
    pub right: usize,
}

// A layer as lines: its first point, how many lines and how far apart, and on each how many points and how far apart; and how many sheets of
// such lines, and how far apart.
#[derive(Clone, Copy)]
pub struct Lines {
    pub first: usize,
    pub sheets: usize,
    pub beyond: usize,
    pub lines: usize,
    pub apart: usize,
    pub points: usize,
    pub stride: usize,
}
