// What the programs print of a card, and of two: reading it from a file, what is to be shown of its bytes, the pieces of text, and the printing, which only
// loops and writes them; and the arguments and files that they ask for.
#![tactic(auto)]

mod answers;
mod comparing;
mod files;
mod pieces;
mod printing;
mod reading;

pub use files::{STDERR, STDIN, STDOUT, argument, open};
use header::Plan;
pub use pieces::piece_at;
pub use printing::{compare, roll, show};
pub use reading::read;
use sheet::{MOST_LAYERS, MOST_POINTS, Shape};
use text::MOST_CHARACTERS;

// Room for a key, and for the longest piece, which is the line of planes: a comma or the line's end stands behind each count.
const MOST_KEY: usize = 8;

pub const MOST_PIECE: usize = MOST_KEY + MOST_LAYERS * (MOST_CHARACTERS + 1);

// A piece of the text: the first `length` of the bytes; zeros follow.
#[derive(Clone, Copy)]
pub struct Piece {
    pub bytes: [u8; MOST_PIECE],
    pub length: usize,
}

// What is shown of a card but for its values: the sheet's shape, the planes loaded and the figure.
#[derive(Clone, Copy)]
pub struct Shown {
    pub shape: Shape,
    pub plan: Plan,
    pub figure: u64,
}

// What is printed of two cards but for the lines of marks: how many points are apart, row and column of the first, and how many bytes those lines take.
#[derive(Clone, Copy)]
pub struct Compared {
    pub apart: u64,
    pub row: u64,
    pub column: u64,
    pub length: usize,
}

// Room for the lines of any sheet.
pub const MOST_PAGE: usize = roll::LINE_BYTES * (MOST_POINTS + 1);

// Room for the lines of marks of any sheet: its points, and a line's end for each row.
pub const MOST_MARKS: usize = 2 * MOST_POINTS;

// How much of an input is read at first. A card has at most 36,864 bytes, so an input that has as many as this is none.
pub const BUFFER: usize = 40000;

// How much more is looked at in one turn.
pub const CHUNK: usize = 4096;

// An input: how many of its bytes were read, and whether a byte 10 follows them. That is looked for only where the bytes fill the buffer and end before a
// line's byte 10; otherwise nothing hangs on it.
#[derive(Clone, Copy)]
pub struct Input {
    pub length: usize,
    pub ends: bool,
}

// What the bytes of one turn tell of the rest of an input: a byte 10 follows, none does, or more has to be looked at.
#[derive(Clone, Copy)]
pub enum Ahead {
    End,
    Nothing,
    More,
}
