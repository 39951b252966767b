// Reading a card from a file. No contract can speak of what is read, so these lines are to be read too.
ghost use Rattle.io.specs.Counts.{IsPrefixLen};

use crate::answers::{ahead_of, opening_number};
use crate::{Ahead, BUFFER, CHUNK, Input};

// What the file's next bytes hold.
fn look(file: i32) -> Ahead {
    let mut buffer = [0u8; CHUNK];
    let n = io::read_full(file, &mut buffer);
    ahead_of(&buffer[..n])
}

// Does a byte 10 follow in the file? The turns are more than any file uses up.
fn ends_later(file: i32) -> bool {
    for _ in 0..u64::MAX {
        match look(file) {
            Ahead::End => return true,
            Ahead::Nothing => return false,
            Ahead::More => {}
        }
    }
    false
}

// Reads a file into a buffer of `BUFFER` bytes, as far as it goes. Of what was read it is only promised that it is within the buffer: no contract can
// speak of what a file holds. It answers how much that is, and no slice: that a slice is the buffer's own, the check finds no proof of.
pub fn read(file: i32, buffer: &mut [u8]) -> Input
    ensures { IsPrefixLen result.length buffer.new }
{
    let length = io::read_full(file, buffer);
    let ends = BUFFER <= length && opening_number(&buffer[..length]) == 5 && ends_later(file);
    Input { length, ends }
}
