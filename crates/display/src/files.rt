// What the programs ask the system for: their arguments, and files by name.
ghost use Rattle.std.specs.Prelude.{IfSome};
ghost use Rattle.io.specs.Counts.{IsPrefixLen};

use std::env::{Env, FillError};
use std::rt::Files;
use std::{fs, str};

// The descriptors that a program starts with.
pub const STDIN: i32 = 0;

pub const STDOUT: i32 = 1;

pub const STDERR: i32 = 2;

// How many bytes argument i has, which then stand at the front of `text`; none where there is no such argument. One that is too long counts as empty.
pub fn argument(rt: &impl Env, i: usize, text: &mut [u8]) -> Option<usize>
    ensures { IfSome result (λ n. IsPrefixLen n text.new) }
{
    match rt.arg(i, text) {
        Ok(length) => Some(length),
        Err(FillError::TooLong) => Some(0),
        Err(FillError::NotPresent) => None,
    }
}

// Opens the file of that name for reading; none where it cannot be opened. A name that is not UTF-8 is no path.
pub fn open<R: Files>(rt: &R, name: &[u8]) -> Option<R::File> {
    let path = str::from_utf8(name).ok()?;
    fs::open(rt, path).ok()
}
