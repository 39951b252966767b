// The program show: prints what a card on standard input shows, or each card that an argument names, with its name before it.
#![tactic(auto)]

use display::{BUFFER, STDERR, STDIN, STDOUT};
use std::fs::File;
use std::os::fd::AsRawFd;
use std::rt::Files;

// Which argument is the first name; before it stands the program's own.
const FIRST_NAME: usize = 1;

// Shows what a file holds, of any length.
fn show(file: i32) {
    let mut buffer = [0u8; BUFFER];
    let input = display::read(file, &mut buffer);
    let n = input.length;
    display::show(&buffer[..n], input.ends);
}

// Shows the card that is named, or says that there is none.
fn show_named(rt: &impl Files<File = File>, name: &[u8]) {
    let Some(file) = display::open(rt, name) else {
        io::write_all(STDERR, name);
        io::write_all(STDERR, b": cannot be opened\n");
        return;
    };
    io::write_all(STDOUT, name);
    io::write_all(STDOUT, b":\n");
    show(file.as_raw_fd());
}

fn main(rt: HostRuntime) {
    let mut name = io::buffer();
    if display::argument(&rt, FIRST_NAME, &mut name).is_none() {
        show(STDIN);
        return;
    }
    // By number, since `std::env::args` needs memory, and refuses a name that is not UTF-8.
    for i in FIRST_NAME..usize::MAX {
        let Some(length) = display::argument(&rt, i, &mut name) else {
            break;
        };
        show_named(&rt, &name[..length]);
    }
}
