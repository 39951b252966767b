// The program trace: a word for each thing that people do with a card.
#![tactic(auto)]

ghost use Rattle.std.specs.Prelude.{◌≡◌};
ghost use Rattle.std.specs.Process.{exit_status};
ghost use Rattle.io.specs.Counts.{IsPrefixLen};
ghost use Rattle.trace.specs.Words as W;
ghost use Rattle.trace.specs.declared.Ending.TheVariants.{NoWord, NoFile};

use display::{BUFFER, Input, STDERR, STDIN};
use std::env::Env;
use std::fs::File;
use std::io::Read;
use std::os::fd::AsRawFd;
use std::process::ExitCode;
use std::rt::Files;

// What to do: with the card on standard input, or with the two that are named.
#[derive(Clone, Copy)]
pub enum Word {
    Show,
    Roll,
    Compare,
}

// How a run ends: a card is taken, or two together; it is refused, or both together are; the word is missing or not known, or followed by another number of
// names than its own; or a file that is named cannot be read.
#[derive(Clone, Copy)]
pub enum Ending {
    Taken,
    Refused,
    NoWord,
    NoFile,
}

// The program's exit status.
impl From<Ending> for ExitCode {
    ghost from_gives = { λ ending code. exit_status code ≡ W.status_of ending };

    fn from(ending: Ending) -> ExitCode {
        ExitCode::from(match ending {
            Ending::Taken => 0,
            Ending::Refused => 1,
            Ending::NoWord | Ending::NoFile => 2,
        })
    }
}

// Which arguments are the word and the names behind it.
const WORD: usize = 1;

const FIRST_NAME: usize = 2;

const SECOND_NAME: usize = 3;

// The word that a text is.
#[tactic(auto, using(crate::proofs::Spelled::spelling))]
fn word_of(text: &[u8]) -> Option<Word>
    ensures { result ≡ W.word_of text.now }
{
    match text {
        b"show" => Some(Word::Show),
        b"roll" => Some(Word::Roll),
        b"compare" => Some(Word::Compare),
        _ => None,
    }
}

// How many names of files follow a word.
fn names_of(word: Word) -> usize
    ensures { result ≡ W.names_of word }
{
    match word {
        Word::Show | Word::Roll => 0,
        Word::Compare => 2,
    }
}

// What is asked for by a text and so many names behind it.
fn asked(text: &[u8], names: usize) -> Option<Word>
    ensures { result ≡ W.asked text.now names }
{
    word_of(text).filter(|word| names == names_of(*word))
}

// How a run ends by a refusal's number.
fn ending_of(number: u64) -> Ending
    ensures { result ≡ W.ending_of number }
{
    match number {
        0 => Ending::Taken,
        _ => Ending::Refused,
    }
}

// Says which words there are, line by line: where few bytes are taken, whole lines are.
fn words() -> Ending
    ensures { result ≡ NoWord }
{
    io::write_all(
        STDERR,
        b"usage: trace WORD < CARD, or trace compare CARD CARD\n",
    );
    io::write_all(
        STDERR,
        b"  show     sizes, planes loaded, figure and values\n",
    );
    io::write_all(
        STDERR,
        b"  roll     the figure, then a line for each value: row, column, value\n",
    );
    io::write_all(
        STDERR,
        b"  compare  how many points are apart, the first, then a line for each row: 0 agree, 1 apart\n",
    );
    Ending::NoWord
}

// Prints of the card on standard input what a word says.
fn print<F: Fn(&[u8], bool) -> u64>(what: F) -> Ending
    requires { F.IsAlwaysCallable what }
{
    let mut buffer = [0u8; BUFFER];
    let input = display::read(STDIN, &mut buffer);
    let n = input.length;
    ending_of(what(&buffer[..n], input.ends))
}

// How many arguments there are behind the word. The turns are more than any arguments use up. They are asked for by number: `std::env::args` needs memory, and
// refuses a name that is not UTF-8.
fn names_behind(rt: &impl Env) -> usize {
    let mut name = io::buffer();
    for i in FIRST_NAME..usize::MAX {
        if display::argument(rt, i, &mut name).is_none() {
            return i - FIRST_NAME;
        }
    }
    usize::MAX - FIRST_NAME
}

// Opens the file that argument i names, for reading; none where it cannot be read. Reading no bytes tells: a folder can be
// opened and not read.
fn open<R: Env + Files>(rt: &R, i: usize) -> Option<R::File> {
    let mut name = io::buffer();
    let length = display::argument(rt, i, &mut name)?;
    let mut file = display::open(rt, &name[..length])?;
    file.read(&mut name[..0]).ok()?;
    Some(file)
}

// Says that it cannot be read.
fn not_read(rt: &impl Env, i: usize) -> Ending
    ensures { result ≡ NoFile }
{
    let mut name = io::buffer();
    let length = display::argument(rt, i, &mut name).unwrap_or(0);
    io::write_all(STDERR, &name[..length]);
    io::write_all(STDERR, b": cannot be read\n");
    Ending::NoFile
}

// Reads a file that was opened, and closes it.
fn take(file: File, buffer: &mut [u8]) -> Input
    ensures { IsPrefixLen result.length buffer.new }
{
    display::read(file.as_raw_fd(), buffer)
}

// Compares the two cards that are named. Where the first cannot be read, the second is not looked at.
fn compare(rt: &(impl Env + Files<File = File>)) -> Ending {
    let Some(file1) = open(rt, FIRST_NAME) else {
        return not_read(rt, FIRST_NAME);
    };
    let mut buffer1 = [0u8; BUFFER];
    let input1 = take(file1, &mut buffer1);
    let Some(file2) = open(rt, SECOND_NAME) else {
        return not_read(rt, SECOND_NAME);
    };
    let mut buffer2 = [0u8; BUFFER];
    let input2 = take(file2, &mut buffer2);
    let n1 = input1.length;
    let n2 = input2.length;
    ending_of(display::compare(&buffer1[..n1], input1.ends, &buffer2[..n2], input2.ends))
}

// Does what the first argument says, of which the others are names. `show` and `roll` stand in closures: handed on by themselves, as functions of another
// crate, they are refused ("it has no file").
pub fn trace_run(rt: &(impl Env + Files<File = File>)) -> Ending {
    let mut text = io::buffer();
    let Some(length) = display::argument(rt, WORD, &mut text) else {
        return words();
    };
    match asked(&text[..length], names_behind(rt)) {
        Some(Word::Show) => print(|bytes, ends| display::show(bytes, ends)),
        Some(Word::Roll) => print(|bytes, ends| display::roll(bytes, ends)),
        Some(Word::Compare) => compare(rt),
        None => words(),
    }
}

fn main(rt: HostRuntime) -> ExitCode {
    ExitCode::from(trace_run(&rt))
}
