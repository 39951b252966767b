// Decimal numbers, lists of them and lines of text, read strictly and written in one way. Nothing here can wrap, whatever the text.
#![tactic(auto)]

ghost use Rattle.std.specs.Prelude.{◌≡◌, drop};
ghost use Rattle.text.specs.Decimal as D;
ghost use Rattle.text.specs.Line as L;
ghost use Rattle.text.specs.Workings as W;

mod joined;

pub use joined::{characters, joined_fits, put_joined, put_number, read_joined};

// The characters of the largest u64.
pub const MOST_CHARACTERS: usize = 20;

// A line that was read: its value, and its length with byte 10.
#[derive(Clone, Copy)]
pub struct Line<T> {
    pub value: T,
    pub length: usize,
}

// Why a line is not read: no byte 10 ends it, or it is not the line asked for.
#[derive(Clone, Copy, PartialEq, Eq, Debug)]
pub enum LineError {
    Short,
    Wrong,
}

// One character more behind v, where the number may be at most high.
#[tactic(auto, unfolding(crate::specs::Decimal::pushed))]
fn push(v: u64, x: u8, high: u64) -> Option<u64>
    ensures { result ≡ D.pushed high v x }
{
    if !x.is_ascii_digit() {
        return None;
    }
    let w = v.checked_mul(10)?.checked_add(u64::from(x - b'0'))?;
    (w <= high).then_some(w)
}

#[tactic(auto, using(crate::proofs::Reading::nothing, crate::proofs::Reading::start, crate::proofs::Reading::stopped, crate::proofs::Reading::refused, crate::proofs::Reading::taken, crate::proofs::Reading::ended))]
fn up_to(s: &[u8], high: u64) -> Option<u64>
    ensures { result ≡ D.up_to high s.now }
{
    let (first, rest) = s.split_first()?;
    let mut v = push(0, *first, high)?;
    for x in rest {
        if v == 0 {
            return None;
        }
        v = push(v, *x, high)?;
    }
    Some(v)
}

// The number from low to high that the bytes spell.
#[tactic(auto, unfolding(crate::specs::Decimal::parsed))]
pub fn parse(s: &[u8], low: u64, high: u64) -> Option<u64>
    ensures { result ≡ D.parsed low high s.now }
{
    let v = up_to(s, high)?;
    (low <= v).then_some(v)
}

// Puts bytes at a place and answers the place after them. Where they do not fit, nothing is put and the place stays.
#[tactic(auto, using(crate::proofs::Coded::after_over, crate::proofs::Coded::putting_over, crate::proofs::Coded::after_fits, crate::proofs::Coded::putting_mid))]
pub fn put(out: &mut [u8], at: usize, bytes: &[u8]) -> usize
    ensures { (result ≡ W.after out.old at bytes.now) × (out.new ≡ W.putting out.old at bytes.now) }
{
    if out.len() < at {
        return at;
    }
    if out.len() - at < bytes.len() {
        return at;
    }
    let end = at + bytes.len();
    out[at..end].copy_from_slice(bytes);
    end
}

// Where the first byte x stands.
#[tactic(auto, unfolding(crate::specs::Workings::first_of))]
fn first(s: &[u8], x: u8) -> Option<usize>
    ensures { result ≡ W.first_of x s.now }
{
    s.iter().position(|y| *y == x)
}

// The place of the first byte x from a place on.
#[tactic(auto, using(crate::proofs::Search::place_past))]
pub fn find(s: &[u8], from: usize, x: u8) -> Option<usize>
    ensures { result ≡ L.place_of x from s.now }
{
    let i = first(s.get(from..)?, x)?;
    Some(from + i)
}

// Does s start with key?
#[tactic(auto, using(crate::proofs::Coded::starts_is))]
pub fn starts_with(s: &[u8], key: &[u8]) -> bool
    ensures { result ≡ L.starts key.now s.now }
{
    s.starts_with(key)
}

// The line of a key and a number from low to high at a place of the slice.
#[tactic(auto, using(crate::proofs::Search::starts_length), unfolding(crate::specs::Line::place_of, crate::specs::Line::line_at, crate::specs::Line::has_end))]
pub fn read_line(
    s: &[u8],
    at: usize,
    key: &[u8],
    low: u64,
    high: u64,
) -> Result<Line<u64>, LineError>
    ensures { result ≡ L.line_at key.now low high (drop at s.now) }
{
    let end = find(s, at, b'\n').ok_or(LineError::Short)?;
    let line = &s[at..end];
    if !starts_with(line, key) {
        return Err(LineError::Wrong);
    }
    let value = parse(&line[key.len()..], low, high).ok_or(LineError::Wrong)?;
    Ok(Line {
        value,
        length: end - at + 1,
    })
}
