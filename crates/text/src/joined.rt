// Numbers in decimal, one or several joined by commas: put at a place, and read.
ghost use Rattle.std.specs.Prelude.{◌≡◌, ◌+◌, ◌-◌, ◌<◌, ◌≤◌, leb, length, is_some};
ghost use Rattle.std.proofs.lemmas.List.Edits.{sets};
ghost use Rattle.text.specs.Decimal as D;
ghost use Rattle.text.specs.Joined as J;
ghost use Rattle.text.specs.Workings as W;

use crate::MOST_CHARACTERS;

// How many characters a number has.
#[tactic(auto, using(crate::proofs::Coded::counted))]
pub fn characters(n: u64) -> usize
    ensures { result ≡ length (D.decimal n) }
{
    n.max(1).ilog10() as usize + 1
}

// Puts a number straight before a place, where there is room for it: the last character first, since a tenth of the number has the others.
// The place is counted by hand: over `iter_mut().rev()` nothing is known of what was written, and the goal `returns` stays open.
#[tactic(auto, using(crate::proofs::Coded::length_last, crate::proofs::Coded::length_none, crate::proofs::Coded::last_put, crate::proofs::Coded::first_put))]
fn put_before(out: &mut [u8], end: usize, n: u64)
    requires { (length (D.decimal n) ≤ end) × (end ≤ length out.old) }
    ensures { out.new ≡ sets out.old (end - length (D.decimal n)) (D.decimal n) }
{
    let mut place = end;
    let mut rest = n;
    while 10 <= rest {
        place -= 1;
        out[place] = b'0' + (rest % 10) as u8;
        rest = rest / 10;
    }
    out[place - 1] = b'0' + rest as u8;
}

// Puts the characters of a number at a place and answers the place after them. Where they do not fit, nothing is put and the place stays.
#[tactic(auto, using(crate::proofs::Coded::after_over, crate::proofs::Coded::putting_over, crate::proofs::Coded::after_fits, crate::proofs::Coded::putting_fits))]
pub fn put_number(out: &mut [u8], at: usize, n: u64) -> usize
    ensures { (result ≡ W.after out.old at (D.decimal n)) × (out.new ≡ W.putting out.old at (D.decimal n)) }
{
    if out.len() < at {
        return at;
    }
    let count = characters(n);
    if out.len() - at < count {
        return at;
    }
    put_before(out, at + count, n);
    at + count
}

// Do numbers with commas between fit in so many bytes? What is left of the room is counted down, since the length of a very long list might wrap.
#[tactic(auto, using(crate::proofs::Coded::so_far_none, crate::proofs::Coded::so_far_longer, crate::proofs::Coded::so_far_all, crate::proofs::Coded::none_fit, crate::proofs::Coded::all_fit, crate::proofs::Coded::not_all_fit))]
fn counted_fits(numbers: &[u64], room: usize) -> bool
    ensures { result ≡ leb (length (J.joined numbers.now)) room }
{
    let Some((first, rest)) = numbers.split_first() else {
        return true;
    };
    let Some(mut left) = room.checked_sub(characters(*first)) else {
        return false;
    };
    for n in rest {
        let more = characters(*n);
        if left <= more {
            return false;
        }
        left = left - more - 1;
    }
    true
}

// Do numbers with commas between fit in so many bytes? They are counted only where as many of the longest would not.
#[tactic(auto, using(crate::proofs::Coded::few_fit))]
pub fn joined_fits(numbers: &[u64], room: usize) -> bool
    ensures { result ≡ leb (length (J.joined numbers.now)) room }
{
    if numbers.len() <= room / (MOST_CHARACTERS + 1) {
        return true;
    }
    counted_fits(numbers, room)
}

// Puts numbers, commas between, where there is room for them.
#[tactic(auto, using(crate::proofs::Coded::so_far_all))]
fn put_list(out: &mut [u8], at: usize, numbers: &[u64]) -> usize
    requires { at + length (J.joined numbers.now) ≤ length out.old }
    ensures { (result ≡ at + length (J.joined numbers.now)) × (out.new ≡ sets out.old at (J.joined numbers.now)) }
{
    let Some((first, rest)) = numbers.split_first() else {
        return at;
    };
    let mut end = put_number(out, at, *first);
    for n in rest {
        out[end] = b',';
        end = put_number(out, end + 1, *n);
    }
    end
}

// Puts numbers, commas between, at a place, and answers the place after them; as `put_number` where they do not fit.
#[tactic(auto, using(crate::proofs::Coded::after_over, crate::proofs::Coded::putting_over, crate::proofs::Coded::after_not, crate::proofs::Coded::putting_not, crate::proofs::Coded::after_all, crate::proofs::Coded::putting_all))]
pub fn put_joined(out: &mut [u8], at: usize, numbers: &[u64]) -> usize
    ensures { (result ≡ W.after out.old at (J.joined numbers.now)) × (out.new ≡ W.putting out.old at (J.joined numbers.now)) }
{
    if out.len() < at {
        return at;
    }
    if !joined_fits(numbers, out.len() - at) {
        return at;
    }
    put_list(out, at, numbers)
}

// Reads the numbers into the places of their limits. Where the text is wrong it stops, with numbers in front and limits behind.
#[tactic(auto, using(crate::proofs::Search::placed, crate::proofs::Sofar::prepend_nil, crate::proofs::Sofar::cut, crate::proofs::Sofar::bad, crate::proofs::Sofar::last_bad, crate::proofs::Sofar::complete))]
fn read_each(s: &[u8], numbers: &mut [u64]) -> Option<()>
    ensures { W.answered (is_some result) numbers.new ≡ J.numbers_in numbers.old s.now }
{
    let Some((last, front)) = numbers.split_last_mut() else {
        return s.is_empty().then_some(());
    };
    let mut rest = s;
    for n in front.iter_mut() {
        let end = crate::find(rest, 0, b',')?;
        *n = crate::parse(&rest[..end], 0, *n)?;
        rest = &rest[end + 1..];
    }
    *last = crate::parse(rest, 0, *last)?;
    Some(())
}

// Reads as many numbers as the slice is long, commas between, and nothing else. The slice holds the most that each may be, and afterwards the numbers; 0 everywhere where the
// text is wrong.
pub fn read_joined(s: &[u8], numbers: &mut [u64]) -> bool
    ensures { (result ≡ W.is_some (J.numbers_in numbers.old s.now)) × (numbers.new ≡ W.or_zeros (length numbers.old) (J.numbers_in numbers.old s.now)) }
{
    let read = read_each(s, numbers).is_some();
    if !read {
        numbers.fill(0);
    }
    read
}
