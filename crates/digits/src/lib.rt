// Numbers to the base -2. A coefficient is an i32; a word holds its digits, digit p in bit p.
#![tactic(auto)]

mod table;

ghost use Rattle.std.specs.Prelude.{◌≡◌, min, neg_ℤ};
ghost use Rattle.digits.specs.Digits as D;
ghost use Rattle.digits.specs.Digits.{value, digit_at, fewest};
ghost use Rattle.digits.specs.Groups.{bits_of};
ghost use Rattle.digits.specs.Workings.{digits_most};

pub use table::{GROUPS, by_groups, group_values};

// The number whose digits are the word's bits, the lowest of which adds its weight. The demand has the two sums call one another
// (docs/DECISIONS.md).
#[cycle(even_places_odd_places)]
#[tactic(auto, using(crate::proofs::Coded::sum_none, crate::proofs::Coded::even_wide, crate::proofs::Coded::even_sum))]
pub fn even_places(word: u32) -> i64
    ensures { result ≡ value (bits_of 32 word) }
{
    if word == 0 {
        0
    } else {
        (word % 2) as i64 + 2 * odd_places(word / 2)
    }
}

// The same where the lowest digit stands at an odd place and takes its weight away.
#[cycle(even_places_odd_places)]
#[tactic(auto, using(crate::proofs::Coded::sum_none, crate::proofs::Coded::odd_wide, crate::proofs::Coded::odd_less_wide, crate::proofs::Coded::odd_sum))]
pub fn odd_places(word: u32) -> i64
    ensures { result ≡ neg_ℤ (value (bits_of 32 word)) }
{
    if word == 0 {
        0
    } else {
        2 * even_places(word / 2) - (word % 2) as i64
    }
}

// The digits that hold every i32, and the weights of the odd places among them.
const MOST_DIGITS: u64 = 33;

const ODD_WEIGHTS: i64 = 2863311530;

// Digit p of q: bit p of q and the odd weights together, turned over at an odd place.
#[tactic(auto, using(crate::proofs::Coded::digit_none, crate::proofs::Coded::digit_even, crate::proofs::Coded::digit_odd))]
pub fn digit(q: i32, p: u64) -> u64
    ensures { result ≡ digit_at q p }
{
    if MOST_DIGITS <= p {
        return 0;
    }
    let word = (q as i64 + ODD_WEIGHTS) as u64;
    let bit = (word >> p) % 2;
    if p % 2 == 0 { bit } else { 1 - bit }
}

// The fewest digits that hold q: n digits reach from low to high.
#[tactic(auto, using(crate::proofs::Coded::ends_none, crate::proofs::Coded::doubled_high, crate::proofs::Coded::doubled_low, crate::proofs::Coded::next_wide, crate::proofs::Coded::next_low, crate::proofs::Coded::next_high, crate::proofs::Coded::below, crate::proofs::Coded::above, crate::proofs::Coded::all_needed))]
pub fn digits_needed(q: i32) -> u64
    ensures { result ≡ fewest q }
{
    let wide = q as i64;
    let mut low: i64 = 0;
    let mut high: i64 = 0;
    for n in 0..MOST_DIGITS {
        if low <= wide && wide <= high {
            return n;
        }
        (low, high) = (-2 * high, 1 - 2 * low);
    }
    MOST_DIGITS
}

// What is lost at most where the d lowest digits are missing and their middle is counted: half of a power.
#[tactic(auto, using(crate::proofs::Coded::lost))]
pub fn loss(d: u64) -> u64
    ensures { result ≡ D.loss (min d digits_most) }
{
    let n = d.min(MOST_DIGITS);
    (1 << n) / 2
}

// What d missing digits count as, the middle of what they can be: their largest less the loss; 0 where none are missing, as of most layers.
#[tactic(auto, using(crate::proofs::Coded::middle_clear, crate::proofs::Coded::loss_small, crate::proofs::Coded::middle_wide, crate::proofs::Coded::middle_fits, crate::proofs::Coded::middle_counted))]
pub fn middle(d: u64) -> i32
    ensures { result ≡ D.middle (min d digits_most) }
{
    if d == 0 {
        return 0;
    }
    let n = d.min(MOST_DIGITS);
    let largest: u64 = ((1 << (n + n % 2)) - 1) / 3;
    (largest as i64 - loss(d) as i64) as i32
}
