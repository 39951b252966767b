// Points marked as apart, counted and found.
ghost use Rattle.std.specs.Prelude.{◌≡◌, cond, not, ◌^◌, ◌≤◌, leb, nat_abs, ◌-ℤ◌, length};
ghost use Rattle.integers.specs.Distance.{Within};
ghost use Rattle.compare.specs.Comparing as C;
ghost use Rattle.compare.specs.Workings as W;

// 2^62, far above what values and figures come to: a sum with it has reached it just where what was added is not negative.
const TOP: u64 = 4611686018427387904;

// The mark of two shown values and of how far they may differ: 0 where they agree, 1 where they are apart. Two sums decide it, one with their
// difference and one with it turned round: no branch and no test of 64-bit numbers, so that points are marked several at a time.
fn mark_of(most: u64, value1: i64, value2: i64) -> u64
    requires { (most ≤ 2 ^ 58) × Within (2 ^ 57) value1 × Within (2 ^ 57) value2 }
    ensures { result ≡ cond (not (leb (nat_abs (value1 -ℤ value2)) most)) 1 0 }
{
    let room = (TOP + most) as i64;
    let far = value1 - value2;
    2 - (room - far) as u64 / TOP - (room + far) as u64 / TOP
}

// A mark for each point; answers how many are apart.
pub(crate) fn mark(
    figure1: u64,
    values1: &[i64],
    figure2: u64,
    values2: &[i64],
    apart: &mut [u8],
) -> u64
    requires { W.Small figure1 values1.now × W.Small figure2 values2.now × (length values1.now ≡ length apart.old) × (length values2.now ≡ length apart.old) }
    ensures { (result ≡ C.points_apart (W.apart_by figure1 values1.now figure2 values2.now) (length apart.old)) × (apart.new ≡ C.marks (W.apart_by figure1 values1.now figure2 values2.now) (length apart.old)) }
{
    let most = figure1 + figure2;
    let mut number: u64 = 0;
    // The values by place: what a `zip` with `iter_mut` leaves in the marks, no proof knows.
    for (p, place) in apart.iter_mut().enumerate() {
        let mark = mark_of(most, values1[p], values2[p]);
        *place = mark as u8;
        number += mark;
    }
    number
}

// The first point that is marked, where so many are; 0 where none is, which needs no search.
pub(crate) fn first_apart(number: u64, apart: &[u8]) -> usize
    requires { number ≡ C.points_apart (W.marked apart.now) (length apart.now) }
    ensures { result ≡ C.first_apart (W.marked apart.now) (length apart.now) }
{
    if number == 0 {
        return 0;
    }
    let first = apart.iter().position(|mark| *mark == 1);
    first.unwrap_or(0)
}
