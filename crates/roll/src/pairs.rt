// Digits two at a time, by a table of the numbers below 100: a roll has some hundred thousand of them.
ghost use Rattle.std.specs.Prelude.{◌≡◌, ◌+◌, ◌-◌, ◌<◌, ◌≤◌, length};
ghost use Rattle.std.proofs.lemmas.List.Edits.{sets};
ghost use Rattle.text.specs.Decimal as D;
ghost use Rattle.roll.specs.Workings as W;

pub(crate) const PAIR_CHARACTERS: usize = 200;

// Character j of the table: each number's tens, then its ones.
fn pair_character(j: usize) -> u8
    requires { j < W.pair_characters }
    ensures { result ≡ W.pair_character j }
{
    if j % 2 == 0 {
        b'0' + (j / 20) as u8
    } else {
        b'0' + (j / 2 % 10) as u8
    }
}

// The table.
pub(crate) fn pairs() -> [u8; PAIR_CHARACTERS]
    ensures { result ≡ W.pair_table }
{
    std::array::from_fn(pair_character)
}

// Puts both characters of a number below 100.
fn put_pair(page: &mut [u8], at: usize, n: usize, pairs: &[u8; PAIR_CHARACTERS])
    requires { (at + 2 ≤ length page.old) × (n < 100) × (pairs.now ≡ W.pair_table) }
    ensures { page.new ≡ sets page.old at (W.pair n) }
{
    // By hand: with `copy_from_slice` for the two bytes a roll took nearly a tenth longer.
    let tens = pairs[2 * n];
    let ones = pairs[2 * n + 1];
    page[at] = tens;
    page[at + 1] = ones;
}

// Puts a number below 100 straight before a place, with no zero in front.
fn put_top(page: &mut [u8], end: usize, n: u64, pairs: &[u8; PAIR_CHARACTERS]) -> usize
    requires { (length (D.decimal n) ≤ end) × (end ≤ length page.old) × (n < 100) × (pairs.now ≡ W.pair_table) }
    ensures { (result ≡ end - length (D.decimal n)) × (page.new ≡ sets page.old (end - length (D.decimal n)) (D.decimal n)) }
{
    if n < 10 {
        page[end - 1] = b'0' + n as u8;
        return end - 1;
    }
    put_pair(page, end - 2, n as usize, pairs);
    end - 2
}

// Puts a number straight before a place, where there is room for it, and answers where its first character stands.
pub(crate) fn put_pairs(page: &mut [u8], end: usize, n: u64, pairs: &[u8; PAIR_CHARACTERS]) -> usize
    requires { (length (D.decimal n) ≤ end) × (end ≤ length page.old) × (pairs.now ≡ W.pair_table) }
    ensures { (result ≡ end - length (D.decimal n)) × (page.new ≡ sets page.old (end - length (D.decimal n)) (D.decimal n)) }
{
    let mut place = end;
    let mut rest = n;
    while 100 <= rest {
        place -= 2;
        put_pair(page, place, (rest % 100) as usize, pairs);
        rest = rest / 100;
    }
    put_top(page, place, rest, pairs)
}
