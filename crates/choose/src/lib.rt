// Chooses rows by their uses: which kept rows are picked, or whether there is a tie.
#![tactic(auto)]

ghost use Rattle.std.specs.Prelude.{◌≡◌, cond, ◌+◌, ◌*◌, ◌<◌, leb};
ghost use Rattle.space.specs.Lists.{count};
ghost use Rattle.doubles.specs.Doubles.{pairs_in};
ghost use Rattle.choose.specs.Pick as pick;

// Why the uses choose no rows: too few, answer 5 of a reading; or a tie, its answer 6.
#[derive(Clone, Copy)]
pub enum Unpicked {
    Few,
    Tie,
}

// More uses than two bytes can count: the rows with so many are none.
pub const NONE_PICKED: usize = 65536;

// How many rows have `least` uses or more.
fn reached(counts: &[u8], least: usize) -> usize
    ensures { result ≡ count (leb least) (pairs_in counts.now) }
{
    (0..counts.len() / 2)
        .filter(|&i| least <= doubles::pair(counts, i) as usize)
        .count()
}

// The number sought is `low` or more. It is above `middle` exactly where more than n rows reach `middle`.
fn raised(n: usize, counts: &[u8], low: usize, middle: usize) -> usize
    requires { middle < 2 * pick.none_picked }
    ensures { result ≡ cond (leb (count (leb middle) (pairs_in counts.now)) n) low (middle + 1) }
{
    if reached(counts, middle) <= n {
        low
    } else {
        middle + 1
    }
}

// The fewest uses that a picked row can have, by halving an interval that holds it.
fn least(n: usize, counts: &[u8]) -> usize
    ensures { result ≡ pick.least n (pairs_in counts.now) }
{
    let mut low = 0;
    let mut width = NONE_PICKED;
    while 0 < width {
        width /= 2;
        low = raised(n, counts, low, low + width);
    }
    low
}

// Which kept rows are picked, from the bytes that count their uses, 2 for each kept place: those with this many uses or more.
#[tactic(auto, using(crate::proofs::Threshold::picking), unfolding(crate::specs::Pick::choice_of))]
pub fn pick(n: u8, counts: &[u8]) -> Result<usize, Unpicked>
    ensures { result ≡ pick.choice_of n (pairs_in counts.now) }
{
    let symbols = n as usize;
    if counts.len() / 2 < symbols {
        return Err(Unpicked::Few);
    }
    let least = least(symbols, counts);
    if reached(counts, least) == symbols {
        Ok(least)
    } else {
        Err(Unpicked::Tie)
    }
}
