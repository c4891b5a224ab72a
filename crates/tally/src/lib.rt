// How often each kept row is used: one use more for each kept place that a tail names.
#![tactic(auto)]

ghost use Rattle.std.specs.Prelude.{◌≡◌, ◌+◌, ◌*◌, ◌/◌, ◌^◌, ◌<◌, ◌≤◌, length, take, drop};
ghost use Rattle.octets.specs.Octets.{number, bytes, lay};
ghost use Rattle.tally.specs.Tally.{Tallied, tail_bytes, most_kept, raised_uses, tallied};

// A row of 40 bytes has 320 digits, so no more rows are kept; a tail has a digit for each.
pub const MOST_KEPT: usize = 320;

pub const TAIL: usize = 40;

// One use more for the kept place that the digit worth 2^j of a tail names.
fn raise(uses: &mut [u8], j: usize)
    requires { 2 * j + 2 ≤ length uses.old }
    ensures { uses.new ≡ lay (2 * j) (bytes 2 (number (take 2 (drop (2 * j) uses.old)) + 1)) uses.old }
{
    doubles::put_pair(uses, j, doubles::pair(uses, j).wrapping_add(1));
}

// One use more for each of the kept places from j on that a bit of names stands for.
fn tally_word(uses: &mut [u8], j: usize, names: u64)
    requires { names * 2 ^ j < 2 ^ (length uses.old / 2) }
    ensures { Tallied j names uses.old uses.new }
{
    for bit in bits::set_bits(names) {
        raise(uses, j + bit);
    }
}

// The same for a whole tail, eight bytes at a time.
fn tally_words(uses: &mut [u8], tail: &[u8], r: usize)
    requires uses { length uses.old ≡ 2 * r }
    requires tail { length tail.now ≡ tail_bytes }
    requires few { r ≤ most_kept }
    ensures { uses.new ≡ raised_uses r tail.now uses.old }
{
    for j in (0..r).step_by(64) {
        let names = words::word(tail, TAIL - 8 - j / 8);
        tally_word(uses, j, bits::low(names, r - j));
    }
}

// One use more for each of the r kept places that the tail names. Nothing is written where that many uses, or the tail, do not fit.
#[tactic(auto, unfolding(crate::specs::Tally::tallied, crate::specs::Tally::tallies, crate::specs::Tally::most_kept, crate::specs::Tally::tail_bytes))]
pub fn tally(uses: &mut [u8], tail: &[u8], r: usize)
    ensures { uses.new ≡ tallied r tail.now uses.old }
{
    if r <= MOST_KEPT && tail.len() == TAIL && uses.len() == 2 * r {
        tally_words(uses, tail, r);
    }
}
