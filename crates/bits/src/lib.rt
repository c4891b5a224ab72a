// The set bits of a number of 64 bits.
#![tactic(auto)]

ghost use Rattle.std.specs.Prelude.{◌≡◌, ◌-◌, ◌%◌, ◌^◌};
ghost use Rattle.std.specs.Iterator.{at_most};
ghost use Rattle.std.specs.Option.{MatchOption};
ghost use Rattle.bits.specs.Bits.{highest, lowest, TakesLowest};

// The index of the highest set bit; 0 where none is set.
pub fn top(x: u64) -> usize
    ensures { result ≡ highest x }
{
    x.checked_ilog2().unwrap_or(0) as usize
}

// The index of the lowest set bit; 64 where none is set.
pub fn bottom(x: u64) -> usize
    ensures { result ≡ lowest x }
{
    x.trailing_zeros() as usize
}

// What is left without the lowest set bit.
pub fn without_bottom(x: u64) -> u64
    ensures { result ≡ x - 2 ^ lowest x }
{
    x & x.wrapping_sub(1)
}

// The lowest bits of x, n of them.
pub fn low(x: u64, n: usize) -> u64
    ensures { result ≡ x % 2 ^ n }
{
    if n < 64 { x % (1u64 << n) } else { x }
}

// The set bits of a number that are still to come, the lowest first.
#[derive(Drop)]
pub struct SetBits {
    rest: u64,
}

impl Iterator for SetBits {
    type Item = usize;

    ghost next_gives = { λ s bit t. MatchOption bit ((s.rest ≡ 0) × (t.rest ≡ 0)) (λ k. TakesLowest s.rest k t.rest) };

    ghost remaining = { λ s. at_most s.rest };

    fn next(&mut self) -> Option<usize> {
        if self.rest == 0 {
            return None;
        }
        let bit = bottom(self.rest);
        self.rest = without_bottom(self.rest);
        Some(bit)
    }
}

// The indices of the set bits, from the lowest up.
pub fn set_bits(x: u64) -> SetBits
    ensures { result.rest ≡ x }
{
    SetBits { rest: x }
}
