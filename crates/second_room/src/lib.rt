// Whether there is room for a second reading: its list and its buffers, before anything is read. Document 02, wish 1.
#![tactic(auto)]

ghost use Rattle.std.specs.Prelude.{◌≡◌};
ghost use Rattle.gate.specs.Gate.{gate};
ghost use Rattle.second_room.specs.Fits.{fits_too};

use gate::{Lengths, Refusal};

// Whether the second buffers are long enough, or an earlier refusal comes first.
#[tactic(auto, unfolding(crate::specs::Fits::fits_too))]
pub fn fits_too(n: u8, l: u8, list: usize, list2: usize, lent2: Lengths) -> bool
    ensures { result ≡ fits_too (gate n l list lent2.page lent2.uses lent2.roles lent2.scratch) list list2 }
{
    match gate::check(n, l, list, lent2) {
        Ok(()) => list <= list2,
        Err(Refusal::Shape) => true,
        Err(Refusal::List) => true,
        Err(Refusal::Room) => false,
    }
}
