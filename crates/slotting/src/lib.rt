// How a kept row stands in its slot: its vector, with the digit in the tail that names its kept place; and its head, where reducing looks for it.
#![tactic(auto)]

ghost use Rattle.std.specs.Prelude.{◌≡◌};
ghost use Rattle.slotting.specs.Slotting.{slotted, headed};

use places::KeptPlace;

// A slot has a vector: a row and its tail.
pub const VECTOR: usize = 80;

// The vector, and in its tail the digit that names its kept place, to slot t. Nothing is written where they do not fit.
#[tactic(auto, unfolding(crate::specs::Slotting::slotted, crate::specs::Slotting::fits_slot, crate::specs::Slotting::vector_bytes))]
pub fn put(slots: &mut [u8], vector: &[u8], t: usize, place: KeptPlace)
    ensures { slots.new ≡ slotted t vector.now place.0 slots.old }
{
    if vector.len() != VECTOR || slots.len() / VECTOR <= t {
        return;
    }
    let at = t * VECTOR;
    let e = at + VECTOR;
    octets::copy(&mut slots[at..e], &vector[..VECTOR]);
    places::name(&mut slots[at..e], place);
}

// Repeats the eight bytes of a vector in which the digit of slot t stands, where reducing looks for them. Nothing is written where there are no
// heads for that slot.
#[tactic(auto, unfolding(crate::specs::Slotting::headed))]
pub fn put_head(heads: &mut [u8], vector: &[u8], t: usize)
    ensures { heads.new ≡ headed t vector.now heads.old }
{
    if heads.len() / 512 <= t / 64 {
        return;
    }
    let h = 512 * (t / 64) + 8 * (63 - t % 64);
    let e = h + 8;
    littles::put_little(&mut heads[h..e], words::word(vector, 8 * (t / 64)));
}
