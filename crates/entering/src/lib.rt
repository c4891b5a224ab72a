// The slots of solving, and one row that goes into them.
#![tactic(auto)]

ghost use Rattle.std.specs.Prelude.{◌≡◌, ◌<◌, length};
ghost use Rattle.slots.specs.Reducing.{reduce_answer, reduce_work};
ghost use Rattle.entering.specs.Enter.{slot_bytes, stored, goes_in, slots_with, enter_answer, enter_slots};

use slots::Reduced;

// The slots of solving: 64 vectors, one for each bit of a constraint, and then their heads.
const VECTOR: usize = 80;

const HEADS: usize = 5120;

pub const SLOTS: usize = 5632;

// The pass of a vector over slots, by their heads.
pub fn pass(work: &mut [u8], slots: &[u8]) -> Reduced
    ensures answer { result ≡ reduce_answer 8 slots.now work.old }
    ensures left { work.new ≡ reduce_work 8 slots.now work.old }
{
    let heads = HEADS.min(slots.len());
    slots::reduce(work, slots, &slots[heads..], 8)
}

// Stores a vector in slot t, and its first eight bytes where reducing looks for them.
fn store(slots: &mut [u8], t: usize, vector: &[u8])
    requires slot { t < 64 }
    requires slots { length slots.old ≡ slot_bytes }
    requires wide { length vector.now ≡ 80 }
    ensures { slots.new ≡ stored t vector.now slots.old }
{
    let at = t * VECTOR;
    let end = at + VECTOR;
    let h = HEADS + 8 * (63 - t);
    let i = h + 8;
    octets::copy(&mut slots[at..end], vector);
    littles::put_little(&mut slots[h..i], words::word(vector, 0));
}

// A vector goes into the slot where its pass stops; whether there was one.
fn put_in(slots: &mut [u8], work: &mut [u8]) -> bool
    requires slots { length slots.old ≡ slot_bytes }
    requires wide { length work.old ≡ 80 }
    ensures answer { result ≡ goes_in slots.old work.old }
    ensures slots { slots.new ≡ slots_with slots.old work.old }
{
    match pass(work, slots) {
        Reduced::Stopped(t) => {
            store(slots, t, work);
            true
        }
        Reduced::Spent | Reduced::Misfit => false,
    }
}

// A row goes into the slot where its pass stops; whether there was one.
#[tactic(auto, unfolding(crate::specs::Enter::enter_answer, crate::specs::Enter::enter_slots, crate::specs::Enter::slot_bytes, crate::specs::Enter::vector_of))]
pub fn enter(slots: &mut [u8], row: &[u8]) -> bool
    ensures answer { result ≡ enter_answer slots.old row.now }
    ensures slots { slots.new ≡ enter_slots slots.old row.now }
{
    if slots.len() != SLOTS {
        return false;
    }
    let mut work = [0u8; VECTOR];
    octets::copy(&mut work, row);
    put_in(slots, &mut work)
}
