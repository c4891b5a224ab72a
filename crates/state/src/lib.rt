// The state of an elimination in one buffer: where the slots, the uses, the kept places, the heads, the order and the filter of seeds lie. No other
// crate has a number of this layout.
#![tactic(auto)]

ghost use Rattle.std.specs.Prelude.{◌≡◌, ◌+◌, ◌*◌, ◌≤◌};
ghost use Rattle.places.specs.Places.{most_rows};
ghost use Rattle.tally.specs.Tally.{most_kept};
ghost use Rattle.state.specs.Layout.{uses_at, places_at, order_at, state_bytes, part_at, part, uses_part, places_part, order_part};
ghost use Rattle.state.specs.Written.{emptied};

// From 0 on the slots; where the uses, the kept places, the heads, the order and the filter begin; where the state ends.
pub const USES: usize = 25600;

pub const PLACES: usize = 26240;

pub const HEADS: usize = 27264;

pub const ORDER: usize = 29824;

pub const FILTER: usize = 30848;

pub const BYTES: usize = 31872;

// ---- parts handed back

// The n numbers of two bytes from a byte on, where at most so many stand, as that part of the state itself; the empty part at its start where
// there are fewer.
fn part(state: &[u8], at: usize, most: usize, n: usize) -> &[u8]
    requires { at + 2 * most ≤ state_bytes }
    ensures shows { result.now ≡ part at most n state.now }
    ensures points { result.ref_ptr ≡ (state.entry.ref_ptr.0, part_at at most n state.now + state.entry.ref_ptr.1) }
{
    if most < n || state.len() < BYTES {
        return &state[..0];
    }
    let end = at + 2 * n;
    &state[at..end]
}

// The uses of the first so many kept places.
pub fn uses(state: &[u8], rank: usize) -> &[u8]
    ensures shows { result.now ≡ uses_part rank state.now }
    ensures points { result.ref_ptr ≡ (state.entry.ref_ptr.0, part_at uses_at most_kept rank state.now + state.entry.ref_ptr.1) }
{
    part(state, USES, tally::MOST_KEPT, rank)
}

// What the first m arrivals were given.
pub fn places(state: &[u8], m: usize) -> &[u8]
    ensures shows { result.now ≡ places_part m state.now }
    ensures points { result.ref_ptr ≡ (state.entry.ref_ptr.0, part_at places_at most_rows m state.now + state.entry.ref_ptr.1) }
{
    part(state, PLACES, places::MOST_ROWS, m)
}

// The first so many arrivals of the order.
pub fn order(state: &[u8], taken: usize) -> &[u8]
    ensures shows { result.now ≡ order_part taken state.now }
    ensures points { result.ref_ptr ≡ (state.entry.ref_ptr.0, part_at order_at most_rows taken state.now + state.entry.ref_ptr.1) }
{
    part(state, ORDER, places::MOST_ROWS, taken)
}

// ---- no rows

// Makes the state empty; the order and the filter stay.
#[tactic(auto, unfolding(crate::specs::Written::emptied, crate::specs::Layout::state_bytes))]
pub fn clear(state: &mut [u8])
    ensures { state.new ≡ emptied state.old }
{
    if BYTES <= state.len() {
        state[..ORDER].fill(0);
    }
}
