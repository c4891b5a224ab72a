// How a state is written where a row is kept: its vector in a slot, its head, and the kept place that its arrival is given.
#![tactic(auto)]

ghost use Rattle.std.specs.Prelude.{◌≡◌, ◌*◌, ◌^◌, ◌≤◌, ◌<◌, length};
ghost use Rattle.space.specs.Space.{◌⊕◌};
ghost use Rattle.octets.specs.Octets.{number, bytes, lay};
ghost use Rattle.places.specs.Places.{most_rows};
ghost use Rattle.tally.specs.Tally.{most_kept};
ghost use Rattle.slotting.specs.Slotting.{head_of};
ghost use Rattle.state.specs.Layout.{vector_bytes, state_bytes};
ghost use Rattle.keeping.specs.Keeping.{head_at, placed_state, KeepRoom, row_kept, kept_state};

use places::{Arrival, KeptPlace};

// The head of slot t, where reducing looks for it. The state is no array of BYTES lent by `first_chunk_mut`: that was tried, and it takes a law that four nested
// writes in the first bytes are those in the whole state, for one clause less in three functions.
fn put_head(state: &mut [u8], vector: &[u8], t: usize)
    requires slot { t < most_kept }
    requires whole { state_bytes ≤ length state.old }
    ensures { state.new ≡ lay (head_at t) (head_of t vector.now) state.old }
{
    slotting::put_head(&mut state[state::HEADS..state::ORDER], vector, t);
}

// The vector, and in its tail the digit that names its kept place, to slot t.
fn put_vector(state: &mut [u8], vector: &[u8], t: usize, place: KeptPlace)
    requires slot { t < most_kept }
    requires place { place.0 < most_kept }
    requires wide { length vector.now ≡ vector_bytes }
    requires whole { state_bytes ≤ length state.old }
    ensures { state.new ≡ lay (t * vector_bytes) (bytes vector_bytes (number vector.now ⊕ 2 ^ place.0)) state.old }
{
    slotting::put(&mut state[..state::USES], vector, t, place);
}

// This is where an arrival gets a kept place: the next one, with no uses yet.
fn give_place(state: &mut [u8], arrival: Arrival, rank: usize) -> KeptPlace
    requires arrival { arrival.0 < most_rows }
    requires rank { rank < most_kept }
    requires whole { state_bytes ≤ length state.old }
    ensures place { result.0 ≡ rank }
    ensures state { state.new ≡ placed_state arrival.0 rank state.old }
{
    let place = places::give(&mut state[state::PLACES..state::HEADS], arrival, rank);
    places::no_uses(&mut state[state::USES..state::PLACES], place);
    place
}

fn keep_row(state: &mut [u8], vector: &[u8], t: usize, arrival: Arrival, rank: usize)
    requires { KeepRoom t arrival.0 rank (length vector.now) (length state.old) }
    ensures { state.new ≡ row_kept t vector.now arrival.0 rank state.old }
{
    let place = give_place(state, arrival, rank);
    put_head(state, vector, t);
    put_vector(state, vector, t, place);
}

// Keeps the row of an arrival, whose vector stopped at slot t. Nothing is written where they do not fit.
#[tactic(auto, unfolding(crate::specs::Keeping::kept_state, crate::specs::Keeping::keeps, tally::specs::Tally::most_kept, places::specs::Places::most_rows, slotting::specs::Slotting::vector_bytes, state::specs::Layout::state_bytes))]
pub fn keep(state: &mut [u8], vector: &[u8], t: usize, arrival: Arrival, rank: usize)
    ensures { state.new ≡ kept_state t vector.now arrival.0 rank state.old }
{
    if t < tally::MOST_KEPT
        && arrival.0 < places::MOST_ROWS
        && rank < tally::MOST_KEPT
        && vector.len() == slotting::VECTOR
        && state::BYTES <= state.len()
    {
        keep_row(state, vector, t, arrival, rank);
    }
}
