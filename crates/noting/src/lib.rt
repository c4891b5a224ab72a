// How a state is written before any row is taken in: arrivals in its order, and seeds in its filter.
#![tactic(auto)]

ghost use Rattle.std.specs.Prelude.{◌≡◌};
ghost use Rattle.noting.specs.Noting.{ordered_state, forgotten, noted_in, noted_state};

use places::Arrival;

// ---- the order

// Writes an arrival at place i of the order; nothing where there is no such place, or no list has such an arrival.
#[tactic(auto, unfolding(crate::specs::Noting::ordered_state, crate::specs::Noting::orders, places::specs::Places::most_rows, state::specs::Layout::state_bytes))]
pub fn put_arrival(state: &mut [u8], i: usize, arrival: Arrival)
    ensures { state.new ≡ ordered_state i arrival.0 state.old }
{
    if i < places::MOST_ROWS && arrival.0 < places::MOST_ROWS && state::BYTES <= state.len() {
        doubles::put_pair(&mut state[state::ORDER..state::FILTER], i, arrival.0 as u16);
    }
}

// ---- the filter of seeds

// Makes the filter empty: no seed is noted.
#[tactic(auto, unfolding(crate::specs::Noting::forgotten, state::specs::Layout::state_bytes))]
pub fn forget(state: &mut [u8])
    ensures { state.new ≡ forgotten state.old }
{
    if state::BYTES <= state.len() {
        state[state::FILTER..state::BYTES].fill(0);
    }
}

// Notes a seed, and tells whether it may have been noted before; it may where the state is too short, and nothing is written.
#[tactic(auto, unfolding(crate::specs::Noting::noted_in, crate::specs::Noting::noted_state, state::specs::Layout::state_bytes))]
pub fn note(state: &mut [u8], seed: u32) -> bool
    ensures answer { result ≡ noted_in seed state.old }
    ensures state { state.new ≡ noted_state seed state.old }
{
    if state.len() < state::BYTES {
        return true;
    }
    filter::note(&mut state[state::FILTER..state::BYTES], seed)
}
