// Algorithm 2 over bytes: which rows of a list are kept, and how often each is used. Rows are taken in the order that stands in the state.
#![tactic(auto)]

ghost use Rattle.std.specs.Prelude.{◌≡◌, ◌%◌, ◌^◌, ◌<◌, ◌≤◌, length};
ghost use Rattle.places.specs.Places.{most_rows};
ghost use Rattle.state.specs.Layout.{state_bytes, order_in};
ghost use Rattle.echelon.specs.Eliminating.{rank_after, one_more, absorb_in, eliminates, elimination};

use absorb::Absorbed;
use places::Arrival;

// The number of kept rows after a row; behind the largest number comes 0.
#[tactic(auto, unfolding(crate::specs::Eliminating::rank_after))]
pub fn ranked(absorbed: Absorbed, rank: usize) -> usize
    ensures { result ≡ rank_after absorbed rank % 2 ^ 64 }
{
    match absorbed {
        Absorbed::Kept => rank.wrapping_add(1),
        Absorbed::Other => rank,
        Absorbed::Misfit => rank,
    }
}

// The row of one arrival more: gives how many rows are kept then.
#[tactic(auto, using(crate::proofs::Ranks::ranked_small), unfolding(crate::specs::Eliminating::one_more))]
fn absorb_at(state: &mut [u8], list: &[u8], l: u8, arrival: Arrival, rank: usize) -> usize
    requires { rank < most_rows }
    ensures rank { result ≡ (one_more l list.now arrival.0 (record { state = state.entry.now; rank = rank })).rank }
    ensures state { state.exit.now ≡ (one_more l list.now arrival.0 (record { state = state.entry.now; rank = rank })).state }
{
    let absorbed = absorb::absorb(state, lists::row(list, l, arrival), arrival, rank);
    ranked(absorbed, rank)
}

// Takes in the rows of the first so many arrivals in the order, one after the other, and gives how many were kept. That the state is whole is a clause, as in
// `keeping`.
fn absorb_each(state: &mut [u8], list: &[u8], l: u8, taken: usize) -> usize
    requires few { taken ≤ most_rows }
    requires whole { state_bytes ≤ length state.old }
    ensures rank { result ≡ (absorb_in l list.now (order_in taken state.entry.now) (record { state = state.entry.now; rank = 0 })).rank }
    ensures state { state.exit.now ≡ (absorb_in l list.now (order_in taken state.entry.now) (record { state = state.entry.now; rank = 0 })).state }
{
    let mut rank: usize = 0;
    for i in 0..taken {
        let arrival = order::arrival(state, i);
        rank = absorb_at(state, list, l, arrival, rank);
    }
    rank
}

// Whether so many rows with payloads of l bytes fit a state of so many bytes.
#[tactic(auto, unfolding(crate::specs::Eliminating::eliminates, state::specs::Layout::state_bytes))]
fn eliminating(l: u8, taken: usize, room: usize) -> bool
    ensures { result ≡ eliminates l taken room }
{
    1 <= l && l <= 32 && taken <= places::MOST_ROWS && state::BYTES <= room
}

// Eliminates the rows of a list whose arrivals are the first so many in the state's order, as they stand there, in a state made empty first but for
// the order, and gives their rank; where they do not fit there is none, and nothing is written.
#[tactic(auto, unfolding(crate::specs::Eliminating::elimination))]
pub fn eliminate(state: &mut [u8], list: &[u8], l: u8, taken: usize) -> Option<usize>
    ensures answer { result ≡ (elimination l list.now taken state.old).answer }
    ensures state { state.new ≡ (elimination l list.now taken state.old).state }
{
    if !eliminating(l, taken, state.len()) {
        return None;
    }
    state::clear(state);
    Some(absorb_each(state, list, l, taken))
}
