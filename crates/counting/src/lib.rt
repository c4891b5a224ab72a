// How a state is written where a row is not kept: its uses are counted, and its arrival is given no kept place.
#![tactic(auto)]

ghost use Rattle.std.specs.Prelude.{◌≡◌, length};
ghost use Rattle.octets.specs.Octets.{number};
ghost use Rattle.counting.specs.Counting.{CountRoom, row_counted, counted_state};

use places::Arrival;

fn count_row(state: &mut [u8], tail: &[u8], arrival: Arrival, rank: usize)
    requires { CountRoom (length tail.now) arrival.0 rank (length state.old) }
    ensures { state.new ≡ row_counted (number tail.now) arrival.0 rank state.old }
{
    let e = state::USES + 2 * rank;
    tally::tally(&mut state[state::USES..e], tail, rank);
    places::give_none(&mut state[state::PLACES..state::HEADS], arrival);
}

// Counts a use of each of the rows kept so far that the tail names, and gives the arrival no kept place. Nothing is written where they do not fit.
#[tactic(auto, unfolding(crate::specs::Counting::counted_state, crate::specs::Counting::tallies, tally::specs::Tally::most_kept, tally::specs::Tally::tail_bytes, places::specs::Places::most_rows, state::specs::Layout::state_bytes))]
pub fn count(state: &mut [u8], tail: &[u8], arrival: Arrival, rank: usize)
    ensures { state.new ≡ counted_state tail.now arrival.0 rank state.old }
{
    if tail.len() == tally::TAIL
        && arrival.0 < places::MOST_ROWS
        && rank <= tally::MOST_KEPT
        && state::BYTES <= state.len()
    {
        count_row(state, tail, arrival, rank);
    }
}
