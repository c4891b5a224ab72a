// In which order the rows of a list are taken: the arrival numbers of those that count, written where elimination reads them.
#![tactic(auto)]

ghost use Rattle.std.specs.Prelude.{◌≡◌, ◌≤◌, length};
ghost use Rattle.places.specs.Places.{most_rows};
ghost use Rattle.rows.specs.Rows.{row_count, entries_of};
ghost use Rattle.repeats.specs.Repeats.{repeated};
ghost use Rattle.state.specs.Layout.{state_bytes, arrival_at};
ghost use Rattle.noting.specs.Noting.{noted_state};
ghost use Rattle.order.specs.Listed.{orderable, listed, taken_of, written, listed_state, Next, seed_at, taken_next, taken_state};

use places::Arrival;

// Whether the arrivals of so many rows can stand in a state of so many bytes.
#[tactic(auto, unfolding(crate::specs::Listed::orderable, places::specs::Places::most_rows, state::specs::Layout::state_bytes))]
fn ordering(m: usize, room: usize) -> bool
    ensures { result ≡ orderable m room }
{
    m <= places::MOST_ROWS && state::BYTES <= room
}

// Whether a row repeats an earlier one; and its seed is noted. Equal rows have equal seeds, so what the filter does not know is not looked for.
fn is_repeat(list: &[u8], l: u8, state: &mut [u8], arrival: Arrival) -> bool
    requires { Next l list.now arrival.0 state.old }
    ensures answer { result ≡ repeated l arrival.0 list.now }
    ensures state { state.new ≡ noted_state (seed_at l list.now arrival.0) state.old }
{
    noting::note(state, repeats::seed(list, l, arrival)) && repeats::is_repeat(list, l, arrival)
}

// Takes a row unless it repeats an earlier one: writes its arrival number behind those taken before, and gives how many there are then.
#[tactic(auto, unfolding(crate::specs::Listed::taken_next, crate::specs::Listed::taken_state))]
fn take_row(list: &[u8], l: u8, state: &mut [u8], i: usize, taken: usize) -> usize
    requires next { Next l list.now i state.old }
    requires few { taken ≤ i }
    ensures answer { result ≡ taken_next l list.now i taken }
    ensures state { state.new ≡ taken_state l list.now i taken state.old }
{
    if is_repeat(list, l, state, Arrival(i)) {
        return taken;
    }
    noting::put_arrival(state, taken, Arrival(i));
    taken + 1
}

// Takes the m rows of a list, one after the other. That the state is whole is a clause and no array type, as in `keeping`.
fn take_each(list: &[u8], l: u8, state: &mut [u8], m: usize) -> usize
    requires rows { m ≡ row_count l list.now }
    requires many { m ≤ most_rows }
    requires whole { state_bytes ≤ length state.old }
    ensures answer { result ≡ length (listed l list.now) }
    ensures state { state.new ≡ written l (entries_of l list.now) state.old }
{
    noting::forget(state);
    let mut taken: usize = 0;
    for i in 0..m {
        taken = take_row(list, l, state, i, taken);
    }
    taken
}

// "Rows are taken in list order": writes the arrival numbers of the rows that count, and gives how many there are. Document 02, wish 3: a row "equal to
// an earlier list row" does not. Where the list has over 512 rows or the state is too short, nothing is written and none is taken.
#[tactic(auto, unfolding(crate::specs::Listed::taken_of, crate::specs::Listed::listed_state, crate::specs::Listed::orderable, rows::specs::Rows::row_count, places::specs::Places::most_rows, state::specs::Layout::state_bytes))]
pub fn in_list_order(list: &[u8], l: u8, state: &mut [u8]) -> usize
    ensures answer { result ≡ taken_of l list.now (length state.old) }
    ensures state { state.new ≡ listed_state l list.now state.old }
{
    let m = lists::count(list.len(), l);
    if ordering(m, state.len()) {
        take_each(list, l, state, m)
    } else {
        0
    }
}

// The arrival at place i of the order; 0 where there is none.
pub fn arrival(state: &[u8], i: usize) -> Arrival
    ensures { result.0 ≡ arrival_at i state.now }
{
    Arrival(doubles::pair(state::order(state, places::MOST_ROWS), i) as usize)
}
