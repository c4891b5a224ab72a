// One row more in the state of an elimination: it is kept, or the uses that it makes of kept rows are counted.
#![tactic(auto)]

ghost use Rattle.std.specs.Prelude.{◌≡◌, true, ◌≤◌, length, replicate};
ghost use Rattle.octets.specs.Octets.{number, bytes};
ghost use Rattle.state.specs.Layout.{vector_bytes, state_bytes};
ghost use Rattle.absorb.specs.Absorbing.{pass_in, taken, takes, absorption};

use places::Arrival;
use slots::Reduced;

// What became of a row; Misfit is for arguments that do not fit. Three outcomes with nothing beside them: a Result would only part the third from the others.
#[derive(Clone, Copy)]
pub enum Absorbed {
    Kept,
    Other,
    Misfit,
}

// The row with an empty tail, reduced by the slots. That the state is whole is a clause and no array type, as in `keeping`.
fn attempt(work: &mut [u8], row: &[u8], state: &[u8]) -> usize
    requires empty { work.old ≡ replicate vector_bytes 0 }
    requires row { length row.now ≤ 40 }
    requires whole { state_bytes ≤ length state.now }
    ensures stop { result ≡ (pass_in (length row.now) (number row.now) state.now).stop }
    ensures left { work.new ≡ bytes vector_bytes (pass_in (length row.now) (number row.now) state.now).vector }
{
    let key = row.len();
    octets::copy(work, row);
    match reducing::reduce(work, state, key) {
        Reduced::Stopped(t) => t,
        Reduced::Spent | Reduced::Misfit => 8 * key,
    }
}

// Takes one row in.
fn take_in(state: &mut [u8], row: &[u8], arrival: Arrival, rank: usize) -> Absorbed
    requires { takes (length row.now) arrival.0 rank (length state.old) ≡ true }
    ensures answer { result ≡ (taken (length row.now) (pass_in (length row.now) (number row.now) state.old) arrival.0 rank state.old).answer }
    ensures state { state.new ≡ (taken (length row.now) (pass_in (length row.now) (number row.now) state.old) arrival.0 rank state.old).state }
{
    let key = row.len();
    let mut work = [0u8; slotting::VECTOR];
    let t = attempt(&mut work, row, state);
    if 8 * key <= t {
        counting::count(state, &work[tally::TAIL..slotting::VECTOR], arrival, rank);
        return Absorbed::Other;
    }
    if rank < tally::MOST_KEPT {
        keeping::keep(state, &work, t, arrival, rank);
        Absorbed::Kept
    } else {
        Absorbed::Misfit
    }
}

// Whether a row of so many bytes, at this arrival with so many rows kept before, fits a state of so many bytes.
#[tactic(auto, unfolding(crate::specs::Absorbing::takes, tally::specs::Tally::most_kept, places::specs::Places::most_rows, state::specs::Layout::state_bytes))]
fn taking(key: usize, arrival: Arrival, rank: usize, room: usize) -> bool
    ensures { result ≡ takes key arrival.0 rank room }
{
    9 <= key
        && key <= 40
        && arrival.0 < places::MOST_ROWS
        && rank <= tally::MOST_KEPT
        && state::BYTES <= room
}

// One row more, after so many were kept: keeps it, or counts the uses that it makes of those.
#[tactic(auto, unfolding(crate::specs::Absorbing::absorption))]
pub fn absorb(state: &mut [u8], row: &[u8], arrival: Arrival, rank: usize) -> Absorbed
    ensures answer { result ≡ (absorption (length row.now) (number row.now) arrival.0 rank state.old).answer }
    ensures state { state.new ≡ (absorption (length row.now) (number row.now) arrival.0 rank state.old).state }
{
    if taking(row.len(), arrival, rank, state.len()) {
        take_in(state, row, arrival, rank)
    } else {
        Absorbed::Misfit
    }
}
