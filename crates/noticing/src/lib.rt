// Whether a row in a store repeats an earlier one. Equal rows have equal seeds, so a row is compared with others only where its seed may have been noted.
#![tactic(auto)]

ghost use Rattle.std.specs.Prelude.{◌≡◌, ◌≤◌, length};
ghost use Rattle.noting.specs.Noting.{noted_in, noted_state};
ghost use Rattle.store.specs.Store.{store_bytes, working_in, with_working};
ghost use Rattle.noticing.specs.Noticing.{is_repeat, noticed};

use places::Arrival;

// Notes a seed in the working, and tells whether it may have been noted before.
fn note(store: &mut [u8], seed: u32) -> bool
    requires { store_bytes ≤ length store.old }
    ensures answer { result ≡ noted_in seed (working_in store.old) }
    ensures store { store.new ≡ with_working (noted_state seed (working_in store.old)) store.old }
{
    noting::note(&mut store[store::WORKING..store::END], seed)
}

// Whether the row at an arrival number repeats an earlier one, if its seed may have been noted; and its seed is noted. Of a buffer that is too short it
// does not, and nothing is written.
pub fn is_repeat(store: &mut [u8], l: u8, arrival: Arrival) -> bool
    ensures answer { result ≡ is_repeat l arrival.0 store.old }
    ensures store { store.new ≡ noticed l arrival.0 store.old }
{
    if store.len() < store::BYTES {
        return false;
    }
    let seed = repeats::seed(store::list(store), l, arrival);
    note(store, seed) && repeats::is_repeat(store::list(store), l, arrival)
}
