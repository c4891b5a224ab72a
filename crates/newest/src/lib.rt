// Takes in the newest row of a store: the one that stands in its list behind those that the header counts.
#![tactic(auto)]

ghost use Rattle.std.specs.Prelude.{◌≡◌, ◌≤◌, Ok, length};
ghost use Rattle.store.specs.Store.{store_bytes, with_working};
ghost use Rattle.newest.specs.Newest.{counted_in, Ranged, admission, admission_in, admitted, taken_by, newest_taken};

use absorb::Absorbed;
use places::Arrival;
use store::Head;

// ---- the header

// Writes how many rows there are, how many are taken, and how many kept.
#[tactic(auto, unfolding(crate::specs::Newest::counted_in))]
fn put_counts(store: &mut [u8], head: Head)
    ensures { store.new ≡ counted_in head.rows head.taken head.rank store.old }
{
    doubles::put_pair(store, store::ROWS, (head.rows % 65536) as u16);
    doubles::put_pair(store, store::TAKEN, (head.taken % 65536) as u16);
    doubles::put_pair(store, store::RANK, (head.rank % 65536) as u16);
}

// ---- the working

// Writes the arrival of the newest row behind those taken before, and takes the row in.
#[tactic(auto, unfolding(crate::specs::Newest::admission))]
fn admit(working: &mut [u8], row: &[u8], head: Head) -> Absorbed
    ensures answer { result ≡ (admission row.now head.rows head.taken head.rank working.old).answer }
    ensures working { working.new ≡ (admission row.now head.rows head.taken head.rank working.old).state }
{
    let arrival = Arrival(head.rows);
    noting::put_arrival(working, head.taken, arrival);
    absorb::absorb(working, row, arrival, head.rank)
}

// The same in a store, whose list and working lie apart.
fn admit_in(store: &mut [u8], head: Head) -> Absorbed
    requires { store_bytes ≤ length store.old }
    ensures answer { result ≡ (admission_in head store.old).answer }
    ensures store { store.new ≡ with_working (admission_in head store.old).state store.old }
{
    let (front, back) = store.split_at_mut(store::WORKING);
    let row = lists::row(&front[store::LIST..], head.l, Arrival(head.rows));
    admit(&mut back[..state::BYTES], row, head)
}

// ---- one row more

// One that counts: written in the order, taken in, and counted.
#[tactic(auto, using(echelon::proofs::Ranks::ranked_small), unfolding(crate::specs::Newest::admitted))]
fn take_in(store: &mut [u8], head: Head)
    requires long { store_bytes ≤ length store.old }
    requires ranged { Ranged head }
    ensures { store.new ≡ admitted head store.old }
{
    let absorbed = admit_in(store, head);
    put_counts(
        store,
        Head {
            rows: head.rows + 1,
            taken: head.taken + 1,
            rank: echelon::ranked(absorbed, head.rank),
            ..head
        },
    );
}

// One row more: a repeat is only counted. That the buffer is long enough stays a clause: with [u8; store::BYTES] for it, each equation
// would speak of a store cut off from the bytes behind it.
#[tactic(auto, unfolding(crate::specs::Newest::taken_by))]
fn take_row(store: &mut [u8], head: Head)
    requires long { store_bytes ≤ length store.old }
    requires ranged { Ranged head }
    ensures { store.new ≡ taken_by (Ok head) store.old }
{
    let rows = head.rows + 1;
    if noticing::is_repeat(store, head.l, Arrival(head.rows)) {
        put_counts(store, Head { rows, ..head });
    } else {
        take_in(store, head);
    }
}

// Takes in the newest row: a repeat of an earlier one is counted among the rows, and that is all; any other is kept, or its uses are counted. Nothing is
// written where the header is not one of a store.
#[tactic(auto, unfolding(crate::specs::Newest::newest_taken, crate::specs::Newest::taken_by))]
pub fn take(store: &mut [u8])
    ensures { store.new ≡ newest_taken store.old }
{
    if let Ok(head) = store::check(store) {
        take_row(store, head);
    }
}
