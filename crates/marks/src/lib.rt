// Marks each row at its arrival number with its uses, as numbers or as pairs of bytes, by the kept place that its arrival was given.
#![tactic(auto)]

ghost use Rattle.std.specs.Prelude.{◌≡◌, ◌/◌, ℕ, List, length, set};
ghost use Rattle.octets.specs.Octets.{flat, over};
ghost use Rattle.doubles.specs.Doubles.{pairs_in, pair_at, put_pair};
ghost use Rattle.places.specs.Places.{given_by};
ghost use Rattle.marks.specs.Mark as mark;
ghost use Rattle.marks.specs.Uses.{Written, KeptBack};

use places::Arrival;

// "65535 for another", a row that is not kept.
const NOT_KEPT: u16 = 65535;

// ---- how a buffer holds uses

// What uses are written into: 16-bit numbers, one for each use, or bytes, two for each.
pub trait Uses {
    // For how many uses so many elements have room.
    ghost room_in: { ℕ → ℕ };

    // The uses that elements stand for.
    ghost counts: { List Self → List ℕ };

    // Elements with the use at a place written anew.
    ghost put_at: { ℕ → ℕ → List Self → List Self };

    // Elements with the first uses written anew; all further ones stay.
    ghost written: { List ℕ → List Self → List Self };

    // For how many uses a buffer has room. What links the four above is promised here, and is no law of the trait, since a law would have to cite its
    // proof in this file, where no proof is cited.
    fn room(uses: &[Self]) -> usize
        ensures room { result ≡ room_in (length uses.now) }
        ensures one_more { Written room_in put_at written }
        ensures back { KeptBack room_in counts written uses.now };

    // Writes the use at an arrival; past the end nothing is written.
    fn put(uses: &mut [Self], arrival: Arrival, count: u16)
        ensures { uses.new ≡ put_at arrival.0 count uses.old };
}

impl Uses for u16 {
    ghost room_in = { λ k. k };

    ghost counts = { λ uses. uses };

    ghost put_at = { λ i x uses. set uses i x };

    ghost written = { over };

    fn room(uses: &[u16]) -> usize {
        uses.len()
    }

    fn put(uses: &mut [u16], arrival: Arrival, count: u16) {
        if arrival.0 < uses.len() {
            uses[arrival.0] = count;
        }
    }
}

// Pairs of bytes, the higher byte first.
impl Uses for u8 {
    ghost room_in = { λ k. k / 2 };

    ghost counts = { pairs_in };

    ghost put_at = { put_pair };

    ghost written = { λ uses bytes. over (flat 2 uses) bytes };

    fn room(uses: &[u8]) -> usize {
        uses.len() / 2
    }

    fn put(uses: &mut [u8], arrival: Arrival, count: u16) {
        doubles::put_pair(uses, arrival.0, count);
    }
}

// ---- what is marked at one arrival

// The uses of the row at an arrival.
#[tactic(auto, unfolding(crate::specs::Mark::uses_of))]
fn uses_at(places: &[u8], counts: &[u8], arrival: Arrival) -> u16
    ensures { result ≡ mark.uses_of counts.now (given_by (pair_at arrival.0 places.now)) }
{
    match places::given(places, arrival) {
        Some(place) => places::uses(counts, place),
        None => NOT_KEPT,
    }
}

// ---- the uses of all rows

// The uses of each row, from the bytes that tell the kept places of arrivals and those that count uses by kept place, 2 each.
// Writes nothing where there is no room for each row.
pub fn put_uses<U: Uses>(places: &[u8], counts: &[u8], uses: &mut [U])
    ensures { uses.new ≡ mark.uses_after_in U.room_in U.written places.now counts.now uses.old }
{
    let rows = places.len() / 2;
    if U::room(uses) < rows {
        return;
    }
    for arrival in 0..rows {
        let arrival = Arrival(arrival);
        U::put(uses, arrival, uses_at(places, counts, arrival));
    }
}
