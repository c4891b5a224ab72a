// The two ways to count rows, each a type of its own: by arrival, and by kept place. "a slip of one for the other must not compile."
#![tactic(auto)]

ghost use Rattle.std.specs.Prelude.{◌≡◌, ◌+◌, ◌%◌};
ghost use Rattle.doubles.specs.Doubles.{pair_at, put_pair};
ghost use Rattle.places.specs.Places.{given_by, named};

// The place of a row in a list, from 0.
#[derive(Clone, Copy)]
pub struct Arrival(pub usize);

// The place of a kept row among the kept rows, from 0. Only `give` and `given` make one, and only this crate looks into it.
#[derive(Clone, Copy)]
pub struct KeptPlace(usize);

// The most rows of a list.
pub const MOST_ROWS: usize = 512;

// ---- the kept places of arrivals, in two bytes each: place + 1, or 0

// Gives a kept row, after so many others, its kept place.
pub fn give(places: &mut [u8], arrival: Arrival, rank: usize) -> KeptPlace
    ensures place { result.0 ≡ rank }
    ensures places { places.new ≡ put_pair arrival.0 ((rank + 1) % 65536) places.old }
{
    let number = (rank % 65536 + 1) % 65536;
    doubles::put_pair(places, arrival.0, number as u16);
    KeptPlace(rank)
}

// Gives a row that is not kept no place.
pub fn give_none(places: &mut [u8], arrival: Arrival)
    ensures { places.new ≡ put_pair arrival.0 0 places.old }
{
    doubles::put_pair(places, arrival.0, 0);
}

// The kept place that an arrival was given, if any.
#[tactic(auto, unfolding(crate::specs::Places::given_by))]
pub fn given(places: &[u8], arrival: Arrival) -> Option<KeptPlace>
    ensures { result ≡ given_by (pair_at arrival.0 places.now) }
{
    let number = doubles::pair(places, arrival.0) as usize;
    if number == 0 {
        return None;
    }
    Some(KeptPlace(number - 1))
}

// ---- what stands at a kept place

// The uses of the row at a kept place, from the bytes that count them, 2 for each; 0 past their end.
pub fn uses(counts: &[u8], place: KeptPlace) -> u16
    ensures { result ≡ pair_at place.0 counts.now }
{
    doubles::pair(counts, place.0)
}

// The row at a kept place has no uses yet.
pub fn no_uses(counts: &mut [u8], place: KeptPlace)
    ensures { counts.new ≡ put_pair place.0 0 counts.old }
{
    doubles::put_pair(counts, place.0, 0);
}

// Turns the digit of a tail that names a kept place; a tail that is too short stays.
#[tactic(auto, unfolding(crate::specs::Places::named))]
pub fn name(tail: &mut [u8], place: KeptPlace)
    ensures { tail.new ≡ named place.0 tail.old }
{
    let n = tail.len();
    let j = place.0;
    if n <= j / 8 {
        return;
    }
    let i = n - 1 - j / 8;
    tail[i] = tail[i] ^ (1u8 << (j % 8));
}
