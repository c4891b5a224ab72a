// Which rows of a list repeat an earlier one: in seed, constraint and payload, so in every byte of their entries.
#![tactic(auto)]

ghost use Rattle.std.specs.Prelude.{◌≡◌, ◌*◌, ◌≤◌, eqb, length};
ghost use Rattle.octets.specs.Octets.{number, numbers};
ghost use Rattle.words.specs.Words.{four_of};
ghost use Rattle.lists.specs.Lists.{entry_at};
ghost use Rattle.reading.specs.Orders.{among};
ghost use Rattle.repeats.specs.Repeats.{repeated};

use places::Arrival;

// The seed of a row: the first four bytes of its entry.
pub fn seed(list: &[u8], l: u8, arrival: Arrival) -> u32
    ensures { result ≡ four_of (entry_at l arrival.0 list.now) }
{
    words::four(lists::entry(list, l, arrival))
}

// Eight bytes at a time; the last eight may overlap those before. By std's `==` of slices a row that repeats is found a third slower at 8 bytes of payload,
// as fast at 32, and where seeds differ a fifth to a third slower.
fn equal(a: &[u8], b: &[u8]) -> bool
    requires as_long { length a.now ≡ length b.now }
    requires wide { 8 ≤ length a.now }
    ensures { result ≡ eqb (number a.now) (number b.now) }
{
    let last = a.len() - 8;
    for i in (0..last).step_by(8) {
        if littles::little(a, i) != littles::little(b, i) {
            return false;
        }
    }
    littles::little(a, last) == littles::little(b, last)
}

// The same, by the seeds first: few entries that are not equal have the same.
fn same(a: &[u8], b: &[u8]) -> bool
    requires as_long { length a.now ≡ length b.now }
    requires wide { 8 ≤ length a.now }
    ensures { result ≡ eqb (number a.now) (number b.now) }
{
    words::four(a) == words::four(b) && equal(a, b)
}

// Whether an entry is equal to one of the first m, from the last of them back.
fn is_among(entry: &[u8], list: &[u8], m: usize) -> bool
    requires room { m * length entry.now ≤ length list.now }
    requires wide { 8 ≤ length entry.now }
    ensures { result ≡ among (numbers (length entry.now) m list.now) (number entry.now) }
{
    let size = entry.len();
    for i in (0..m).rev() {
        let at = i * size;
        let end = at + size;
        if same(entry, &list[at..end]) {
            return true;
        }
    }
    false
}

// Whether the row at an arrival number repeats an earlier one; where the list has no such row, it does not.
pub fn is_repeat(list: &[u8], l: u8, arrival: Arrival) -> bool
    ensures { result ≡ repeated l arrival.0 list.now }
{
    let entry = lists::entry(list, l, arrival);
    if entry.len() == 0 {
        return false;
    }
    is_among(entry, list, arrival.0)
}
