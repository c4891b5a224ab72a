// Gathers the entries of a list whose rows do not agree with a page, in their old order. Document 02, wish 1.
#![tactic(auto)]

ghost use Rattle.std.specs.Prelude.{◌≡◌, ◌+◌, ◌*◌, ◌≤◌, ◌<◌, length};
ghost use Rattle.apart.specs.Apart.{gathers, appended, gatherable, gathered_from};

use places::Arrival;

// Whether entries can be gathered by their lengths: L in range, at most 512 entries, and a room as long as the list.
#[tactic(auto, unfolding(crate::specs::Apart::gatherable, places::specs::Places::most_rows))]
fn can_gather(l: u8, list: usize, into: usize) -> bool
    ensures { result ≡ gatherable l list into }
{
    1 <= l && l <= 32 && lists::count(list, l) <= places::MOST_ROWS && list <= into
}

// The entry of a row that does not agree with the page goes behind the first k entries; how many there are then.
fn append(list: &mut [u8], k: usize, page: &[u8], row: &[u8], entry: &[u8]) -> usize
    requires room { k * length entry.now + length entry.now ≤ length list.old }
    requires few { k < length list.old }
    ensures { gathers result list.new ≡ appended page.now row.now entry.now k list.old }
{
    if agree::agrees(page, row) {
        return k;
    }
    let size = entry.len();
    let at = k * size;
    let end = at + size;
    octets::copy(&mut list[at..end], entry);
    k + 1
}

// The entries of the rows that do not agree with the page, over the front of a room, and how many they are; none where it doesn't fit.
pub fn gather(l: u8, list: &[u8], page: &[u8], into: &mut [u8]) -> usize
    ensures { gathers result into.new ≡ gathered_from l list.now page.now into.old }
{
    if !can_gather(l, list.len(), into.len()) {
        return 0;
    }
    let mut k = 0;
    for i in 0..lists::count(list.len(), l) {
        let arrival = Arrival(i);
        let row = lists::row(list, l, arrival);
        k = append(into, k, page, row, lists::entry(list, l, arrival));
    }
    k
}
