// The entries of a list: how many there are, and each by its arrival number, as that part of the list itself.
#![tactic(auto)]

ghost use Rattle.std.specs.Prelude.{◌≡◌, ◌+◌, ◌/◌};
ghost use Rattle.rows.specs.Rows.{list_row_bytes};
ghost use Rattle.lists.specs.Lists.{start_of, entry_at, row_start, row_at};

use places::Arrival;

// How many entries a list of so many bytes has.
pub fn count(list: usize, l: u8) -> usize
    ensures { result ≡ list / list_row_bytes l }
{
    list / rows::stride(l)
}

// The entry at an arrival number; the empty part at the list's start where there is none. As an Option it would have each caller write the empty
// part for None: no row agrees with it, is kept or has a stray bit. Tried by list.get(at..end), whose contract doesn't say where the part points.
pub fn entry(list: &[u8], l: u8, arrival: Arrival) -> &[u8]
    ensures shows { result.now ≡ entry_at l arrival.0 list.now }
    ensures points { result.ref_ptr ≡ (list.entry.ref_ptr.0, start_of l arrival.0 list.now + list.entry.ref_ptr.1) }
{
    if places::MOST_ROWS <= arrival.0 {
        return &list[..0];
    }
    let size = rows::stride(l);
    let at = arrival.0 * size;
    let end = at + size;
    if list.len() < end {
        return &list[..0];
    }
    &list[at..end]
}

// The row in that entry, behind its seed.
pub fn row(list: &[u8], l: u8, arrival: Arrival) -> &[u8]
    ensures shows { result.now ≡ row_at l arrival.0 list.now }
    ensures points { result.ref_ptr ≡ (list.entry.ref_ptr.0, row_start l arrival.0 list.now + list.entry.ref_ptr.1) }
{
    let whole = entry(list, l, arrival);
    if whole.len() < rows::SEED {
        return whole;
    }
    &whole[rows::SEED..]
}
