// The rows of a list whose role is 2: whether they are as many as there are symbols, and none of them strays.
#![tactic(auto)]

ghost use Rattle.std.specs.Prelude.{◌≡◌, [], ◌∷◌, ◌-◌, ◌≤◌, length, get_or};
ghost use Rattle.octets.specs.Octets.{number};
ghost use Rattle.rows.specs.Rows.{row_count, rows_of};
ghost use Rattle.places.specs.Places.{most_rows};
ghost use Rattle.chosen.specs.Chosen.{chosen, proper};
ghost use Rattle.chosen.specs.Weight.{weight};

use places::Arrival;

// The role at an arrival number; past the last it is 0, not kept.
pub fn role(roles: &[u8], arrival: Arrival) -> u8
    ensures { result ≡ get_or roles.now arrival.0 0 }
{
    roles.get(arrival.0).copied().unwrap_or(0)
}

// What a row with its role adds to the count: nothing unless its role is 2, and 64 more than one where it strays.
fn adds(n: u8, row: &[u8], role: u8) -> usize
    requires { 8 ≤ length row.now }
    ensures { result ≡ weight n (length row.now - 8) (chosen (role ∷ []) (number row.now ∷ [])) }
{
    if role != 2 {
        0
    } else if rows::strays(n, words::word(row, 0)) {
        65
    } else {
        1
    }
}

// What the rows of a list add to it.
fn adding(n: u8, l: u8, list: &[u8], roles: &[u8]) -> usize
    requires roles { row_count l list.now ≤ length roles.now }
    requires few { row_count l list.now ≤ most_rows }
    ensures { result ≡ weight n l (chosen roles.now (rows_of l list.now)) }
{
    let mut sum: usize = 0;
    for i in 0..lists::count(list.len(), l) {
        let arrival = Arrival(i);
        sum += adds(n, lists::row(list, l, arrival), role(roles, arrival));
    }
    sum
}

// Whether the shape is in range, the list has whole rows with a role for each, and those with role 2 are n that name no symbol past the page.
#[tactic(auto, unfolding(crate::specs::Chosen::proper, crate::specs::Chosen::listed, rows::specs::Rows::row_count, places::specs::Places::most_rows))]
pub fn proper(n: u8, l: u8, list: &[u8], roles: &[u8]) -> bool
    ensures { result ≡ proper n l list.now roles.now }
{
    rows::shaped(n, l)
        && gate::whole(l, list.len())
        && lists::count(list.len(), l) <= roles.len()
        && adding(n, l, list, roles) == n as usize
}
