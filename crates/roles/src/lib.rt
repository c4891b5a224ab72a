// Marks each row at its arrival number with its role, by the kept place that its arrival was given.
#![tactic(auto)]

ghost use Rattle.std.specs.Prelude.{◌≡◌, ◌<◌, length, set};
ghost use Rattle.doubles.specs.Doubles.{pair_at};
ghost use Rattle.places.specs.Places.{given_by};
ghost use Rattle.roles.specs.Role as spec;

use choose::Unpicked;
use places::Arrival;

// ---- what is marked at one arrival

// The fewest uses of a row that is marked as picked: "no 2 under 5 and 6".
#[tactic(auto, unfolding(crate::specs::Role::least_marked))]
fn least_marked(choice: Result<usize, Unpicked>) -> usize
    ensures { result ≡ spec.least_marked choice }
{
    choice.unwrap_or(choose::NONE_PICKED)
}

// A role is a number, as the caller's bytes hold it: the C interface has them so.
#[tactic(auto, unfolding(crate::specs::Role::role))]
fn role(least: usize, uses: u16) -> u8
    ensures { result ≡ spec.role least uses }
{
    if least <= (uses as usize) { 2 } else { 1 }
}

// The role of the row at an arrival.
#[tactic(auto, unfolding(crate::specs::Role::role_of))]
fn role_at(places: &[u8], counts: &[u8], least: usize, arrival: Arrival) -> u8
    ensures { result ≡ spec.role_of least counts.now (given_by (pair_at arrival.0 places.now)) }
{
    match places::given(places, arrival) {
        Some(place) => role(least, places::uses(counts, place)),
        None => 0,
    }
}

// ---- where it is written

// By an arrival, so that a role written by kept place does not compile.
fn set_role(roles: &mut [u8], arrival: Arrival, role: u8)
    requires { arrival.0 < length roles.old }
    ensures { roles.new ≡ set roles.old arrival.0 role }
{
    let at = arrival.0;
    roles[at] = role;
}

// ---- the roles of all rows

// The role of each row, from the bytes that tell the kept places of arrivals and those that count uses by kept place, 2 each.
// Writes nothing where there is no room for each row. `marks::put_uses` has this loop too: one function of both would take a closure, and bytes in two ways.
pub fn put_roles(places: &[u8], counts: &[u8], choice: Result<usize, Unpicked>, roles: &mut [u8])
    ensures { roles.new ≡ spec.roles_after choice places.now counts.now roles.old }
{
    let rows = places.len() / 2;
    if roles.len() < rows {
        return;
    }
    let least = least_marked(choice);
    for arrival in 0..rows {
        let arrival = Arrival(arrival);
        set_role(roles, arrival, role_at(places, counts, least, arrival));
    }
}
