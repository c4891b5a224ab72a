// The rows of a list with role 2 go into slots.
#![tactic(auto)]

ghost use Rattle.std.specs.Prelude.{◌≡◌, [], ◌∷◌, ◌-◌, ◌≤◌, length};
ghost use Rattle.octets.specs.Octets.{number};
ghost use Rattle.rows.specs.Rows.{row_count, rows_of};
ghost use Rattle.places.specs.Places.{most_rows};
ghost use Rattle.chosen.specs.Chosen.{chosen};
ghost use Rattle.filling.specs.Fill.{leaves, fill_rows, rows_bytes, fill_of};

use places::Arrival;

// A row whose role is 2 goes in, any other is passed over; whether the next may go in.
fn offer(slots: &mut [u8], row: &[u8], role: u8) -> bool
    requires { 8 ≤ length row.now }
    ensures { leaves slots.new result ≡ fill_rows slots.old (rows_bytes (length row.now - 8) (chosen (role ∷ []) (number row.now ∷ []))) }
{
    role != 2 || entering::enter(slots, row)
}

// The rows of a list whose role is 2 go in, up to the first that does not; whether all did.
fn enter_all(slots: &mut [u8], list: &[u8], roles: &[u8], l: u8) -> bool
    requires roles { row_count l list.now ≤ length roles.now }
    requires few { row_count l list.now ≤ most_rows }
    ensures { leaves slots.new result ≡ fill_rows slots.old (rows_bytes l (chosen roles.now (rows_of l list.now))) }
{
    for i in 0..lists::count(list.len(), l) {
        let arrival = Arrival(i);
        if !offer(
            slots,
            lists::row(list, l, arrival),
            chosen::role(roles, arrival),
        ) {
            return false;
        }
    }
    true
}

// The rows of a list whose role is 2 go into slots, up to the first that does not; whether all did. Where the list does not fit, none does.
#[tactic(auto, unfolding(crate::specs::Fill::fill_of, crate::specs::Fill::fillable, rows::specs::Rows::row_count, places::specs::Places::most_rows))]
pub fn fill(l: u8, list: &[u8], roles: &[u8], slots: &mut [u8]) -> bool
    ensures { leaves slots.new result ≡ fill_of l list.now roles.now slots.old }
{
    gate::whole(l, list.len())
        && lists::count(list.len(), l) <= roles.len()
        && enter_all(slots, list, roles, l)
}
