// How many of the rows that are taken agree with a page.
#![tactic(auto)]

ghost use Rattle.std.specs.Prelude.{◌≡◌};
ghost use Rattle.agreement.specs.Agreement.{agreement_of};

use places::Arrival;

// Of the rows that are taken, by their arrival numbers in two bytes each, how many agree with a page of as many symbols as it has.
pub fn agreement(l: u8, list: &[u8], order: &[u8], page: &[u8]) -> usize
    ensures { result ≡ agreement_of l list.now order.now page.now }
{
    (0..order.len() / 2)
        .filter(|&i| {
            let arrival = Arrival(doubles::pair(order, i) as usize);
            agree::agrees(page, lists::row(list, l, arrival))
        })
        .count()
}
