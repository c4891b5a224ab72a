// Offers a frame to a store: its row is laid into the list and taken in, or it is refused and the store stays as it was. Document 02, wish 5.
#![tactic(auto)]

ghost use Rattle.std.specs.Prelude.{◌≡◌, ◌≤◌, length};
ghost use Rattle.store.specs.Store.{store_bytes};
ghost use Rattle.offering.specs.declared.Refusal.TheVariants.{Store, Laying};
ghost use Rattle.offering.specs.Offering.{offer_answer, offered_store, laid_in, laid_store};

use places::Arrival;
use store::Head;

// Why an offer is refused; specs/Offering.antt gives document 02's number and place for each case.
#[derive(Clone, Copy)]
pub enum Refusal {
    Store(store::Refusal),
    Laying(laying::Refusal),
}

impl From<store::Refusal> for Refusal {
    ghost from_gives = { λ refusal mine. mine ≡ Store refusal };

    fn from(refusal: store::Refusal) -> Refusal {
        Refusal::Store(refusal)
    }
}

impl From<laying::Refusal> for Refusal {
    ghost from_gives = { λ refusal mine. mine ≡ Laying refusal };

    fn from(refusal: laying::Refusal) -> Refusal {
        Refusal::Laying(refusal)
    }
}

// Lays the row of a frame behind those that the store has. That the buffer is long enough is a clause, as in `newest`.
fn lay(store: &mut [u8], frame: &[u8], head: Head) -> Result<(), laying::Refusal>
    requires { store_bytes ≤ length store.old }
    ensures answer { result ≡ laid_in frame.now head store.old }
    ensures store { store.new ≡ laid_store frame.now head store.old }
{
    laying::lay(
        frame,
        head.page,
        head.n,
        head.l,
        Arrival(head.rows),
        &mut store[store::LIST..store::WORKING],
    )
}

// Offers a frame.
#[tactic(auto, unfolding(crate::specs::Offering::offer_answer, crate::specs::Offering::offered_store, crate::specs::Offering::answer_by, crate::specs::Offering::after_by, crate::specs::Offering::of_laying, crate::specs::Offering::taken_after))]
pub fn offer(store: &mut [u8], frame: &[u8]) -> Result<(), Refusal>
    ensures answer { result ≡ offer_answer frame.now store.old }
    ensures store { store.new ≡ offered_store frame.now store.old }
{
    let head = store::check(store)?;
    lay(store, frame, head)?;
    newest::take(store);
    Ok(())
}
