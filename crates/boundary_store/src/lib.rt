// What a phone app calls with a store: three functions over the C boundary, for any bytes at all. The result is document 02's answer number, the other
// numbers come back through references, and a refusal gives those that have no meaning as 0.
#![tactic(auto)]

ghost use Rattle.std.specs.Prelude.{◌≡◌};
ghost use Rattle.opening.specs.Opening as opening;
ghost use Rattle.telling.specs.Told.{told};
ghost use Rattle.offering.specs.Offering.{offer_answer, offered_store};
ghost use Rattle.asking.specs.Asking as asking;
ghost use Rattle.boundary_store.specs.Stored.{offer_told, across, asked_across};

use asking::Asked;
use offering::Refusal;
use reading::Numbers;
use telling::Told;

// ---- the numbers of each answer: functions, since neither the answers nor their numbers are types of this crate, and so From can't be written here

// A refusal of the frame, and of laying it, is passed on.
#[tactic(auto, unfolding(offering::specs::Offering::number_of, offering::specs::Offering::place_of, laying::specs::Laying::number_of, laying::specs::Laying::place_of))]
fn offer_told(answer: Result<(), Refusal>) -> Told
    ensures { result ≡ offer_told answer }
{
    match answer {
        Ok(()) => telling::told_by(Ok(())),
        Err(Refusal::Store(refusal)) => Told {
            number: refusal.into(),
            place: 0,
        },
        Err(Refusal::Laying(refusal)) => refusal.into(),
    }
}

#[tactic(auto, unfolding(asking::specs::Asking::numbers_of))]
fn ask_numbers(answer: Result<Asked, store::Refusal>) -> Numbers
    ensures { result ≡ asking.numbers_of answer }
{
    match answer {
        Ok(asked) => answer_numbers::numbers_of(asked.answer),
        Err(refusal) => Numbers {
            number: refusal.into(),
            rank: 0,
            place: 0,
            agreement: 0,
        },
    }
}

// ---- the calls

// Opens a store for a page.
#[tactic(auto, unfolding(opening::specs::Opening::number_of))]
#[unsafe(no_mangle)]
pub extern "C" fn mekorvat_open(store: &mut [u8], page: u32, n: u8, l: u8) -> u8
    ensures number { result ≡ opening.number_of (opening.open_answer n l store.old) }
    ensures store { store.new ≡ opening.opened_store page n l store.old }
{
    opening::open(store, page, n, l).err().map_or(0, u8::from)
}

// Offers a frame to a store.
#[unsafe(no_mangle)]
pub extern "C" fn mekorvat_offer(store: &mut [u8], frame: &[u8], place: &mut usize) -> u8
    ensures told { told result place.new ≡ offer_told (offer_answer frame.now store.old) }
    ensures store { store.new ≡ offered_store frame.now store.old }
{
    let told = offer_told(offering::offer(store, frame));
    *place = told.place;
    told.number
}

// Asks a store. Uses are lent as bytes, two for each row, the high byte first. The numbers come back one by one, as the C interface has them.
#[tactic(auto, unfolding(asking::specs::Asking::rows_of, crate::specs::Stored::asked_across))]
#[unsafe(no_mangle)]
pub extern "C" fn mekorvat_ask(
    store: &[u8],
    page: &mut [u8],
    uses: &mut [u8],
    roles: &mut [u8],
    scratch: &mut [u8],
    rank: &mut usize,
    place: &mut usize,
    agreement: &mut usize,
    rows: &mut usize,
) -> u8
    ensures { across result rank.new place.new agreement.new rows.new page.new uses.new roles.new scratch.new
        ≡ asked_across store.now page.old uses.old roles.old scratch.old }
{
    let asked = asking::ask(store, page, uses, roles, scratch);
    let numbers = ask_numbers(asked);
    *rank = numbers.rank;
    *place = numbers.place;
    *agreement = numbers.agreement;
    *rows = asked.map_or(0, |asked| asked.rows);
    numbers.number
}
