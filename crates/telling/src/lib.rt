// Document 01's numbers of what reading a frame answers, and of what laying it does.
#![tactic(auto)]

ghost use Rattle.std.specs.Prelude.{◌≡◌, Err};
ghost use Rattle.frame.specs.Numbers.{refused, frame_numbers};
ghost use Rattle.telling.specs.Told.{told, told_by};

use frame::layout::{PAYLOAD, SHAPE_AT};
use frame::{Frame, Numbers};
use laying::Refusal;

// ---- reading

fn refusal(number: u8, place: usize) -> Numbers
    ensures { result ≡ refused number place }
{
    Numbers {
        number,
        place,
        page: 0,
        n: 0,
        l: 0,
        seed: 0,
        offset: 0,
    }
}

// The numbers of a reading. Frame and Numbers are both frame's, so that From could not be written here.
#[tactic(auto, unfolding(frame::specs::Numbers::frame_numbers))]
pub fn numbers_of(found: Frame) -> Numbers
    ensures { result ≡ frame_numbers found }
{
    match found {
        Frame::Good { page, n, l, seed } => Numbers {
            number: 0,
            place: 0,
            page,
            n,
            l,
            seed,
            offset: PAYLOAD,
        },
        Frame::Short(place) => refusal(11, place),
        Frame::WrongTag(place) => refusal(12, place),
        Frame::WrongLength(place) => refusal(13, place),
        Frame::OutOfRange => refusal(14, SHAPE_AT),
        Frame::Trailing(place) => refusal(15, place),
    }
}

// ---- laying

// Number and place of an answer.
#[derive(Clone, Copy)]
pub struct Told {
    pub number: u8,
    pub place: usize,
}

// The number of an answer that has no place.
fn placeless(number: u8) -> Told
    ensures { result ≡ told number 0 }
{
    Told { number, place: 0 }
}

// The number and place of a refusal; one of the frame is passed on.
impl From<Refusal> for Told {
    ghost from_gives = { λ refusal told. told ≡ told_by (Err refusal) };

    #[tactic(auto, unfolding(laying::specs::Laying::number_of, laying::specs::Laying::place_of))]
    fn from(refusal: Refusal) -> Told {
        match refusal {
            Refusal::Shape => placeless(1),
            Refusal::Frame(found) => {
                let numbers = numbers_of(found);
                Told {
                    number: numbers.number,
                    place: numbers.place,
                }
            }
            Refusal::OtherPage => placeless(16),
            Refusal::Full => placeless(2),
            Refusal::Room => placeless(3),
        }
    }
}

// The number and place of an answer of laying.
#[tactic(auto, unfolding(laying::specs::Laying::number_of, laying::specs::Laying::place_of))]
pub fn told_by(answer: Result<(), Refusal>) -> Told
    ensures { result ≡ told_by answer }
{
    answer.err().map_or(placeless(0), Told::from)
}
