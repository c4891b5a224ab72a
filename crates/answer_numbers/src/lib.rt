// Document 01's numbers of what a reading answers. A From would have to stand in `reading`, which has definitions and laws alone: code there would be proved again
// with each edit of a definition.
#![tactic(auto)]

ghost use Rattle.std.specs.Prelude.{◌≡◌};
ghost use Rattle.reading.specs.Answer.{numbered, answer_numbers};

use reading::{Answer, Numbers};

fn refused(number: u8, place: usize) -> Numbers
    ensures { result ≡ numbered number 0 place 0 }
{
    Numbers {
        number,
        rank: 0,
        place,
        agreement: 0,
    }
}

fn ended(number: u8, rank: usize, agreement: usize) -> Numbers
    ensures { result ≡ numbered number rank 0 agreement }
{
    Numbers {
        number,
        rank,
        place: 0,
        agreement,
    }
}

// Number, rank, place and agreement.
#[tactic(auto, unfolding(reading::specs::Answer::answer_numbers))]
pub fn numbers_of(answer: Answer) -> Numbers
    ensures { result ≡ answer_numbers answer }
{
    match answer {
        Answer::Shape => refused(1, 0),
        Answer::List => refused(2, 0),
        Answer::Room => refused(3, 0),
        Answer::Stray(arrival) => refused(4, arrival.0),
        Answer::Few { rank } => ended(5, rank, 0),
        Answer::Tie { rank } => ended(6, rank, 0),
        Answer::Singular { rank } => ended(7, rank, 0),
        Answer::Page { rank, agreement } => ended(0, rank, agreement),
    }
}
