// The numbers of both readings of a page, as the boundary gives them: an array, since they cross to C in a row. A From would have to stand in `both`, where no one
// else needs it.
#![tactic(auto)]

ghost use Rattle.std.specs.Prelude.{◌≡◌};
ghost use Rattle.both_numbers.specs.Numbers.{both_numbers};

use both::Both;

// The numbers of both answers in a row.
pub fn numbers_of(answers: Both) -> [u64; 8]
    ensures { result ≡ both_numbers answers }
{
    let one = answers.first;
    let other = answers.second;
    let first = answer_numbers::numbers_of(one);
    let second = answer_numbers::numbers_of(other);
    [
        first.rank as u64,
        first.place as u64,
        first.agreement as u64,
        second.number as u64,
        second.rank as u64,
        second.place as u64,
        second.agreement as u64,
        answers.rows as u64,
    ]
}
