// The end of a reading: each row's uses are written from the state, as 16-bit numbers or as pairs of bytes, and then the scratch is cleared.
#![tactic(auto)]

ghost use Rattle.std.specs.Prelude.{◌≡◌};
ghost use Rattle.reading.specs.Answer.{answer_numbers};
ghost use Rattle.state.specs.Layout.{uses_part, places_part};
ghost use Rattle.marks.specs.Mark.{uses_after_in};
ghost use Rattle.ends.specs.Ends.{cleared};

use marks::Uses;
use reading::Answer;

// "They set the first 32,768 scratch bytes to zero."
fn clear_scratch(scratch: &mut [u8])
    ensures { scratch.new ≡ cleared scratch.old }
{
    if scratch.len() < gate::SCRATCH {
        return;
    }
    octets::clear(&mut scratch[..gate::SCRATCH]);
}

// The uses of so many rows, as 16-bit numbers or as pairs of bytes, the higher byte first; and then the scratch is cleared.
pub fn end<U: Uses>(answer: Answer, rows: usize, uses: &mut [U], scratch: &mut [u8])
    ensures uses { uses.new
        ≡ uses_after_in U.room_in U.written (places_part rows scratch.old) (uses_part (answer_numbers answer).rank scratch.old) uses.old }
    ensures scratch { scratch.new ≡ cleared scratch.old }
{
    let rank = answer_numbers::numbers_of(answer).rank;
    let counts = state::uses(scratch, rank);
    marks::put_uses(state::places(scratch, rows), counts, uses);
    clear_scratch(scratch);
}
