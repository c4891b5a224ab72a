// What the slots of a state leave of a row.
#![tactic(auto)]

ghost use Rattle.std.specs.Prelude.{◌≡◌};
ghost use Rattle.slots.specs.Reducing.{reduce_answer, reduce_work};

use slots::Reduced;

// Where the heads are told, as far as the state has them. They make reducing faster, and whatever they hold, its answer is the same.
fn heads(state: &[u8]) -> &[u8] {
    state.get(state::HEADS..state::ORDER).unwrap_or(&[])
}

// Takes slots off work until its key has no digit left, or one whose slot is empty.
pub fn reduce(work: &mut [u8], state: &[u8], key: usize) -> Reduced
    ensures answer { result ≡ reduce_answer key state.now work.old }
    ensures left { work.new ≡ reduce_work key state.now work.old }
{
    slots::reduce(work, state, heads(state), key)
}
