// Asks a store for its answer: the tail of a reading, from a copy of the working. The store stays as it is. Document 02, wish 5.
#![tactic(auto)]

ghost use Rattle.std.specs.Prelude.{◌≡◌, ◌≤◌, length, take};
ghost use Rattle.octets.specs.Octets.{over};
ghost use Rattle.places.specs.Places.{most_rows};
ghost use Rattle.reading.specs.Outcome.{zeros, scratch_bytes};
ghost use Rattle.state.specs.Layout.{state_bytes};
ghost use Rattle.tail.specs.Tail.{ends, roles_in, finished};
ghost use Rattle.store.specs.Store.{store_bytes};
ghost use Rattle.asking.specs.Asking.{asking, answering, ended, asked};

use gate::Lengths;
use reading::Answer;
use store::Head;

// What asking answers, past the check of the header, and how many rows the store has; specs/Asking.antt gives document 02's numbers for each case.
#[derive(Clone, Copy)]
pub struct Asked {
    pub answer: Answer,
    pub rows: usize,
}

// The tail of a reading from a working, which is copied to the front of the scratch; what stands behind it stays.
fn finish_from(
    working: &[u8],
    head: Head,
    list: &[u8],
    page: &mut [u8],
    roles: &mut [u8],
    scratch: &mut [u8],
) -> Answer
    requires whole { length working.now ≡ state_bytes }
    requires room { scratch_bytes ≤ length scratch.old }
    ensures end { ends result (take state_bytes scratch.new) page.new
        ≡ finished head.n head.l list.now head.taken head.rank working.now roles.old page.old }
    ensures roles { roles.new ≡ roles_in head.n head.l list.now head.rank working.now roles.old }
    ensures behind { over zeros scratch.new ≡ over zeros scratch.old }
{
    let state = &mut scratch[..state::BYTES];
    octets::copy(state, working);
    tail::finish(
        head.n, head.l, list, head.taken, head.rank, state, roles, page,
    )
}

// Answers for the rows of a store, where the buffers have room.
fn answer_rows(
    store: &[u8],
    head: Head,
    page: &mut [u8],
    uses: &mut [u8],
    roles: &mut [u8],
    scratch: &mut [u8],
) -> Answer
    requires long { store_bytes ≤ length store.now }
    requires narrow { head.l ≤ 32 }
    requires few { head.rows ≤ most_rows }
    requires room { scratch_bytes ≤ length scratch.old }
    ensures { answering result page.new uses.new roles.new scratch.new
        ≡ ended head store.now page.old uses.old roles.old scratch.old }
{
    let size = rows::stride(head.l) * head.rows;
    let list = store::list(store);
    let answer = finish_from(
        store::working(store),
        head,
        &list[..size],
        page,
        roles,
        scratch,
    );
    ends::end(answer, head.rows, uses, scratch);
    answer
}

// Asks a store. It answers as a reading of its rows does, and writes what that writes, with uses as pairs of bytes, the higher byte first. The buffers are
// no struct, as for a reading: of references in a struct a clause could say what they leave only by their places in it.
#[tactic(auto, unfolding(crate::specs::Asking::asked, crate::specs::Asking::asked_by, crate::specs::Asking::answered, reading::specs::Outcome::room_for))]
pub fn ask(
    store: &[u8],
    page: &mut [u8],
    uses: &mut [u8],
    roles: &mut [u8],
    scratch: &mut [u8],
) -> Result<Asked, store::Refusal>
    ensures { asking result page.new uses.new roles.new scratch.new
        ≡ asked store.now page.old uses.old roles.old scratch.old }
{
    let head = store::check(store)?;
    let rows = head.rows;
    let lent = Lengths {
        page: page.len(),
        uses: uses.len() / 2,
        roles: roles.len(),
        scratch: scratch.len(),
    };
    if !gate::room_fits(head.n as usize * head.l as usize, rows, lent) {
        return Ok(Asked {
            answer: Answer::Room,
            rows,
        });
    }
    let answer = answer_rows(store, head, page, uses, roles, scratch);
    Ok(Asked { answer, rows })
}
