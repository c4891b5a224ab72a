// From a state of elimination to the answer: the rows picked, the roles, the page and its agreement. Whoever holds such a state ends here.
#![tactic(auto)]

ghost use Rattle.std.specs.Prelude.{◌≡◌};
ghost use Rattle.tail.specs.Tail.{ends, settled, roles_in, finished};

use choose::Unpicked;
use reading::Answer;

// Where n rows are picked: the page and the agreement, or singular.
// Its first five parameters are those of `finish`, passed on in this one call: a struct of them would be built for it alone.
#[tactic(auto, using(crate::proofs::Endings::settling), unfolding(crate::specs::Tail::settled_by, crate::specs::Tail::settled))]
fn settle(
    rank: usize,
    n: u8,
    l: u8,
    list: &[u8],
    taken: usize,
    roles: &[u8],
    state: &mut [u8],
    page: &mut [u8],
) -> Answer
    ensures { ends result state.new page.new ≡ settled rank n l list.now taken roles.now state.old page.old }
{
    match solve::solve(n, l, list, roles, state, page) {
        Ok(()) => {
            let end = n as usize * l as usize;
            let agreement = agreement::agreement(l, list, state::order(state, taken), &page[..end]);
            Answer::Page { rank, agreement }
        }
        Err(_) => Answer::Singular { rank },
    }
}

// The answer, the roles and the page, from a state in which so many rows of the list were taken and so many kept. The uses stay in the state.
#[tactic(auto, unfolding(crate::specs::Tail::finished, crate::specs::Tail::concluded, crate::specs::Tail::choice_in, crate::specs::Tail::roles_in, rows::specs::Rows::row_count))]
pub fn finish(
    n: u8,
    l: u8,
    list: &[u8],
    taken: usize,
    rank: usize,
    state: &mut [u8],
    roles: &mut [u8],
    page: &mut [u8],
) -> Answer
    ensures end { ends result state.new page.new
        ≡ finished n l list.now taken rank state.old roles.old page.old }
    ensures roles { roles.new ≡ roles_in n l list.now rank state.old roles.old }
{
    let choice = choose::pick(n, state::uses(state, rank));
    let rows = lists::count(list.len(), l);
    roles::put_roles(
        state::places(state, rows),
        state::uses(state, rank),
        choice,
        roles,
    );
    match choice {
        Err(Unpicked::Few) => Answer::Few { rank },
        Err(Unpicked::Tie) => Answer::Tie { rank },
        Ok(_) => settle(rank, n, l, list, taken, roles, state, page),
    }
}
