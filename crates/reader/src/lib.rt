// Reads a list of rows: the checks, the order, elimination and the tail; and the end, which writes the uses as 16-bit numbers or as pairs of bytes.
#![tactic(auto)]

ghost use Rattle.std.specs.Prelude.{◌≡◌, ◌≤◌, length};
ghost use Rattle.octets.specs.Octets.{over};
ghost use Rattle.reading.specs.Outcome.{outcome, zeros, scratch_bytes};
ghost use Rattle.reader.specs.Reader.{buffers, outcome_of, returned, outcome_with, Passing, Reads};
ghost use Rattle.reader.specs.Pairs.{in_pairs};

use gate::Lengths;
use marks::Uses;
use reading::Answer;

// Reads rows that pass the checks. The uses stay in the state, where elimination counted them.
fn read_rows(
    n: u8,
    l: u8,
    list: &[u8],
    page: &mut [u8],
    roles: &mut [u8],
    state: &mut [u8],
) -> Answer
    requires { Passing n l list.now page.old roles.old state.old }
    ensures { Reads n l list.now page.old roles.old result page.new roles.new state.new }
{
    let taken = order::in_list_order(list, l, state);
    match echelon::eliminate(state, list, l, taken) {
        Some(rank) => tail::finish(n, l, list, taken, rank, state, roles, page),
        None => Answer::Few { rank: 0 },
    }
}

// The same in the front of the scratch; what stands behind the state stays.
fn read_in(
    n: u8,
    l: u8,
    list: &[u8],
    page: &mut [u8],
    roles: &mut [u8],
    scratch: &mut [u8],
) -> Answer
    requires passing { Passing n l list.now page.old roles.old scratch.old }
    requires room { scratch_bytes ≤ length scratch.old }
    ensures reads { Reads n l list.now page.old roles.old result page.new roles.new scratch.new }
    ensures behind { over zeros scratch.new ≡ over zeros scratch.old }
{
    read_rows(n, l, list, page, roles, &mut scratch[..state::BYTES])
}

// ---- the readings

// Reads a list, with uses as numbers or as pairs of bytes. The two public ones are a line each, since their contracts speak of `outcome` and of `in_pairs`.
fn read<U: Uses>(
    n: u8,
    l: u8,
    list: &[u8],
    page: &mut [u8],
    uses: &mut [U],
    roles: &mut [u8],
    scratch: &mut [u8],
) -> Answer
    ensures { returned result page.new uses.new roles.new scratch.new
        ≡ outcome_with U.counts U.written n l list.now page.old uses.old roles.old scratch.old }
{
    let lent = Lengths {
        page: page.len(),
        uses: U::room(uses),
        roles: roles.len(),
        scratch: scratch.len(),
    };
    if let Err(answer) = checks::all(n, l, list, lent) {
        return answer;
    }
    let answer = read_in(n, l, list, page, roles, scratch);
    ends::end(answer, lists::count(list.len(), l), uses, scratch);
    answer
}

// Reads a list: document 01, "How a list is read". The buffers are no struct: those who call hold four slices, each step here takes two or three of them, and of
// references in a struct a clause could say what they leave only by their places in it.
pub fn read_list(
    n: u8,
    l: u8,
    list: &[u8],
    page: &mut [u8],
    uses: &mut [u16],
    roles: &mut [u8],
    scratch: &mut [u8],
) -> Answer
    ensures { outcome_of result (buffers page.new uses.new roles.new scratch.new)
        ≡ outcome n l list.now (buffers page.old uses.old roles.old scratch.old) }
{
    read(n, l, list, page, uses, roles, scratch)
}

// Reads a list, with uses as pairs of bytes, the higher byte first.
pub fn read_pairs(
    n: u8,
    l: u8,
    list: &[u8],
    page: &mut [u8],
    uses: &mut [u8],
    roles: &mut [u8],
    scratch: &mut [u8],
) -> Answer
    ensures { outcome_of result (buffers page.new uses.new roles.new scratch.new)
        ≡ in_pairs n l list.now (buffers page.old uses.old roles.old scratch.old) }
{
    read(n, l, list, page, uses, roles, scratch)
}
