// Reads both versions of a page that was saved twice: the plain reading of a list, and one of the rows that do not agree with its page.
// Document 02, wish 1.
#![tactic(auto)]

ghost use Rattle.std.specs.Prelude.{◌≡◌};
ghost use Rattle.rows.specs.Rows.{entries_of};
ghost use Rattle.rows.specs.Bytes.{cut};
ghost use Rattle.reading.specs.declared.Answer.TheVariants as answer;
ghost use Rattle.reader.specs.Reader.{buffers};
ghost use Rattle.apart.specs.Apart.{apart};
ghost use Rattle.both.specs.Pairs.{counted_too, both_in_pairs};
ghost use Rattle.both.specs.Parts.{second, pair, Passing, second_ending, secondly};

use gate::Lengths;
use reading::Answer;

// The answers of both readings, and how many rows the second list has.
#[derive(Clone, Copy)]
pub struct Both {
    pub first: Answer,
    pub second: Answer,
    pub rows: usize,
}

// "If the first answer isn't 0, the second is 5 with rank 0".
fn alone(first: Answer) -> Both
    ensures { result ≡ record { first = first; second = answer.Few 0; rows = 0 } }
{
    Both {
        first,
        second: Answer::Few { rank: 0 },
        rows: 0,
    }
}

// ---- the second list

// The second list and its reading, after the first.
fn follow(
    first: Answer,
    n: u8,
    l: u8,
    list: &[u8],
    page: &[u8],
    list2: &mut [u8],
    page2: &mut [u8],
    uses2: &mut [u8],
    roles2: &mut [u8],
    scratch: &mut [u8],
) -> Both
    requires { Passing n l list.now (counted_too (second list2.old page2.old uses2.old roles2.old)) scratch.old }
    ensures { second_ending result (second list2.new page2.new uses2.new roles2.new) scratch.new
        ≡ secondly first n l (apart l (cut l page.now) (entries_of l list.now))
        (second list2.old page2.old uses2.old roles2.old) scratch.old }
{
    let rows = apart::gather(l, list, page, list2);
    let end = rows * rows::stride(l);
    let second = reader::read_pairs(n, l, &list2[..end], page2, uses2, roles2, scratch);
    Both {
        first,
        second,
        rows,
    }
}

// ---- both

// Reads a list, and the rows of it that do not agree with the page that it gives. Uses are pairs of bytes, the higher byte first. The buffers are no struct, as
// `reader` says.
pub fn read_both(
    n: u8,
    l: u8,
    list: &[u8],
    page: &mut [u8],
    uses: &mut [u8],
    roles: &mut [u8],
    list2: &mut [u8],
    page2: &mut [u8],
    uses2: &mut [u8],
    roles2: &mut [u8],
    scratch: &mut [u8],
) -> Both
    ensures { pair result (buffers page.new uses.new roles.new scratch.new) (second list2.new page2.new uses2.new roles2.new)
        ≡ both_in_pairs n l list.now (buffers page.old uses.old roles.old scratch.old)
        (second list2.old page2.old uses2.old roles2.old) }
{
    let lent2 = Lengths {
        page: page2.len(),
        uses: uses2.len() / 2,
        roles: roles2.len(),
        scratch: scratch.len(),
    };
    if !second_room::fits_too(n, l, list.len(), list2.len(), lent2) {
        return alone(Answer::Room);
    }
    let first = reader::read_pairs(n, l, list, page, uses, roles, scratch);
    let Answer::Page { .. } = first else {
        return alone(first);
    };
    let size = n as usize * l as usize;
    follow(
        first,
        n,
        l,
        list,
        &page[..size],
        list2,
        page2,
        uses2,
        roles2,
        scratch,
    )
}
