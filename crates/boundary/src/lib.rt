// What a phone app calls to read a list: two functions over the C boundary, for any bytes at all. The result is document 01's answer number, the other
// numbers come back through references, and a refusal gives those that have no meaning as 0. Each buffer is an argument of its own: C lends them so.
#![tactic(auto)]

ghost use Rattle.std.specs.Prelude.{◌≡◌};
ghost use Rattle.reader.specs.Reader.{buffers};
ghost use Rattle.both.specs.Parts.{second};
ghost use Rattle.boundary.specs.Crossed.{answered, crossed};
ghost use Rattle.boundary.specs.CrossedBoth.{crossing, crossed_both};

// Reads a list of rows. Uses are lent as bytes, two for each row, the high byte first.
#[unsafe(no_mangle)]
pub extern "C" fn mekorvat_read_list(
    n: u8,
    l: u8,
    list: &[u8],
    page: &mut [u8],
    uses: &mut [u8],
    roles: &mut [u8],
    scratch: &mut [u8],
    rank: &mut usize,
    place: &mut usize,
    agreement: &mut usize,
) -> u8
    ensures { answered result rank.new place.new agreement.new (buffers page.new uses.new roles.new scratch.new)
        ≡ crossed n l list.now (buffers page.old uses.old roles.old scratch.old) }
{
    let answer = reader::read_pairs(n, l, list, page, uses, roles, scratch);
    let numbers = answer_numbers::numbers_of(answer);
    *rank = numbers.rank;
    *place = numbers.place;
    *agreement = numbers.agreement;
    numbers.number
}

// Reads a list, and the rows of it that do not agree with the page that it gives.
#[unsafe(no_mangle)]
pub extern "C" fn mekorvat_read_both(
    n: u8,
    l: u8,
    list: &[u8],
    page: &mut [u8],
    uses: &mut [u8],
    roles: &mut [u8],
    list2: &mut [u8],
    page2: &mut [u8],
    uses2: &mut [u8],
    roles2: &mut [u8],
    scratch: &mut [u8],
    numbers: &mut [u64; 8],
) -> u8
    ensures { crossing result numbers.new (buffers page.new uses.new roles.new scratch.new) (second list2.new page2.new uses2.new roles2.new)
        ≡ crossed_both n l list.now (buffers page.old uses.old roles.old scratch.old)
        (second list2.old page2.old uses2.old roles2.old) }
{
    let answers = both::read_both(
        n, l, list, page, uses, roles, list2, page2, uses2, roles2, scratch,
    );
    *numbers = both_numbers::numbers_of(answers);
    let first = answers.first;
    answer_numbers::numbers_of(first).number
}
