// What a line of the page reader's input gives, after the lines before it. Document 01, "The page reader program".
#![tactic(auto)]

ghost use Rattle.std.specs.Prelude.{◌≡◌, ◌≤◌, length};
ghost use Rattle.frame.specs.Numbers as frames;
ghost use Rattle.laying.specs.Laying as laying;
ghost use Rattle.lines.specs.Taking as spec;

use frame::Frame;
use laying::Refusal;
use places::Arrival;

// A line has at most 256 characters, so its frame at most half as many bytes.
const MOST_BYTES: usize = 128;

// What a good frame says of its page.
#[derive(Clone, Copy)]
pub struct Page {
    pub number: u32,
    pub n: u8,
    pub l: u8,
}

// What the lines so far have left: the page that the first good frame set, and how many rows are laid.
#[derive(Clone, Copy)]
pub struct Sheet {
    pub expected: Option<Page>,
    pub rows: usize,
}

// A refusal, by document 01's number and place.
#[derive(Clone, Copy, PartialEq, Eq)]
pub struct Refused {
    pub number: u8,
    pub place: usize,
}

// What a line gives, a row or a refusal, and leaves for the next.
#[derive(Clone, Copy)]
pub struct Taken {
    pub line: Result<(), Refused>,
    pub sheet: Sheet,
}

// The result of a number and a place. A row is number 0 here, since document 01 numbers the answers of reading and of laying alike.
#[tactic(auto, unfolding(crate::specs::Taking::result))]
fn line_of(number: u8, place: usize) -> Result<(), Refused>
    ensures { result ≡ spec.result number place }
{
    if number == 0 {
        return Ok(());
    }
    Err(Refused { number, place })
}

// The result that a reading is, by document 01's number and place.
fn line_of_frame(found: Frame) -> Result<(), Refused>
    ensures { result ≡ spec.result (frames.number_of found) (frames.place_of found) }
{
    let numbers = telling::numbers_of(found);
    line_of(numbers.number, numbers.place)
}

// The same of laying.
fn line_of_laid(answer: Result<(), Refusal>) -> Result<(), Refused>
    ensures { result ≡ spec.result (laying.number_of answer) (laying.place_of answer) }
{
    let told = telling::told_by(answer);
    line_of(told.number, told.place)
}

// Lays the row of a good frame behind the rows so far.
#[tactic(auto, unfolding(crate::specs::Taking::lay_on, crate::specs::Taking::rows_after))]
fn lay_on(page: Page, frame: &[u8], rows: usize, list: &mut [u8]) -> Taken
    ensures taken { result ≡ (spec.lay_on page frame.now rows list.old).taken }
    ensures list { list.new ≡ (spec.lay_on page frame.now rows list.old).list }
{
    let answer = laying::lay(frame, page.number, page.n, page.l, Arrival(rows), list);
    let line = line_of_laid(answer);
    let rows = if line.is_ok() { rows + 1 } else { rows };
    Taken {
        line,
        sheet: Sheet {
            expected: Some(page),
            rows,
        },
    }
}

// A refusal of the frame is passed on before its page is compared. "The first good frame sets the expected page number, n and L."
#[tactic(auto, using(crate::proofs::Takes::frame_refused, frame::proofs::Good::refused_is), unfolding(crate::specs::Taking::take_frame, crate::specs::Taking::expecting, crate::specs::Taking::page_of_frame, frame::specs::Numbers::frame_numbers))]
fn take_frame(frame: &[u8], sheet: Sheet, list: &mut [u8]) -> Taken
    ensures taken { result ≡ (spec.take_frame frame.now sheet list.old).taken }
    ensures list { list.new ≡ (spec.take_frame frame.now sheet list.old).list }
{
    let found = frame::read(frame);
    let Frame::Good {
        page,
        n,
        l,
        seed: _,
    } = found
    else {
        return Taken {
            line: line_of_frame(found),
            sheet,
        };
    };
    let good = Page { number: page, n, l };
    lay_on(sheet.expected.unwrap_or(good), frame, sheet.rows, list)
}

// Takes one line: its result, the sheet after it, and its row in the list. There is room for the frame of any line.
#[tactic(auto, unfolding(text::specs::Hex::unhexed))]
pub fn take(line: &[u8], sheet: Sheet, list: &mut [u8]) -> Taken
    ensures taken { result ≡ (spec.take_line line.now sheet list.old).taken }
    ensures list { list.new ≡ (spec.take_line line.now sheet list.old).list }
{
    let mut frame = [0u8; MOST_BYTES];
    let Ok(k) = text::unhex(line, &mut frame) else {
        let refused = Refused {
            number: 17,
            place: 0,
        };
        return Taken {
            line: Err(refused),
            sheet,
        };
    };
    take_frame(&frame[..k], sheet, list)
}
