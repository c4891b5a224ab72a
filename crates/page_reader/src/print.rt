// The lines of the output, each written at once, from a text that has room for the longest line, whatever its numbers are: std's println would keep a buffer of
// 1,024 bytes on the stack for each. The page is spelt by `spelling`, whose contract says each character.
ghost use Rattle.std.specs.Prelude.{◌≤◌, length};

use arrayvec::ArrayString;
use lines::{Page, Refused};
use reading::Answer;
use std::fmt::Write;
use std::io;

// "Each early line is the line number and its result."
pub(crate) fn result(rt: &impl Print, number: u64, line: Result<(), Refused>) -> io::Result<()> {
    let mut text = ArrayString::<96>::new();
    let _ = match line {
        Ok(()) => write!(text, "{number} row\n"),
        Err(refused) => write!(
            text,
            "{number} refused {} at {}\n",
            refused.number, refused.place
        ),
    };
    rt.write_all(text.as_str().as_bytes())
}

// "The page line gives page number, n, L, rows laid, rank, answer number, agreement."
pub(crate) fn answer(rt: &impl Print, page: Page, rows: usize, answer: Answer) -> io::Result<()> {
    let Page { number, n, l } = page;
    let told = answer_numbers::numbers_of(answer);
    let mut text = ArrayString::<256>::new();
    let _ = write!(
        text,
        "page {number} symbols {n} bytes {l} rows {rows} kept {} answer {} agree {}\n",
        told.rank, told.number, told.agreement
    );
    rt.write_all(text.as_str().as_bytes())
}

// "The page follows in lower-case hexadecimal". What stands behind the digits is a newline.
#[tactic(auto, unfolding(spelling::specs::Spelling::spelt))]
pub(crate) fn page(rt: &impl Print, bytes: &[u8]) -> io::Result<()>
    requires { length bytes.now ≤ 2048 }
{
    let mut text = [b'\n'; 4097];
    let Some(end) = spelling::spell(bytes, &mut text) else {
        return Ok(());
    };
    rt.write_all(&text[..end + 1])
}

// "With no good frame the last line is `no page`."
pub(crate) fn no_page(rt: &impl Print) -> io::Result<()> {
    rt.write_all(b"no page\n")
}
