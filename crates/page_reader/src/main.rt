// The page reader: frames in hexadecimal on standard input, one a line; on standard output each line's result, and at the end the page.
// lines::take decides what a line gives, and reader::read_list what the rows give. Here the input is split and the answers are printed.
#![tactic(auto)]

ghost use Rattle.std.specs.Prelude.{◌≡◌, ◌*◌, ◌≤◌, true};
ghost use Rattle.std.specs.Option.{ForSome};
ghost use Rattle.rows.specs.Rows.{shape};

mod print;

use arrayvec::ArrayVec;
use lines::{Page, Sheet};
use reading::Answer;
use std::io;
use std::io::Read;

// Of a line at most 257 characters are kept: one too many says that it is too long.
const MOST_KEPT: usize = 257;

// How much is read at once.
const CHUNK: usize = 4096;

// 512 rows of at most 44 bytes.
const LIST_BYTES: usize = 22528;

// How far the input is split, and what it has given: how many lines have ended, what is kept of the next, and the sheet with its list of rows.
#[derive(Drop)]
struct Scan {
    lines: u64,
    kept: ArrayVec<u8, MOST_KEPT>,
    sheet: Sheet,
    list: [u8; LIST_BYTES],
    ghost few: { sheet.rows ≤ 512 },
    ghost shaped: { ForSome sheet.expected (λ page. shape page.n page.l ≡ true) },
}

impl Scan {
    fn new() -> Self {
        Scan {
            lines: 0,
            kept: ArrayVec::new(),
            sheet: Sheet {
                expected: None,
                rows: 0,
            },
            list: [0; LIST_BYTES],
        }
    }

    // Takes the line that is kept, and prints its result.
    fn end_line(&mut self, rt: &impl Print) -> io::Result<()> {
        let taken = lines::take(self.kept.as_slice(), self.sheet, &mut self.list);
        self.sheet = taken.sheet;
        self.lines = self.lines.wrapping_add(1);
        self.kept.clear();
        print::result(rt, self.lines, taken.line)
    }

    // Ends the line, or keeps one character more of it.
    fn take_byte(&mut self, rt: &impl Print, byte: u8) -> io::Result<()> {
        if byte == b'\n' {
            return self.end_line(rt);
        }
        if !self.kept.is_full() {
            self.kept.push(byte);
        }
        Ok(())
    }

    fn take_chunk(&mut self, rt: &impl Print, chunk: &[u8]) -> io::Result<()> {
        for &byte in chunk {
            self.take_byte(rt, byte)?;
        }
        Ok(())
    }

    // Reads to the end of the input. The turns are counted, since nothing says that an input ends.
    fn read_all(&mut self, rt: &impl Print, input: &mut impl Read) -> io::Result<()> {
        let mut chunk = [0u8; CHUNK];
        for _ in 0..u64::MAX {
            let n = input.read(&mut chunk)?;
            if n == 0 {
                break;
            }
            self.take_chunk(rt, &chunk[..n])?;
        }
        Ok(())
    }

    // "the last line may lack its newline, and nothing after a last newline is no line."
    fn end_input(&mut self, rt: &impl Print) -> io::Result<()> {
        if self.kept.is_empty() {
            return Ok(());
        }
        self.end_line(rt)
    }

    // Prints what the lines have left.
    fn report(&self, rt: &impl Print) -> io::Result<()> {
        let Some(page) = self.sheet.expected else {
            return print::no_page(rt);
        };
        let end = self.sheet.rows * rows::stride(page.l);
        read_rows(rt, page, self.sheet.rows, &self.list[..end])
    }
}

// Prints what the rows give.
fn read_rows(rt: &impl Print, page: Page, rows: usize, list: &[u8]) -> io::Result<()>
    requires { page.n * page.l ≤ 2048 }
{
    let mut bytes = [0u8; 2048];
    let mut uses = [0u16; places::MOST_ROWS];
    let mut roles = [0u8; places::MOST_ROWS];
    let mut scratch = [0u8; gate::SCRATCH];
    let answer = reader::read_list(
        page.n,
        page.l,
        list,
        &mut bytes,
        &mut uses,
        &mut roles,
        &mut scratch,
    );
    print::answer(rt, page, rows, answer)?;
    let Answer::Page { .. } = answer else {
        return Ok(());
    };
    let size = page.n as usize * page.l as usize;
    print::page(rt, &bytes[..size])
}

fn main(rt: HostRuntime) -> io::Result<()> {
    let mut scan = Scan::new();
    let mut input = rt.stdin();
    scan.read_all(&rt, &mut input)?;
    scan.end_input(&rt)?;
    scan.report(&rt)
}
