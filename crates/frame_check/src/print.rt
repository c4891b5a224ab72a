// The lines of the tables.
ghost use Rattle.std.specs.Prelude.{◌≤◌};

use crate::base::Expected;
use places::Arrival;
use std::{fmt, io};

// Three of the longest rows, and five bytes.
const LIST: usize = 137;

// Bytes in hexadecimal.
#[derive(Clone, Copy)]
pub(crate) struct Hex<'a>(pub(crate) &'a [u8]);

impl fmt::Display for Hex<'_> {
    fn fmt<W: fmt::Write>(&self, f: &mut fmt::Formatter<W>) -> fmt::Result {
        for byte in self.0 {
            write!(f, "{byte:02x}")?;
        }
        Ok(())
    }
}

// Number, place, page number, n, L, seed and the payload's offset, and the payload.
pub(crate) fn reading(rt: &impl Print, frame: &[u8]) -> io::Result<()> {
    let told = telling::numbers_of(frame::read(frame));
    let payload = frame::payload(frame);
    let none = if payload.is_empty() { "-" } else { "" };
    print!(rt;
        "{} {} {} {} {} {} {} ",
        told.number, told.place, told.page, told.n, told.l, told.seed, told.offset
    )?;
    println!(rt; "{none}{}", Hex(payload))
}

// Number, place and the whole of a fresh list afterwards, of bytes 170 before.
pub(crate) fn laying(
    rt: &impl Print,
    frame: &[u8],
    expected: Expected,
    arrival: usize,
    size: usize,
) -> io::Result<()>
    requires { size ≤ 137 }
{
    let mut list = [170u8; LIST];
    let list = &mut list[..size];
    let Expected { page, n, l } = expected;
    let told = telling::told_by(laying::lay(frame, page, n, l, Arrival(arrival), list));
    println!(rt; "{} {} {}", told.number, told.place, Hex(list))
}
