// Prints the tables that docs/src/bin/frames.rs, lays.rs and makes.rs print, one after the other: frame readings, layings and rows made.
#![tactic(auto)]

ghost use Rattle.std.specs.Prelude.{◌≡◌, ◌+◌, ◌<◌, ◌≤◌, length};

mod base;
mod makes;
mod print;

use base::{BASES, Base, Expected};
use std::io;

// The largest frame, and three bytes behind it.
const FRAME: usize = 57;

// The arrival numbers of the layings of a whole frame; Base::expected_at has what each expects.
const ARRIVALS: [usize; 11] = [0, 1, 2, 3, 511, 512, 1, 1, 1, 1, 1];

// A reading with a byte altered, for its time.
fn altered(rt: &impl Print, frame: &mut [u8], at: usize, flip: u8) -> io::Result<()>
    requires { at < length frame.old }
{
    frame[at] ^= flip;
    print::reading(rt, frame)?;
    frame[at] ^= flip;
    Ok(())
}

fn alterations(rt: &impl Print, frame: &mut [u8]) -> io::Result<()> {
    for at in 0..frame.len() {
        altered(rt, frame, at, 1)?;
        altered(rt, frame, at, 128)?;
    }
    Ok(())
}

// Readings of the first bytes, from `from` of them to one below `end`.
fn starts(rt: &impl Print, bytes: &[u8], from: usize, end: usize) -> io::Result<()>
    requires { end ≤ length bytes.now + 1 }
{
    for size in from..end {
        print::reading(rt, &bytes[..size])?;
    }
    Ok(())
}

fn whole_and_altered(rt: &impl Print, frame: &mut [u8]) -> io::Result<()> {
    print::reading(rt, frame)?;
    alterations(rt, frame)
}

fn cut_and_extended(rt: &impl Print, room: &[u8], end: usize) -> io::Result<()>
    requires room { length room.now ≡ 57 }
    requires end { end ≤ 54 }
{
    starts(rt, room, 0, end)?;
    starts(rt, room, end + 1, end + 4)
}

fn readings(rt: &impl Print, k: usize, b: Base) -> io::Result<()> {
    let mut room = [0u8; FRAME];
    let end = b.write(k, &mut room);
    whole_and_altered(rt, &mut room[..end])?;
    cut_and_extended(rt, &room, end)
}

fn of_whole(rt: &impl Print, frame: &[u8], b: Base, size: usize) -> io::Result<()>
    requires { size ≤ 137 }
{
    for (i, &arrival) in ARRIVALS.iter().enumerate() {
        print::laying(rt, frame, b.expected_at(i), arrival, size)?;
    }
    Ok(())
}

// A frame that is a byte short, and one with a byte behind it.
fn of_lengths(
    rt: &impl Print,
    room: &[u8],
    expected: Expected,
    end: usize,
    size: usize,
) -> io::Result<()>
    requires room { length room.now ≡ 57 }
    requires some { 1 ≤ end }
    requires end { end ≤ 54 }
    requires size { size ≤ 137 }
{
    print::laying(rt, &room[..end - 1], expected, 1, size)?;
    print::laying(rt, &room[..end + 1], expected, 1, size)
}

// Lists that end a byte before the row's end, and right there.
fn into_lists(rt: &impl Print, frame: &[u8], expected: Expected, row: usize) -> io::Result<()>
    requires some { 1 ≤ row }
    requires most { row ≤ 44 }
{
    print::laying(rt, frame, expected, 1, 2 * row - 1)?;
    print::laying(rt, frame, expected, 1, 2 * row)
}

fn layings(rt: &impl Print, k: usize, b: Base) -> io::Result<()> {
    let mut room = [0u8; FRAME];
    let end = b.write(k, &mut room);
    let row = rows::stride(b.l);
    let size = 3 * row + 5;
    of_whole(rt, &room[..end], b, size)?;
    of_lengths(rt, &room, b.expected(), end, size)?;
    into_lists(rt, &room[..end], b.expected(), row)
}

fn main(rt: HostRuntime) -> io::Result<()> {
    for k in 0..BASES {
        readings(&rt, k, Base::at(k))?;
    }
    for k in 0..BASES {
        layings(&rt, k, Base::at(k))?;
    }
    for k in 0..BASES {
        makes::rows(&rt, k, Base::at(k))?;
    }
    Ok(())
}
