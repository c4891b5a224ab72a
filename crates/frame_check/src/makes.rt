// The table of rows made from the page of each base: constraints inside and outside, and rooms, pages and shapes around the edges.
ghost use Rattle.std.specs.Prelude.{◌≡◌, ◌+◌, ◌≤◌, length};

use crate::base;
use crate::base::Base;
use crate::print::Hex;
use std::io;

// The largest page, and a byte behind it.
const PAGE: usize = 2049;

// The longest row, and three bytes.
const ROOM: usize = 47;

// Some bits of a constraint, the highest and the lowest among them.
const MIXED: u64 = 11400714819323198485;

// What a row is made from, and how many bytes it may take.
#[derive(Clone, Copy)]
struct Row<'a> {
    n: u8,
    l: u8,
    seed: u32,
    constraint: u64,
    page: &'a [u8],
    room: usize,
}

impl Row<'_> {
    // Prints number and the whole of a fresh room afterwards, of bytes 170 before.
    fn print(self, rt: &impl Print) -> io::Result<()>
        requires { self.room ≤ 47 }
    {
        let mut room = [170u8; ROOM];
        let room = &mut room[..self.room];
        let answer = making::make(self.n, self.l, self.seed, self.constraint, self.page, room);
        let number = answer.err().map_or(0, u8::from);
        println!(rt; "{number} {}", Hex(room))
    }
}

// The lowest bit that is outside; with 64 symbols there is none, and nothing is named.
fn outside(all: u64) -> u64 {
    all.wrapping_add(1)
}

// The constraint of `row` names all symbols.
fn constraints(rt: &impl Print, row: Row<'_>) -> io::Result<()>
    requires { row.room ≤ 47 }
{
    let all = row.constraint;
    let named = [
        0,
        1,
        all - all / 2,
        all,
        MIXED & all,
        outside(all),
        u64::MAX,
    ];
    for constraint in named {
        Row { constraint, ..row }.print(rt)?;
    }
    Ok(())
}

// Rooms that end at the row's end, a byte before it, and at once.
fn rooms(rt: &impl Print, row: Row<'_>) -> io::Result<()>
    requires some { 1 ≤ row.room }
    requires most { row.room ≤ 44 }
{
    row.print(rt)?;
    Row {
        room: row.room - 1,
        ..row
    }
    .print(rt)?;
    Row { room: 0, ..row }.print(rt)
}

fn shapes(rt: &impl Print, row: Row<'_>) -> io::Result<()>
    requires { row.room ≤ 44 }
{
    Row { n: 0, ..row }.print(rt)?;
    Row { n: 65, ..row }.print(rt)?;
    Row { l: 0, ..row }.print(rt)?;
    Row { l: 33, ..row }.print(rt)
}

// A page that is a byte short, one with a byte behind it, and none.
fn pages(rt: &impl Print, row: Row<'_>, page: &[u8], end: usize) -> io::Result<()>
    requires page { length page.now ≡ 2049 }
    requires some { 1 ≤ end }
    requires most { end ≤ 2048 }
{
    let wide = Row { room: 44, ..row };
    Row {
        page: &page[..end - 1],
        ..wide
    }
    .print(rt)?;
    Row {
        page: &page[..end + 1],
        ..wide
    }
    .print(rt)?;
    Row {
        page: &page[..0],
        ..wide
    }
    .print(rt)
}

// Two refusals at a time: the one that comes first in the order is given.
fn orders(rt: &impl Print, row: Row<'_>, long: &[u8]) -> io::Result<()>
    requires some { 1 ≤ row.room }
    requires most { row.room ≤ 44 }
{
    let stray = Row {
        constraint: outside(row.constraint),
        ..row
    };
    Row {
        n: 0,
        page: long,
        ..stray
    }
    .print(rt)?;
    Row {
        page: long,
        ..stray
    }
    .print(rt)?;
    Row {
        room: row.room - 1,
        ..stray
    }
    .print(rt)
}

pub(crate) fn rows(rt: &impl Print, k: usize, b: Base) -> io::Result<()> {
    let mut page = [0u8; PAGE];
    base::fill(&mut page, k);
    let end = b.page_bytes();
    let room = rows::stride(b.l);
    let row = Row {
        n: b.n,
        l: b.l,
        seed: b.seed,
        constraint: u64::MAX >> (64 - b.n),
        page: &page[..end],
        room,
    };
    constraints(
        rt,
        Row {
            room: room + 3,
            ..row
        },
    )?;
    rooms(rt, row)?;
    shapes(rt, row)?;
    pages(rt, row, &page, end)?;
    orders(rt, row, &page[..end + 1])
}
