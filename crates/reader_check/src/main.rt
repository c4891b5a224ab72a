// Prints readings: K1 to K12 of document 01, rows that repeat others or almost do, and the edges. The plain program docs/src/bin/reads.rs prints the same.
#![tactic(auto)]

ghost use Rattle.std.specs.Prelude.{◌≡◌, ◌≤◌, length};

mod print;

use std::io;

// How many bytes of the page room and the scratch are lent, and how many uses and roles.
#[derive(Clone, Copy)]
struct Lent {
    page: usize,
    uses: usize,
    roles: usize,
    scratch: usize,
    ghost page_in_range: { page ≤ 2048 },
    ghost uses_in_range: { uses ≤ 513 },
    ghost roles_in_range: { roles ≤ 513 },
    ghost scratch_in_range: { scratch ≤ 32769 },
}

impl Lent {
    fn new(page: usize, uses: usize, roles: usize, scratch: usize) -> Self
        requires page { page ≤ 2048 }
        requires uses { uses ≤ 513 }
        requires roles { roles ≤ 513 }
        requires scratch { scratch ≤ 32769 }
        ensures page { result.page ≡ page }
        ensures uses { result.uses ≡ uses }
        ensures roles { result.roles ≡ roles }
        ensures scratch { result.scratch ≡ scratch }
    {
        Lent {
            page,
            uses,
            roles,
            scratch,
        }
    }
}

// Reads a list into fresh rooms, of which no byte is zero.
fn read(rt: &impl Print, n: u8, l: u8, list: &[u8], lent: Lent) -> io::Result<()> {
    let mut page = [170u8; 2048];
    let mut uses = [43690u16; 513];
    let mut roles = [170u8; 513];
    let mut scratch = [170u8; 32769];
    let page = &mut page[..lent.page];
    let uses = &mut uses[..lent.uses];
    let roles = &mut roles[..lent.roles];
    let scratch = &mut scratch[..lent.scratch];
    let answer = reader::read_list(n, l, list, page, uses, roles, scratch);
    print::reading(rt, answer, page, uses, roles, scratch)
}

// Lays five rows at most, each of a seed, a constraint and a payload, a byte for each.
fn lay_triples(triples: &[u8], list: &mut [u8])
    requires few { length triples.now ≤ 15 }
    requires room { length list.old ≡ 65 }
{
    for i in 0..triples.len() / 3 {
        list[13 * i + 3] = triples[3 * i];
        list[13 * i + 11] = triples[3 * i + 1];
        list[13 * i + 12] = triples[3 * i + 2];
    }
}

// A worked case, with a byte and a mark more than it needs of each room.
fn case(rt: &impl Print, n: u8, triples: &[u8]) -> io::Result<()>
    requires { length triples.now ≤ 15 }
{
    let mut list = [0u8; 65];
    lay_triples(triples, &mut list);
    let m = triples.len() / 3;
    let lent = Lent::new(n as usize + 1, m + 1, m + 1, 32769);
    read(rt, n, 1, &list[..13 * m], lent)
}

const POWERS: [u8; 8] = [1, 2, 4, 8, 16, 32, 64, 128];

// Row i of an edge: the seed i, and symbol i % 64 alone, with a payload that ends in i.
fn lay_row(i: usize, row: &mut [u8])
    requires { 13 ≤ length row.old }
{
    row[2] = (i / 256 % 256) as u8;
    row[3] = (i % 256) as u8;
    row[11 - i / 8 % 8] = POWERS[i % 8];
    let last = row.len() - 1;
    row[last] = (i % 256) as u8;
}

// Rows 0, 1, 2 and so on, again from 0 after each turn.
fn lay_rows(bytes: usize, turn: usize, list: &mut [u8])
    requires row { 13 ≤ bytes }
    requires some { 1 ≤ turn }
{
    for (i, row) in list.chunks_exact_mut(bytes).enumerate() {
        lay_row(i % turn, row);
    }
}

// An edge: the shape of a page, after how many rows they come again, how many bytes the list has, and what is lent.
#[derive(Clone, Copy)]
struct Edge {
    n: u8,
    l: u8,
    turn: usize,
    size: usize,
    lent: Lent,
}

impl Edge {
    fn read(self, rt: &impl Print) -> io::Result<()>
        requires bytes { 1 ≤ self.l }
        requires rows { 1 ≤ self.turn }
        requires size { self.size ≤ 6669 }
    {
        let mut list = [0u8; 6669];
        let list = &mut list[..self.size];
        lay_rows(rows::stride(self.l), self.turn, list);
        read(rt, self.n, self.l, list, self.lent)
    }
}

// K1 to K12, with the seeds 0, 1, 2 and so on.
fn worked(rt: &impl Print) -> io::Result<()> {
    case(rt, 1, b"")?;
    case(rt, 1, &[0, 1, 7])?;
    case(rt, 1, &[0, 1, 7, 1, 1, 9])?;
    case(rt, 1, &[0, 1, 7, 1, 1, 9, 2, 1, 9])?;
    case(rt, 1, &[0, 0, 7])?;
    case(rt, 1, &[0, 1, 7, 1, 0, 0])?;
    case(rt, 2, &[0, 3, 1, 1, 1, 3, 2, 3, 2, 3, 2, 1, 4, 1, 0])?;
    case(rt, 2, &[0, 1, 3, 1, 2, 1, 2, 3, 1, 3, 3, 2, 4, 1, 0])?;
    case(rt, 2, &[0, 3, 13, 1, 1, 6, 2, 3, 14, 3, 2, 8, 4, 1, 5])?;
    case(rt, 1, &[0, 2, 7])?;
    case(rt, 2, &[0, 1, 4, 1, 1, 5])?;
    case(rt, 2, &[0, 1, 4])
}

// K4 with equal seeds on its second and third rows; equal seeds, but other payloads; equal seeds and payloads, but other constraints; equal but for
// the seeds; one row held, against two; repeats of rows that are not kept, with others between.
fn repeats(rt: &impl Print) -> io::Result<()> {
    case(rt, 1, &[0, 1, 7, 1, 1, 9, 1, 1, 9])?;
    case(rt, 1, &[0, 1, 7, 0, 1, 9, 1, 1, 9])?;
    case(rt, 2, &[0, 1, 4, 0, 2, 4, 0, 3, 4, 0, 1, 4, 1, 1, 4])?;
    case(rt, 1, &[0, 1, 7, 1, 1, 7, 2, 1, 7, 3, 1, 9, 4, 1, 9])?;
    case(rt, 1, &[0, 1, 7, 0, 1, 7, 0, 1, 7, 1, 1, 9, 2, 1, 9])?;
    case(rt, 1, &[0, 1, 7, 1, 1, 7, 2, 0, 0, 1, 1, 7, 2, 0, 0])
}

// More rows than any list has: none repeats another.
const NEVER: usize = 1024;

// The largest page, with just what it needs of each room.
const LARGEST: Edge = Edge {
    n: 64,
    l: 32,
    turn: NEVER,
    size: 2816,
    lent: Lent {
        page: 2048,
        uses: 64,
        roles: 64,
        scratch: 32768,
    },
};

// The most rows, of a byte each.
const MOST_ROWS: Edge = Edge {
    l: 1,
    size: 6656,
    lent: Lent {
        page: 64,
        uses: 512,
        roles: 512,
        scratch: 32768,
    },
    ..LARGEST
};

// n 64, 65, 0 and a stray bit; L 33; 512 and 513 rows, and a byte less than a row.
fn shapes(rt: &impl Print) -> io::Result<()> {
    let lent = Lent::new(64, 513, 513, 32768);
    LARGEST.read(rt)?;
    Edge { n: 65, ..LARGEST }.read(rt)?;
    Edge { n: 0, ..LARGEST }.read(rt)?;
    Edge { n: 63, ..LARGEST }.read(rt)?;
    Edge { l: 33, ..LARGEST }.read(rt)?;
    MOST_ROWS.read(rt)?;
    Edge {
        size: 6669,
        lent,
        ..MOST_ROWS
    }
    .read(rt)?;
    Edge {
        size: 2815,
        ..LARGEST
    }
    .read(rt)
}

// 256 rows shown twice, and 17 shown thirty times.
fn turns(rt: &impl Print) -> io::Result<()> {
    let lent = Lent::new(17, 510, 510, 32768);
    Edge {
        turn: 256,
        ..MOST_ROWS
    }
    .read(rt)?;
    Edge {
        n: 17,
        turn: 17,
        size: 6630,
        lent,
        ..MOST_ROWS
    }
    .read(rt)
}

// The largest page, with less lent.
fn with_lent(rt: &impl Print, lent: Lent) -> io::Result<()> {
    Edge { lent, ..LARGEST }.read(rt)
}

// Each room short by one.
fn short(rt: &impl Print) -> io::Result<()> {
    with_lent(rt, Lent::new(2047, 64, 64, 32768))?;
    with_lent(rt, Lent::new(2048, 63, 64, 32768))?;
    with_lent(rt, Lent::new(2048, 64, 63, 32768))?;
    with_lent(rt, Lent::new(2048, 64, 64, 32767))
}

fn main(rt: HostRuntime) -> io::Result<()> {
    worked(&rt)?;
    repeats(&rt)?;
    shapes(&rt)?;
    turns(&rt)?;
    short(&rt)
}
