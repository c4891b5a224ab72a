// Whether a row agrees with a page, eight bytes at a time.
#![tactic(auto)]

ghost use Rattle.std.specs.Prelude.{◌≡◌, ◌/◌, ◌%◌, ◌^◌, ◌≤◌, ◌<◌, eqb, length};
ghost use Rattle.octets.specs.Octets.{number};
ghost use Rattle.rows.specs.Rows.{named};
ghost use Rattle.rows.specs.Bytes.{cut, bytes_agree};
ghost use Rattle.agree.specs.Quads.{quad_of, quad_plus};

use std::ops::BitXor;

// Four words that cover 8 to 32 bytes, so that a sum of symbols stays in registers. Where there are fewer than 32, the words overlap.
#[derive(Clone, Copy, PartialEq)]
struct Quad {
    a: u64,
    b: u64,
    c: u64,
    d: u64,
}

impl Quad {
    fn of(from: &[u8]) -> Self
        requires { 8 ≤ length from.now }
        ensures { result ≡ quad_of from.now }
    {
        let last = from.len() - 8;
        Quad {
            a: littles::little(from, 0),
            b: littles::little(from, last.min(8)),
            c: littles::little(from, last.min(16)),
            d: littles::little(from, last.min(24)),
        }
    }
}

// Two added bit by bit.
impl BitXor for Quad {
    type Output = Quad;

    ghost bitxor_gives = { λ p q sum. sum ≡ quad_plus p q };

    fn bitxor(self, other: Quad) -> Quad {
        Quad {
            a: self.a ^ other.a,
            b: self.b ^ other.b,
            c: self.c ^ other.c,
            d: self.d ^ other.d,
        }
    }
}

// Whether a payload of 8 to 32 bytes is the sum of the symbols of page that a bit of names stands for: added to it, they leave nothing.
fn is_long_sum(page: &[u8], payload: &[u8], names: u64) -> bool
    requires least { 8 ≤ length payload.now }
    requires most { length payload.now ≤ 32 }
    requires inside { names < 2 ^ (length page.now / length payload.now) }
    ensures { result ≡ eqb (number payload.now) (named (cut (length payload.now) page.now) names) }
{
    let l = payload.len();
    let mut left = Quad::of(payload);
    for bit in bits::set_bits(names) {
        let start = bit * l;
        left = left ^ Quad::of(&page[start..start + l]);
    }
    left == Quad {
        a: 0,
        b: 0,
        c: 0,
        d: 0,
    }
}

// The same for 1 to 7 bytes. They are the highest of a word; those behind them belong to the symbols that follow, and the shift cuts them off.
// A trait over quads and words would take three methods and two laws to join these six lines with those six.
fn is_short_sum(page: &[u8], payload: &[u8], names: u64) -> bool
    requires some { 0 < length payload.now }
    requires few { length payload.now < 8 }
    requires inside { names < 2 ^ (length page.now / length payload.now) }
    ensures { result ≡ eqb (number payload.now) (named (cut (length payload.now) page.now) names) }
{
    let l = payload.len();
    let mut left = words::word(payload, 0);
    for bit in bits::set_bits(names) {
        left ^= words::word(page, bit * l);
    }
    left >> (8 * (8 - l)) == 0
}

// The bits of names that stand for symbols of l bytes of a page of so many. To divide takes longer than a short sum, so it is done only where
// a bit stands for no symbol.
fn of_page(names: u64, l: usize, page: usize) -> u64
    requires some { 0 < l }
    requires most { l ≤ 32 }
    ensures { result ≡ names % 2 ^ (page / l) }
{
    if (bits::top(names) + 1) * l <= page {
        return names;
    }
    bits::low(names, page / l)
}

// Whether a row agrees with a page, whose symbols are as long as the row's payload.
pub fn agrees(page: &[u8], row: &[u8]) -> bool
    ensures { result ≡ bytes_agree page.now row.now }
{
    let size = row.len();
    if size < 9 || 40 < size {
        return false;
    }
    let names = of_page(words::word(row, 0), size - 8, page.len());
    if 16 <= size {
        return is_long_sum(page, &row[8..], names);
    }
    is_short_sum(page, &row[8..], names)
}
