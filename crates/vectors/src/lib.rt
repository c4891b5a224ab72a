// A vector of 80 bytes, held in ten words so that it stays in registers while other vectors are added to it.
#![tactic(auto)]

ghost use Rattle.std.specs.Prelude.{◌≡◌};
ghost use Rattle.vectors.specs.Vectors.{vector_of, plus_of, store_in};

use std::ops::BitXor;

// Fields and no array: the compiler keeps fields in registers, an array it copies about.
#[derive(Clone, Copy)]
pub struct Vector {
    pub a: u64,
    pub b: u64,
    pub c: u64,
    pub d: u64,
    pub e: u64,
    pub f: u64,
    pub g: u64,
    pub h: u64,
    pub i: u64,
    pub j: u64,
}

// The vector that the first 80 bytes are; a word that runs past the end is 0.
pub fn load(from: &[u8]) -> Vector
    ensures { result ≡ vector_of from.now }
{
    Vector {
        a: littles::little(from, 0),
        b: littles::little(from, 8),
        c: littles::little(from, 16),
        d: littles::little(from, 24),
        e: littles::little(from, 32),
        f: littles::little(from, 40),
        g: littles::little(from, 48),
        h: littles::little(from, 56),
        i: littles::little(from, 64),
        j: littles::little(from, 72),
    }
}

// Two added bit by bit.
impl BitXor for Vector {
    type Output = Vector;

    ghost bitxor_gives = { λ p q sum. sum ≡ plus_of p q };

    fn bitxor(self, q: Vector) -> Vector {
        Vector {
            a: self.a ^ q.a,
            b: self.b ^ q.b,
            c: self.c ^ q.c,
            d: self.d ^ q.d,
            e: self.e ^ q.e,
            f: self.f ^ q.f,
            g: self.g ^ q.g,
            h: self.h ^ q.h,
            i: self.i ^ q.i,
            j: self.j ^ q.j,
        }
    }
}

// The same by name.
pub fn plus(p: Vector, q: Vector) -> Vector
    ensures { result ≡ plus_of p q }
{
    p ^ q
}

// Writes a vector over the first 80 bytes of into; nothing where there are fewer.
pub fn store(into: &mut [u8], v: Vector)
    ensures { into.new ≡ store_in v into.old }
{
    if into.len() < 80 {
        return;
    }
    let words = [v.a, v.b, v.c, v.d, v.e, v.f, v.g, v.h, v.i, v.j];
    for i in 0..words.len() {
        let at = 8 * i;
        littles::put_little(&mut into[at..at + 8], words[i]);
    }
}
