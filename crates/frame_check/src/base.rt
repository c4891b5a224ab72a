// The base frames of the tables, and what they are written from.
ghost use Rattle.std.specs.Prelude.{◌≡◌, ◌+◌, ◌≤◌, length};

#[derive(Clone, Copy)]
pub struct Base {
    pub page: u32,
    pub n: u8,
    pub l: u8,
    pub seed: u32,
    ghost some_symbols: { 1 ≤ n },
    ghost most_symbols: { n ≤ 64 },
    ghost some_bytes: { 1 ≤ l },
    ghost most_bytes: { l ≤ 32 },
}

// What a laying expects, in range or not.
#[derive(Clone, Copy)]
pub(crate) struct Expected {
    pub(crate) page: u32,
    pub(crate) n: u8,
    pub(crate) l: u8,
}

pub const BASES: usize = 4;

// Byte i of page k is 37i + 11k modulo 256.
pub(crate) fn fill(page: &mut [u8], k: usize) {
    for i in 0..page.len() {
        page[i] = ((37 * (i % 256) + 11 * (k % 256)) % 256) as u8;
    }
}

impl Base {
    pub(crate) fn at(k: usize) -> Self {
        match k {
            0 => Base {
                page: 5,
                n: 1,
                l: 1,
                seed: 0,
            },
            1 => Base {
                page: 212,
                n: 2,
                l: 3,
                seed: 1,
            },
            2 => Base {
                page: u32::MAX,
                n: 64,
                l: 32,
                seed: u32::MAX,
            },
            _ => Base {
                page: 16909060,
                n: 7,
                l: 12,
                seed: 305419896,
            },
        }
    }

    // The bytes of a page of its shape.
    pub(crate) fn page_bytes(self) -> usize
        ensures some { 1 ≤ result }
        ensures most { result ≤ 2048 }
    {
        self.n as usize * self.l as usize
    }

    // The frame of base k, at the start of room; its length.
    pub(crate) fn write(self, k: usize, room: &mut [u8]) -> usize
        requires { length room.old ≡ 57 }
        ensures { result ≡ 22 + self.l }
    {
        let mut page = [0u8; 2048];
        fill(&mut page, k);
        let page = &page[..self.page_bytes()];
        let end = 22 + self.l as usize;
        let _ = writing::write(self.page, self.n, self.l, self.seed, page, &mut room[..end]);
        end
    }

    pub(crate) fn expected(self) -> Expected {
        Expected {
            page: self.page,
            n: self.n,
            l: self.l,
        }
    }

    // What laying i of a whole frame expects: its page, another one, or a shape out of range.
    pub(crate) fn expected_at(self, i: usize) -> Expected {
        let own = self.expected();
        let page = own.page.wrapping_add(1);
        let n = if own.n == 64 { 63 } else { own.n % 64 + 1 };
        let l = if own.l == 32 { 31 } else { own.l % 32 + 1 };
        match i {
            6 => Expected { page, ..own },
            7 => Expected { n, ..own },
            8 => Expected { l, ..own },
            9 => Expected { n: 0, ..own },
            10 => Expected { l: 33, ..own },
            _ => own,
        }
    }
}
