// Rows and pages: what crosses between two phones.
#![tactic(auto)]

ghost use Rattle.std.specs.Prelude.{◌≡◌};
ghost use Rattle.rows.specs.Rows.{shape, list_row_bytes};
ghost use Rattle.rows.specs.Bytes.{stray};

// The bytes of a seed, and of seed and constraint, which stand before the payload in an entry of a list.
pub const SEED: usize = 4;

pub const HEAD: usize = 12;

// Whether n and L are in range.
#[tactic(auto, unfolding(crate::specs::Rows::shape))]
pub fn shaped(n: u8, l: u8) -> bool
    ensures { result ≡ shape n l }
{
    (1..=64).contains(&n) && (1..=32).contains(&l)
}

// The bytes from one entry of a list to the next.
pub fn stride(l: u8) -> usize
    ensures { result ≡ list_row_bytes l }
{
    HEAD + usize::from(l)
}

// Whether a constraint names a symbol that a page of n symbols has not.
pub fn strays(n: u8, constraint: u64) -> bool
    ensures { result ≡ stray n constraint }
{
    n < 64 && (1u64 << n) <= constraint
}
