// Which seeds were noted, as far as a filter can tell: one that was not noted is new for certain.
#![tactic(auto)]

ghost use Rattle.std.specs.Prelude.{◌≡◌};
ghost use Rattle.filter.specs.Filter.{is_set, with_set, noted, note_answer, note_filter};

pub const BYTES: usize = 1024;

// The bits of a filter: a seed's first bit goes by its low 13 bits, its second by the 13 above.
const BITS: u32 = 8192;

// Whether a bit is set.
fn is_set(filter: &[u8; BYTES], bit: u32) -> bool
    ensures { result ≡ is_set bit filter.now }
{
    let byte = filter[(bit / 8) as usize % BYTES];
    (byte >> (bit % 8)) % 2 == 1
}

fn set(filter: &mut [u8; BYTES], bit: u32)
    ensures { filter.new ≡ with_set bit filter.old }
{
    filter[(bit / 8) as usize % BYTES] |= 1u8 << (bit % 8);
}

// Whether both bits of a seed are set.
fn is_noted(filter: &[u8; BYTES], seed: u32) -> bool
    ensures { result ≡ noted seed filter.now }
{
    is_set(filter, seed) && is_set(filter, seed / BITS)
}

// Notes a seed, and tells whether its bits were set before. Where the filter is too short nothing is written, and they may have been.
pub fn note(filter: &mut [u8], seed: u32) -> bool
    ensures answer { result ≡ note_answer seed filter.old }
    ensures filter { filter.new ≡ note_filter seed filter.old }
{
    let Some(bits) = filter.first_chunk_mut::<BYTES>() else {
        return true;
    };
    let before = is_noted(bits, seed);
    set(bits, seed);
    set(bits, seed / BITS);
    before
}
