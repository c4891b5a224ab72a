// Eight bytes as one number of 64 bits, and four as one of 32, the first byte highest: what takes bytes one by one takes them by eights here.
#![tactic(auto)]

ghost use Rattle.std.specs.Prelude.{◌≡◌};
ghost use Rattle.words.specs.Words.{word_at, four_of};

// The number of the eight bytes from an index on, with zeros for those past the end.
pub fn word(from: &[u8], i: usize) -> u64
    ensures { result ≡ word_at i from.now }
{
    if from.len() <= i {
        return 0;
    }
    let rest = &from[i..];
    match rest.first_chunk::<8>() {
        Some(eight) => u64::from_be_bytes(*eight),
        None => numerals::get(rest) << (8 * (8 - rest.len())),
    }
}

// The number of the first four bytes; 0 where there are fewer.
pub fn four(from: &[u8]) -> u32
    ensures { result ≡ four_of from.now }
{
    match from.first_chunk::<4>() {
        Some(four) => u32::from_be_bytes(*four),
        None => 0,
    }
}
