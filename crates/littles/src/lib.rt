// Eight bytes as one number, the first byte lowest, and the bytes of a number in that order: what only compares, adds or keeps eight bytes takes them in one load.
#![tactic(auto)]

ghost use Rattle.std.specs.Prelude.{◌≡◌, length};
ghost use Rattle.littles.specs.Littles.{little_at, little_bytes};

// The number of the eight bytes from an index on, the first lowest; 0 where there are fewer.
pub fn little(from: &[u8], i: usize) -> u64
    ensures { result ≡ little_at i from.now }
{
    if from.len() < i {
        return 0;
    }
    match from[i..].first_chunk::<8>() {
        Some(eight) => u64::from_le_bytes(*eight),
        None => 0,
    }
}

// Writes a number over the whole of into, the lowest byte first.
pub fn put_little(into: &mut [u8], x: u64)
    ensures { into.new ≡ little_bytes (length into.old) x }
{
    let mut rest = x;
    for byte in into.iter_mut() {
        *byte = (rest % 256) as u8;
        rest /= 256;
    }
}
