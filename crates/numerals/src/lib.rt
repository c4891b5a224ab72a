// The number that bytes stand for, and the bytes of a number, the highest first.
#![tactic(auto)]

ghost use Rattle.std.specs.Prelude.{◌≡◌, ◌%◌, ◌^◌, length};
ghost use Rattle.octets.specs.Octets.{number, bytes};

// Writes a number over the whole of into.
pub fn put(into: &mut [u8], x: u64)
    ensures { into.new ≡ bytes (length into.old) x }
{
    let mut rest = x;
    for i in (0..into.len()).rev() {
        into[i] = (rest % 256) as u8;
        rest /= 256;
    }
}

// The number that the last eight bytes stand for, or all of them where there are fewer.
pub fn get(from: &[u8]) -> u64
    ensures { result ≡ number from.now % 2 ^ 64 }
{
    from.iter().fold(0, |x, &byte| (x << 8) | u64::from(byte))
}
