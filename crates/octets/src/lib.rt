// Bytes, many at a time: added, cleared, copied. What number they stand for is defined here too.
#![tactic(auto)]

ghost use Rattle.std.specs.Prelude.{◌≡◌, min, length, take, replicate};
ghost use Rattle.octets.specs.Octets.{add_front, over};

// The lesser of two lengths.
pub fn least(a: usize, b: usize) -> usize
    ensures { result ≡ min a b }
{
    a.min(b)
}

// Adds from, bit by bit, to the first bytes of into.
pub fn add(into: &mut [u8], from: &[u8])
    ensures { into.new ≡ add_front into.old from.now }
{
    for i in 0..into.len().min(from.len()) {
        into[i] ^= from[i];
    }
}

// Makes every byte zero. A loop: std's `fill` ends with a test, behind which the compiler has forgotten how short a symbol is, and a row with a payload of 16
// bytes is then made a third slower.
pub fn clear(v: &mut [u8])
    ensures { v.new ≡ replicate (length v.old) 0 }
{
    for byte in v.iter_mut() {
        *byte = 0;
    }
}

// Writes as much of from as there is room for over the first bytes of into. A loop: std's `copy_from_slice` would have each archive ask the C library for
// memmove too, which none did.
pub fn copy(into: &mut [u8], from: &[u8])
    ensures { into.new ≡ over (take (length into.old) from.now) into.old }
{
    for i in 0..into.len().min(from.len()) {
        into[i] = from[i];
    }
}
