// Numbers of two bytes, by their place in a run of them.
#![tactic(auto)]

ghost use Rattle.std.specs.Prelude.{◌≡◌};
ghost use Rattle.doubles.specs.Doubles.{pair_at, put_pair};

// The number at place i in a run of numbers of two bytes; 0 past the end.
pub fn pair(from: &[u8], i: usize) -> u16
    ensures { result ≡ pair_at i from.now }
{
    match from.as_chunks::<2>().0.get(i) {
        Some(pair) => u16::from_be_bytes(*pair),
        None => 0,
    }
}

// Writes the number at place i in a run of numbers of two bytes; past the end nothing is written.
pub fn put_pair(into: &mut [u8], i: usize, x: u16)
    ensures { into.new ≡ put_pair i x into.old }
{
    if i < into.len() / 2 {
        let at = 2 * i;
        into[at..at + 2].copy_from_slice(&x.to_be_bytes());
    }
}
