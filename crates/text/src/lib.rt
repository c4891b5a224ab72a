// Hexadecimal digits: a line to bytes.
#![tactic(auto)]

ghost use Rattle.std.specs.Prelude.{◌≡◌, ◌/◌, ◌≤◌, true, length};
ghost use Rattle.octets.specs.Octets.{over};
ghost use Rattle.text.specs.Hex as spec;

// "over 256 characters"
const MOST_CHARACTERS: usize = 256;

// Why a line gives no bytes: a bad line; or a lent frame that is too short for its bytes.
#[derive(Clone, Copy, PartialEq, Eq)]
pub enum Refusal {
    Bad,
    Room,
}

// What a digit is worth.
#[tactic(auto, unfolding(crate::specs::Hex::digit, crate::specs::Hex::within))]
fn digit(c: u8) -> Option<u8>
    ensures { result ≡ spec.digit c }
{
    match c {
        b'0'..=b'9' => Some(c - b'0'),
        b'A'..=b'F' => Some(c - b'A' + 10),
        b'a'..=b'f' => Some(c - b'a' + 10),
        _ => None,
    }
}

fn all_digits(line: &[u8]) -> bool
    ensures { result ≡ spec.all_digits line.now }
{
    line.iter().all(|&c| digit(c).is_some())
}

// Writes the byte of each pair of digits.
fn write_pairs(line: &[u8], frame: &mut [u8])
    requires line_value { spec.all_digits line.now ≡ true }
    requires line_in_bounds { length line.now / 2 ≤ length frame.old }
    ensures { frame.new ≡ over (spec.pairs line.now) frame.old }
{
    for i in 0..line.len() / 2 {
        let high = digit(line[2 * i]).unwrap();
        let low = digit(line[2 * i + 1]).unwrap();
        frame[i] = high * 16 + low;
    }
}

// "odd length, over 256 characters, or with another character"
#[tactic(auto, unfolding(crate::specs::Hex::bad, crate::specs::Hex::most_characters))]
fn bad(line: &[u8]) -> bool
    ensures { result ≡ spec.bad line.now }
{
    line.len() % 2 != 0 || MOST_CHARACTERS < line.len() || !all_digits(line)
}

// The bytes of a line, into the first bytes of the lent frame.
#[tactic(auto, using(octets::proofs::Runs::over_none, crate::proofs::Unhexed::good), unfolding(crate::specs::Hex::unhexed, crate::specs::Hex::unhexed_frame, crate::specs::Hex::unhexed_bytes))]
pub fn unhex(line: &[u8], frame: &mut [u8]) -> Result<usize, Refusal>
    ensures answer { result ≡ spec.unhexed line.now (length frame.old) }
    ensures frame { frame.new ≡ spec.unhexed_frame line.now frame.old }
{
    if bad(line) {
        return Err(Refusal::Bad);
    }
    let half = line.len() / 2;
    if frame.len() < half {
        return Err(Refusal::Room);
    }
    write_pairs(line, frame);
    Ok(half)
}
