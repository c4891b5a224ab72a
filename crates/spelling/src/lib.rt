// Hexadecimal digits: bytes to a line.
#![tactic(auto)]

ghost use Rattle.std.specs.Prelude.{◌≡◌, ◌/◌, ◌≤◌, ◌<◌, length};
ghost use Rattle.octets.specs.Octets.{over};
ghost use Rattle.spelling.specs.Spelling as spec;

// The digit of a number below 16, in lower case.
#[tactic(auto, unfolding(crate::specs::Spelling::letter))]
fn letter(d: u8) -> u8
    requires { d < 16 }
    ensures { result ≡ spec.letter d }
{
    if d < 10 { b'0' + d } else { b'a' - 10 + d }
}

// Writes the two digits of each byte.
fn write_digits(bytes: &[u8], text: &mut [u8])
    requires { length bytes.now ≤ length text.old / 2 }
    ensures { text.new ≡ over (spec.spelling bytes.now) text.old }
{
    for i in 0..bytes.len() {
        text[2 * i] = letter(bytes[i] / 16);
        text[2 * i + 1] = letter(bytes[i] % 16);
    }
}

// Bytes as a line of digits, into the first characters of the lent text: how many characters they are, or none if the text is too short for them.
#[tactic(auto, using(octets::proofs::Runs::over_none), unfolding(crate::specs::Spelling::spelt, crate::specs::Spelling::spelt_text, crate::specs::Spelling::spelt_characters))]
pub fn spell(bytes: &[u8], text: &mut [u8]) -> Option<usize>
    ensures answer { result ≡ spec.spelt (length bytes.now) (length text.old) }
    ensures text { text.new ≡ spec.spelt_text bytes.now text.old }
{
    if text.len() / 2 < bytes.len() {
        return None;
    }
    write_digits(bytes, text);
    Some(2 * bytes.len())
}
