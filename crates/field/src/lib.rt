// One field of a frame, tag, length and value: whether it is whole where it is expected, and where the bad byte is if it is not. Document 01, "The frame".
#![tactic(auto)]

ghost use Rattle.std.specs.Prelude.{◌≡◌, ◌≤◌, length};
ghost use Rattle.field.specs.Expected.{field_of, refused_at, expected};

// In a field: its length stands behind its tag, and its value behind both.
pub const LENGTH: usize = 1;

pub const MARK: usize = 3;

// Why the bytes that remain are no whole field, as specs/Expected.antt gives it to the crates above.
#[derive(Clone, Copy)]
pub enum Fault {
    Short,
    WrongTag,
    WrongLength,
}

// Why a frame is refused inside a field, and the place of that.
#[derive(Clone, Copy)]
pub enum Refusal {
    Short(usize),
    WrongTag(usize),
    WrongLength(usize),
}

// What remains of the frame is looked at from its first byte on.
#[tactic(auto, unfolding(crate::specs::Expected::field_of))]
fn look(rest: &[u8], tag: u8, size: u8) -> Result<(), Fault>
    ensures { result ≡ field_of rest.now tag size }
{
    if rest.len() < MARK {
        return Err(Fault::Short);
    }
    if rest[0] != tag {
        return Err(Fault::WrongTag);
    }
    if numerals::get(&rest[LENGTH..MARK]) != size as u64 {
        return Err(Fault::WrongLength);
    }
    if rest.len() - MARK < size as usize {
        return Err(Fault::Short);
    }
    Ok(())
}

// Where a frame is refused inside a field: the places of 11, 12 and 13.
#[tactic(auto, unfolding(crate::specs::Expected::refused_at))]
fn at_place(frame: &[u8], at: usize, fault: Fault) -> Refusal
    requires { at ≤ length frame.now }
    ensures { result ≡ refused_at frame.now at fault }
{
    match fault {
        Fault::Short => Refusal::Short(frame.len()),
        Fault::WrongTag => Refusal::WrongTag(at),
        Fault::WrongLength => Refusal::WrongLength(at + LENGTH),
    }
}

// Behind the end of the frame nothing remains.
#[tactic(auto, unfolding(crate::specs::Expected::expected, crate::specs::Expected::placed, crate::specs::Expected::refused_at, crate::specs::Expected::field_of))]
pub fn expect(frame: &[u8], at: usize, tag: u8, size: u8) -> Result<(), Refusal>
    ensures { result ≡ expected frame.now at tag size }
{
    if frame.len() < at {
        return Err(Refusal::Short(frame.len()));
    }
    look(&frame[at..], tag, size).map_err(|fault| at_place(frame, at, fault))
}
