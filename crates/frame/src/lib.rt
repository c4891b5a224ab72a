// Reads frames: the bytes that one phone shows and another takes. Document 01, "The frame".
#![tactic(auto)]

ghost use Rattle.std.specs.Prelude.{◌≡◌, ◌+◌};
ghost use Rattle.frame.specs.Reading.{refusing, reading};
ghost use Rattle.frame.specs.Numbers.{offset_of, payload_of};

pub mod layout;
mod parse;

use field::Refusal;
use layout::PAYLOAD;

// The answer of reading; specs/Numbers.antt gives document 01's number, place and values for each case. It is one enum, and no Result, since
// document 01 has program and laying take it apart with let else, and pass a refusal on as it is.
#[derive(Clone, Copy)]
pub enum Frame {
    Good { page: u32, n: u8, l: u8, seed: u32 },
    Short(usize),
    WrongTag(usize),
    WrongLength(usize),
    OutOfRange,
    Trailing(usize),
}

// A field that is not whole refuses the frame.
impl From<Refusal> for Frame {
    ghost from_gives = { λ refusal frame. frame ≡ refusing refusal };

    #[tactic(auto, unfolding(crate::specs::Reading::refusing))]
    fn from(refusal: Refusal) -> Frame {
        match refusal {
            Refusal::Short(place) => Frame::Short(place),
            Refusal::WrongTag(place) => Frame::WrongTag(place),
            Refusal::WrongLength(place) => Frame::WrongLength(place),
        }
    }
}

// What a reading gives as numbers; the payload is the part of l bytes at the offset.
#[derive(Clone, Copy)]
pub struct Numbers {
    pub number: u8,
    pub place: usize,
    pub page: u32,
    pub n: u8,
    pub l: u8,
    pub seed: u32,
    pub offset: usize,
}

// Reads a frame, left to right.
pub fn read(frame: &[u8]) -> Frame
    ensures { result ≡ reading frame.now }
{
    match parse::fields(frame) {
        Ok(found) => found,
        Err(refusal) => refusal.into(),
    }
}

// The payload, as that part of the frame itself; of a refused frame the empty part at its start.
#[tactic(auto, using(crate::proofs::Good::refused_is, crate::proofs::Good::good_long), unfolding(crate::specs::Numbers::payload_of, crate::specs::Numbers::frame_numbers))]
pub fn payload(frame: &[u8]) -> &[u8]
    ensures shows { result.now ≡ payload_of frame.now }
    ensures points { result.ref_ptr ≡ (frame.entry.ref_ptr.0, offset_of (reading frame.now) + frame.entry.ref_ptr.1) }
{
    let Frame::Good { l, .. } = read(frame) else {
        return &frame[..0];
    };
    let end = PAYLOAD + l as usize;
    &frame[PAYLOAD..end]
}
