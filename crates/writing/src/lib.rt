// Writes frames. Document 01, "The frame".
#![tactic(auto)]

ghost use Rattle.std.specs.Prelude.{◌≡◌, Err};
ghost use Rattle.writing.specs.Writing.{number_of, write_answer, frame_of, room_after};

mod put;

use frame::layout::PAYLOAD;
use put::Head;

// Why no frame is written; specs/Writing.antt gives document 01's number and place for each answer. It is not making's, since a page and a seed have
// no stray bit to refuse.
#[derive(Clone, Copy)]
pub enum Refusal {
    Shape,
    Length,
    Room,
}

// Document 01's number.
impl From<Refusal> for u8 {
    ghost from_gives = { λ refusal number. number ≡ number_of (Err refusal) };

    #[tactic(auto, unfolding(crate::specs::Writing::number_of))]
    fn from(refusal: Refusal) -> u8 {
        match refusal {
            Refusal::Shape => 1,
            Refusal::Room => 3,
            Refusal::Length => 8,
        }
    }
}

// Writes the frame of a page and a seed, at the start of room. It takes what document 01 lists, one by one, and is itself the test of n and l.
#[tactic(auto, using(draw::proofs::Inside::is_drawn, rows::proofs::Shape::shape_range), unfolding(crate::specs::Writing::write_answer, crate::specs::Writing::room_after))]
pub fn write(
    page_number: u32,
    n: u8,
    l: u8,
    seed: u32,
    page: &[u8],
    room: &mut [u8],
) -> Result<(), Refusal>
    ensures answer { result ≡ write_answer n l page.now room.old }
    ensures room { room.new ≡ room_after result (frame_of page_number n l seed page.now) room.old }
{
    if !rows::shaped(n, l) {
        return Err(Refusal::Shape);
    }
    if page.len() != n as usize * l as usize {
        return Err(Refusal::Length);
    }
    let end = PAYLOAD + l as usize;
    if room.len() < end {
        return Err(Refusal::Room);
    }
    // A shape in range always draws one.
    let constraint = draw::draw(n, seed).unwrap();
    let head = Head {
        page_number,
        n,
        l,
        seed,
    };
    put::put_frame(&mut room[..end], head, page, constraint);
    Ok(())
}
