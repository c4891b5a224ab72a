// Making a row from a page: its head, and the whole of it.
#![tactic(auto)]

ghost use Rattle.std.specs.Prelude.{◌≡◌, Err, length};
ghost use Rattle.making.specs.Making.{number_of, make_answer, make_room, headed};

// Why no row is made; specs/Making.antt gives document 01's number and place for each answer.
#[derive(Clone, Copy)]
pub enum Refusal {
    Shape,
    Stray,
    Room,
    Length,
}

// Document 01's number.
impl From<Refusal> for u8 {
    ghost from_gives = { λ refusal number. number ≡ number_of (Err refusal) };

    #[tactic(auto, unfolding(crate::specs::Making::number_of))]
    fn from(refusal: Refusal) -> u8 {
        match refusal {
            Refusal::Shape => 1,
            Refusal::Room => 3,
            Refusal::Stray => 4,
            Refusal::Length => 8,
        }
    }
}

// The answer of making, by the lengths of the page and the room.
#[tactic(auto, unfolding(crate::specs::Making::make_answer))]
fn answer(n: u8, l: u8, constraint: u64, page: usize, room: usize) -> Result<(), Refusal>
    ensures { result ≡ make_answer n l constraint page room }
{
    if !rows::shaped(n, l) {
        return Err(Refusal::Shape);
    }
    if page != (n as usize) * (l as usize) {
        return Err(Refusal::Length);
    }
    if rows::strays(n, constraint) {
        return Err(Refusal::Stray);
    }
    if room < rows::stride(l) {
        return Err(Refusal::Room);
    }
    Ok(())
}

// Writes seed and constraint over the first bytes of room; nothing where there are too few.
#[tactic(auto, using(crate::proofs::Making::headed_none, crate::proofs::Making::headed_written))]
pub fn put_head(room: &mut [u8], seed: u32, constraint: u64)
    ensures { room.new ≡ headed seed constraint room.old }
{
    if room.len() < rows::HEAD {
        return;
    }
    numerals::put(&mut room[..rows::SEED], seed as u64);
    numerals::put(&mut room[rows::SEED..rows::HEAD], constraint);
}

// Makes the row that page gives for constraint, with its seed in front, at the start of room. It takes what document 01 lists, one by one, and is
// itself the test of n and l.
#[tactic(auto, using(crate::proofs::Making::row_makes, crate::proofs::Making::room_refused))]
pub fn make(
    n: u8,
    l: u8,
    seed: u32,
    constraint: u64,
    page: &[u8],
    room: &mut [u8],
) -> Result<(), Refusal>
    ensures answer { result ≡ make_answer n l constraint (length page.now) (length room.old) }
    ensures room { room.new ≡ make_room n l seed constraint page.now room.old }
{
    answer(n, l, constraint, page.len(), room.len())?;
    let end = rows::stride(l);
    put_head(room, seed, constraint);
    sums::sum(&mut room[rows::HEAD..end], page, constraint);
    Ok(())
}
