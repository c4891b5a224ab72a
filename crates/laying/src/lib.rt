// Lays the rows of frames into a list. Document 01, "The frame": "Laying a frame into a list".
#![tactic(auto)]

ghost use Rattle.std.specs.Prelude.{◌≡◌, ◌+◌, ◌*◌, true, ◌++◌, length};
ghost use Rattle.octets.specs.Octets.{bytes};
ghost use Rattle.rows.specs.Rows.{shape, seed_bytes, entry_head_bytes, list_row_bytes};
ghost use Rattle.draw.specs.Draw.{constraint};
ghost use Rattle.frame.specs.Numbers.{payload_of};
ghost use Rattle.laying.specs.Laying.{placing, laid, frame_entry, list_after};

use frame::Frame;
use places::Arrival;

// Why no row is laid; specs/Laying.antt gives document 01's number and place for each answer.
#[derive(Clone, Copy)]
pub enum Refusal {
    Shape,
    Frame(Frame),
    OtherPage,
    Full,
    Room,
}

// "2, arrival number over 511".
const LAST_ARRIVAL: usize = 511;

// "the 4-byte seed in front", then "the constraint as a big-endian 64-bit number, .. then the payload."
#[tactic(auto, unfolding(making::specs::Making::entry_head))]
fn put_entry(entry: &mut [u8], seed: u32, constraint: u64, payload: &[u8])
    requires { length entry.old ≡ entry_head_bytes + length payload.now }
    ensures { entry.new ≡ bytes seed_bytes seed ++ (bytes 8 constraint ++ payload.now) }
{
    making::put_head(entry, seed, constraint);
    octets::copy(&mut entry[rows::HEAD..], payload);
}

// The row of a good frame of l payload bytes, with its seed, into its place.
#[tactic(auto, using(draw::proofs::Inside::is_drawn, rows::proofs::Shape::shape_range), unfolding(crate::specs::Laying::placing, crate::specs::Laying::list_after))]
fn lay_row(
    frame: &[u8],
    n: u8,
    l: u8,
    seed: u32,
    arrival: Arrival,
    list: &mut [u8],
) -> Result<(), Refusal>
    requires in_shape { shape n l ≡ true }
    requires payload_long { length (payload_of frame.now) ≡ l }
    ensures answer { result ≡ placing l arrival.0 list.old }
    ensures list { list.new ≡ list_after result (list_row_bytes l * arrival.0) (bytes seed_bytes seed ++ (bytes 8 (constraint n seed) ++ payload_of frame.now)) list.old }
{
    let at = arrival.0;
    if LAST_ARRIVAL < at {
        return Err(Refusal::Full);
    }
    let size = rows::stride(l);
    let start = size * at;
    let end = start + size;
    if list.len() < end {
        return Err(Refusal::Room);
    }
    // A shape in range always draws one.
    let constraint = draw::draw(n, seed).unwrap();
    put_entry(
        &mut list[start..end],
        seed,
        constraint,
        frame::payload(frame),
    );
    Ok(())
}

// Lays the row of a frame of the expected page into the list, at the arrival number. It takes what document 01 lists, one by one, and is itself the
// test of n and l.
#[tactic(auto, using(frame::proofs::Good::refused_is), unfolding(crate::specs::Laying::laid, crate::specs::Laying::same_page, crate::specs::Laying::list_after, frame::specs::Numbers::frame_numbers))]
pub fn lay(
    frame: &[u8],
    page_number: u32,
    n: u8,
    l: u8,
    arrival: Arrival,
    list: &mut [u8],
) -> Result<(), Refusal>
    ensures answer { result ≡ laid frame.now page_number n l arrival.0 list.old }
    ensures list { list.new ≡ list_after result (list_row_bytes l * arrival.0) (frame_entry frame.now) list.old }
{
    if !rows::shaped(n, l) {
        return Err(Refusal::Shape);
    }
    let found = frame::read(frame);
    let Frame::Good {
        page,
        n: its_n,
        l: its_l,
        seed,
    } = found
    else {
        return Err(Refusal::Frame(found));
    };
    if page != page_number || its_n != n || its_l != l {
        return Err(Refusal::OtherPage);
    }
    lay_row(frame, n, l, seed, arrival, list)
}
