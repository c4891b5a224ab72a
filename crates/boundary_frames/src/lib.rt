// What a phone app calls with a frame: two functions over the C boundary, for any bytes at all. The result is document 01's answer number, the other
// numbers come back through references, and a refusal gives those that have no meaning as 0.
#![tactic(auto)]

ghost use Rattle.std.specs.Prelude.{◌≡◌, ◌*◌};
ghost use Rattle.rows.specs.Rows.{list_row_bytes};
ghost use Rattle.frame.specs.Reading.{reading};
ghost use Rattle.frame.specs.Numbers.{frame_numbers};
ghost use Rattle.laying.specs.Laying as laying;
ghost use Rattle.telling.specs.Told.{told, told_by};
ghost use Rattle.boundary_frames.specs.Framed.{framed};

use places::Arrival;

// Reads a frame: where its payload starts, and what the frame says. The numbers come back one by one, as the C interface has them.
#[unsafe(no_mangle)]
pub extern "C" fn mekorvat_read_frame(
    frame: &[u8],
    place: &mut usize,
    page: &mut u32,
    n: &mut u8,
    l: &mut u8,
    seed: &mut u32,
    offset: &mut usize,
) -> u8
    ensures { framed result place.new page.new n.new l.new seed.new offset.new
        ≡ frame_numbers (reading frame.now) }
{
    let numbers = telling::numbers_of(frame::read(frame));
    *place = numbers.place;
    *page = numbers.page;
    *n = numbers.n;
    *l = numbers.l;
    *seed = numbers.seed;
    *offset = numbers.offset;
    numbers.number
}

// Lays the row of a frame of the expected page into the list, at the arrival number. What it takes is the C interface's.
#[unsafe(no_mangle)]
pub extern "C" fn mekorvat_lay(
    frame: &[u8],
    page: u32,
    n: u8,
    l: u8,
    arrival: usize,
    list: &mut [u8],
    place: &mut usize,
) -> u8
    ensures told { told result place.new ≡ told_by (laying.laid frame.now page n l arrival list.old) }
    ensures list { list.new ≡ laying.list_after (laying.laid frame.now page n l arrival list.old) (list_row_bytes l * arrival) (laying.frame_entry frame.now) list.old }
{
    let told = telling::told_by(laying::lay(frame, page, n, l, Arrival(arrival), list));
    *place = told.place;
    told.number
}
