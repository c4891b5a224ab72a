// Making a row and writing a frame as functions of C, each by itself, so that the tests can read in compiled code how much stack it takes.
// No app links them, and what they take is the C interface's.
#![tactic(auto)]

ghost use Rattle.std.specs.Prelude.{◌≡◌, length};
ghost use Rattle.making.specs.Making as making;
ghost use Rattle.writing.specs.Writing as writing;

// Makes a row at the start of room.
#[tactic(auto, unfolding(making::specs::Making::number_of))]
#[unsafe(no_mangle)]
pub extern "C" fn stack_check_make(
    n: u8,
    l: u8,
    seed: u32,
    constraint: u64,
    page: &[u8],
    room: &mut [u8],
) -> u8
    ensures number { result ≡ making.number_of (making.make_answer n l constraint (length page.now) (length room.old)) }
    ensures room { room.new ≡ making.make_room n l seed constraint page.now room.old }
{
    making::make(n, l, seed, constraint, page, room)
        .err()
        .map_or(0, u8::from)
}

// Writes a frame at the start of room.
#[tactic(auto, unfolding(writing::specs::Writing::number_of))]
#[unsafe(no_mangle)]
pub extern "C" fn stack_check_write(
    page_number: u32,
    n: u8,
    l: u8,
    seed: u32,
    page: &[u8],
    room: &mut [u8],
) -> u8
    ensures number { result ≡ writing.number_of (writing.write_answer n l page.now room.old) }
    ensures room { room.new ≡ writing.room_after (writing.write_answer n l page.now room.old)
        (writing.frame_of page_number n l seed page.now) room.old }
{
    writing::write(page_number, n, l, seed, page, room)
        .err()
        .map_or(0, u8::from)
}
