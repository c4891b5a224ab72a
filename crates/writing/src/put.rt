// The parts of a frame, each written over the whole of what is lent for it.
ghost use Rattle.std.specs.Prelude.{◌≡◌, ◌+◌, ◌*◌, ◌≤◌, length};
ghost use Rattle.octets.specs.Octets.{bytes};
ghost use Rattle.frame.specs.Layout.{payload_at, frame_length, mark, field_bytes, head_bytes, frame_bytes};
ghost use Rattle.writing.specs.Writing.{sum_bytes};

use frame::layout::{MARK, PAYLOAD, PAYLOAD_AT, SEED_AT, SHAPE_AT};

// What a frame says in front of its payload.
#[derive(Clone, Copy)]
pub(crate) struct Head {
    pub(crate) page_number: u32,
    pub(crate) n: u8,
    pub(crate) l: u8,
    pub(crate) seed: u32,
}

// Tag and length of a field.
fn put_mark(into: &mut [u8], tag: u8, size: usize)
    requires { length into.old ≡ 3 }
    ensures { into.new ≡ mark tag size }
{
    into[0] = tag;
    numerals::put(&mut into[1..], size as u64);
}

// A field whose value is a number.
fn put_field(into: &mut [u8], tag: u8, size: usize, value: u64)
    requires { length into.old ≡ 3 + size }
    ensures { into.new ≡ field_bytes tag (bytes size value) }
{
    put_mark(&mut into[..MARK], tag, size);
    numerals::put(&mut into[MARK..], value);
}

// The fields in front of the payload's.
fn put_head(into: &mut [u8], head: Head)
    requires { length into.old ≡ payload_at }
    ensures { into.new ≡ head_bytes head.page_number head.n head.l head.seed }
{
    put_field(&mut into[..SHAPE_AT], 1, 4, head.page_number as u64);
    put_field(
        &mut into[SHAPE_AT..SEED_AT],
        2,
        2,
        head.n as u64 * 256 + head.l as u64,
    );
    put_field(&mut into[SEED_AT..], 3, 4, head.seed as u64);
}

pub(crate) fn put_frame(into: &mut [u8], head: Head, page: &[u8], constraint: u64)
    requires into_long { length into.old ≡ frame_length head.l }
    requires l_low { 1 ≤ head.l }
    requires page_long { length page.now ≡ head.n * head.l }
    ensures { into.new ≡ frame_bytes head.page_number head.n head.l head.seed (sum_bytes head.n head.l page.now constraint) }
{
    put_head(&mut into[..PAYLOAD_AT], head);
    put_mark(&mut into[PAYLOAD_AT..PAYLOAD], 4, head.l as usize);
    sums::sum(&mut into[PAYLOAD..], page, constraint);
}
