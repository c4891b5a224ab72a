// The fields of a frame, one behind the other.
ghost use Rattle.std.specs.Prelude.{◌≡◌, ◌≤◌, length};
ghost use Rattle.octets.specs.Octets.{number};
ghost use Rattle.frame.specs.Layout.{frame_length};
ghost use Rattle.frame.specs.Reading.{answered, ended, good, reading};

use crate::Frame;
use crate::layout::{PAGE, PAGE_AT, PAYLOAD, PAYLOAD_AT, SEED, SEED_AT, SHAPE, SHAPE_AT};
use field::{Refusal, expect};

// The number that four bytes hold.
#[tactic(auto, using(crate::proofs::Parts::four_bytes))]
fn number_of(bytes: &[u8]) -> u32
    requires { length bytes.now ≡ 4 }
    ensures { result ≡ number bytes.now }
{
    numerals::get(bytes) as u32
}

// Behind the last field.
#[tactic(auto, unfolding(crate::specs::Reading::ended, crate::specs::Reading::good, crate::specs::Layout::value))]
fn values(frame: &[u8], n: u8, l: u8) -> Frame
    requires { frame_length l ≤ length frame.now }
    ensures { result ≡ ended frame.now l (good frame.now n l) }
{
    let end = PAYLOAD + l as usize;
    if end < frame.len() {
        return Frame::Trailing(end);
    }
    let page = number_of(&frame[PAGE..SHAPE_AT]);
    let seed = number_of(&frame[SEED..PAYLOAD_AT]);
    Frame::Good { page, n, l, seed }
}

// Left to right: the first field that is not whole, or the answer behind them all.
#[tactic(auto, using(crate::proofs::Whole::expected_ends), unfolding(crate::specs::Reading::reading, crate::specs::Reading::first, crate::specs::Reading::from_shape, crate::specs::Reading::second, crate::specs::Reading::third, crate::specs::Reading::fourth, crate::specs::Reading::behind, crate::specs::Reading::n_of, crate::specs::Reading::l_of, crate::specs::Layout::value))]
pub(crate) fn fields(frame: &[u8]) -> Result<Frame, Refusal>
    ensures { answered result ≡ reading frame.now }
{
    expect(frame, PAGE_AT, 1, 4)?;
    expect(frame, SHAPE_AT, 2, 2)?;
    let shape = &frame[SHAPE..SEED_AT];
    let n = shape[0];
    let l = shape[1];
    if !rows::shaped(n, l) {
        return Ok(Frame::OutOfRange);
    }
    expect(frame, SEED_AT, 3, 4)?;
    expect(frame, PAYLOAD_AT, 4, l)?;
    Ok(values(frame, n, l))
}
