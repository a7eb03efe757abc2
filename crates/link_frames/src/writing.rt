//! A frame as it is written, with its sum.
ghost use Rattle.std.specs.Prelude.{◌≡◌, ◌≤◌, ◌++◌, ◌∷◌, [], length};
ghost use Rattle.link_model.specs.declared.lengths.TheConstants.{FRAME_MOST};
ghost use Rattle.link_model.specs.Frames.{Right};
ghost use Rattle.link_model.specs.Hearing.{heard_in, kept_after};
ghost use Rattle.link_model.specs.Writing.{other, written_to, with_sum, written_long};

use crate::frame::Frame;
use crate::hearing::{KEPT, addresses, sum_of};
use arrayvec::ArrayVec;
use link_model::End;
use link_model::services::{
    LOADER_ADDRESS, LONG_FORM, SHORT_FORM, START_COMMUNICATION, UNIT_ADDRESS,
};

/// The most bytes of a frame as it is written: behind those of `KEPT` stands the sum.
pub const WRITTEN: usize = KEPT + 1;

/// Writes a frame from this side to the other, with its sum. The start of communication goes to the unit in the short
/// form.
pub fn write_frame(from: End, frame: &Frame) -> ArrayVec<u8, WRITTEN>
    ensures bytes { result.items ≡ written_to (other from) frame.now }
    // The other side hears this frame of it, and nothing else.
    ensures heard { heard_in (other from) [] result.items ≡ Right frame.now ∷ [] }
    ensures whole { kept_after (other from) [] result.items ≡ [] }
{
    written(from, frame.bytes())
}

/// The bytes of a frame with this data.
fn written(from: End, body: &[u8]) -> ArrayVec<u8, WRITTEN>
    requires { length body.now ≤ FRAME_MOST }
    ensures { result.items ≡ written_to (other from) body.now }
{
    match from {
        End::Loader if body.len() == 1 && body[0] == START_COMMUNICATION => with_sum(
            &[
                SHORT_FORM,
                UNIT_ADDRESS,
                LOADER_ADDRESS,
                START_COMMUNICATION,
            ],
            &[],
        ),
        End::Loader => long(End::Unit, body),
        End::Unit => long(End::Loader, body),
    }
}

/// A frame in the form with a length, to this side.
fn long(to: End, body: &[u8]) -> ArrayVec<u8, WRITTEN>
    requires { length body.now ≤ FRAME_MOST }
    ensures { result.items ≡ written_long to body.now }
{
    let [second, third] = addresses(to);
    with_sum(&[LONG_FORM, second, third, body.len() as u8], body)
}

/// A header with data behind it, and their sum.
fn with_sum(header: &[u8; 4], body: &[u8]) -> ArrayVec<u8, WRITTEN>
    requires { length body.now ≤ FRAME_MOST }
    ensures { result.items ≡ with_sum (header.now ++ body.now) }
{
    let mut bytes = ArrayVec::new();
    let _ = bytes.try_extend_from_slice(header);
    let _ = bytes.try_extend_from_slice(body);
    let sum = sum_of(bytes.as_slice());
    bytes.push(sum);
    bytes
}
