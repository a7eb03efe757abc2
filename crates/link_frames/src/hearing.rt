//! What one byte does, as plain work on the bytes that were kept.
ghost use Rattle.std.specs.Prelude.{◌≡◌, ◌<◌, ◌≤◌, ◌+◌, ◌-◌, ◌%◌, ◌==◌, ◌++◌, ◌∷◌, [], IsTrue, IfSome, IfNone, true};
ghost use Rattle.std.specs.Prelude.{length, sum, map, take, option_map, option_to_list};
ghost use Rattle.link_model.specs.declared.lengths.TheConstants.{FRAME_MOST};
ghost use Rattle.link_frames.specs.declared.hearing.TheConstants.{KEPT};
ghost use Rattle.std.specs.Bool.{OnFalse, OnTrue};
ghost use Rattle.link_model.specs.Frames.{second, third};
ghost use Rattle.link_model.specs.Hearing.{starts, looks_right, size_of, is_kept, header_size, heard_at_last};
ghost use Rattle.link_model.specs.Hearing.{after_byte, heard_in, kept_after};
ghost use Rattle.link_frames.specs.Seen.{meant};

use crate::frame::{Frame, ROOM, Seen};
use arrayvec::ArrayVec;
use link_model::End;
use link_model::services::{LOADER_ADDRESS, LONG_FORM, SHORT_FORM, UNIT_ADDRESS};

/// The most bytes of a frame without its last: a header of four, and 255 bytes of data.
pub const KEPT: usize = 4 + ROOM;

/// The two bytes behind the first of a frame to this side.
pub fn addresses(end: End) -> [u8; 2]
    ensures { result ≡ second end ∷ third end ∷ [] }
{
    match end {
        End::Unit => [UNIT_ADDRESS, LOADER_ADDRESS],
        End::Loader => [LOADER_ADDRESS, UNIT_ADDRESS],
    }
}

/// Whether a frame may begin with this byte.
fn starts(end: End, byte: u8) -> bool
    ensures { result ≡ starts end byte }
{
    match end {
        End::Unit => byte == LONG_FORM || byte == SHORT_FORM,
        End::Loader => byte == LONG_FORM,
    }
}

/// Whether the byte goes on with the beginning of a frame.
fn goes_on(end: End, kept: &[u8], byte: u8) -> bool
    requires { looks_right end kept.now ≡ true }
    ensures { result ≡ looks_right end (kept.now ++ byte ∷ []) }
{
    match kept.len() {
        0 => starts(end, byte),
        1 => byte == addresses(end)[0],
        2 => byte == addresses(end)[1],
        3 => kept[0] == SHORT_FORM || byte != 0,
        _ => true,
    }
}

/// Whether the next byte is the frame's last.
fn is_last(kept: &[u8], byte: u8) -> bool
    requires { length kept.now < size_of kept.now }
    ensures value { result ≡ (length (kept.now ++ byte ∷ []) == size_of (kept.now ++ byte ∷ [])) }
    ensures long { OnTrue result (4 ≤ length kept.now) }
    ensures few { length kept.now ≤ KEPT }
    ensures room { OnFalse result (length kept.now < KEPT) }
{
    if kept.len() < 4 {
        return false;
    }
    let size = if kept[0] == SHORT_FORM {
        5
    } else {
        kept[3] as usize + 5
    };
    kept.len() + 1 == size
}

/// The sum of bytes, modulo 256.
pub fn sum_of(bytes: &[u8]) -> u8
    requires { length bytes.now ≤ KEPT }
    ensures { result ≡ sum bytes.now % 256 }
{
    let total: u32 = bytes.iter().map(|byte| *byte as u32).sum();
    (total % 256) as u8
}

/// What a frame says, of which these bytes stand before the last.
fn judged(kept: &[u8], last: u8) -> Seen
    requires some { header_size kept.now < length kept.now }
    requires few { length kept.now ≤ header_size kept.now + FRAME_MOST }
    ensures { meant result ≡ heard_at_last kept.now last }
{
    let header = if kept[0] == SHORT_FORM { 3 } else { 4 };
    let body = &kept[header..];
    if last == sum_of(kept) {
        Seen::Whole(Frame::new(body))
    } else {
        Seen::BadSum(body[0])
    }
}

/// Hears one byte more.
fn hear_byte(end: End, kept: &mut ArrayVec<u8, KEPT>, byte: u8) -> Option<Seen>
    requires { is_kept end kept.old.items ≡ true }
    ensures kept { kept.new.items ≡ (after_byte end kept.old.items byte).kept }
    ensures heard { option_map meant result ≡ (after_byte end kept.old.items byte).heard }
    ensures stays { is_kept end kept.new.items ≡ true }
{
    if !goes_on(end, kept.as_slice(), byte) {
        kept.clear();
        if starts(end, byte) {
            kept.push(byte);
        }
        return None;
    }
    if is_last(kept.as_slice(), byte) {
        let seen = judged(kept.as_slice(), byte);
        kept.clear();
        return Some(seen);
    }
    kept.push(byte);
    None
}

/// Hears bytes up to the end of the next frame, or all of them, and says how many were taken.
pub fn hear(end: End, kept: &mut ArrayVec<u8, KEPT>, bytes: &[u8]) -> (usize, Option<Seen>)
    requires { is_kept end kept.old.items ≡ true }
    ensures taken { result.0 ≤ length bytes.now }
    ensures all { IfNone result.1 (result.0 ≡ length bytes.now) }
    ensures heard { heard_in end kept.old.items (take result.0 bytes.now) ≡ option_to_list (option_map meant result.1) }
    ensures first { heard_in end kept.old.items (take (result.0 - 1) bytes.now) ≡ [] }
    ensures kept { kept.new.items ≡ kept_after end kept.old.items (take result.0 bytes.now) }
    ensures stays { is_kept end kept.new.items ≡ true }
{
    for i in 0..bytes.len() {
        if let Some(seen) = hear_byte(end, kept, bytes[i]) {
            return (i + 1, Some(seen));
        }
    }
    (bytes.len(), None)
}
