//! Messages in pieces (Annex IB, Appendix 7; the counter of two bytes: profile): where a piece stands in what follows
//! the message's number, and pieces that are joined.
ghost use Rattle.std.specs.Prelude.{◌≡◌, ◌≢◌, ◌≤◌, ◌<◌, ◌+◌, ◌-◌, ◌⊎◌, ◌↔◌, ℕ, List, [], nat_lt, length, false, IfOk};
ghost use Rattle.std.specs.Prelude.{OnOk, OnErr, IfErr, IfSome, IfNone, IsErrOf};
ghost use Rattle.card_layout.specs.Images.{bytes_at};
ghost use Rattle.link_model.specs.declared.lengths.TheConstants.{FRAME_MOST};
ghost use Rattle.link_model.specs.Answers.{cut, has_piece};
ghost use Rattle.unit_messages.specs.declared.joining.TheConstants.{LONGEST};
ghost use Rattle.unit_messages.specs.Joining.{piece_range, wanted, counter_in, with_piece, IsFaultOf};

use crate::parts::{HEADER, two_in};
use link_frames::Frame;
use link_model::lengths::{FRAME_MOST, PIECE_MOST};
use std::alloc::Global;
use std::marker::Model;
use tach_media::Memory;
use unit_model::layout::{DAY_WORDS, INSERTIONS, PLACES};

/// How many bytes stand in a piece before those of the message: 76, the number, and the counter of two bytes.
const FRONT: usize = 4;

/// The length in bytes of the longest message of a unit: that of a day with all insertions, words and places that the
/// unit has room for. Beside them it has 144 bytes, and a ring's pointer of four bytes is none of them.
pub const LONGEST: u32 = 136 + INSERTIONS.size + DAY_WORDS.size + PLACES.size;

/// Where the piece of a counter, from 1 on, stands in so many bytes behind a message's number, as a place from 0, and
/// how many it has, 0 to 251; `None` exactly where they have no such piece.
pub fn split_at(len: u32, counter: u16) -> Option<(u32, u32)>
    ensures range { result ≡ piece_range len counter }
    ensures cut { (content : List ℕ) → length content ≡ len
        → IfSome result (λ part. bytes_at content part.0 part.1 ≡ cut content counter) }
    ensures some { (content : List ℕ) → length content ≡ len
        → IfSome result (λ part. part.1 ≡ length (cut content counter)) }
    ensures none { (content : List ℕ) → length content ≡ len
        → IfNone result ((counter ≡ 0) ⊎ (has_piece content counter ≡ false)) }
{
    if counter == 0 {
        return None;
    }
    let place = PIECE_MOST * (counter as u32 - 1);
    if place > len {
        return None;
    }
    Some((place, (len - place).min(PIECE_MOST)))
}

/// Why a piece was not joined.
#[derive(Clone, Copy, Debug, PartialEq, Eq)]
pub enum JoinFault {
    /// Its counter is not the wanted one: the wanted one, and the one that came.
    Broken(u16, u16),
    /// There is no memory for the piece.
    Memory,
}

/// Joins the pieces of a message, each behind the one before it.
#[derive(Drop)]
pub struct Joiner {
    pieces: u16,
    bytes: Vec<u8>,
}

impl Model for Joiner {
    ghost use Rattle.std.specs.Prelude.{vec_capacity};
    ghost use Rattle.unit_messages.specs.declared.joining.TheConstants.{LONGEST};
    ghost use Rattle.unit_messages.specs.Joining.{Joined};

    ghost Value = { Joined };

    ghost view = { λ j. record { pieces = j.pieces; bytes = j.bytes.items; room = vec_capacity j.bytes } };
}

impl Joiner {
    /// It has no bytes, takes no memory, and wants the counter 1.
    pub fn new(alloc: Global) -> Joiner
        ensures pieces { result.pieces ≡ 0 }
        ensures bytes { result.bytes ≡ [] }
    {
        Joiner {
            pieces: 0,
            bytes: Vec::new(alloc),
        }
    }

    /// Joins a piece; `true` exactly where it is the last, which does not fill its frame: it has fewer than 255 bytes.
    ///
    /// # Errors
    ///
    /// `Broken` exactly where its counter is not the wanted one, and `Memory`; the joiner is as it was.
    pub fn take(&mut self, frame: &Frame) -> Result<bool, JoinFault>
        requires { 4 ≤ length frame.now }
        ensures last { IfOk result (λ last. last ≡ nat_lt (length frame.now) FRAME_MOST) }
        ensures pieces { OnOk result (self.new.pieces ≡ wanted self.old) }
        ensures bytes { OnOk result (self.new.bytes ≡ with_piece self.old frame.now) }
        ensures same { OnErr result (self.new ≡ self.old) }
        ensures broken { (IsErrOf result (JoinFault.Broken (wanted self.old) (counter_in frame.now)))
            ↔ (counter_in frame.now ≢ wanted self.old) }
        ensures fault { IfErr result (IsFaultOf (wanted self.old) (counter_in frame.now)) }
        ensures room { self.old.room ≤ self.new.room }
        ensures enough { IsErrOf result JoinFault.Memory → self.old.room < length (with_piece self.old frame.now) }
    {
        let piece = frame.bytes();
        let counter = two_in(piece, 2);
        let wanted = self.pieces.wrapping_add(1);
        if counter != wanted {
            return Err(JoinFault::Broken(wanted, counter));
        }
        let first = if self.bytes.is_empty() { HEADER } else { 0 };
        let more = &piece[FRONT..];
        if self.bytes.reserve(first + more.len()).is_err() {
            return Err(JoinFault::Memory);
        }
        let _ = self.bytes.extend_from_slice(&piece[..first]);
        let _ = self.bytes.extend_from_slice(more);
        self.pieces = wanted;
        Ok(piece.len() < FRAME_MOST as usize)
    }

    /// The message so far, with 76 and its number in front.
    pub fn bytes(&self) -> &[u8]
        ensures { result.now ≡ self.now.bytes }
    {
        self.bytes.as_slice()
    }

    /// It has no bytes and wants the counter 1, with the room that it has.
    pub fn clear(&mut self)
        ensures { self.new ≡ record { pieces = 0; bytes = []; room = self.old.room } }
    {
        self.bytes.clear();
        self.pieces = 0;
    }

    /// Makes room for the longest message of a unit; it has the bytes that it had.
    ///
    /// # Errors
    ///
    /// `Memory`; the joiner is as it was.
    pub fn reserve(&mut self) -> Result<(), Memory>
        ensures pieces { self.new.pieces ≡ self.old.pieces }
        ensures bytes { self.new.bytes ≡ self.old.bytes }
        ensures room { OnOk result (LONGEST ≤ self.new.room) }
        ensures never_less { self.old.room ≤ self.new.room }
        ensures same { OnErr result (self.new ≡ self.old) }
    {
        let longest = LONGEST as usize;
        let more = longest - self.bytes.len().min(longest);
        self.bytes.reserve(more)?;
        Ok(())
    }
}
