//! The messages of a unit's image, whole or piece after piece, of a unit that is judged first (Annex IB, Appendix 7,
//! 2.2.6): for callers who have no session. A session judges its unit once, and reads by an outline.
ghost use Rattle.unit_model.specs.declared.layout.TheConstants.{IMAGE_SIZE};
ghost use Rattle.std.specs.Prelude.{◌≡◌, ◌≤◌, ◌<◌, ◌+◌, IfOk, IfErr, IfNone, OnOk, IfSome, Some, is_some, true};
ghost use Rattle.std.specs.Prelude.{option_map, ◌++◌, ◌-◌, min, length};
ghost use Rattle.tach_media.specs.Medium.{Reads};
ghost use Rattle.link_model.specs.declared.lengths.TheConstants.{WHOLE_MOST};
ghost use Rattle.unit_model.specs.Decoding.{Decodes, first_bad_place};
ghost use Rattle.unit_messages.specs.Faults.{IfBadPiece, piece_failed, IfBadMessage, message_failed};
ghost use Rattle.unit_minutes.specs.Reading.{ReadsIfAny};
ghost use Rattle.unit_messages.specs.Outlines.{Outlines, asked, bytes_sent};
ghost use Rattle.unit_messages.specs.Sent.{IsPiece};

use crate::outline::{Outline, find_outline};
use crate::window::ROOM;
use arrayvec::ArrayVec;
use link_model::Request;
use std::alloc::Global;
use tach_media::{Failed, Medium};
use unit_memory::UnitFault;
use unit_minutes::Journal;

/// Why no piece was read.
#[derive(Clone, Copy, Debug, PartialEq, Eq)]
pub enum PieceFault {
    /// The medium failed.
    Failed,
    /// The image does not decode: the place of the first field, in order of places, that fails.
    BadUnit(u32),
}

/// Why no message was read.
#[derive(Clone, Copy, Debug, PartialEq, Eq)]
pub enum MessageFault {
    /// The medium failed.
    Failed,
    /// There is no memory for the message.
    Memory,
    /// The image does not decode: the place of the first field, in order of places, that fails.
    BadUnit(u32),
}

impl From<Failed> for MessageFault {
    ghost use Rattle.std.specs.Prelude.{◌≡◌};
    ghost use Rattle.unit_messages.specs.declared.sending.MessageFault.{MessageFault};

    ghost from_gives = { λ _ fault. fault ≡ MessageFault.Failed };

    fn from(_failed: Failed) -> MessageFault {
        MessageFault::Failed
    }
}

impl From<UnitFault> for MessageFault {
    ghost use Rattle.std.specs.Prelude.{◌≡◌};
    ghost use Rattle.unit_messages.specs.Faults.{message_of_unit};

    ghost from_gives = { λ unit fault. fault ≡ message_of_unit unit };

    fn from(fault: UnitFault) -> MessageFault {
        match fault {
            UnitFault::Failed => MessageFault::Failed,
            UnitFault::BadUnit(place) => MessageFault::BadUnit(place),
        }
    }
}

impl From<Failed> for PieceFault {
    ghost use Rattle.std.specs.Prelude.{◌≡◌};
    ghost use Rattle.unit_messages.specs.declared.sending.PieceFault.{PieceFault};

    ghost from_gives = { λ _ fault. fault ≡ PieceFault.Failed };

    fn from(_failed: Failed) -> PieceFault {
        PieceFault::Failed
    }
}

impl From<UnitFault> for PieceFault {
    ghost use Rattle.std.specs.Prelude.{◌≡◌};
    ghost use Rattle.unit_messages.specs.Faults.{of_unit};

    ghost from_gives = { λ unit fault. fault ≡ of_unit unit };

    fn from(fault: UnitFault) -> PieceFault {
        match fault {
            UnitFault::Failed => PieceFault::Failed,
            UnitFault::BadUnit(place) => PieceFault::BadUnit(place),
        }
    }
}

/// Reads at most 252 bytes of the message that answers a request, from a place on, and tells the message's length in
/// bytes; at its end and behind it there are none. `None` exactly where there is no such message: for a day that is not
/// recorded. Then `out` is as it was. The unit is judged first; nothing is written to it. Of a unit that tells nothing
/// there are as many bytes as the length that is told says.
///
/// # Errors
///
/// `Failed` where the medium failed, and `BadUnit` with the place of the first field, in order of places, that fails.
pub fn piece<M: Medium>(
    unit: &mut M,
    request: &Request,
    from: u32,
    out: &mut ArrayVec<u8, ROOM>,
) -> Result<Option<u32>, PieceFault>
    requires { (M.state unit.old).size ≡ IMAGE_SIZE }
    ensures piece { IfOk result (λ found. IfSome (M.state unit.old).image (λ x. IsPiece x request.now from found
        out.new.items)) }
    ensures fits { IfOk result (λ found. IfSome found (λ len. length out.new.items ≡ min WHOLE_MOST (len - from))) }
    ensures none { IfOk result (λ found. IfNone found (out.new ≡ out.old)) }
    ensures decodes { OnOk result (IfSome (M.state unit.old).image Decodes) }
    ensures bad { IfErr result (λ fault. IfBadPiece fault (λ p. IfSome (M.state unit.old).image
        (λ x. first_bad_place x ≡ Some p))) }
    ensures reads { Reads (M.state unit.old) (M.state unit.new) (piece_failed result) }
{
    let journal = Journal::load(unit)?;
    let found = find_outline(&journal, unit, request)?;
    match found {
        None => Ok(None),
        Some(outline) => piece_of(&outline, unit, from, out),
    }
}

/// A piece of a message, and the message's length.
fn piece_of<M: Medium>(
    outline: &Outline,
    unit: &mut M,
    from: u32,
    out: &mut ArrayVec<u8, ROOM>,
) -> Result<Option<u32>, PieceFault>
    requires unit { (M.state unit.old).size ≡ IMAGE_SIZE }
    requires outlines { IfSome (M.state unit.old).image (Outlines outline.now) }
    ensures piece { IfOk result (λ found. IfSome (M.state unit.old).image (λ x. IsPiece x (asked outline.now) from found
        out.new.items)) }
    ensures fits { IfOk result (λ found. IfSome found (λ len. length out.new.items ≡ min WHOLE_MOST (len - from))) }
    ensures some { IfOk result (λ found. is_some found ≡ true) }
    ensures failed { IfErr result (λ fault. fault ≡ PieceFault.Failed) }
    ensures reads { ReadsIfAny (M.state unit.old) (M.state unit.new) (piece_failed result) }
{
    let len = outline.len();
    outline.read(unit, from, out)?;
    Ok(Some(len))
}

/// Reads the message that answers a request. `None` exactly where there is no such message: for a day that is not
/// recorded. The unit is judged first; nothing is written to it.
///
/// # Errors
///
/// `Failed` where the medium failed, `BadUnit` with the place of the first field, in order of places, that fails, and
/// `Memory` where there is no memory for the message.
pub fn message<M: Medium>(
    alloc: Global,
    unit: &mut M,
    request: &Request,
) -> Result<Option<Vec<u8>>, MessageFault>
    requires { (M.state unit.old).size ≡ IMAGE_SIZE }
    ensures message { IfOk result (λ found.
        IfSome (M.state unit.old).image (λ x. option_map (λ v. v.items) found ≡ bytes_sent x request.now)) }
    ensures decodes { OnOk result (IfSome (M.state unit.old).image Decodes) }
    ensures bad { IfErr result (λ fault. IfBadMessage fault (λ p. IfSome (M.state unit.old).image
        (λ x. first_bad_place x ≡ Some p))) }
    ensures reads { Reads (M.state unit.old) (M.state unit.new) (message_failed result) }
{
    let journal = Journal::load(unit)?;
    let found = find_outline(&journal, unit, request)?;
    match found {
        None => Ok(None),
        Some(outline) => whole(alloc, &outline, unit),
    }
}

/// The whole message of an outline.
fn whole<M: Medium>(
    alloc: Global,
    outline: &Outline,
    unit: &mut M,
) -> Result<Option<Vec<u8>>, MessageFault>
    requires unit { (M.state unit.old).size ≡ IMAGE_SIZE }
    requires outlines { IfSome (M.state unit.old).image (Outlines outline.now) }
    ensures message { IfOk result (λ found.
        IfSome (M.state unit.old).image (λ x. option_map (λ v. v.items) found ≡ bytes_sent x (asked outline.now))) }
    ensures failed { IfErr result (λ fault. IfBadMessage fault (λ p. ⊥)) }
    ensures reads { ReadsIfAny (M.state unit.old) (M.state unit.new) (message_failed result) }
{
    let mut bytes = Vec::new(alloc);
    let mut piece = ArrayVec::new();
    let len = outline.len();
    let turns = len / ROOM as u32 + 1;
    for turn in 0..turns {
        let from = turn * ROOM as u32;
        outline.read(unit, from, &mut piece)?;
        append(&mut bytes, piece.as_slice())?;
    }
    Ok(Some(bytes))
}

/// Bytes with a piece more.
fn append(bytes: &mut Vec<u8>, piece: &[u8]) -> Result<(), MessageFault>
    ensures items { OnOk result (bytes.new.items ≡ bytes.old.items ++ piece.now) }
    ensures memory { IfErr result (λ fault. fault ≡ MessageFault.Memory) }
{
    match bytes.extend_from_slice(piece) {
        Ok(_) => Ok(()),
        Err(_) => Err(MessageFault::Memory),
    }
}
