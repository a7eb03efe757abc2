//! Where the messages of a unit file stand.
ghost use Rattle.std.specs.Prelude.{◌≡◌, ◌≤◌, ◌<◌, ◌++◌, ◌∷◌, [], ◌^◌, ◌-◌, ℕ, List, length, drop, IfOk, IfErr, OnOk};
ghost use Rattle.message_model.specs.Messages.{Message as FileMessage, IsUnitFile};
ghost use Rattle.unit_messages.specs.Reading.{request_of};
ghost use Rattle.file_view.specs.Faults.{IfBadFile};
ghost use Rattle.file_view.specs.UnitFiles.{IsBadUnitFile, HasNoMessage};
ghost use Rattle.file_view.specs.Places.{ArePlaced, IsNext};

use crate::ViewFault;
use std::alloc::{AllocError, Global};
use unit_messages::{Request, read_message};

/// A message of a unit file: where it begins, how many bytes it has, and the request that it answers.
#[derive(Clone, Copy, Debug, PartialEq, Eq)]
pub struct MessageAt {
    pub place: usize,
    pub len: usize,
    pub request: Request,
}

/// The messages of a unit file, one after the other.
///
/// # Errors
///
/// As those of `file_view::read_download`.
pub fn messages_at(alloc: Global, b: &[u8]) -> Result<Vec<MessageAt>, ViewFault>
    requires { length b.now < 2 ^ 32 }
    ensures placed { IfOk result (λ all. (messages : List FileMessage) × IsUnitFile messages b.now
        × ArePlaced b.now all.items messages) }
    ensures bad { IfErr result (λ fault. IfBadFile fault (λ place. IsBadUnitFile place b.now)) }
{
    let mut all = Vec::new(alloc);
    let mut place = take_message(&mut all, b, 0)?;
    while place < b.len() {
        place = take_message(&mut all, b, place)?;
    }
    Ok(all)
}

/// Takes the message that stands at this place, and answers where it ends.
fn take_message(all: &mut Vec<MessageAt>, b: &[u8], place: usize) -> Result<usize, ViewFault>
    requires inside { place ≤ length b.now }
    requires short { length b.now < 2 ^ 32 }
    ensures taken { IfOk result (λ end. (m : FileMessage) × IsNext b.now place end m
        × (all.new.items ≡ all.old.items ++ record { place = place; len = end - place; request = request_of m } ∷ [])) }
    ensures bad { IfErr result (λ fault. IfBadFile fault (λ at. (at ≡ place) × HasNoMessage (drop place b.now))) }
{
    let read = match read_message(&b[place..]) {
        Ok(read) => read,
        Err(_) => return Err(ViewFault::BadFile(place as u32)),
    };
    let len = read.len as usize;
    let at = MessageAt {
        place,
        len,
        request: read.request,
    };
    add_place(all, at)?;
    Ok(place + len)
}

/// Adds where a message stands.
fn add_place(all: &mut Vec<MessageAt>, at: MessageAt) -> Result<(), AllocError>
    ensures { OnOk result (all.new.items ≡ all.old.items ++ at ∷ []) }
{
    all.push(at)?;
    Ok(())
}
