//! What a frame is that comes to the loader, by its bytes.
ghost use Rattle.std.specs.Prelude.{◌≡◌, ◌≤◌, ℕ, List, length};
ghost use Rattle.link_model.specs.Answers.{number_of};
ghost use Rattle.unit_messages.specs.Joining.{counter_in};
ghost use Rattle.link_loader.specs.Stages.{counter_at};
ghost use Rattle.link_loader.specs.Coming.{begins_as, piece_kind, request_kind, acknowledgement_kind, answer_kind};
ghost use Rattle.link_loader.specs.Coming.{kind_at, kind_of, IsInOrder};

use crate::stage::Stage;
use byteorder::{BigEndian, ByteOrder};
use link_model::lengths::FRAME_MOST;
use link_model::services::{
    COMMUNICATION_STARTED, COMMUNICATION_STOPPED, DIAGNOSTIC_STARTED, MESSAGE, REFUSAL,
    TRANSFER_EXITED, UPLOAD_ACCEPTED,
};
use link_model::{Request, number_of};

/// The length of a piece that another one follows: it fills its frame.
pub const FULL: usize = FRAME_MOST as usize;

/// How many bytes stand in a piece before those of the message: 76, the number, and the counter of two bytes.
pub const FRONT: usize = 4;

/// What a frame is.
#[derive(Clone, Copy, Debug, PartialEq, Eq)]
pub enum Kind {
    /// A negative answer, of a service, with a code.
    Negative(u8, u8),
    /// A piece out of its order: the counter that is wanted, and its own.
    Broken(u16, u16),
    /// The positive answer to what asks for no message.
    Agreed,
    /// The piece of this message that is wanted.
    Piece(Request),
    /// What may be this message in one frame.
    Single(Request),
    /// Any other frame: it is no answer to what was sent.
    Other,
}

/// What a frame is, at a stage.
pub fn kind_of(stage: Stage, frame: &[u8]) -> Kind
    ensures kind { result ≡ kind_of stage frame.now }
    ensures order { IsInOrder (counter_at stage) frame.now result }
{
    if frame.len() == 3 && frame[0] == REFUSAL {
        return Kind::Negative(frame[1], frame[2]);
    }
    kind_at(stage, frame)
}

/// The same of a frame that is no negative answer.
fn kind_at(stage: Stage, frame: &[u8]) -> Kind
    ensures kind { result ≡ kind_at stage frame.now }
    ensures order { IsInOrder (counter_at stage) frame.now result }
{
    match stage {
        Stage::Start => answer_kind(&COMMUNICATION_STARTED, frame),
        Stage::Diagnostic => answer_kind(&DIAGNOSTIC_STARTED, frame),
        Stage::Upload => answer_kind(&UPLOAD_ACCEPTED, frame),
        Stage::Asked(request) => request_kind(request, frame),
        Stage::Acknowledged(request, counter) => acknowledgement_kind(request, counter, frame),
        Stage::Exit => answer_kind(&TRANSFER_EXITED, frame),
        Stage::Stop => answer_kind(&COMMUNICATION_STOPPED, frame),
        Stage::Finished => Kind::Other,
    }
}

/// Where no message was asked for there is one positive answer.
fn answer_kind(answer: &[u8], frame: &[u8]) -> Kind
    ensures kind { result ≡ answer_kind answer.now frame.now }
    ensures order { (wanted : ℕ) → IsInOrder wanted frame.now result }
{
    if frame == answer {
        Kind::Agreed
    } else {
        Kind::Other
    }
}

/// The answer to the request of a message.
fn request_kind(request: Request, frame: &[u8]) -> Kind
    ensures kind { result ≡ request_kind request frame.now }
    ensures order { IsInOrder 1 frame.now result }
{
    if frame.len() == FULL && begins_as(request, frame) {
        return piece_kind(request, 1, frame);
    }
    if frame.len() < FULL {
        return Kind::Single(request);
    }
    Kind::Other
}

/// The answer to an acknowledgement.
fn acknowledgement_kind(request: Request, wanted: u16, frame: &[u8]) -> Kind
    ensures kind { result ≡ acknowledgement_kind request wanted frame.now }
    ensures order { IsInOrder wanted frame.now result }
{
    if FRONT <= frame.len() && begins_as(request, frame) {
        return piece_kind(request, wanted, frame);
    }
    Kind::Other
}

/// A piece, by its counter.
fn piece_kind(request: Request, wanted: u16, frame: &[u8]) -> Kind
    requires { 4 ≤ length frame.now }
    ensures kind { result ≡ piece_kind request wanted (counter_in frame.now) }
    ensures order { IsInOrder wanted frame.now result }
{
    let counter = counter_in(frame);
    if counter == wanted {
        return Kind::Piece(request);
    }
    Kind::Broken(wanted, counter)
}

/// 76 and the number stand in front.
fn begins_as(request: Request, frame: &[u8]) -> bool
    requires { 2 ≤ length frame.now }
    ensures { result ≡ begins_as request frame.now }
{
    let number = number_of(request);
    frame[0] == MESSAGE && frame[1] == number
}

/// The counter of a piece.
fn counter_in(frame: &[u8]) -> u16
    requires { 4 ≤ length frame.now }
    ensures { result ≡ counter_in frame.now }
{
    BigEndian::read_u16(&frame[2..FRONT])
}
