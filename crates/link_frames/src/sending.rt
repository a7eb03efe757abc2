//! What is sent of a message, of which a part was read: the whole in one frame, or a piece.
ghost use Rattle.std.specs.Prelude.{◌≡◌, ℕ, ◌+◌, ◌-◌, ◌*◌, ◌<◌, ◌≤◌, ◌++◌, List, length, take, Option};
ghost use Rattle.link_model.specs.declared.lengths.TheConstants.{FRAME_MOST, PIECE_MOST, WHOLE_MOST};
ghost use Rattle.link_model.specs.declared.services.TheConstants.{DATA_NOT_AVAILABLE};
ghost use Rattle.link_model.specs.Answers.{refuses, sends_on};
ghost use Rattle.link_frames.specs.Steps.{state_of, begins};
ghost use Rattle.link_frames.specs.Sending.{reply_of, IsPart, sends_piece};

use crate::Frame;
use crate::frame::ROOM;
use crate::standing::Standing;
use arrayvec::ArrayVec;
use link_model::lengths::{MESSAGE_HEADER, PIECE_MOST, WHOLE_MOST};
use link_model::services::{ACKNOWLEDGE, DATA_NOT_AVAILABLE, MESSAGE, REFUSAL, TRANSFER_DATA};
use link_model::{Request, number_of};

/// The most bytes of a message that are read at once: as many as go in one frame behind 76 and the number.
pub const MOST: usize = WHOLE_MOST as usize;

/// How many bytes of a message go in each piece but the last, which has fewer.
const PIECE: usize = PIECE_MOST as usize;

/// What is answered, and where the session stands then.
#[derive(Drop)]
pub struct Reply {
    /// The answer, if there is one.
    pub answer: Option<Frame>,
    /// Where the session stands behind it.
    pub standing: Standing,
}

/// The answer to a request of a message, of which the first part was read. The length is the message's in bytes, with
/// 76 and its number.
pub fn begun(request: Request, standing: Standing, told: Option<u32>, bytes: &[u8]) -> Reply
    requires { length bytes.now ≤ WHOLE_MOST }
    ensures { (content : Option (List ℕ)) → IsPart content 2 told bytes.now
        → reply_of result ≡ begins (state_of standing) request content }
{
    let Some(len) = told else {
        return refused(standing, TRANSFER_DATA);
    };
    if len <= MOST as u32 + 2 {
        return Reply {
            answer: Some(framed(&[MESSAGE, number_of(request)], bytes)),
            standing: Standing::Upload,
        };
    }
    sent(request, 1, bytes)
}

/// The answer to an acknowledged piece that asks for a piece, of which the bytes were read.
pub fn sent_on(request: Request, counter: u16, code: u16, told: Option<u32>, bytes: &[u8]) -> Reply
    requires { length bytes.now ≤ WHOLE_MOST }
    ensures { (content : Option (List ℕ)) → IsPart content (2 + PIECE_MOST * (code - 1)) told bytes.now
        → reply_of result ≡ sends_on request counter content code }
{
    let Some(len) = told else {
        return refused(Standing::Sending(request, counter), ACKNOWLEDGE);
    };
    if code == counter || place_of(code) <= len {
        return sent(request, code, bytes);
    }
    Reply {
        answer: None,
        standing: Standing::Upload,
    }
}

/// Where the piece of a counter begins in its message, which begins with 76 and its number: a place in bytes from 0.
/// Counters begin with 1.
pub fn place_of(counter: u16) -> u32
    ensures { result ≡ 2 + PIECE_MOST * (counter - 1) }
{
    MESSAGE_HEADER + PIECE_MOST * counter.saturating_sub(1) as u32
}

/// There is no such message.
fn refused(standing: Standing, service: u8) -> Reply
    ensures { reply_of result ≡ refuses (state_of standing) service DATA_NOT_AVAILABLE }
{
    Reply {
        answer: Some(Frame::new(&[REFUSAL, service, DATA_NOT_AVAILABLE])),
        standing,
    }
}

/// A piece of a message, whose bytes these begin with.
fn sent(request: Request, counter: u16, bytes: &[u8]) -> Reply
    ensures { reply_of result ≡ sends_piece request counter (take PIECE_MOST bytes.now) }
{
    let [high, low] = counter.to_be_bytes();
    Reply {
        answer: Some(framed(&[MESSAGE, number_of(request), high, low], front(bytes))),
        standing: Standing::Sending(request, counter),
    }
}

/// The bytes that a piece has room for.
#[tactic(auto, using(std::proofs::lemmas::List::take_min))]
fn front(bytes: &[u8]) -> &[u8]
    ensures value { result.now ≡ take PIECE_MOST bytes.now }
    ensures few { length result.now ≤ PIECE_MOST }
{
    &bytes[..PIECE.min(bytes.len())]
}

/// A frame with these data.
fn framed(header: &[u8], bytes: &[u8]) -> Frame
    requires some { 0 < length header.now }
    requires few { length header.now + length bytes.now ≤ FRAME_MOST }
    ensures { result ≡ header.now ++ bytes.now }
{
    let mut data: ArrayVec<u8, ROOM> = ArrayVec::new();
    let _ = data.try_extend_from_slice(header);
    let _ = data.try_extend_from_slice(bytes);
    Frame::new(data.as_slice())
}
