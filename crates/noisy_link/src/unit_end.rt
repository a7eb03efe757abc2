//! The unit's end of a noisy link.
ghost use Rattle.unit_model.specs.declared.layout.TheConstants.{IMAGE_SIZE};
ghost use Rattle.std.specs.Prelude.{◌≡◌, ◌+◌, ◌==◌, ℕ, List, true, false, Some, IfOk, OnOk, IfErr, OnErr, IfSome};
ghost use Rattle.link_model.specs.Answers.{Idle};
ghost use Rattle.link_model.specs.Frames.{Right};
ghost use Rattle.unit_model.specs.Decoding.{first_bad_place};
ghost use Rattle.unit_minutes.specs.Reading.{ReadsIfAny};
ghost use Rattle.link_frames.specs.Asking.{asks_unit};
ghost use Rattle.link_session.specs.Told.{Knows, is_judged, fresh, IfBadUnit, has_failed};
ghost use Rattle.noisy_model.specs.Ends.{Hears, New, packet, arrival_by};
ghost use Rattle.link_frames.specs.Seen.{meant};
ghost use Rattle.noisy_link.specs.Sides.{IsReply};

use link_frames::{Frame, Seen};
use link_session::{AnswerFault, Session};
use noisy_model::Packet;
use std::marker::Model;
use tach_media::Medium;

/// The end of a noisy link that a unit has. It answers each new request once, by a session, and the last one that comes
/// again by the answer that it keeps.
#[derive(Drop)]
pub struct UnitEnd {
    last: u64,
    kept: Option<Frame>,
    session: Session,
}

impl Model for UnitEnd {
    ghost use Rattle.noisy_model.specs.Ends.{UnitEnd as Answering};
    ghost use Rattle.link_session.specs.Told.{SessionView};

    ghost Value = { Answering SessionView };

    ghost view = { λ e. record { last = e.last; kept = e.kept; side = e.session } };
}

impl UnitEnd {
    /// Nothing has come yet.
    pub fn new() -> UnitEnd
        ensures { result ≡ record { last = 0; kept = None; side = fresh Idle } }
    {
        UnitEnd {
            last: 0,
            kept: None,
            session: Session::new(),
        }
    }

    /// The number of the last request that it answered, 0 before the first.
    pub fn last(&self) -> u64
        ensures { result ≡ self.now.last }
    {
        self.last
    }

    /// Takes a packet that comes, and gives the packet that goes back, if any. A new request, with the number behind
    /// the last one, is answered by the session; where that has no answer, the packet that goes back has no frame. The
    /// last one again gets the same packet again, and the session is not asked. Any other is passed over.
    ///
    /// # Errors
    ///
    /// `Failed` and `BadUnit` at a new request whose answer hangs on the unit, where it failed or is bad. The end is as
    /// it was.
    pub fn take<M: Medium>(
        &mut self,
        unit: &mut M,
        packet: &Packet,
    ) -> Result<Option<Packet>, AnswerFault>
        requires unit { (M.state unit.old).size ≡ IMAGE_SIZE }
        requires knows { IfSome (M.state unit.old).image (Knows self.old.side) }
        ensures heard { IfOk result (λ answer.
            Hears (IsReply (M.state unit.old).image) self.old packet.now self.new answer) }
        ensures knows { OnOk result (IfSome (M.state unit.old).image (Knows self.new.side)) }
        ensures same { OnErr result (self.new ≡ self.old) }
        // Only a new request is refused, and one whose answer hangs on the unit.
        ensures new { OnErr result ((request : List ℕ)
            × (arrival_by self.old.last packet.now.number packet.now.frame ≡ New request)
            × (asks_unit self.old.side.state (Right request) ≡ true)) }
        ensures bad { IfErr result (λ fault. IfBadUnit fault (λ p. (is_judged self.old.side ≡ false) × IfSome
            (M.state unit.old).image (λ x. first_bad_place x ≡ Some p))) }
        ensures reads { ReadsIfAny (M.state unit.old) (M.state unit.new) (has_failed result) }
    {
        let Some(frame) = &packet.frame else {
            return Ok(None);
        };
        if is_next(self.last, packet.number) {
            let answer = self.session.answer(unit, &heard(frame))?;
            let back = packet_of(packet.number, &answer);
            self.last = packet.number;
            self.kept = answer;
            return Ok(Some(back));
        }
        if packet.number == self.last && self.last > 0 {
            return Ok(Some(packet_of(self.last, &self.kept)));
        }
        Ok(None)
    }
}

/// Whether this number is the one behind the last.
fn is_next(last: u64, number: u64) -> bool
    ensures { result ≡ (number == last + 1) }
{
    number > 0 && number - 1 == last
}

/// A frame that was heard.
fn heard(frame: &Frame) -> Seen
    ensures { meant result ≡ Right frame.now }
{
    Seen::Whole(copy_of(frame))
}

/// A frame with the same data.
pub fn copy_of(frame: &Frame) -> Frame
    ensures { result ≡ frame.now }
{
    Frame::new(frame.bytes())
}

/// The same of a frame that there may be.
pub fn copy_of_any(frame: &Option<Frame>) -> Option<Frame>
    ensures { result ≡ frame.now }
{
    match frame {
        Some(frame) => Some(copy_of(frame)),
        None => None,
    }
}

/// A packet of this number, with a copy of this frame.
pub fn packet_of(number: u64, frame: &Option<Frame>) -> Packet
    ensures { result ≡ packet number frame.now }
{
    let frame = copy_of_any(frame);
    Packet { number, frame }
}
