//! A unit on the link: the frames among the bytes that come, and their answers to the sink.
ghost use Rattle.unit_model.specs.declared.layout.TheConstants.{IMAGE_SIZE};
ghost use Rattle.std.specs.Prelude.{◌≡◌, ◌≤◌, ◌<◌, [], ◌∷◌, IfOk, OnOk, OnErr, IfErr, IfSome, length};
ghost use Rattle.std.specs.Prelude.{take};
ghost use Rattle.tach_media.specs.Medium.{Rose};
ghost use Rattle.link_model.specs.declared.side.End.TheVariants as side;
ghost use Rattle.link_model.specs.Hearing.{heard_in, kept_after};
ghost use Rattle.link_model.specs.Answers.{Idle};
ghost use Rattle.link_frames.specs.Seen.{meant};
ghost use Rattle.message_model.specs.Sending.{content_sent};
ghost use Rattle.link_session.specs.Told.{Knows, fresh};
ghost use Rattle.std.specs.Io.KnownBytes.{Appends};
ghost use Rattle.tach_media.specs.Streams.{AppendsFront};
ghost use Rattle.link_session.specs.Lines.{listening, spelled, IsAnswered};
ghost use Rattle.link_session.specs.Served.{Stops, StopsWithin, LinkGoes};

use crate::Session;
use crate::fault::ServeFault;
use link_frames::{End, Frame, Scanner, Seen, write_frame};
use tach_media::{Failed, Medium, Sink, put_all};
use text_fields::write_line;

/// How the answers go to the sink.
#[derive(Clone, Copy, Debug, PartialEq, Eq)]
pub enum Spelling {
    /// Byte for byte.
    Bytes,
    /// Each as a line of hexadecimal digits.
    HexLines,
}

/// A unit on the link.
#[derive(Drop)]
pub struct Line {
    /// What it hears: of a frame that has begun it keeps the bytes.
    pub scanner: Scanner,
    /// Where it stands.
    pub session: Session,
}

impl Line {
    /// Nothing has come yet.
    pub fn new() -> Line
        ensures scanner { result.scanner ≡ listening [] }
        ensures session { result.session ≡ fresh Idle }
    {
        Line {
            scanner: Scanner::new(End::Unit),
            session: Session::new(),
        }
    }

    /// Answers the frames that end in these bytes.
    ///
    /// # Errors
    ///
    /// `WriteFault` after a front of the answers; `Failed` and `BadUnit` after the answers to the frames before one
    /// whose answer hangs on the unit.
    pub fn answer<K: Sink, U: Medium>(
        &mut self,
        spelling: Spelling,
        bytes: &[u8],
        sink: &mut K,
        unit: &mut U,
    ) -> Result<(), ServeFault>
        requires unit { (U.state unit.old).size ≡ IMAGE_SIZE }
        requires listens { self.old.scanner ≡ listening self.old.scanner.kept }
        requires knows { IfSome (U.state unit.old).image (Knows self.old.session) }
        ensures kept { OnOk result (self.new.scanner
            ≡ listening (kept_after side.Unit self.old.scanner.kept bytes.now)) }
        ensures answered { OnOk result (IfSome (U.state unit.old).image (λ x.
            IsAnswered spelling (content_sent x) self.old.session.state
            (heard_in side.Unit self.old.scanner.kept bytes.now) self.new.session.state (K.held sink.old)
            (K.held sink.new))) }
        ensures knows { OnOk result (IfSome (U.state unit.old).image (Knows self.new.session)) }
        ensures stops { IfErr result (λ fault. IfSome (U.state unit.old).image (λ x.
            Stops spelling fault (content_sent x) self.old.session.state
            (heard_in side.Unit self.old.scanner.kept bytes.now) (K.held sink.old) (K.held sink.new))) }
        ensures goes { LinkGoes result (U.state unit.old) (U.state unit.new) (K.faults sink.old) (K.faults sink.new) }
    {
        let mut done = 0usize;
        while done < bytes.len() {
            done += self.answer_next(spelling, &bytes[done..], sink, unit)?;
        }
        Ok(())
    }

    /// Answers the frames that end in these bytes, of which so many may come; where more come, those in the first.
    ///
    /// # Errors
    ///
    /// `WriteFault` after a front of the answers; `Failed` and `BadUnit` after the answers to the frames before one
    /// whose answer hangs on the unit; `TooLong` after the answers to as many bytes as may come, where more came.
    pub fn answer_within<K: Sink, U: Medium>(
        &mut self,
        spelling: Spelling,
        bytes: &[u8],
        left: usize,
        sink: &mut K,
        unit: &mut U,
    ) -> Result<(), ServeFault>
        requires unit { (U.state unit.old).size ≡ IMAGE_SIZE }
        requires listens { self.old.scanner ≡ listening self.old.scanner.kept }
        requires knows { IfSome (U.state unit.old).image (Knows self.old.session) }
        ensures few { OnOk result (length bytes.now ≤ left) }
        ensures kept { OnOk result (self.new.scanner
            ≡ listening (kept_after side.Unit self.old.scanner.kept bytes.now)) }
        ensures answered { OnOk result (IfSome (U.state unit.old).image (λ x.
            IsAnswered spelling (content_sent x) self.old.session.state
            (heard_in side.Unit self.old.scanner.kept bytes.now) self.new.session.state (K.held sink.old)
            (K.held sink.new))) }
        ensures knows { OnOk result (IfSome (U.state unit.old).image (Knows self.new.session)) }
        ensures stops { IfErr result (λ fault. IfSome (U.state unit.old).image (λ x.
            StopsWithin spelling fault (content_sent x) self.old.session.state self.old.scanner.kept left bytes.now
            (K.held sink.old) (K.held sink.new))) }
        ensures goes { LinkGoes result (U.state unit.old) (U.state unit.new) (K.faults sink.old) (K.faults sink.new) }
    {
        if bytes.len() <= left {
            return self.answer(spelling, bytes, sink, unit);
        }
        self.answer(spelling, &bytes[..left], sink, unit)?;
        Err(ServeFault::TooLong)
    }

    /// Takes bytes up to the end of the next frame, or all of them, answers the frame, and says how many it took.
    fn answer_next<K: Sink, U: Medium>(
        &mut self,
        spelling: Spelling,
        bytes: &[u8],
        sink: &mut K,
        unit: &mut U,
    ) -> Result<usize, ServeFault>
        requires some { 0 < length bytes.now }
        requires unit { (U.state unit.old).size ≡ IMAGE_SIZE }
        requires listens { self.old.scanner ≡ listening self.old.scanner.kept }
        requires knows { IfSome (U.state unit.old).image (Knows self.old.session) }
        ensures taken { IfOk result (λ n. (0 < n) × (n ≤ length bytes.now)) }
        ensures kept { IfOk result (λ n. self.new.scanner
            ≡ listening (kept_after side.Unit self.old.scanner.kept (take n bytes.now))) }
        ensures answered { IfOk result (λ n. IfSome (U.state unit.old).image (λ x.
            IsAnswered spelling (content_sent x) self.old.session.state
            (heard_in side.Unit self.old.scanner.kept (take n bytes.now)) self.new.session.state (K.held sink.old)
            (K.held sink.new))) }
        ensures knows { OnOk result (IfSome (U.state unit.old).image (Knows self.new.session)) }
        ensures stops { IfErr result (λ fault. IfSome (U.state unit.old).image (λ x.
            Stops spelling fault (content_sent x) self.old.session.state
            (heard_in side.Unit self.old.scanner.kept bytes.now) (K.held sink.old) (K.held sink.new))) }
        ensures goes { LinkGoes result (U.state unit.old) (U.state unit.new) (K.faults sink.old) (K.faults sink.new) }
    {
        let (taken, heard) = self.scanner.feed(bytes);
        let Some(seen) = heard else {
            return Ok(taken);
        };
        answer_frame(spelling, &mut self.session, &seen, sink, unit)?;
        Ok(taken)
    }
}

/// Answers a frame, if there is an answer to it.
fn answer_frame<K: Sink, U: Medium>(
    spelling: Spelling,
    session: &mut Session,
    seen: &Seen,
    sink: &mut K,
    unit: &mut U,
) -> Result<(), ServeFault>
    requires unit { (U.state unit.old).size ≡ IMAGE_SIZE }
    requires knows { IfSome (U.state unit.old).image (Knows session.old) }
    ensures answered { OnOk result (IfSome (U.state unit.old).image (λ x.
        IsAnswered spelling (content_sent x) session.old.state (meant seen.now ∷ []) session.new.state (K.held sink.old)
        (K.held sink.new))) }
    ensures knows { OnOk result (IfSome (U.state unit.old).image (Knows session.new)) }
    ensures stops { IfErr result (λ fault. IfSome (U.state unit.old).image (λ x.
        Stops spelling fault (content_sent x) session.old.state (meant seen.now ∷ []) (K.held sink.old)
        (K.held sink.new))) }
    ensures goes { LinkGoes result (U.state unit.old) (U.state unit.new) (K.faults sink.old) (K.faults sink.new) }
{
    let answer = session.answer(unit, seen)?;
    let Some(frame) = answer else {
        return Ok(());
    };
    match put_frame(spelling, &frame, sink) {
        Ok(()) => Ok(()),
        Err(_) => Err(ServeFault::WriteFault),
    }
}

/// Puts a frame into the sink, so spelled.
fn put_frame<K: Sink>(spelling: Spelling, frame: &Frame, sink: &mut K) -> Result<(), Failed>
    ensures ok { OnOk result (Appends (K.held sink.old) (K.held sink.new) (spelled spelling frame.now)) }
    ensures err { OnErr result (AppendsFront (K.held sink.old) (K.held sink.new) (spelled spelling frame.now)) }
    ensures cause { OnErr result (Rose (K.faults sink.old) (K.faults sink.new)) }
    ensures counts { K.faults sink.old ≤ K.faults sink.new }
{
    let bytes = write_frame(End::Unit, frame);
    match spelling {
        Spelling::Bytes => put_all(sink, bytes.as_slice()),
        Spelling::HexLines => put_all(sink, write_line(bytes.as_slice()).as_slice()),
    }
}
