//! The service of lines of hexadecimal digits: each line's bytes are heard, and each answer is a line.
ghost use Rattle.std.specs.Prelude.{◌≡◌, ◌+◌, ◌≤◌, ◌<◌, ◌++◌, [], ◌∷◌, length, OnOk, IfErr, IfSome, Some};
ghost use Rattle.std.specs.Io.KnownBytes.{IsAtEnd};
ghost use Rattle.tach_media.specs.Medium.{Rose};
ghost use Rattle.text_fields.specs.Pieces.{pieces};
ghost use Rattle.link_model.specs.Answers.{Idle};
ghost use Rattle.message_model.specs.Sending.{content_sent};
ghost use Rattle.unit_model.specs.Decoding.{first_bad_place};
ghost use Rattle.unit_model.specs.declared.layout.TheConstants.{IMAGE_SIZE};
ghost use Rattle.unit_minutes.specs.Reading.{ReadsIfAny};
ghost use Rattle.link_session.specs.Told.{Knows, fresh};
ghost use Rattle.link_session.specs.declared.fault.LinesFault.TheVariants.{Memory};
ghost use Rattle.link_session.specs.Lines.{listening};
ghost use Rattle.link_session.specs.ServedLines.{AreServed, have_failed, AreCaused, AreHeard, IsHeard, StopsAt};
ghost use Rattle.link_session.specs.ServedLines.{StopsAmong, WholeAnswered, LinesGo};
ghost use Rattle.link_session.specs.Asked.{AnswersInTime};

use crate::fault::{LinesFault, ServeFault};
use crate::line::{Line, Spelling};
use crate::peer::Peer;
use crate::service::MOST;
use std::alloc::Global;
use tach_media::{Medium, Sink};
use text_fields::{LineFault, first_piece, read_line};

/// A unit on the link that hears lines.
#[derive(Drop)]
pub struct Lines {
    /// From where the line that is read takes its memory.
    pub alloc: Global,
    /// What it hears in the lines' bytes, and where it stands.
    pub line: Line,
    /// What has come of the next line.
    pub text: Vec<u8>,
    /// How many lines were whole.
    pub whole: u32,
}

impl Lines {
    /// Nothing has come yet.
    fn new(alloc: Global) -> Lines
        ensures scanner { result.line.scanner ≡ listening [] }
        ensures session { result.line.session ≡ fresh Idle }
        ensures text { result.text.items ≡ [] }
        ensures whole { result.whole ≡ 0 }
    {
        Lines {
            alloc,
            line: Line::new(),
            text: Vec::new(alloc),
            whole: 0,
        }
    }

    /// What comes of the next line is kept.
    fn keep(&mut self, text: &[u8]) -> Result<(), LinesFault>
        ensures text { OnOk result (self.new.text.items ≡ self.old.text.items ++ text.now) }
        ensures line { self.new.line ≡ self.old.line }
        ensures whole { self.new.whole ≡ self.old.whole }
        ensures memory { IfErr result (λ fault. fault ≡ Memory) }
    {
        if self.text.extend_from_slice(text).is_err() {
            return Err(LinesFault::Memory);
        }
        Ok(())
    }

    /// The line that has begun ends: the frames that end in its bytes are answered.
    fn end_line<K: Sink, U: Medium>(&mut self, sink: &mut K, unit: &mut U) -> Result<(), LinesFault>
        requires unit { (U.state unit.old).size ≡ IMAGE_SIZE }
        requires room { self.old.whole < 4294967295 }
        requires listens { self.old.line.scanner ≡ listening self.old.line.scanner.kept }
        requires knows { IfSome (U.state unit.old).image (Knows self.old.line.session) }
        ensures text { OnOk result (self.new.text.items ≡ []) }
        ensures whole { OnOk result (self.new.whole ≡ self.old.whole + 1) }
        ensures heard { OnOk result (IsHeard self.old.text.items self.old.line.scanner.kept self.old.line.session.state
            self.new.line.scanner self.new.line.session.state (U.state unit.old).image (K.held sink.old)
            (K.held sink.new)) }
        ensures knows { OnOk result (IfSome (U.state unit.old).image (Knows self.new.line.session)) }
        ensures stops { IfErr result (λ fault. IfSome (U.state unit.old).image (λ x.
            StopsAt fault (content_sent x) self.old.line.session.state self.old.line.scanner.kept self.old.text.items
            (self.old.whole + 1) (K.held sink.old) (K.held sink.new))) }
        ensures goes { LinesGo result (U.state unit.old) (U.state unit.new) (K.faults sink.old) (K.faults sink.new) }
    {
        self.whole += 1;
        let bytes = match read_line(self.alloc, self.text.as_slice()) {
            Ok(bytes) => bytes,
            Err(LineFault::Bad) => return Err(LinesFault::BadLine(self.whole)),
            Err(LineFault::Memory) => return Err(LinesFault::Memory),
        };
        self.text.clear();
        match self
            .line
            .answer(Spelling::HexLines, bytes.as_slice(), sink, unit)
        {
            Ok(()) => Ok(()),
            Err(fault) => Err(LinesFault::Ended(fault)),
        }
    }

    /// The lines that end in this text are answered, and what comes of the next one is kept.
    fn take<K: Sink, U: Medium>(
        &mut self,
        text: &[u8],
        sink: &mut K,
        unit: &mut U,
    ) -> Result<(), LinesFault>
        requires unit { (U.state unit.old).size ≡ IMAGE_SIZE }
        requires room { self.old.whole + length text.now < 4294967295 }
        requires one { pieces 10 self.old.text.items ≡ self.old.text.items ∷ [] }
        requires listens { self.old.line.scanner ≡ listening self.old.line.scanner.kept }
        requires knows { IfSome (U.state unit.old).image (Knows self.old.line.session) }
        ensures heard { OnOk result (AreHeard (pieces 10 (self.old.text.items ++ text.now)) [] self.old.whole
            self.old.line.scanner.kept self.old.line.session.state
            self.new.text.items self.new.whole self.new.line.scanner self.new.line.session.state
            (U.state unit.old).image (K.held sink.old) (K.held sink.new)) }
        ensures few { OnOk result (self.new.whole ≤ self.old.whole + length text.now) }
        ensures knows { OnOk result (IfSome (U.state unit.old).image (Knows self.new.line.session)) }
        ensures stops { IfErr result (λ fault. IfSome (U.state unit.old).image (λ x.
            StopsAmong fault ⊥ (pieces 10 (self.old.text.items ++ text.now)) (content_sent x) self.old.whole
            self.old.line.scanner.kept self.old.line.session.state (K.held sink.old) (K.held sink.new))) }
        ensures goes { LinesGo result (U.state unit.old) (U.state unit.new) (K.faults sink.old) (K.faults sink.new) }
    {
        let (front, mut behind) = first_piece(text, b'\n');
        self.keep(front)?;
        while let Some(rest) = behind {
            self.end_line(sink, unit)?;
            let (front, more) = first_piece(rest, b'\n');
            self.keep(front)?;
            behind = more;
        }
        Ok(())
    }
}

/// Answers the frames among the bytes that the lines of a source spell until it ends, each answer as a line: two
/// hexadecimal digits a byte, of either case, with a single space between two bytes or none; a frame may run over
/// lines. The unit is read, and never written. A line is kept until it ends.
///
/// # Errors
///
/// `BadLine` after the answers to the lines before it, judged at its end; `Memory` after the answers to some of them;
/// the others as of a service of bytes, with the answers to the whole lines that came.
pub fn serve_lines<S: Peer<K>, K: Sink, U: Medium>(
    alloc: Global,
    source: &mut S,
    sink: &mut K,
    unit: &mut U,
) -> Result<(), LinesFault>
    requires unit { (U.state unit.old).size ≡ IMAGE_SIZE }
    ensures served { IfSome (U.state unit.old).image (λ x.
        AreServed result (content_sent x) (S.left source.old) (S.left source.new) (K.held sink.old) (K.held sink.new)) }
    // Before each read all lines that had ended were answered.
    ensures in_time { IfSome (U.state unit.old).image (λ x.
        AnswersInTime (WholeAnswered (content_sent x)) (S.left source.old) (S.left source.new) (K.held sink.old)
        (S.asked source.old) (S.asked source.new)) }
    // At the end nothing of the source is left.
    ensures end { OnOk result (IsAtEnd (S.left source.new)) }
    // The source or the sink failed, or the unit's image has that bad place.
    ensures cause { IfErr result (λ fault.
        AreCaused fault (Rose (S.faults source.old) (S.faults source.new))
        (Rose (K.faults sink.old) (K.faults sink.new))
        (λ p. IfSome (U.state unit.old).image (λ x. first_bad_place x ≡ Some p))) }
    ensures counts { (S.faults source.old ≤ S.faults source.new) × (K.faults sink.old ≤ K.faults sink.new) }
    ensures unit { ReadsIfAny (U.state unit.old) (U.state unit.new) (have_failed result) }
{
    let mut lines = Lines::new(alloc);
    let mut left = MOST as usize;
    let mut block = [0u8; 4096];
    for _turn in 0..MOST as u64 + 1 {
        let Ok(count) = source.read_after(&mut block, sink) else {
            return Err(LinesFault::Ended(ServeFault::ReadFault));
        };
        if count == 0 {
            return lines.end_line(sink, unit);
        }
        let taken = count.min(left);
        lines.take(&block[..taken], sink, unit)?;
        if left < count {
            return Err(LinesFault::Ended(ServeFault::TooLong));
        }
        left -= count;
    }
    unreachable!()
}
