//! The service of bytes: the frames of a source are answered until it ends.
ghost use Rattle.unit_model.specs.declared.layout.TheConstants.{IMAGE_SIZE};
ghost use Rattle.std.specs.Prelude.{◌≡◌, ◌≤◌, OnOk, IfErr, IfSome, Some};
ghost use Rattle.std.specs.Io.KnownBytes.{Appends, IsAtEnd};
ghost use Rattle.tach_media.specs.Medium.{Rose};
ghost use Rattle.message_model.specs.Sending.{content_sent};
ghost use Rattle.unit_model.specs.Decoding.{first_bad_place};
ghost use Rattle.unit_minutes.specs.Reading.{ReadsIfAny};
ghost use Rattle.link_session.specs.Served.{IsServed, has_failed, IsCaused, answers_to};
ghost use Rattle.link_session.specs.Asked.{AnswersInTime};

use crate::fault::ServeFault;
use crate::line::{Line, Spelling};
use crate::peer::Peer;
use tach_media::{Medium, Sink};

/// The most bytes of a source that a service of bytes or of lines answers.
pub const MOST: u32 = 16_777_216;

/// Answers the frames among the bytes of a source until it ends: each byte of the answers goes to the sink, and nothing
/// else. The unit is read, and never written.
///
/// # Errors
///
/// `ReadFault` and `TooLong` after the answers to all bytes that came, or to the first 16777216; `WriteFault` after a
/// front of them; `Failed` and `BadUnit` after the answers to the frames before one whose answer hangs on the unit.
pub fn serve<S: Peer<K>, K: Sink, U: Medium>(
    source: &mut S,
    sink: &mut K,
    unit: &mut U,
) -> Result<(), ServeFault>
    requires unit { (U.state unit.old).size ≡ IMAGE_SIZE }
    ensures served { IfSome (U.state unit.old).image (λ x.
        IsServed result (content_sent x) (S.left source.old) (S.left source.new) (K.held sink.old) (K.held sink.new)) }
    // Before each read all that came was answered.
    ensures in_time { IfSome (U.state unit.old).image (λ x.
        AnswersInTime (λ came held sunk. Appends held sunk (answers_to (content_sent x) came)) (S.left source.old)
        (S.left source.new) (K.held sink.old) (S.asked source.old) (S.asked source.new)) }
    // At the end nothing of the source is left.
    ensures end { OnOk result (IsAtEnd (S.left source.new)) }
    // The source or the sink failed, or the unit's image has that bad place.
    ensures cause { IfErr result (λ fault.
        IsCaused fault (Rose (S.faults source.old) (S.faults source.new)) (Rose (K.faults sink.old) (K.faults sink.new))
        (λ p. IfSome (U.state unit.old).image (λ x. first_bad_place x ≡ Some p))) }
    ensures counts { (S.faults source.old ≤ S.faults source.new) × (K.faults sink.old ≤ K.faults sink.new) }
    ensures unit { ReadsIfAny (U.state unit.old) (U.state unit.new) (has_failed result) }
{
    let mut line = Line::new();
    let mut left = MOST as usize;
    let mut block = [0u8; 4096];
    for _turn in 0..MOST as u64 + 1 {
        let Ok(count) = source.read_after(&mut block, sink) else {
            return Err(ServeFault::ReadFault);
        };
        if count == 0 {
            return Ok(());
        }
        line.answer_within(Spelling::Bytes, &block[..count], left, sink, unit)?;
        left -= count;
    }
    unreachable!()
}
