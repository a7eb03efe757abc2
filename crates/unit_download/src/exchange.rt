//! One exchange of a download: the loader's frame, and the unit's answer, which the loader takes.
ghost use Rattle.unit_model.specs.declared.layout.TheConstants.{IMAGE_SIZE};
ghost use Rattle.std.specs.Prelude.{◌≡◌, ◌≤◌, ◌||◌, true, false, [], ◌∷◌, ℕ, List, Some, IfOk, OnOk, IfErr};
ghost use Rattle.std.specs.Prelude.{IfSome, IsErrOf};
ghost use Rattle.std.specs.Io.KnownBytes.{Appends};
ghost use Rattle.tach_media.specs.Medium.{Rose};
ghost use Rattle.link_model.specs.Frames.{Right};
ghost use Rattle.unit_minutes.specs.Reading.{ReadsIfAny};
ghost use Rattle.unit_messages.specs.declared.joining.TheConstants.{LONGEST};
ghost use Rattle.link_frames.specs.Asking.{asks_unit};
ghost use Rattle.link_session.specs.Told.{Knows, is_judged};
ghost use Rattle.link_loader.specs.Loading.{Takes};
ghost use Rattle.unit_download.specs.declared.wire.Passed.{Passed};
ghost use Rattle.unit_download.specs.declared.fault.DownloadFault.{DownloadFault};
ghost use Rattle.unit_download.specs.Wires.{of_loader, of_unit, Replies};
ghost use Rattle.unit_download.specs.Tapes.{HasMore};
ghost use Rattle.unit_download.specs.Ending.{CountsFrames, JudgesUnit, has_failed, IsUnanswered, IsUntaken};

use crate::fault::DownloadFault;
use crate::tape::Tape;
use link_frames::{End, Frame, Seen};
use link_loader::{Downloader, LoadFault};
use link_session::Session;
use tach_media::{Medium, Sink};

/// The unit's answer to a frame of the loader; both are added to the wire.
///
/// # Errors
///
/// `Failed` and `BadUnit` where the unit failed or is bad, `Changed` where it gives no answer, and `Memory`.
pub fn answer_to<U: Medium, T: Tape>(
    session: &mut Session,
    sent: Frame,
    unit: &mut U,
    wire: &mut T,
) -> Result<Frame, DownloadFault>
    requires unit { (U.state unit.old).size ≡ IMAGE_SIZE }
    requires knows { IfSome (U.state unit.old).image (Knows session.old) }
    ensures answered { IfOk result (λ frame. Replies (U.state unit.old).image session.old.state sent
        (record { answer = Some frame; state = session.new.state })) }
    ensures passed { IfOk result (λ frame.
        HasMore (T.frames wire.old) (T.frames wire.new) (of_loader sent ∷ of_unit frame ∷ [])) }
    ensures knows { OnOk result (IfSome (U.state unit.old).image (Knows session.new)) }
    ensures judged { OnOk result (is_judged session.new
        ≡ (is_judged session.old || asks_unit session.old.state (Right sent))) }
    ensures frames { CountsFrames result (T.count wire.old) (T.count wire.new) }
    ensures stops { IfErr result (λ fault. (behind : List Passed)
        × HasMore (T.frames wire.old) (T.frames wire.new) behind
        × IsUnanswered (U.state unit.old).image fault session.old.state sent behind) }
    // A unit that was asked, and gives no answer, decodes; and a bad one is bad at this place.
    ensures unit_judged { JudgesUnit result (asks_unit session.old.state (Right sent)) (is_judged session.old)
        (U.state unit.old).image }
    ensures unit { ReadsIfAny (U.state unit.old) (U.state unit.new) (has_failed result) }
{
    let seen = Seen::Whole(copy_of(&sent));
    wire.push(End::Loader, sent)?;
    let answer = session.answer(unit, &seen)?;
    let Some(frame) = answer else {
        return Err(DownloadFault::Changed);
    };
    wire.push(End::Unit, copy_of(&frame))?;
    Ok(frame)
}

/// The loader takes the unit's answer.
///
/// # Errors
///
/// `Changed` where it refuses the frame, `WriteFault` where the sink failed, and `Memory` for a piece of a message that
/// is longer than the longest of a unit.
pub fn take<K: Sink>(
    loader: &mut Downloader,
    frame: &Frame,
    sink: &mut K,
) -> Result<(), DownloadFault>
    requires room { LONGEST ≤ loader.old.room }
    ensures taken { OnOk result ((put : List ℕ) × Takes loader.old.loading frame.now loader.new.loading put
        × Appends (K.held sink.old) (K.held sink.new) put) }
    ensures room { loader.old.room ≤ loader.new.room }
    ensures stops { IfErr result (λ fault.
        IsUntaken fault loader.old.loading frame.now (K.held sink.old) (K.held sink.new)) }
    ensures cause { IsErrOf result DownloadFault.WriteFault → Rose (K.faults sink.old) (K.faults sink.new) }
    ensures counts { K.faults sink.old ≤ K.faults sink.new }
{
    match loader.take(frame, sink) {
        Ok(()) => Ok(()),
        Err(LoadFault::WriteFault) => Err(DownloadFault::WriteFault),
        Err(LoadFault::Memory) => Err(DownloadFault::Memory),
        Err(LoadFault::Negative(_, _)) => Err(DownloadFault::Changed),
        Err(LoadFault::Unexpected) => Err(DownloadFault::Changed),
        Err(LoadFault::Broken(_, _)) => Err(DownloadFault::Changed),
    }
}

/// A frame with the same data.
fn copy_of(frame: &Frame) -> Frame
    ensures { result ≡ frame.now }
{
    Frame::new(frame.bytes())
}
