//! A unit downloaded: loader and unit against each other, exchange by exchange.
ghost use Rattle.unit_model.specs.Image.{IsUnit};
ghost use Rattle.std.specs.Prelude.{◌≡◌, ◌≤◌, [], List};
ghost use Rattle.unit_minutes.specs.Reading.{ReadsIfAny};
ghost use Rattle.unit_messages.specs.declared.joining.TheConstants.{LONGEST};
ghost use Rattle.link_loader.specs.Loading.{begun};
ghost use Rattle.unit_download.specs.declared.wire.Passed.{Passed};
ghost use Rattle.unit_download.specs.Tapes.{HasFrames};
ghost use Rattle.unit_download.specs.Ending.{CountsFailures, has_failed, IsDownloaded};

use crate::exchange::{answer_to, take};
use crate::fault::DownloadFault;
use crate::tape::Tape;
use crate::wire::Wire;
use link_loader::Downloader;
use link_session::Session;
use std::alloc::Global;
use tach_media::{Medium, Sink};

/// Downloads a unit: the loader's side and the unit's run against each other until the download is finished. The
/// finished messages go to the sink, which then has the unit's file behind what it held, and the frames that pass to
/// the wire. The unit is read, and never written. The room for a message is taken before the first frame; behind that
/// memory is taken for the wire alone.
///
/// # Errors
///
/// `Failed` where the unit failed, and `BadUnit` with the place of the first field of its image, in order of places,
/// that fails: nothing has gone to the sink then. `Changed` where the unit gave no answer, or one that the loader
/// refuses, as no unit does that keeps what it tells. `WriteFault` where the sink failed, and `Memory`. A front of the
/// unit's file has gone to the sink.
pub fn download<K: Sink, U: Medium>(
    alloc: Global,
    sink: &mut K,
    unit: &mut U,
    wire: &mut Wire,
) -> Result<(), DownloadFault>
    requires unit { IsUnit (U.state unit.old) }
    requires fresh { wire.old ≡ [] }
    // The wire is a run of the tables of both sides, up to where the download ended; what they put out has gone to the
    // sink, which has the unit's file at the end, and else a front of it.
    ensures downloaded { IsDownloaded result (U.state unit.old).image wire.new (K.held sink.old) (K.held sink.new) }
    ensures faults { CountsFailures result (K.faults sink.old) (K.faults sink.new) }
    // The unit is only read, if it is called at all.
    ensures unit { ReadsIfAny (U.state unit.old) (U.state unit.new) (has_failed result) }
{
    let mut loader = Downloader::new(alloc);
    loader.reserve()?;
    exchange_all(&mut loader, sink, unit, wire)
}

/// Runs a loader that has room for the longest message, and has heard nothing yet, against a unit until the download is
/// finished. The finished messages go to the sink, and the frames that pass to a tape.
///
/// # Errors
///
/// Those of [`download`]; `Memory` where the tape has none, or at a piece of a message that is longer than the longest
/// of a unit.
pub fn exchange_all<K: Sink, U: Medium, T: Tape>(
    loader: &mut Downloader,
    sink: &mut K,
    unit: &mut U,
    wire: &mut T,
) -> Result<(), DownloadFault>
    requires unit { IsUnit (U.state unit.old) }
    requires begun { loader.old.loading ≡ begun }
    requires room { LONGEST ≤ loader.old.room }
    requires fresh { HasFrames (T.frames wire.old) [] }
    // The wire is a run of the tables of both sides, up to where the download ended; what they put out has gone to the
    // sink, which has the unit's file at the end, and else a front of it.
    ensures downloaded { (passed : List Passed) × HasFrames (T.frames wire.new) passed
        × IsDownloaded result (U.state unit.old).image passed (K.held sink.old) (K.held sink.new) }
    ensures faults { CountsFailures result (K.faults sink.old) (K.faults sink.new) }
    // The unit is only read, if it is called at all.
    ensures unit { ReadsIfAny (U.state unit.old) (U.state unit.new) (has_failed result) }
{
    U::holds_bytes(unit);
    let mut session = Session::new();
    while let Some(sent) = loader.next() {
        let frame = answer_to(&mut session, sent, unit, wire)?;
        take(loader, &frame, sink)?;
    }
    Ok(())
}
