//! A line that is told whole.
ghost use Rattle.std.specs.Prelude.{List, OnOk, OnErr};
ghost use Rattle.std.specs.Io.KnownBytes.{Appends};
ghost use Rattle.tach_media.specs.Streams.{CountsFaults, AppendsFront};
ghost use Rattle.live_telling.specs.Telling.{Clocks, Telling, TellsMore, HaveComeTo, IsTold, IsBegun, clocks_of};

use crate::Teller;
use tach_media::{Chip, Failed, Medium};

/// Tells a line whole, beside devices that stand so.
///
/// # Errors
///
/// `Failed` where a write failed; a front of the line was told then.
pub fn put_line<K: Teller<U, C>, U: Medium, C: Chip>(
    sink: &mut K,
    line: &[u8],
    unit: &U,
    card_a: &C,
    card_b: &C,
) -> Result<(), Failed>
    ensures ok { OnOk result (Appends (K.held sink.old) (K.held sink.new) line.now) }
    ensures err { OnErr result (AppendsFront (K.held sink.old) (K.held sink.new) line.now) }
    ensures cause { CountsFaults (K.faults sink.old) (K.faults sink.new) result }
    // It tells any line of this text whose clocks the devices have come to.
    ensures told { (since : Clocks)
        → HaveComeTo since (clocks_of (U.state unit.now) (C.state card_a.now) (C.state card_b.now))
        → OnOk result ((tells : List Telling) × TellsMore (K.told sink.old) (K.told sink.new) tells
        × IsTold (record { text = line.now; since = since }) tells) }
    ensures begun { (since : Clocks)
        → HaveComeTo since (clocks_of (U.state unit.now) (C.state card_a.now) (C.state card_b.now))
        → OnErr result ((tells : List Telling) × TellsMore (K.told sink.old) (K.told sink.new) tells
        × IsBegun (record { text = line.now; since = since }) tells) }
{
    let mut done = 0usize;
    while done < line.len() {
        done += sink.write_beside(&line[done..], unit, card_a, card_b)?;
    }
    Ok(())
}
