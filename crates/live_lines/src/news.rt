//! What an outcome tells more than was printed of it.
ghost use Rattle.std.specs.Prelude.{OnOk, OnErr};
ghost use Rattle.tach_media.specs.Streams.{CountsFaults};
ghost use Rattle.live_telling.specs.Telling.{clocks_of};
ghost use Rattle.live_lines.specs.Reports.{TellsReports, TellsFirst, IsPrinted, news_behind};

use crate::telling::tell_from;
use live_telling::Teller;
use run_outcome::Outcome;
use tach_media::{Chip, Failed, Medium};

/// How many lines of each list of an outcome were printed.
#[derive(Clone, Copy, Debug)]
pub struct Printed {
    pub refused: usize,
    pub finds: usize,
    pub marks: usize,
    pub breaks: usize,
}

/// Tells what an outcome tells more than was printed, beside devices that stand so.
///
/// # Errors
///
/// `Failed` where a write failed: the first of it was told, and a front of the next line.
pub fn tell_news<K: Teller<U, C>, U: Medium, C: Chip>(
    printed: &mut Printed,
    outcome: &Outcome,
    sink: &mut K,
    unit: &U,
    card_a: &C,
    card_b: &C,
) -> Result<(), Failed>
    ensures told { OnOk result (TellsReports (news_behind printed.old outcome.now)
        (clocks_of (U.state unit.now) (C.state card_a.now) (C.state card_b.now)) (K.held sink.old) (K.held sink.new)
        (K.told sink.old) (K.told sink.new)) }
    ensures begun { OnErr result (TellsFirst (news_behind printed.old outcome.now)
        (clocks_of (U.state unit.now) (C.state card_a.now) (C.state card_b.now)) (K.held sink.old) (K.held sink.new)
        (K.told sink.old) (K.told sink.new)) }
    ensures printed { OnOk result (IsPrinted printed.new outcome.now) }
    ensures cause { CountsFaults (K.faults sink.old) (K.faults sink.new) result }
{
    tell_from(
        sink,
        &outcome.refused,
        printed.refused,
        unit,
        card_a,
        card_b,
    )?;
    tell_from(sink, &outcome.finds, printed.finds, unit, card_a, card_b)?;
    tell_from(sink, &outcome.marks, printed.marks, unit, card_a, card_b)?;
    tell_from(sink, &outcome.breaks, printed.breaks, unit, card_a, card_b)?;
    *printed = Printed {
        refused: outcome.refused.len(),
        finds: outcome.finds.len(),
        marks: outcome.marks.len(),
        breaks: outcome.breaks.len(),
    };
    Ok(())
}
