//! Reports that are told, a line each.
ghost use Rattle.std.specs.Prelude.{◌≡◌, [], ◌∷◌, List, drop, map, OnOk, OnErr};
ghost use Rattle.tach_media.specs.Streams.{CountsFaults};
ghost use Rattle.live_telling.specs.Telling.{clocks_of};
ghost use Rattle.live_lines.specs.declared.report.Report.{Report as Each};
ghost use Rattle.live_lines.specs.declared.report.Report.TheVariants.{Refused as OfRefused, Found as OfFound};
ghost use Rattle.live_lines.specs.declared.report.Report.TheVariants.{Acknowledged as OfMark, Broken as OfBreak};
ghost use Rattle.live_lines.specs.Reports.{TellsReports, TellsFirst};

use crate::report::{Report, report_line};
use live_telling::{Teller, put_line};
use log_model::{Break, Find, Mark, Refused};
use run_outcome::Lines;
use tach_media::{Chip, Failed, Medium};

/// Tells a report by a line, beside devices that stand so.
///
/// # Errors
///
/// `Failed` where a write failed; a front of the line was told then.
pub fn tell<K: Teller<U, C>, U: Medium, C: Chip>(
    sink: &mut K,
    report: Report,
    unit: &U,
    card_a: &C,
    card_b: &C,
) -> Result<(), Failed>
    ensures told { OnOk result (TellsReports (report ∷ [])
        (clocks_of (U.state unit.now) (C.state card_a.now) (C.state card_b.now)) (K.held sink.old) (K.held sink.new)
        (K.told sink.old) (K.told sink.new)) }
    ensures begun { OnErr result (TellsFirst (report ∷ [])
        (clocks_of (U.state unit.now) (C.state card_a.now) (C.state card_b.now)) (K.held sink.old) (K.held sink.new)
        (K.told sink.old) (K.told sink.new)) }
    ensures cause { CountsFaults (K.faults sink.old) (K.faults sink.new) result }
{
    let line = report_line(report);
    put_line(sink, line.as_slice(), unit, card_a, card_b)
}

/// A line of an outcome, which is told by a report.
pub trait Told: Copy {
    ghost report_of: { Self → Each };

    /// Its report.
    fn report(self) -> Report
        ensures { result ≡ report_of self };
}

impl Told for Refused {
    ghost report_of = { OfRefused };

    fn report(self) -> Report {
        Report::Refused(self)
    }
}

impl Told for Find {
    ghost report_of = { OfFound };

    fn report(self) -> Report {
        Report::Found(self)
    }
}

impl Told for Mark {
    ghost report_of = { OfMark };

    fn report(self) -> Report {
        Report::Acknowledged(self)
    }
}

impl Told for Break {
    ghost report_of = { OfBreak };

    fn report(self) -> Report {
        Report::Broken(self)
    }
}

/// Tells the lines of a list from an index on.
///
/// # Errors
///
/// As `tell`: the first of them were told, and a front of the next one.
pub fn tell_from<T: Told, K: Teller<U, C>, U: Medium, C: Chip>(
    sink: &mut K,
    lines: &Lines<T>,
    from: usize,
    unit: &U,
    card_a: &C,
    card_b: &C,
) -> Result<(), Failed>
    ensures told { OnOk result (TellsReports (map T.report_of (drop from lines.now.items))
        (clocks_of (U.state unit.now) (C.state card_a.now) (C.state card_b.now)) (K.held sink.old) (K.held sink.new)
        (K.told sink.old) (K.told sink.new)) }
    ensures begun { OnErr result (TellsFirst (map T.report_of (drop from lines.now.items))
        (clocks_of (U.state unit.now) (C.state card_a.now) (C.state card_b.now)) (K.held sink.old) (K.held sink.new)
        (K.told sink.old) (K.told sink.new)) }
    ensures cause { CountsFaults (K.faults sink.old) (K.faults sink.new) result }
{
    for i in from..lines.len() {
        let report = (*lines.get(i)).report();
        tell(sink, report, unit, card_a, card_b)?;
    }
    Ok(())
}
