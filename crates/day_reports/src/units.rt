//! The totals and the picture of a unit file.
ghost use Rattle.std.specs.Prelude.{◌≡◌, ◌<◌, ◌^◌, List, map, length, IfOk, IfErr};
ghost use Rattle.view_model.specs.Lines.{same_unit};
ghost use Rattle.file_view.specs.Faults.{IfBadFile};
ghost use Rattle.file_view.specs.Histories.{AreLines, minutes_on};
ghost use Rattle.file_view.specs.UnitFiles.{IsBadUnitFile};
ghost use Rattle.file_view.specs.UnitShowing.{ShowsUnitFile};
ghost use Rattle.day_reports.specs.Printing.{PrintsUnitTotals, PrintsUnitChart};

use file_view::{ViewFault, unit_history};
use std::alloc::Global;
use unit_marks::{entry_marks, marks_of};

/// The totals of a unit file, of all days or of the last so many messages of days.
///
/// # Errors
///
/// As those of `file_view::read_download`.
pub fn unit_totals(alloc: Global, b: &[u8], last: Option<u32>) -> Result<Vec<u8>, ViewFault>
    requires { length b.now < 2 ^ 32 }
    ensures text { IfOk result (λ text. PrintsUnitTotals last b.now text.items) }
    ensures bad { IfErr result (λ fault. IfBadFile fault (λ place. IsBadUnitFile place b.now)) }
{
    let history = unit_history(alloc, b, last)?;
    let marks = marks_of(alloc, b)?;
    let text = day_totals::unit_days_text(
        alloc,
        history.lines(),
        marks.gaps.as_slice(),
        marks.distances.as_slice(),
    )?;
    Ok(text)
}

/// The picture of a unit file, of all days or of the last so many messages of days.
///
/// # Errors
///
/// As those of `file_view::read_download`.
pub fn unit_chart(alloc: Global, b: &[u8], last: Option<u32>) -> Result<Vec<u8>, ViewFault>
    requires { length b.now < 2 ^ 32 }
    ensures text { IfOk result (λ text. PrintsUnitChart last b.now text.items) }
    ensures bad { IfErr result (λ fault. IfBadFile fault (λ place. IsBadUnitFile place b.now)) }
{
    let history = unit_history(alloc, b, last)?;
    let marks = marks_of(alloc, b)?;
    let entries = entry_marks(alloc, b)?;
    let gaps = marks.gaps.as_slice();
    let lines = history.lines();
    let totals = day_totals::unit_days_text(alloc, lines, gaps, marks.distances.as_slice())?;
    let text = day_chart::unit_chart(alloc, lines, gaps, entries.as_slice(), totals.as_slice())?;
    Ok(text)
}
