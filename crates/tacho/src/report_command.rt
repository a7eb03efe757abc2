//! What `totals`, `chart` and `speeds` print: the hours of each day of a unit file or of a card file, a picture of the
//! days, and the detailed speed of a unit file.
ghost use Rattle.std.specs.Prelude.{◌<◌, ◌^◌, IfOk, IfErr, length};
ghost use Rattle.file_view.specs.CardFiles.{IsBadCardFile};
ghost use Rattle.file_view.specs.UnitFiles.{IsBadUnitFile};
ghost use Rattle.day_reports.specs.Printing.{PrintsUnitTotals, PrintsCardTotals, PrintsUnitChart, PrintsCardChart};
ghost use Rattle.unit_speeds.specs.Text.{PrintsSpeeds};
ghost use Rattle.tacho.specs.View.{IsBadFile};
ghost use Rattle.tacho.specs.Reports.{PrintsTotals, PrintsChart};
ghost use Rattle.tacho.specs.Read.{IsUnshown};

use crate::end::Fault;
use crate::view_command::is_unit_file;
use day_reports::{card_chart, card_totals, unit_chart, unit_totals};
use std::alloc::Global;
use unit_speeds::speeds_text;

/// The totals of a file, of all its days or of the last so many.
///
/// # Errors
///
/// `BadFile` with the place where it is neither a unit file nor a card file, and `Memory`.
pub fn file_totals(alloc: Global, last: Option<u32>, b: &[u8]) -> Result<Vec<u8>, Fault>
    requires { length b.now < 2 ^ 32 }
    ensures text { IfOk result (λ text. PrintsTotals last b.now text.items) }
    ensures err { IfErr result (IsUnshown (λ place. IsBadFile place b.now)) }
{
    if is_unit_file(b) {
        return unit_totals_text(alloc, last, b);
    }
    card_totals_text(alloc, last, b)
}

/// The picture of a file, of all its days or of the last so many.
///
/// # Errors
///
/// `BadFile` with the place where it is neither a unit file nor a card file, and `Memory`.
pub fn file_chart(alloc: Global, last: Option<u32>, b: &[u8]) -> Result<Vec<u8>, Fault>
    requires { length b.now < 2 ^ 32 }
    ensures text { IfOk result (λ text. PrintsChart last b.now text.items) }
    ensures err { IfErr result (IsUnshown (λ place. IsBadFile place b.now)) }
{
    if is_unit_file(b) {
        return unit_chart_text(alloc, last, b);
    }
    card_chart_text(alloc, last, b)
}

/// The totals of a unit file.
fn unit_totals_text(alloc: Global, last: Option<u32>, b: &[u8]) -> Result<Vec<u8>, Fault>
    requires { length b.now < 2 ^ 32 }
    ensures text { IfOk result (λ text. PrintsUnitTotals last b.now text.items) }
    ensures err { IfErr result (IsUnshown (λ place. IsBadUnitFile place b.now)) }
{
    Ok(unit_totals(alloc, b, last)?)
}

/// The totals of a card file.
fn card_totals_text(alloc: Global, last: Option<u32>, b: &[u8]) -> Result<Vec<u8>, Fault>
    requires { length b.now < 2 ^ 32 }
    ensures text { IfOk result (λ text. PrintsCardTotals last b.now text.items) }
    ensures err { IfErr result (IsUnshown (λ place. IsBadCardFile place b.now)) }
{
    Ok(card_totals(alloc, b, last)?)
}

/// The picture of a unit file.
fn unit_chart_text(alloc: Global, last: Option<u32>, b: &[u8]) -> Result<Vec<u8>, Fault>
    requires { length b.now < 2 ^ 32 }
    ensures text { IfOk result (λ text. PrintsUnitChart last b.now text.items) }
    ensures err { IfErr result (IsUnshown (λ place. IsBadUnitFile place b.now)) }
{
    Ok(unit_chart(alloc, b, last)?)
}

/// The picture of a card file.
fn card_chart_text(alloc: Global, last: Option<u32>, b: &[u8]) -> Result<Vec<u8>, Fault>
    requires { length b.now < 2 ^ 32 }
    ensures text { IfOk result (λ text. PrintsCardChart last b.now text.items) }
    ensures err { IfErr result (IsUnshown (λ place. IsBadCardFile place b.now)) }
{
    Ok(card_chart(alloc, b, last)?)
}

/// The detailed speed of a unit file, in km/h, of all its minutes or of the last so many.
///
/// # Errors
///
/// `BadFile` with the place where it is no unit file, and `Memory`.
pub fn file_speeds(alloc: Global, last: Option<u32>, b: &[u8]) -> Result<Vec<u8>, Fault>
    requires { length b.now < 2 ^ 32 }
    ensures text { IfOk result (λ text. PrintsSpeeds last b.now text.items) }
    ensures err { IfErr result (IsUnshown (λ place. IsBadUnitFile place b.now)) }
{
    Ok(speeds_text(alloc, b, last)?)
}
