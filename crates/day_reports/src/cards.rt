//! The totals and the picture of a card file.
ghost use Rattle.std.specs.Prelude.{◌≡◌, ◌<◌, ◌^◌, List, map, length, IfOk, IfErr};
ghost use Rattle.file_view.specs.Faults.{IfBadFile};
ghost use Rattle.file_view.specs.CardFiles.{IsBadCardFile};
ghost use Rattle.file_view.specs.Showing.{ShowsCardFile};
ghost use Rattle.day_reports.specs.Printing.{PrintsCardTotals, PrintsCardChart, TellsDistances};

use crate::distances::card_distances;
use crate::hands::add_hands;
use file_view::{ViewFault, by_hand, card_history};
use std::alloc::Global;
use unit_marks::card_marks;

/// The totals of a card file, of all days or of the newest so many.
///
/// # Errors
///
/// As those of `file_view::read_card_file`.
pub fn card_totals(alloc: Global, b: &[u8], last: Option<u32>) -> Result<Vec<u8>, ViewFault>
    requires { length b.now < 2 ^ 32 }
    ensures text { IfOk result (λ text. PrintsCardTotals last b.now text.items) }
    ensures bad { IfErr result (λ fault. IfBadFile fault (λ place. IsBadCardFile place b.now)) }
{
    let history = card_history(alloc, b, last)?;
    let distances = card_distances(alloc, b)?;
    let text = day_totals::card_days_text(alloc, history.lines(), distances.as_slice())?;
    Ok(text)
}

/// The picture of a card file, of all days or of the newest so many.
///
/// # Errors
///
/// As those of `file_view::read_card_file`.
pub fn card_chart(alloc: Global, b: &[u8], last: Option<u32>) -> Result<Vec<u8>, ViewFault>
    requires { length b.now < 2 ^ 32 }
    ensures text { IfOk result (λ text. PrintsCardChart last b.now text.items) }
    ensures bad { IfErr result (λ fault. IfBadFile fault (λ place. IsBadCardFile place b.now)) }
{
    let history = card_history(alloc, b, last)?;
    let distances = card_distances(alloc, b)?;
    let mut marks = card_marks(alloc, b)?;
    let entries = by_hand(alloc, b)?;
    add_hands(&mut marks, entries.as_slice())?;
    let lines = history.lines();
    let totals = day_totals::card_days_text(alloc, lines, distances.as_slice())?;
    let text = day_chart::card_chart(alloc, lines, marks.as_slice(), totals.as_slice())?;
    Ok(text)
}
