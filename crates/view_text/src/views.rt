//! The view texts of a unit's minutes and of a card's entries.
ghost use Rattle.std.specs.Prelude.{◌≡◌, ◌<◌, IfOk, map};
ghost use Rattle.std.specs.List.{AllByRecursion};
ghost use Rattle.view_model.specs.Lines.{lines_of, day_of_minute, same_unit, same_card};
ghost use Rattle.view_text.specs.Text.{IsUnitView, IsCardView};
ghost use Rattle.view_text.specs.Entries.{entry_shown};

use crate::lines::add_minute;
use crate::text::lines_text;
use activity_codec::Entry;
use std::alloc::{AllocError, Global};
use tacho_types::DAYS;
use view_model::{CardShown, Line, UnitShown, Viewed};

/// The view text of a unit's minutes.
///
/// # Errors
///
/// `AllocError` where memory runs out.
pub fn unit_text(alloc: Global, minutes: &[Viewed<UnitShown>]) -> Result<Vec<u8>, AllocError>
    requires { AllByRecursion (λ m. day_of_minute m.minute < DAYS) minutes.now }
    ensures { IfOk result (λ text. IsUnitView minutes.now text.items) }
{
    let lines = unit_lines(alloc, minutes)?;
    lines_text(alloc, lines.as_slice())
}

/// The view text of a card's entries.
///
/// # Errors
///
/// `AllocError` where memory runs out.
pub fn card_text(alloc: Global, entries: &[Entry]) -> Result<Vec<u8>, AllocError>
    requires { AllByRecursion (λ e. day_of_minute e.minute < DAYS) entries.now }
    ensures { IfOk result (λ text. IsCardView (map entry_shown entries.now) text.items) }
{
    let lines = card_lines(alloc, entries)?;
    lines_text(alloc, lines.as_slice())
}

/// The lines of a unit's minutes.
fn unit_lines(
    alloc: Global,
    minutes: &[Viewed<UnitShown>],
) -> Result<Vec<Line<UnitShown>>, AllocError>
    ensures { IfOk result (λ lines. lines.items ≡ lines_of same_unit minutes.now) }
{
    let mut lines = Vec::new(alloc);
    for minute in minutes {
        add_minute(&mut lines, *minute)?;
    }
    Ok(lines)
}

/// The lines of a card's entries.
fn card_lines(alloc: Global, entries: &[Entry]) -> Result<Vec<Line<CardShown>>, AllocError>
    ensures { IfOk result (λ lines. lines.items ≡ lines_of same_card (map entry_shown entries.now)) }
{
    let mut lines = Vec::new(alloc);
    for entry in entries {
        add_minute(&mut lines, viewed(*entry))?;
    }
    Ok(lines)
}

/// What a card shows of an entry.
fn viewed(entry: Entry) -> Viewed<CardShown>
    ensures { result ≡ entry_shown entry }
{
    Viewed {
        minute: entry.minute,
        shown: CardShown {
            slot: entry.slot,
            act: entry.act,
            crew: entry.crew,
        },
    }
}
