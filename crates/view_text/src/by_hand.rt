//! The text of entries by hand.
ghost use Rattle.std.specs.Prelude.{◌≡◌, ◌<◌, IfOk, OnOk};
ghost use Rattle.std.specs.List.{AllByRecursion};
ghost use Rattle.view_model.specs.Lines.{day_of_minute};
ghost use Rattle.view_text.specs.ByHand.{IsByHandView, AddsByHand};

use crate::text::{write_clock, write_day};
use activity_codec::{DAY_MINUTES, Manual};
use std::alloc::{AllocError, Global};
use tacho_types::DAYS;

/// The view text of entries by hand: a line for each, in their order.
///
/// # Errors
///
/// `AllocError` where memory runs out.
pub fn by_hand_text(alloc: Global, entries: &[Manual]) -> Result<Vec<u8>, AllocError>
    requires { AllByRecursion (λ e. day_of_minute e.minute < DAYS) entries.now }
    ensures { IfOk result (λ text. IsByHandView entries.now text.items) }
{
    let mut text = Vec::new(alloc);
    for entry in entries {
        write_entry(&mut text, entry)?;
    }
    Ok(text)
}

/// One more line.
fn write_entry(text: &mut Vec<u8>, entry: &Manual) -> Result<(), AllocError>
    requires { day_of_minute entry.now.minute < DAYS }
    ensures { OnOk result (AddsByHand text.old.items text.new.items entry.now) }
{
    write_day(text, entry.minute / DAY_MINUTES)?;
    text.extend_from_slice(b" ")?;
    write_clock(text, entry.minute)?;
    text.extend_from_slice(b" ")?;
    text.extend_from_slice(entry.slot.name())?;
    text.extend_from_slice(b"=")?;
    text.extend_from_slice(entry.act.name())?;
    text.extend_from_slice(b" by hand\n")?;
    Ok(())
}
