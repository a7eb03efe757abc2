//! The line of totals of a day.
ghost use Rattle.std.specs.Prelude.{◌≡◌, ◌≤◌, ◌++◌, OnOk, length};
ghost use Rattle.calendar_days.specs.Clock.{duration_text};
ghost use Rattle.file_view.specs.Histories.{minutes_on};
ghost use Rattle.day_totals.specs.Text.{figure_text, distance_text, totals_text};

use crate::figures::{Figure, minutes_in};
use calendar_days::duration_text;
use itoa::Buffer;
use slot_bars::Seen;
use std::alloc::AllocError;
use view_model::Line;

/// Adds the line of a day, by the bars of a slot.
pub(crate) fn write_totals(
    text: &mut Vec<u8>,
    date: &[u8],
    name: &[u8],
    bars: &[Line<Seen>],
    km: Option<u32>,
) -> Result<(), AllocError>
    requires { length (minutes_on bars.now) ≤ 1440 }
    ensures { OnOk result (text.new.items ≡ text.old.items ++ date.now
        ++ totals_text name.now (minutes_on bars.now) km) }
{
    text.extend_from_slice(date)?;
    text.extend_from_slice(b" ")?;
    text.extend_from_slice(name)?;
    write_figure(text, bars, Figure::Drive)?;
    write_figure(text, bars, Figure::Work)?;
    write_figure(text, bars, Figure::Available)?;
    write_figure(text, bars, Figure::Rest)?;
    write_figure(text, bars, Figure::Unknown)?;
    write_figure(text, bars, Figure::In)?;
    write_distance(text, km)?;
    Ok(())
}

/// Adds a figure.
fn write_figure(text: &mut Vec<u8>, bars: &[Line<Seen>], figure: Figure) -> Result<(), AllocError>
    requires { length (minutes_on bars.now) ≤ 1440 }
    ensures { OnOk result (text.new.items ≡ text.old.items ++ figure_text figure (minutes_on bars.now)) }
{
    let minutes = minutes_in(bars, figure);
    text.extend_from_slice(b" ")?;
    text.extend_from_slice(figure.name())?;
    text.extend_from_slice(b" ")?;
    write_duration(text, minutes)?;
    Ok(())
}

/// Adds so many minutes of a day, at most 1440, as hours and minutes, `HH:MM`.
///
/// # Errors
///
/// `AllocError` where memory runs out.
pub fn write_duration(text: &mut Vec<u8>, minutes: u32) -> Result<(), AllocError>
    requires { minutes ≤ 1440 }
    ensures { OnOk result (text.new.items ≡ text.old.items ++ duration_text minutes) }
{
    text.extend_from_slice(&duration_text(minutes))?;
    Ok(())
}

/// Adds the distance, and the end of the line.
fn write_distance(text: &mut Vec<u8>, km: Option<u32>) -> Result<(), AllocError>
    ensures { OnOk result (text.new.items ≡ text.old.items ++ distance_text km) }
{
    let Some(km) = km else {
        text.extend_from_slice(b" km -\n")?;
        return Ok(());
    };
    let mut digits = Buffer::new();
    let number = digits.format(km);
    text.extend_from_slice(b" km ")?;
    text.extend_from_slice(number.as_bytes())?;
    text.extend_from_slice(b"\n")?;
    Ok(())
}
