//! The band of a day: its lanes, and its axis.
ghost use Rattle.std.specs.Prelude.{◌≡◌, ◌≤◌, ◌++◌, OnOk, List, length};
ghost use Rattle.view_model.specs.declared.Viewed.{Viewed as ViewedMinute};
ghost use Rattle.slot_bars.specs.declared.seen.Seen.{Seen as MinuteSeen};
ghost use Rattle.slot_bars.specs.Seeing.{bars_of};
ghost use Rattle.file_view.specs.Histories.{minutes_on};
ghost use Rattle.day_chart.specs.Bars.{bars_text};
ghost use Rattle.day_chart.specs.Chart.{sums_text, lane_text, band_head};

use crate::bar::write_bar;
use crate::frame::write_number;
use day_totals::{Figure, minutes_in, write_duration};
use slot_bars::Seen;
use std::alloc::AllocError;
use view_model::Line;

/// Adds what stands in front of the lanes of a band: its place, and its date.
pub(crate) fn write_band_head(text: &mut Vec<u8>, top: u128, date: &[u8]) -> Result<(), AllocError>
    ensures { OnOk result (text.new.items ≡ text.old.items ++ band_head top date.now) }
{
    text.extend_from_slice(b"<g transform=\"translate(0 ")?;
    write_number(text, top)?;
    text.extend_from_slice(b")\"><text x=\"60\" y=\"-3\" font-weight=\"bold\" font-size=\"10\">")?;
    text.extend_from_slice(date)?;
    text.extend_from_slice(b"</text>\n")?;
    Ok(())
}

/// Adds a lane: the slot's name, its bars, and the totals of its minutes with a card.
pub(crate) fn write_lane(
    text: &mut Vec<u8>,
    date: &[u8],
    name: &[u8],
    bars: &[Line<Seen>],
) -> Result<(), AllocError>
    requires { length (minutes_on bars.now) ≤ 1440 }
    ensures { (minutes : List (ViewedMinute MinuteSeen)) → bars.now ≡ bars_of minutes
        → OnOk result (text.new.items ≡ text.old.items ++ lane_text date.now name.now minutes) }
{
    text.extend_from_slice(b"<text x=\"54\" y=\"24\" text-anchor=\"end\" font-size=\"9\">")?;
    text.extend_from_slice(name)?;
    text.extend_from_slice(b"</text>\n")?;
    write_bars(text, date, name, bars)?;
    write_sums(text, bars)?;
    Ok(())
}

/// Adds the totals of the minutes of bars.
fn write_sums(text: &mut Vec<u8>, bars: &[Line<Seen>]) -> Result<(), AllocError>
    requires { length (minutes_on bars.now) ≤ 1440 }
    ensures { OnOk result (text.new.items ≡ text.old.items ++ sums_text (minutes_on bars.now)) }
{
    text.extend_from_slice(
        b"<use xlink:href=\"#signs\"/><text x=\"800\" y=\"23\" font-size=\"9\">",
    )?;
    write_duration(text, minutes_in(bars, Figure::Drive))?;
    text.extend_from_slice(b"</text><text x=\"849\" y=\"23\" font-size=\"9\">")?;
    write_duration(text, minutes_in(bars, Figure::Work))?;
    text.extend_from_slice(b"</text><text x=\"898\" y=\"23\" font-size=\"9\">")?;
    write_duration(text, minutes_in(bars, Figure::Available))?;
    text.extend_from_slice(b"</text><text x=\"947\" y=\"23\" font-size=\"9\">")?;
    write_duration(text, minutes_in(bars, Figure::Rest))?;
    text.extend_from_slice(b"</text>\n")?;
    Ok(())
}

/// Adds bars, one after the other.
fn write_bars(
    text: &mut Vec<u8>,
    date: &[u8],
    name: &[u8],
    bars: &[Line<Seen>],
) -> Result<(), AllocError>
    ensures { OnOk result (text.new.items ≡ text.old.items ++ bars_text date.now name.now bars.now) }
{
    for bar in bars {
        write_bar(text, date, name, *bar)?;
    }
    Ok(())
}
