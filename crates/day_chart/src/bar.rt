//! A bar of the picture.
ghost use Rattle.std.specs.Prelude.{◌≡◌, ◌≤◌, ◌<◌, ◌+◌, ◌-◌, ◌++◌, true, OnOk};
ghost use Rattle.slot_bars.specs.Seeing.{seen_words};
ghost use Rattle.file_view.specs.Runs.{is_run};
ghost use Rattle.day_chart.specs.Bars.{point_five, half_text, look, bold, pale, bar_text, title_text};

use crate::frame::DAY_BEGIN;
use activity_codec::{Activity, DAY_MINUTES};
use itoa::Buffer;
use slot_bars::Seen;
use std::alloc::AllocError;
use view_model::Line;
use view_text::{Shown, write_clock};

/// How a bar looks: its height by the activity, its fill too; pale and dashed without a card, and grey where it is
/// unknown.
fn look(seen: Seen) -> &'static [u8]
    ensures { result.now ≡ look seen }
{
    if !seen.known {
        return b" y=\"2\" height=\"24\" fill=\"#ddd\"";
    }
    if !seen.present {
        return pale(seen.act);
    }
    bold(seen.act)
}

/// How a bar looks with a card.
fn bold(act: Activity) -> &'static [u8]
    ensures { result.now ≡ bold act }
{
    match act {
        Activity::Driving => {
            b" y=\"2\" height=\"24\" fill=\"#0072b2\" stroke=\"#000\" stroke-width=\"0.6\""
        }
        Activity::Work => {
            b" y=\"8\" height=\"18\" fill=\"url(#work)\" stroke=\"#000\" stroke-width=\"0.6\""
        }
        Activity::Available => {
            b" y=\"14\" height=\"12\" fill=\"url(#available)\" stroke=\"#000\" stroke-width=\"0.6\""
        }
        Activity::Rest => {
            b" y=\"20\" height=\"6\" fill=\"#fff\" stroke=\"#000\" stroke-width=\"0.6\""
        }
    }
}

/// How a bar looks without a card.
fn pale(act: Activity) -> &'static [u8]
    ensures { result.now ≡ pale act }
{
    match act {
        Activity::Driving => {
            b" y=\"2\" height=\"24\" fill=\"none\" stroke=\"#777\" stroke-width=\"0.6\" stroke-dasharray=\"2 2\""
        }
        Activity::Work => {
            b" y=\"8\" height=\"18\" fill=\"none\" stroke=\"#777\" stroke-width=\"0.6\" stroke-dasharray=\"2 2\""
        }
        Activity::Available => {
            b" y=\"14\" height=\"12\" fill=\"none\" stroke=\"#777\" stroke-width=\"0.6\" stroke-dasharray=\"2 2\""
        }
        Activity::Rest => {
            b" y=\"20\" height=\"6\" fill=\"none\" stroke=\"#777\" stroke-width=\"0.6\" stroke-dasharray=\"2 2\""
        }
    }
}

/// Adds the half of a number.
pub(crate) fn write_half(text: &mut Vec<u8>, number: u64) -> Result<(), AllocError>
    ensures { OnOk result (text.new.items ≡ text.old.items ++ half_text number) }
{
    let mut digits = Buffer::new();
    let whole = digits.format(number / 2);
    text.extend_from_slice(whole.as_bytes())?;
    text.extend_from_slice(point_five(number))?;
    Ok(())
}

/// What stands behind the whole half of a number.
fn point_five(number: u64) -> &'static [u8]
    ensures { result.now ≡ point_five number }
{
    if number % 2 == 1 { b".5" } else { b"" }
}

/// Adds what a bar says: its date, its first and its last minute, the slot, and what is seen in it.
fn write_title(
    text: &mut Vec<u8>,
    date: &[u8],
    name: &[u8],
    bar: Line<Seen>,
) -> Result<(), AllocError>
    ensures { OnOk result (text.new.items ≡ text.old.items ++ title_text date.now name.now bar) }
{
    text.extend_from_slice(date)?;
    text.extend_from_slice(b" ")?;
    write_clock(text, bar.first)?;
    text.extend_from_slice(b"-")?;
    write_clock(text, bar.last)?;
    text.extend_from_slice(b" ")?;
    text.extend_from_slice(name)?;
    text.extend_from_slice(b" ")?;
    bar.shown.write(text)?;
    Ok(())
}

/// How many minutes a bar has.
fn width(bar: Line<Seen>) -> u64
    ensures { result ≡ bar.last + 1 - bar.first }
{
    (bar.last as u64 + 1).saturating_sub(bar.first as u64)
}

/// Adds a bar.
pub(crate) fn write_bar(
    text: &mut Vec<u8>,
    date: &[u8],
    name: &[u8],
    bar: Line<Seen>,
) -> Result<(), AllocError>
    ensures { OnOk result (text.new.items ≡ text.old.items ++ bar_text date.now name.now bar) }
{
    text.extend_from_slice(b"<rect x=\"")?;
    write_half(text, DAY_BEGIN + (bar.first % DAY_MINUTES) as u64)?;
    text.extend_from_slice(b"\" width=\"")?;
    write_half(text, width(bar))?;
    text.extend_from_slice(b"\"")?;
    text.extend_from_slice(look(bar.shown))?;
    text.extend_from_slice(b"><title>")?;
    write_title(text, date, name, bar)?;
    text.extend_from_slice(b"</title></rect>\n")?;
    Ok(())
}
