//! The frame of the picture: its size, its text, what it draws with, and its legend.
ghost use Rattle.std.specs.Prelude.{◌≡◌, ◌++◌, IfOk, OnOk, decimal};
ghost use Rattle.day_chart.specs.Frame.{frame_head, opening, box, titling, patterns, drive_sign, other_signs};
ghost use Rattle.day_chart.specs.Frame.{lane_signs, mark_signs, axis, hours, legend_bars, legend_rest, legend_marks};

use itoa::Buffer;
use std::alloc::{AllocError, Global};

/// How high a picture is without its bands: what stands above them, and the margin below.
pub const FRAME_HEIGHT: u128 = 80;

/// Where the first band begins, below the legend.
pub const FIRST_BAND: u128 = 66;

/// How high the band of a day of a unit is: two lanes, the marks and the axis.
pub const UNIT_BAND: u128 = 92;

/// How high the band of a day of a card is: one lane, the marks and the axis.
pub const CARD_BAND: u128 = 62;

/// Where 00:00 is drawn, in halves of a unit from the left: a minute is half a unit wide.
pub const DAY_BEGIN: u64 = 120;

/// What stands in front of the bands of a picture, so high, with the totals as its text.
pub(crate) fn frame_head(alloc: Global, height: u128, totals: &[u8]) -> Result<Vec<u8>, AllocError>
    ensures { IfOk result (λ text. text.items ≡ frame_head height totals.now) }
{
    let mut text = Vec::new(alloc);
    text.extend_from_slice(
        b"<svg xmlns:xlink=\"http://www.w3.org/1999/xlink\" xmlns=\"http://www.w3.org/2000/svg\" version=\"1.1\" width=\"988\" height=\"",
    )?;
    write_number(&mut text, height)?;
    text.extend_from_slice(b"\" viewBox=\"0 0 988 ")?;
    write_number(&mut text, height)?;
    text.extend_from_slice(
        b"\" role=\"img\" aria-labelledby=\"title about\" font-family=\"sans-serif\" font-size=\"11\">\n<title id=\"title\">Activities by days</title>\n<desc id=\"about\">",
    )?;
    text.extend_from_slice(totals)?;
    write_drawn(&mut text)?;
    Ok(text)
}

/// Adds what the bands draw with, and the legend.
fn write_drawn(text: &mut Vec<u8>) -> Result<(), AllocError>
    ensures { OnOk result (text.new.items ≡ text.old.items ++ patterns ++ drive_sign ++ other_signs ++ lane_signs
        ++ mark_signs ++ axis ++ hours ++ legend_bars ++ legend_rest ++ legend_marks) }
{
    text.extend_from_slice(
        b"</desc>\n<defs>\n<pattern id=\"available\" width=\"4\" height=\"4\" patternUnits=\"userSpaceOnUse\"><rect width=\"4\" height=\"4\" fill=\"#f0e442\"/><circle cx=\"2\" cy=\"2\" r=\"0.8\" fill=\"#000\"/></pattern>\n<pattern id=\"work\" width=\"4\" height=\"4\" patternUnits=\"userSpaceOnUse\" patternTransform=\"rotate(45)\"><rect width=\"4\" height=\"4\" fill=\"#e69f00\"/><rect width=\"1.2\" height=\"4\" fill=\"#000\"/></pattern>\n",
    )?;
    text.extend_from_slice(
        b"<g id=\"sign-drive\" fill=\"none\" stroke=\"#000\" stroke-width=\"1.4\"><circle cx=\"7\" cy=\"7\" r=\"5.5\"/><circle cx=\"7\" cy=\"7\" r=\"1.3\" fill=\"#000\"/><path d=\"M7 8.3V12.5M5.9 6.4L1.9 4.9M8.1 6.4L12.1 4.9\"/></g>\n",
    )?;
    text.extend_from_slice(
        b"<g id=\"sign-work\" fill=\"none\" stroke=\"#000\" stroke-width=\"1.4\"><path d=\"M3 12L10.2 4.8M11 12L3.8 4.8M8.4 3L12 6.6M5.6 3L2 6.6\"/></g>\n<g id=\"sign-available\" fill=\"none\" stroke=\"#000\" stroke-width=\"1.4\"><path d=\"M2 2H12V12H2ZM2 12L12 2\"/></g>\n<g id=\"sign-rest\" fill=\"none\" stroke=\"#000\" stroke-width=\"1.4\"><path d=\"M1.5 2.5V12M1.5 9.5H12.5M12.5 12V7.5H1.5M3 7.5V5.5H6V7.5\"/></g>\n",
    )?;
    text.extend_from_slice(
        b"<g id=\"signs\"><use xlink:href=\"#sign-drive\" transform=\"translate(788 13) scale(0.75)\"/><use xlink:href=\"#sign-work\" transform=\"translate(837 13) scale(0.75)\"/><use xlink:href=\"#sign-available\" transform=\"translate(886 13) scale(0.75)\"/><use xlink:href=\"#sign-rest\" transform=\"translate(935 13) scale(0.75)\"/></g>\n",
    )?;
    text.extend_from_slice(
        b"<g id=\"mark-begin\"><path d=\"M0 -4V28\" stroke=\"#000\" stroke-width=\"0.8\"/><path d=\"M0 -4L6 -1L0 2Z\"/></g>\n<g id=\"mark-end\"><path d=\"M0 -4V28\" stroke=\"#000\" stroke-width=\"0.8\"/><path d=\"M0 -4L-6 -1L0 2Z\"/></g>\n<path id=\"mark-event\" d=\"M0 28L3 31L0 34L-3 31Z\"/>\n<path id=\"mark-fault\" d=\"M-3 28L3 34M3 28L-3 34\" stroke=\"#000\" stroke-width=\"1.4\"/>\n<path id=\"mark-hand\" d=\"M-3 28H3V34H-3Z\" fill=\"none\" stroke=\"#000\" stroke-width=\"1.2\"/>\n",
    )?;
    text.extend_from_slice(
        b"<g id=\"axis\" text-anchor=\"middle\" font-size=\"8\"><path d=\"M60 28H780M60 28v6M90 28v3M120 28v3M150 28v3M180 28v3M210 28v3M240 28v6M270 28v3M300 28v3M330 28v3M360 28v3M390 28v3M420 28v6M450 28v3M480 28v3M510 28v3M540 28v3M570 28v3M600 28v6M630 28v3M660 28v3M690 28v3M720 28v3M750 28v3M780 28v6\" stroke=\"#000\" stroke-width=\"0.6\" fill=\"none\"/>\n",
    )?;
    text.extend_from_slice(
        b"<text x=\"60\" y=\"42\">00</text><text x=\"150\" y=\"42\">03</text><text x=\"240\" y=\"42\">06</text><text x=\"330\" y=\"42\">09</text><text x=\"420\" y=\"42\">12</text><text x=\"510\" y=\"42\">15</text><text x=\"600\" y=\"42\">18</text><text x=\"690\" y=\"42\">21</text><text x=\"780\" y=\"42\">24</text></g>\n</defs>\n<rect width=\"988\" height=\"100%\" fill=\"#fff\"/>\n",
    )?;
    text.extend_from_slice(
        b"<rect x=\"60\" y=\"16\" width=\"20\" height=\"24\" fill=\"#0072b2\" stroke=\"#000\" stroke-width=\"0.6\"/><use xlink:href=\"#sign-drive\" x=\"84\" y=\"27\"/><text x=\"102\" y=\"38\">drive</text>\n<rect x=\"168\" y=\"22\" width=\"20\" height=\"18\" fill=\"url(#work)\" stroke=\"#000\" stroke-width=\"0.6\"/><use xlink:href=\"#sign-work\" x=\"192\" y=\"27\"/><text x=\"210\" y=\"38\">work</text>\n<rect x=\"276\" y=\"28\" width=\"20\" height=\"12\" fill=\"url(#available)\" stroke=\"#000\" stroke-width=\"0.6\"/><use xlink:href=\"#sign-available\" x=\"300\" y=\"27\"/><text x=\"318\" y=\"38\">available</text>\n",
    )?;
    text.extend_from_slice(
        b"<rect x=\"384\" y=\"34\" width=\"20\" height=\"6\" fill=\"#fff\" stroke=\"#000\" stroke-width=\"0.6\"/><use xlink:href=\"#sign-rest\" x=\"408\" y=\"27\"/><text x=\"426\" y=\"38\">rest</text>\n<rect x=\"492\" y=\"28\" width=\"20\" height=\"12\" fill=\"none\" stroke=\"#777\" stroke-width=\"0.6\" stroke-dasharray=\"2 2\"/><text x=\"518\" y=\"38\">no card</text>\n<rect x=\"600\" y=\"16\" width=\"20\" height=\"24\" fill=\"#ddd\"/><text x=\"626\" y=\"38\">unknown</text>\n",
    )?;
    text.extend_from_slice(
        b"<use xlink:href=\"#mark-begin\" x=\"690\" y=\"12\"/><text x=\"699\" y=\"38\">work begins</text>\n<use xlink:href=\"#mark-end\" x=\"778\" y=\"12\"/><text x=\"782\" y=\"38\">ends</text>\n<use xlink:href=\"#mark-event\" x=\"822\" y=\"3\"/><text x=\"829\" y=\"38\">event</text>\n<use xlink:href=\"#mark-fault\" x=\"874\" y=\"3\"/><text x=\"881\" y=\"38\">fault</text>\n<use xlink:href=\"#mark-hand\" x=\"920\" y=\"3\"/><text x=\"927\" y=\"38\">by hand</text>\n",
    )?;
    Ok(())
}

/// Adds a number.
pub(crate) fn write_number(text: &mut Vec<u8>, number: u128) -> Result<(), AllocError>
    ensures { OnOk result (text.new.items ≡ text.old.items ++ decimal number) }
{
    let mut digits = Buffer::new();
    let number = digits.format(number);
    text.extend_from_slice(number.as_bytes())?;
    Ok(())
}
