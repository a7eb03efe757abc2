//! A mark of the picture: a place that was entered, an event, a fault or an entry by hand.
ghost use Rattle.std.specs.Prelude.{◌≡◌, ◌++◌, IfOk, OnOk};
ghost use Rattle.std.specs.List.Sorted.{IsNonDecreasingBy};
ghost use Rattle.day_chart.specs.Marks.{sign_name, mark_words, code_text, mark_title, mark_text};
ghost use Rattle.day_chart.specs.Marks.{day_mark_text, marks_text, mark_day, marks_of_day, AreSameMarks};

use crate::bar::write_half;
use crate::frame::{DAY_BEGIN, write_number};
use activity_codec::{DAY_MINUTES, DAY_SECONDS, MINUTE_SECONDS};
use std::alloc::{AllocError, Global};
use text_fields::byte_digits;
use view_model::{Mark, Sign};
use view_text::write_clock;

/// The sign's name in the picture.
fn sign_name(sign: Sign) -> &'static [u8]
    ensures { result.now ≡ sign_name sign }
{
    match sign {
        Sign::Begin => b"begin",
        Sign::End => b"end",
        Sign::Event => b"event",
        Sign::Fault => b"fault",
        Sign::ByHand(_act) => b"hand",
    }
}

/// What a mark says in front of its code.
fn mark_words(sign: Sign) -> &'static [u8]
    ensures { result.now ≡ mark_words sign }
{
    match sign {
        Sign::Begin => b" work period begins, country ",
        Sign::End => b" work period ends, country ",
        Sign::Event => b" event ",
        Sign::Fault => b" fault ",
        Sign::ByHand(_act) => b" by hand ",
    }
}

/// Adds the code of a mark: of a place as a number, of an event or a fault as the regulation writes it, in two
/// hexadecimal digits; of an entry by hand the activity.
fn write_code(text: &mut Vec<u8>, sign: Sign, code: u8) -> Result<(), AllocError>
    ensures { OnOk result (text.new.items ≡ text.old.items ++ code_text sign code) }
{
    match sign {
        Sign::Begin => write_number(text, code as u128),
        Sign::End => write_number(text, code as u128),
        Sign::Event => text.extend_from_slice(&byte_digits(code)),
        Sign::Fault => text.extend_from_slice(&byte_digits(code)),
        Sign::ByHand(act) => text.extend_from_slice(act.name()),
    }
}

/// Adds what a mark says.
fn write_mark_title(text: &mut Vec<u8>, date: &[u8], mark: Mark) -> Result<(), AllocError>
    ensures { OnOk result (text.new.items ≡ text.old.items ++ mark_title date.now mark) }
{
    text.extend_from_slice(date)?;
    text.extend_from_slice(b" ")?;
    write_clock(text, mark.second / MINUTE_SECONDS)?;
    text.extend_from_slice(mark_words(mark.sign))?;
    write_code(text, mark.sign, mark.code)?;
    Ok(())
}

/// Adds a mark.
fn write_mark(text: &mut Vec<u8>, date: &[u8], mark: Mark) -> Result<(), AllocError>
    ensures { OnOk result (text.new.items ≡ text.old.items ++ mark_text date.now mark) }
{
    text.extend_from_slice(b"<use xlink:href=\"#mark-")?;
    text.extend_from_slice(sign_name(mark.sign))?;
    text.extend_from_slice(b"\" x=\"")?;
    write_half(
        text,
        DAY_BEGIN + (mark.second / MINUTE_SECONDS % DAY_MINUTES) as u64,
    )?;
    text.extend_from_slice(b"\"><title>")?;
    write_mark_title(text, date, mark)?;
    text.extend_from_slice(b"</title></use>\n")?;
    Ok(())
}

/// Adds a mark where it lies on this day.
fn write_day_mark(text: &mut Vec<u8>, date: &[u8], day: u32, mark: Mark) -> Result<(), AllocError>
    ensures { OnOk result (text.new.items ≡ text.old.items ++ day_mark_text date.now day mark) }
{
    if mark.second / DAY_SECONDS == day {
        write_mark(text, date, mark)?;
    }
    Ok(())
}

/// Adds the marks of a day, in their order.
pub(crate) fn write_marks(
    text: &mut Vec<u8>,
    date: &[u8],
    day: u32,
    marks: &[Mark],
) -> Result<(), AllocError>
    ensures { OnOk result (text.new.items ≡ text.old.items ++ marks_text date.now day marks.now) }
{
    for mark in marks {
        write_day_mark(text, date, day, *mark)?;
    }
    Ok(())
}

/// Marks by their days, those of a day in their order.
///
/// # Errors
///
/// `AllocError` where memory runs out.
pub(crate) fn by_day(alloc: Global, marks: &[Mark]) -> Result<Vec<Mark>, AllocError>
    ensures order { IfOk result (λ ordered. IsNonDecreasingBy mark_day ordered.items) }
    ensures same { IfOk result (λ ordered. AreSameMarks ordered.items marks.now) }
{
    let mut ordered = Vec::from_slice(alloc, marks)?;
    ordered.sort_by_key(|mark| mark.second / DAY_SECONDS)?;
    Ok(ordered)
}

/// Those of a day, among marks by their days.
pub(crate) fn marks_on(marks: &[Mark], day: u32) -> &[Mark]
    requires { IsNonDecreasingBy mark_day marks.now }
    ensures { result.now ≡ marks_of_day day marks.now }
{
    let from = marks.partition_point(|mark| mark.second / DAY_SECONDS < day);
    let (_earlier, rest) = marks.split_at(from);
    let count = rest.partition_point(|mark| mark.second / DAY_SECONDS <= day);
    let (of_day, _later) = rest.split_at(count);
    of_day
}
