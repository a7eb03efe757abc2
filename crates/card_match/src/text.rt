//! What the command prints of an answer.
ghost use Rattle.std.specs.Prelude.{◌≡◌, ◌++◌, ◌<◌, List, ℕ, codes, IfOk, OnOk};
ghost use Rattle.std.specs.List.{AllByRecursion};
ghost use Rattle.activity_codec.specs.Names.{slot_name};
ghost use Rattle.calendar_days.specs.Calendar.{IsDateText};
ghost use Rattle.view_model.specs.Lines.{day_of_minute};
ghost use Rattle.view_text.specs.Text.{line_text};
ghost use Rattle.card_match.specs.Text.{IsDated, IsMatchText, count_line, place_words, AreDatedRuns, difference_words};
ghost use Rattle.card_match.specs.Text.{AreRunsText, IsDifferencesText};

use crate::difference::Difference;
use crate::verdict::{Counts, Differences, Matched};
use activity_codec::{DAY_MINUTES, Slot};
use calendar_days::day_text;
use itoa::Buffer;
use std::alloc::{AllocError, Global};
use tacho_types::DAYS;
use view_model::Line;
use view_text::{Shown, write_clock};

/// The text of an answer: `match` and three counts, or the first minute that differs, with its slot.
///
/// # Errors
///
/// `AllocError` where memory runs out.
pub fn match_text(alloc: Global, matched: Matched) -> Result<Vec<u8>, AllocError>
    requires { IsDated matched }
    ensures { IfOk result (λ text. IsMatchText matched text.items) }
{
    match matched {
        Matched::Yes {
            tested,
            other,
            before,
        } => counts_text(alloc, tested, other, before),
        Matched::No { minute, slot } => differs_text(alloc, minute, slot),
    }
}

/// The text of a Yes.
fn counts_text(alloc: Global, tested: u32, other: u32, before: u32) -> Result<Vec<u8>, AllocError>
    ensures { IfOk result (λ text. text.items ≡ codes "match\n" ++ count_line (codes "tested") tested
        ++ count_line (codes "other") other ++ count_line (codes "before") before) }
{
    let mut text = Vec::new(alloc);
    text.extend_from_slice(b"match\n")?;
    write_count(&mut text, b"tested", tested)?;
    write_count(&mut text, b"other", other)?;
    write_count(&mut text, b"before", before)?;
    Ok(text)
}

/// The text of a No.
fn differs_text(alloc: Global, minute: u32, slot: Slot) -> Result<Vec<u8>, AllocError>
    requires { day_of_minute minute < DAYS }
    ensures { IfOk result (λ text. (date : List ℕ) × IsDateText (day_of_minute minute) date
        × (text.items ≡ codes "differs " ++ date ++ place_words minute slot)) }
{
    let mut text = Vec::new(alloc);
    text.extend_from_slice(b"differs ")?;
    let date = day_text(minute / DAY_MINUTES);
    text.extend_from_slice(date.as_slice())?;
    write_place(&mut text, minute, slot)?;
    Ok(text)
}

/// The text of all that differs: a line for each run, or `match` where there is none; and the counts.
///
/// # Errors
///
/// `AllocError` where memory runs out.
pub fn differences_text(alloc: Global, all: &Differences) -> Result<Vec<u8>, AllocError>
    requires { AreDatedRuns all.now.runs.items }
    ensures { IfOk result (λ text. IsDifferencesText all.now text.items) }
{
    let runs = all.runs.as_slice();
    let counts = all.counts;
    if runs.is_empty() {
        return counts_text(alloc, counts.tested, counts.other, counts.before);
    }
    listed_text(alloc, runs, counts)
}

/// The text of runs and counts.
fn listed_text(
    alloc: Global,
    runs: &[Line<Difference>],
    counts: Counts,
) -> Result<Vec<u8>, AllocError>
    requires { AreDatedRuns runs.now }
    ensures { IfOk result (λ text. (front : List ℕ) × AreRunsText runs.now front
        × (text.items ≡ front ++ count_line (codes "tested") counts.tested ++ count_line (codes "other") counts.other
        ++ count_line (codes "before") counts.before)) }
{
    let mut text = runs_text(alloc, runs)?;
    write_count(&mut text, b"tested", counts.tested)?;
    write_count(&mut text, b"other", counts.other)?;
    write_count(&mut text, b"before", counts.before)?;
    Ok(text)
}

/// A line for each run.
fn runs_text(alloc: Global, runs: &[Line<Difference>]) -> Result<Vec<u8>, AllocError>
    requires { AreDatedRuns runs.now }
    ensures { IfOk result (λ text. AreRunsText runs.now text.items) }
{
    let mut text = Vec::new(alloc);
    for run in runs {
        write_run(&mut text, *run)?;
    }
    Ok(text)
}

/// Writes the line of a run.
fn write_run(text: &mut Vec<u8>, run: Line<Difference>) -> Result<(), AllocError>
    requires { day_of_minute run.first < DAYS }
    ensures { OnOk result ((date : List ℕ) × IsDateText (day_of_minute run.first) date
        × (text.new.items ≡ text.old.items ++ codes "differs " ++ date ++ line_text difference_words run)) }
{
    let date = day_text(run.first / DAY_MINUTES);
    text.extend_from_slice(b"differs ")?;
    text.extend_from_slice(date.as_slice())?;
    text.extend_from_slice(b" ")?;
    write_clock(text, run.first)?;
    text.extend_from_slice(b"-")?;
    write_clock(text, run.last)?;
    text.extend_from_slice(b" ")?;
    run.shown.write(text)?;
    text.extend_from_slice(b"\n")?;
    Ok(())
}

/// Writes a line: what is counted, and how many there are.
fn write_count(text: &mut Vec<u8>, name: &[u8], count: u32) -> Result<(), AllocError>
    ensures { OnOk result (text.new.items ≡ text.old.items ++ count_line name.now count) }
{
    let mut digits = Buffer::new();
    let number = digits.format(count);
    text.extend_from_slice(name)?;
    text.extend_from_slice(b" ")?;
    text.extend_from_slice(number.as_bytes())?;
    text.extend_from_slice(b"\n")?;
    Ok(())
}

/// Writes what stands behind the date: the time of day, and the slot.
fn write_place(text: &mut Vec<u8>, minute: u32, slot: Slot) -> Result<(), AllocError>
    ensures { OnOk result (text.new.items ≡ text.old.items ++ place_words minute slot) }
{
    text.extend_from_slice(b" ")?;
    write_clock(text, minute)?;
    text.extend_from_slice(b" ")?;
    text.extend_from_slice(slot.name())?;
    text.extend_from_slice(b"\n")?;
    Ok(())
}
