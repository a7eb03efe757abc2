//! The bars of a slot, of the lines of a view.
ghost use Rattle.std.specs.Prelude.{◌≡◌, ◌≤◌, ◌++◌, ℕ, [], true, List, map, IfOk, OnOk};
ghost use Rattle.view_model.specs.declared.Viewed.{Viewed as ViewedMinute};
ghost use Rattle.file_view.specs.Histories.{line_minutes, minutes_on};
ghost use Rattle.slot_bars.specs.Seeing.{bars_of, slot_seen, card_seen, state_in};
ghost use Rattle.file_view.specs.Runs.{is_run};
ghost use Rattle.slot_bars.specs.Runs.{is_known, as_unit};
ghost use Rattle.slot_bars.specs.declared.seen.Seen.{Seen as MinuteSeen};

use crate::gaps::Gaps;
use crate::seen::{Seen, slot_seen, state_in};
use activity_codec::{Activity, DAY_MINUTES, Slot};
use file_view::add_run;
use std::alloc::{AllocError, Global};
use view_model::{CardShown, Line, State, UnitShown, Viewed};
use view_text::add_minute;

/// The bars of a slot of a unit, by the lines of its view. A line goes in at once, but for one without a card that
/// meets a gap, which goes in by the parts that lie in one or in none.
///
/// # Errors
///
/// `AllocError` where memory runs out.
pub fn unit_bars(
    alloc: Global,
    lines: &[Line<UnitShown>],
    gaps: &Gaps,
    slot: Slot,
) -> Result<Vec<Line<Seen>>, AllocError>
    ensures { IfOk result (λ bars. bars.items ≡ bars_of (map (slot_seen gaps.now slot) (minutes_on lines.now))) }
{
    let mut bars = Vec::new(alloc);
    for line in lines {
        add_line(&mut bars, *line, gaps, slot)?;
    }
    Ok(bars)
}

/// The bars of the card of a card file, by the lines of its view.
///
/// # Errors
///
/// `AllocError` where memory runs out.
pub fn card_bars(alloc: Global, lines: &[Line<CardShown>]) -> Result<Vec<Line<Seen>>, AllocError>
    ensures { IfOk result (λ bars. bars.items ≡ bars_of (map card_seen (minutes_on lines.now))) }
{
    let mut bars = Vec::new(alloc);
    let none = Gaps::none(alloc);
    for line in lines {
        add_card_line(&mut bars, *line, &none)?;
    }
    Ok(bars)
}

/// Adds the minutes of a line, as a slot is seen in them.
fn add_line(
    bars: &mut Vec<Line<Seen>>,
    line: Line<UnitShown>,
    gaps: &Gaps,
    slot: Slot,
) -> Result<(), AllocError>
    ensures { (minutes : List (ViewedMinute MinuteSeen)) → bars.old.items ≡ bars_of minutes
        → OnOk result (bars.new.items ≡ bars_of (minutes ++ map (slot_seen gaps.now slot) (line_minutes line))) }
{
    if is_run(line.first, line.last) {
        add_parts(bars, line, gaps, slot)?;
        return Ok(());
    }
    for minute in line.first as u64..line.last as u64 + 1 {
        let viewed = viewed_at(line, minute as u32);
        add_minute(bars, slot_seen(gaps, slot, viewed))?;
    }
    Ok(())
}

/// Adds the minutes of a line that are some, and of one day, by parts in each of which the same is seen.
fn add_parts(
    bars: &mut Vec<Line<Seen>>,
    line: Line<UnitShown>,
    gaps: &Gaps,
    slot: Slot,
) -> Result<(), AllocError>
    requires { is_run line.first line.last ≡ true }
    ensures { (minutes : List (ViewedMinute MinuteSeen)) → bars.old.items ≡ bars_of minutes
        → OnOk result (bars.new.items ≡ bars_of (minutes ++ map (slot_seen gaps.now slot) (line_minutes line))) }
{
    let mut from = line.first as u64;
    'parts: while from <= line.last as u64 {
        let part = part_from(line, from as u32, gaps, slot);
        add_run(bars, part)?;
        from = part.last as u64 + 1;
    }
    Ok(())
}

/// The minutes of a line from one on in which the same is seen of a slot, as it is seen.
fn part_from(line: Line<UnitShown>, from: u32, gaps: &Gaps, slot: Slot) -> Line<Seen>
    requires { from ≤ line.last }
    ensures first { result.first ≡ from }
    ensures inside { (from ≤ result.last) × (result.last ≤ line.last) }
    ensures seen { (m : ℕ) → from ≤ m → m ≤ result.last
        → (slot_seen gaps.now slot (record { minute = m; shown = line.shown })).shown ≡ result.shown }
{
    let viewed = viewed_at(line, from);
    let seen = slot_seen(gaps, slot, viewed);
    let last = last_alike(line, from, gaps, slot);
    Line {
        first: from,
        last,
        shown: seen.shown,
    }
}

/// The last of them.
fn last_alike(line: Line<UnitShown>, from: u32, gaps: &Gaps, slot: Slot) -> u32
    requires { from ≤ line.last }
    ensures inside { (from ≤ result) × (result ≤ line.last) }
    ensures alike { (m : ℕ) → from ≤ m → m ≤ result
        → is_known gaps.now (state_in slot line.shown) m ≡ is_known gaps.now (state_in slot line.shown) from }
{
    let state = state_in(slot, line.shown);
    if state.present {
        return line.last;
    }
    let last = gaps.last_alike(from);
    last.min(line.last)
}

/// Adds the minutes of a line of a card, which a unit would show with the card in its driver slot.
fn add_card_line(
    bars: &mut Vec<Line<Seen>>,
    line: Line<CardShown>,
    gaps: &Gaps,
) -> Result<(), AllocError>
    requires { gaps.now ≡ [] }
    ensures { (minutes : List (ViewedMinute MinuteSeen)) → bars.old.items ≡ bars_of minutes
        → OnOk result (bars.new.items ≡ bars_of (minutes ++ map card_seen (line_minutes line))) }
{
    add_line(bars, as_unit(line), gaps, Slot::Driver)?;
    Ok(())
}

/// A line of a card as a unit would show it.
fn as_unit(line: Line<CardShown>) -> Line<UnitShown>
    ensures { result ≡ as_unit line }
{
    Line {
        first: line.first,
        last: line.last,
        shown: UnitShown {
            driver: State {
                act: line.shown.act,
                present: true,
            },
            codriver: State {
                act: Activity::Rest,
                present: false,
            },
            crew: line.shown.crew,
        },
    }
}

/// A minute of a line.
fn viewed_at(line: Line<UnitShown>, minute: u32) -> Viewed<UnitShown>
    ensures { result ≡ record { minute = minute; shown = line.shown } }
{
    Viewed {
        minute,
        shown: line.shown,
    }
}

/// Whether minutes from one to another are some, and of one day.
fn is_run(first: u32, last: u32) -> bool
    ensures { result ≡ is_run first last }
{
    first <= last && first / DAY_MINUTES == last / DAY_MINUTES
}
