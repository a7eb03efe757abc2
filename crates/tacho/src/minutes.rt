//! The decided minutes of a trace, as the lines of their view.
ghost use Rattle.std.specs.Prelude.{◌≡◌, ℕ, ◌+◌, ◌<◌, ◌≤◌, ◌++◌, List, map, IfOk, OnOk, false};
ghost use Rattle.minute_model.specs.declared.Minute.{Minute as Decided};
ghost use Rattle.std.specs.List.{AllByRecursion};
ghost use Rattle.minute_model.specs.Span.{Span, fed_many, decided_in};
ghost use Rattle.minute_rules.specs.Alike.{minute_later, repeated, decided_alike};
ghost use Rattle.minute_rules.specs.Kept.{CountsSpan};
ghost use Rattle.trace_model.specs.Trace.{item_seconds};
ghost use Rattle.trace_text.specs.declared.lines_trace.Form.TheVariants.{Minutes as FormOfMinutes};
ghost use Rattle.trace_text.specs.Line.{IsKnown};
ghost use Rattle.trace_text.specs.Trace.{IsWellFormed};
ghost use Rattle.tacho.specs.Feeding.{fed_item};
ghost use Rattle.view_model.specs.Lines.{lines_of, same_unit};
ghost use Rattle.tacho.specs.Minutes.{without_card, minutes_printed, lines_shown};
ghost use Rattle.tacho.specs.LineRuns.{shown_run, ended_at};
ghost use Rattle.view_model.specs.declared.Viewed.{Viewed as ViewedMinute};

use activity_codec::{Activity, DAY_MINUTES, Steps};
use minute_rules::{Alike, Minute, Minutes, Rule};
use std::alloc::{AllocError, Global};
use std::marker::Brand;
use std::sync::ledger::{Blank, Ledger};
use trace_text::{Action, Item, Trace};
use view_model::{Line, State, UnitShown, Viewed};
use view_text::add_minute;

/// The last second that a time of four bytes can name.
pub const LAST_TIME: u32 = 4294967295;

/// The lines of the decided minutes of the one span of a trace by a rule, as a unit without a card shows them.
///
/// # Errors
///
/// `AllocError` where there is no memory for the lines.
pub fn lines_of(
    alloc: Global,
    rule: Rule,
    trace: &Trace,
) -> Result<Vec<Line<UnitShown>>, AllocError>
    requires well { IsWellFormed trace.now.start trace.now.items }
    requires known { AllByRecursion (IsKnown FormOfMinutes) trace.now.items }
    ensures { IfOk result (λ lines. lines.items
        ≡ lines_of same_unit (minutes_printed rule trace.now.start trace.now.items)) }
{
    let mut minutes = Minutes::new(rule, trace.start);
    let mut lines = Vec::new(alloc);
    for i in 0..trace.items.len() {
        let item = *trace.items.get(i);
        feed_item(&mut minutes, &mut lines, item)?;
    }
    Ok(lines)
}

/// One item, which is a run or a selection.
fn feed_item(
    minutes: &mut Minutes,
    lines: &mut Vec<Line<UnitShown>>,
    item: Item,
) -> Result<(), AllocError>
    requires fits { minutes.old.next + item_seconds item ≤ LAST_TIME }
    requires known { IsKnown FormOfMinutes item }
    ensures stands { (span : Span) → CountsSpan minutes.old span
        → OnOk result (CountsSpan minutes.new (fed_item span item)) }
    ensures lines { (span : Span) → CountsSpan minutes.old span → lines.old.items ≡ lines_shown (decided_in span)
        → OnOk result (lines.new.items ≡ lines_shown (decided_in (fed_item span item))) }
    ensures next { OnOk result (minutes.new.next ≡ minutes.old.next + item_seconds item) }
{
    match item {
        Item::Run { seconds, speed } => run(minutes, lines, seconds, speed),
        Item::Act(Action::Select { slot, pick }) => {
            minutes.select(slot, pick);
            Ok(())
        }
        Item::Off { .. } | Item::Act(_) => Ok(()),
    }
}

/// So many seconds at this speed.
fn run(
    minutes: &mut Minutes,
    lines: &mut Vec<Line<UnitShown>>,
    seconds: u32,
    speed: u8,
) -> Result<(), AllocError>
    requires { minutes.old.next + seconds ≤ LAST_TIME }
    ensures stands { (span : Span) → CountsSpan minutes.old span
        → OnOk result (CountsSpan minutes.new (fed_many span speed seconds)) }
    ensures lines { (span : Span) → CountsSpan minutes.old span → lines.old.items ≡ lines_shown (decided_in span)
        → OnOk result (lines.new.items ≡ lines_shown (decided_in (fed_many span speed seconds))) }
    ensures next { OnOk result (minutes.new.next ≡ minutes.old.next + seconds) }
{
    run_pieces::<Brand>(minutes, lines, seconds, speed, Blank::new(1))
}

/// `run`, a minute at a time or minutes that go on alike, by steps that nobody counts.
fn run_pieces<L: Ledger>(
    minutes: &mut Minutes,
    lines: &mut Vec<Line<UnitShown>>,
    seconds: u32,
    speed: u8,
    blank: Blank,
) -> Result<(), AllocError>
    requires name { blank.name ≡ L.name }
    requires parts { blank.parts ≡ L.parts }
    requires some { 0 < blank.parts }
    requires fits { minutes.old.next + seconds ≤ LAST_TIME }
    ensures stands { (span : Span) → CountsSpan minutes.old span
        → OnOk result (CountsSpan minutes.new (fed_many span speed seconds)) }
    ensures lines { (span : Span) → CountsSpan minutes.old span → lines.old.items ≡ lines_shown (decided_in span)
        → OnOk result (lines.new.items ≡ lines_shown (decided_in (fed_many span speed seconds))) }
    ensures next { OnOk result (minutes.new.next ≡ minutes.old.next + seconds) }
{
    let mut steps = Steps::<L>::new(blank);
    let mut left = seconds;
    while left > 0 {
        let alike = minutes.feed_long(left, speed, &mut steps);
        show(lines, &alike)?;
        left -= alike.seconds;
    }
    Ok(())
}

/// Further minutes that are decided alike.
fn show(lines: &mut Vec<Line<UnitShown>>, alike: &Alike) -> Result<(), AllocError>
    requires { AllByRecursion (λ m. m.minute + alike.now.times ≤ LAST_TIME) alike.now.decided.items }
    ensures { (speed : ℕ) (before : List Decided) → lines.old.items ≡ lines_shown before
        → OnOk result (lines.new.items ≡ lines_shown (before ++ decided_alike speed alike.now)) }
{
    let decided = alike.decided.as_slice();
    let count = decided.len();
    if count == 1 {
        return show_run(lines, with_no_card(decided[0], 0), alike.times);
    }
    show_each(lines, decided, alike.times)
}

/// Further minutes, so many times, each time a minute later.
fn show_each(
    lines: &mut Vec<Line<UnitShown>>,
    minutes: &[Minute],
    times: u32,
) -> Result<(), AllocError>
    requires { AllByRecursion (λ m. m.minute + times ≤ LAST_TIME) minutes.now }
    ensures { (speed : ℕ) (before : List Decided) → lines.old.items ≡ lines_shown before
        → OnOk result (lines.new.items ≡ lines_shown (before ++ repeated speed times minutes.now)) }
{
    for turn in 0..times {
        show_later(lines, minutes, turn)?;
    }
    Ok(())
}

/// A minute so many times, each time a minute later: those of a day go onto one line.
fn show_run(
    lines: &mut Vec<Line<UnitShown>>,
    minute: Viewed<UnitShown>,
    times: u32,
) -> Result<(), AllocError>
    requires { minute.minute + times ≤ LAST_TIME }
    ensures { (before : List (ViewedMinute UnitShown)) → lines.old.items ≡ lines_of same_unit before
        → OnOk result (lines.new.items ≡ lines_of same_unit (before ++ shown_run minute times)) }
{
    let mut done = 0;
    while done < times {
        let next = Viewed {
            minute: minute.minute + done,
            shown: minute.shown,
        };
        add_minute(lines, next)?;
        let more = (times - done - 1).min(DAY_MINUTES - 1 - next.minute % DAY_MINUTES);
        end_at(lines.as_mut_slice(), next.minute + more);
        done += 1 + more;
    }
    Ok(())
}

/// The last line ends with this minute.
fn end_at(lines: &mut [Line<UnitShown>], minute: u32)
    ensures { lines.new ≡ ended_at minute lines.old }
{
    let count = lines.len();
    if count > 0 {
        lines[count - 1].last = minute;
    }
}

/// Further minutes, so many minutes later.
fn show_later(
    lines: &mut Vec<Line<UnitShown>>,
    minutes: &[Minute],
    later: u32,
) -> Result<(), AllocError>
    requires { AllByRecursion (λ m. m.minute + later ≤ LAST_TIME) minutes.now }
    ensures { (speed : ℕ) (before : List Decided) → lines.old.items ≡ lines_shown before
        → OnOk result (lines.new.items ≡ lines_shown (before ++ map (minute_later later speed) minutes.now)) }
{
    for minute in minutes {
        add_minute(lines, with_no_card(*minute, later))?;
    }
    Ok(())
}

/// What a unit without a card shows of a minute, so many minutes later.
fn with_no_card(minute: Minute, later: u32) -> Viewed<UnitShown>
    requires { minute.minute + later ≤ LAST_TIME }
    ensures { (speed : ℕ) → result ≡ without_card (minute_later later speed minute) }
{
    Viewed {
        minute: minute.minute + later,
        shown: UnitShown {
            driver: out(minute.driver),
            codriver: out(minute.codriver),
            crew: false,
        },
    }
}

/// A slot with no card.
fn out(act: Activity) -> State
    ensures { result ≡ record { act = act; present = false } }
{
    State {
        act,
        present: false,
    }
}
