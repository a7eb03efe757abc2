//! The entries of a card file, and what the vehicle uses and the unit file say of each.
ghost use Rattle.std.specs.Prelude.{◌≡◌, ◌+◌, ◌<◌, ◌≤◌, ◌++◌, ℕ, Some, List, length, map, IfOk, OnOk, slice_index_or};
ghost use Rattle.activity_codec.specs.declared.entries.Entry.{Entry as CardEntry};
ghost use Rattle.file_view.specs.Histories.{entry_told, minute_told, line_minutes, minutes_on};
ghost use Rattle.card_match.specs.Matching.{Against, is_within, is_as, state_in};
ghost use Rattle.card_match.specs.Cases.{fresh, case_of, with_use, with_line, AreRising, minute_of, first_seen};
ghost use Rattle.card_match.specs.Cases.{minute_of_case, instead_seen, difference_in};

use crate::difference::{Difference, Instead};
use activity_codec::{Entry, Slot};
use std::alloc::{AllocError, Global};
use view_model::{CardShown, Line, State, UnitShown, Viewed};

/// A use of a vehicle, by its first and its last minute.
#[derive(Clone, Copy)]
pub struct Use {
    pub first: u32,
    pub last: u32,
}

impl Use {
    /// Whether a minute lies in it.
    fn has(self, minute: u32) -> bool
        ensures { result ≡ is_within minute self }
    {
        self.first <= minute && minute <= self.last
    }
}

/// An entry of a card file, and what was found out about it.
#[derive(Clone, Copy)]
pub struct Case {
    pub entry: Entry,
    /// Whether its minute lies in a use of the unit's vehicle.
    pub own: bool,
    /// What the unit file shows of its minute, as far as that was read: of the first such.
    pub seen: Option<UnitShown>,
}

impl Case {
    /// After one use of the unit's vehicle more.
    fn with_use(self, u: Use) -> Case
        ensures { result ≡ with_use u self }
    {
        if u.has(self.entry.minute) {
            Case {
                entry: self.entry,
                own: true,
                seen: self.seen,
            }
        } else {
            self
        }
    }

    /// After one line of the unit file more.
    fn with_line(self, line: Line<UnitShown>) -> Case
        ensures { result ≡ with_line line self }
    {
        let span = Use {
            first: line.first,
            last: line.last,
        };
        if span.has(self.entry.minute) {
            Case {
                entry: self.entry,
                own: self.own,
                seen: first_seen(self.seen, line.shown),
            }
        } else {
            self
        }
    }

    /// How it differs.
    pub fn difference(self) -> Viewed<Difference>
        ensures { result ≡ difference_in self }
    {
        Viewed {
            minute: self.entry.minute,
            shown: Difference {
                slot: self.entry.slot,
                act: self.entry.act,
                instead: instead_for(self.entry, self.seen),
            },
        }
    }
}

/// What was seen first.
fn first_seen(seen: Option<UnitShown>, later: UnitShown) -> Option<UnitShown>
    ensures { result ≡ first_seen seen (Some later) }
{
    match seen {
        Some(shown) => Some(shown),
        None => Some(later),
    }
}

/// Whether what a unit shows of a minute is as an entry of that minute has it.
pub fn is_as(entry: Entry, shown: UnitShown) -> bool
    ensures { result ≡ is_as entry (minute_of shown entry.minute) }
{
    let state = state_for(entry, shown);
    state.present && state.act == entry.act && shown.crew == entry.crew
}

/// What a unit shows of the slot of an entry.
fn state_for(entry: Entry, shown: UnitShown) -> State
    ensures { result ≡ state_in entry.slot (minute_of shown entry.minute) }
{
    match entry.slot {
        Slot::Driver => shown.driver,
        Slot::CoDriver => shown.codriver,
    }
}

/// What the unit file has in place of an entry, by what was seen of its minute.
fn instead_for(entry: Entry, seen: Option<UnitShown>) -> Instead
    ensures { result ≡ instead_seen entry seen }
{
    match seen {
        Some(shown) => Instead::of(entry.act, state_for(entry, shown), shown.crew),
        None => Instead::NoMinute,
    }
}

/// The entries of lines, of which nothing is known yet.
///
/// # Errors
///
/// `AllocError` where memory runs out.
pub fn cases_of(alloc: Global, lines: &[Line<CardShown>]) -> Result<Vec<Case>, AllocError>
    ensures { IfOk result (λ cases. cases.items ≡ map fresh (map entry_told (minutes_on lines.now))) }
{
    let mut cases = Vec::new(alloc);
    for line in lines {
        add_line(&mut cases, *line)?;
    }
    Ok(cases)
}

/// Adds the entries of a line.
fn add_line(cases: &mut Vec<Case>, line: Line<CardShown>) -> Result<(), AllocError>
    ensures { OnOk result (cases.new.items ≡ cases.old.items ++ map fresh (map entry_told (line_minutes line))) }
{
    for minute in line.first as u64..line.last as u64 + 1 {
        cases.push(fresh(line.shown, minute as u32))?;
    }
    Ok(())
}

/// An entry of which nothing is known yet.
fn fresh(shown: CardShown, minute: u32) -> Case
    ensures { result ≡ fresh (entry_told (record { minute = minute; shown = shown })) }
{
    Case {
        entry: Entry {
            minute,
            slot: shown.slot,
            crew: shown.crew,
            act: shown.act,
        },
        own: false,
        seen: None,
    }
}

/// How many cases are earlier than a minute.
fn earlier(cases: &[Case], minute: u32) -> usize
    requires { AreRising cases.now }
    ensures most { result ≤ length cases.now }
    ensures front { (k : ℕ) (d : Case) → k < result → minute_of_case (slice_index_or cases.now k d) < minute }
{
    cases.partition_point(|c| c.entry.minute < minute)
}

/// How many cases are not later than a minute.
fn not_later(cases: &[Case], minute: u32) -> usize
    requires { AreRising cases.now }
    ensures most { result ≤ length cases.now }
    ensures behind { (k : ℕ) (d : Case) → result ≤ k → k < length cases.now
        → minute < minute_of_case (slice_index_or cases.now k d) }
{
    cases.partition_point(|c| c.entry.minute <= minute)
}

/// Tells the cases of one use of the unit's vehicle.
fn tell_use(cases: &mut [Case], u: Use)
    requires { AreRising cases.old }
    ensures told { cases.new ≡ map (with_use u) cases.old }
{
    let from = earlier(cases, u.first);
    let to = not_later(cases, u.last);
    for i in from..to {
        let case = cases[i];
        cases[i] = case.with_use(u);
    }
}

/// Tells the cases of one line of the unit file.
fn tell_line(cases: &mut [Case], line: Line<UnitShown>)
    requires { AreRising cases.old }
    ensures told { cases.new ≡ map (with_line line) cases.old }
{
    let from = earlier(cases, line.first);
    let to = not_later(cases, line.last);
    for i in from..to {
        let case = cases[i];
        cases[i] = case.with_line(line);
    }
}

/// Tells the cases of the uses of the unit's vehicle.
pub fn tell_uses(cases: &mut [Case], uses: &[Use])
    requires { AreRising cases.old }
    ensures rising { AreRising cases.new }
    ensures told { (a : Against) (entries : List CardEntry) → cases.old ≡ map (case_of a) entries
        → cases.new ≡ map (case_of (record { uses = a.uses ++ uses.now; minutes = a.minutes })) entries }
{
    for u in uses {
        tell_use(cases, *u);
    }
}

/// Tells the cases of the lines of the unit file.
pub fn tell_lines(cases: &mut [Case], lines: &[Line<UnitShown>])
    requires { AreRising cases.old }
    ensures rising { AreRising cases.new }
    ensures told { (a : Against) (entries : List CardEntry) → cases.old ≡ map (case_of a) entries
        → cases.new ≡ map (case_of (record {
          uses = a.uses;
          minutes = a.minutes
              ++ map minute_told (minutes_on lines.now);
        })) entries }
{
    for line in lines {
        tell_line(cases, *line);
    }
}
