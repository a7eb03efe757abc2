//! The answer to a match, once each entry was looked at.
ghost use Rattle.std.specs.Prelude.{◌≡◌, ◌+◌, ◌||◌, ◌++◌, ◌<◌, ◌^◌, ℕ, true, false, List, length, map, IfOk, OnOk};
ghost use Rattle.activity_codec.specs.declared.entries.Entry.{Entry as CardEntry};
ghost use Rattle.file_view.specs.Histories.{minute_told, minutes_on};
ghost use Rattle.view_model.specs.declared.Viewed.{Viewed as ViewedMinute};
ghost use Rattle.view_model.specs.Lines.{lines_of};
ghost use Rattle.card_match.specs.declared.difference.Difference.{Difference as How};
ghost use Rattle.card_match.specs.Matching.{Against};
ghost use Rattle.card_match.specs.Differences.{same_difference, AreDifferences, first_in, first_of};
ghost use Rattle.card_match.specs.Cases.{case_of, begins_by, is_from, line_from, IsSort, counted, total, is_missed};
ghost use Rattle.card_match.specs.Cases.{differing};

use crate::cases::{Case, is_as};
use crate::difference::Difference;
use activity_codec::{DAY_MINUTES, Slot};
use std::alloc::{AllocError, Global};
use view_model::{Line, UnitShown};
use view_text::add_minute;

/// Whether the entries of a card file stand in a unit file.
#[derive(Clone, Copy, Debug, PartialEq, Eq)]
pub enum Matched {
    /// Each tested entry stands; how many entries are tested, how many other, how many before the unit file.
    Yes {
        tested: u32,
        other: u32,
        before: u32,
    },
    /// The first tested entry that does not stand.
    No {
        minute: u32,
        slot: Slot,
    },
}

/// All entries of a card file that differ from a unit file, and how many entries there are of each sort.
#[derive(Drop)]
pub struct Differences {
    /// The runs of consecutive minutes within a day of which the entries differ in the same way.
    pub runs: Vec<Line<Difference>>,
    pub counts: Counts,
}

impl Differences {
    /// The first of them, or the counts where there is none.
    pub fn first(&self) -> Matched
        ensures { result ≡ first_of self.now }
    {
        first_in(self.runs.as_slice(), self.counts)
    }
}

/// The first of some runs, or these counts.
fn first_in(runs: &[Line<Difference>], counts: Counts) -> Matched
    ensures { result ≡ first_in runs.now counts }
{
    match runs {
        [] => Matched::Yes {
            tested: counts.tested,
            other: counts.other,
            before: counts.before,
        },
        [run, ..] => Matched::No {
            minute: run.first,
            slot: run.shown.slot,
        },
    }
}

/// What a match finds an entry of a card file to be.
#[derive(Clone, Copy)]
pub enum Sort {
    /// Of another vehicle.
    Other,
    /// Before the unit file.
    Before,
    /// Tested, and it stands.
    Standing,
    /// Tested, and it does not stand.
    Missed,
}

impl Sort {
    /// Whether it is tested and does not stand.
    fn is_missed(self) -> bool
        ensures { result ≡ is_missed self }
    {
        match self {
            Sort::Missed => true,
            _ => false,
        }
    }
}

/// How many entries there are of each sort.
#[derive(Clone, Copy, Debug, PartialEq, Eq)]
pub struct Counts {
    /// In a use of the unit's vehicle, on a day of the unit file or a later one.
    pub tested: u32,
    /// In no such use.
    pub other: u32,
    /// In such a use, before the unit file's first day.
    pub before: u32,
}

impl Counts {
    /// With one entry more.
    fn with(self, sort: Sort) -> Counts
        requires { total self + 1 < 2 ^ 32 }
        ensures { result ≡ counted self sort }
    {
        let mut counts = self;
        match sort {
            Sort::Other => counts.other += 1,
            Sort::Before => counts.before += 1,
            Sort::Standing => counts.tested += 1,
            Sort::Missed => counts.tested += 1,
        }
        counts
    }
}

/// The first day of lines.
pub fn first_day(lines: &[Line<UnitShown>]) -> Option<u32>
    ensures { (day : ℕ) → begins_by (map minute_told (minutes_on lines.now)) day ≡ is_from result day }
{
    let mut first = None;
    for line in lines {
        first = earlier_day(first, *line);
    }
    first
}

/// The earlier of a day and the first of a line.
fn earlier_day(first: Option<u32>, line: Line<UnitShown>) -> Option<u32>
    ensures { (day : ℕ) → is_from result day ≡ (is_from first day || line_from line day) }
{
    if line.last < line.first {
        return first;
    }
    let day = line.first / DAY_MINUTES;
    match first {
        Some(known) => Some(known.min(day)),
        None => Some(day),
    }
}

/// What an entry is, by what was found out about it: by its use, the unit file's first day, and the unit's minute.
fn sort_of(case: Case, first: Option<u32>) -> Sort
    ensures { (a : Against) (e : CardEntry) → case ≡ case_of a e
        → ((day : ℕ) → begins_by a.minutes day ≡ is_from first day) → IsSort a e result }
{
    if !case.own {
        return Sort::Other;
    }
    if !begins_by(first, case.entry.minute / DAY_MINUTES) {
        return Sort::Before;
    }
    let Some(shown) = case.seen else {
        return Sort::Missed;
    };
    if is_as(case.entry, shown) {
        return Sort::Standing;
    }
    Sort::Missed
}

/// Whether a file begins on a day or earlier.
fn begins_by(first: Option<u32>, day: u32) -> bool
    ensures { result ≡ is_from first day }
{
    match first {
        Some(first) => first <= day,
        None => false,
    }
}

/// All that differs, by what was found out about each entry.
///
/// # Errors
///
/// `AllocError` where memory runs out.
pub fn find_differences(
    alloc: Global,
    cases: &[Case],
    first: Option<u32>,
) -> Result<Differences, AllocError>
    requires { length cases.now < 2 ^ 32 }
    ensures { IfOk result (λ all. (a : Against) (entries : List CardEntry) → cases.now ≡ map (case_of a) entries
        → ((day : ℕ) → begins_by a.minutes day ≡ is_from first day) → AreDifferences a entries all) }
{
    let mut runs = Vec::new(alloc);
    let mut counts = Counts {
        tested: 0,
        other: 0,
        before: 0,
    };
    for case in cases {
        let sort = sort_of(*case, first);
        add_difference(&mut runs, *case, sort)?;
        counts = counts.with(sort);
    }
    Ok(Differences { runs, counts })
}

/// Adds the difference of a case, if it is missed.
fn add_difference(
    runs: &mut Vec<Line<Difference>>,
    case: Case,
    sort: Sort,
) -> Result<(), AllocError>
    ensures { (before : List (ViewedMinute How)) → runs.old.items ≡ lines_of same_difference before
        → OnOk result (runs.new.items ≡ lines_of same_difference (before ++ differing case sort)) }
{
    if !sort.is_missed() {
        return Ok(());
    }
    add_minute(runs, case.difference())
}
