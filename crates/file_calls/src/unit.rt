//! What a unit file shows of one minute, on which day it begins, and of which vehicle it is.
ghost use Rattle.std.specs.Prelude.{◌≡◌, ◌<◌, ◌||◌, ◌^◌, ℕ, List, length, map};
ghost use Rattle.unit_model.specs.Days.{UnitMinute as ToldMinute};
ghost use Rattle.message_model.specs.Messages.{Message as FileMessage, IsUnitFile};
ghost use Rattle.file_view.specs.Fronts.{registration_in, registration_bytes};
ghost use Rattle.file_view.specs.Histories.{minute_told, minutes_on};
ghost use Rattle.card_match.specs.Matching.{is_within};
ghost use Rattle.card_match.specs.Cases.{begins_by, is_from, line_from, line_use};
ghost use Rattle.file_calls.specs.Asking.{shown_at, IsFirstDay};

use activity_codec::{DAY_MINUTES, DAY_SECONDS};
use file_view::{UnitHistory, read_front};
use tacho_types::Registration;
use view_model::{Line, UnitShown};

/// What a unit file shows of a minute: what both slots have, and whether it is CREW.
pub type UnitMinute = UnitShown;

/// Questions to the minutes that a unit file shows.
pub trait UnitMinutes {
    // the minutes, in the file's order
    ghost minutes: { Self → List ToldMinute };

    /// What is shown of the minute with a number, by the first message of its day; `None` exactly where the file has no
    /// such minute.
    fn at(&self, minute: u32) -> Option<UnitMinute>
        ensures { result ≡ shown_at (minutes self.now) minute };

    /// The first second of the first day; `None` exactly where the file has no message of a day.
    fn first_day(&self) -> Option<u32>
        ensures { IsFirstDay (minutes self.now) result };
}

impl UnitMinutes for UnitHistory {
    ghost minutes = { λ h. h };

    fn at(&self, minute: u32) -> Option<UnitMinute> {
        shown_on(self.lines(), minute)
    }

    fn first_day(&self) -> Option<u32> {
        match first_on(self.lines()) {
            Some(day) => {
                let second = DAY_SECONDS * day;
                Some(second)
            }
            None => None,
        }
    }
}

/// The registration that the first overview of a unit file tells; `None` exactly where it has none.
pub fn registration(b: &[u8]) -> Option<Registration>
    requires short { length b.now < 2 ^ 32 }
    requires file { (messages : List FileMessage) × IsUnitFile messages b.now }
    ensures { (messages : List FileMessage) → IsUnitFile messages b.now
        → registration_bytes result ≡ registration_in messages }
{
    match read_front(b) {
        Ok(front) => front.registration,
        Err(_) => unreachable!(),
    }
}

/// What lines show of a minute.
fn shown_on(lines: &[Line<UnitShown>], minute: u32) -> Option<UnitShown>
    ensures { result ≡ shown_at (map minute_told (minutes_on lines.now)) minute }
{
    for line in lines {
        if has(*line, minute) {
            return Some(line.shown);
        }
    }
    None
}

/// Whether a minute is one of a line.
fn has(line: Line<UnitShown>, minute: u32) -> bool
    ensures { result ≡ is_within minute (line_use line) }
{
    line.first <= minute && minute <= line.last
}

/// The first day of lines.
fn first_on(lines: &[Line<UnitShown>]) -> Option<u32>
    ensures { (day : ℕ) → begins_by (map minute_told (minutes_on lines.now)) day ≡ is_from result day }
{
    let mut first = None;
    for line in lines {
        first = earlier_day(first, *line);
    }
    first
}

/// The earlier of a day and the first of a line.
fn earlier_day(first: Option<u32>, line: Line<UnitShown>) -> Option<u32>
    ensures { (day : ℕ) → is_from result day ≡ (is_from first day || line_from line day) }
{
    if line.last < line.first {
        return first;
    }
    let day = line.first / DAY_MINUTES;
    match first {
        Some(known) => Some(known.min(day)),
        None => Some(day),
    }
}
