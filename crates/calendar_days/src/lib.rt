//! The calendar date of a day number, and times of day, as text.
#![tactic(auto)]

mod clock;

ghost use Rattle.std.specs.Prelude.{◌≡◌, ◌<◌, pos, ◌≤ℤ◌};
ghost use Rattle.jiff.specs.Words.{epoch_day};
ghost use Rattle.calendar_days.specs.Calendar.{IsDateText};

use arrayvec::ArrayVec;
pub use clock::{clock_text, duration_text, seconds_text};
use jiff::ToSpan;
use jiff::civil::{Date, date};
use tacho_types::DAYS;

/// The date `YYYY-MM-DD` of the day with this number since 1970-01-01: one of those that a
/// `TimeReal` can name.
pub fn day_text(day: u32) -> ArrayVec<u8, 10>
    requires { day < DAYS }
    ensures { IsDateText day result.items }
{
    let date = civil_date(day);
    let year = year_of(date);
    let (month, day_of_month) = month_and_day(date);
    ArrayVec::from([
        b'0' + (year / 100 / 10) as u8,
        b'0' + (year / 100 % 10) as u8,
        b'0' + (year % 100 / 10) as u8,
        b'0' + (year % 100 % 10) as u8,
        b'-',
        b'0' + month / 10,
        b'0' + month % 10,
        b'-',
        b'0' + day_of_month / 10,
        b'0' + day_of_month % 10,
    ])
}

/// The date of a day number.
fn civil_date(day: u32) -> Date
    requires { day < DAYS }
    ensures day { epoch_day result ≡ pos day }
    ensures year { pos 0 ≤ℤ result.year }
{
    match date(1970, 1, 1).checked_add((day as i64).days()) {
        Ok(date) => date,
        Err(_) => unreachable!(),
    }
}

/// The year of a date that has no negative one.
fn year_of(date: Date) -> u16
    requires { pos 0 ≤ℤ date.year }
    ensures { pos result ≡ date.year }
{
    date.year() as u16
}

/// The month, from 1, and the day of the month, from 1.
fn month_and_day(date: Date) -> (u8, u8)
    ensures { (result.0 ≡ date.month) × (result.1 ≡ date.day) }
{
    (date.month() as u8, date.day() as u8)
}
