//! The heads of days, and what is kept of the newest end of a string.
ghost use Rattle.std.specs.Prelude.{◌≡◌, ◌<◌, length};

use crate::bytes::{decimal_of, number_of};
use tacho_types::{Bcd2, Distance, TimeReal};

/// The head of a day of the string (Appendix 1, CardActivityDailyRecord without its change words).
#[derive(Clone, Copy, Debug, Default, PartialEq, Eq)]
pub struct DayHead {
    /// Where its record begins, counted in bytes from the begin of the string.
    pub place: u32,
    /// Its first second.
    pub date: TimeReal,
    /// The daily presence counter.
    pub counter: Bcd2,
    /// The distance of the day in km.
    pub km: Distance,
    /// How many change words it has.
    pub words: u16,
}

/// The end of the string that grows.
#[derive(Clone, Copy, Debug, Default, PartialEq, Eq)]
pub struct Tail {
    /// The head of the newest day.
    pub head: DayHead,
    /// Its latest word.
    pub latest: u16,
    /// How many bytes the days have.
    pub used: u32,
}

/// The numbers in the twelve bytes before the change words.
#[derive(Clone, Copy)]
pub struct RecordHead {
    pub previous: u16,
    pub len: u16,
    pub date: u32,
    pub counter: u16,
    pub km: u16,
}

impl RecordHead {
    ghost use Rattle.card_days.specs.Heads.{head_bytes, day_head_of};

    /// The numbers in twelve bytes.
    pub fn new(bytes: &[u8]) -> RecordHead
        requires { length bytes.now ≡ 12 }
        ensures bytes { head_bytes result ≡ bytes.now }
        ensures short { result.counter < 65536 }
    {
        RecordHead {
            previous: number_of(&bytes[..2]) as u16,
            len: number_of(&bytes[2..4]) as u16,
            date: number_of(&bytes[4..6]) * 65536 + number_of(&bytes[6..8]),
            counter: number_of(&bytes[8..10]) as u16,
            km: number_of(&bytes[10..12]) as u16,
        }
    }

    /// The head of the day that begins there.
    pub fn at(&self, place: u32) -> DayHead
        ensures { result ≡ day_head_of self.now place }
    {
        DayHead {
            place,
            date: TimeReal(self.date),
            counter: Bcd2(decimal_of(self.counter as u32) as u16),
            km: Distance(self.km),
            words: self.len.saturating_sub(12) / 2,
        }
    }
}
