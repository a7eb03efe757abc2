//! What is kept of the newest end of a string.
ghost use Rattle.std.specs.Prelude.{◌≡◌, ◌≤◌, ◌<◌, ◌%◌, List, IfOk, IfSome, is_err};
ghost use Rattle.tach_media.specs.Medium.{Reads};
ghost use Rattle.card_model.specs.Days.{Day};
ghost use Rattle.card_model.specs.Image.{HoldsDays};
ghost use Rattle.card_days.specs.Held.{Held, IsInBounds, Knows};
ghost use Rattle.card_days.specs.Moments.{FileFitsIn};

use crate::circle::Circle;
use crate::{DayHead, Tail};
use card_model::lengths::DAY_LEAST;
use tach_media::{Failed, Medium};
use tacho_types::{Bcd2, Distance, TimeReal};

impl Circle {
    /// The string's tail; nothing is in use where there is no day.
    pub(crate) fn tail<M: Medium>(&self, medium: &mut M) -> Result<Tail, Failed>
        requires fits { FileFitsIn self.now (M.state medium.old) }
        ensures held { IfOk result (λ t. IsInBounds (record { shape = self.now; tail = t })) }
        ensures knows { IfOk result (λ t. IfSome (M.state medium.old).image (λ x. (days : List Day) → HoldsDays self.now
            x days → Knows (record { shape = self.now; tail = t }) x days)) }
        ensures reads { Reads (M.state medium.old) (M.state medium.new) (is_err result) }
    {
        let oldest = self.oldest(medium)?;
        let newest = self.newest(medium)?;
        let record = self.head_at(medium, newest)?;
        let len = Circle::day_len(record.len as u32);
        if len < DAY_LEAST {
            return Ok(no_day(newest));
        }
        let head = record.at(newest);
        let latest = self.word_at(medium, newest, head.words - 1)?;
        let used = at_most(self.distance(oldest, newest) + len, self.size());
        Ok(tail_of(head, latest, used))
    }
}

/// A tail of these.
fn tail_of(head: DayHead, latest: u32, used: u32) -> Tail
    requires { latest < 65536 }
    ensures { result ≡ record { head = head; latest = latest; used = used } }
{
    Tail {
        head,
        latest: latest as u16,
        used,
    }
}

/// A number, or the most that it may be.
fn at_most(n: u32, most: u32) -> u32
    ensures same { n ≤ most → result ≡ n }
    ensures most { result ≤ most }
    ensures even { n % 2 ≡ 0 → most % 2 ≡ 0 → result % 2 ≡ 0 }
{
    if n < most { n } else { most }
}

/// The tail of a string without a day, where the next one begins there.
fn no_day(place: u32) -> Tail
    ensures place { result.head.place ≡ place }
    ensures words { result.head.words ≡ 0 }
    ensures used { result.used ≡ 0 }
{
    Tail {
        head: DayHead {
            place,
            date: TimeReal(0),
            counter: Bcd2(0),
            km: Distance(0),
            words: 0,
        },
        latest: 0,
        used: 0,
    }
}
