//! The string of days as its callers have it: it is loaded, and read day by day.
ghost use Rattle.std.specs.Prelude.{◌≡◌, ◌≢◌, ◌≤◌, ◌<◌, ◌+◌, ◌*◌, ◌%◌, ℕ, List, [], length, slice_get, slice_index};
ghost use Rattle.std.specs.Prelude.{None, IfOk, IfErr, OnOk, IfSome, is_err};
ghost use Rattle.card_layout.specs.declared.files.TheConstants.{STRING_LEAST, STRING_MOST};
ghost use Rattle.std.specs.List.{last_or};
ghost use Rattle.tach_media.specs.Medium.{LeavesOnly, Reads, HasCause, LiesInside, IsSettled, last_count};
ghost use Rattle.card_model.specs.Checks.{first_bad};
ghost use Rattle.card_model.specs.Days.{Day};
ghost use Rattle.card_model.specs.Image.{HoldsDays, IsAt};
ghost use Rattle.card_model.specs.Walk.{days_of};
ghost use Rattle.card_days.specs.Heads.{heads_of, IsAfter, IsBefore};
ghost use Rattle.card_days.specs.Held.{Knows, IsInBounds, newest_len, tail_of, tail_in};
ghost use Rattle.card_days.specs.Loading.{shape_of, IfBadDays, has_failed};
ghost use Rattle.card_days.specs.Moments.{FileFitsIn};

mod plan;
mod write;

use crate::circle::Circle;
use crate::{DayHead, DaysFault, Tail};
use card_layout::Range;
use std::marker::Model;
use tach_media::{Failed, Medium};

/// The days of a string, which a medium holds. The string's tail is kept between the calls, so that none reads what is
/// known. After a `Failed` it is given up, and the string is loaded again.
#[derive(Drop)]
pub struct Days {
    circle: Circle,
    tail: Tail,
}

impl Model for Days {
    ghost use Rattle.card_days.specs.Held.{Held, IsInBounds};

    ghost Value = { Held };

    ghost view = { λ d. record { shape = d.circle; tail = d.tail } };

    ghost invariant = { λ d. IsInBounds (record { shape = d.circle; tail = d.tail }) };
}

impl Days {
    /// The days of a range, which is the file Driver_Activity_Data. It writes nothing.
    ///
    /// # Errors
    ///
    /// 1. `Failed` where a call on the medium failed.
    /// 2. `BadDays` exactly where the string holds no list of days, with the place in the file where it first fails:
    ///    the pointers; then of each day, oldest first, its length, the length of the day before, its date, its counter
    ///    and its words; and that the next day begins at the newest pointer or before it.
    pub fn load<M: Medium>(medium: &mut M, range: Range) -> Result<Days, DaysFault>
        requires inside { range.base + range.len ≤ (M.state medium.old).size }
        requires even { range.len % 2 ≡ 0 }
        requires low { 4 + STRING_LEAST ≤ range.len }
        requires high { range.len ≤ 4 + STRING_MOST }
        ensures shape { IfOk result (λ days. days.shape ≡ shape_of range) }
        ensures days { IfOk result (λ days. IfSome (M.state medium.old).image (λ x. Knows days x
            (days_of (shape_of range) x))) }
        ensures bad { IfErr result (λ fault. IfBadDays fault (λ p. IfSome (M.state medium.old).image
            (λ x. first_bad (shape_of range) x ≡ Some p))) }
        ensures place { IfErr result (λ fault. IfBadDays fault (λ p. p < range.len)) }
        ensures reads { Reads (M.state medium.old) (M.state medium.new) (has_failed result) }
    {
        let circle = Circle::load(medium, range)?;
        let tail = circle.tail(medium)?;
        Ok(Days { circle, tail })
    }

    /// The newest day's head, its latest word, and the bytes in use; `None` exactly where there is no day. It reads
    /// nothing.
    pub fn tail(&self) -> Option<Tail>
        ensures tail { result ≡ tail_of self.now }
        ensures newest { (x : List ℕ) (days : List Day) → Knows self.now x days
            → result ≡ tail_in self.now.shape x days }
    {
        if self.tail.used == 0 {
            return None;
        }
        Some(self.tail)
    }

    /// The head of the oldest day; `None` exactly where there is no day.
    ///
    /// # Errors
    ///
    /// `Failed` where a call on the medium failed.
    pub fn first<M: Medium>(&self, medium: &mut M) -> Result<Option<DayHead>, Failed>
        requires fits { FileFitsIn self.now.shape (M.state medium.old) }
        ensures first { IfOk result (λ o. IfSome (M.state medium.old).image (λ x. (days : List Day) → HoldsDays
            self.now.shape x days → o ≡ slice_get (heads_of self.now.shape x days) 0)) }
        ensures place { IfOk result (λ o. IfSome o (λ h. h.place < self.now.shape.size)) }
        ensures reads { Reads (M.state medium.old) (M.state medium.new) (is_err result) }
    {
        self.circle.first(medium)
    }

    /// The head of the newest day; `None` exactly where there is no day.
    ///
    /// # Errors
    ///
    /// `Failed` where a call on the medium failed.
    pub fn last<M: Medium>(&self, medium: &mut M) -> Result<Option<DayHead>, Failed>
        requires fits { FileFitsIn self.now.shape (M.state medium.old) }
        ensures last { IfOk result (λ o. IfSome (M.state medium.old).image (λ x. (days : List Day) → HoldsDays
            self.now.shape x days → o ≡ last_or None (heads_of self.now.shape x days))) }
        ensures place { IfOk result (λ o. IfSome o (λ h. h.place < self.now.shape.size)) }
        ensures reads { Reads (M.state medium.old) (M.state medium.new) (is_err result) }
    {
        self.circle.last(medium)
    }

    /// The head of the day after one that is there; `None` exactly behind the newest. It follows the day's length.
    ///
    /// # Errors
    ///
    /// `Failed` where a call on the medium failed.
    pub fn after<M: Medium>(
        &self,
        medium: &mut M,
        head: &DayHead,
    ) -> Result<Option<DayHead>, Failed>
        requires fits { FileFitsIn self.now.shape (M.state medium.old) }
        requires place { head.now.place < 4 + self.now.shape.size }
        ensures after { IfOk result (λ o. IfSome (M.state medium.old).image (λ x. IsAfter self.now.shape x head.now
            o)) }
        ensures place { IfOk result (λ o. IfSome o (λ h. h.place < self.now.shape.size)) }
        ensures reads { Reads (M.state medium.old) (M.state medium.new) (is_err result) }
    {
        self.circle.after(medium, head)
    }

    /// The head of the day before one that is there; `None` exactly before the oldest. It follows the length that the
    /// day tells of the one before it.
    ///
    /// # Errors
    ///
    /// `Failed` where a call on the medium failed.
    pub fn before<M: Medium>(
        &self,
        medium: &mut M,
        head: &DayHead,
    ) -> Result<Option<DayHead>, Failed>
        requires fits { FileFitsIn self.now.shape (M.state medium.old) }
        requires place { head.now.place < 4 + self.now.shape.size }
        ensures before { IfOk result (λ o. IfSome (M.state medium.old).image (λ x. IsBefore self.now.shape x head.now
            o)) }
        ensures place { IfOk result (λ o. IfSome o (λ h. h.place < self.now.shape.size)) }
        ensures reads { Reads (M.state medium.old) (M.state medium.new) (is_err result) }
    {
        self.circle.before(medium, head)
    }

    /// A change word of a day that is there, counted from 0.
    ///
    /// # Errors
    ///
    /// `Failed` where a call on the medium failed.
    pub fn word<M: Medium>(&self, medium: &mut M, head: &DayHead, index: u16) -> Result<u16, Failed>
        requires fits { FileFitsIn self.now.shape (M.state medium.old) }
        requires place { head.now.place < 4 + self.now.shape.size }
        requires there { index < head.now.words }
        ensures word { IfOk result (λ w. IfSome (M.state medium.old).image (λ x. (d : Day) → IsAt self.now.shape x
            head.now.place d → index < length d.words → w ≡ slice_index d.words index)) }
        ensures reads { Reads (M.state medium.old) (M.state medium.new) (is_err result) }
    {
        self.circle.word(medium, head, index)
    }
}
