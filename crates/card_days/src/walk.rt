//! Walks from a day to the next, and to the one before.
ghost use Rattle.std.specs.Prelude.{◌≡◌, ◌≤◌, ◌<◌, ◌+◌, List, length, slice_get, slice_index, None, IfOk, OnOk, IfSome};
ghost use Rattle.std.specs.Prelude.{is_err};
ghost use Rattle.std.specs.List.{last_or};
ghost use Rattle.tach_media.specs.Medium.{Reads};
ghost use Rattle.card_model.specs.Days.{Day};
ghost use Rattle.card_model.specs.Image.{StringShape, HoldsDays, IsAt};
ghost use Rattle.card_days.specs.Moments.{FileFitsIn};
ghost use Rattle.card_days.specs.Heads.{heads_of, IsAfter, IsBefore};

use crate::DayHead;
use crate::circle::Circle;
use activity_codec::DAY_MINUTES;
use tach_media::{Failed, Medium};

impl Circle {
    /// The head of the oldest day; `None` exactly where there is no day.
    pub(crate) fn first<M: Medium>(&self, medium: &mut M) -> Result<Option<DayHead>, Failed>
        requires fits { FileFitsIn self.now (M.state medium.old) }
        ensures first { IfOk result (λ o. IfSome (M.state medium.old).image (λ x. (days : List Day) → HoldsDays self.now
            x days → o ≡ slice_get (heads_of self.now x days) 0)) }
        ensures place { IfOk result (λ o. IfSome o (λ h. h.place < self.now.size)) }
        ensures reads { Reads (M.state medium.old) (M.state medium.new) (is_err result) }
    {
        let oldest = self.oldest(medium)?;
        self.day_at(medium, oldest)
    }

    /// The head of the newest day; `None` exactly where there is no day.
    pub(crate) fn last<M: Medium>(&self, medium: &mut M) -> Result<Option<DayHead>, Failed>
        requires fits { FileFitsIn self.now (M.state medium.old) }
        ensures last { IfOk result (λ o. IfSome (M.state medium.old).image (λ x. (days : List Day) → HoldsDays self.now
            x days → o ≡ last_or None (heads_of self.now x days))) }
        ensures place { IfOk result (λ o. IfSome o (λ h. h.place < self.now.size)) }
        ensures reads { Reads (M.state medium.old) (M.state medium.new) (is_err result) }
    {
        let newest = self.newest(medium)?;
        self.day_at(medium, newest)
    }

    /// The head of the day after one that is there; `None` exactly behind the newest. It follows the day's length.
    pub(crate) fn after<M: Medium>(
        &self,
        medium: &mut M,
        head: &DayHead,
    ) -> Result<Option<DayHead>, Failed>
        requires fits { FileFitsIn self.now (M.state medium.old) }
        requires place { head.now.place < 4 + self.now.size }
        ensures after { IfOk result (λ o. IfSome (M.state medium.old).image (λ x. IsAfter self.now x head.now o)) }
        ensures place { IfOk result (λ o. IfSome o (λ h. h.place < self.now.size)) }
        ensures reads { Reads (M.state medium.old) (M.state medium.new) (is_err result) }
    {
        let place = self.pointer(head.place);
        if self.newest(medium)? == place {
            return Ok(None);
        }
        let len = self.len_at(medium, place)?;
        self.day_at(medium, self.spot(place, len))
    }

    /// The head of the day before one that is there; `None` exactly before the oldest. It follows the length that the
    /// day tells of the one before it.
    pub(crate) fn before<M: Medium>(
        &self,
        medium: &mut M,
        head: &DayHead,
    ) -> Result<Option<DayHead>, Failed>
        requires fits { FileFitsIn self.now (M.state medium.old) }
        requires place { head.now.place < 4 + self.now.size }
        ensures before { IfOk result (λ o. IfSome (M.state medium.old).image (λ x. IsBefore self.now x head.now o)) }
        ensures place { IfOk result (λ o. IfSome o (λ h. h.place < self.now.size)) }
        ensures reads { Reads (M.state medium.old) (M.state medium.new) (is_err result) }
    {
        let place = self.pointer(head.place);
        if self.oldest(medium)? == place {
            return Ok(None);
        }
        let len = self.previous_at(medium, place)?;
        self.day_at(medium, self.back(place, len))
    }

    /// A change word of a day that is there, counted from 0.
    pub(crate) fn word<M: Medium>(
        &self,
        medium: &mut M,
        head: &DayHead,
        index: u16,
    ) -> Result<u16, Failed>
        requires fits { FileFitsIn self.now (M.state medium.old) }
        requires place { head.now.place < 4 + self.now.size }
        requires there { index < head.now.words }
        ensures word { IfOk result (λ w. IfSome (M.state medium.old).image (λ x. (d : Day) → IsAt self.now x
            head.now.place d → index < length d.words → w ≡ slice_index d.words index)) }
        ensures reads { Reads (M.state medium.old) (M.state medium.new) (is_err result) }
    {
        let place = self.pointer(head.place);
        let index = if index < DAY_MINUTES as u16 { index } else { 0 };
        let word = self.word_at(medium, place, index)?;
        Ok(word as u16)
    }
}
