//! The days and words that are later than a minute go.
ghost use Rattle.std.specs.Prelude.{◌≡◌, ◌≤◌, ◌<◌, ◌+◌, List, length, IfOk, OnOk, IfSome, is_err, option_map};
ghost use Rattle.std.specs.Prelude.{true, []};
ghost use Rattle.card_model.specs.declared.lengths.TheConstants.{DAYS_MOST};
ghost use Rattle.tach_media.specs.Medium.{LeavesOnly, Reads, HasCause, LiesInside, IsPartlyWritten, IsSettled};
ghost use Rattle.tach_media.specs.Medium.{last_count, put};
ghost use Rattle.card_model.specs.Days.{Day};
ghost use Rattle.card_model.specs.Bytes.{two_bytes};
ghost use Rattle.card_model.specs.Changes.{early, until, date_of, cut};
ghost use Rattle.card_model.specs.Image.{HoldsDays, IsAt, IsPointer, IsStringShape};
ghost use Rattle.card_days.specs.Moments.{FileFitsIn};
ghost use Rattle.card_days.specs.Rears.{IsRear, LiesOn};
ghost use Rattle.card_days.specs.Trim.{IsWithoutLast, IsLosingLast, IsTrimming, IsCutLast};
ghost use Rattle.card_days.specs.Trim.{IsCuttingLast, IsTrimMoment, WritesWhereDays};
ghost use Rattle.card_days.specs.Calls.{DroppedDays, TrimmedDays};

use super::Circle;
use crate::bytes::write_two;
use crate::rear::Rear;
use activity_codec::{DAY_MINUTES, DAY_SECONDS};
use card_model::lengths::{DAY_HEAD, DAY_LEAST, DAYS_MOST};
use tach_media::{Failed, Medium};

impl Circle {
    /// Writes the newest pointer.
    fn put_newest<M: Medium>(&self, medium: &mut M, n: u32) -> Result<(), Failed>
        requires fits { FileFitsIn self.now (M.state medium.old) }
        requires writable { LiesInside (M.state medium.old).writable self.now.base (4 + self.now.size) }
        requires pointer { IsPointer self.now.size n }
        ensures written { OnOk result ((M.state medium.new).image ≡ option_map (put (self.now.base + 2) (two_bytes n))
            (M.state medium.old).image) }
        ensures moments { LeavesOnly (M.state medium.old) (M.state medium.new)
            (IsPartlyWritten (self.now.base + 2) (two_bytes n)) }
        ensures settled { OnOk result ((M.state medium.new).clock < last_count → IsSettled (M.state medium.new)) }
        ensures cause { HasCause (M.state medium.old) (M.state medium.new) (is_err result) }
        ensures most { (M.state medium.new).clock ≤ (M.state medium.old).clock + 1 }
    {
        write_two(medium, self.base + 2, n)
    }

    /// Drops the newest day, as it was read. What stands at the newest end then.
    fn drop_newest<M: Medium>(&self, medium: &mut M, rear: Rear) -> Result<Rear, Failed>
        requires fits { FileFitsIn self.now (M.state medium.old) }
        requires writable { LiesInside (M.state medium.old).writable self.now.base (4 + self.now.size) }
        requires shape { IsStringShape self.now }
        requires lies { LiesOn self.now rear }
        requires known { IfSome (M.state medium.old).image (IsRear self.now rear) }
        ensures shortened { OnOk result (IfSome (M.state medium.old).image
            (λ x. IfSome (M.state medium.new).image (IsWithoutLast self.now x))) }
        ensures moments { LeavesOnly (M.state medium.old) (M.state medium.new) (IsLosingLast self.now) }
        ensures settled { OnOk result ((M.state medium.new).clock < last_count → IsSettled (M.state medium.new)) }
        ensures cause { HasCause (M.state medium.old) (M.state medium.new) (is_err result) }
        ensures most { (M.state medium.new).clock ≤ (M.state medium.old).clock + 1 }
        ensures lies { IfOk result (LiesOn self.now) }
        ensures known { IfOk result (λ v. IfSome (M.state medium.new).image (IsRear self.now v)) }
    {
        if rear.oldest == rear.newest {
            self.put_two(medium, self.spot(rear.newest, 2), 0)?;
            return self.rear(medium);
        }
        let len = Self::day_len(rear.head.previous as u32);
        let newest = self.back(rear.newest, len);
        self.put_newest(medium, newest)?;
        self.rear_at(medium, rear.oldest, newest, rear.block)
    }

    /// Drops the days later than a date, the newest first, each by a write of its own; their heads are read in blocks.
    /// A stop at a moment of the call leaves a list between the days before and those up to the date.
    pub(crate) fn drop_later<M: Medium>(&self, medium: &mut M, date: u64) -> Result<(), Failed>
        requires fits { FileFitsIn self.now (M.state medium.old) }
        requires writable { LiesInside (M.state medium.old).writable self.now.base (4 + self.now.size) }
        ensures shape { IsStringShape self.now }
        ensures dropped { OnOk result (DroppedDays self.now date (M.state medium.old) (M.state medium.new)) }
        ensures moments { LeavesOnly (M.state medium.old) (M.state medium.new) (IsTrimming self.now date 0) }
        ensures empty { IfSome (M.state medium.old).image
            (λ x. HoldsDays self.now x [] → Reads (M.state medium.old) (M.state medium.new) (is_err result)) }
        ensures cause { HasCause (M.state medium.old) (M.state medium.new) (is_err result) }
        ensures most { (M.state medium.new).clock ≤ (M.state medium.old).clock + DAYS_MOST }
        ensures writes { IfSome (M.state medium.old).image
            (λ x. (days : List Day) → HoldsDays self.now x days
            → (M.state medium.new).clock + length (until date days) ≤ (M.state medium.old).clock + (length days + 1)) }
    {
        let mut rear = self.rear(medium)?;
        let mut later = rear.is_later(date);
        let mut count: u32 = 0;
        while later && count < DAYS_MOST {
            rear = self.drop_newest(medium, rear)?;
            later = rear.is_later(date);
            count += 1;
        }
        Ok(())
    }

    /// How many words of the day at a place are not later than a minute of the day. They ascend, so each word that is
    /// read halves those that are left to look at.
    pub(crate) fn words_until<M: Medium>(
        &self,
        medium: &mut M,
        place: u32,
        count: u16,
        minute: u32,
    ) -> Result<u16, Failed>
        requires works { (M.state medium.old).works ≡ true }
        requires fits { FileFitsIn self.now (M.state medium.old) }
        requires pointer { IsPointer self.now.size place }
        requires few { count ≤ 1440 }
        requires shape { IsStringShape self.now }
        ensures words { IfOk result (λ k. IfSome (M.state medium.old).image (λ x. (d : Day) → IsAt self.now x place d
            → count ≡ length d.words → k ≡ length (early minute d.words))) }
        ensures most { IfOk result (λ k. k ≤ count) }
        ensures reads { Reads (M.state medium.old) (M.state medium.new) (is_err result) }
    {
        let mut kept: u16 = 0;
        let mut end = count;
        while kept < end {
            let middle = kept + (end - kept) / 2;
            let word = self.word_at(medium, place, middle)?;
            if word % 2048 > minute {
                end = middle;
            } else {
                kept = middle + 1;
            }
        }
        Ok(kept)
    }

    /// How many words stay of the day at a place, which has this date and so many words.
    fn kept_words<M: Medium>(
        &self,
        medium: &mut M,
        place: u32,
        count: u16,
        date: u32,
        minute: u32,
    ) -> Result<u16, Failed>
        requires works { (M.state medium.old).works ≡ true }
        requires fits { FileFitsIn self.now (M.state medium.old) }
        requires pointer { IsPointer self.now.size place }
        requires few { count ≤ 1440 }
        requires shape { IsStringShape self.now }
        ensures kept { IfOk result (λ k. IfSome (M.state medium.old).image (λ x. (d : Day) → IsAt self.now x place d
            → count ≡ length d.words → date ≡ d.date → k ≡ length (cut minute d).words)) }
        ensures most { IfOk result (λ k. k ≤ count) }
        ensures reads { Reads (M.state medium.old) (M.state medium.new) (is_err result) }
    {
        if u64::from(date) != first_second(minute) {
            return Ok(count);
        }
        self.words_until(medium, place, count, minute % DAY_MINUTES)
    }

    /// Cuts the newest day, if there is one, behind its last word that is not later than a minute.
    fn cut<M: Medium>(&self, medium: &mut M, minute: u32) -> Result<(), Failed>
        requires fits { FileFitsIn self.now (M.state medium.old) }
        requires writable { LiesInside (M.state medium.old).writable self.now.base (4 + self.now.size) }
        ensures cut { OnOk result (IfSome (M.state medium.old).image
            (λ x. IfSome (M.state medium.new).image (IsCutLast self.now minute x))) }
        ensures moments { LeavesOnly (M.state medium.old) (M.state medium.new) (IsCuttingLast self.now minute) }
        ensures settled { OnOk result (WritesWhereDays self.now (M.state medium.old) (M.state medium.new)) }
        ensures empty { IfSome (M.state medium.old).image
            (λ x. HoldsDays self.now x [] → Reads (M.state medium.old) (M.state medium.new) (is_err result)) }
        ensures cause { HasCause (M.state medium.old) (M.state medium.new) (is_err result) }
        ensures most { (M.state medium.new).clock ≤ (M.state medium.old).clock + 1 }
    {
        let newest = self.newest(medium)?;
        let head = self.head_at(medium, newest)?;
        let len = Self::day_len(head.len as u32);
        if len < DAY_LEAST {
            return Ok(());
        }
        let count = ((len - DAY_HEAD) / 2) as u16;
        let kept = self.kept_words(medium, newest, count, head.date, minute)?;
        self.put_two(medium, self.spot(newest, 2), DAY_HEAD + 2 * kept as u32)
    }

    /// Leaves no day and no word later than a minute: the days later than the minute's day go, the newest first, and
    /// then the words of the newest day that are later. A stop at a moment of the call leaves a list of days between.
    /// Where there is no day, it only reads.
    pub(crate) fn trim<M: Medium>(&self, medium: &mut M, minute: u32) -> Result<(), Failed>
        requires fits { FileFitsIn self.now (M.state medium.old) }
        requires writable { LiesInside (M.state medium.old).writable self.now.base (4 + self.now.size) }
        ensures trimmed { OnOk result (TrimmedDays self.now minute (M.state medium.old) (M.state medium.new)) }
        ensures moments { LeavesOnly (M.state medium.old) (M.state medium.new) (IsTrimMoment self.now minute) }
        ensures empty { IfSome (M.state medium.old).image
            (λ x. HoldsDays self.now x [] → Reads (M.state medium.old) (M.state medium.new) (is_err result)) }
        ensures cause { HasCause (M.state medium.old) (M.state medium.new) (is_err result) }
        ensures most { (M.state medium.new).clock ≤ (M.state medium.old).clock + (DAYS_MOST + 1) }
        ensures writes { IfSome (M.state medium.old).image
            (λ x. (days : List Day) → HoldsDays self.now x days
            → (M.state medium.new).clock + length (until (date_of minute) days)
            ≤ (M.state medium.old).clock + (length days + 1)) }
    {
        self.drop_later(medium, first_second(minute))?;
        self.cut(medium, minute)
    }
}

/// The first second of a minute's day.
fn first_second(minute: u32) -> u64
    ensures { result ≡ date_of minute }
{
    u64::from(minute / DAY_MINUTES) * DAY_SECONDS as u64
}
