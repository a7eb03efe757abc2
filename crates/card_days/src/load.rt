//! The string is judged day by day, from the oldest to the newest.
ghost use Rattle.std.specs.Prelude.{◌≡◌, ◌≤◌, ◌<◌, ◌+◌, ◌*◌, ◌%◌, Some, None, true, drop, IfOk, IfErr, IfSome, IfNone};
ghost use Rattle.std.specs.Prelude.{OnOk, is_err, ◌&&◌, nat_le, nat_lt};
ghost use Rattle.card_model.specs.declared.lengths.TheConstants.{DAY_LEAST, DAY_MOST, DAYS_MOST};
ghost use Rattle.card_layout.specs.declared.files.TheConstants.{STRING_LEAST, STRING_MOST};
ghost use Rattle.tach_media.specs.Medium.{Reads};
ghost use Rattle.card_model.specs.Image.{StringShape, IsStringShape, IsPointer, HoldsDays, spot, turned, string_of};
ghost use Rattle.card_model.specs.Image.{oldest_pointer, newest_pointer, circle_of, IsPlace};
ghost use Rattle.card_model.specs.Walk.{words_of, days_of};
ghost use Rattle.card_model.specs.Checks.{first_failing, first_bad, is_pointer, is_len, is_previous, is_date};
ghost use Rattle.card_model.specs.Checks.{is_decimal, field_checks, word_checks, record_checks, day_checks, file_place};
ghost use Rattle.card_model.specs.Checks.{is_empty};
ghost use Rattle.card_days.specs.Moments.{FileFitsIn};
ghost use Rattle.card_days.specs.Loading.{shape_of, IfBadDays, has_failed, ArePairs, IsRecord, FailsAt};

use crate::DaysFault;
use crate::bytes::read_two;
use crate::circle::Circle;
use crate::head::RecordHead;
use activity_codec::{DAY_MINUTES, DAY_SECONDS};
use card_layout::Range;
use card_model::lengths::{DAY_HEAD, DAY_LEAST, DAY_MOST};
use tach_media::{Failed, Medium};

impl Circle {
    /// Whether a length is that of a day behind so many bytes.
    fn is_len(&self, so_far: u32, len: u32) -> bool
        requires short { so_far < 65536 }
        requires low { len < 65536 }
        ensures { result ≡ is_len self.now.size so_far len }
    {
        let size = self.size();
        len % 2 == 0 && DAY_LEAST <= len && len <= DAY_MOST && so_far + len <= size
    }

    /// The offset of the first field of a record that fails.
    fn first_bad_field(&self, head: &RecordHead, so_far: u32, before: u32, date: u32) -> Option<u32>
        requires below { so_far < self.now.size }
        requires even { so_far % 2 ≡ 0 }
        requires shape { IsStringShape self.now }
        ensures first { result ≡ first_failing
            (field_checks self.now.size so_far before date head.now.previous head.now.len head.now.date
            head.now.counter) }
        ensures offset { IfSome result (λ k. (k % 2 ≡ 0) × (so_far + k ≤ self.now.size)) }
        ensures len { IfNone result ((head.now.len % 2 ≡ 0) × (DAY_LEAST ≤ head.now.len) × (head.now.len ≤ DAY_MOST)
            × (so_far + head.now.len ≤ self.now.size)) }
    {
        if !self.is_len(so_far, head.len as u32) {
            return Some(2);
        }
        if !is_previous(so_far, before, head.previous as u32) {
            return Some(0);
        }
        if !is_date(date, head.date) {
            return Some(4);
        }
        if !is_decimal(head.counter as u32) {
            return Some(8);
        }
        None
    }

    /// The offset of the first word of a record that fails.
    fn first_bad_word<M: Medium>(
        &self,
        medium: &mut M,
        place: u32,
        count: u32,
    ) -> Result<Option<u32>, Failed>
        requires works { (M.state medium.old).works ≡ true }
        requires fits { FileFitsIn self.now (M.state medium.old) }
        requires pointer { IsPointer self.now.size place }
        requires few { count ≤ 1440 }
        requires shape { IsStringShape self.now }
        ensures first { IfOk result (λ o. IfSome (M.state medium.old).image (λ x. o ≡ first_failing
            (word_checks 12 0 1 (words_of count (drop 12 (turned place (string_of self.now x))))))) }
        ensures spelled { IfOk result (λ o. IfSome (M.state medium.old).image
            (λ x. o ≡ None → ArePairs count (drop 12 (turned place (string_of self.now x))))) }
        ensures offset { IfOk result (λ o. IfSome o (λ k. (k % 2 ≡ 0) × (k < 12 + 2 * count))) }
        ensures reads { Reads (M.state medium.old) (M.state medium.new) (is_err result) }
    {
        let mut from = 0;
        let mut below = 1;
        let mut index = 0;
        while index < count {
            let offset = DAY_HEAD + 2 * index;
            let minute = self.two_at(medium, place, offset)? % 2048;
            if !is_between(from, minute, below) {
                return Ok(Some(offset));
            }
            from = minute;
            below = DAY_MINUTES;
            index += 1;
        }
        Ok(None)
    }

    /// The fault of a string that fails so far behind the oldest day.
    fn bad_at(&self, oldest: u32, distance: u32) -> DaysFault
        requires pointer { IsPointer self.now.size oldest }
        requires even { distance % 2 ≡ 0 }
        requires most { distance ≤ self.now.size }
        requires shape { IsStringShape self.now }
        ensures fault { result ≡ DaysFault.BadDays (file_place self.now.size oldest distance) }
        ensures place { IfBadDays result (λ p. p < 4 + self.now.size) }
    {
        DaysFault::BadDays(4 + self.spot(oldest, distance))
    }

    /// The head of the record that begins so far behind the oldest day, where it passes its checks. The day before has
    /// this length and this date.
    fn check_day<M: Medium>(
        &self,
        medium: &mut M,
        oldest: u32,
        so_far: u32,
        before: u32,
        date: u32,
    ) -> Result<RecordHead, DaysFault>
        requires fits { FileFitsIn self.now (M.state medium.old) }
        requires pointer { IsPointer self.now.size oldest }
        requires below { so_far < self.now.size }
        requires even { so_far % 2 ≡ 0 }
        ensures shape { IsStringShape self.now }
        ensures record { IfOk result (λ h. IfSome (M.state medium.old).image (λ x. IsRecord self.now.size so_far before
            date (turned (spot self.now.size oldest so_far) (string_of self.now x)) h)) }
        ensures len { IfOk result (λ h. (h.len % 2 ≡ 0) × (DAY_LEAST ≤ h.len) × (h.len ≤ DAY_MOST)
            × (so_far + h.len ≤ self.now.size)) }
        ensures bad { IfErr result (λ fault. IfBadDays fault (λ p. IfSome (M.state medium.old).image
            (λ x. FailsAt self.now.size oldest so_far before date
            (turned (spot self.now.size oldest so_far) (string_of self.now x)) p))) }
        ensures place { IfErr result (λ fault. IfBadDays fault (λ p. p < 4 + self.now.size)) }
        ensures reads { Reads (M.state medium.old) (M.state medium.new) (has_failed result) }
    {
        let place = self.spot(oldest, so_far);
        let head = self.head_at(medium, place)?;
        if let Some(offset) = self.first_bad_field(&head, so_far, before, date) {
            return Err(self.bad_at(oldest, so_far + offset));
        }
        let count = (head.len as u32 - DAY_HEAD) / 2;
        if let Some(offset) = self.first_bad_word(medium, place, count)? {
            return Err(self.bad_at(oldest, so_far + offset));
        }
        Ok(head)
    }

    /// Walks from the oldest day to the newest, which begins so far behind it.
    fn check_days<M: Medium>(
        &self,
        medium: &mut M,
        oldest: u32,
        reach: u32,
    ) -> Result<(), DaysFault>
        requires works { (M.state medium.old).works ≡ true }
        requires fits { FileFitsIn self.now (M.state medium.old) }
        requires pointer { IsPointer self.now.size oldest }
        requires below { reach < self.now.size }
        ensures shape { IsStringShape self.now }
        ensures days { OnOk result (IfSome (M.state medium.old).image
            (λ x. oldest ≡ oldest_pointer self.now x → IsPointer self.now.size (newest_pointer self.now x)
            → IsPlace self.now.size oldest reach (newest_pointer self.now x)
            → HoldsDays self.now x (days_of self.now x))) }
        ensures bad { IfErr result (λ fault. IfBadDays fault (λ p. IfSome (M.state medium.old).image
            (λ x. oldest ≡ oldest_pointer self.now x
            → first_failing (day_checks DAYS_MOST self.now.size oldest reach 0 0 0 (circle_of self.now x)) ≡ Some p))) }
        ensures place { IfErr result (λ fault. IfBadDays fault (λ p. p < 4 + self.now.size)) }
        ensures reads { Reads (M.state medium.old) (M.state medium.new) (has_failed result) }
    {
        let mut so_far = 0;
        let mut before = 0;
        let mut date = 0;
        loop {
            let head = self.check_day(medium, oldest, so_far, before, date)?;
            let len = head.len as u32;
            if so_far == reach {
                return Ok(());
            }
            if so_far + len > reach {
                return Err(DaysFault::BadDays(2));
            }
            so_far += len;
            before = len;
            date = head.date;
        }
    }

    /// Whether there is no day: both pointers are equal, and the length there is 0.
    fn is_empty<M: Medium>(&self, medium: &mut M, oldest: u32, newest: u32) -> Result<bool, Failed>
        requires works { (M.state medium.old).works ≡ true }
        requires fits { FileFitsIn self.now (M.state medium.old) }
        requires pointer { IsPointer self.now.size oldest }
        requires shape { IsStringShape self.now }
        ensures empty { IfOk result (λ b. IfSome (M.state medium.old).image (λ x. oldest ≡ oldest_pointer self.now x
            → newest ≡ newest_pointer self.now x → b ≡ is_empty self.now x)) }
        ensures reads { Reads (M.state medium.old) (M.state medium.new) (is_err result) }
    {
        if oldest != newest {
            return Ok(false);
        }
        let len = self.two_at(medium, oldest, 2)?;
        Ok(len == 0)
    }

    /// Whether a number is a pointer into the string.
    fn is_pointer(&self, n: u32) -> bool
        ensures { result ≡ is_pointer self.now.size n }
    {
        n < self.size() && n % 2 == 0
    }

    /// The days of a range, which is the file Driver_Activity_Data. It writes nothing. `BadDays` comes exactly where
    /// the string holds no list of days, with the place in the file where it first fails: the pointers; then of each
    /// day, oldest first, its length, the length of the day before, its date, its counter and its words; and that the
    /// next day begins at the newest pointer or before it.
    pub(crate) fn load<M: Medium>(medium: &mut M, range: Range) -> Result<Circle, DaysFault>
        requires inside { range.base + range.len ≤ (M.state medium.old).size }
        requires even { range.len % 2 ≡ 0 }
        requires low { 4 + STRING_LEAST ≤ range.len }
        requires high { range.len ≤ 4 + STRING_MOST }
        ensures shape { IfOk result (λ days. days ≡ shape_of range) }
        ensures days { OnOk result (IfSome (M.state medium.old).image
            (λ x. HoldsDays (shape_of range) x (days_of (shape_of range) x))) }
        ensures bad { IfErr result (λ fault. IfBadDays fault (λ p. IfSome (M.state medium.old).image
            (λ x. first_bad (shape_of range) x ≡ Some p))) }
        ensures place { IfErr result (λ fault. IfBadDays fault (λ p. p < range.len)) }
        ensures reads { Reads (M.state medium.old) (M.state medium.new) (has_failed result) }
    {
        // for the proof alone: a size is below 2 ^ 32, and so the range ends there
        let _size = medium.size();
        let days = Circle::of(range);
        let oldest = read_two(medium, range.base)?;
        if !days.is_pointer(oldest) {
            return Err(DaysFault::BadDays(0));
        }
        let newest = read_two(medium, range.base + 2)?;
        if !days.is_pointer(newest) {
            return Err(DaysFault::BadDays(2));
        }
        if days.is_empty(medium, oldest, newest)? {
            return Ok(days);
        }
        let reach = days.distance(oldest, newest);
        days.check_days(medium, oldest, reach)?;
        Ok(days)
    }
}

/// Whether a minute is not before one and before another.
fn is_between(from: u32, minute: u32, below: u32) -> bool
    ensures { result ≡ (nat_le from minute && nat_lt minute below) }
{
    from <= minute && minute < below
}

/// Whether a previous length is that of the day before, which is not asked of the oldest day.
fn is_previous(so_far: u32, before: u32, previous: u32) -> bool
    ensures { result ≡ is_previous so_far before previous }
{
    so_far == 0 || previous == before
}

/// Whether a date is a midnight later than the date before.
fn is_date(before: u32, date: u32) -> bool
    ensures { result ≡ is_date before date }
{
    date % DAY_SECONDS == 0 && before < date
}

/// Whether the half-bytes of a number are decimal digits.
fn is_decimal(n: u32) -> bool
    ensures { result ≡ is_decimal n }
{
    n / 4096 < 10 && n / 256 % 16 < 10 && n / 16 % 16 < 10 && n % 16 < 10
}
