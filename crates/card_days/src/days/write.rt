//! The calls that write days, words and distances.
ghost use Rattle.std.specs.Prelude.{◌≡◌, ◌⊎◌, false, [], ◌≤◌, ◌<◌, ◌+◌, ◌-◌, ◌*◌, ◌%◌, List, length, IfOk, OnOk};
ghost use Rattle.std.specs.Prelude.{IfSome, is_err};
ghost use Rattle.card_model.specs.declared.lengths.TheConstants.{DAYS_MOST};
ghost use Rattle.tach_media.specs.Medium.{LeavesOnly, Reads, HasCause, LiesInside, Alters};
ghost use Rattle.tach_media.specs.Plan.{PutsAll, PutsBy};
ghost use Rattle.card_model.specs.Days.{Day, last_word};
ghost use Rattle.card_model.specs.Changes.{fitting, until, date_of};
ghost use Rattle.card_model.specs.Image.{HoldsDays, IsPointer};
ghost use Rattle.card_days.specs.Held.{IsInBounds, Knows, EndsWith};
ghost use Rattle.card_days.specs.Moments.{FileFitsIn, IfKnown, IsChanging, IsChanged, IsDayBeginning};
ghost use Rattle.card_days.specs.Moments.{IsDayBegun};
ghost use Rattle.card_days.specs.Plans.{left_in, most_drops, change_pieces, tail_more, beginning_pieces, tail_begun};
ghost use Rattle.card_days.specs.Plans.{mend_pieces, km_pieces, tail_km};
ghost use Rattle.card_days.specs.Steps.{SameDays, IsIdle, IsMeasured, IsMeasuring, KnowsMeasured};
ghost use Rattle.card_days.specs.Trim.{IsTrimMoment};
ghost use Rattle.card_days.specs.Calls.{AddedWord, BeganDay, CutDays, EndedDrop};

use super::Days;
use crate::bytes::body_of;
use crate::{DayHead, Tail};
use activity_codec::DAY_MINUTES;
use card_model::lengths::DAY_HEAD;
use tach_media::{Failed, Medium, put_pieces};
use tacho_types::{Bcd2, Distance, TimeReal};

impl Days {
    /// Makes the writes of a change: how many bytes are in use then.
    fn change<M: Medium>(&self, medium: &mut M, word: u16) -> Result<u32, Failed>
        requires fits { FileFitsIn self.now.shape (M.state medium.old) }
        requires writable { LiesInside (M.state medium.old).writable self.now.shape.base (4 + self.now.shape.size) }
        ensures puts { PutsBy (M.state medium.old) (M.state medium.new) (is_err result) 2
            (2 + 2 * most_drops self.now.shape.size self.now.tail.used 2) (change_pieces self.now word) }
        ensures exact { IfSome (M.state medium.old).image
            (λ x. (M.state medium.new).clock ≤ (M.state medium.old).clock + length (change_pieces self.now word x)) }
        ensures used { IfOk result (λ n. IfSome (M.state medium.old).image (λ x. n ≡ left_in self.now 2 x
            self.now.tail.used + 2)) }
        ensures some { IfOk result (λ n. 0 < n) }
        ensures most { IfOk result (λ n. n + 14 * most_drops self.now.shape.size self.now.tail.used 2
            ≤ self.now.tail.used + 2) }
        ensures within { IfOk result (λ n. n ≤ self.now.shape.size) }
        ensures even { IfOk result (λ n. n % 2 ≡ 0) }
    {
        let mut plan = self.writing();
        let left = self.make_room(medium, &mut plan, self.tail.used, 2)?;
        self.plan_word(&mut plan, word);
        put_pieces(medium, &plan)?;
        Ok(left + 2)
    }

    /// Makes the writes of a new day: how many bytes are in use then.
    fn begin<M: Medium>(&self, medium: &mut M, date: u32, words: &[u16]) -> Result<u32, Failed>
        requires fits { FileFitsIn self.now.shape (M.state medium.old) }
        requires writable { LiesInside (M.state medium.old).writable self.now.shape.base (4 + self.now.shape.size) }
        requires some { 1 ≤ length words.now }
        requires few { length words.now ≤ 2 }
        ensures puts { PutsBy (M.state medium.old) (M.state medium.new) (is_err result) 3
            (5 + 2 * most_drops self.now.shape.size self.now.tail.used (12 + 2 * length words.now))
            (beginning_pieces self.now date words.now) }
        ensures exact { IfSome (M.state medium.old).image
            (λ x. (M.state medium.new).clock
            ≤ (M.state medium.old).clock + length (beginning_pieces self.now date words.now x)) }
        ensures some { IfOk result (λ n. 0 < n) }
        ensures used { IfOk result (λ n. IfSome (M.state medium.old).image (λ x. n ≡ left_in self.now
            (12 + 2 * length words.now) x (left_in self.now (12 + 2 * length words.now) x self.now.tail.used)
            + (12 + 2 * length words.now))) }
        ensures within { IfOk result (λ n. n ≤ self.now.shape.size) }
        ensures even { IfOk result (λ n. n % 2 ≡ 0) }
    {
        let new = DAY_HEAD + 2 * words.len() as u32;
        let mut plan = self.writing();
        let once = self.make_room(medium, &mut plan, self.tail.used, new)?;
        let twice = self.make_room(medium, &mut plan, once, new)?;
        let bytes = body_of(date, self.next_counter(), words);
        self.plan_day(&mut plan, &bytes[..8 + 2 * words.len()]);
        put_pieces(medium, &plan)?;
        Ok(twice + new)
    }

    /// The tail with that day.
    fn new_tail(&self, date: TimeReal, words: &[u16], used: u32) -> Tail
        requires some { 1 ≤ length words.now }
        requires few { length words.now ≤ 2 }
        ensures tail { result ≡ tail_begun self.now date.0 words.now used }
        ensures pointer { IsPointer self.now.shape.size result.head.place }
        ensures words { result.head.words ≤ 2 }
    {
        let counter = self.next_counter() as u16;
        Tail {
            head: DayHead {
                place: self.end(),
                date,
                counter: Bcd2(counter),
                km: Distance(0),
                words: words.len() as u16,
            },
            latest: words[words.len() - 1],
            used,
        }
    }

    /// Begins a day. The oldest days go where there is no room. A stop at a moment of the call leaves the days before,
    /// without those of the oldest that must go, or the new list.
    ///
    /// # Errors
    ///
    /// `Failed` where a call on the medium failed. What is kept is given up then: the string is loaded again.
    pub fn begin_day<M: Medium>(
        &mut self,
        medium: &mut M,
        date: TimeReal,
        words: &[u16],
    ) -> Result<(), Failed>
        requires fits { FileFitsIn self.old.shape (M.state medium.old) }
        requires writable { LiesInside (M.state medium.old).writable self.old.shape.base (4 + self.old.shape.size) }
        requires some { 1 ≤ length words.now }
        requires few { length words.now ≤ 2 }
        ensures shape { self.new.shape ≡ self.old.shape }
        ensures ends { OnOk result (EndsWith self.new date.0 (last_word words.now)) }
        ensures puts { PutsBy (M.state medium.old) (M.state medium.new) (is_err result) 3
            (5 + 2 * most_drops self.old.shape.size self.old.tail.used (12 + 2 * length words.now))
            (beginning_pieces self.old date.0 words.now) }
        ensures alters { Alters result (M.state medium.old) (M.state medium.new)
            (5 + 2 * most_drops self.old.shape.size self.old.tail.used (12 + 2 * length words.now))
            (IfKnown self.old (IsDayBegun self.old.shape date.0 words.now))
            (IfKnown self.old (IsDayBeginning self.old.shape date.0 words.now)) }
        ensures began { OnOk result
            (BeganDay self.old self.new date.0 words.now (M.state medium.old) (M.state medium.new)) }
        ensures writes { IfSome (M.state medium.old).image (λ x. (days : List Day) → Knows self.old x days
            → (M.state medium.new).clock + 2 * length (fitting (self.old.shape.size - (12 + 2 * length words.now)) days)
            ≤ (M.state medium.old).clock + (5 + 2 * length days)) }
    {
        let used = self.begin(medium, date.0, words)?;
        self.tail = self.new_tail(date, words, used);
        Ok(())
    }

    /// Adds a word to the newest day. The oldest day goes where there is no room. A stop at a moment of the call leaves
    /// the days before, without the oldest where it must go, or the new ones.
    ///
    /// # Errors
    ///
    /// `Failed` where a call on the medium failed. What is kept is given up then: the string is loaded again.
    pub fn add_change<M: Medium>(&mut self, medium: &mut M, word: u16) -> Result<(), Failed>
        requires fits { FileFitsIn self.old.shape (M.state medium.old) }
        requires writable { LiesInside (M.state medium.old).writable self.old.shape.base (4 + self.old.shape.size) }
        ensures held { IsInBounds self.old }
        ensures shape { self.new.shape ≡ self.old.shape }
        ensures puts { PutsBy (M.state medium.old) (M.state medium.new) (is_err result) 2
            (2 + 2 * most_drops self.old.shape.size self.old.tail.used 2) (change_pieces self.old word) }
        ensures alters { Alters result (M.state medium.old) (M.state medium.new)
            (2 + 2 * most_drops self.old.shape.size self.old.tail.used 2)
            (IfKnown self.old (IsChanged self.old.shape word)) (IfKnown self.old (IsChanging self.old.shape word)) }
        ensures added { OnOk result (AddedWord self.old self.new word (M.state medium.old) (M.state medium.new)) }
        ensures ends { OnOk result (EndsWith self.new self.old.tail.head.date.0 word) }
        ensures writes { IfSome (M.state medium.old).image (λ x. (days : List Day) → Knows self.old x days
            → (M.state medium.new).clock + 2 * length (fitting (self.old.shape.size - 2) days)
            ≤ (M.state medium.old).clock + (2 + 2 * length days)) }
    {
        let used = self.change(medium, word)?;
        self.tail = with_word(&self.tail, word, used);
        Ok(())
    }

    /// Clears the length before the oldest day.
    fn clear_oldest<M: Medium>(&self, medium: &mut M) -> Result<(), Failed>
        requires fits { FileFitsIn self.now.shape (M.state medium.old) }
        requires writable { LiesInside (M.state medium.old).writable self.now.shape.base (4 + self.now.shape.size) }
        ensures held { IsInBounds self.now }
        ensures puts { PutsAll (M.state medium.old) (M.state medium.new) (is_err result) (mend_pieces self.now) }
    {
        let mut plan = self.writing();
        self.plan_two(&mut plan, self.oldest(self.tail.used), 0);
        put_pieces(medium, &plan)
    }

    /// Ends a drop that a stop may have cut short: the oldest day has no length before it. Where there is no day, it
    /// makes no call.
    ///
    /// # Errors
    ///
    /// `Failed` where a call on the medium failed. What is kept is given up then: the string is loaded again.
    pub fn finish_drop<M: Medium>(&mut self, medium: &mut M) -> Result<(), Failed>
        requires fits { FileFitsIn self.old.shape (M.state medium.old) }
        requires writable { LiesInside (M.state medium.old).writable self.old.shape.base (4 + self.old.shape.size) }
        ensures kept { self.new ≡ self.old }
        ensures puts { 0 < self.old.tail.used
            → PutsAll (M.state medium.old) (M.state medium.new) (is_err result) (mend_pieces self.old) }
        ensures empty { self.old.tail.used ≡ 0
            → (is_err result ≡ false) × IsIdle (M.state medium.old) (M.state medium.new) }
        ensures ended { OnOk result (EndedDrop self.old (M.state medium.old) (M.state medium.new)) }
        ensures moments { LeavesOnly (M.state medium.old) (M.state medium.new)
            (IfKnown self.old (SameDays self.old.shape)) }
        ensures cause { HasCause (M.state medium.old) (M.state medium.new) (is_err result)
            ⊎ ((is_err result ≡ false) × IsIdle (M.state medium.old) (M.state medium.new)) }
        ensures most { (M.state medium.new).clock ≤ (M.state medium.old).clock + 1 }
    {
        if self.tail.used == 0 {
            return Ok(());
        }
        self.clear_oldest(medium)
    }

    /// Writes the distance of the newest day.
    fn write_km<M: Medium>(&self, medium: &mut M, km: u16) -> Result<(), Failed>
        requires fits { FileFitsIn self.now.shape (M.state medium.old) }
        requires writable { LiesInside (M.state medium.old).writable self.now.shape.base (4 + self.now.shape.size) }
        ensures puts { PutsAll (M.state medium.old) (M.state medium.new) (is_err result) (km_pieces self.now km) }
    {
        let field = self.circle.spot(self.tail.head.place, 10);
        let mut plan = self.writing();
        self.plan_two(&mut plan, field, km as u32);
        put_pieces(medium, &plan)
    }

    /// Sets the distance of the newest day, which there is.
    ///
    /// # Errors
    ///
    /// `Failed` where a call on the medium failed. What is kept is given up then: the string is loaded again.
    pub fn set_distance<M: Medium>(&mut self, medium: &mut M, km: Distance) -> Result<(), Failed>
        requires fits { FileFitsIn self.old.shape (M.state medium.old) }
        requires writable { LiesInside (M.state medium.old).writable self.old.shape.base (4 + self.old.shape.size) }
        ensures shape { self.new.shape ≡ self.old.shape }
        ensures puts { PutsAll (M.state medium.old) (M.state medium.new) (is_err result) (km_pieces self.old km.0) }
        ensures alters { Alters result (M.state medium.old) (M.state medium.new) 1
            (IfKnown self.old (IsMeasured self.old.shape km.0)) (IfKnown self.old (IsMeasuring self.old.shape km.0)) }
        ensures knows { OnOk result (IfSome (M.state medium.old).image
            (λ x. IfSome (M.state medium.new).image (KnowsMeasured self.old self.new km.0 x))) }
    {
        self.write_km(medium, km.0)?;
        self.tail = with_km(&self.tail, km);
        Ok(())
    }

    /// Leaves no day and no word later than a minute: the days later than the minute's day go, the newest first, and
    /// then the words of the newest day that are later. A stop at a moment of the call leaves a list of days between.
    /// Where there is no day, it only reads. It reads the string, and not what was kept of it.
    ///
    /// # Errors
    ///
    /// `Failed` where a call on the medium failed. What is kept is given up then: the string is loaded again.
    pub fn trim<M: Medium>(&mut self, medium: &mut M, minute: u32) -> Result<(), Failed>
        requires fits { FileFitsIn self.old.shape (M.state medium.old) }
        requires writable { LiesInside (M.state medium.old).writable self.old.shape.base (4 + self.old.shape.size) }
        ensures shape { self.new.shape ≡ self.old.shape }
        ensures cut { OnOk result (CutDays self.old self.new minute (M.state medium.old) (M.state medium.new)) }
        ensures moments { LeavesOnly (M.state medium.old) (M.state medium.new) (IsTrimMoment self.old.shape minute) }
        ensures empty { IfSome (M.state medium.old).image
            (λ x. HoldsDays self.old.shape x [] → Reads (M.state medium.old) (M.state medium.new) (is_err result)) }
        ensures cause { HasCause (M.state medium.old) (M.state medium.new) (is_err result) }
        ensures most { (M.state medium.new).clock ≤ (M.state medium.old).clock + (DAYS_MOST + 1) }
        ensures writes { IfSome (M.state medium.old).image
            (λ x. (days : List Day) → HoldsDays self.old.shape x days
            → (M.state medium.new).clock + length (until (date_of minute) days)
            ≤ (M.state medium.old).clock + (length days + 1)) }
    {
        self.circle.trim(medium, minute)?;
        self.tail = self.circle.tail(medium)?;
        Ok(())
    }
}

/// The tail with a word more.
fn with_word(tail: &Tail, word: u16, used: u32) -> Tail
    ensures tail { result ≡ tail_more tail.now word used }
    ensures few { tail.now.head.words ≤ 1440 → result.head.words ≤ 1440 }
{
    let words = tail.head.words;
    Tail {
        head: DayHead {
            place: tail.head.place,
            date: tail.head.date,
            counter: tail.head.counter,
            km: tail.head.km,
            words: if words < DAY_MINUTES as u16 {
                words + 1
            } else {
                words
            },
        },
        latest: word,
        used,
    }
}

/// The tail with another distance of the newest day.
fn with_km(tail: &Tail, km: Distance) -> Tail
    ensures tail { result ≡ tail_km tail.now km.0 }
{
    Tail {
        head: DayHead {
            place: tail.head.place,
            date: tail.head.date,
            counter: tail.head.counter,
            km,
            words: tail.head.words,
        },
        latest: tail.latest,
        used: tail.used,
    }
}
