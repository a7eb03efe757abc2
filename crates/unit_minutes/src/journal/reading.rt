//! The recorded days of a unit and their words, by the journal.
ghost use Rattle.std.specs.Prelude.{◌≡◌, ◌≢◌, ℕ, List, length, ◌+◌, ◌-◌, ◌*◌, ◌/◌, ◌<◌, ◌≤◌, min, IfOk, IfSome, Some};
ghost use Rattle.std.specs.Prelude.{is_err};
ghost use Rattle.unit_model.specs.declared.layout.TheConstants.{DAY_SLOTS, DAY_WORD_LIMIT, DAY_WORDS, HIGHEST_ODOMETER};
ghost use Rattle.unit_model.specs.declared.layout.TheConstants.{IMAGE_SIZE};
ghost use Rattle.tach_media.specs.Medium.{Reads};
ghost use Rattle.gated_ring.specs.Ring.{number_at};
ghost use Rattle.unit_model.specs.Image.{recorded, slot_place, slot_date, slot_odometer, slot_count};

use crate::journal::Journal;
use activity_codec::{DAY_MINUTES, DAY_SECONDS};
use tach_media::{Failed, Medium, read_number};
use tacho_types::{Odometer, TimeReal};
use unit_model::layout::{
    DAY_COUNT, DAY_ODOMETER, DAY_SLOTS, DAY_WORD_LIMIT, DAY_WORDS, HIGHEST_ODOMETER, slot_place,
};

/// A recorded day of the unit, as its slot has it (profile).
#[derive(Clone, Copy, Debug, PartialEq, Eq)]
pub struct UnitDay {
    /// Where its slot begins in the unit's image.
    pub place: u32,
    /// Its 00:00 GMT.
    pub date: TimeReal,
    /// In kilometres, when the day was begun; at most 9999999.
    pub odometer: Odometer,
    /// How many change words it has, at most 2880; of the last-kept minute's day those that are not later.
    pub words: u16,
}

/// The day in a slot, whose date is known and whose words all count.
fn whole_day<M: Medium>(unit: &mut M, index: u32, date: u32) -> Result<UnitDay, Failed>
    requires unit { (M.state unit.old).size ≡ IMAGE_SIZE }
    requires index { index < DAY_SLOTS }
    ensures known { IfOk result (λ day. (day.place ≡ slot_place index) × (day.date.0 ≡ date)
        × (day.words ≤ DAY_WORD_LIMIT)) }
    ensures odometer { IfOk result (λ day. day.odometer.0 ≤ HIGHEST_ODOMETER) }
    ensures read { IfOk result (λ day. IfSome (M.state unit.old).image (λ x.
        (day.odometer.0 ≡ min (slot_odometer x index) HIGHEST_ODOMETER)
        × (day.words ≡ min (slot_count x index) DAY_WORD_LIMIT))) }
    ensures reads { Reads (M.state unit.old) (M.state unit.new) (is_err result) }
{
    let place = slot_place(index);
    let odometer = read_number(unit, place + DAY_ODOMETER.place, DAY_ODOMETER.size)?;
    let count = read_number(unit, place + DAY_COUNT.place, DAY_COUNT.size)?;
    Ok(UnitDay {
        place,
        date: TimeReal(date),
        odometer: Odometer(odometer.min(HIGHEST_ODOMETER)),
        words: count.min(DAY_WORD_LIMIT) as u16,
    })
}

impl Journal {
    ghost use Rattle.unit_minutes.specs.Image.{IsNotes};
    ghost use Rattle.unit_minutes.specs.Reading.{AreRight, IsSlotPlace, IsRecordedDay, IsOfDate, IsWordOf, nth_index};
    ghost use Rattle.unit_minutes.specs.Reading.{ReadsIfAny};

    /// How many days are recorded, 0 to 366 (profile).
    pub fn days(&self) -> u16
        ensures days { result ≡ self.now.day_count }
        ensures recorded { (x : List ℕ) → AreRight self.now x → result ≡ length (recorded x) }
        ensures few { result ≤ DAY_SLOTS }
    {
        self.notes.day_count as u16
    }

    /// The index of the slot of a recorded day, counted from the oldest.
    fn index_at(&self, nth: u32) -> u32
        requires { nth < self.now.day_count }
        ensures index { result ≡ nth_index self.now nth }
        ensures below { result < DAY_SLOTS }
        ensures shape { IsNotes self.now }
    {
        (self.notes.index + (DAY_SLOTS + 1) - self.notes.day_count + nth) % DAY_SLOTS
    }

    /// The date of the last-kept minute's day.
    fn last_date(&self) -> u32
        ensures date { result ≡ 86400 * (self.now.kept / 1440) }
        ensures shape { IsNotes self.now }
    {
        DAY_SECONDS * (self.notes.kept / DAY_MINUTES)
    }

    /// The last-kept minute's day.
    fn last_day<M: Medium>(&self, unit: &mut M) -> Result<UnitDay, Failed>
        requires unit { (M.state unit.old).size ≡ IMAGE_SIZE }
        requires some { 0 < self.now.day_count }
        ensures day { IfOk result (λ day. IfSome (M.state unit.old).image (λ x. AreRight self.now x → IsRecordedDay x
            (self.now.day_count - 1) self.now.index day)) }
        ensures date { IfOk result (λ day. day.date.0 ≡ 86400 * (self.now.kept / 1440)) }
        ensures place { IfOk result (λ day. IsSlotPlace day.place) }
        ensures words { IfOk result (λ day. day.words ≤ DAY_WORD_LIMIT) }
        ensures odometer { IfOk result (λ day. day.odometer.0 ≤ HIGHEST_ODOMETER) }
        ensures reads { Reads (M.state unit.old) (M.state unit.new) (is_err result) }
    {
        let place = slot_place(self.notes.index);
        let date = self.last_date();
        let odometer = read_number(unit, place + DAY_ODOMETER.place, DAY_ODOMETER.size)?;
        Ok(UnitDay {
            place,
            date: TimeReal(date),
            odometer: Odometer(odometer.min(HIGHEST_ODOMETER)),
            words: self.notes.count as u16,
        })
    }

    /// An earlier day, whose date is known.
    fn older_day<M: Medium>(&self, unit: &mut M, nth: u32, date: u32) -> Result<UnitDay, Failed>
        requires unit { (M.state unit.old).size ≡ IMAGE_SIZE }
        requires nth { nth + 1 < self.now.day_count }
        ensures day { IfOk result (λ day. IfSome (M.state unit.old).image (λ x. AreRight self.now x → date ≡ slot_date x
            (nth_index self.now nth) → IsRecordedDay x nth (nth_index self.now nth) day)) }
        ensures date { IfOk result (λ day. day.date.0 ≡ date) }
        ensures place { IfOk result (λ day. IsSlotPlace day.place) }
        ensures words { IfOk result (λ day. day.words ≤ DAY_WORD_LIMIT) }
        ensures odometer { IfOk result (λ day. day.odometer.0 ≤ HIGHEST_ODOMETER) }
        ensures reads { Reads (M.state unit.old) (M.state unit.new) (is_err result) }
    {
        let index = self.index_at(nth);
        let day = whole_day(unit, index, date)?;
        Ok(day)
    }

    /// The recorded day of this number, counted from the oldest, which has 0 (profile). It writes nothing.
    ///
    /// # Errors
    ///
    /// `Failed` where the medium failed.
    pub fn day_at<M: Medium>(&self, unit: &mut M, nth: u16) -> Result<UnitDay, Failed>
        requires unit { (M.state unit.old).size ≡ IMAGE_SIZE }
        requires nth { nth < self.now.day_count }
        ensures day { IfOk result (λ day. IfSome (M.state unit.old).image (λ x. AreRight self.now x → (i : ℕ)
            × IsRecordedDay x nth i day)) }
        ensures place { IfOk result (λ day. IsSlotPlace day.place) }
        ensures words { IfOk result (λ day. day.words ≤ DAY_WORD_LIMIT) }
        ensures odometer { IfOk result (λ day. day.odometer.0 ≤ HIGHEST_ODOMETER) }
        ensures reads { Reads (M.state unit.old) (M.state unit.new) (is_err result) }
    {
        let nth = nth as u32;
        if nth + 1 == self.notes.day_count {
            return self.last_day(unit);
        }
        let date = read_number(unit, slot_place(self.index_at(nth)), 4)?;
        self.older_day(unit, nth, date)
    }

    /// The earlier day of a date, looked for from the oldest on.
    fn scan_older<M: Medium>(&self, unit: &mut M, date: u32) -> Result<Option<UnitDay>, Failed>
        requires unit { (M.state unit.old).size ≡ IMAGE_SIZE }
        requires some { 0 < self.now.day_count }
        requires other { date ≢ 86400 * (self.now.kept / 1440) }
        ensures found { IfOk result (λ found.
            IfSome (M.state unit.old).image (λ x. AreRight self.now x → IsOfDate x date found)) }
        ensures place { IfOk result (λ found. IfSome found (λ day. IsSlotPlace day.place)) }
        ensures date { IfOk result (λ found. IfSome found (λ day. day.date.0 ≡ date)) }
        ensures words { IfOk result (λ found. IfSome found (λ day. day.words ≤ DAY_WORD_LIMIT)) }
        ensures odometer { IfOk result (λ found. IfSome found (λ day. day.odometer.0 ≤ HIGHEST_ODOMETER)) }
        ensures reads { ReadsIfAny (M.state unit.old) (M.state unit.new) (is_err result) }
    {
        for nth in 0..self.notes.day_count - 1 {
            let place = slot_place(self.index_at(nth));
            if read_number(unit, place, 4)? == date {
                let day = self.older_day(unit, nth, date)?;
                return Ok(Some(day));
            }
        }
        Ok(None)
    }

    /// How many days lie before an earlier one, if each day since is recorded, as mostly is.
    fn likely_nth(&self, date: u32) -> u32
        ensures few { result ≤ DAY_SLOTS }
        ensures shape { IsNotes self.now }
    {
        let since = self.last_date().saturating_sub(date) / DAY_SECONDS;
        self.notes.day_count.saturating_sub(since + 1)
    }

    /// The earlier day of a date where it stands if each day since is recorded.
    fn likely_day<M: Medium>(&self, unit: &mut M, date: u32) -> Result<Option<UnitDay>, Failed>
        requires unit { (M.state unit.old).size ≡ IMAGE_SIZE }
        ensures found { IfOk result (λ found.
            IfSome found (λ day. IfSome (M.state unit.old).image
            (λ x. AreRight self.now x → IsOfDate x date (Some day)))) }
        ensures place { IfOk result (λ found. IfSome found (λ day. IsSlotPlace day.place)) }
        ensures date { IfOk result (λ found. IfSome found (λ day. day.date.0 ≡ date)) }
        ensures words { IfOk result (λ found. IfSome found (λ day. day.words ≤ DAY_WORD_LIMIT)) }
        ensures odometer { IfOk result (λ found. IfSome found (λ day. day.odometer.0 ≤ HIGHEST_ODOMETER)) }
        ensures reads { ReadsIfAny (M.state unit.old) (M.state unit.new) (is_err result) }
    {
        let nth = self.likely_nth(date);
        if nth + 1 >= self.notes.day_count {
            return Ok(None);
        }
        let place = slot_place(self.index_at(nth));
        if read_number(unit, place, 4)? != date {
            return Ok(None);
        }
        let day = self.older_day(unit, nth, date)?;
        Ok(Some(day))
    }

    /// The earlier day of a date.
    fn find_older<M: Medium>(&self, unit: &mut M, date: u32) -> Result<Option<UnitDay>, Failed>
        requires unit { (M.state unit.old).size ≡ IMAGE_SIZE }
        requires some { 0 < self.now.day_count }
        requires other { date ≢ 86400 * (self.now.kept / 1440) }
        ensures found { IfOk result (λ found.
            IfSome (M.state unit.old).image (λ x. AreRight self.now x → IsOfDate x date found)) }
        ensures place { IfOk result (λ found. IfSome found (λ day. IsSlotPlace day.place)) }
        ensures date { IfOk result (λ found. IfSome found (λ day. day.date.0 ≡ date)) }
        ensures words { IfOk result (λ found. IfSome found (λ day. day.words ≤ DAY_WORD_LIMIT)) }
        ensures odometer { IfOk result (λ found. IfSome found (λ day. day.odometer.0 ≤ HIGHEST_ODOMETER)) }
        ensures reads { ReadsIfAny (M.state unit.old) (M.state unit.new) (is_err result) }
    {
        match self.likely_day(unit, date)? {
            Some(day) => Ok(Some(day)),
            None => self.scan_older(unit, date),
        }
    }

    /// The recorded day that begins at this time, in seconds since 1970-01-01 00:00 GMT; `None` exactly where none does
    /// (profile). It writes nothing.
    ///
    /// # Errors
    ///
    /// `Failed` where the medium failed.
    pub fn find<M: Medium>(&self, unit: &mut M, date: TimeReal) -> Result<Option<UnitDay>, Failed>
        requires unit { (M.state unit.old).size ≡ IMAGE_SIZE }
        ensures found { IfOk result (λ found.
            IfSome (M.state unit.old).image (λ x. AreRight self.now x → IsOfDate x date.0 found)) }
        ensures place { IfOk result (λ found. IfSome found (λ day. IsSlotPlace day.place)) }
        ensures date { IfOk result (λ found. IfSome found (λ day. day.date.0 ≡ date.0)) }
        ensures words { IfOk result (λ found. IfSome found (λ day. day.words ≤ DAY_WORD_LIMIT)) }
        ensures odometer { IfOk result (λ found. IfSome found (λ day. day.odometer.0 ≤ HIGHEST_ODOMETER)) }
        ensures reads { ReadsIfAny (M.state unit.old) (M.state unit.new) (is_err result) }
    {
        let last_date = self.last_date();
        if self.notes.day_count == 0 {
            return Ok(None);
        }
        if date.0 > last_date {
            return Ok(None);
        }
        if date.0 == last_date {
            let day = self.last_day(unit)?;
            return Ok(Some(day));
        }
        self.find_older(unit, date.0)
    }

    /// A change word of a recorded day, by its index in that day (Annex IB, Appendix 1, ActivityChangeInfo). It writes
    /// nothing.
    ///
    /// # Errors
    ///
    /// `Failed` where the medium failed.
    pub fn word<M: Medium>(&self, unit: &mut M, head: &UnitDay, index: u16) -> Result<u16, Failed>
        requires unit { (M.state unit.old).size ≡ IMAGE_SIZE }
        requires place { IsSlotPlace head.now.place }
        requires few { head.now.words ≤ DAY_WORD_LIMIT }
        requires index { index < head.now.words }
        ensures word { IfOk result (λ word. IfSome (M.state unit.old).image (λ x. word ≡ number_at x
            (head.now.place + DAY_WORDS.place + 2 * index) 2)) }
        ensures recorded { IfOk result (λ word. IfSome (M.state unit.old).image
            (λ x. AreRight self.now x → IsWordOf x head.now index word)) }
        ensures reads { Reads (M.state unit.old) (M.state unit.new) (is_err result) }
    {
        // Read for the proof alone: so the notes have their ranges.
        let _days = &self.days;
        let mut bytes = [0; 2];
        unit.read_at(head.place + DAY_WORDS.place + 2 * index as u32, &mut bytes)?;
        Ok(u16::from_be_bytes(bytes))
    }
}
