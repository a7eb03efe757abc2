//! The journal of a unit: what it remembers of the image, and how it keeps a minute and mends the unit.
ghost use Rattle.std.specs.Prelude.{IfErr, Some, None, ◌≡◌, ◌≤◌, ◌<◌, ◌+◌, ◌/◌, min, length, IfOk, OnOk};
ghost use Rattle.std.specs.Prelude.{OnErr, IfSome, is_err, option_map, true};
ghost use Rattle.activity_codec.specs.declared.day.TheConstants.{DAY_MINUTES};
ghost use Rattle.unit_model.specs.declared.layout.TheConstants.{DAY_SLOTS, HIGHEST_ODOMETER, IMAGE_SIZE, LAST_MINUTE};
ghost use Rattle.tach_media.specs.Medium.{LeavesOnly, Reads, HasCause};
ghost use Rattle.unit_model.specs.Image.{day_ring, IsUnit};
ghost use Rattle.unit_minutes.specs.Coming.{IsComing};
ghost use Rattle.unit_minutes.specs.Image.{IsNotes, Agrees};
ghost use Rattle.unit_minutes.specs.Minute.{notes_on, notes_begun, notes_after};
ghost use Rattle.tach_media.specs.Plan.{PutsAll, PutsBy, more, none};
ghost use Rattle.unit_minutes.specs.Plans.{going, turning, renewing, keeping, most_kept};
ghost use Rattle.unit_minutes.specs.Mends.{IsMendable, IsMending, HasNothingLater, mended};
ghost use Rattle.unit_minutes.specs.Mends.{mending};
ghost use Rattle.gated_ring.specs.Ring.{pointer, taken};
ghost use Rattle.unit_minutes.specs.Writes.{keep_most, mend_most};
ghost use Rattle.unit_minutes.specs.Calls.{KeepsMinute, MinuteMayBeKept, UnitIsReady, UnitMended};

mod owing;
mod reading;

use crate::bits::BARE;
use crate::coming::{Coming, coming_of};
use crate::kept::KeptMinute;
use crate::mend::{add_cut, add_shut, late_cells};
use crate::notes::Notes;
use crate::plan::{Writing, add_changes, add_count, add_further, add_new};
use crate::today::{day_ring, index_of, later_day, read_today, recorded_days};
use crate::words::new_head;
use activity_codec::DAY_MINUTES;
use gated_ring::Ring;
pub use reading::UnitDay;
use std::marker::Model;
use tach_media::{Failed, Medium, put_pieces, read_number};
use tacho_types::Odometer;
use unit_memory::{Judged, UnitFault, judge_image};
use unit_model::layout::{
    DAY_SLOTS, HIGHEST_ODOMETER, IMAGE_SIZE, LAST_KEPT, LAST_MINUTE, ODOMETER,
};

/// What is known of a unit's minutes: the last-kept one, the odometer, and where the newest day goes on.
#[derive(Drop)]
pub struct Journal {
    days: Ring,
    notes: Notes,
}

impl Model for Journal {
    ghost use Rattle.unit_minutes.specs.Image.{Notes, IsJournal};

    ghost Value = { Notes };

    ghost view = { λ j. j.notes };

    ghost invariant = { λ j. IsJournal j.days j.notes };
}

impl Journal {
    ghost use Rattle.unit_memory.specs.Fault.{IfBadUnit, has_failed};
    ghost use Rattle.unit_model.specs.Decoding.{Decodes, first_bad_place};
    ghost use Rattle.unit_minutes.specs.Image.{IsFoundBy};
    ghost use Rattle.unit_memory.specs.Judging.{IsJudged};

    /// Reads the journal of a unit whose image decodes; it writes nothing.
    ///
    /// # Errors
    ///
    /// `Failed` where the medium failed, and `BadUnit` with the place of the first field, in order of places, that
    /// fails.
    pub fn load<M: Medium>(unit: &mut M) -> Result<Journal, UnitFault>
        requires unit { (M.state unit.old).size ≡ IMAGE_SIZE }
        ensures found { IfOk result (λ journal. IfSome (M.state unit.old).image (IsFoundBy journal)) }
        ensures decodes { OnOk result (IfSome (M.state unit.old).image Decodes) }
        ensures bad { IfErr result (λ fault. IfBadUnit fault (λ p. IfSome (M.state unit.old).image
            (λ x. first_bad_place x ≡ Some p))) }
        ensures reads { Reads (M.state unit.old) (M.state unit.new) (has_failed result) }
    {
        let judged = judge_image(unit)?;
        match judged.bad {
            Some(place) => Err(UnitFault::BadUnit(place)),
            None => {
                let journal = Journal::read(unit, judged)?;
                Ok(journal)
            }
        }
    }

    /// Reads the journal of a unit that was judged.
    fn read<M: Medium>(unit: &mut M, judged: Judged) -> Result<Journal, UnitFault>
        requires works { (M.state unit.old).works ≡ true }
        requires unit { (M.state unit.old).size ≡ IMAGE_SIZE }
        requires good { judged.bad ≡ None }
        requires few { judged.walk.there ≤ DAY_SLOTS }
        requires judged { IfSome (M.state unit.old).image (IsJudged judged) }
        ensures found { IfOk result (λ journal. IfSome (M.state unit.old).image (IsFoundBy journal)) }
        ensures bad { IfErr result (λ fault. IfBadUnit fault (λ p. IfSome (M.state unit.old).image (λ x. ⊥))) }
        ensures reads { Reads (M.state unit.old) (M.state unit.new) (has_failed result) }
    {
        let days = day_ring(unit)?;
        let kept = judged.kept.min(LAST_MINUTE);
        let pointer = judged.pointer.min(DAY_SLOTS - 1);
        let index = index_of(judged.walk.today);
        let odometer = read_number(unit, ODOMETER.place, ODOMETER.size)?.min(HIGHEST_ODOMETER);
        let stray = later_day(kept, pointer, judged.walk.last_date);
        let today = read_today(unit, kept, index)?;
        let day_count = recorded_days(kept, judged.walk.there, stray);
        let notes = Notes {
            kept,
            odometer,
            index,
            count: today.count,
            bits: today.bits,
            stray,
            stored: today.stored,
            day_count,
        };
        Ok(Journal { days, notes })
    }

    /// The last-kept minute, 0 for none.
    pub fn last_kept(&self) -> u32
        ensures kept { result ≡ self.now.kept }
        ensures few { result ≤ LAST_MINUTE }
        ensures shape { IsNotes self.now }
    {
        self.notes.kept
    }

    /// The stored odometer, in kilometres.
    pub fn odometer(&self) -> Odometer
        ensures odometer { result.0 ≡ self.now.odometer }
        ensures few { result.0 ≤ HIGHEST_ODOMETER }
    {
        Odometer(self.notes.odometer)
    }

    /// The writes of a minute on the day of the last-kept one.
    fn go_on<M: Medium>(&mut self, unit: &mut M, coming: Coming) -> Result<(), Failed>
        requires unit { IsUnit (M.state unit.old) }
        requires coming { IsComing coming }
        requires same { coming.minute / DAY_MINUTES ≡ self.old.kept / DAY_MINUTES }
        requires later { self.old.kept < coming.minute }
        ensures notes { OnOk result (self.new ≡ notes_on self.old coming) }
        ensures same { OnErr result (self.new ≡ self.old) }
        ensures shape { IsNotes self.old }
        ensures puts { PutsAll (M.state unit.old) (M.state unit.new) (is_err result) (going self.old coming) }
    {
        let mut plan = Writing::new(0, IMAGE_SIZE);
        plan.put(ODOMETER.place, &coming.odometer.to_be_bytes());
        let count = add_new(&mut plan, &self.notes, coming);
        add_count(&mut plan, self.notes.index, count);
        plan.put(LAST_KEPT.place, &coming.minute.to_be_bytes());
        put_pieces(unit, &plan)?;
        self.notes = self.notes.on_day(coming, count);
        Ok(())
    }

    /// The writes before a new day: the odometer, and what closes the day of the last-kept minute where it isn't at its
    /// end.
    fn turning(&self, odometer: u32) -> Writing
        requires { odometer ≤ HIGHEST_ODOMETER }
        ensures plan { result ≡ more (none 0 IMAGE_SIZE) (turning self.now odometer) }
        ensures length { length result.pieces ≤ 4 }
        ensures shape { IsNotes self.now }
    {
        // Read for the proof alone: so the notes have their ranges.
        let _days = &self.days;
        let notes = &self.notes;
        let mut plan = Writing::new(0, IMAGE_SIZE);
        plan.put(ODOMETER.place, &odometer.to_be_bytes());
        if notes.kept == 0 {
            return plan;
        }
        let next = notes.kept % DAY_MINUTES + 1;
        if next == DAY_MINUTES {
            return plan;
        }
        let count = add_changes(&mut plan, notes.index, notes.count, next, notes.bits, BARE);
        add_count(&mut plan, notes.index, count);
        plan
    }

    /// Makes the writes of a minute on a later day.
    fn renew<M: Medium>(&mut self, unit: &mut M, coming: Coming) -> Result<(), Failed>
        requires unit { IsUnit (M.state unit.old) }
        requires known { IfSome (M.state unit.old).image (λ x. pointer day_ring x < DAY_SLOTS) }
        requires coming { IsComing coming }
        ensures notes { OnOk result (IfSome (M.state unit.old).image
            (λ x. self.new ≡ notes_begun (taken day_ring x) (min (self.old.day_count + 1) DAY_SLOTS) coming)) }
        ensures kept { OnOk result ((self.new.kept ≡ coming.minute) × (self.new.odometer ≡ coming.odometer)) }
        ensures same { OnErr result (self.new ≡ self.old) }
        ensures shape { IsNotes self.old }
        ensures puts { PutsBy (M.state unit.old) (M.state unit.new) (is_err result) 5 keep_most
            (renewing self.old coming) }
    {
        let head = new_head(coming);
        let room = self.days.room(unit)?;
        let mut plan = self.turning(coming.odometer);
        self.days.plan_entry(&mut plan, &room, &head);
        let count = add_further(&mut plan, room.index, coming);
        put_pieces(unit, &plan)?;
        let index = room.index;
        self.notes = self.notes.on_new_day(index, coming, count);
        Ok(())
    }

    /// Makes the writes of a minute.
    fn write_minute<M: Medium>(&mut self, unit: &mut M, coming: Coming) -> Result<(), Failed>
        requires unit { IsUnit (M.state unit.old) }
        requires known { IfSome (M.state unit.old).image (λ x. pointer day_ring x < DAY_SLOTS) }
        requires coming { IsComing coming }
        requires later { self.old.kept < coming.minute }
        ensures notes { OnOk result (IfSome (M.state unit.old).image (λ x. self.new ≡ notes_after self.old coming x)) }
        ensures kept { OnOk result ((self.new.kept ≡ coming.minute) × (self.new.odometer ≡ coming.odometer)) }
        ensures same { OnErr result (self.new ≡ self.old) }
        ensures shape { IsNotes self.old }
        ensures puts { PutsBy (M.state unit.old) (M.state unit.new) (is_err result) 3
            (most_kept self.old.kept coming.minute) (keeping self.old coming) }
    {
        if coming.minute / DAY_MINUTES == self.notes.kept / DAY_MINUTES {
            return self.go_on(unit, coming);
        }
        self.renew(unit, coming)
    }

    /// Keeps a minute: of the recorded days with it the newest 366 are retained, and a minute of its day that was not
    /// kept before stands as no card, rest, single. The odometer is written first and the last-kept minute last, which
    /// counts. A slot of which nothing has changed gets no word; a day that is begun has the odometer of its first
    /// minute.
    ///
    /// A stop at a moment of the call leaves the days before, their oldest gone where a further day begins, or the days
    /// with the minute: the last-kept minute tells which. It begins at most seven writes, or twelve where it begins a
    /// day.
    ///
    /// # Errors
    ///
    /// `Failed` where the medium failed: then the minute may be there or not, and the journal is as it was.
    pub fn keep<M: Medium>(&mut self, unit: &mut M, kept: &KeptMinute) -> Result<(), Failed>
        requires ready { UnitIsReady self.old (M.state unit.old) }
        requires may { MinuteMayBeKept kept.now self.old }
        ensures { KeepsMinute kept.now result self.old self.new (M.state unit.old) (M.state unit.new) }
    {
        self.write_minute(unit, coming_of(kept))
    }

    /// Mends the unit at a power-on: empties each cell of the owed rows that is later than the last-kept minute, shuts
    /// the gate of a later day, and cuts the later words off. It writes nothing where nothing is later (profile).
    ///
    /// At each moment of the call no minute has changed, and the unit may be mended again with the journal as it was.
    ///
    /// # Errors
    ///
    /// `Failed` where the medium failed; the journal is as it was.
    pub fn mend<M: Medium>(&mut self, unit: &mut M) -> Result<(), Failed>
        requires unit { IsUnit (M.state unit.old) }
        requires mendable { IfSome (M.state unit.old).image (IsMendable self.old) }
        ensures mended { OnOk result (UnitMended self.old self.new (M.state unit.old) (M.state unit.new)) }
        ensures same { OnErr result (self.new ≡ self.old) }
        ensures written { OnOk result ((M.state unit.new).image ≡ option_map (mended self.old)
            (M.state unit.old).image) }
        ensures puts { PutsBy (M.state unit.old) (M.state unit.new) (is_err result) 0 mend_most (mending self.old) }
        ensures moments { LeavesOnly (M.state unit.old) (M.state unit.new) (IsMending self.old) }
        ensures cause { HasCause (M.state unit.old) (M.state unit.new) (is_err result) }
        ensures most { (M.state unit.new).clock ≤ (M.state unit.old).clock + mend_most }
    {
        self.write_mends(unit)?;
        self.notes.stray = None;
        self.notes.stored = self.notes.count;
        Ok(())
    }

    /// Makes the writes of a `mend`: the cells, the gate, the count.
    fn write_mends<M: Medium>(&self, unit: &mut M) -> Result<(), Failed>
        requires unit { IsUnit (M.state unit.old) }
        ensures puts { PutsBy (M.state unit.old) (M.state unit.new) (is_err result) 0 mend_most (mending self.now) }
        ensures idle { OnOk result (IfSome (M.state unit.old).image
            (λ x. HasNothingLater self.now x → (M.state unit.new).clock ≡ (M.state unit.old).clock)) }
        ensures shape { IsNotes self.now }
    {
        // Read for the proof alone: so the notes have their ranges.
        let _days = &self.days;
        let mut plan = late_cells(unit, self.notes.kept)?;
        add_shut(&mut plan, self.notes.stray);
        add_cut(&mut plan, &self.notes);
        put_pieces(unit, &plan)
    }
}
