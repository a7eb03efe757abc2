//! What the memory of a unit notes.
ghost use Rattle.std.specs.Prelude.{◌≡◌, ◌≢◌, ◌≤◌, ◌<◌, ◌+◌, ◌^◌, ◌==◌, not, ◌&&◌, IsTrue, IfOk, IfSome, OnOk, is_err};
ghost use Rattle.tach_media.specs.Medium.{LeavesOnly, HasCause, IsSettled, StaysSettled, Rose, last_count, Alters};
ghost use Rattle.gated_ring.specs.Ring.{PointsInside};
ghost use Rattle.gated_ring.specs.Change.{IsAdding, IsAdded, adding_writes, TookNext};
ghost use Rattle.unit_model.specs.Image.{IsUnit};
ghost use Rattle.event_model.specs.declared.kinds.TheConstants.{CARD_FAULT, OVER_SPEEDING};
ghost use Rattle.event_model.specs.Kinds.{purpose_of, purpose_number, is_event};
ghost use Rattle.message_model.specs.Records.{insertion_ring, unit_place_ring};
ghost use Rattle.note_model.specs.Tables.{table_of};
ghost use Rattle.unit_notes.specs.Entries.{insertion_bytes, unit_place_bytes, fault_bytes, over_bytes};
ghost use Rattle.unit_notes.specs.Journal.{LeavesJournal};
ghost use Rattle.unit_notes.specs.Noting.{IsWithdrawing, IsWithdrawn, IsNotingEvent, IsEventNoted, IsNotingOver};
ghost use Rattle.unit_notes.specs.Noting.{IsOverNoted};
ghost use Rattle.unit_notes.specs.Tables.{all_events};

use crate::insertion::write_insertion;
use crate::noting::note;
use crate::over::{count_one, note_first, write_over};
use crate::rings::{
    OUT_ODOMETER, OUT_TIME, PLACE_SIZE, insertions, places, set_part, write_unit_place,
};
use crate::tables::{FAULT_SIZE, OVER_SIZE};
use crate::unit_event::write_fault;
use crate::{Insertion, UnitEvent, rings, tables};
use event_model::{OVER_SPEEDING, Over};
use gated_ring::Ring;
use tach_media::{Failed, Medium};
use tacho_types::{FullCardNumber, Odometer, PlaceEntry, TimeReal, write_odometer, write_time};
use unit_memory::UnitMemory;

/// What the memory of a unit notes beside its minutes, in its rings (profile). The unit is the one that the memory was
/// loaded from, so the pointers of its rings are indices, as each note leaves them.
///
/// An entry appears whole: a stop at a moment of a call leaves the entry whose place is taken, no entry there, or the
/// new one. Version and vehicle, last-kept minute, odometer, owed rows and days stay, at each moment, and a unit that
/// decoded still does.
pub trait UnitNotes {
    /// The ring of insertions, for reading.
    fn insertions(&self) -> Ring
        ensures { result ≡ insertion_ring };

    /// The ring of places, for reading.
    fn places(&self) -> Ring
        ensures { result ≡ unit_place_ring };

    /// The places of all events but over speedings, for reading: ten of each of the types 01, 03, 04, 05, 06 and 08,
    /// one type after the other.
    fn events(&self) -> Ring
        ensures { result ≡ all_events };

    /// The ten places of over speedings, for reading.
    fn overs(&self) -> Ring
        ensures { result ≡ table_of OVER_SPEEDING };

    /// The 24 places of faults, for reading.
    fn faults(&self) -> Ring
        ensures { result ≡ table_of CARD_FAULT };

    /// Notes an insertion, the newest of its ring, and answers its index. The insertion's time is not 0.
    ///
    /// # Errors
    ///
    /// `Failed` where the medium failed.
    fn note_insertion<M: Medium>(&self, unit: &mut M, entry: &Insertion) -> Result<u32, Failed>
        requires unit { IsUnit (M.state unit.old) }
        requires time { entry.now.time.0 ≢ 0 }
        requires odometer { entry.now.odometer.0 < 2 ^ 24 }
        requires out_odometer { entry.now.out_odometer.0 < 2 ^ 24 }
        ensures took { IfOk result (TookNext insertion_ring (M.state unit.old)) }
        ensures alters { Alters result (M.state unit.old) (M.state unit.new) 5
            (IsAdded insertion_ring (insertion_bytes entry.now))
            (IsAdding insertion_ring (insertion_bytes entry.now)) }
        ensures journal { LeavesOnly (M.state unit.old) (M.state unit.new) LeavesJournal }
        ensures clock { OnOk result (Rose (M.state unit.old).clock (M.state unit.new).clock) }
        ensures writes { IfSome (M.state unit.old).image
            (λ x. PointsInside insertion_ring x
            → (M.state unit.new).clock ≤ (M.state unit.old).clock + adding_writes insertion_ring x) };

    /// Notes the withdrawal of the card of an insertion, by the index that
    /// [`note_insertion`](UnitNotes::note_insertion) answered: the time, and then the odometer. A stop leaves each of
    /// them written or not, the odometer only behind the time.
    ///
    /// # Errors
    ///
    /// `Failed` where the medium failed.
    fn note_withdrawal<M: Medium>(
        &self,
        unit: &mut M,
        index: u32,
        time: TimeReal,
        odometer: Odometer,
    ) -> Result<(), Failed>
        requires unit { IsUnit (M.state unit.old) }
        requires index { index < insertion_ring.count }
        requires odometer { odometer.0 < 2 ^ 24 }
        ensures noted { OnOk result (IfSome (M.state unit.old).image
            (λ x. IfSome (M.state unit.new).image (IsWithdrawn index time odometer x))) }
        ensures moments { LeavesOnly (M.state unit.old) (M.state unit.new) (IsWithdrawing index time odometer) }
        ensures journal { LeavesOnly (M.state unit.old) (M.state unit.new) LeavesJournal }
        ensures settled { OnOk result ((M.state unit.new).clock < last_count → IsSettled (M.state unit.new)) }
        ensures clock { OnOk result (Rose (M.state unit.old).clock (M.state unit.new).clock) }
        ensures cause { HasCause (M.state unit.old) (M.state unit.new) (is_err result) }
        ensures most { (M.state unit.new).clock ≤ (M.state unit.old).clock + 2 };

    /// Notes a place that the holder of a card entered, the newest of its ring. The entry's time is not 0.
    ///
    /// # Errors
    ///
    /// `Failed` where the medium failed.
    fn note_place<M: Medium>(
        &self,
        unit: &mut M,
        number: &FullCardNumber,
        entry: &PlaceEntry,
    ) -> Result<(), Failed>
        requires unit { IsUnit (M.state unit.old) }
        requires time { entry.now.time.0 ≢ 0 }
        requires odometer { entry.now.odometer.0 < 2 ^ 24 }
        ensures alters { Alters result (M.state unit.old) (M.state unit.new) 5
            (IsAdded unit_place_ring (unit_place_bytes number.now entry.now))
            (IsAdding unit_place_ring (unit_place_bytes number.now entry.now)) }
        ensures journal { LeavesOnly (M.state unit.old) (M.state unit.new) LeavesJournal }
        ensures clock { OnOk result (Rose (M.state unit.old).clock (M.state unit.new).clock) }
        ensures writes { IfSome (M.state unit.old).image
            (λ x. PointsInside unit_place_ring x
            → (M.state unit.new).clock ≤ (M.state unit.old).clock + adding_writes unit_place_ring x) };

    /// Notes an event of the types 01, 03, 04, 05, 06 or 08, with its purpose (Annex IB, section III.12): at the place
    /// of the event of its day where that measures less, else in an empty place, else in that of the earliest begin,
    /// where it begins later. Where it is not kept, the event of its day counts it as similar.
    ///
    /// # Errors
    ///
    /// `Failed` where the medium failed.
    fn note_event<M: Medium>(&self, unit: &mut M, event: &UnitEvent) -> Result<(), Failed>
        requires unit { IsUnit (M.state unit.old) }
        requires kind { IsTrue (is_event event.now.kind && not (event.now.kind == OVER_SPEEDING)) }
        requires purpose { event.now.purpose ≡ purpose_number (purpose_of event.now.kind) }
        requires begin { event.now.begin.0 ≢ 0 }
        ensures noted { OnOk result (IfSome (M.state unit.old).image
            (λ x. IfSome (M.state unit.new).image (IsEventNoted event.now.kind (fault_bytes event.now) x))) }
        ensures moments { LeavesOnly (M.state unit.old) (M.state unit.new)
            (IsNotingEvent event.now.kind (fault_bytes event.now)) }
        ensures journal { LeavesOnly (M.state unit.old) (M.state unit.new) LeavesJournal }
        ensures settled { OnOk result (StaysSettled (M.state unit.old) (M.state unit.new)) }
        ensures cause { HasCause (M.state unit.old) (M.state unit.new) (is_err result) }
        ensures most { (M.state unit.new).clock ≤ (M.state unit.old).clock + 4 };

    /// Notes an over speeding with the driver's card number at its begin, zeros without a card (Annex IB, section
    /// III.12): its entry as an event of one of the last ten days, of the highest average speed; then its begin as that
    /// of the first one, where none is held; then the number of over speedings, one more, at most 255 (profile).
    ///
    /// # Errors
    ///
    /// `Failed` where the medium failed.
    fn note_over<M: Medium>(
        &self,
        unit: &mut M,
        over: &Over,
        driver: &FullCardNumber,
    ) -> Result<(), Failed>
        requires unit { IsUnit (M.state unit.old) }
        requires begin { over.now.begin ≢ 0 }
        ensures noted { OnOk result (IfSome (M.state unit.old).image
            (λ x. IfSome (M.state unit.new).image (IsOverNoted over.now.begin (over_bytes over.now driver.now) x))) }
        ensures moments { LeavesOnly (M.state unit.old) (M.state unit.new)
            (IsNotingOver over.now.begin (over_bytes over.now driver.now)) }
        ensures journal { LeavesOnly (M.state unit.old) (M.state unit.new) LeavesJournal }
        ensures settled { OnOk result (StaysSettled (M.state unit.old) (M.state unit.new)) }
        ensures cause { HasCause (M.state unit.old) (M.state unit.new) (is_err result) }
        ensures most { (M.state unit.new).clock ≤ (M.state unit.old).clock + 6 };

    /// Notes a fault of type 40, with its purpose: in an empty place, else in that of the earliest begin, where it
    /// begins later.
    ///
    /// # Errors
    ///
    /// `Failed` where the medium failed.
    fn note_fault<M: Medium>(&self, unit: &mut M, event: &UnitEvent) -> Result<(), Failed>
        requires unit { IsUnit (M.state unit.old) }
        requires kind { event.now.kind ≡ CARD_FAULT }
        requires purpose { event.now.purpose ≡ purpose_number (purpose_of event.now.kind) }
        requires begin { event.now.begin.0 ≢ 0 }
        ensures noted { OnOk result (IfSome (M.state unit.old).image
            (λ x. IfSome (M.state unit.new).image (IsEventNoted event.now.kind (fault_bytes event.now) x))) }
        ensures moments { LeavesOnly (M.state unit.old) (M.state unit.new)
            (IsNotingEvent event.now.kind (fault_bytes event.now)) }
        ensures journal { LeavesOnly (M.state unit.old) (M.state unit.new) LeavesJournal }
        ensures settled { OnOk result (StaysSettled (M.state unit.old) (M.state unit.new)) }
        ensures cause { HasCause (M.state unit.old) (M.state unit.new) (is_err result) }
        ensures most { (M.state unit.new).clock ≤ (M.state unit.old).clock + 4 };
}

impl UnitNotes for UnitMemory {
    fn insertions(&self) -> Ring {
        rings::insertions()
    }

    fn places(&self) -> Ring {
        rings::places()
    }

    fn events(&self) -> Ring {
        tables::events()
    }

    fn overs(&self) -> Ring {
        tables::overs()
    }

    fn faults(&self) -> Ring {
        tables::faults()
    }

    fn note_insertion<M: Medium>(&self, unit: &mut M, entry: &Insertion) -> Result<u32, Failed> {
        let mut bytes = [0; Insertion::SIZE];
        write_insertion(entry, &mut bytes);
        insertions().add(unit, &bytes)
    }

    fn note_withdrawal<M: Medium>(
        &self,
        unit: &mut M,
        index: u32,
        time: TimeReal,
        odometer: Odometer,
    ) -> Result<(), Failed> {
        let mut out_time = [0; TimeReal::SIZE];
        write_time(time, &mut out_time);
        set_part(unit, index, OUT_TIME, &out_time)?;
        let mut out_odometer = [0; Odometer::SIZE];
        write_odometer(odometer, &mut out_odometer);
        set_part(unit, index, OUT_ODOMETER, &out_odometer)
    }

    fn note_place<M: Medium>(
        &self,
        unit: &mut M,
        number: &FullCardNumber,
        entry: &PlaceEntry,
    ) -> Result<(), Failed> {
        let mut bytes = [0; PLACE_SIZE];
        write_unit_place(number, entry, &mut bytes);
        places().add(unit, &bytes)?;
        Ok(())
    }

    fn note_event<M: Medium>(&self, unit: &mut M, event: &UnitEvent) -> Result<(), Failed> {
        let mut front = [0; FAULT_SIZE];
        write_fault(event, &mut front);
        note(unit, event.kind, &front)
    }

    fn note_over<M: Medium>(
        &self,
        unit: &mut M,
        over: &Over,
        driver: &FullCardNumber,
    ) -> Result<(), Failed> {
        let mut front = [0; OVER_SIZE - 1];
        write_over(over, driver, &mut front);
        note(unit, OVER_SPEEDING, &front)?;
        note_first(unit, over.begin)?;
        count_one(unit)
    }

    fn note_fault<M: Medium>(&self, unit: &mut M, event: &UnitEvent) -> Result<(), Failed> {
        let mut front = [0; FAULT_SIZE];
        write_fault(event, &mut front);
        note(unit, event.kind, &front)
    }
}
