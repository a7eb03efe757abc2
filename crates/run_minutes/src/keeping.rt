//! A minute is kept by the unit, and then on the cards that were present in it.
ghost use Rattle.std.specs.Prelude.{◌≡◌, IfSome, is_err};
ghost use Rattle.run_minutes.specs.Keeping.{UnitMayBeCalled, DevicesMayBeCalled, HasItsRow, HaveRows, kept_in};
ghost use Rattle.run_minutes.specs.Keeping.{TellsPresent};
ghost use Rattle.run_minutes.specs.Owing.{BooksPut, BooksOwed, TravelsOn};
ghost use Rattle.run_minutes.specs.Kept.{IsAbsent, MayKeep, Keeps};
ghost use Rattle.run_minutes.specs.Stand.{UnitStands, StandsAfter, CallsOnly, standing};
ghost use Rattle.run_minutes.specs.Stand.{KeepingGoesWithin, UnitGoesWithin};
ghost use Rattle.run_minutes.specs.Writes.{owe_unit_most, acknowledge_unit_most, minute_most, minute_unit_most};
ghost use Rattle.run_devices.specs.run_promise.Between.{devices};
ghost use Rattle.run_minutes.specs.Calls.{Acknowledges, MayAcknowledge};

use crate::bringing::SlotSaid;
use crate::keeper::{Keeper, Moment};
use activity_codec::{Entry, Slot};
use card_session::Kept;
use card_slots::Present;
use device_calls::{OwedEntry, commit, owe};
use log_model::Mark;
use run_events::number_or_zeros;
use run_model::Device;
use run_outcome::{Lines, Outcome};
use tach_media::{Chip, Failed, Medium};
use trace_model::Card;
use unit_minutes::KeptMinute;

/// What a minute says on the card of a slot.
fn kept_in(minute: &KeptMinute, slot: Slot) -> Kept
    ensures { result ≡ kept_in minute.now slot }
{
    let act = match slot {
        Slot::Driver => minute.driver.act,
        Slot::CoDriver => minute.codriver.act,
    };
    Kept {
        entry: Entry {
            minute: minute.minute,
            slot,
            crew: minute.driver.present && minute.codriver.present,
            act,
        },
        odometer: minute.odometer,
    }
}

/// A minute that is to be kept, with the cards that were present in it, and the moment, as a tear tells it.
#[derive(Clone, Copy)]
pub(crate) struct MinuteSaid {
    pub minute: KeptMinute,
    pub present: Present,
    pub at: Moment,
}

impl Keeper {
    /// The card that was present in a slot, if one was, is owed its entry of the minute that comes.
    fn owe_to<M: Medium, C: Chip, D: Chip>(
        &mut self,
        present: Option<Card>,
        entry: &Entry,
        unit: &mut M,
        card_a: &C,
        card_b: &D,
    ) -> Result<(), Failed>
        requires ready { UnitMayBeCalled self.old (M.state unit.old) }
        requires row { IfSome present (HasItsRow self.old.cabin.cards (M.state unit.old)) }
        ensures same { self.new ≡ self.old }
        ensures stands { UnitStands (is_err result) self.old self.new (M.state unit.old) (M.state unit.new) }
        ensures goes { UnitGoesWithin owe_unit_most (is_err result) (M.state unit.old) (M.state unit.new) }
        ensures travelled { TravelsOn (M.state unit.old) (M.state unit.new) }
        ensures booked { BooksPut present entry.now (is_err result) self.old.cabin.cards
            (devices (M.state unit.old) (C.state card_a.now) (D.state card_b.now))
            (devices (M.state unit.new) (C.state card_a.now) (D.state card_b.now)) }
    {
        let Some(card) = present else {
            return Ok(());
        };
        let known = self.cabin.cards.of(card);
        let number = number_or_zeros(known.number);
        let row = known.row;
        let owed = OwedEntry {
            number,
            row,
            entry: *entry,
        };
        match card {
            Card::A => owe(unit, &mut self.journal, card_a, card_b, card, owed),
            Card::B => owe(unit, &mut self.journal, card_b, card_a, card, owed),
        }
    }

    /// The unit keeps a minute, which is marked: before, the cards that were present are owed what it says on them.
    fn acknowledge<M: Medium, C: Chip, D: Chip>(
        &mut self,
        said: MinuteSaid,
        unit: &mut M,
        card_a: &C,
        card_b: &D,
        marks: &mut Lines<Mark>,
    ) -> Result<(), Failed>
        requires ready { UnitMayBeCalled self.old (M.state unit.old) }
        requires rows { HaveRows self.old.cabin.cards (M.state unit.old) said.present }
        requires may { MayAcknowledge said.minute said.present self.old marks.old }
        ensures kept { Acknowledges said.minute result self.old self.new marks.old marks.new
            (M.state unit.new).clock }
        ensures stands { UnitStands (is_err result) self.old self.new (M.state unit.old) (M.state unit.new) }
        ensures goes { UnitGoesWithin acknowledge_unit_most (is_err result) (M.state unit.old) (M.state unit.new) }
        ensures booked { TellsPresent said.minute said.present → BooksOwed said.present said.minute (is_err result)
            self.old.cabin.cards self.new.cabin.cards marks.old.items
            (devices (M.state unit.old) (C.state card_a.now) (D.state card_b.now))
            (devices (M.state unit.new) (C.state card_a.now) (D.state card_b.now)) }
    {
        let minute = said.minute;
        let present = said.present;
        let driver = kept_in(&minute, Slot::Driver);
        let codriver = kept_in(&minute, Slot::CoDriver);
        self.owe_to(present.driver, &driver.entry, unit, card_a, card_b)?;
        self.owe_to(present.codriver, &codriver.entry, unit, card_a, card_b)?;
        commit(unit, &mut self.journal, card_a, card_b, &minute)?;
        marks.add(Mark {
            device: Device::Unit,
            minute: minute.minute,
            clock: unit.clock(),
        });
        Ok(())
    }

    /// Keeps a minute on the unit and the cards that were present in it.
    ///
    /// # Errors
    ///
    /// `Failed` where the unit failed: then the minute may be there or not; or it is there, and the fault of a card
    /// that was torn out may be noted or not.
    pub(crate) fn keep_minute<M: Medium, C: Chip, D: Chip>(
        &mut self,
        said: MinuteSaid,
        unit: &mut M,
        card_a: &mut C,
        card_b: &mut D,
        outcome: &mut Outcome,
    ) -> Result<(), Failed>
        requires ready { DevicesMayBeCalled self.old (M.state unit.old) (C.card card_a.old) (D.card card_b.old)
            (C.state card_a.old) (D.state card_b.old) }
        requires may { MayKeep said.minute said.present said.at
            (standing self.old outcome.old.marks outcome.old.breaks (M.state unit.old) (C.state card_a.old)
            (D.state card_b.old) (C.card card_a.old) (D.card card_b.old)) }
        ensures stands { StandsAfter said.at (is_err result)
            (standing self.old outcome.old.marks outcome.old.breaks (M.state unit.old) (C.state card_a.old)
            (D.state card_b.old) (C.card card_a.old) (D.card card_b.old))
            (standing self.new outcome.new.marks outcome.new.breaks (M.state unit.new) (C.state card_a.new)
            (D.state card_b.new) (C.card card_a.new) (D.card card_b.new)) }
        ensures only { outcome.new ≡ record outcome.old { marks = outcome.new.marks; breaks = outcome.new.breaks } }
        ensures goes { KeepingGoesWithin minute_unit_most minute_most
            (standing self.old outcome.old.marks outcome.old.breaks (M.state unit.old) (C.state card_a.old)
            (D.state card_b.old) (C.card card_a.old) (D.card card_b.old))
            (standing self.new outcome.new.marks outcome.new.breaks (M.state unit.new) (C.state card_a.new)
            (D.state card_b.new) (C.card card_a.new) (D.card card_b.new)) }
        ensures kept { Keeps said.minute said.present said.at (is_err result)
            (standing self.old outcome.old.marks outcome.old.breaks (M.state unit.old) (C.state card_a.old)
            (D.state card_b.old) (C.card card_a.old) (D.card card_b.old))
            (standing self.new outcome.new.marks outcome.new.breaks (M.state unit.new) (C.state card_a.new)
            (D.state card_b.new) (C.card card_a.new) (D.card card_b.new)) }
        ensures calls { CallsOnly (IsAbsent said.present) self.old.cabin.cards card_a.old card_a.new card_b.old
            card_b.new }
    {
        let minute = said.minute;
        let present = said.present;
        let driver = kept_in(&minute, Slot::Driver);
        let codriver = kept_in(&minute, Slot::CoDriver);
        self.acknowledge(said, unit, card_a, card_b, &mut outcome.marks)?;
        let first = SlotSaid {
            present: present.driver,
            kept: driver,
            at: said.at,
        };
        self.bring(first, unit, card_a, card_b, outcome)?;
        let second = SlotSaid {
            present: present.codriver,
            kept: codriver,
            at: said.at,
        };
        self.bring(second, unit, card_a, card_b, outcome)
    }
}
