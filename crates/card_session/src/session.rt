//! A session of a driver card in a slot (profile): its keeping and its withdrawal. A session is a value that knows no
//! card; each call is lent the card.
ghost use Rattle.std.specs.Prelude.{◌≡◌, ◌⊎◌, ◌≤◌, ◌<◌, ◌+◌, ◌*◌, ◌/◌, ◌^◌, true, false, Some, None, IfSome};
ghost use Rattle.std.specs.Prelude.{IfNone, OnOk, is_err, max};
ghost use Rattle.card_layout.specs.Application.{IsApplication};
ghost use Rattle.tach_media.specs.Medium.{LeavesOnly, HasCause, IsSettled, last_count, Alters};
ghost use Rattle.card_days.specs.Held.{tail_of};
ghost use Rattle.card_days.specs.Plans.{most_drops};
ghost use Rattle.card_validity.specs.card_image.Fields.{file, day_string, vehicle_ring, last_use_of};
ghost use Rattle.card_session.specs.Books.{goes_on_in, goes_on_with, measured, closed};
ghost use Rattle.card_session.specs.declared.words.TheConstants.{LATEST_MINUTE};
ghost use Rattle.card_session.specs.Telling.{minute_told};
ghost use Rattle.activity_codec.specs.Activity.{activity_of};
ghost use Rattle.card_layout.specs.Files.{place_of};
ghost use Rattle.card_session.specs.Sessions.{IsSession, IsValue, IsOpenBook, KnowsCard, MayKeep, MayClose, book_of};
ghost use Rattle.card_session.specs.ByHand.{EndsByHand};
ghost use Rattle.card_session.specs.Moments.{IsBook, IsKeepMoment, IsCloseMoment};
ghost use Rattle.card_session.specs.Cards.{IsCard, IsCardKept, IsCardKeeping, IsCardClosed, IsCardClosing, grown};
ghost use Rattle.card_session.specs.Parts.{DoesPart, IsPartDone, IsPartMoment, HasSame, TakesSome, with_some, IsAdding};
ghost use Rattle.card_session.specs.Parts.{BeginsDay, with_day, IsBeforeDay, IsBeforeEntry, with_entry_words};
ghost use Rattle.card_session.specs.Parts.{IsWriting, IsBeforeGapOf, with_gap_closed, IsClosingGap, HasDay, with_more};
ghost use Rattle.card_session.specs.Parts.{IsTravelling, with_use, IsUsing, AnyBook, with_measured, IsSettingOdometer};
ghost use Rattle.card_session.specs.Parts.{with_last_use, IsSettingUse, used_session, with_new_use, IsAddingUse};
ghost use Rattle.card_session.specs.Parts.{SameButVehicle, entered};

use crate::vehicle_use::{begun, counter_behind, goes_on, last_use, measured, used};
use crate::words::{bare_word, closing, distance, entry_change, gap_word, is_newest_day};
use activity_codec::{
    Activity, DAY_MINUTES, Entry, MINUTE_SECONDS, Pick, WORD_MINUTES, entry_word,
};
use card_days::{Days, Tail};
use card_files::{Vehicle, file_range, write_vehicle};
use card_layout::{Application, Fid};
use card_validity::date_of;
use gated_ring::Ring;
use std::marker::Model;
use tach_media::{Failed, Medium};
use tacho_types::{Odometer, Registration, TimeReal, write_odometer, write_time};

/// A minute to be kept on a card, and the odometer value at it.
#[derive(Clone, Copy, Debug, PartialEq, Eq)]
pub struct Kept {
    pub entry: Entry,
    pub odometer: Odometer,
}

/// What is kept of an accepted card between two calls: where it keeps its days and its vehicles, the end of its string,
/// and its newest vehicle entry.
#[derive(Drop)]
pub struct CardSession {
    pub(crate) application: Application,
    pub(crate) days: Days,
    pub(crate) vehicles: Ring,
    pub(crate) newest: Option<u32>,
    pub(crate) vehicle: Option<Vehicle>,
    pub(crate) registration: Registration,
    /// the newest minute of the card
    pub(crate) minute: u32,
    /// at the session's last keep
    pub(crate) odometer: Option<Odometer>,
}

impl Model for CardSession {
    ghost use Rattle.card_session.specs.Sessions.{Session, IsValue};

    ghost Value = { Session };

    ghost view = { λ s. record {
      application = s.application;
      days = s.days;
      vehicles = s.vehicles;
      newest = s.newest;
      vehicle = s.vehicle;
      registration = s.registration;
      minute = s.minute;
      odometer = s.odometer;
    } };

    ghost invariant = { λ s. IsValue
        (record {
          application = s.application;
          days = s.days;
          vehicles = s.vehicles;
          newest = s.newest;
          vehicle = s.vehicle;
          registration = s.registration;
          minute = s.minute;
          odometer = s.odometer;
        }) };
}

/// Where the last odometer value and the last use stand in a vehicle entry.
const ODOMETER_END: u32 = 3;

const LAST_USE: u32 = 10;

impl CardSession {
    /// A session over a card that was judged: where it keeps its days and its vehicles, its newest vehicle entry with
    /// its index, and the registration of the vehicle that it is in.
    pub fn over(
        application: Application,
        days: Days,
        vehicles: Ring,
        newest: Option<u32>,
        vehicle: Option<Vehicle>,
        registration: Registration,
    ) -> CardSession
        requires sizes { IsApplication application }
        requires days { days.shape ≡ day_string application }
        requires vehicles { vehicles ≡ vehicle_ring application }
        requires newest { IfSome newest (λ i. i < application.vehicles) }
        requires mark { last_use_of vehicle / 60 ≤ LATEST_MINUTE }
        ensures { result ≡ record {
          application = application;
          days = days;
          vehicles = vehicles;
          newest = newest;
          vehicle = vehicle;
          registration = registration;
          minute = max (last_use_of vehicle / 60) (minute_told (tail_of days));
          odometer = None;
        } }
    {
        let minute = newest_minute(&vehicle, days.tail());
        CardSession {
            application,
            days,
            vehicles,
            newest,
            vehicle,
            registration,
            minute,
            odometer: None,
        }
    }

    /// The sizes of the card.
    pub fn application(&self) -> &Application
        ensures { result.now ≡ self.now.application }
    {
        &self.application
    }

    /// The newest minute of the card: the later of its end mark and of its newest word's minute.
    pub fn newest_minute(&self) -> u32
        ensures { result ≡ self.now.minute }
    {
        self.minute
    }

    /// The minute up to which the card's minutes count.
    pub(crate) fn mark(&self) -> u32
        ensures mark { result ≡ last_use_of self.now.vehicle / 60 }
        ensures most { result ≤ LATEST_MINUTE }
    {
        last_use(&self.vehicle) / MINUTE_SECONDS
    }

    /// Adds a word to the newest day, where there is one to be added.
    pub(crate) fn add<M: Medium>(&mut self, port: &mut M, word: Option<u16>) -> Result<(), Failed>
        requires card { MayKeep self.old.application (M.state port.old) }
        ensures same { HasSame self.old self.new }
        ensures part { DoesPart (M.state port.old) (M.state port.new) (is_err result)
            (IsPartDone self.old self.new (TakesSome word) (with_some self.old.application.activity word))
            (IsPartMoment self.old (TakesSome word) (IsAdding self.old.application.activity word)) }
        ensures none { word ≡ None → (self.new ≡ self.old) × ((M.state port.new).clock ≡ (M.state port.old).clock) }
        ensures most { (M.state port.new).clock
            ≤ (M.state port.old).clock + (2 + 2 * most_drops self.old.days.shape.size self.old.days.tail.used 2) }
        ensures few { (M.state port.new).clock ≤ (M.state port.old).clock + 4 }
        ensures room { OnOk result ((M.state port.new).clock
            + 2 * most_drops self.old.days.shape.size self.new.days.tail.used 16 ≤ (M.state port.old).clock + 6) }
    {
        match word {
            None => Ok(()),
            Some(word) => self.days.add_change(port, word),
        }
    }

    /// Closes the gap before a minute that does not come at once.
    fn close_gap<M: Medium>(&mut self, port: &mut M, minute: u32) -> Result<(), Failed>
        requires card { MayKeep self.old.application (M.state port.old) }
        ensures value { IsValue self.old }
        ensures same { HasSame self.old self.new }
        ensures part { DoesPart (M.state port.old) (M.state port.new) (is_err result)
            (IsPartDone self.old self.new (IsBeforeGapOf minute) (with_gap_closed self.old.application.activity minute))
            (IsPartMoment self.old (IsBeforeGapOf minute) (IsClosingGap self.old.application.activity minute)) }
        ensures most { (M.state port.new).clock ≤ (M.state port.old).clock + 6 }
        ensures room { OnOk result ((M.state port.new).clock
            + 2 * most_drops self.old.days.shape.size self.new.days.tail.used 16 ≤ (M.state port.old).clock + 6) }
        ensures shut { EndsByHand self.old minute
            → (self.new ≡ self.old) × ((M.state port.new).clock ≡ (M.state port.old).clock) }
    {
        let word = gap_word(self.days.tail(), self.mark(), minute);
        self.add(port, word)
    }

    /// Begins the day of an entry.
    fn begin<M: Medium>(&mut self, port: &mut M, entry: &Entry) -> Result<(), Failed>
        requires card { MayKeep self.old.application (M.state port.old) }
        requires last { entry.now.minute ≤ LATEST_MINUTE }
        ensures same { HasSame self.old self.new }
        ensures part { DoesPart (M.state port.old) (M.state port.new) (is_err result)
            (IsPartDone self.old self.new (BeginsDay entry.now) (with_day self.old.application.activity entry.now))
            (IsPartMoment self.old (BeginsDay entry.now) (IsBeforeDay self.old.application.activity entry.now)) }
        ensures most { (M.state port.new).clock
            ≤ (M.state port.old).clock + (5 + 2 * most_drops self.old.days.shape.size self.old.days.tail.used 16) }
    {
        let date = TimeReal(date_of(entry.minute));
        let word = entry_word(entry);
        if entry.minute % DAY_MINUTES == 0 {
            self.days.begin_day(port, date, &[word])
        } else {
            self.days.begin_day(port, date, &[bare_word(), word])
        }
    }

    /// Writes an entry's words: none where the newest day tells its state, else one, or a day.
    fn write_words<M: Medium>(&mut self, port: &mut M, entry: &Entry) -> Result<(), Failed>
        requires card { MayKeep self.old.application (M.state port.old) }
        requires first { 1440 ≤ entry.now.minute }
        requires last { entry.now.minute ≤ LATEST_MINUTE }
        ensures value { IsValue self.old }
        ensures same { HasSame self.old self.new }
        ensures part { DoesPart (M.state port.old) (M.state port.new) (is_err result)
            (IsPartDone self.old self.new (IsBeforeEntry entry.now)
            (with_entry_words self.old.application.activity entry.now))
            (IsPartMoment self.old (IsBeforeEntry entry.now) (IsWriting self.old.application.activity entry.now)) }
        ensures most { (M.state port.new).clock
            ≤ (M.state port.old).clock + (5 + 2 * most_drops self.old.days.shape.size self.old.days.tail.used 16) }
        ensures few { EndsByHand self.old entry.now.minute → (M.state port.new).clock ≤ (M.state port.old).clock + 4 }
    {
        let tail = self.days.tail();
        if is_newest_day(tail, entry.minute) {
            self.add(port, entry_change(tail, entry))
        } else {
            self.begin(port, entry)
        }
    }

    /// Adds to the distance of the newest day.
    fn travel<M: Medium>(&mut self, port: &mut M, km: u32) -> Result<(), Failed>
        requires card { MayKeep self.old.application (M.state port.old) }
        requires fits { km < 2 ^ 24 }
        ensures same { HasSame self.old self.new }
        ensures part { DoesPart (M.state port.old) (M.state port.new) (is_err result)
            (IsPartDone self.old self.new HasDay (with_more km)) (IsPartMoment self.old HasDay (IsTravelling km)) }
        ensures most { (M.state port.new).clock ≤ (M.state port.old).clock + 1 }
    {
        let km = distance(self.days.tail(), km);
        self.days.set_distance(port, km)
    }

    /// Writes that the vehicle was used in a minute: the end mark moves to it, and the entry counts.
    fn note_vehicle<M: Medium>(&mut self, port: &mut M, kept: &Kept) -> Result<(), Failed>
        requires card { MayKeep self.old.application (M.state port.old) }
        requires first { 1 ≤ kept.now.entry.minute }
        requires last { kept.now.entry.minute ≤ LATEST_MINUTE }
        requires fits { kept.now.odometer.0 < 2 ^ 24 }
        ensures same { SameButVehicle self.old self.new }
        ensures part { DoesPart (M.state port.old) (M.state port.new) (is_err result)
            (IsPartDone self.old self.new AnyBook
            (with_use self.old.registration kept.now.odometer.0 kept.now.entry.minute))
            (IsPartMoment self.old AnyBook (IsUsing self.old.registration kept.now.odometer.0 kept.now.entry.minute)) }
        ensures settled { OnOk result ((M.state port.new).clock < last_count → IsSettled (M.state port.new)) }
        ensures called { HasCause (M.state port.old) (M.state port.new) (is_err result) }
        ensures most { (M.state port.new).clock ≤ (M.state port.old).clock + 5 }
    {
        match self.going_on(kept.entry.minute) {
            Some((index, vehicle)) => self.use_on(port, index, vehicle, kept),
            None => self.use_new(port, kept),
        }
    }

    /// The newest vehicle entry and its index, where it goes on with a minute.
    fn going_on(&self, minute: u32) -> Option<(u32, Vehicle)>
        ensures newest { IfSome result (λ p. self.now.newest ≡ Some p.0) }
        ensures vehicle { IfSome result (λ p. self.now.vehicle ≡ Some p.1) }
        ensures on { IfSome result (λ p. goes_on_in self.now.registration minute p.1 ≡ true) }
        ensures none { IfNone result ((self.now.newest ≡ None)
            ⊎ (goes_on_with self.now.registration minute self.now.vehicle ≡ false)) }
    {
        let index = self.newest?;
        let vehicle = self.vehicle?;
        if goes_on(&vehicle, &self.registration, minute) {
            Some((index, vehicle))
        } else {
            None
        }
    }

    /// The newest vehicle entry, which has this index, goes on.
    fn use_on<M: Medium>(
        &mut self,
        port: &mut M,
        index: u32,
        vehicle: Vehicle,
        kept: &Kept,
    ) -> Result<(), Failed>
        requires card { MayKeep self.old.application (M.state port.old) }
        requires newest { self.old.newest ≡ Some index }
        requires vehicle { self.old.vehicle ≡ Some vehicle }
        requires on { goes_on_in self.old.registration kept.now.entry.minute vehicle ≡ true }
        requires last { kept.now.entry.minute ≤ LATEST_MINUTE }
        requires fits { kept.now.odometer.0 < 2 ^ 24 }
        ensures same { SameButVehicle self.old self.new }
        ensures part { DoesPart (M.state port.old) (M.state port.new) (is_err result)
            (IsPartDone self.old self.new AnyBook
            (with_use self.old.registration kept.now.odometer.0 kept.now.entry.minute))
            (IsPartMoment self.old AnyBook (IsUsing self.old.registration kept.now.odometer.0 kept.now.entry.minute)) }
        ensures settled { OnOk result ((M.state port.new).clock < last_count → IsSettled (M.state port.new)) }
        ensures called { HasCause (M.state port.old) (M.state port.new) (is_err result) }
        ensures most { (M.state port.new).clock ≤ (M.state port.old).clock + 2 }
    {
        self.set_odometer(port, index, vehicle, kept.odometer)?;
        let vehicle = measured(vehicle, kept.odometer);
        self.set_last_use(port, index, vehicle, MINUTE_SECONDS * kept.entry.minute)
    }

    /// Writes the odometer value at the end of the newest vehicle entry, which has this index.
    fn set_odometer<M: Medium>(
        &mut self,
        port: &mut M,
        index: u32,
        vehicle: Vehicle,
        odometer: Odometer,
    ) -> Result<(), Failed>
        requires card { MayKeep self.old.application (M.state port.old) }
        requires newest { self.old.newest ≡ Some index }
        requires vehicle { self.old.vehicle ≡ Some vehicle }
        requires fits { odometer.0 < 2 ^ 24 }
        ensures same { SameButVehicle self.old self.new }
        ensures newest { self.new.newest ≡ self.old.newest }
        ensures vehicle { OnOk result (self.new.vehicle ≡ Some (measured odometer.0 vehicle)) }
        ensures part { DoesPart (M.state port.old) (M.state port.new) (is_err result)
            (IsPartDone self.old self.new AnyBook (with_measured odometer.0))
            (IsPartMoment self.old AnyBook (IsSettingOdometer odometer.0)) }
        ensures called { HasCause (M.state port.old) (M.state port.new) (is_err result) }
        ensures most { (M.state port.new).clock ≤ (M.state port.old).clock + 1 }
    {
        let mut bytes = [0; Odometer::SIZE];
        write_odometer(odometer, &mut bytes);
        self.vehicles.set_small(port, index, ODOMETER_END, &bytes)?;
        self.vehicle = Some(measured(vehicle, odometer));
        Ok(())
    }

    /// Writes the last use of the newest vehicle entry, which has this index.
    pub(crate) fn set_last_use<M: Medium>(
        &mut self,
        port: &mut M,
        index: u32,
        vehicle: Vehicle,
        seconds: u32,
    ) -> Result<(), Failed>
        requires card { MayKeep self.old.application (M.state port.old) }
        requires newest { self.old.newest ≡ Some index }
        requires vehicle { self.old.vehicle ≡ Some vehicle }
        requires last { seconds / 60 ≤ LATEST_MINUTE }
        ensures same { SameButVehicle self.old self.new }
        ensures newest { self.new.newest ≡ self.old.newest }
        ensures part { DoesPart (M.state port.old) (M.state port.new) (is_err result)
            (IsPartDone self.old self.new AnyBook (with_last_use seconds))
            (IsPartMoment self.old AnyBook (IsSettingUse seconds)) }
        ensures settled { OnOk result ((M.state port.new).clock < last_count → IsSettled (M.state port.new)) }
        ensures called { HasCause (M.state port.old) (M.state port.new) (is_err result) }
        ensures most { (M.state port.new).clock ≤ (M.state port.old).clock + 1 }
    {
        let mut bytes = [0; TimeReal::SIZE];
        write_time(TimeReal(seconds), &mut bytes);
        self.vehicles.set_small(port, index, LAST_USE, &bytes)?;
        self.vehicle = Some(used(vehicle, seconds));
        Ok(())
    }

    /// A new vehicle entry.
    fn use_new<M: Medium>(&mut self, port: &mut M, kept: &Kept) -> Result<(), Failed>
        requires card { MayKeep self.old.application (M.state port.old) }
        requires first { 1 ≤ kept.now.entry.minute }
        requires last { kept.now.entry.minute ≤ LATEST_MINUTE }
        requires fits { kept.now.odometer.0 < 2 ^ 24 }
        ensures same { SameButVehicle self.old self.new }
        ensures part { DoesPart (M.state port.old) (M.state port.new) (is_err result)
            (IsPartDone self.old self.new AnyBook
            (with_new_use self.old.registration kept.now.odometer.0 kept.now.entry.minute))
            (IsPartMoment self.old AnyBook (IsAddingUse self.old.registration kept.now.odometer.0
            kept.now.entry.minute)) }
        ensures settled { OnOk result ((M.state port.new).clock < last_count → IsSettled (M.state port.new)) }
        ensures called { HasCause (M.state port.old) (M.state port.new) (is_err result) }
        ensures most { (M.state port.new).clock ≤ (M.state port.old).clock + 5 }
    {
        let counter = counter_behind(&self.vehicle);
        let vehicle = begun(self.registration, kept.odometer, kept.entry.minute, counter);
        let mut bytes = [0; Vehicle::SIZE];
        write_vehicle(&vehicle, &mut bytes);
        let index = self.vehicles.add(port, &bytes)?;
        self.newest = Some(index);
        self.vehicle = Some(vehicle);
        Ok(())
    }

    /// Keeps a minute, so many km behind the one before.
    pub(crate) fn enter<M: Medium>(
        &mut self,
        port: &mut M,
        kept: &Kept,
        km: u32,
    ) -> Result<(), Failed>
        requires card { MayKeep self.old.application (M.state port.old) }
        requires first { 1440 ≤ kept.now.entry.minute }
        requires last { kept.now.entry.minute ≤ LATEST_MINUTE }
        requires fits { kept.now.odometer.0 < 2 ^ 24 }
        requires growth { km < 2 ^ 24 }
        ensures value { IsValue self.old }
        ensures same { (self.new.application ≡ self.old.application) × (self.new.registration ≡ self.old.registration)
            × (self.new.odometer ≡ self.old.odometer) }
        ensures part { DoesPart (M.state port.old) (M.state port.new) (is_err result)
            (IsPartDone self.old self.new (IsBeforeGapOf kept.now.entry.minute)
            (entered self.old.application.activity self.old.registration kept.now.odometer.0 km kept.now.entry))
            (IsPartMoment self.old (IsBeforeGapOf kept.now.entry.minute)
            (IsKeepMoment self.old.application.activity self.old.registration kept.now.odometer.0 km kept.now.entry)) }
        ensures settled { OnOk result ((M.state port.new).clock < last_count → IsSettled (M.state port.new)) }
        ensures called { HasCause (M.state port.old) (M.state port.new) (is_err result) }
        ensures most { (M.state port.new).clock ≤ (M.state port.old).clock + 17 }
        ensures few { EndsByHand self.old kept.now.entry.minute
            → (M.state port.new).clock ≤ (M.state port.old).clock + 10 }
    {
        self.close_gap(port, kept.entry.minute)?;
        self.write_words(port, &kept.entry)?;
        self.travel(port, km)?;
        self.note_vehicle(port, kept)
    }

    /// Writes the closing word, and the end mark at it, where one is to be written.
    fn close_words<M: Medium>(&mut self, port: &mut M, act: Activity) -> Result<(), Failed>
        requires card { MayKeep self.old.application (M.state port.old) }
        ensures value { IsValue self.old }
        ensures same { self.new.application ≡ self.old.application }
        ensures part { DoesPart (M.state port.old) (M.state port.new) (is_err result)
            (λ x y. KnowsCard self.old x → IsOpenBook (book_of self.old.application x)
            → IsCard self.old.application (IsBook
            (closed self.old.application.activity act (book_of self.old.application x))) x y)
            (IsPartMoment self.old IsOpenBook (IsCloseMoment self.old.application.activity act)) }
        ensures most { (M.state port.new).clock ≤ (M.state port.old).clock + 7 }
    {
        let mark = self.mark();
        let Some(word) = closing(self.days.tail(), mark, act) else {
            return Ok(());
        };
        self.add(port, Some(word))?;
        match self.newest {
            None => Ok(()),
            Some(index) => self.write_last_use(port, index, MINUTE_SECONDS * (mark + 1)),
        }
    }

    /// Writes the last use of the newest vehicle entry, which has this index, where the session ends.
    fn write_last_use<M: Medium>(
        &mut self,
        port: &mut M,
        index: u32,
        seconds: u32,
    ) -> Result<(), Failed>
        requires card { MayKeep self.old.application (M.state port.old) }
        requires newest { self.old.newest ≡ Some index }
        requires fits { seconds < 2 ^ 32 }
        ensures same { self.new.application ≡ self.old.application }
        ensures part { DoesPart (M.state port.old) (M.state port.new) (is_err result)
            (IsPartDone self.old (used_session seconds self.old) AnyBook (with_last_use seconds))
            (IsPartMoment self.old AnyBook (IsSettingUse seconds)) }
        ensures most { (M.state port.new).clock ≤ (M.state port.old).clock + 1 }
    {
        let mut bytes = [0; TimeReal::SIZE];
        write_time(TimeReal(seconds), &mut bytes);
        self.vehicles.set_small(port, index, LAST_USE, &bytes)
    }

    /// Withdraws the card: the closing word with the selected activity, and the end of the session.
    ///
    /// # Errors
    ///
    /// `Failed` where a call on the card failed: some of this may be written, and the next insertion repairs the card.
    pub fn close<M: Medium>(mut self, port: &mut M, selected: Pick) -> Result<(), Failed>
        requires card { MayClose self.application (M.state port.old) }
        ensures closed { OnOk result (IfSome (M.state port.old).image
            (λ x. IfSome (M.state port.new).image
            (λ y. IsSession self x → IsCardClosed self (activity_of selected) x y))) }
        ensures moments { LeavesOnly (M.state port.old) (M.state port.new)
            (λ x c. IsSession self x → IsCardClosing self (activity_of selected) x c) }
        ensures settled { OnOk result ((M.state port.new).clock < last_count → IsSettled (M.state port.new)) }
        ensures cause { HasCause (M.state port.old) (M.state port.new) (is_err result) }
        ensures most { (M.state port.new).clock ≤ (M.state port.old).clock + 8 }
    {
        self.close_words(port, selected.activity())?;
        port.write_at(session_place(&self.application), &[0; TimeReal::SIZE])
    }

    /// Keeps a minute on the card: its word where the state is new, the distance, and last the use of the vehicle,
    /// which is the commit.
    ///
    /// # Errors
    ///
    /// `Failed` where a call on the card failed: some of this may be written, and the next insertion repairs the card.
    pub fn keep<M: Medium>(&mut self, port: &mut M, kept: &Kept) -> Result<(), Failed>
        requires card { MayKeep self.old.application (M.state port.old) }
        requires later { self.old.minute < kept.now.entry.minute }
        requires first { 1440 ≤ kept.now.entry.minute }
        requires last { kept.now.entry.minute ≤ LATEST_MINUTE }
        requires fits { kept.now.odometer.0 < 2 ^ 24 }
        ensures same { (self.new.application ≡ self.old.application) × (self.new.registration ≡ self.old.registration) }
        ensures last { OnOk result ((self.new.minute ≡ kept.now.entry.minute)
            × (self.new.odometer ≡ Some kept.now.odometer)) }
        ensures alters { Alters result (M.state port.old) (M.state port.new) 17
            (λ x y. IsSession self.old x → IsCardKept self.old self.new kept.now.entry kept.now.odometer.0 x y)
            (λ x c. IsSession self.old x → IsCardKeeping self.old kept.now.entry kept.now.odometer.0 x c) }
        ensures few { EndsByHand self.old kept.now.entry.minute
            → (M.state port.new).clock ≤ (M.state port.old).clock + 10 }
    {
        let km = grown(&self.odometer, kept.odometer);
        self.enter(port, kept, km)?;
        self.minute = kept.entry.minute;
        self.odometer = Some(kept.odometer);
        Ok(())
    }
}

/// Where the session time stands, first in its file.
pub(crate) fn session_place(app: &Application) -> u32
    ensures { result ≡ place_of app.now (file 0x0507) }
{
    match file_range(app, Fid::CURRENT_USE) {
        None => 0,
        Some(range) => range.base,
    }
}

/// The newest minute of a card: the later of its end mark and of its newest word's minute.
pub(crate) fn newest_minute(vehicle: &Option<Vehicle>, tail: Option<Tail>) -> u32
    ensures { result ≡ max (last_use_of vehicle.now / 60) (minute_told tail) }
{
    let mark = last_use(vehicle) / MINUTE_SECONDS;
    match tail {
        None => mark,
        Some(tail) => {
            mark.max(tail.head.date.0 / MINUTE_SECONDS + u32::from(tail.latest % WORD_MINUTES))
        }
    }
}

/// The km since the odometer value before: none where there is no such value.
fn grown(before: &Option<Odometer>, now: Odometer) -> u32
    requires { now.0 < 2 ^ 24 }
    ensures km { result ≡ grown before.now now.0 }
    ensures few { result < 2 ^ 24 }
{
    match before {
        None => 0,
        Some(before) => now.0.saturating_sub(before.0),
    }
}
