//! The insertion of a driver card (profile): it is judged, what a session left that was not closed is repaired, and a
//! session is opened.
ghost use Rattle.std.specs.Prelude.{min, ◌≡◌, ◌≢◌, ◌⊎◌, ◌≤◌, ◌<◌, ◌+◌, ◌*◌, ◌/◌, ◌^◌, length, All, Some};
ghost use Rattle.std.specs.Prelude.{None, List, ℕ, IfOk, IfErr, IfSome, IfNone, OnOk, is_err, option_map};
ghost use Rattle.activity_codec.specs.declared.values.Activity.TheVariants.{Rest};
ghost use Rattle.card_layout.specs.Application.{IsApplication};
ghost use Rattle.card_layout.specs.Files.{place_of};
ghost use Rattle.card_layout.specs.declared.files.Application.{Application};
ghost use Rattle.tach_media.specs.Medium.{LeavesOnly, HasCause, IsPartlyWritten, IsSettled};
ghost use Rattle.tach_media.specs.Medium.{last_count};
ghost use Rattle.card_days.specs.card_model.declared.lengths.TheConstants.{DAYS_MOST};
ghost use Rattle.card_validity.specs.card_image.Fields.{file, last_use_of, current_use};
ghost use Rattle.card_validity.specs.card_image.View.{card_view};
ghost use Rattle.card_validity.specs.Judged.{IsKnown};
ghost use Rattle.card_session.specs.Books.{closed};
ghost use Rattle.card_session.specs.declared.words.TheConstants.{LATEST_MINUTE};
ghost use Rattle.card_session.specs.Telling.{minute_told};
ghost use Rattle.card_session.specs.Sessions.{IsSession, IsOpenBook, IsValue, KnowsCard, MayKeep};
ghost use Rattle.card_session.specs.Sessions.{book_of};
ghost use Rattle.card_session.specs.Moments.{IsBook, IsCloseMoment};
ghost use Rattle.card_session.specs.Parts.{DoesPart, IsPartDone, IsPartMoment, HasSame, AnyBook};
ghost use Rattle.card_session.specs.Inserting.{Follow, MayInsert, lacked, with_cut, IsCutting, with_owed};
ghost use Rattle.card_session.specs.Inserting.{IsBeforeAll, IsReplaying, MayShut, EndsCut, IsSessionMended};
ghost use Rattle.card_session.specs.Inserting.{IsMendMoment, IsShutThen, IsShutThenMoment, IsReopened, IsReopening};
ghost use Rattle.card_session.specs.Inserting.{IsStarted, IsStartMoment, IsTaken, IsTaking, Replays, repaired};
ghost use Rattle.card_session.specs.Inserting.{IsRepairMoment, IsNoted, IsNoting, timed, registered, IsOpening};
ghost use Rattle.card_session.specs.Inserting.{CardAccepted, CardMayBePutIn, CardRefused, LeavesInserting, MayBePutIn};

use crate::session::{CardSession, Kept, newest_minute, session_place};
use crate::vehicle_use::last_use;
use crate::words::{LATEST_MINUTE, closing};
use activity_codec::{Activity, Entry, MINUTE_SECONDS, Owed, WORD_MINUTES};
use card_days::Tail;
use card_files::{CardEvent, CurrentUse, Vehicle, has_event, note_event};
use card_layout::Application;
use card_validity::{InsertFault, Judged, judge};
use tach_media::{Failed, Medium};
use tacho_types::{Odometer, Registration, TimeReal, write_registration, write_time};

/// An accepted card: its session, and how many owed entries were replayed.
#[derive(Drop)]
pub struct Inserted {
    pub session: CardSession,
    pub replayed: u8,
}

/// The event of a session that was not closed (Appendix 1, EventFaultType).
const LAST_SESSION_NOT_CLOSED: u8 = 0x06;

impl CardSession {
    /// Ends a drop of the oldest day that was cut short.
    fn finish_drop<M: Medium>(&mut self, port: &mut M) -> Result<(), Failed>
        requires card { MayKeep self.old.application (M.state port.old) }
        ensures same { HasSame self.old self.new }
        ensures part { DoesPart (M.state port.old) (M.state port.new) (is_err result)
            (IsPartDone self.old self.new AnyBook (λ b. b)) (IsPartMoment self.old AnyBook IsBook) }
        ensures most { (M.state port.new).clock ≤ (M.state port.old).clock + 1 }
    {
        self.days.finish_drop(port)
    }

    /// Cuts the days behind a minute.
    fn cut<M: Medium>(&mut self, port: &mut M, minute: u32) -> Result<(), Failed>
        requires card { MayKeep self.old.application (M.state port.old) }
        ensures same { HasSame self.old self.new }
        ensures value { IsValue self.new }
        ensures part { DoesPart (M.state port.old) (M.state port.new) (is_err result)
            (IsPartDone self.old self.new AnyBook (with_cut minute))
            (IsPartMoment self.old AnyBook (IsCutting minute)) }
        ensures most { (M.state port.new).clock ≤ (M.state port.old).clock + (DAYS_MOST + 1) }
    {
        self.days.trim(port, minute)
    }

    /// Replays entries, one after the other.
    fn replay<M: Medium>(
        &mut self,
        port: &mut M,
        odometer: Odometer,
        entries: &[Entry],
    ) -> Result<(), Failed>
        requires card { MayKeep self.old.application (M.state port.old) }
        requires value { IsValue self.old }
        requires minutes { All (λ e. (1440 ≤ e.minute) × (e.minute ≤ LATEST_MINUTE)) entries.now }
        requires fits { odometer.0 < 2 ^ 24 }
        ensures same { (self.new.application ≡ self.old.application) × (self.new.registration ≡ self.old.registration)
            × (self.new.odometer ≡ self.old.odometer) }
        ensures part { DoesPart (M.state port.old) (M.state port.new) (is_err result)
            (IsPartDone self.old self.new (IsBeforeAll entries.now)
            (with_owed self.old.application.activity self.old.registration odometer.0 entries.now))
            (IsPartMoment self.old (IsBeforeAll entries.now)
            (IsReplaying self.old.application.activity self.old.registration odometer.0 entries.now)) }
        ensures open { OnOk result (IfSome (M.state port.old).image
            (λ x. KnowsCard self.old x → IsBeforeAll entries.now (book_of self.old.application x)
            → IsOpenBook (with_owed self.old.application.activity self.old.registration odometer.0 entries.now
            (book_of self.old.application x)))) }
        ensures most { (M.state port.new).clock ≤ (M.state port.old).clock + 17 * length entries.now }
    {
        for entry in entries {
            let kept = Kept {
                entry: *entry,
                odometer,
            };
            self.enter(port, &kept, 0)?;
        }
        Ok(())
    }

    /// Repairs a card whose session was left open: cuts its days at the end mark, and replays the owed entries that it
    /// lacks. It gives their number.
    fn repair<M: Medium>(
        &mut self,
        port: &mut M,
        odometer: Odometer,
        owed: &[Entry],
    ) -> Result<u8, Failed>
        requires card { MayKeep self.old.application (M.state port.old) }
        requires ordered { Follow 1439 owed.now }
        requires minutes { All (λ e. (1440 ≤ e.minute) × (e.minute ≤ LATEST_MINUTE)) owed.now }
        requires few { length owed.now ≤ 4 }
        requires fits { odometer.0 < 2 ^ 24 }
        ensures same { (self.new.application ≡ self.old.application) × (self.new.registration ≡ self.old.registration)
            × (self.new.odometer ≡ self.old.odometer) }
        ensures part { DoesPart (M.state port.old) (M.state port.new) (is_err result)
            (IsPartDone self.old self.new EndsCut
            (repaired self.old.application.activity self.old.registration odometer.0 owed.now))
            (IsPartMoment self.old EndsCut (IsRepairMoment self.old.application.activity self.old.registration
            odometer.0 owed.now)) }
        ensures open { OnOk result (IfSome (M.state port.old).image
            (λ x. KnowsCard self.old x → EndsCut (book_of self.old.application x)
            → IsOpenBook (repaired self.old.application.activity self.old.registration odometer.0 owed.now
            (book_of self.old.application x)))) }
        ensures count { IfOk result (λ n. n ≡ length (lacked (last_use_of self.old.vehicle / 60) owed.now)) }
        ensures most { (M.state port.new).clock ≤ (M.state port.old).clock + (DAYS_MOST + 69) }
    {
        let mark = self.mark();
        self.cut(port, mark)?;
        let lacked = lacked(owed, mark);
        self.replay(port, odometer, lacked)?;
        Ok(lacked.len() as u8)
    }

    /// The newest vehicle entry and its index, if there is one.
    fn newest_use(&self) -> Option<(u32, Vehicle)>
        ensures newest { IfSome result (λ p. self.now.newest ≡ Some p.0) }
        ensures vehicle { IfSome result (λ p. self.now.vehicle ≡ Some p.1) }
        ensures none { IfNone result ((self.now.newest ≡ None) ⊎ (self.now.vehicle ≡ None)) }
    {
        let index = self.newest?;
        let vehicle = self.vehicle?;
        Some((index, vehicle))
    }

    /// Writes the closing word, rest, and the end mark at it, where the word is to be written.
    fn shut<M: Medium>(&mut self, port: &mut M) -> Result<(), Failed>
        requires card { MayKeep self.old.application (M.state port.old) }
        ensures value { IsValue self.old }
        ensures same { (self.new.application ≡ self.old.application) × (self.new.registration ≡ self.old.registration)
            × (self.new.odometer ≡ self.old.odometer) }
        ensures part { DoesPart (M.state port.old) (M.state port.new) (is_err result)
            (IsPartDone self.old self.new MayShut (closed self.old.application.activity Rest))
            (IsPartMoment self.old MayShut (IsCloseMoment self.old.application.activity Rest)) }
        ensures most { (M.state port.new).clock ≤ (M.state port.old).clock + 7 }
    {
        let mark = self.mark();
        if mark == LATEST_MINUTE {
            return Ok(());
        }
        let Some(word) = closing(self.days.tail(), mark, Activity::Rest) else {
            return Ok(());
        };
        self.add(port, Some(word))?;
        match self.newest_use() {
            None => Ok(()),
            Some((index, vehicle)) => {
                self.set_last_use(port, index, vehicle, MINUTE_SECONDS * (mark + 1))
            }
        }
    }

    /// Writes the session time.
    fn set_session<M: Medium>(&self, port: &mut M, seconds: u32) -> Result<(), Failed>
        requires card { MayInsert self.now.application (M.state port.old) }
        ensures written { OnOk result ((M.state port.new).image ≡ option_map (timed self.now.application seconds)
            (M.state port.old).image) }
        ensures moments { LeavesOnly (M.state port.old) (M.state port.new)
            (λ x c. (c ≡ x) ⊎ (c ≡ timed self.now.application seconds x)) }
        ensures value { IsValue self.now }
        ensures settled { OnOk result ((M.state port.new).clock < last_count → IsSettled (M.state port.new)) }
        ensures cause { HasCause (M.state port.old) (M.state port.new) (is_err result) }
        ensures most { (M.state port.new).clock ≤ (M.state port.old).clock + 1 }
    {
        let mut bytes = [0; TimeReal::SIZE];
        write_time(TimeReal(seconds), &mut bytes);
        port.write_at(session_place(&self.application), &bytes)
    }

    /// Writes the registration of the vehicle, behind the session time.
    fn set_registration<M: Medium>(&self, port: &mut M) -> Result<(), Failed>
        requires card { MayInsert self.now.application (M.state port.old) }
        ensures written { OnOk result ((M.state port.new).image ≡ option_map
            (registered self.now.application self.now.registration) (M.state port.old).image) }
        ensures moments { LeavesOnly (M.state port.old) (M.state port.new)
            (IsPartlyWritten (place_of self.now.application (file 0x0507) + 4) self.now.registration.0) }
        ensures value { IsValue self.now }
        ensures long { length self.now.registration.0 ≡ 15 }
        ensures cause { HasCause (M.state port.old) (M.state port.new) (is_err result) }
        ensures most { (M.state port.new).clock ≤ (M.state port.old).clock + 1 }
    {
        let place = session_place(&self.application) + TimeReal::SIZE as u32;
        let mut bytes = [0; Registration::SIZE];
        write_registration(&self.registration, &mut bytes);
        port.write_at(place, &bytes)
    }

    /// Opens the session: the registration, and behind it the session time, which is the commit.
    fn open<M: Medium>(&self, port: &mut M, now: TimeReal) -> Result<(), Failed>
        requires card { MayInsert self.now.application (M.state port.old) }
        ensures written { OnOk result ((M.state port.new).image ≡ option_map
            (λ x. timed self.now.application now.0 (registered self.now.application self.now.registration x))
            (M.state port.old).image) }
        ensures moments { LeavesOnly (M.state port.old) (M.state port.new)
            (IsOpening self.now.application self.now.registration now.0) }
        ensures value { IsValue self.now }
        ensures long { length self.now.registration.0 ≡ 15 }
        ensures settled { OnOk result ((M.state port.new).clock < last_count → IsSettled (M.state port.new)) }
        ensures cause { HasCause (M.state port.old) (M.state port.new) (is_err result) }
        ensures most { (M.state port.new).clock ≤ (M.state port.old).clock + 2 }
    {
        self.set_registration(port)?;
        self.set_session(port, now.0)
    }

    /// Ends a drop that was cut short, repairs a card whose session was left open, of which this was the current use,
    /// and notes the event. It gives the number of the entries that were replayed.
    fn mend<M: Medium>(
        &mut self,
        port: &mut M,
        current: &CurrentUse,
        now: TimeReal,
        odometer: Odometer,
        owed: &[Entry],
    ) -> Result<u8, Failed>
        requires card { MayInsert self.old.application (M.state port.old) }
        requires open { current.now.session.0 ≢ 0 }
        requires ordered { Follow 1439 owed.now }
        requires minutes { All (λ e. (1440 ≤ e.minute) × (e.minute < LATEST_MINUTE)) owed.now }
        requires few { length owed.now ≤ 4 }
        requires fits { odometer.0 < 2 ^ 24 }
        ensures same { (self.new.application ≡ self.old.application) × (self.new.registration ≡ self.old.registration)
            × (self.new.odometer ≡ self.old.odometer) }
        ensures part { DoesPart (M.state port.old) (M.state port.new) (is_err result)
            (IsSessionMended self.old self.new current.now odometer.0 owed.now now.0)
            (IsMendMoment self.old current.now odometer.0 owed.now now.0) }
        ensures count { IfOk result (λ n. n ≡ length (lacked (last_use_of self.old.vehicle / 60) owed.now)) }
        ensures most { (M.state port.new).clock ≤ (M.state port.old).clock + (DAYS_MOST + 74) }
    {
        self.finish_drop(port)?;
        let replayed = self.repair(port, odometer, owed)?;
        note_unclosed(port, &self.application, current, now)?;
        Ok(replayed)
    }

    /// Closes the words of a card that is repaired, ends the session that was left open, and opens the new one.
    fn renew<M: Medium>(&mut self, port: &mut M, now: TimeReal) -> Result<(), Failed>
        requires card { MayInsert self.old.application (M.state port.old) }
        ensures same { (self.new.application ≡ self.old.application) × (self.new.registration ≡ self.old.registration)
            × (self.new.odometer ≡ self.old.odometer) }
        ensures part { DoesPart (M.state port.old) (M.state port.new) (is_err result)
            (IsShutThen self.old self.new (IsReopened self.old.application self.old.registration now.0))
            (IsShutThenMoment self.old (IsReopening self.old.application self.old.registration now.0)) }
        ensures settled { OnOk result ((M.state port.new).clock < last_count → IsSettled (M.state port.new)) }
        ensures called { HasCause (M.state port.old) (M.state port.new) (is_err result) }
        ensures most { (M.state port.new).clock ≤ (M.state port.old).clock + 10 }
    {
        self.shut(port)?;
        self.set_session(port, 0)?;
        self.open(port, now)
    }

    /// Closes the words of a card without a session, and opens one.
    fn start<M: Medium>(&mut self, port: &mut M, now: TimeReal) -> Result<(), Failed>
        requires card { MayInsert self.old.application (M.state port.old) }
        ensures same { (self.new.application ≡ self.old.application) × (self.new.registration ≡ self.old.registration)
            × (self.new.odometer ≡ self.old.odometer) }
        ensures part { DoesPart (M.state port.old) (M.state port.new) (is_err result)
            (IsStarted self.old self.new now.0) (IsStartMoment self.old now.0) }
        ensures settled { OnOk result ((M.state port.new).clock < last_count → IsSettled (M.state port.new)) }
        ensures called { HasCause (M.state port.old) (M.state port.new) (is_err result) }
        ensures most { (M.state port.new).clock ≤ (M.state port.old).clock + 10 }
    {
        self.finish_drop(port)?;
        self.shut(port)?;
        self.open(port, now)
    }

    /// Repairs a card of this current use where its session was left open, and opens a session. It gives the number of
    /// the entries that were replayed.
    fn take_over<M: Medium>(
        &mut self,
        port: &mut M,
        current: &CurrentUse,
        now: TimeReal,
        odometer: Odometer,
        owed: &[Entry],
    ) -> Result<u8, Failed>
        requires card { MayInsert self.old.application (M.state port.old) }
        requires ordered { Follow 1439 owed.now }
        requires minutes { All (λ e. (1440 ≤ e.minute) × (e.minute < LATEST_MINUTE)) owed.now }
        requires few { length owed.now ≤ 4 }
        requires fits { odometer.0 < 2 ^ 24 }
        ensures same { (self.new.application ≡ self.old.application) × (self.new.registration ≡ self.old.registration)
            × (self.new.odometer ≡ self.old.odometer) }
        ensures part { DoesPart (M.state port.old) (M.state port.new) (is_err result)
            (IsTaken self.old self.new current.now odometer.0 owed.now now.0)
            (IsTaking self.old current.now odometer.0 owed.now now.0) }
        ensures replays { IfOk result
            (Replays current.now.session.0 (last_use_of self.old.vehicle / 60) owed.now) }
        ensures settled { OnOk result ((M.state port.new).clock < last_count → IsSettled (M.state port.new)) }
        ensures called { HasCause (M.state port.old) (M.state port.new) (is_err result) }
        ensures most { (M.state port.new).clock ≤ (M.state port.old).clock + (DAYS_MOST + 84) }
    {
        if current.session.0 == 0 {
            self.start(port, now)?;
            self.recount();
            return Ok(0);
        }
        let replayed = self.mend(port, current, now, odometer, owed)?;
        self.renew(port, now)?;
        self.recount();
        Ok(replayed)
    }

    /// Takes the newest minute anew, of the days and the vehicle as they are.
    fn recount(&mut self)
        ensures same { (self.new.application ≡ self.old.application) × (self.new.registration ≡ self.old.registration)
            × (self.new.odometer ≡ self.old.odometer) }
        ensures session { (x : List ℕ) → KnowsCard self.old x → IsOpenBook (book_of self.old.application x)
            → IsSession self.new x }
    {
        self.minute = newest_minute(&self.vehicle, self.days.tail());
    }

    /// Inserts a card of these sizes: judges it, repairs what a session left that was not closed, with the owed entries
    /// that the card lacks, and opens a session of the vehicle with this registration.
    ///
    /// # Errors
    ///
    /// 1. `Failed` where a call on the card failed.
    /// 2. `NotValid` exactly where the card is not valid, with the file that first fails and the place in it.
    /// 3. `TimeOverlap` exactly where the card is valid and its stored time is later than now.
    ///
    /// Where it is not accepted nothing was written.
    pub fn insert<M: Medium>(
        port: &mut M,
        app: &Application,
        now: TimeReal,
        registration: &Registration,
        odometer: Odometer,
        owed: &Owed,
    ) -> Result<Inserted, InsertFault>
        requires card { CardMayBePutIn app.now (M.state port.old) }
        requires may { MayBePutIn now.0 odometer.0 owed.now.items }
        ensures accepted { IfOk result
            (CardAccepted app.now registration.now odometer.0 owed.now.items now.0 (M.state port.old)
            (M.state port.new)) }
        ensures refused { IfErr result (CardRefused app.now now.0 (M.state port.old) (M.state port.new)) }
        ensures leaves { LeavesInserting app.now registration.now odometer.0 owed.now.items now.0 result
            (M.state port.old) (M.state port.new) }
    {
        let judged = judge(port, app)?;
        let stored = stored(&judged);
        if stored > now.0 {
            return Err(InsertFault::TimeOverlap { stored, now: now.0 });
        }
        let current = judged.current;
        let mut session = CardSession::over(
            *app,
            judged.days,
            judged.vehicles,
            judged.newest,
            judged.vehicle,
            *registration,
        );
        let replayed = session.take_over(port, &current, now, odometer, owed.as_slice())?;
        Ok(Inserted { session, replayed })
    }
}

/// The second of the newest word that a string's tail tells, or the last one that a time can name.
fn word_second(tail: Option<Tail>) -> u32
    ensures { result ≡ min 4294967295 (60 * minute_told tail) }
{
    match tail {
        None => 0,
        Some(tail) => {
            let minute = tail.head.date.0 / MINUTE_SECONDS + u32::from(tail.latest % WORD_MINUTES);
            minute.saturating_mul(MINUTE_SECONDS)
        }
    }
}

/// No second before this one may be recorded on a card: when its newest vehicle was last used, or, where no session is
/// open, its newest word's if that is later.
fn stored(judged: &Judged) -> u32
    ensures stored { (app : Application) (x : List ℕ) → IsKnown app x judged.now → result ≡ (card_view app x).stored }
    ensures used { last_use_of judged.now.vehicle ≤ result }
{
    let used = last_use(&judged.vehicle);
    if judged.current.session.0 != 0 {
        return used;
    }
    used.max(word_second(judged.days.tail()))
}

/// The owed entries that a card with this end mark lacks.
fn lacked(owed: &[Entry], mark: u32) -> &[Entry]
    ensures { result.now ≡ lacked mark owed.now }
{
    for index in 0..owed.len() {
        if owed[index].minute > mark {
            return &owed[index..];
        }
    }
    &owed[owed.len()..]
}

/// Notes the event of a session that was not closed, of which this was the current use, unless it is there.
fn note_unclosed<M: Medium>(
    port: &mut M,
    app: &Application,
    current: &CurrentUse,
    now: TimeReal,
) -> Result<(), Failed>
    requires sizes { IsApplication app.now }
    requires card { MayInsert app.now (M.state port.old) }
    requires open { current.now.session.0 ≢ 0 }
    ensures noted { OnOk result (IfSome (M.state port.old).image
        (λ x. IfSome (M.state port.new).image (λ y. current.now ≡ current_use app.now x → IsNoted app.now now.0 x y))) }
    ensures moments { LeavesOnly (M.state port.old) (M.state port.new)
        (λ x c. current.now ≡ current_use app.now x → IsNoting app.now now.0 x c) }
    ensures cause { HasCause (M.state port.old) (M.state port.new) (is_err result) }
    ensures most { (M.state port.new).clock ≤ (M.state port.old).clock + 4 }
{
    let held = has_event(port, app, LAST_SESSION_NOT_CLOSED, current.session)?;
    if held {
        return Ok(());
    }
    let event = CardEvent {
        kind: LAST_SESSION_NOT_CLOSED,
        begin: current.session,
        end: now,
        registration: current.registration,
    };
    note_event(port, app, &event)
}
