//! Entries by hand of a session (profile): each is one word of the card, behind all its words, before the session's
//! first keep.
ghost use Rattle.std.specs.Prelude.{◌≤◌, ◌<◌, ◌+◌, OnOk, Some, IfSome, is_err};
ghost use Rattle.tach_media.specs.Medium.{LeavesOnly, HasCause};
ghost use Rattle.card_days.specs.card_model.Changes.{date_of};
ghost use Rattle.card_days.specs.Held.{EndsWith};
ghost use Rattle.hand_model.specs.Manual.{manual_word};
ghost use Rattle.card_session.specs.declared.words.TheConstants.{LATEST_MINUTE};
ghost use Rattle.card_session.specs.Sessions.{IsSession, IsValue, MayKeep};
ghost use Rattle.card_session.specs.Parts.{DoesPart, IsPartDone, IsPartMoment, HasSame, TakesSome, with_some, IsAdding};
ghost use Rattle.card_session.specs.ByHand.{IsCardByHand, IsCardEntering, IsByHandMoment, EndsByHand, IsBeforeWordAt};
ghost use Rattle.card_session.specs.ByHand.{BeginsFrom, with_day_in, IsBeforeDayFrom, by_hand};
ghost use Rattle.card_session.specs.ByHand.{EntersSession, WritesByHand};

use crate::session::CardSession;
use crate::words::{bare_word, is_newest_day};
use activity_codec::{DAY_MINUTES, Manual};
use card_validity::date_of;
use hand_model::manual_word;
use tach_media::{Failed, Medium};
use tacho_types::TimeReal;

impl CardSession {
    /// Writes an entry by hand, which is later than all words of the card and than its end mark. That stays, so no
    /// minute of the card changes: the entry counts once the end mark is moved behind it.
    ///
    /// # Errors
    ///
    /// `Failed` where a call on the card failed: the entry may stand behind the end mark, and the next insertion cuts
    /// it off.
    pub fn enter_by_hand<M: Medium>(&mut self, port: &mut M, entry: &Manual) -> Result<(), Failed>
        requires card { MayKeep self.old.application (M.state port.old) }
        requires later { self.old.minute < entry.now.minute }
        requires first { 1440 ≤ entry.now.minute }
        requires last { entry.now.minute ≤ LATEST_MINUTE }
        ensures session { EntersSession result self.old self.new entry.now.minute }
        ensures entered { OnOk result (IfSome (M.state port.old).image
            (λ x. IfSome (M.state port.new).image
            (λ y. IsSession self.old x → IsCardByHand self.old self.new entry.now x y))) }
        ensures moments { LeavesOnly (M.state port.old) (M.state port.new)
            (λ x c. IsSession self.old x → IsCardEntering self.old entry.now x c) }
        ensures cause { HasCause (M.state port.old) (M.state port.new) (is_err result) }
        ensures writes { WritesByHand self.old entry.now.minute (M.state port.old) (M.state port.new) }
    {
        self.write_by_hand(port, entry)?;
        self.minute = entry.minute;
        Ok(())
    }

    /// Writes its word: on the newest day, or with its day.
    fn write_by_hand<M: Medium>(&mut self, port: &mut M, entry: &Manual) -> Result<(), Failed>
        requires card { MayKeep self.old.application (M.state port.old) }
        requires first { 1440 ≤ entry.now.minute }
        requires last { entry.now.minute ≤ LATEST_MINUTE }
        ensures value { IsValue self.old }
        ensures same { HasSame self.old self.new }
        ensures part { DoesPart (M.state port.old) (M.state port.new) (is_err result)
            (IsPartDone self.old self.new (IsBeforeWordAt entry.now.minute)
            (by_hand self.old.application.activity entry.now))
            (IsPartMoment self.old (IsBeforeWordAt entry.now.minute)
            (IsByHandMoment self.old.application.activity entry.now)) }
        ensures called { HasCause (M.state port.old) (M.state port.new) (is_err result) }
        ensures ends { OnOk result (EndsByHand self.new entry.now.minute) }
        ensures writes { WritesByHand self.old entry.now.minute (M.state port.old) (M.state port.new) }
    {
        let tail = self.days.tail();
        if is_newest_day(tail, entry.minute) {
            self.append_by_hand(port, entry)
        } else {
            self.begin_by_hand(port, entry)
        }
    }

    /// Adds its word to the newest day.
    fn append_by_hand<M: Medium>(&mut self, port: &mut M, entry: &Manual) -> Result<(), Failed>
        requires card { MayKeep self.old.application (M.state port.old) }
        ensures same { HasSame self.old self.new }
        ensures part { DoesPart (M.state port.old) (M.state port.new) (is_err result)
            (IsPartDone self.old self.new (TakesSome (Some (manual_word entry.now)))
            (with_some self.old.application.activity (Some (manual_word entry.now))))
            (IsPartMoment self.old (TakesSome (Some (manual_word entry.now)))
            (IsAdding self.old.application.activity (Some (manual_word entry.now)))) }
        ensures called { HasCause (M.state port.old) (M.state port.new) (is_err result) }
        ensures ends { OnOk result (EndsWith self.new.days self.old.days.tail.head.date.0 (manual_word entry.now)) }
        ensures most { (M.state port.new).clock ≤ (M.state port.old).clock + 4 }
    {
        self.days.add_change(port, manual_word(entry))
    }

    /// Begins its day with it.
    fn begin_by_hand<M: Medium>(&mut self, port: &mut M, entry: &Manual) -> Result<(), Failed>
        requires card { MayKeep self.old.application (M.state port.old) }
        requires last { entry.now.minute ≤ LATEST_MINUTE }
        ensures same { HasSame self.old self.new }
        ensures part { DoesPart (M.state port.old) (M.state port.new) (is_err result)
            (IsPartDone self.old self.new (BeginsFrom entry.now.minute (manual_word entry.now))
            (with_day_in self.old.application.activity entry.now.minute (manual_word entry.now)))
            (IsPartMoment self.old (BeginsFrom entry.now.minute (manual_word entry.now))
            (IsBeforeDayFrom self.old.application.activity entry.now.minute (manual_word entry.now))) }
        ensures called { HasCause (M.state port.old) (M.state port.new) (is_err result) }
        ensures ends { OnOk result (EndsWith self.new.days (date_of entry.now.minute) (manual_word entry.now)) }
        ensures most { (M.state port.new).clock ≤ (M.state port.old).clock + 9 }
    {
        let date = TimeReal(date_of(entry.minute));
        let word = manual_word(entry);
        if entry.minute % DAY_MINUTES == 0 {
            self.days.begin_day(port, date, &[word])
        } else {
            self.days.begin_day(port, date, &[bare_word(), word])
        }
    }
}
