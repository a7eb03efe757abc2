//! Decided minutes are kept, one after another.
ghost use Rattle.std.specs.Prelude.{◌≡◌, ◌*◌, ◌≤◌, length, is_some, is_err};
ghost use Rattle.unit_model.specs.declared.layout.TheConstants.{HIGHEST_ODOMETER};
ghost use Rattle.run_minutes.specs.Keeping.{DevicesMayBeCalled};
ghost use Rattle.run_minutes.specs.Minutes.{odometer_by, kept_of};
ghost use Rattle.run_minutes.specs.Kept.{MayKeepAll, KeepsAll};
ghost use Rattle.run_minutes.specs.Stand.{StandsAfter, AreBare, standing, KeepingGoesWithin};
ghost use Rattle.run_minutes.specs.Writes.{minute_most, minute_unit_most};

use crate::keeper::{Keeper, Moment};
use crate::keeping::MinuteSaid;
use activity_codec::Activity;
use card_slots::Present;
use minute_rules::Minute;
use run_outcome::Outcome;
use tach_media::{Chip, Failed, Medium};
use tacho_types::Odometer;
use trace_model::Card;
use unit_minutes::{KeptMinute, State};
use unit_model::layout::HIGHEST_ODOMETER;

/// The odometer in kilometres, where it stood at `stored` and so many km/h were summed up by seconds since.
pub fn odometer_after(stored: u32, travelled: u64) -> Odometer
    requires { stored ≤ HIGHEST_ODOMETER }
    ensures { result.0 ≡ odometer_by stored travelled }
{
    let more = (travelled / 3600).min(HIGHEST_ODOMETER as u64) as u32;
    Odometer((stored + more).min(HIGHEST_ODOMETER))
}

/// A slot in a minute.
fn state(act: Activity, present: Option<Card>) -> State
    ensures { result ≡ record { act = act; present = is_some present } }
{
    State {
        act,
        present: present.is_some(),
    }
}

/// A decided minute as it is kept, with the cards that were present in it.
fn kept_of(minute: &Minute, present: Present, stored: u32) -> KeptMinute
    requires { stored ≤ HIGHEST_ODOMETER }
    ensures { result ≡ kept_of stored minute.now present }
{
    KeptMinute {
        minute: minute.minute,
        driver: state(minute.driver, present.driver),
        codriver: state(minute.codriver, present.codriver),
        odometer: odometer_after(stored, minute.travelled),
    }
}

/// Minutes that are decided, in their order, and the moment of their keeping.
#[derive(Clone, Copy)]
pub struct MinutesDecided<D> {
    pub decided: D,
    /// The moment of their keeping, as a tear tells it.
    pub at: Moment,
}

impl Keeper {
    /// Keeps decided minutes, in their order, up to the first that fails: each on the unit, and on the cards that were
    /// present in it.
    ///
    /// # Errors
    ///
    /// `Failed` where the unit failed; then the minutes before are kept, and of the others nothing but maybe the next.
    pub fn keep_all<M: Medium, C: Chip, D: Chip>(
        &mut self,
        minutes: MinutesDecided<&[Minute]>,
        unit: &mut M,
        card_a: &mut C,
        card_b: &mut D,
        outcome: &mut Outcome,
    ) -> Result<(), Failed>
        requires ready { DevicesMayBeCalled self.old (M.state unit.old) (C.card card_a.old) (D.card card_b.old)
            (C.state card_a.old) (D.state card_b.old) }
        requires may { MayKeepAll minutes.decided.now minutes.at
            (standing self.old outcome.old.marks outcome.old.breaks (M.state unit.old) (C.state card_a.old)
            (D.state card_b.old) (C.card card_a.old) (D.card card_b.old)) }
        ensures stands { StandsAfter minutes.entry.at (is_err result)
            (standing self.old outcome.old.marks outcome.old.breaks (M.state unit.old) (C.state card_a.old)
            (D.state card_b.old) (C.card card_a.old) (D.card card_b.old))
            (standing self.new outcome.new.marks outcome.new.breaks (M.state unit.new) (C.state card_a.new)
            (D.state card_b.new) (C.card card_a.new) (D.card card_b.new)) }
        ensures only { outcome.new ≡ record outcome.old { marks = outcome.new.marks; breaks = outcome.new.breaks } }
        ensures goes { KeepingGoesWithin (minute_unit_most * length minutes.entry.decided.now)
            (minute_most * length minutes.entry.decided.now)
            (standing self.old outcome.old.marks outcome.old.breaks (M.state unit.old) (C.state card_a.old)
            (D.state card_b.old) (C.card card_a.old) (D.card card_b.old))
            (standing self.new outcome.new.marks outcome.new.breaks (M.state unit.new) (C.state card_a.new)
            (D.state card_b.new) (C.card card_a.new) (D.card card_b.new)) }
        ensures kept { KeepsAll minutes.entry.decided.now minutes.entry.at (is_err result)
            (standing self.old outcome.old.marks outcome.old.breaks (M.state unit.old) (C.state card_a.old)
            (D.state card_b.old) (C.card card_a.old) (D.card card_b.old))
            (standing self.new outcome.new.marks outcome.new.breaks (M.state unit.new) (C.state card_a.new)
            (D.state card_b.new) (C.card card_a.new) (D.card card_b.new)) }
        ensures bare { AreBare self.old.cabin.cards card_a.old card_a.new card_b.old card_b.new }
    {
        let decided = minutes.decided;
        let at = minutes.at;
        for minute in decided {
            let present = self.cabin.present(minute.minute);
            let kept = kept_of(minute, present, self.odometer);
            let said = MinuteSaid {
                minute: kept,
                present,
                at,
            };
            self.keep_minute(said, unit, card_a, card_b, outcome)?;
        }
        Ok(())
    }
}
