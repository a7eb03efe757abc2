//! The entry of a minute is brought onto the card that was present in a slot.
ghost use Rattle.std.specs.Prelude.{◌≡◌, ℕ, ◌+◌, ◌-◌, ◌≤◌, Option, Some, is_err};
ghost use Rattle.trace_model.specs.declared.Card.{Card};
ghost use Rattle.tach_media.specs.Medium.{LeavesOnly};
ghost use Rattle.unit_notes.specs.Journal.{LeavesJournal};
ghost use Rattle.run_crew.specs.Cards.{known_of, session_of};
ghost use Rattle.run_crew.specs.Cabin.{CabinIsSound, crew_of};
ghost use Rattle.run_minutes.specs.Owing.{BooksCard, BooksBrought};
ghost use Rattle.run_minutes.specs.Kept.{IsAnother};
ghost use Rattle.run_minutes.specs.Stand.{StandsAfter, CallsOnly, standing, KeepingGoesWithin};
ghost use Rattle.run_minutes.specs.Writes.{keep_most, tear_unit_most};
ghost use Rattle.run_devices.specs.run_promise.Between.{devices};
ghost use Rattle.run_minutes.specs.Keeping.{UnitMayBeCalled, CardMayBeCalled};
ghost use Rattle.run_minutes.specs.Keeping.{DevicesMayBeCalled, Fate, IsBrought, IsNotingFault, tears_of};
ghost use Rattle.run_minutes.specs.Keeping.{state_at};
ghost use Rattle.run_minutes.specs.Calls.{CardKeeps, MayBring, StandsBrought};

use crate::keeper::{Keeper, Moment};
use card_session::Kept;
use device_calls::keep_on_card;
use log_model::{Break, Mark, device_of};
use run_outcome::{Lines, Outcome};
use tach_media::{Chip, Failed, Medium};
use trace_model::Card;

/// What a card is to keep of a minute: which card, its entry, and the moment, as a tear tells it.
#[derive(Clone, Copy)]
struct CardKeep {
    which: Card,
    kept: Kept,
    at: Moment,
}

/// What a minute says on the card that was present in a slot, if one was: its entry, and the moment, as a tear tells
/// it.
#[derive(Clone, Copy)]
pub(crate) struct SlotSaid {
    pub present: Option<Card>,
    pub kept: Kept,
    pub at: Moment,
}

impl Keeper {
    /// This card keeps an entry, unless it was torn out since: then it has no session.
    fn bring_to<M: Medium, C: Chip>(
        &mut self,
        keep: CardKeep,
        unit: &mut M,
        card: &mut C,
        marks: &mut Lines<Mark>,
        breaks: &mut Lines<Break>,
    ) -> Result<(), Failed>
        requires ready { UnitMayBeCalled self.old (M.state unit.old) }
        requires card { CardMayBeCalled (known_of self.old.cabin.cards keep.which) (C.card card.old)
            (C.state card.old) }
        requires may { MayBring (Some keep.which) keep.kept keep.at self.old marks.old breaks.old }
        ensures brought { (fate : Fate)
            × IsBrought (Some keep.which) keep.kept keep.at
            (is_err result) self.old self.new marks.old marks.new breaks.old
            breaks.new fate (M.state unit.old) (M.state unit.new) (C.state card.old) (C.state card.new)
            × LeavesOnly (M.state unit.old) (M.state unit.new)
            (IsNotingFault fate keep.at.second (crew_of self.new.cabin))
            × BooksCard keep.which keep.kept fate self.old.cabin.cards self.new.cabin.cards (M.state unit.old)
            (C.state card.old) (C.state card.new) }
        ensures journal { LeavesOnly (M.state unit.old) (M.state unit.new) LeavesJournal }
        ensures behind { StandsBrought keep.which result self.old self.new (M.state unit.old) (M.state unit.new)
            (C.state card.old) (C.state card.new) (C.card card.new) }
        ensures goes { CardKeeps (tears_of (session_of self.old.cabin.cards keep.which) - tears_of
            (session_of self.new.cabin.cards keep.which))
            (C.state card.old) (C.state card.new) }
        ensures bare { session_of self.old.cabin.cards keep.which ≡ None → card.new ≡ card.old }
        ensures stands { (from : ℕ) (leaving : Option Card) → from ≤ keep.kept.entry.minute + 1
            → CabinIsSound from leaving self.old.cabin
            → CabinIsSound (keep.kept.entry.minute + 1) leaving self.new.cabin }
        ensures most { ((M.state unit.new).clock ≤ (M.state unit.old).clock + tear_unit_most)
            × ((C.state card.new).clock ≤ (C.state card.old).clock + keep_most) }
    {
        let which = keep.which;
        let kept = keep.kept;
        let at = keep.at;
        let Ok(app) = self.cabin.cards.of(which).sizes else {
            return Ok(());
        };
        let Some(mut accepted) = self.cabin.cards.take(which) else {
            return Ok(());
        };
        if keep_on_card(
            unit,
            card,
            app,
            &mut accepted.session,
            &mut accepted.held,
            &kept,
        )
        .is_err()
        {
            return self.tear(which, kept.entry.slot, at, unit, breaks);
        }
        self.cabin.cards.set_session(which, Some(accepted));
        marks.add(Mark {
            device: device_of(which),
            minute: kept.entry.minute,
            clock: card.clock(),
        });
        Ok(())
    }

    /// The card that was present in a slot, if one was, keeps its entry of a minute that the unit has, unless it was
    /// torn out since. Where its call failed it is torn out.
    ///
    /// # Errors
    ///
    /// `Failed` where the unit failed, as it noted the fault.
    pub(crate) fn bring<M: Medium, C: Chip, D: Chip>(
        &mut self,
        said: SlotSaid,
        unit: &mut M,
        card_a: &mut C,
        card_b: &mut D,
        outcome: &mut Outcome,
    ) -> Result<(), Failed>
        requires ready { DevicesMayBeCalled self.old (M.state unit.old) (C.card card_a.old) (D.card card_b.old)
            (C.state card_a.old) (D.state card_b.old) }
        requires may { MayBring said.present said.kept said.at self.old outcome.old.marks outcome.old.breaks }
        ensures brought { (fate : Fate)
            × IsBrought said.present said.kept said.at (is_err result) self.old self.new outcome.old.marks
            outcome.new.marks outcome.old.breaks outcome.new.breaks fate (M.state unit.old) (M.state unit.new)
            (state_at said.present (C.state card_a.old) (D.state card_b.old))
            (state_at said.present (C.state card_a.new) (D.state card_b.new))
            × LeavesOnly (M.state unit.old) (M.state unit.new)
            (IsNotingFault fate said.at.second (crew_of self.new.cabin))
            × BooksBrought said.present said.kept (is_err result) fate self.old.cabin.cards self.new.cabin.cards
            (devices (M.state unit.old) (C.state card_a.old) (D.state card_b.old))
            (devices (M.state unit.new) (C.state card_a.new) (D.state card_b.new)) }
        ensures only { outcome.new ≡ record outcome.old { marks = outcome.new.marks; breaks = outcome.new.breaks } }
        ensures stands { StandsAfter said.at (is_err result)
            (standing self.old outcome.old.marks outcome.old.breaks (M.state unit.old) (C.state card_a.old)
            (D.state card_b.old) (C.card card_a.old) (D.card card_b.old))
            (standing self.new outcome.new.marks outcome.new.breaks (M.state unit.new) (C.state card_a.new)
            (D.state card_b.new) (C.card card_a.new) (D.card card_b.new)) }
        ensures goes { KeepingGoesWithin tear_unit_most keep_most
            (standing self.old outcome.old.marks outcome.old.breaks (M.state unit.old) (C.state card_a.old)
            (D.state card_b.old) (C.card card_a.old) (D.card card_b.old))
            (standing self.new outcome.new.marks outcome.new.breaks (M.state unit.new) (C.state card_a.new)
            (D.state card_b.new) (C.card card_a.new) (D.card card_b.new)) }
        ensures calls { CallsOnly (IsAnother said.present) self.old.cabin.cards card_a.old card_a.new card_b.old
            card_b.new }
        ensures journal { LeavesOnly (M.state unit.old) (M.state unit.new) LeavesJournal }
        ensures cabin { (from : ℕ) (leaving : Option Card) → from ≤ said.kept.entry.minute + 1
            → CabinIsSound from leaving self.old.cabin
            → CabinIsSound (said.kept.entry.minute + 1) leaving self.new.cabin }
    {
        let kept = said.kept;
        let at = said.at;
        match said.present {
            None => Ok(()),
            Some(Card::A) => {
                let keep = CardKeep {
                    which: Card::A,
                    kept,
                    at,
                };
                let marks = &mut outcome.marks;
                self.bring_to(keep, unit, card_a, marks, &mut outcome.breaks)
            }
            Some(Card::B) => {
                let keep = CardKeep {
                    which: Card::B,
                    kept,
                    at,
                };
                let marks = &mut outcome.marks;
                self.bring_to(keep, unit, card_b, marks, &mut outcome.breaks)
            }
        }
    }
}
