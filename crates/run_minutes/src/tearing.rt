//! A card is torn out, since a call on it failed.
ghost use Rattle.std.specs.Prelude.{ℕ, ◌+◌, ◌≤◌, Option};
ghost use Rattle.trace_model.specs.declared.Card.{Card};
ghost use Rattle.run_crew.specs.Cabin.{CabinIsSound};
ghost use Rattle.run_minutes.specs.Keeping.{UnitMayBeCalled};
ghost use Rattle.run_minutes.specs.Calls.{IsTorn, NotesTear, UnitStandsTorn, MayTear};
ghost use Rattle.run_minutes.specs.Writes.{tear_unit_most};

use crate::keeper::{Keeper, Moment};
use activity_codec::Slot;
use log_model::Break;
use run_events::card_fault;
use run_outcome::Lines;
use tach_media::{Failed, Medium};
use trace_model::Card;
use unit_notes::UnitNotes;

impl Keeper {
    /// A call on a card, of a slot or on its way out of it, has failed: it is torn out, which is told, and noted on the
    /// unit at once.
    ///
    /// # Errors
    ///
    /// `Failed` where the unit failed; then the fault may be noted or not.
    pub fn tear<M: Medium>(
        &mut self,
        card: Card,
        slot: Slot,
        at: Moment,
        unit: &mut M,
        breaks: &mut Lines<Break>,
    ) -> Result<(), Failed>
        requires ready { UnitMayBeCalled self.old (M.state unit.old) }
        requires may { MayTear at self.old breaks.old }
        ensures torn { IsTorn card slot at self.old self.new breaks.old breaks.new }
        ensures behind { UnitStandsTorn result self.old self.new (M.state unit.old) (M.state unit.new) }
        ensures stands { (from : ℕ) (leaving : Option Card) → CabinIsSound from leaving self.old.cabin
            → CabinIsSound from leaving self.new.cabin }
        ensures leaves { NotesTear result at self.new (M.state unit.old) (M.state unit.new) }
        ensures most { (M.state unit.new).clock ≤ (M.state unit.old).clock + tear_unit_most }
    {
        breaks.add(Break::Tear {
            second: at.second,
            slot,
            failed: true,
            begun: at.begun,
            late: at.late,
        });
        self.cabin.tear(card, at.second);
        let crew = self.cabin.crew();
        self.memory.note_fault(unit, &card_fault(at.second, crew))
    }
}
