//! Power lost, and power back.
ghost use Rattle.std.specs.Prelude.{◌≡◌, ℕ, ◌+◌, ◌-◌, ◌/◌, ◌<◌, ◌≤◌, ◌∷◌, [], Option, None, length};
ghost use Rattle.unit_model.specs.declared.layout.TheConstants.{HIGHEST_ODOMETER};
ghost use Rattle.trace_model.specs.declared.Card.{Card};
ghost use Rattle.run_crew.specs.Cards.{session_of};
ghost use Rattle.run_crew.specs.Cabin.{CabinIsSound, KnowsEnded};
ghost use Rattle.run_outcome.specs.Lines.{cut_at, found_from};
ghost use Rattle.run_minutes.specs.Keeping.{with_lines};

use crate::run::{Power, Run};
use activity_codec::MINUTE_SECONDS;
use log_model::Break;
use minute_rules::{Minutes, Rule};
use run_events::Watch;
use run_outcome::Lines;
use unit_minutes::Journal;

impl Run {
    ghost use Rattle.run_acts.specs.Power.{is_lit, has_power, cut_run, off_run, off_cut, minute_over, IsSpanBegun};
    ghost use Rattle.run_acts.specs.Going.{first_second, end_of_seconds};
    ghost use Rattle.run_acts.specs.declared.run.Power.TheVariants.{Lit};

    /// The power was lost in a second of which so many actions had begun: a call on the unit has failed, or it is the
    /// last one before an `off` line. The cards stay in their slots, and none is accepted any more.
    pub fn cut(&mut self, second: u32, failed: bool, begun: u32, breaks: &mut Lines<Break>)
        requires room { length breaks.old.items < breaks.old.room }
        requires minute { self.old.keeper.cabin.slots.minute ≤ second / 60 }
        ensures run { self.new ≡ cut_run second self.old }
        ensures breaks { breaks.new ≡ with_lines (cut_at second failed begun ∷ []) breaks.old }
        ensures stands { (from to : ℕ) (leaving : Option Card) → CabinIsSound from leaving self.old.keeper.cabin
            → CabinIsSound to None self.new.keeper.cabin }
        ensures bare { (card : Card) → session_of self.new.keeper.cabin.cards card ≡ None }
    {
        breaks.add(Break::Cut {
            second,
            kept: 0,
            failed,
            begun,
        });
        self.keeper.cabin.cut(second);
        self.power = Power::Lost;
    }

    /// So many seconds without power.
    pub fn off(&mut self, seconds: u32, breaks: &mut Lines<Break>)
        requires low { first_second ≤ self.old.next }
        requires small { self.old.next + seconds ≤ end_of_seconds }
        requires room { self.old.power ≡ Lit → length breaks.old.items < breaks.old.room }
        requires minute { self.old.keeper.cabin.slots.minute ≤ (self.old.next - 1) / 60 }
        ensures run { self.new ≡ off_run seconds self.old }
        ensures breaks { breaks.new ≡ with_lines (off_cut (is_lit self.old.power) (self.old.next - 1) self.old.begun)
            breaks.old }
    {
        if self.is_lit() {
            let begun = self.begun;
            self.cut(self.next - 1, false, begun, breaks);
        }
        self.power = Power::Due;
        self.next += seconds;
        self.begun = 0;
    }

    /// Whether the next second has power, where the trace gives it power: the unit has it now (`is_lit`), or power
    /// comes back with that second.
    pub fn has_power(&self) -> bool
        ensures { result ≡ has_power self.now.power self.now.next }
    {
        match self.power {
            Power::Lit | Power::Due => true,
            Power::Lost => self.next % MINUTE_SECONDS == 0,
        }
    }

    /// Where a minute begins, the one before has ended.
    pub fn end_minute(&mut self)
        requires low { first_second ≤ self.old.next }
        requires minute { self.old.keeper.cabin.slots.minute ≤ (self.old.next - 1) / 60 }
        ensures run { self.new ≡ minute_over self.old }
        ensures ended { (from : ℕ) → self.old.next / 60 ≤ from + 4
            → KnowsEnded from ((self.old.next - 1) / 60) self.old.keeper.cabin.slots
            → KnowsEnded from (self.old.next / 60) self.new.keeper.cabin.slots }
    {
        if self.next % MINUTE_SECONDS == 0 {
            self.keeper.cabin.end_minute(self.next / MINUTE_SECONDS - 1);
        }
    }

    /// The unit's journal has this last-kept minute: the cuts since the last power-on that loaded it tell so.
    pub fn learn(&mut self, kept: u32, breaks: &mut Lines<Break>)
        requires { self.old.unfound ≤ length breaks.old.items }
        ensures run { self.new ≡ record self.old { unfound = length breaks.old.items } }
        ensures breaks { breaks.new ≡ record {
          items = found_from self.old.unfound kept breaks.old.items;
          room = breaks.old.room;
        } }
        ensures same { length breaks.new.items ≡ length breaks.old.items }
    {
        breaks.find(self.unfound, kept);
        self.unfound = breaks.len();
    }

    /// A span begins with the next second, by this rule of minutes.
    pub fn begin_span(&mut self, journal: Journal, rule: Rule)
        ensures begun { IsSpanBegun rule self.old self.new journal }
        ensures odometer { self.new.keeper.odometer ≤ HIGHEST_ODOMETER }
    {
        self.keeper.odometer = journal.odometer().0;
        self.keeper.journal = journal;
        self.minutes = Minutes::new(rule, self.next);
        self.watch = Watch::new(self.keeper.memory.identity().limit);
        self.power = Power::Lit;
    }
}
