//! What is kept of a run.
ghost use Rattle.std.specs.Prelude.{◌≡◌, ℕ, ◌+◌, ◌<◌, ◌≤◌, ◌∷◌, [], false, None, length};
ghost use Rattle.unit_model.specs.declared.layout.TheConstants.{HIGHEST_ODOMETER};
ghost use Rattle.unit_model.specs.Versions.{rule_by};
ghost use Rattle.unit_model.specs.minute_model.Span.{Span, begin, travelled_of};
ghost use Rattle.minute_rules.specs.Kept.{CountsSpan};
ghost use Rattle.run_crew.specs.card_slots.Kept.{nothing_yet};
ghost use Rattle.run_crew.specs.Cabin.{CabinIsSound};
ghost use Rattle.run_minutes.specs.Keeping.{with_lines};
ghost use Rattle.run_minutes.specs.Minutes.{odometer_by};

use log_model::{Refused, SlotFault};
use minute_rules::Minutes;
use run_crew::Cabin;
use run_events::Watch;
use run_minutes::{Keeper, Moment, odometer_after};
use run_opening::Opened;
use run_outcome::Lines;
use tacho_types::Odometer;

/// Whether the unit has power, or when it has it again.
#[derive(Clone, Copy, Debug, PartialEq, Eq)]
pub enum Power {
    /// It has power.
    Lit,
    /// It has none, and has it again at the first second that the trace gives it: at the beginning, and behind an `off`
    /// line.
    Due,
    /// A call on it has failed: it has power again at the next minute, or behind an `off` line.
    Lost,
}

/// What is kept of a run between two seconds.
#[derive(Drop)]
pub struct Run {
    pub power: Power,
    /// The number of the next second.
    pub next: u32,
    /// How many actions the last second had.
    pub begun: u32,
    /// The first break of which it is not known what was kept.
    pub unfound: usize,
    /// The minutes of the span that goes on, while the unit has power.
    pub minutes: Minutes,
    /// What minutes are kept with: the unit's memory and journal, and which card is in which slot with which session.
    pub keeper: Keeper,
    /// The events of the span that goes on, while the unit has power.
    pub watch: Watch,
    /// How many insertions were noted.
    pub noted: u64,
}

impl Run {
    ghost use Rattle.run_acts.specs.Power.{StartsAt, is_lit, passed};
    ghost use Rattle.run_acts.specs.Going.{largest_number};

    /// A run that begins at this second, of devices that were opened so.
    pub fn new(start: u32, opened: Opened) -> Run
        requires card_a { opened.card_a.accepted ≡ None }
        requires card_b { opened.card_b.accepted ≡ None }
        ensures starts { StartsAt start result }
        ensures minutes { CountsSpan result.minutes (begin (rule_by opened.unit.memory.rule_byte) start) }
        ensures keeper { result.keeper
            ≡ record {
              memory = opened.unit.memory;
              journal = opened.unit.journal;
              odometer = opened.unit.journal.odometer;
              cabin = record { slots = nothing_yet; cards = record { a = opened.card_a; b = opened.card_b } };
            } }
        ensures odometer { result.keeper.odometer ≤ HIGHEST_ODOMETER }
        ensures stands { (from : ℕ) → CabinIsSound from None result.keeper.cabin }
    {
        let limit = opened.unit.memory.identity().limit;
        let rule = opened.unit.memory.rule();
        let odometer = opened.unit.journal.odometer().0;
        let keeper = Keeper {
            memory: opened.unit.memory,
            journal: opened.unit.journal,
            odometer,
            cabin: Cabin::new(opened.card_a, opened.card_b),
        };
        Run {
            power: Power::Due,
            next: start,
            begun: 0,
            unfound: 0,
            minutes: Minutes::new(rule, start),
            keeper,
            watch: Watch::new(limit),
            noted: 0,
        }
    }

    /// Whether the unit has power now. (Whether it has it in the next second: `has_power`.)
    pub fn is_lit(&self) -> bool
        ensures { result ≡ is_lit self.now.power }
    {
        self.power == Power::Lit
    }

    /// The next second, once so many of its actions have begun.
    pub fn moment(&self, begun: u32) -> Moment
        ensures { result ≡ record { second = self.now.next; begun = begun; late = false } }
    {
        Moment {
            second: self.next,
            begun,
            late: false,
        }
    }

    /// The odometer at the begin of the next second.
    pub fn odometer_now(&self) -> Odometer
        requires { self.now.keeper.odometer ≤ HIGHEST_ODOMETER }
        ensures value { (span : Span) → CountsSpan self.now.minutes span
            → result.0 ≡ odometer_by self.now.keeper.odometer (travelled_of span) }
        ensures most { result.0 ≤ HIGHEST_ODOMETER }
    {
        odometer_after(self.keeper.odometer, self.minutes.travelled())
    }

    /// An action of the next second is refused, with which so many of its actions have begun.
    pub fn refuse(&self, begun: u32, fault: SlotFault, refused: &mut Lines<Refused>)
        requires { length refused.old.items < refused.old.room }
        ensures { refused.new ≡ with_lines (record { second = self.now.next; fault = fault; begun = begun } ∷ [])
            refused.old }
    {
        refused.add(Refused {
            second: self.next,
            fault,
            begun,
        });
    }

    /// So many seconds are over, the last of which had so many actions.
    pub fn pass(&mut self, seconds: u32, begun: u32)
        requires { self.old.next + seconds ≤ largest_number }
        ensures { self.new ≡ passed seconds begun self.old }
    {
        self.next += seconds;
        self.begun = begun;
    }
}
