//! A trace without a card's line is recorded on the unit alone.
ghost use Rattle.std.specs.Prelude.{◌≡◌, ◌/◌, ◌≤◌, ◌<◌, ℕ, List, true, false, length, OnOk};
ghost use Rattle.tach_media.specs.Medium.{last_count};
ghost use Rattle.log_model.specs.Causes.{HasCauses, cuts};
ghost use Rattle.trace_model.specs.Trace.{seconds_of};
ghost use Rattle.history_model.specs.Presence.{Start};
ghost use Rattle.unit_model.specs.Decoding.{Decodes};
ghost use Rattle.unit_model.specs.Image.{last_kept};
ghost use Rattle.recorder_with_cards.specs.Words.{log_of, largest_number};
ghost use Rattle.tacho.specs.Alone.{needs_no_card, IsForUnit, NoVerdict, counts, StartsAs, IsAlone};
ghost use Rattle.tacho.specs.Alone.{MayBeAlone, GoesAlone, TellsRefusal, TellsUnitBreakdowns};

use crate::blank::no_card;
use recorder_with_cards::{RunFault, run_trace};
use run_outcome::Outcome;
use tach_media::Medium;
use trace_text::{Action, Item, Items, Trace};

/// Whether no line of these is a card's.
pub fn is_for_unit(items: &Items) -> bool
    ensures for_unit { result ≡ true → IsForUnit items.now }
    ensures card { result ≡ false → IsForUnit items.now → ⊥ }
{
    for i in 0..items.len() {
        if !needs_no_card(*items.get(i)) {
            return false;
        }
    }
    true
}

/// Whether no card bears on a line.
fn needs_no_card(item: Item) -> bool
    ensures { result ≡ needs_no_card item }
{
    match item {
        Item::Run { .. } | Item::Off { .. } | Item::Act(Action::Select { .. }) => true,
        Item::Act(_) => false,
    }
}

/// Records such a trace on the unit: in the place of each card stands none.
///
/// # Errors
///
/// In the opening, before any write: `MediumFault(Unit)` only where the unit failed, `BadUnit` with the place of the
/// first field that fails, and `ClockBack` exactly where the minute of the first second is not later than the last-kept
/// minute. A unit that tells its image gives none of them later.
pub fn record_alone<U: Medium>(
    trace: &Trace,
    unit: &mut U,
    outcome: &mut Outcome,
) -> Result<(), RunFault>
    requires { MayBeAlone trace.now outcome.old (U.state unit.old) }
    // The crash-safety theorem of the unit, with its auxiliary records.
    ensures recorded { (cards : Start) (x : List ℕ) → StartsAs x (U.state unit.old)
        → (U.state unit.new).clock < last_count → length trace.now.items ≤ largest_number
        → OnOk result (IsAlone cards x trace.now.start trace.now.items outcome.new (U.state unit.old)
        (U.state unit.new)) }
    // Each line of the run log has its cause, and what happened has its line, however often the cards, which are not
    // called, have broken down.
    ensures causes { (x : List ℕ) (a b : ℕ) → StartsAs x (U.state unit.old) → (U.state unit.new).clock < last_count
        → length trace.now.items ≤ largest_number
        → OnOk result (HasCauses NoVerdict (counts (U.state unit.old).breakdowns a b)
        (counts (U.state unit.new).breakdowns a b) (seconds_of trace.now.start trace.now.items) (log_of outcome.new)) }
    // So many writes it begins at most, by its power-ons, the turns of the trace and its actions.
    ensures goes { GoesAlone trace.now.start trace.now.items (length (cuts true (log_of outcome.new)))
        (U.state unit.old) (U.state unit.new) }
    // Each cut that a failed call made is a breakdown of the unit more; and where none has cut the power of a run that
    // is recorded, it has not broken down, nor where no call on it failed. Nor has it more often than those cuts. No
    // clock and no count of it falls.
    ensures breakdowns { TellsUnitBreakdowns result outcome.new (U.state unit.old) (U.state unit.new) }
    // A run that is recorded began on a unit that decodes, in a later minute than its last-kept one; and what keeps one
    // from being recorded is the unit, in the opening, as it was, or read anew at a power-on.
    ensures begun { (x : List ℕ) → StartsAs x (U.state unit.old)
        → OnOk result (Decodes x × (last_kept x < trace.now.start / 60)) }
    ensures refusal { TellsRefusal result trace.now.start trace.now.items outcome.old outcome.new (U.state unit.old)
        (U.state unit.new) }
{
    let mut card_a = no_card();
    let mut card_b = no_card();
    run_trace(trace, unit, &mut card_a, &mut card_b, outcome)
}
