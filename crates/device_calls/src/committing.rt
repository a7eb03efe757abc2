//! The unit keeps a minute.
ghost use Rattle.std.specs.Prelude.{is_err};
ghost use Rattle.unit_minutes.specs.Writes.{keep_most};
ghost use Rattle.device_calls.specs.Calls.{LeavesCommitted, MinuteMayBeKept, RulesCommitted, UnitIsReady};
ghost use Rattle.device_calls.specs.Calls.{UnitStandsCommitted, UnitAnswersWithin};

use tach_media::{Chip, Failed, Medium};
use unit_minutes::{Journal, KeptMinute};

/// The unit keeps a minute of the history, whose entries are put among those owed to its cards.
///
/// No line here reads the cards: `rules` speaks of them.
///
/// # Errors
///
/// `Failed` where the unit failed; then the minute may be there or not.
pub fn commit<M: Medium, C: Chip, D: Chip>(
    unit: &mut M,
    journal: &mut Journal,
    first: &C,
    second: &D,
    kept: &KeptMinute,
) -> Result<(), Failed>
    requires ready { UnitIsReady journal.old (M.state unit.old) }
    requires may { MinuteMayBeKept kept.now journal.old }
    ensures stands { UnitStandsCommitted kept.now result journal.old journal.new (M.state unit.old) (M.state unit.new) }
    ensures rules { RulesCommitted kept.now result (M.state unit.old) (M.state unit.new) (C.state first.now)
        (D.state second.now) }
    ensures leaves { LeavesCommitted kept.now result (M.state unit.old) (M.state unit.new) }
    ensures answers { UnitAnswersWithin keep_most (is_err result) (M.state unit.old) (M.state unit.new) }
{
    journal.keep(unit, kept)
}
