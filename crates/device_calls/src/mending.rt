//! The unit is mended at a power-on.
ghost use Rattle.std.specs.Prelude.{IfSome, is_err};
ghost use Rattle.unit_minutes.specs.unit_model.Image.{IsUnit};
ghost use Rattle.unit_minutes.specs.Mends.{IsMendable};
ghost use Rattle.unit_minutes.specs.Writes.{mend_most};
ghost use Rattle.device_calls.specs.Calls.{LeavesMended, RulesMended, UnitStandsMended, UnitAnswersWithin};

use tach_media::{Chip, Failed, Medium};
use unit_minutes::Journal;

/// Mends a unit that was found at a power-on. No card is accepted any more.
///
/// No line here reads the cards: `rules` speaks of them.
///
/// # Errors
///
/// `Failed` where the unit failed; then the cards stand as they did.
pub fn mend<M: Medium, C: Chip, D: Chip>(
    unit: &mut M,
    journal: &mut Journal,
    first: &C,
    second: &D,
) -> Result<(), Failed>
    requires unit { IsUnit (M.state unit.old) }
    requires mendable { IfSome (M.state unit.old).image (IsMendable journal.old) }
    ensures stands { UnitStandsMended result journal.old journal.new (M.state unit.new) }
    ensures rules { RulesMended result (M.state unit.old) (M.state unit.new) (C.state first.now) (D.state second.now) }
    ensures leaves { LeavesMended journal.old (M.state unit.old) (M.state unit.new) }
    ensures answers { UnitAnswersWithin mend_most (is_err result) (M.state unit.old) (M.state unit.new) }
{
    journal.mend(unit)
}
