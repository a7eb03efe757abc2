//! Over speedings: their places, the begin of the first one, and their number.
ghost use Rattle.std.specs.Prelude.{◌≡◌, ◌≤◌, ◌+◌, length, OnOk, is_err, option_map};
ghost use Rattle.card_layout.specs.Images.{number_at};
ghost use Rattle.tach_media.specs.Medium.{LeavesOnly, HasCause, StaysSettled};
ghost use Rattle.unit_model.specs.Image.{IsUnit};
ghost use Rattle.unit_notes.specs.Entries.{over_bytes};
ghost use Rattle.unit_notes.specs.Noting.{OrTurned, with_first, with_one_more};

use event_model::{OVER_SPEEDING, Over};
use tach_media::{Failed, Medium, read_number};
use tacho_types::{FullCardNumber, TimeReal, write_card_number, write_time};
use unit_model::layout::{FIRST_OVER, MOST_OVERS, OVER_COUNT};

/// Why an over speeding is recorded: the highest average speed of one of the last ten days of occurrence (Appendix 1,
/// EventFaultRecordPurpose).
const PURPOSE: u8 = 4;

/// Writes an over speeding but its number of similar events into 30 bytes.
#[tactic(auto, unfolding(crate::specs::Entries::over_bytes))]
pub fn write_over(over: &Over, driver: &FullCardNumber, out: &mut [u8])
    requires size { length out.old ≡ 30 }
    ensures bytes { out.new ≡ over_bytes over.now driver.now }
    ensures begin { number_at out.new 2 4 ≡ over.now.begin }
{
    let (kinds, out) = out.split_at_mut(2);
    kinds.copy_from_slice(&[OVER_SPEEDING, PURPOSE]);
    let (begin, out) = out.split_at_mut(TimeReal::SIZE);
    write_time(TimeReal(over.begin), begin);
    let (end, out) = out.split_at_mut(TimeReal::SIZE);
    write_time(TimeReal(over.end), end);
    let (speeds, number) = out.split_at_mut(2);
    speeds.copy_from_slice(&[over.most, over.average]);
    write_card_number(driver, number);
}

/// Notes the begin of the first over speeding where none is held.
///
/// # Errors
///
/// `Failed` where the unit failed; then the begin may be there or not.
pub fn note_first<M: Medium>(unit: &mut M, begin: u32) -> Result<(), Failed>
    requires unit { IsUnit (M.state unit.old) }
    ensures written { OnOk result ((M.state unit.new).image ≡ option_map (with_first begin) (M.state unit.old).image) }
    ensures moments { LeavesOnly (M.state unit.old) (M.state unit.new) (OrTurned (with_first begin)) }
    ensures settled { OnOk result (StaysSettled (M.state unit.old) (M.state unit.new)) }
    ensures cause { HasCause (M.state unit.old) (M.state unit.new) (is_err result) }
    ensures most { (M.state unit.new).clock ≤ (M.state unit.old).clock + 1 }
{
    let first = read_number(unit, FIRST_OVER.place, FIRST_OVER.size)?;
    if first == 0 {
        unit.write_at(FIRST_OVER.place, &begin.to_be_bytes())?;
    }
    Ok(())
}

/// Counts one over speeding more, at most 255.
///
/// # Errors
///
/// `Failed` where the unit failed; then it may be counted or not.
pub fn count_one<M: Medium>(unit: &mut M) -> Result<(), Failed>
    requires unit { IsUnit (M.state unit.old) }
    ensures written { OnOk result ((M.state unit.new).image ≡ option_map with_one_more (M.state unit.old).image) }
    ensures moments { LeavesOnly (M.state unit.old) (M.state unit.new) (OrTurned with_one_more) }
    ensures settled { OnOk result (StaysSettled (M.state unit.old) (M.state unit.new)) }
    ensures cause { HasCause (M.state unit.old) (M.state unit.new) (is_err result) }
    ensures most { (M.state unit.new).clock ≤ (M.state unit.old).clock + 1 }
{
    let count = read_number(unit, OVER_COUNT.place, OVER_COUNT.size)?;
    if count < MOST_OVERS {
        unit.write_at(OVER_COUNT.place, &(count + 1).to_be_bytes())?;
    }
    Ok(())
}
