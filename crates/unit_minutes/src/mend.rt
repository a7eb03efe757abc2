//! The writes that mend a unit.
ghost use Rattle.std.specs.Option.{ForSome};
ghost use Rattle.std.specs.Prelude.{◌≡◌, ◌≤◌, ◌<◌, ◌+◌, length, IfOk, IfSome, is_err};
ghost use Rattle.unit_model.specs.declared.layout.TheConstants.{DAY_SLOTS, DAY_WORD_LIMIT, IMAGE_SIZE};
ghost use Rattle.tach_media.specs.Medium.{Reads};
ghost use Rattle.tach_media.specs.Plan.{more, none};
ghost use Rattle.unit_model.specs.Image.{IsUnit};
ghost use Rattle.unit_minutes.specs.Plans.{HasRoom};
ghost use Rattle.unit_minutes.specs.Mends.{emptied_at, late_cells, gate_shut, count_cut};

use crate::notes::Notes;
use tach_media::{Failed, Medium, Plan, read_number};
use unit_model::layout::{
    CELL_MINUTE, CELLS, DAY_COUNT, IMAGE_SIZE, OWED_ROWS, cell_place, slot_place,
};

/// The writes of a mend: each cell of the owed rows, the gate of a later day, and the count of the last-kept minute's
/// day.
pub type Mending = Plan<34, 4>;

/// Adds the emptying of a cell, where it is later than the last-kept minute.
fn add_emptied(plan: &mut Mending, place: u32, kept: u32, minute: u32)
    requires room { HasRoom 1 34 plan.old }
    requires inside { place + 4 ≤ IMAGE_SIZE }
    ensures plan { plan.new ≡ more plan.old (emptied_at place kept minute) }
    ensures length { length plan.new.pieces ≤ length plan.old.pieces + 1 }
{
    if minute > kept {
        plan.put(place, &[0; 4]);
    }
}

/// The cells of the owed rows that are later than the last-kept minute, row by row, cell by cell: each is to be
/// emptied.
///
/// # Errors
///
/// `Failed` where the medium failed.
pub fn late_cells<M: Medium>(unit: &mut M, kept: u32) -> Result<Mending, Failed>
    requires unit { IsUnit (M.state unit.old) }
    ensures plan { IfOk result (λ plan. IfSome (M.state unit.old).image (λ x. plan ≡ more (none 0 IMAGE_SIZE)
        (late_cells kept 32 x))) }
    ensures room { IfOk result (HasRoom 2 34) }
    ensures reads { Reads (M.state unit.old) (M.state unit.new) (is_err result) }
{
    let mut plan = Mending::new(0, IMAGE_SIZE);
    for nth in 0..OWED_ROWS * CELLS {
        let place = cell_place(nth);
        let minute = read_number(unit, place, CELL_MINUTE.size)?;
        add_emptied(&mut plan, place, kept, minute);
    }
    Ok(plan)
}

/// Adds the shutting of a later day's gate, where one was found.
pub fn add_shut(plan: &mut Mending, stray: Option<u32>)
    requires room { HasRoom 1 34 plan.old }
    requires below { ForSome stray (λ s. s < DAY_SLOTS) }
    ensures plan { plan.new ≡ more plan.old (gate_shut stray) }
    ensures length { length plan.new.pieces ≤ length plan.old.pieces + 1 }
{
    if let Some(index) = stray {
        plan.put(slot_place(index), &[0; 4]);
    }
}

/// Adds the cut of the count of the last-kept minute's day, where it differs.
pub fn add_cut(plan: &mut Mending, notes: &Notes)
    requires room { HasRoom 1 34 plan.old }
    requires index { notes.now.index < DAY_SLOTS }
    requires few { notes.now.count ≤ DAY_WORD_LIMIT }
    ensures plan { plan.new ≡ more plan.old (count_cut notes.now) }
    ensures length { length plan.new.pieces ≤ length plan.old.pieces + 1 }
{
    if notes.kept == 0 {
        return;
    }
    if notes.stored == notes.count {
        return;
    }
    plan.put(
        slot_place(notes.index) + DAY_COUNT.place,
        &(notes.count as u16).to_be_bytes(),
    );
}
