//! The opening of a run.
ghost use Rattle.std.specs.Prelude.{IfOk, OnOk, IfErr};
ghost use Rattle.safety_model.specs.Recording.{Recording};
ghost use Rattle.run_promise.specs.Between.{devices};
ghost use Rattle.run_opening.specs.Opening.{IsRefused};
ghost use Rattle.run_opening.specs.Begun.{Begin, IsBegun};
ghost use Rattle.run_opening.specs.Calls.{DevicesAreAsTheyWere, DevicesAreFound, DevicesWork, AreSized};

use crate::fault::RunFault;
use crate::on_card::{judge_card, judge_numbers};
use crate::on_unit::{OpenedUnit, judge_unit};
use run_crew::Known;
use run_model::Device;
use tach_media::{Chip, Medium};

/// What the opening finds: of the unit its journal and what it was told of the vehicle, and what is known of both
/// cards.
#[derive(Drop)]
pub struct Opened {
    pub unit: OpenedUnit,
    pub card_a: Known,
    pub card_b: Known,
}

/// Judges the devices of a run that begins at this second: the unit, the clock, both cards, and that they are two. It
/// writes nothing.
///
/// # Errors
///
/// In this order: `MediumFault` where that device failed; `BadUnit` exactly where the unit's image does not decode;
/// `ClockBack` exactly where the second's minute is not later than the last-kept one; `SameCard` exactly where both
/// cards are valid and have one number.
pub fn judge<M: Medium, C: Chip, D: Chip>(
    unit: &mut M,
    card_a: &mut C,
    card_b: &mut D,
    start: u32,
) -> Result<Opened, RunFault>
    requires sized { AreSized (devices (M.state unit.old) (C.state card_a.old) (D.state card_b.old)) }
    ensures found { IfOk result (DevicesAreFound start (M.state unit.new) (C.state card_a.new) (D.state card_b.new)
        (C.card card_a.new) (D.card card_b.new)) }
    ensures refused { IfErr result (IsRefused start
        (devices (M.state unit.old) (C.state card_a.old) (D.state card_b.old))
        (devices (M.state unit.new) (C.state card_a.new) (D.state card_b.new))) }
    ensures same { DevicesAreAsTheyWere (devices (M.state unit.old) (C.state card_a.old) (D.state card_b.old))
        (devices (M.state unit.new) (C.state card_a.new) (D.state card_b.new)) }
    ensures works { OnOk result (DevicesWork (devices (M.state unit.old) (C.state card_a.old) (D.state card_b.old))
        (devices (M.state unit.new) (C.state card_a.new) (D.state card_b.new))) }
    ensures begins { (r : Recording) → Begin r (devices (M.state unit.old) (C.state card_a.old) (D.state card_b.old)) →
        IsBegun r start (devices (M.state unit.old) (C.state card_a.old) (D.state card_b.old))
        (devices (M.state unit.new) (C.state card_a.new) (D.state card_b.new)) result }
{
    let opened = judge_unit(unit, start)?;
    let a = judge_card(card_a, Device::CardA)?;
    let b = judge_card(card_b, Device::CardB)?;
    judge_numbers(&a, &b)?;
    Ok(Opened {
        unit: opened,
        card_a: a,
        card_b: b,
    })
}
