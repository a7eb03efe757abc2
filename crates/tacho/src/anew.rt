//! The unit and card a are made new, and then a trace is recorded.
ghost use Rattle.std.specs.Prelude.{ℕ, List, OnOk, IfErr, length, true};
ghost use Rattle.trace_text.specs.Trace.{IsWellFormed};
ghost use Rattle.log_model.specs.Causes.{cuts};
ghost use Rattle.run_outcome.specs.Room.{IsReserved};
ghost use Rattle.run_promise.specs.Between.{devices};
ghost use Rattle.recorder_with_cards.specs.Words.{log_of};
ghost use Rattle.tacho.specs.Formatting.{unit_image};
ghost use Rattle.tacho.specs.Anew.{MayBeMade, BeginsAnew, EndsAnew, IsKeptAnew, GoesAnew, IsFailed};

use recorder_with_cards::{RunFault, run_trace};
use run_model::Device;
use run_outcome::Outcome;
use tach_media::{Chip, Medium};
use trace_text::Trace;
use unit_memory::{Identity, format_unit};

/// Why a trace was not recorded on new devices.
#[derive(Clone, Copy, Debug, PartialEq, Eq)]
pub enum AnewFault {
    /// A device failed as it was made new.
    Unmade(Device),
    /// They are new, and the run was kept from being recorded.
    Kept(RunFault),
}

/// What the unit and card a are made of.
#[derive(Clone, Copy)]
pub struct NewDevices<I> {
    /// The unit's identity.
    pub vehicle: Identity,
    /// The card's flat image, of the largest sizes.
    pub image: I,
}

/// Makes the unit new, of an identity, and issues card a with an image; then a trace is recorded on them and card b.
///
/// # Errors
///
/// `Unmade` where the unit or card a failed as it was made, and `Kept` as `run_trace` says.
pub fn run_anew<U: Medium, C: Chip>(
    trace: &Trace,
    made: NewDevices<&[u8]>,
    unit: &mut U,
    card_a: &mut C,
    card_b: &mut C,
    outcome: &mut Outcome,
) -> Result<(), AnewFault>
    requires well { IsWellFormed trace.now.start trace.now.items }
    requires reserved { IsReserved trace.now.items outcome.old }
    requires may { MayBeMade made.image.now (devices (U.state unit.old) (C.state card_a.old) (C.state card_b.old)) }
    // THE CRASH-SAFETY THEOREM of the run, once the devices are new.
    ensures recorded { (b : List ℕ) → BeginsAnew b trace.now.items
        (devices (U.state unit.old) (C.state card_a.old) (C.state card_b.old))
        (devices (U.state unit.new) (C.state card_a.new) (C.state card_b.new))
        → OnOk result (EndsAnew (unit_image made.entry.vehicle) made.entry.image.now b trace.now.start trace.now.items
        outcome.new
        (devices (U.state unit.old) (C.state card_a.old) (C.state card_b.old))
        (devices (U.state unit.new) (C.state card_a.new) (C.state card_b.new))) }
    // Where it was not recorded nothing is put down, and card b is as it was; and where a run may begin with the new
    // images and card b's, only a failed call kept it from being recorded.
    ensures kept { (b : List ℕ) → BeginsAnew b trace.now.items
        (devices (U.state unit.old) (C.state card_a.old) (C.state card_b.old))
        (devices (U.state unit.new) (C.state card_a.new) (C.state card_b.new))
        → IfErr result (IsKeptAnew (unit_image made.entry.vehicle) made.entry.image.now b trace.now.start outcome.old
        outcome.new (C.state card_b.old) (C.state card_b.new)) }
    // A device that is told to have failed has failed.
    ensures failed { IfErr result (λ fault. IsFailed fault
        (devices (U.state unit.old) (C.state card_a.old) (C.state card_b.old))
        (devices (U.state unit.new) (C.state card_a.new) (C.state card_b.new))) }
    // Whatever fails, so many writes begin at most.
    ensures goes { GoesAnew trace.now.start trace.now.items (length (cuts true (log_of outcome.new)))
        (devices (U.state unit.old) (C.state card_a.old) (C.state card_b.old))
        (devices (U.state unit.new) (C.state card_a.new) (C.state card_b.new)) }
{
    let vehicle = made.vehicle;
    let image = made.image;
    if format_unit(unit, &vehicle).is_err() {
        return Err(AnewFault::Unmade(Device::Unit));
    }
    if card_a.issue(image).is_err() {
        return Err(AnewFault::Unmade(Device::CardA));
    }
    if let Err(fault) = run_trace(trace, unit, card_a, card_b, outcome) {
        return Err(AnewFault::Kept(fault));
    }
    Ok(())
}
