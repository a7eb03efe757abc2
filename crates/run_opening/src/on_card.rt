//! A card at an opening.
ghost use Rattle.std.specs.Prelude.{◌≡◌, ◌≤◌, Some, None, Ok, IfOk, OnOk, IfErr, IfSome, is_err};
ghost use Rattle.card_layout.specs.Application.{application_in};
ghost use Rattle.tach_media.specs.Medium.{Reads};
ghost use Rattle.card_commands.specs.Ports.{IsPort, IsJudged, application_file};
ghost use Rattle.run_opening.specs.Opening.{IsAsItWas};
ghost use Rattle.run_opening.specs.Cards.{IsFoundOn, AreTwo, IsOneNumber, IsMediumFault};
ghost use Rattle.device_calls.specs.Calls.{WasRevived};

use crate::fault::RunFault;
use card_commands::{PortFault, read_sizes};
use card_layout::{Application, LARGEST_IMAGE};
use card_validity::InsertFault;
use device_calls::look_by;
use run_crew::Known;
use run_model::Device;
use tach_media::{Chip, Failed};

// A card that is not valid, of which this is known.
fn without_number(sizes: Result<Application, u8>) -> Known
    ensures { result ≡ record { sizes = sizes; number = None; row = 0; accepted = None } }
{
    Known {
        sizes,
        number: None,
        row: 0,
        accepted: None,
    }
}

// What is known of a card that has told these sizes: its number too, where it is valid.
fn known_by<C: Chip>(card: &mut C, app: Application) -> Result<Known, Failed>
    requires port { IsPort app (Some application_file) (C.card card.old) (C.state card.old) }
    requires told { IfSome (C.state card.old).image (λ x. IsJudged (application_in x) (Ok app)) }
    ensures found { IfOk result (λ known. IsFoundOn known (C.card card.new) (C.state card.new)) }
    ensures reads { Reads (C.state card.old) (C.state card.new) (is_err result) }
{
    match look_by(card, app) {
        Ok(look) => Ok(Known {
            sizes: Ok(app),
            number: Some(look.number),
            row: 0,
            accepted: None,
        }),
        Err(InsertFault::Failed) => Err(Failed),
        Err(InsertFault::NotValid { .. }) => Ok(without_number(Ok(app))),
        Err(InsertFault::TimeOverlap { .. }) => Ok(without_number(Ok(app))),
    }
}

// Revives a card, and reads its sizes, and its number where it is valid; it writes nothing.
fn open_card<C: Chip>(card: &mut C) -> Result<Known, Failed>
    requires size { LARGEST_IMAGE ≤ (C.state card.old).size }
    ensures found { IfOk result (λ known. IsFoundOn known (C.card card.new) (C.state card.new)) }
    ensures revived { WasRevived (is_err result) (C.state card.old) (C.state card.new) }
{
    card.revive()?;
    match read_sizes(card) {
        Ok(app) => known_by(card, app),
        Err(PortFault::Failed) => Err(Failed),
        Err(PortFault::BadApplication(field)) => Ok(without_number(Err(field))),
    }
}

/// Revives a card and judges it; it writes nothing. A card that is not valid is found so at its insertion.
///
/// # Errors
///
/// `MediumFault` of the device where the card failed.
pub fn judge_card<C: Chip>(card: &mut C, device: Device) -> Result<Known, RunFault>
    requires size { LARGEST_IMAGE ≤ (C.state card.old).size }
    ensures found { IfOk result (λ known. IsFoundOn known (C.card card.new) (C.state card.new)) }
    ensures refused { IfErr result (IsMediumFault device) }
    ensures same { IsAsItWas (C.state card.old) (C.state card.new) }
    ensures revived { WasRevived (is_err result) (C.state card.old) (C.state card.new) }
{
    match open_card(card) {
        Ok(known) => Ok(known),
        Err(Failed) => Err(RunFault::MediumFault(device)),
    }
}

/// That the cards do not both have one number.
///
/// # Errors
///
/// `SameCard` exactly where both have one, with that number.
pub(crate) fn judge_numbers(a: &Known, b: &Known) -> Result<(), RunFault>
    ensures two { OnOk result (AreTwo a.now.number b.now.number) }
    ensures one { IfErr result (IsOneNumber a.now.number b.now.number) }
{
    match (a.number, b.number) {
        (Some(number), Some(other)) if number == other => Err(RunFault::SameCard(number)),
        _ => Ok(()),
    }
}
