//! What a card tells of itself.
ghost use Rattle.std.specs.Prelude.{◌≡◌, ◌≤◌, Ok, Some, IfSome};
ghost use Rattle.card_layout.specs.Application.{application_in};
ghost use Rattle.tach_media.specs.Medium.{Reads};
ghost use Rattle.card_commands.specs.Ports.{IsPort, IsJudged, application_file};
ghost use Rattle.device_state.specs.Cards.{TellsCard, has_failed};

use card_commands::{PortFault, read_sizes};
use card_layout::{Application, Fid, LARGEST_IMAGE};
use card_validity::{CardLook, InsertFault};
use device_calls::look_by;
use tach_media::Chip;

/// Why a card tells nothing of itself.
#[derive(Clone, Copy, Debug, PartialEq, Eq)]
pub enum CardFault {
    /// A call on the card failed.
    Failed,
    /// The number, from 1, of the first field of Application_Identification that is out of its range.
    BadField(u8),
    /// The card is not valid: the file that first fails in the order of judging, with the place in it.
    BadFile { fid: Fid, place: u32 },
}

/// Reads what a card tells of itself; it writes nothing, and takes no memory.
///
/// # Errors
///
/// `Failed` where the card failed, `BadField` where a field of Application_Identification is out of its range, and
/// `BadFile` where the card is not valid.
pub fn card_state<C: Chip>(card: &mut C) -> Result<CardLook, CardFault>
    requires { LARGEST_IMAGE ≤ (C.state card.old).size }
    ensures told { IfSome (C.state card.old).image (TellsCard result) }
    ensures reads { Reads (C.state card.old) (C.state card.new) (has_failed result) }
{
    match read_sizes(card) {
        Ok(app) => look_with(card, app),
        Err(PortFault::Failed) => Err(CardFault::Failed),
        Err(PortFault::BadApplication(field)) => Err(CardFault::BadField(field)),
    }
}

/// Reads what a card tells that has told these sizes.
fn look_with<C: Chip>(card: &mut C, app: Application) -> Result<CardLook, CardFault>
    requires port { IsPort app (Some application_file) (C.card card.old) (C.state card.old) }
    requires told { IfSome (C.state card.old).image (λ x. IsJudged (application_in x) (Ok app)) }
    ensures told { IfSome (C.state card.old).image (TellsCard result) }
    ensures reads { Reads (C.state card.old) (C.state card.new) (has_failed result) }
{
    match look_by(card, app) {
        Ok(look) => Ok(look),
        Err(InsertFault::Failed) => Err(CardFault::Failed),
        Err(InsertFault::NotValid { fid, place }) => Err(CardFault::BadFile { fid, place }),
        Err(InsertFault::TimeOverlap { .. }) => unreachable!(),
    }
}
