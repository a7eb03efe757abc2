//! A card is revived, and tells its sizes.
ghost use Rattle.std.specs.Prelude.{◌≡◌, ◌≤◌, IfOk, is_err};
ghost use Rattle.card_layout.specs.Application.{place_of_field};
ghost use Rattle.run_insertion.specs.Entered.{IsMeasured};
ghost use Rattle.device_calls.specs.Calls.{WasRevived};

use card_commands::{PortFault, read_sizes};
use card_layout::{Application, LARGEST_IMAGE};
use tach_media::{Chip, Failed};

/// In place of a bad field's number, of a card that failed before it told its sizes.
pub const UNTOLD: u8 = 0;

// A card is revived, and tells its sizes, or the number of the first bad field of Application_Identification; it is not
// written.
pub(crate) fn wake<C: Chip>(card: &mut C) -> Result<Result<Application, u8>, Failed>
    requires size { LARGEST_IMAGE ≤ (C.state card.old).size }
    ensures measured { IfOk result (λ sizes. IsMeasured sizes (C.card card.new) (C.state card.new)) }
    ensures revived { WasRevived (is_err result) (C.state card.old) (C.state card.new) }
{
    card.revive()?;
    match read_sizes(card) {
        Ok(app) => Ok(Ok(app)),
        Err(PortFault::BadApplication(field)) => Ok(Err(field)),
        Err(PortFault::Failed) => Err(Failed),
    }
}

// Where a field of Application_Identification stands in its file, by its number from 1.
pub(crate) fn place_of_field(field: u8) -> u32
    ensures { result ≡ place_of_field field }
{
    match field {
        0 | 1 => 0,
        2 => 1,
        3 => 3,
        4 => 4,
        5 => 5,
        6 => 7,
        7 => 9,
        _ => 10,
    }
}
