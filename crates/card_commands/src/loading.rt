//! The sizes of a card's files, read by its commands.
ghost use Rattle.std.specs.Prelude.{◌≡◌, ◌≤◌, Some, IfOk, IfSome, IsErrOf};
ghost use Rattle.card_layout.specs.Application.{application_in};
ghost use Rattle.tach_media.specs.Medium.{Reads};
ghost use Rattle.card_commands.specs.Ports.{IsPort, IsJudged, has_failed, application_file};

use crate::sending::{enter, read, select};
use card_files::{BadApplication, read_application};
use card_layout::{APPLICATION_RANGE, Application, Directory, ElementaryFile, Fid, LARGEST_IMAGE};
use tach_media::{Chip, Failed};

/// Why a card cannot be reached through a port.
#[derive(Clone, Copy, Debug, PartialEq, Eq)]
pub enum PortFault {
    /// A call on the chip failed.
    Failed,
    /// The number, from 1, of the first field of Application_Identification that is out of its range.
    BadApplication(u8),
}

impl From<Failed> for PortFault {
    ghost use Rattle.card_commands.specs.declared.loading.PortFault.{PortFault};

    ghost from_gives = { λ _ fault. fault ≡ PortFault.Failed };

    fn from(_fault: Failed) -> PortFault {
        PortFault::Failed
    }
}

impl From<BadApplication> for PortFault {
    ghost use Rattle.card_commands.specs.declared.loading.PortFault.{PortFault};

    ghost from_gives = { λ bad fault. fault ≡ PortFault.BadApplication bad.0 };

    fn from(bad: BadApplication) -> PortFault {
        PortFault::BadApplication(bad.0)
    }
}

/// Application_Identification as a file.
pub const APPLICATION: ElementaryFile = ElementaryFile {
    fid: Fid::APPLICATION,
    range: APPLICATION_RANGE,
    updated: false,
};

/// Reads the sizes of a card's files. The chip has Application_Identification selected then.
///
/// # Errors
///
/// 1. `Failed` where a call on the chip failed.
/// 2. `BadApplication` exactly where a field of Application_Identification is out of its range, with the number of the
///    first such field.
pub fn read_sizes<C: Chip>(chip: &mut C) -> Result<Application, PortFault>
    requires { LARGEST_IMAGE ≤ (C.state chip.old).size }
    ensures loaded { IfOk result (λ app. IsPort app (Some application_file) (C.card chip.new) (C.state chip.new)) }
    ensures judged { IfSome (C.state chip.old).image (λ x. IsJudged (application_in x) result) }
    ensures reads { Reads (C.state chip.old) (C.state chip.new) (has_failed result) }
{
    enter(chip, Directory::Tachograph)?;
    select(chip, APPLICATION)?;
    let mut bytes = [0; 10];
    read(chip, APPLICATION, 0, &mut bytes)?;
    Ok(read_application(&bytes)?)
}
