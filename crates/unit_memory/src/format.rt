//! A new unit is made.
ghost use Rattle.std.specs.Prelude.{◌≡◌, ◌≤◌, ◌<◌, ◌+◌, ◌-◌, ◌*◌, ◌/◌, length, IfOk, OnOk, IfSome, is_err, true};
ghost use Rattle.std.specs.Prelude.{option_map};
ghost use Rattle.unit_model.specs.declared.layout.TheConstants.{IMAGE_SIZE};
ghost use Rattle.tach_media.specs.Medium.{LeavesOnly, HasCause, IsSettled, IsPartlyWritten, SameOutside, last_count};
ghost use Rattle.tach_media.specs.Medium.{put};
ghost use Rattle.unit_model.specs.Image.{IsUnit};
ghost use Rattle.unit_model.specs.NewImage.{zeros, new_image};
ghost use Rattle.unit_memory.specs.Formats.{IsFormatting, format_most, identified};

use tach_media::{Failed, Medium};
use tacho_types::Registration;
use unit_model::layout::{IDENTIFICATION, IMAGE_SIZE, REGISTRATION, SPEED_LIMIT, VERSION, VIN};

/// What a unit is told of its vehicle: the identification number, the registration, and the speed limit in km/h.
#[derive(Clone, Copy, Debug, PartialEq, Eq)]
pub struct Identity {
    /// The vehicle identification number.
    pub vin: [u8; 17],
    /// The nation and the number of the registration.
    pub registration: Registration,
    /// The authorised speed in km/h, 0 to 255.
    pub limit: u8,
}

/// How many zeros one write takes.
const CHUNK: u32 = 4096;

/// The zeros of one write.
fn chunk() -> [u8; 4096]
    ensures { result ≡ zeros 4096 }
{
    [0; 4096]
}

/// Makes a new unit of this identity: zeros where nothing else is known (profile). The version is written last, and is
/// 0 as long as this goes on: a stop leaves the old image, one whose version is 0, or the new one. Five of its writes
/// are small ones, and each chunk of zeros takes 17 at most.
///
/// # Errors
///
/// `Failed` where the medium failed; the unit may then be the old one, the new one, or none.
pub fn format_unit<M: Medium>(unit: &mut M, identity: &Identity) -> Result<(), Failed>
    requires unit { IsUnit (M.state unit.old) }
    ensures formatted { OnOk result ((M.state unit.new).image ≡ option_map
        (λ _. new_image identity.now.vin identity.now.registration.0 identity.now.limit) (M.state unit.old).image) }
    ensures moments { LeavesOnly (M.state unit.old) (M.state unit.new)
        (IsFormatting (new_image identity.now.vin identity.now.registration.0 identity.now.limit)) }
    ensures settled { OnOk result ((M.state unit.new).clock < last_count → IsSettled (M.state unit.new)) }
    ensures cause { HasCause (M.state unit.old) (M.state unit.new) (is_err result) }
    ensures most { (M.state unit.new).clock ≤ (M.state unit.old).clock + format_most }
{
    unit.write_at(VERSION.place, &[0, 0, 0, 0])?;
    identify(unit, identity)?;
    clear(unit, IDENTIFICATION.place, IMAGE_SIZE)?;
    unit.write_at(VERSION.place, &[0, 0, 0, 1])?;
    Ok(())
}

/// Writes the identification number, the registration and the speed limit.
fn identify<M: Medium>(unit: &mut M, identity: &Identity) -> Result<(), Failed>
    requires works { (M.state unit.old).works ≡ true }
    requires unit { IsUnit (M.state unit.old) }
    ensures vin { OnOk result (length identity.now.vin ≡ 17) }
    ensures registration { OnOk result (length identity.now.registration.0 ≡ 15) }
    ensures identified { OnOk result ((M.state unit.new).image ≡ option_map
        (identified identity.now.vin identity.now.registration.0 identity.now.limit) (M.state unit.old).image) }
    ensures moments { LeavesOnly (M.state unit.old) (M.state unit.new) (SameOutside 4 33) }
    ensures cause { HasCause (M.state unit.old) (M.state unit.new) (is_err result) }
    ensures most { (M.state unit.new).clock ≤ (M.state unit.old).clock + 3 }
{
    unit.write_at(VIN.place, &identity.vin)?;
    unit.write_at(REGISTRATION.place, &identity.registration.0)?;
    unit.write_at(SPEED_LIMIT.place, &[identity.limit])?;
    Ok(())
}

/// Writes zeros from one place to another.
fn clear<M: Medium>(unit: &mut M, from: u32, to: u32) -> Result<(), Failed>
    requires works { (M.state unit.old).works ≡ true }
    requires unit { IsUnit (M.state unit.old) }
    requires order { from + 4 < to }
    requires inside { to ≤ IMAGE_SIZE }
    ensures cleared { OnOk result ((M.state unit.new).image
        ≡ option_map (put from (zeros (to - from))) (M.state unit.old).image) }
    ensures moments { LeavesOnly (M.state unit.old) (M.state unit.new) (IsPartlyWritten from (zeros (to - from))) }
    ensures cause { HasCause (M.state unit.old) (M.state unit.new) (is_err result) }
    ensures most { (M.state unit.new).clock ≤ (M.state unit.old).clock + 17 * ((to - from + 4095) / 4096) }
{
    let zeros = chunk();
    let mut at = from;
    while at < to {
        let size = CHUNK.min(to - at);
        unit.write_at(at, &zeros[..size as usize])?;
        at += size;
    }
    Ok(())
}
