//! The head and the words of a new day.
ghost use Rattle.std.specs.Prelude.{◌≡◌, ◌<◌, length};
ghost use Rattle.unit_model.specs.Changes.{first_state};
ghost use Rattle.unit_minutes.specs.Coming.{IsComing};
ghost use Rattle.unit_minutes.specs.Minute.{head_of, new_head};

use crate::bits::{BARE, SlotBits};
use crate::coming::Coming;
use activity_codec::{DAY_MINUTES, DAY_SECONDS};
use unit_model::layout::{DAY_COUNT, DAY_DATE, DAY_ODOMETER, DAY_SPARE, WORD_MINUTES, WORD_SLOT};

/// The states at 00:00 of a new day, whose first kept minute has this number in it.
pub fn first_bits(minute: u32, bits: SlotBits) -> SlotBits
    requires driver { bits.driver < 16 }
    requires codriver { bits.codriver < 16 }
    ensures driver { result.driver ≡ first_state minute bits.driver }
    ensures codriver { result.codriver ≡ first_state minute bits.codriver }
    ensures driver_short { result.driver < 16 }
    ensures codriver_short { result.codriver < 16 }
{
    if minute == 0 { bits } else { BARE }
}

/// Writes the beginning of a new day's slot: its date, the odometer, the count of two words, six spare bytes, and these
/// words.
fn write_head(date: u32, odometer: u32, first: SlotBits, out: &mut [u8])
    requires size { length out.old ≡ 20 }
    requires driver { first.driver < 16 }
    requires codriver { first.codriver < 16 }
    ensures { out.new ≡ head_of date odometer first }
{
    let (place, out) = out.split_at_mut(DAY_DATE.size as usize);
    place.copy_from_slice(&date.to_be_bytes());
    let (place, out) = out.split_at_mut(DAY_ODOMETER.size as usize);
    place.copy_from_slice(&odometer.to_be_bytes());
    let (place, out) = out.split_at_mut(DAY_COUNT.size as usize);
    place.copy_from_slice(&2_u16.to_be_bytes());
    let (spare, words) = out.split_at_mut(DAY_SPARE.size as usize);
    spare.copy_from_slice(&[0; 6]);
    let (driver, codriver) = words.split_at_mut(2);
    driver.copy_from_slice(&((WORD_MINUTES * first.driver) as u16).to_be_bytes());
    codriver.copy_from_slice(&((WORD_SLOT + WORD_MINUTES * first.codriver) as u16).to_be_bytes());
}

/// The beginning of the slot of a minute's day.
pub fn new_head(coming: Coming) -> [u8; 20]
    requires { IsComing coming }
    ensures { result ≡ new_head coming }
{
    let first = first_bits(coming.minute % DAY_MINUTES, coming.bits);
    let mut head = [0; 20];
    write_head(
        DAY_SECONDS * (coming.minute / DAY_MINUTES),
        coming.odometer,
        first,
        &mut head,
    );
    head
}
