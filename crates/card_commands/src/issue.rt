//! A card is issued: its image is written anew.
ghost use Rattle.std.specs.Prelude.{◌≡◌, ◌≤◌, ◌<◌, ◌+◌, ◌/◌, length, option_map, OnOk, is_err};
ghost use Rattle.tach_media.specs.Medium.{LiesInside, LeavesOnly, IsSettled, HasCause, Rose, put, last_count};
ghost use Rattle.card_layout.specs.Issue.{IsIssued};

use card_layout::APPLICATION_RANGE;
use tach_media::{Failed, Medium};

/// The place of the card type, the first byte of Application_Identification.
const CARD_TYPE: u32 = APPLICATION_RANGE.base;

/// Writes a new image over the first bytes of a medium. The card type is 0 from the first write to the last, so that
/// what a stop leaves in between is no card.
///
/// # Errors
///
/// `Failed` where a call on the medium failed.
pub fn issue<M: Medium>(medium: &mut M, image: &[u8]) -> Result<(), Failed>
    requires least { 34 ≤ length image.now }
    requires most { length image.now ≤ (M.state medium.old).size }
    requires writable { LiesInside (M.state medium.old).writable 0 (M.state medium.old).size }
    ensures written { OnOk result ((M.state medium.new).image
        ≡ option_map (put 0 image.now) (M.state medium.old).image) }
    ensures moments { LeavesOnly (M.state medium.old) (M.state medium.new) (IsIssued image.now) }
    ensures settled { OnOk result ((M.state medium.new).clock < last_count → IsSettled (M.state medium.new)) }
    ensures clock { OnOk result (Rose (M.state medium.old).clock (M.state medium.new).clock) }
    ensures cause { HasCause (M.state medium.old) (M.state medium.new) (is_err result) }
    ensures few { (M.state medium.new).clock ≤ (M.state medium.old).clock + (4 + length image.now / 255) }
{
    let front = &image[..33];
    let card_type = &image[33..34];
    let back = &image[34..];
    medium.write_at(CARD_TYPE, &[0])?;
    medium.write_at(0, front)?;
    medium.write_at(CARD_TYPE + 1, back)?;
    medium.write_at(CARD_TYPE, card_type)
}
