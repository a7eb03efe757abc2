//! A number in a medium.
ghost use Rattle.std.specs.Prelude.{◌≡◌, ◌≤◌, ◌+◌, IfOk, IfSome, is_err};
ghost use Rattle.card_layout.specs.Images.{number_at};
ghost use Rattle.tach_media.specs.Medium.{Reads};

use crate::{Failed, Medium};

/// The number in `len` bytes of a medium from `place` on, at most four, the highest first.
///
/// # Errors
///
/// `Failed` where a call on the medium failed.
pub fn read_number<M: Medium>(medium: &mut M, place: u32, len: u32) -> Result<u32, Failed>
    requires short { len ≤ 4 }
    requires inside { place + len ≤ (M.state medium.old).size }
    ensures value { IfOk result (λ n. IfSome (M.state medium.old).image (λ x. n ≡ number_at x place len)) }
    ensures reads { Reads (M.state medium.old) (M.state medium.new) (is_err result) }
{
    let mut bytes = [0; 4];
    let from = 4 - len as usize;
    medium.read_at(place, &mut bytes[from..])?;
    Ok(u32::from_be_bytes(bytes))
}
