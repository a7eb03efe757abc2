//! The distances that the days of a card file tell.
ghost use Rattle.std.specs.Prelude.{◌≡◌, ◌<◌, ◌/◌, ◌^◌, List, map, length, IfOk, IfErr};
ghost use Rattle.file_view.specs.Faults.{IfBadFile};
ghost use Rattle.file_view.specs.CardFiles.{IsBadCardFile};
ghost use Rattle.day_reports.specs.Printing.{TellsDistances};
ghost use Rattle.day_reports.specs.Heads.{distance_by};

use activity_codec::DAY_SECONDS;
use card_days::DayHead;
use file_view::{ViewFault, day_heads};
use std::alloc::{AllocError, Global};
use view_model::Distance;

/// The distances that the days of a card file tell, oldest first.
///
/// # Errors
///
/// As those of `file_view::read_card_file`.
pub fn card_distances(alloc: Global, b: &[u8]) -> Result<Vec<Distance>, ViewFault>
    requires { length b.now < 2 ^ 32 }
    ensures distances { IfOk result (λ distances. TellsDistances b.now distances.items) }
    ensures bad { IfErr result (λ fault. IfBadFile fault (λ place. IsBadCardFile place b.now)) }
{
    let heads = day_heads(alloc, b)?;
    let distances = distances_by(alloc, heads.as_slice())?;
    Ok(distances)
}

/// The distances that heads of days tell.
fn distances_by(alloc: Global, heads: &[DayHead]) -> Result<Vec<Distance>, AllocError>
    ensures { IfOk result (λ distances. distances.items ≡ map distance_by heads.now) }
{
    heads.iter().map(|head| distance_by(*head)).collect(alloc)
}

/// The distance that the head of a day tells.
fn distance_by(head: DayHead) -> Distance
    ensures { result ≡ distance_by head }
{
    Distance {
        day: head.date.0 / DAY_SECONDS,
        km: u32::from(head.km.0),
    }
}
