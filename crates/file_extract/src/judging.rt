//! A card's download, judged by what is passed on of it.
ghost use Rattle.std.specs.Prelude.{◌≡◌, ℕ, ◌<◌, ◌^◌, length, IfOk, IfErr};
ghost use Rattle.file_view.specs.Faults.{IfBadFile};
ghost use Rattle.file_extract.specs.Part.{IsPassedOn};
ghost use Rattle.file_extract.specs.Judged.{IsWhole, IsNone, place_for, fault_for};

use crate::card::{CardPart, first_part};
use crate::entries::DownloadEntry;
use card_layout::FILE_HEAD;
use file_view::{ViewFault, day_heads};
use std::alloc::Global;

/// What is passed on of a card's download, where that is a card file.
///
/// # Errors
///
/// 1. `BadFile` where what is of the first generation is no card file, with the place of the entry that is first
///    outside its grammar, or the length of the bytes where a needed entry is missing.
/// 2. `Memory`.
pub fn extract_card(alloc: Global, b: &[u8]) -> Result<CardPart, ViewFault>
    requires { length b.now < 2 ^ 32 }
    ensures part { IfOk result (λ part. IsPassedOn b.now part) }
    ensures file { IfOk result (λ part. IsWhole part.bytes.items) }
    ensures bad { IfErr result (λ fault. IfBadFile fault (λ place. IsNone place b.now)) }
{
    let part = first_part(alloc, b)?;
    match day_heads(alloc, part.bytes.as_slice()) {
        Ok(_) => Ok(part),
        Err(fault) => Err(fault_for(part.passed.as_slice(), b.len(), fault)),
    }
}

/// The fault that is told of a download, by the fault of what is passed on of it.
fn fault_for(passed: &[DownloadEntry], end: usize, fault: ViewFault) -> ViewFault
    requires { (at : ℕ) → place_for passed.now at end < 2 ^ 32 }
    ensures { result ≡ fault_for passed.now end fault }
{
    match fault {
        ViewFault::BadFile(at) => ViewFault::BadFile(place_for(passed, at as usize, end) as u32),
        ViewFault::Memory => ViewFault::Memory,
    }
}

/// Where the entry stands in the download that stands at this place of what is passed on; where none does, its end.
fn place_for(passed: &[DownloadEntry], at: usize, end: usize) -> usize
    ensures { result ≡ place_for passed.now at end }
{
    let mut left = at;
    for entry in passed {
        if left == 0 {
            return entry.place;
        }
        left = left.saturating_sub(FILE_HEAD).saturating_sub(entry.len);
    }
    end
}
