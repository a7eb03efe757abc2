//! The part of a card's download that is of the first generation.
ghost use Rattle.std.specs.Prelude.{◌≡◌, ◌≤◌, List, length, IfOk};
ghost use Rattle.file_extract.specs.Reading.{IsRead, StandThere};
ghost use Rattle.file_extract.specs.Passing.{passed_at};
ghost use Rattle.file_extract.specs.Part.{IsPassedOn};

use crate::entries::{DownloadEntry, entries_in};
use crate::passing::{bytes_of, passed_on};
use std::alloc::{AllocError, Global};

/// What is passed on of a card's download, and what is left out.
#[derive(Drop)]
pub struct CardPart {
    /// Where the entries stand that are passed on, in the order in which they come out.
    pub passed: Vec<DownloadEntry>,
    /// Their bytes, one after the other.
    pub bytes: Vec<u8>,
    /// How many entries of the second generation are left out.
    pub second: usize,
    /// Where the card's entries end. What stands behind them is left out.
    pub end: usize,
}

/// The entries of the first generation at the front of a card's download, as long as they are whole, up to where
/// another card's file begins. Those of the second generation are left out. The sizes come first where they stand
/// behind the days or the vehicles.
///
/// # Errors
///
/// `AllocError` where memory runs out.
pub fn first_part(alloc: Global, b: &[u8]) -> Result<CardPart, AllocError>
    ensures part { IfOk result (λ part. IsPassedOn b.now part) }
    ensures short { IfOk result (λ part. length part.bytes.items ≤ length b.now) }
{
    let read = entries_in(alloc, b)?;
    let passed = passed_on(alloc, read.entries.as_slice())?;
    let bytes = bytes_of(alloc, b, passed.as_slice())?;
    let second = read.entries.len() - passed.len();
    Ok(CardPart {
        passed,
        bytes,
        second,
        end: read.end,
    })
}
