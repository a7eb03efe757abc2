//! What of a card's download is passed on, and its bytes.
ghost use Rattle.std.specs.Prelude.{◌≡◌, ◌++◌, ◌∷◌, [], if◌then◌else◌, ℕ, List, map, filter, IfOk, OnOk};
ghost use Rattle.card_layout.specs.Fields.{joined};
ghost use Rattle.card_image.specs.CardFile.{entry_bytes};
ghost use Rattle.file_extract.specs.Cards.{are_sizes_late};
ghost use Rattle.file_extract.specs.Reading.{IsEntryAt, StandThere, told, told_at};
ghost use Rattle.file_extract.specs.Passing.{picks_at, passed_at};

use crate::entries::DownloadEntry;
use card_layout::{FILE_HEAD, Fid};
use std::alloc::{AllocError, Global};

/// Which entries of the first generation are picked.
#[derive(Clone, Copy, Debug, PartialEq, Eq)]
pub enum Pick {
    /// All.
    All,
    /// Those of Application_Identification: its value and its signature.
    Sizes,
    /// The others.
    Others,
}

/// The entries that are passed on, in the order in which they come out.
pub fn passed_on(alloc: Global, entries: &[DownloadEntry]) -> Result<Vec<DownloadEntry>, AllocError>
    ensures { IfOk result (λ passed. passed.items ≡ passed_at entries.now) }
{
    let mut passed = Vec::new(alloc);
    if are_sizes_late(entries) {
        add_picked(&mut passed, entries, Pick::Sizes)?;
        add_picked(&mut passed, entries, Pick::Others)?;
    } else {
        add_picked(&mut passed, entries, Pick::All)?;
    }
    Ok(passed)
}

/// Adds those entries that are picked.
fn add_picked(
    passed: &mut Vec<DownloadEntry>,
    entries: &[DownloadEntry],
    pick: Pick,
) -> Result<(), AllocError>
    ensures { OnOk result (passed.new.items ≡ passed.old.items ++ filter (picks_at pick) entries.now) }
{
    for entry in entries {
        add_if_picked(passed, *entry, pick)?;
    }
    Ok(())
}

/// Adds an entry where it is picked.
fn add_if_picked(
    passed: &mut Vec<DownloadEntry>,
    entry: DownloadEntry,
    pick: Pick,
) -> Result<(), AllocError>
    ensures { OnOk result (passed.new.items ≡ passed.old.items
        ++ (if picks_at pick entry then entry ∷ [] else [])) }
{
    if !is_picked(entry, pick) {
        return Ok(());
    }
    passed.push(entry)?;
    Ok(())
}

/// Whether an entry is picked.
fn is_picked(entry: DownloadEntry, pick: Pick) -> bool
    ensures { result ≡ picks_at pick entry }
{
    if entry.kind > 1 {
        return false;
    }
    let is_of_sizes = entry.fid == Fid::APPLICATION.0;
    match pick {
        Pick::All => true,
        Pick::Sizes => is_of_sizes,
        Pick::Others => !is_of_sizes,
    }
}

/// Whether the sizes stand behind the days or the vehicles.
fn are_sizes_late(entries: &[DownloadEntry]) -> bool
    ensures { (bytes : List ℕ) → result ≡ are_sizes_late (told bytes entries.now) }
{
    for entry in entries {
        if entry.kind == 0 && entry.fid == Fid::APPLICATION.0 {
            return false;
        }
        if entry.kind == 0 && (entry.fid == Fid::ACTIVITY.0 || entry.fid == Fid::VEHICLES.0) {
            return true;
        }
    }
    false
}

/// The bytes of entries, one after the other.
pub fn bytes_of(alloc: Global, b: &[u8], entries: &[DownloadEntry]) -> Result<Vec<u8>, AllocError>
    requires { StandThere b.now entries.now }
    ensures { IfOk result (λ out. out.items ≡ joined (map entry_bytes (told b.now entries.now))) }
{
    let mut out = Vec::new(alloc);
    for entry in entries {
        add_bytes(&mut out, b, *entry)?;
    }
    Ok(out)
}

/// Adds the bytes of an entry.
fn add_bytes(out: &mut Vec<u8>, b: &[u8], entry: DownloadEntry) -> Result<(), AllocError>
    requires { IsEntryAt b.now entry }
    ensures { OnOk result (out.new.items ≡ out.old.items ++ entry_bytes (told_at b.now entry)) }
{
    out.extend_from_slice(&b[entry.place..entry.end()])?;
    Ok(())
}
