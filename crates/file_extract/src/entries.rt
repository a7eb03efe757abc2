//! The entries of a card's download, of both generations.
ghost use Rattle.std.specs.Prelude.{◌≡◌, ℕ, ◌+◌, ◌≤◌, ◌<◌, ◌++◌, ◌∷◌, ◌^◌, [], List, map, length, drop};
ghost use Rattle.std.specs.Prelude.{IfOk, IfSome, IfNone, OnOk};
ghost use Rattle.std.specs.List.{list_any};
ghost use Rattle.card_image.specs.CardFile.{FileEntry};
ghost use Rattle.file_extract.specs.Cards.{comes_again, is_single, HasNoDownloadEntry};
ghost use Rattle.file_extract.specs.Reading.{IsEntryAt, IsRead, told, told_at, is_value_at, end_of};

use byteorder::{BigEndian, ByteOrder};
use card_layout::{FILE_HEAD, Fid};
use std::alloc::{AllocError, Global};

/// The largest kind of an entry: a signature of the second generation.
const LAST_KIND: u8 = 3;

/// An entry of a card's download, and where it stands.
#[derive(Clone, Copy, Debug, PartialEq, Eq)]
pub struct DownloadEntry {
    /// The file's identifier.
    pub fid: u16,
    /// 0 for a value and 1 for a signature of the first generation, 2 and 3 for those of the second.
    pub kind: u8,
    /// Where it begins.
    pub place: usize,
    /// How many bytes its value has.
    pub len: usize,
}

impl DownloadEntry {
    /// Where it ends.
    pub fn end(&self) -> usize
        requires { end_of self.now < 2 ^ 64 }
        ensures { result ≡ end_of self.now }
    {
        self.place + FILE_HEAD + self.len
    }
}

/// The entries at the front of a card's download, and where they end.
#[derive(Drop)]
pub struct Download {
    pub entries: Vec<DownloadEntry>,
    pub end: usize,
}

/// The entries of one card at the front of the bytes, as long as they are whole.
///
/// # Errors
///
/// `AllocError` where memory runs out.
pub fn entries_in(alloc: Global, b: &[u8]) -> Result<Download, AllocError>
    ensures { IfOk result (λ read. IsRead b.now read) }
{
    let mut entries = Vec::new(alloc);
    let mut place = 0;
    while place < b.len() {
        let Some(entry) = entry_at(b, place) else {
            return Ok(Download {
                entries,
                end: place,
            });
        };
        if comes_again(entries.as_slice(), entry) {
            return Ok(Download {
                entries,
                end: place,
            });
        }
        add_entry(&mut entries, entry)?;
        place = entry.end();
    }
    Ok(Download {
        entries,
        end: place,
    })
}

/// The entry that stands there; `None` exactly where none of a download does.
fn entry_at(b: &[u8], place: usize) -> Option<DownloadEntry>
    requires inside { place ≤ length b.now }
    ensures some { IfSome result (λ at. (at.place ≡ place) × IsEntryAt b.now at) }
    ensures none { IfNone result (HasNoDownloadEntry (drop place b.now)) }
{
    let rest = &b[place..];
    if rest.len() < FILE_HEAD {
        return None;
    }
    let fid = BigEndian::read_u16(&rest[..2]);
    let kind = rest[2];
    let len = BigEndian::read_u16(&rest[3..FILE_HEAD]) as usize;
    if kind > LAST_KIND {
        return None;
    }
    let left = rest.len() - FILE_HEAD;
    if left < len {
        return None;
    }
    Some(DownloadEntry {
        fid,
        kind,
        place,
        len,
    })
}

/// Whether an entry is the value of a file that a card's file has once, and was there already.
fn comes_again(before: &[DownloadEntry], entry: DownloadEntry) -> bool
    ensures { (bytes : List ℕ) → result ≡ comes_again (told bytes before.now) (told_at bytes entry) }
{
    is_single(entry) && has_value(before, entry.fid)
}

/// Whether an entry is the value of a file that a card's file has once.
fn is_single(entry: DownloadEntry) -> bool
    ensures { (bytes : List ℕ) → result ≡ is_single (told_at bytes entry) }
{
    let fid = Fid(entry.fid);
    entry.kind == 0 && (fid == Fid::APPLICATION || fid == Fid::ACTIVITY || fid == Fid::VEHICLES)
}

/// Whether the value of a file is among some entries.
fn has_value(entries: &[DownloadEntry], fid: u16) -> bool
    ensures { result ≡ list_any (is_value_at fid) entries.now }
{
    for entry in entries {
        if entry.kind == 0 && entry.fid == fid {
            return true;
        }
    }
    false
}

/// Adds an entry.
fn add_entry(entries: &mut Vec<DownloadEntry>, entry: DownloadEntry) -> Result<(), AllocError>
    ensures { OnOk result (entries.new.items ≡ entries.old.items ++ entry ∷ []) }
{
    entries.push(entry)?;
    Ok(())
}
