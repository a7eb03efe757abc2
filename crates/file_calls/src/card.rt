//! How many entries a card file has, one of them, and its vehicle entries.
ghost use Rattle.std.specs.Prelude.{◌≡◌, ◌+◌, ◌-◌, ◌<◌, ◌^◌, ℕ, List, length, map, min, slice_index_or, IfOk, IfErr};
ghost use Rattle.activity_codec.specs.declared.entries.Entry.{Entry as CardEntry};
ghost use Rattle.card_retention.specs.Retains.{Rise};
ghost use Rattle.file_view.specs.CardFiles.{IsBadCardFile};
ghost use Rattle.file_view.specs.Faults.{IfBadFile};
ghost use Rattle.file_view.specs.Histories.{entry_told, minutes_on};
ghost use Rattle.file_view.specs.Vehicles.{ShowsCard};

use activity_codec::Entry;
use card_files::Vehicle;
use file_view::{CardHistory, ViewFault, read_card};
use std::alloc::Global;
use view_model::{CardShown, Line};

/// Questions to the entries that a card file shows.
pub trait CardEntries {
    // the entries, in their order
    ghost entries: { Self → List CardEntry };

    /// How many there are. Of entries that rise, as those of each file do, that is exact; of others at most what 32
    /// bits count.
    fn count(&self) -> u32
        ensures count { result ≡ min (length (entries self.now)) u32.MAX }
        ensures all { Rise (entries self.now) → result ≡ length (entries self.now) };

    /// The entry with a number, from 0.
    fn entry(&self, nth: u32) -> Entry
        requires { nth < length (entries self.now) }
        ensures { (d : CardEntry) → slice_index_or (entries self.now) nth d ≡ result };
}

impl CardEntries for CardHistory {
    ghost entries = { λ h. h };

    fn count(&self) -> u32 {
        count_on(self.lines())
    }

    fn entry(&self, nth: u32) -> Entry {
        entry_on(self.lines(), nth)
    }
}

/// The vehicle entries of a card file that are there, oldest first.
///
/// # Errors
///
/// As those of `read_card_file`: `BadFile` with the place where it is no card file, and `Memory`.
pub fn vehicles(alloc: Global, b: &[u8]) -> Result<Vec<Vehicle>, ViewFault>
    requires { length b.now < 2 ^ 32 }
    ensures told { IfOk result (λ vehicles. (entries : List CardEntry) × ShowsCard b.now entries vehicles.items) }
    ensures bad { IfErr result (λ fault. IfBadFile fault (λ place. IsBadCardFile place b.now)) }
{
    Ok(read_card(alloc, b)?.vehicles)
}

/// How many minutes lines have, as far as 32 bits count.
fn count_on(lines: &[Line<CardShown>]) -> u32
    ensures { result ≡ min (length (minutes_on lines.now)) u32.MAX }
{
    let mut count: u64 = 0;
    for line in lines {
        count = count.saturating_add(minutes_of(*line));
    }
    count.min(u32::MAX as u64) as u32
}

/// How many minutes a line has.
fn minutes_of(line: Line<CardShown>) -> u64
    ensures { result ≡ line.last + 1 - line.first }
{
    (line.last as u64 + 1).saturating_sub(line.first as u64)
}

/// The entry of the minute with a number, from 0.
fn entry_on(lines: &[Line<CardShown>], nth: u32) -> Entry
    requires { nth < length (minutes_on lines.now) }
    ensures { (d : CardEntry) → slice_index_or (map entry_told (minutes_on lines.now)) nth d ≡ result }
{
    let mut left = nth as u64;
    for line in lines {
        let count = minutes_of(*line);
        if left < count {
            return entry_in(*line, left as u32);
        }
        left -= count;
    }
    unreachable!()
}

/// The entry of a minute of a line, by its number in that.
fn entry_in(line: Line<CardShown>, nth: u32) -> Entry
    requires { nth < line.last + 1 - line.first }
    ensures { result ≡ entry_told (record { minute = line.first + nth; shown = line.shown }) }
{
    Entry {
        minute: line.first + nth,
        slot: line.shown.slot,
        crew: line.shown.crew,
        act: line.shown.act,
    }
}
