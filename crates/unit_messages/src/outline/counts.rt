//! How many insertions and places lie on each of many dates, counted in one look at their rings.
ghost use Rattle.activity_codec.specs.declared.day.TheConstants.{DAY_SECONDS};
ghost use Rattle.unit_model.specs.declared.layout.TheConstants.{IMAGE_SIZE, INSERTION_SLOTS};
ghost use Rattle.std.specs.Prelude.{◌≡◌, ◌==◌, ◌||◌, true, not, ◌≤◌, ◌<◌, ◌+◌, ◌-◌, ◌*◌, ℕ, List, IfOk, OnOk, IfSome};
ghost use Rattle.std.specs.Prelude.{IfNone, length, is_err, slice_index_or, if◌then◌else◌};
ghost use Rattle.std.specs.List.{range_with_len};
ghost use Rattle.card_layout.specs.Images.{bytes_at, number_at};
ghost use Rattle.unit_model.specs.Decoding.{Decodes};
ghost use Rattle.unit_minutes.specs.Reading.{ReadsIfAny};
ghost use Rattle.tach_media.specs.Medium.{Reads};
ghost use Rattle.unit_messages.specs.declared.entries.TheConstants.{AT_ONCE};
ghost use Rattle.unit_messages.specs.Chosen.{AreEntries, shape_of, is_meant};
ghost use Rattle.unit_messages.specs.Counts.{entries_on, AreCounted, AreFew, AreInRange, CountsEach};

use crate::entries::{
    BLOCK, Entries, INSERTION_TIME, PLACE_TIME, WITHDRAWAL_TIME, at_once, date_of,
};
use crate::outline::rows::{insertions_on, places_on};
use activity_codec::DAY_SECONDS;
use tach_media::{Failed, Medium};

/// How many dates are counted at once: as many as a unit's memory has days.
pub const DATES: usize = 366;

/// Of so many dates, one day after another, how many insertions touch each, and how many places it has.
#[derive(Clone, Copy, Debug, PartialEq, Eq)]
pub struct Counts {
    /// The first second of the first date.
    pub first: u32,
    /// How many insertions touch each date.
    pub insertions: [u16; DATES],
    /// How many places each date has.
    pub places: [u16; DATES],
}

/// What is counted by dates.
#[derive(Clone, Copy, Debug, PartialEq, Eq)]
pub enum Dated {
    /// Insertions, each on the date of the insertion and on that of the withdrawal.
    Insertions,
    /// Places, each on its date.
    Places,
}

impl Dated {
    /// Those of a date.
    fn entries_on(self, date: u32) -> Entries
        ensures is { result ≡ entries_on self date }
        ensures entries { AreEntries result }
    {
        match self {
            Dated::Insertions => insertions_on(date),
            Dated::Places => places_on(date),
        }
    }

    /// The dates on which an entry that is there is meant: two, which may be one.
    fn dates_of(self, entry: &[u8]) -> (u32, u32)
        requires wide { (entries_on self 0).width ≤ length entry.now }
        requires there { not (number_at entry.now (entries_on self 0).gate 4 == 0) ≡ true }
        ensures { (date : ℕ) → is_meant (entries_on self date) entry.now ≡ (date == result.0 || date == result.1) }
    {
        match self {
            Dated::Insertions => (
                date_of(entry, INSERTION_TIME as usize),
                date_of(entry, WITHDRAWAL_TIME),
            ),
            Dated::Places => {
                let date = date_of(entry, PLACE_TIME as usize);
                (date, date)
            }
        }
    }
}

/// Which of the dates from a first one on begins at a second.
pub fn date_index(first: u32, date: u32) -> Option<usize>
    ensures some { IfSome result (λ i. (i < DATES) × (date ≡ first + DAY_SECONDS * i)) }
    ensures none { IfNone result ((i : ℕ) → i < DATES → date ≡ first + DAY_SECONDS * i → ⊥) }
{
    if date < first {
        return None;
    }
    let after = date - first;
    if after % DAY_SECONDS != 0 {
        return None;
    }
    let index = (after / DAY_SECONDS) as usize;
    if index < DATES { Some(index) } else { None }
}

/// The count of the date of this index.
pub fn count_at(counts: &[u16; DATES], index: usize) -> u32
    requires { index < DATES }
    ensures { result ≡ slice_index_or counts.now index 0 }
{
    counts[index] as u32
}

/// One more on a date, where it is one of them.
fn add_on(counts: &mut [u16], first: u32, date: u32)
    requires whole { length counts.old ≡ DATES }
    requires few { AreFew (u16.MAX - 1) counts.old }
    ensures added { (i : ℕ) → i < DATES
        → slice_index_or counts.new i 0
        ≡ slice_index_or counts.old i 0 + (if first + DAY_SECONDS * i == date then 1 else 0) }
    ensures few { (n : ℕ) → AreFew n counts.old → AreFew (n + 1) counts.new }
{
    if let Some(index) = date_index(first, date) {
        counts[index] += 1;
    }
}

/// One entry more, on each date on which it is meant.
fn add_entry(kind: Dated, entry: &[u8], first: u32, counts: &mut [u16])
    requires whole { length counts.old ≡ DATES }
    requires wide { length entry.now ≡ (entries_on kind 0).width }
    requires few { AreFew INSERTION_SLOTS counts.old }
    ensures added { (i : ℕ) → i < DATES
        → slice_index_or counts.new i 0
        ≡ slice_index_or counts.old i 0 + (if is_meant (entries_on kind (first + DAY_SECONDS * i)) entry.now then 1
        else 0) }
    ensures few { (n : ℕ) → AreFew n counts.old → AreFew (n + 1) counts.new }
{
    let entries = kind.entries_on(0);
    let there = entries.is_there(entry);
    if !there {
        return;
    }
    let dates = kind.dates_of(entry);
    add_on(counts, first, dates.0);
    if dates.1 != dates.0 {
        add_on(counts, first, dates.1);
    }
}

/// The entries that were read at once.
fn add_block(kind: Dated, block: &[u8], count: u32, first: u32, counts: &mut [u16])
    requires whole { length counts.old ≡ DATES }
    requires at_once { count ≤ AT_ONCE }
    requires block { length block.now ≡ count * (entries_on kind 0).width }
    requires few { (n : ℕ) × AreFew n counts.old × (n + count ≤ INSERTION_SLOTS) }
    ensures added { (x : List ℕ) (index : ℕ)
        → block.now ≡ bytes_at x ((entries_on kind 0).base + index * (entries_on kind 0).width)
        (count * (entries_on kind 0).width)
        → CountsEach kind first x (range_with_len 0 index) counts.old
        → CountsEach kind first x (range_with_len 0 (index + count)) counts.new }
    ensures few { (n : ℕ) → AreFew n counts.old → AreFew (n + count) counts.new }
{
    let entries = kind.entries_on(0);
    for turn in 0..count {
        let entry = entries.entry_in(block, turn);
        add_entry(kind, entry, first, counts);
    }
}

/// So many entries from an index on, which are read at once.
fn add_some<M: Medium>(
    kind: Dated,
    unit: &mut M,
    index: u32,
    first: u32,
    counts: &mut [u16],
) -> Result<u32, Failed>
    requires unit { (M.state unit.old).size ≡ IMAGE_SIZE }
    requires whole { length counts.old ≡ DATES }
    requires below { index < (entries_on kind 0).count }
    requires few { AreFew index counts.old }
    ensures some { IfOk result (λ n. (0 < n) × (index + n ≤ (entries_on kind 0).count)
        × AreFew (index + n) counts.new) }
    ensures added { IfOk result (λ n. IfSome (M.state unit.old).image (λ x. CountsEach kind first x
        (range_with_len 0 index) counts.old → CountsEach kind first x (range_with_len 0 (index + n)) counts.new)) }
    ensures reads { Reads (M.state unit.old) (M.state unit.new) (is_err result) }
{
    let entries = kind.entries_on(0);
    let mut room = [0u8; BLOCK];
    let count = at_once(entries.count - index);
    let len = entries.bytes_of(count);
    let block = &mut room[..len as usize];
    let place = entries.place_of(index, count);
    unit.read_at(place, block)?;
    add_block(kind, block, count, first, counts);
    Ok(count)
}

/// How many there are on each date.
fn count_each<M: Medium>(kind: Dated, unit: &mut M, first: u32) -> Result<[u16; DATES], Failed>
    requires unit { (M.state unit.old).size ≡ IMAGE_SIZE }
    ensures counted { IfOk result (λ counts.
        IfSome (M.state unit.old).image (λ x. CountsEach kind first x (range_with_len 0 (entries_on kind 0).count)
        counts)) }
    ensures few { IfOk result (AreFew (entries_on kind 0).count) }
    ensures reads { ReadsIfAny (M.state unit.old) (M.state unit.new) (is_err result) }
{
    let mut counts = [0u16; DATES];
    let entries = kind.entries_on(0);
    let all = entries.count;
    let mut index = 0;
    while index < all {
        let count = add_some(kind, unit, index, first, &mut counts)?;
        index += count;
    }
    Ok(counts)
}

/// How many insertions and places there are on each of the dates from a second on, of a unit whose image is known to
/// decode.
///
/// # Errors
///
/// `Failed` where the unit failed.
pub fn count_dates<M: Medium>(unit: &mut M, first: u32) -> Result<Counts, Failed>
    requires unit { (M.state unit.old).size ≡ IMAGE_SIZE }
    requires decodes { IfSome (M.state unit.old).image Decodes }
    ensures first { IfOk result (λ c. c.first ≡ first) }
    ensures counted { IfOk result (λ c. IfSome (M.state unit.old).image (AreCounted c)) }
    ensures range { IfOk result AreInRange }
    ensures reads { ReadsIfAny (M.state unit.old) (M.state unit.new) (is_err result) }
{
    let insertions = count_each(Dated::Insertions, unit, first)?;
    let places = count_each(Dated::Places, unit, first)?;
    Ok(Counts {
        first,
        insertions,
        places,
    })
}
