//! What a unit and a card that are read again tell of a day.
ghost use Rattle.std.specs.Prelude.{◌≤◌, ◌+◌};
ghost use Rattle.card_layout.specs.declared.files.TheConstants.{LARGEST_IMAGE};
ghost use Rattle.unit_model.specs.Image.{IsUnit};
ghost use Rattle.unit_model.specs.declared.layout.TheConstants.{IMAGE_SIZE};

use crate::fault::Untold;
use card_commands::Port;
use card_layout::LARGEST_IMAGE;
use std::alloc::Global;
use tach_media::{Chip, Failed, Medium};
use tacho_types::TimeReal;
use unit_minutes::Journal;
use unit_model::layout::IMAGE_SIZE;

/// Where the days of the largest card begin: two pointers, and then, where there is one day alone, its head and its
/// words.
pub const DAYS: u32 = 2923;

const HEAD: usize = 12;

/// Where its vehicles begin: the newest one's number, and then the entries, with the time of the last use in each.
pub const VEHICLES: u32 = 16703;

const VEHICLE: u32 = 31;

const LAST_USE: u32 = 10;

/// The words of a day, and up to which minute they count.
#[derive(Drop)]
pub struct Told {
    pub words: Vec<u16>,
    pub last: u32,
}

/// Bytes of a card's image.
pub fn bytes<const N: usize, M: Medium>(medium: &mut M, place: u32) -> Result<[u8; N], Untold>
    requires { place + N ≤ LARGEST_IMAGE }
{
    let mut out = [0; N];
    if medium.size() < LARGEST_IMAGE {
        return Err(Untold::Size);
    }
    medium.read_at(place, &mut out)?;
    Ok(out)
}

/// What a unit that works again holds: the last-kept minute, the odometer, and the words of the day of a second.
#[derive(Drop)]
pub struct Held {
    pub kept: u32,
    pub odometer: u32,
    pub words: Vec<u16>,
}

/// Revives a unit, and reads what it holds of the day of a second.
pub fn held_by_unit<U: Medium>(alloc: Global, unit: &mut U, second: u32) -> Result<Held, Untold> {
    if unit.size() != IMAGE_SIZE {
        return Err(Untold::Size);
    }
    unit.revive()?;
    if unit.size() != IMAGE_SIZE {
        return Err(Untold::Size);
    }
    let Ok(journal) = Journal::load(unit) else {
        return Err(Untold::Image);
    };
    let words = words_on(alloc, &journal, unit, second)?;
    Ok(Held {
        kept: journal.last_kept(),
        odometer: journal.odometer().0,
        words,
    })
}

/// The words of the day of a second.
fn words_on<U: Medium>(
    alloc: Global,
    journal: &Journal,
    unit: &mut U,
    second: u32,
) -> Result<Vec<u16>, Untold> {
    let mut words = Vec::new(alloc);
    if unit.size() != IMAGE_SIZE {
        return Err(Untold::Size);
    }
    if let Some(day) = journal.find(unit, TimeReal(second / 86400 * 86400))? {
        for index in 0..day.words {
            if unit.size() != IMAGE_SIZE {
                return Err(Untold::Size);
            }
            words.push(journal.word(unit, &day, index)?)?;
        }
    }
    Ok(words)
}

/// Whether it tells this last-kept minute, and these words of the day of a second.
pub fn unit_tells<U: Medium>(
    alloc: Global,
    unit: &mut U,
    second: u32,
    kept: u32,
    words: &[u16],
) -> Result<bool, Untold> {
    let held = held_by_unit(alloc, unit, second)?;
    Ok(held.kept == kept && held.words.as_slice() == words)
}

/// So many bytes of a unit.
pub fn unit_bytes<U: Medium, const N: usize>(unit: &mut U, place: u32) -> Result<[u8; N], Failed>
    requires unit { IsUnit (U.state unit.old) }
    requires inside { place + N ≤ IMAGE_SIZE }
    ensures { IsUnit (U.state unit.new) }
{
    let mut out = [0; N];
    unit.read_at(place, &mut out)?;
    Ok(out)
}

/// What it tells of that day.
pub fn told_by_unit<U: Medium>(alloc: Global, unit: &mut U, second: u32) -> Result<Told, Untold> {
    let held = held_by_unit(alloc, unit, second)?;
    Ok(Told {
        words: held.words,
        last: held.kept,
    })
}

/// The words of a card's first day, which has so many bytes.
fn card_words<M: Medium>(alloc: Global, card: &mut M, length: u16) -> Result<Vec<u16>, Untold> {
    let mut words = Vec::new(alloc);
    let first = DAYS + 4 + HEAD as u32;
    for index in 0..(length as u32).saturating_sub(HEAD as u32) / 2 {
        let place = first + 2 * index;
        if place > LARGEST_IMAGE - 2 {
            return Err(Untold::Size);
        }
        words.push(u16::from_be_bytes(bytes(card, place)?))?;
    }
    Ok(words)
}

/// The words of the one day of a card.
fn day_of_card<M: Medium>(alloc: Global, card: &mut M) -> Result<Vec<u16>, Untold> {
    let pointers: [u8; 4] = bytes(card, DAYS)?;
    if pointers != [0; 4] {
        return Err(Untold::Days);
    }
    let head: [u8; HEAD] = bytes(card, DAYS + 4)?;
    card_words(alloc, card, u16::from_be_bytes([head[2], head[3]]))
}

/// The minute of the last use in its newest vehicle entry.
fn last_of_card<M: Medium>(card: &mut M) -> Result<u32, Untold> {
    let newest: [u8; 2] = bytes(card, VEHICLES)?;
    let entry = u16::from_be_bytes(newest) as u32;
    let place = VEHICLES + 2 + VEHICLE * entry + LAST_USE;
    if place > LARGEST_IMAGE - 4 {
        return Err(Untold::Size);
    }
    let used: [u8; 4] = bytes(card, place)?;
    Ok(u32::from_be_bytes(used) / 60)
}

/// What a card of the largest sizes tells that has one day alone.
pub fn told_by_card<C: Chip>(alloc: Global, card: &mut C) -> Result<Told, Untold> {
    card.revive()?;
    if card.size() < LARGEST_IMAGE {
        return Err(Untold::Size);
    }
    let Ok(mut port) = Port::load(&mut *card) else {
        return Err(Untold::Image);
    };
    let last = last_of_card(&mut port)?;
    let words = day_of_card(alloc, &mut port)?;
    Ok(Told { words, last })
}

/// Whether its words are these.
pub fn card_tells<C: Chip>(alloc: Global, card: &mut C, words: &[u16]) -> Result<bool, Untold> {
    let told = told_by_card(alloc, card)?;
    Ok(told.words.as_slice() == words)
}

/// The first place of a session that was not closed, on a card of the largest sizes.
pub const UNCLOSED: u32 = 619;

/// The type and the begin of what stands there.
pub fn unclosed_on<C: Chip>(card: &mut C) -> Result<[u8; 5], Untold> {
    card.revive()?;
    if card.size() < LARGEST_IMAGE {
        return Err(Untold::Size);
    }
    let Ok(mut port) = Port::load(&mut *card) else {
        return Err(Untold::Image);
    };
    bytes(&mut port, UNCLOSED)
}

/// The word that tells of a minute of the day: the latest one that is not after it, of one slot or of any.
fn word_at(words: &[u16], slot: Option<u16>, minute: u16) -> Option<u16> {
    words.iter().rev().copied().find(|word| {
        let same = match slot {
            Some(slot) => *word / 32768 == slot,
            None => true,
        };
        same && *word % 2048 <= minute
    })
}

/// A state as a card has it, by its slot, whether the minute is CREW, and the activity; none where the card was not in.
pub type State = Option<(u16, bool, u16)>;

impl Told {
    /// What it tells of a minute of its day, by the bits of a word; nothing behind the last minute.
    fn at(&self, day: u32, slot: Option<u16>, minute: u16) -> Option<u16> {
        if day.saturating_add(minute as u32) > self.last {
            return None;
        }
        word_at(self.words.as_slice(), slot, minute)
    }

    /// The entry of a card in a minute of the day that begins with this one.
    pub fn entry(&self, day: u32, minute: u16) -> State {
        match self.at(day, None, minute) {
            Some(word) if word / 8192 % 2 == 0 => {
                Some((word / 32768, word / 16384 % 2 == 1, word / 2048 % 4))
            }
            Some(_) | None => None,
        }
    }

    /// Whether a unit tells that a card was in a slot.
    fn has(&self, day: u32, slot: u16, minute: u16) -> bool {
        match self.at(day, Some(slot), minute) {
            Some(word) => word / 8192 % 2 == 0,
            None => false,
        }
    }

    /// What a unit tells that the card of a slot has of a minute.
    pub fn of_slot(&self, day: u32, slot: u16, minute: u16) -> State {
        match self.at(day, Some(slot), minute) {
            Some(word) if word / 8192 % 2 == 0 => Some((
                slot,
                self.has(day, 0, minute) && self.has(day, 1, minute),
                word / 2048 % 4,
            )),
            Some(_) | None => None,
        }
    }
}
