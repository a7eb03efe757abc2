//! The entries by hand that a session holds before its first keep (profile).
ghost use Rattle.std.specs.Prelude.{◌≡◌, ◌≤◌, ◌<◌, ℕ, List, [], ◌∷◌, ◌++◌, length, None, Some};
ghost use Rattle.std.specs.Result.{result_err};
ghost use Rattle.hand_model.specs.Holding.{stopped_by, last_minute, none_held, first_of, begun_by, of_day};

use activity_codec::{DAY_MINUTES, Manual};
use arrayvec::ArrayVec;
use std::marker::Model;

/// The most entries by hand that a session holds.
pub const MOST: usize = 8;

/// Why a session takes no entry by hand.
#[derive(Clone, Copy, Debug, PartialEq, Eq)]
pub enum EnterFault {
    /// It has kept a minute already: the first such.
    Begun(u32),
    /// The minute is not later than the first of these, or not earlier than the second: the newest minute of the card
    /// and of the entries by hand, and the minute of the insertion.
    NotFree(u32, u32),
    /// It holds so many already.
    Full(u8),
}

/// The entries by hand of a session: until its first keep it takes them, in the order of their minutes.
#[derive(Drop)]
pub struct Held {
    /// The minute of the session's insertion.
    inserted: u32,
    /// The first minute that the session has kept.
    begun: Option<u32>,
    entries: ArrayVec<Manual, MOST>,
}

impl Model for Held {
    ghost use Rattle.hand_model.specs.Holding.{Holding};

    ghost Value = { Holding };

    ghost view = { λ s. record { inserted = s.inserted; begun = s.begun; entries = s.entries.items } };
}

impl Held {
    /// Those of a session that was opened in a minute: none.
    pub fn new(inserted: u32) -> Self
        ensures { result ≡ none_held inserted }
    {
        Held {
            inserted,
            begun: None,
            entries: ArrayVec::new(),
        }
    }

    /// Whether an entry by hand of this minute is taken, where the card's newest minute is this.
    ///
    /// # Errors
    ///
    /// 1. `Begun` where the session has kept a minute, with the first such.
    /// 2. `NotFree` where the minute is not later than the newest one of the card and of the entries by hand, or not
    ///    earlier than the insertion, with these two minutes.
    /// 3. `Full` where it holds 8 already.
    pub fn may_enter(&self, newest: u32, minute: u32) -> Result<(), EnterFault>
        ensures answer { result_err result ≡ stopped_by self.now newest minute }
    {
        if let Some(first) = self.begun {
            return Err(EnterFault::Begun(first));
        }
        let latest = self.latest(newest);
        if minute <= latest || minute >= self.inserted {
            return Err(EnterFault::NotFree(latest, self.inserted));
        }
        if self.entries.len() >= MOST {
            return Err(EnterFault::Full(MOST as u8));
        }
        Ok(())
    }

    /// Holds an entry by hand that may be taken.
    pub fn enter(&mut self, entry: &Manual)
        requires room { length self.old.entries < 8 }
        ensures { self.new ≡ record self.old { entries = self.old.entries ++ entry.now ∷ [] } }
    {
        self.entries.push(*entry);
    }

    /// The session has kept a minute: it takes none any more, and holds none.
    pub fn begin(&mut self, minute: u32)
        ensures { self.new ≡ begun_by minute self.old }
    {
        self.begun = first_of(self.begun, minute);
        self.entries.clear();
    }

    /// Those that are held, in their order.
    pub fn entries(&self) -> &[Manual]
        ensures { result.now ≡ self.now.entries }
    {
        self.entries.as_slice()
    }

    /// The later of the card's newest minute and of the last entry by hand.
    fn latest(&self, newest: u32) -> u32
        ensures { result ≡ last_minute newest self.now.entries }
    {
        let entries = self.entries.as_slice();
        let last = entries.get(entries.len().saturating_sub(1)).copied();
        match last {
            None => newest,
            Some(entry) => newest.max(entry.minute),
        }
    }
}

/// The first minute that was kept, behind a keep of a minute.
fn first_of(begun: Option<u32>, minute: u32) -> Option<u32>
    ensures { result ≡ first_of minute begun }
{
    match begun {
        None => Some(minute),
        Some(first) => Some(first),
    }
}

/// Of entries by hand those from the first one of a day on.
pub fn of_day(entries: &[Manual], day: u32) -> &[Manual]
    ensures { result.now ≡ of_day day entries.now }
{
    for index in 0..entries.len() {
        if entries[index].minute / DAY_MINUTES == day {
            return &entries[index..];
        }
    }
    &entries[entries.len()..]
}
