//! The entries of the unit's memory that a message has, read in blocks in the order of their ring.
ghost use Rattle.unit_model.specs.declared.layout.TheConstants.{IMAGE_SIZE};
ghost use Rattle.std.specs.Prelude.{◌≡◌, ◌==◌, ◌≤◌, ◌<◌, ◌+◌, ◌*◌, ◌-◌, not, ℕ, List, IfOk, OnOk, IfSome, length};
ghost use Rattle.std.specs.Prelude.{is_err};
ghost use Rattle.std.specs.List.{range_with_len};
ghost use Rattle.card_layout.specs.Images.{bytes_at, number_at};
ghost use Rattle.card_layout.specs.Fields.{joined};
ghost use Rattle.tach_media.specs.Medium.{Reads};
ghost use Rattle.gated_ring.specs.Ring.{order};
ghost use Rattle.unit_minutes.specs.Reading.{ReadsIfAny};
ghost use Rattle.message_model.specs.Sending.{is_in_day};
ghost use Rattle.unit_messages.specs.Windows.{passed};
ghost use Rattle.unit_messages.specs.Chosen.{chosen, room_of, chosen_at, shape_of, is_meant, meant, AreEntries};

use crate::parts::{cut, four_in};
use crate::window::Window;
use activity_codec::DAY_SECONDS;
use tach_media::{Failed, Medium};

/// Which entries of a ring are meant.
#[derive(Clone, Copy, Debug, PartialEq, Eq)]
pub enum Choice {
    /// Each entry.
    Each,
    /// The insertions of which the insertion or the withdrawal lies in the day that begins at this second.
    Touching(u32),
    /// The places of the day that begins at this second.
    PlaceOn(u32),
}

/// Entries of one width in the unit's image, one after the other.
#[derive(Clone, Copy, Debug, PartialEq, Eq)]
pub struct Entries {
    /// The place in the image of the first one.
    pub base: u32,
    /// How many bytes each has.
    pub width: u32,
    /// For how many there is room.
    pub count: u32,
    /// The place of the gate in an entry: four bytes that are not 0 where the entry is there.
    pub gate: u32,
    /// Which of those that are there are meant.
    pub choice: Choice,
}

/// Where an insertion has its time.
pub(crate) const INSERTION_TIME: u32 = 94;

/// Where an insertion has the time of its withdrawal.
pub(crate) const WITHDRAWAL_TIME: usize = 102;

/// Where a place has its time, behind the card's number.
pub(crate) const PLACE_TIME: u32 = 18;

// How many entries are read at once.
pub(crate) const AT_ONCE: u32 = 31;

// The room for them, where they are of the widest, as an insertion is.
pub(crate) const BLOCK: usize = 3999;

/// Whether a second lies in the day that begins at another.
fn is_in_day(date: u32, second: u32) -> bool
    ensures { result ≡ is_in_day date second }
{
    second / DAY_SECONDS * DAY_SECONDS == date
}

/// The first second of the day in which a time of an entry lies.
pub(crate) fn date_of(entry: &[u8], place: usize) -> u32
    requires { place + 4 ≤ length entry.now }
    ensures { (date : ℕ) → is_in_day date (number_at entry.now place 4) ≡ (date == result) }
{
    four_in(entry, place) / DAY_SECONDS * DAY_SECONDS
}

/// How many of the entries that are left are read at once.
pub(crate) fn at_once(left: u32) -> u32
    requires { 0 < left }
    ensures some { 0 < result }
    ensures few { result ≤ AT_ONCE }
    ensures within { result ≤ left }
{
    left.min(AT_ONCE)
}

impl Choice {
    /// Whether an entry is meant.
    fn takes(&self, entry: &[u8]) -> bool
        requires { room_of self.now ≤ length entry.now }
        ensures { result ≡ chosen self.now entry.now }
    {
        match self {
            Choice::Each => true,
            Choice::Touching(date) => {
                is_in_day(*date, four_in(entry, INSERTION_TIME as usize))
                    || is_in_day(*date, four_in(entry, WITHDRAWAL_TIME))
            }
            Choice::PlaceOn(date) => is_in_day(*date, four_in(entry, PLACE_TIME as usize)),
        }
    }
}

impl Entries {
    /// Where the entry at an index begins, of so many that are read at once.
    pub(crate) fn place_of(&self, index: u32, count: u32) -> u32
        requires entries { AreEntries self.now }
        requires inside { index + count ≤ self.now.count }
        ensures place { result ≡ self.now.base + index * self.now.width }
        ensures inside { result + count * self.now.width ≤ IMAGE_SIZE }
    {
        self.base + index * self.width
    }

    /// How many bytes so many entries have.
    pub(crate) fn bytes_of(&self, count: u32) -> u32
        requires entries { AreEntries self.now }
        requires few { count ≤ AT_ONCE }
        ensures bytes { result ≡ count * self.now.width }
        ensures few { result ≤ BLOCK }
    {
        count * self.width
    }

    /// Whether an entry is there.
    pub(crate) fn is_there(&self, entry: &[u8]) -> bool
        requires entries { AreEntries self.now }
        requires whole { length entry.now ≡ self.now.width }
        ensures { result ≡ not (number_at entry.now self.now.gate 4 == 0) }
    {
        four_in(entry, self.gate as usize) != 0
    }

    /// Whether an entry is there and meant.
    fn takes(&self, entry: &[u8]) -> bool
        requires entries { AreEntries self.now }
        requires whole { length entry.now ≡ self.now.width }
        ensures { result ≡ is_meant self.now entry.now }
    {
        let gate = four_in(entry, self.gate as usize);
        if gate == 0 {
            return false;
        }
        self.choice.takes(entry)
    }

    /// An entry that was read passes by, where it is there and meant.
    fn pass_read(&self, entry: &[u8], window: &mut Window)
        requires entries { AreEntries self.now }
        requires whole { length entry.now ≡ self.now.width }
        ensures { window.new ≡ passed window.old (joined (meant self.now entry.now)) }
    {
        let takes = self.takes(entry);
        if !takes {
            return;
        }
        window.pass(entry);
    }

    /// An entry of some that were read at once.
    pub(crate) fn entry_in<'a>(&self, block: &'a [u8], turn: u32) -> &'a [u8]
        requires entries { AreEntries self.now }
        requires few { turn < AT_ONCE }
        requires inside { turn * self.now.width + self.now.width ≤ length block.now }
        ensures bytes { result.now ≡ bytes_at block.now (turn * self.now.width) self.now.width }
        ensures whole { length result.now ≡ self.now.width }
    {
        let place = self.bytes_of(turn);
        cut(block, place as usize, self.width as usize)
    }

    /// Entries that were read at once pass by, those that are there and meant.
    fn pass_block(&self, block: &[u8], count: u32, window: &mut Window)
        requires entries { AreEntries self.now }
        requires few { count ≤ AT_ONCE }
        requires whole { length block.now ≡ count * self.now.width }
        ensures { (x : List ℕ) (index : ℕ)
            → block.now ≡ bytes_at x (self.now.base + index * self.now.width) (count * self.now.width)
            → window.new ≡ passed window.old (joined
            (chosen_at (shape_of self.now) self.now.choice x (range_with_len index count))) }
    {
        for turn in 0..count {
            let entry = self.entry_in(block, turn);
            self.pass_read(entry, window);
        }
    }

    /// So many entries from an index on are read at once, and pass by.
    fn pass_some<M: Medium>(
        &self,
        unit: &mut M,
        index: u32,
        count: u32,
        window: &mut Window,
    ) -> Result<(), Failed>
        requires unit { (M.state unit.old).size ≡ IMAGE_SIZE }
        requires entries { AreEntries self.now }
        requires few { count ≤ AT_ONCE }
        requires inside { index + count ≤ self.now.count }
        ensures passed { OnOk result (IfSome (M.state unit.old).image
            (λ x. window.new ≡ passed window.old
            (joined (chosen_at (shape_of self.now) self.now.choice x (range_with_len index count))))) }
        ensures reads { Reads (M.state unit.old) (M.state unit.new) (is_err result) }
    {
        let mut room = [0u8; BLOCK];
        let len = self.bytes_of(count);
        let block = &mut room[..len as usize];
        let place = self.place_of(index, count);
        unit.read_at(place, block)?;
        self.pass_block(block, count, window);
        Ok(())
    }

    /// The entries from one index to another pass by.
    fn pass_from<M: Medium>(
        &self,
        unit: &mut M,
        from: u32,
        to: u32,
        window: &mut Window,
    ) -> Result<(), Failed>
        requires unit { (M.state unit.old).size ≡ IMAGE_SIZE }
        requires entries { AreEntries self.now }
        requires order { from ≤ to }
        requires below { to ≤ self.now.count }
        ensures passed { OnOk result (IfSome (M.state unit.old).image
            (λ x. window.new ≡ passed window.old
            (joined (chosen_at (shape_of self.now) self.now.choice x (range_with_len from (to - from)))))) }
        ensures reads { ReadsIfAny (M.state unit.old) (M.state unit.new) (is_err result) }
    {
        let mut index = from;
        while index < to {
            let full = window.is_full();
            if full {
                return Ok(());
            }
            let count = at_once(to - index);
            self.pass_some(unit, index, count, window)?;
            index += count;
        }
        Ok(())
    }

    /// The entries that are there and meant pass by, from the one at an index on and round the end. None is read where
    /// the window is full.
    ///
    /// # Errors
    ///
    /// `Failed` where the unit failed.
    pub fn pass<M: Medium>(
        &self,
        unit: &mut M,
        turn: u32,
        window: &mut Window,
    ) -> Result<(), Failed>
        requires unit { (M.state unit.old).size ≡ IMAGE_SIZE }
        requires entries { AreEntries self.now }
        requires turn { turn ≤ self.now.count }
        ensures passed { OnOk result (IfSome (M.state unit.old).image
            (λ x. window.new ≡ passed window.old
            (joined (chosen_at (shape_of self.now) self.now.choice x (order (shape_of self.now) turn))))) }
        ensures reads { ReadsIfAny (M.state unit.old) (M.state unit.new) (is_err result) }
    {
        self.pass_from(unit, turn, self.count, window)?;
        self.pass_from(unit, 0, turn, window)?;
        Ok(())
    }

    /// So many entries are passed over: as many as lie before the window's begin.
    fn pass_ahead(&self, window: &mut Window) -> u32
        requires { AreEntries self.now }
        ensures few { result ≤ self.now.count }
        ensures passed { (bytes : List ℕ) → length bytes ≡ result * self.now.width
            → window.new ≡ passed window.old bytes }
    {
        let ahead = (window.skip() / self.width).min(self.count);
        let len = self.room_of(ahead);
        let over = window.passes_over(len);
        if over {
            return ahead;
        }
        0
    }

    /// How many bytes so many of all entries have.
    fn room_of(&self, count: u32) -> u32
        requires entries { AreEntries self.now }
        requires few { count ≤ self.now.count }
        ensures { result ≡ count * self.now.width }
    {
        count * self.width
    }

    /// The entries from the one at an index on and round the end pass by, of which each is there and meant: those
    /// before the window's begin are not read.
    fn pass_each<M: Medium>(
        &self,
        unit: &mut M,
        turn: u32,
        window: &mut Window,
    ) -> Result<(), Failed>
        requires unit { (M.state unit.old).size ≡ IMAGE_SIZE }
        requires entries { AreEntries self.now }
        requires turn { turn ≤ self.now.count }
        ensures passed { OnOk result (IfSome (M.state unit.old).image
            (λ x. length (chosen_at (shape_of self.now) self.now.choice x (order (shape_of self.now) turn))
            ≡ self.now.count
            → window.new ≡ passed window.old (joined
            (chosen_at (shape_of self.now) self.now.choice x (order (shape_of self.now) turn))))) }
        ensures reads { ReadsIfAny (M.state unit.old) (M.state unit.new) (is_err result) }
    {
        let ahead = self.pass_ahead(window);
        let left = self.count - turn;
        if left < ahead {
            self.pass_from(unit, ahead - left, turn, window)?;
            return Ok(());
        }
        self.pass_from(unit, turn + ahead, self.count, window)?;
        self.pass_from(unit, 0, turn, window)?;
        Ok(())
    }

    /// `pass`, where so many of the entries are there and meant. Where that is each of them, those before the window's
    /// begin are not read.
    ///
    /// # Errors
    ///
    /// `Failed` where the unit failed.
    pub fn pass_some_of<M: Medium>(
        &self,
        unit: &mut M,
        turn: u32,
        count: u32,
        window: &mut Window,
    ) -> Result<(), Failed>
        requires unit { (M.state unit.old).size ≡ IMAGE_SIZE }
        requires entries { AreEntries self.now }
        requires turn { turn ≤ self.now.count }
        ensures passed { OnOk result (IfSome (M.state unit.old).image
            (λ x. count ≡ length (chosen_at (shape_of self.now) self.now.choice x (order (shape_of self.now) turn))
            → window.new ≡ passed window.old (joined
            (chosen_at (shape_of self.now) self.now.choice x (order (shape_of self.now) turn))))) }
        ensures reads { ReadsIfAny (M.state unit.old) (M.state unit.new) (is_err result) }
    {
        let all = self.count;
        if count == all {
            self.pass_each(unit, turn, window)?;
            return Ok(());
        }
        self.pass(unit, turn, window)?;
        Ok(())
    }

    /// How many entries are there and meant.
    ///
    /// # Errors
    ///
    /// `Failed` where the unit failed.
    pub fn count<M: Medium>(&self, unit: &mut M) -> Result<u32, Failed>
        requires unit { (M.state unit.old).size ≡ IMAGE_SIZE }
        requires entries { AreEntries self.now }
        requires wide { 0 < self.now.width }
        ensures count { IfOk result (λ count.
            IfSome (M.state unit.old).image (λ x. count ≡ length
            (chosen_at (shape_of self.now) self.now.choice x (range_with_len 0 self.now.count)))) }
        ensures few { IfOk result (λ count. count ≤ self.now.count) }
        ensures reads { ReadsIfAny (M.state unit.old) (M.state unit.new) (is_err result) }
    {
        let mut window = Window::new(u32::MAX);
        self.pass_from(unit, 0, self.count, &mut window)?;
        let passed = (u32::MAX - window.skip()) / self.width;
        Ok(passed.min(self.count))
    }
}
