//! Bytes that pass by, part after part, of which those from a place on are held, at most 252.
ghost use Rattle.std.specs.Prelude.{ℕ, List, ◌/◌, ◌≡◌, ◌≤◌, ◌<◌, ◌+◌, ◌*◌, ◌-◌, ◌^◌, ◌↔◌, ◌++◌, [], min, OnOk, IfSome};
ghost use Rattle.std.specs.Prelude.{IsTrue, IsFalse, length, is_err};
ghost use Rattle.card_layout.specs.Images.{bytes_at};
ghost use Rattle.card_layout.specs.Fields.{joined};
ghost use Rattle.unit_model.specs.Image.{words_at};
ghost use Rattle.unit_minutes.specs.Reading.{ReadsIfAny};
ghost use Rattle.link_model.specs.declared.lengths.TheConstants.{WHOLE_MOST};
ghost use Rattle.message_model.specs.Messages.{word_bytes};
ghost use Rattle.unit_messages.specs.Windows.{passed, IsFull, IsWordCount};

use arrayvec::ArrayVec;
use link_model::lengths::WHOLE_MOST;
use std::marker::Model;
use tach_media::{Failed, Medium};

/// How many bytes a window holds at most: as many of a message as go in one frame.
pub const ROOM: usize = WHOLE_MOST as usize;

// How many words are read at once: a window takes no more of them, also where it begins with the second byte of one.
const WORDS: u32 = 127;

// How many bytes these have.
const WORD_BYTES: usize = 2 * WORDS as usize;

/// A window on bytes that pass by.
#[derive(Drop)]
pub struct Window {
    skip: u32,
    held: ArrayVec<u8, ROOM>,
}

impl Model for Window {
    ghost use Rattle.std.specs.Prelude.{◌≤◌, length};
    ghost use Rattle.link_model.specs.declared.lengths.TheConstants.{WHOLE_MOST};
    ghost use Rattle.unit_messages.specs.Windows.{Sight};

    ghost Value = { Sight };

    ghost view = { λ w. record { skip = w.skip; held = w.held.items } };

    ghost invariant = { λ w. length w.held.items ≤ WHOLE_MOST };
}

impl Window {
    /// A window on the bytes from a place on.
    pub fn new(from: u32) -> Window
        ensures { result ≡ record { skip = from; held = [] } }
    {
        Window {
            skip: from,
            held: ArrayVec::new(),
        }
    }

    /// How many bytes are still to be passed over.
    pub fn skip(&self) -> u32
        ensures { result ≡ self.now.skip }
    {
        self.skip
    }

    /// What it holds, as so many bytes: cut off, or with zeros behind, where it holds another number.
    pub fn into_piece(self, len: usize) -> ArrayVec<u8, ROOM>
        requires { len ≤ WHOLE_MOST }
        ensures long { length result.items ≡ len }
        ensures same { length self.held ≡ len → result.items ≡ self.held }
    {
        let mut held = self.held;
        held.truncate(len);
        let zeros = [0u8; ROOM];
        let missing = len - held.len();
        let _ = held.try_extend_from_slice(&zeros[..missing]);
        held
    }

    /// Whether it takes no more.
    pub fn is_full(&self) -> bool
        ensures { IsTrue result ↔ IsFull self.now }
    {
        self.skip == 0 && self.held.len() == ROOM
    }

    /// These bytes pass by.
    pub fn pass(&mut self, bytes: &[u8])
        ensures { self.new ≡ passed self.old bytes.now }
    {
        let over = self.over(bytes.len());
        let taken = self.taken(bytes.len());
        let behind = &bytes[over as usize..];
        self.take(over, &behind[..taken]);
    }

    /// How many bytes of a part it passes over.
    fn over(&self, len: usize) -> u32
        ensures { result ≡ min len self.now.skip }
    {
        len.min(self.skip as usize) as u32
    }

    /// How many bytes it takes of a part, of those that it does not pass over.
    fn taken(&self, len: usize) -> usize
        ensures count { result ≡ min (len - self.now.skip) (WHOLE_MOST - length self.now.held) }
        ensures room { length self.now.held + result ≤ WHOLE_MOST }
    {
        let over = len.min(self.skip as usize);
        (len - over).min(ROOM - self.held.len())
    }

    /// So many bytes pass by where it takes none of them; else nothing happens.
    pub fn passes_over(&mut self, len: u32) -> bool
        ensures over { IsTrue result → (bytes : List ℕ) → length bytes ≡ len → self.new ≡ passed self.old bytes }
        ensures same { IsFalse result → self.new ≡ self.old }
    {
        if len <= self.skip {
            self.pass_over(len);
            return true;
        }
        self.is_full()
    }

    /// Takes what was read of a part: the bytes behind those that it passes over.
    fn take(&mut self, over: u32, bytes: &[u8])
        requires over { over ≤ self.old.skip }
        requires room { length self.old.held + length bytes.now ≤ WHOLE_MOST }
        ensures skip { self.new.skip ≡ self.old.skip - over }
        ensures held { self.new.held ≡ self.old.held ++ bytes.now }
    {
        let _ = self.held.try_extend_from_slice(bytes);
        self.skip -= over;
    }

    /// The bytes of a range of the unit's image pass by; those that it takes are read at once.
    ///
    /// # Errors
    ///
    /// `Failed` where the unit failed.
    pub fn pass_range<M: Medium>(
        &mut self,
        unit: &mut M,
        place: u32,
        len: u32,
    ) -> Result<(), Failed>
        requires inside { place + len ≤ (M.state unit.old).size }
        requires short { place + len < 2 ^ 32 }
        ensures passed { OnOk result (IfSome (M.state unit.old).image
            (λ x. self.new ≡ passed self.old (bytes_at x place len))) }
        ensures reads { ReadsIfAny (M.state unit.old) (M.state unit.new) (is_err result) }
    {
        let over = self.over(len as usize);
        let taken = self.taken(len as usize);
        let mut block = [0u8; ROOM];
        let part = &mut block[..taken];
        read_some(unit, place + over, part)?;
        self.take(over, part);
        Ok(())
    }

    /// How many words of a part it passes over.
    fn words_over(&self, count: u32) -> u32
        ensures { result ≡ min count (self.now.skip / 2) }
    {
        count.min(self.skip / 2)
    }

    /// How many words are read of those to come: none where it is full, else all, but no more than it has room for.
    fn words_taken(&self, count: u32) -> u32
        ensures { IsWordCount self.now count result }
    {
        let full = self.is_full();
        if full {
            return 0;
        }
        count.min(WORDS)
    }

    /// So many bytes are passed over.
    fn pass_over(&mut self, len: u32)
        requires { len ≤ self.old.skip }
        ensures skip { self.new.skip ≡ self.old.skip - len }
        ensures held { self.new.held ≡ self.old.held }
        ensures room { length self.old.held ≤ WHOLE_MOST }
    {
        self.skip -= len;
    }

    /// Words that were read pass by.
    fn pass_words(&mut self, bytes: &[u8])
        ensures passed { self.new ≡ passed self.old bytes.now }
        ensures spelled { (n : ℕ) → length bytes.now ≡ 2 * n
            → joined (word_bytes (words_at bytes.now 0 n)) ≡ bytes.now }
    {
        self.pass(bytes)
    }

    /// Words of two bytes, which stand in the unit's image from a place on, pass by; those that it takes are read at
    /// once.
    ///
    /// # Errors
    ///
    /// `Failed` where the unit failed.
    pub fn pass_words_at<M: Medium>(
        &mut self,
        unit: &mut M,
        place: u32,
        count: u32,
    ) -> Result<(), Failed>
        requires inside { place + 2 * count ≤ (M.state unit.old).size }
        requires short { place + 2 * count < 2 ^ 32 }
        ensures passed { OnOk result (IfSome (M.state unit.old).image
            (λ x. self.new ≡ passed self.old (joined (word_bytes (words_at x place count))))) }
        ensures reads { ReadsIfAny (M.state unit.old) (M.state unit.new) (is_err result) }
    {
        let over = self.words_over(count);
        self.pass_over(2 * over);
        let taken = self.words_taken(count - over);
        let mut block = [0u8; WORD_BYTES];
        let part = &mut block[..2 * taken as usize];
        read_some(unit, place + 2 * over, part)?;
        self.pass_words(part);
        Ok(())
    }
}

/// The bytes from a place on; where none are asked for, no call is made.
fn read_some<M: Medium>(unit: &mut M, place: u32, out: &mut [u8]) -> Result<(), Failed>
    requires { place + length out.old ≤ (M.state unit.old).size }
    ensures bytes { OnOk result (IfSome (M.state unit.old).image (λ x. out.new ≡ bytes_at x place (length out.old))) }
    ensures reads { ReadsIfAny (M.state unit.old) (M.state unit.new) (is_err result) }
{
    let count = out.len();
    if count == 0 {
        return Ok(());
    }
    unit.read_at(place, out)?;
    Ok(())
}
