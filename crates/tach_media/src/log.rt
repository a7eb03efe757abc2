//! The log of a medium in memory: each write that was begun, and what is left of it.
ghost use Rattle.std.specs.Prelude.{◌≡◌, ◌≤◌, ◌+◌, ◌<◌, ◌^◌, ◌++◌, ◌∷◌, [], length, vec_len, vec_capacity, IfOk};
ghost use Rattle.std.specs.Bool.{OnTrue, OnFalse};
ghost use Rattle.card_layout.specs.Fields.{IsBytes};
ghost use Rattle.tach_media.specs.Medium.{bytes_at};
ghost use Rattle.tach_media.specs.Log.{History, image_left, image_of, bytes_of, add, has_room};

use std::alloc::{AllocError, Global};
use std::marker::Model;

/// What a stop leaves of a write that it cuts short.
#[derive(Clone, Copy, Debug, PartialEq, Eq)]
pub enum Left {
    Before,
    After,
    /// The range is filled with this byte. A write of at most four bytes is as with `Before`.
    Torn(u8),
}

/// A write that was begun. Its bytes stand in a list beside it, after those of the writes before.
#[derive(Clone, Copy, Debug, PartialEq, Eq)]
pub struct Entry {
    pub place: u32,
    pub len: u32,
    pub left: Left,
    /// How often the medium had broken down when it began.
    pub broken: u64,
}

/// An image with all the writes that were begun on it, and room for so many.
#[derive(Drop)]
pub struct Log {
    start: Vec<u8>,
    entries: Vec<Entry>,
    written: Vec<u8>,
    image: Vec<u8>,
    most_writes: u32,
    most_bytes: u32,
}

impl Model for Log {
    ghost use Rattle.tach_media.specs.Log.{History, image_of, bytes_of};
    ghost use Rattle.std.specs.Prelude.{◌≡◌, ◌≤◌, ◌<◌, ◌^◌, length, vec_capacity};

    ghost Value = { History };

    ghost view = { λ l. record {
      start = l.start.items;
      entries = l.entries.items;
      written = l.written.items;
      most_writes = l.most_writes;
      most_bytes = l.most_bytes;
    } };

    ghost invariant = { λ l. record {
      now : l.image.items ≡ image_of
          (record {
            start = l.start.items;
            entries = l.entries.items;
            written = l.written.items;
            most_writes = l.most_writes;
            most_bytes = l.most_bytes;
          });
      whole : bytes_of l.entries.items ≡ length l.written.items;
      short : length l.image.items < 2 ^ 32;
      entries_fit : l.most_writes ≤ vec_capacity l.entries;
      bytes_fit : l.most_bytes ≤ vec_capacity l.written;
    } };
}

impl Log {
    /// No write yet, and room for so many, with so many bytes.
    ///
    /// # Errors
    ///
    /// `AllocError` where memory runs out.
    pub fn new(
        alloc: Global,
        image: Vec<u8>,
        writes: u32,
        log_bytes: u32,
    ) -> Result<Log, AllocError>
        requires { length image.items < 2 ^ 32 }
        ensures { IfOk result (λ log. log
            ≡ record {
              start = image.items;
              entries = [];
              written = [];
              most_writes = writes;
              most_bytes = log_bytes;
            }) }
    {
        Ok(Log {
            start: image.clone()?,
            image,
            entries: Vec::with_capacity(alloc, writes as usize)?,
            written: Vec::with_capacity(alloc, log_bytes as usize)?,
            most_writes: writes,
            most_bytes: log_bytes,
        })
    }

    /// How many bytes the image has.
    pub fn size(&self) -> u32
        ensures { result ≡ length (image_of self.now) }
    {
        self.image.len() as u32
    }

    /// How many writes were begun.
    pub fn len(&self) -> u64
        ensures { result ≡ length self.now.entries }
    {
        self.entries.len() as u64
    }

    /// Reads bytes of the image, from a place on.
    pub fn read(&self, place: u32, out: &mut [u8])
        requires { place + length out.old ≤ length (image_of self.now) }
        ensures { out.new ≡ bytes_at (image_of self.now) place (length out.old) }
    {
        let from = place as usize;
        out.copy_from_slice(&self.image[from..from + out.len()]);
    }

    /// The image is of bytes.
    pub fn holds_bytes(&self)
        ensures { IsBytes (image_of self.now) }
    {
        are_bytes(&self.image);
    }

    /// Whether there is room for a write of so many bytes.
    pub fn has_room(&self, len: usize) -> bool
        requires { len < 2 ^ 32 }
        ensures { result ≡ has_room self.now len }
    {
        self.entries.len() < self.most_writes as usize
            && self.written.len() + len <= self.most_bytes as usize
    }

    /// Begins a write, of which so much is done, on a medium that had broken down so often. Where there is no room for
    /// it, nothing is.
    pub fn write(&mut self, place: u32, bytes: &[u8], left: Left, broken: u64) -> bool
        requires { place + length bytes.now ≤ length (image_of self.old) }
        ensures room { result ≡ has_room self.old (length bytes.now) }
        ensures begun { OnTrue result (self.new ≡ add self.old place left broken bytes.now) }
        ensures full { OnFalse result (self.new ≡ self.old) }
        ensures whole { bytes_of self.old.entries ≡ length self.old.written }
        ensures bytes { IsBytes (image_of self.old) }
    {
        self.holds_bytes();
        if !self.has_room(bytes.len()) {
            return false;
        }
        let len = bytes.len() as u32;
        append(
            &mut self.entries,
            &mut self.written,
            Entry {
                place,
                len,
                left,
                broken,
            },
            bytes,
        );
        apply(&mut self.image, place as usize, bytes, left);
        true
    }
}

/// Adds a write to a log that has room for it.
fn append(log: &mut Vec<Entry>, written: &mut Vec<u8>, entry: Entry, bytes: &[u8])
    requires room { vec_len log.old < vec_capacity log.old }
    requires room_for_bytes { vec_len written.old + length bytes.now ≤ vec_capacity written.old }
    ensures entry { log.new.items ≡ log.old.items ++ entry ∷ [] }
    ensures bytes { written.new.items ≡ written.old.items ++ bytes.now }
    ensures capacity { vec_capacity log.old ≤ vec_capacity log.new }
    ensures byte_capacity { vec_capacity written.old ≤ vec_capacity written.new }
{
    written.extend_from_slice(bytes).unwrap();
    log.push(entry).unwrap();
}

/// Does to an image what is left of a write.
fn apply(image: &mut [u8], place: usize, bytes: &[u8], left: Left)
    requires { place + length bytes.now ≤ length image.old }
    ensures { image.new ≡ image_left left place bytes.now image.old }
{
    match left {
        Left::Before => {}
        Left::After => image[place..place + bytes.len()].copy_from_slice(bytes),
        Left::Torn(fill) => {
            if bytes.len() > 4 {
                image[place..place + bytes.len()].fill(fill);
            }
        }
    }
}

/// Each byte of a slice is below 256. It does nothing: it stands for the proof of its caller, which takes its clause.
pub(crate) fn are_bytes(bytes: &[u8])
    ensures { IsBytes bytes.now }
{
    let _ = bytes;
}
