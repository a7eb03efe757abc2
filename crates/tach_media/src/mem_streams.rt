//! Sources and sinks in memory.
ghost use Rattle.std.specs.Prelude.{◌≡◌, ◌↔◌, ◌⊎◌, ◌+◌, ◌-◌, ◌<◌, ◌≤◌, drop, take, min, length, vec_capacity, Contains};
ghost use Rattle.std.specs.Prelude.{IfOk, IsErr};
ghost use Rattle.std.specs.declared.option.Option.TheVariants.{Some as Told};
ghost use Rattle.std.specs.Io.{ReadsAtMost, WritesAtMost};
ghost use Rattle.std.specs.Io.KnownBytes.{ReadConsumes};
ghost use Rattle.tach_media.specs.Medium.{last_count};
ghost use Rattle.tach_media.specs.Streams.{CountsFaults, Takes};

use crate::{Failed, Sink, Source};
use std::marker::Model;

/// A source of these bytes. The calls whose numbers are in `fails`, from 0, fail, and no others.
#[derive(Drop)]
pub struct MemSource {
    bytes: Vec<u8>,
    at: usize,
    fails: Vec<u64>,
    calls: u64,
    faults: u64,
}

impl Model for MemSource {
    ghost use Rattle.std.specs.Prelude.{drop};
    ghost use Rattle.tach_media.specs.MemStreams.{SourceView};

    ghost Value = { SourceView };

    ghost view = { λ s. record {
      left = drop s.at s.bytes.items;
      fails = s.fails.items;
      calls = s.calls;
      faults = s.faults;
    } };
}

impl MemSource {
    /// A source of these bytes, of which the calls of these numbers fail, counted from 0.
    pub fn new(bytes: Vec<u8>, fails: Vec<u64>) -> MemSource
        ensures { result ≡ record { left = bytes.items; fails = fails.items; calls = 0; faults = 0 } }
    {
        MemSource {
            bytes,
            at: 0,
            fails,
            calls: 0,
            faults: 0,
        }
    }
}

/// Copies as many bytes as there are, or as there is room for.
fn copy_front(from: &[u8], to: &mut [u8]) -> usize
    ensures count { result ≡ min (length from.now) (length to.old) }
    ensures copied { take result to.new ≡ take result from.now }
{
    let count = from.len().min(to.len());
    to[..count].copy_from_slice(&from[..count]);
    count
}

impl Source for MemSource {
    ghost left = { λ s. Told s.left };

    ghost faults = { λ s. s.faults };

    fn read(&mut self, buf: &mut [u8]) -> Result<usize, Failed>
        ensures bound { ReadsAtMost result buf.new }
        ensures bytes { ReadConsumes (Told self.old.left) (Told self.new.left) result buf.new }
        ensures cause { CountsFaults self.old.faults self.new.faults result }

        // Only the listed calls fail, and each of them does; any other gives all that is left, or fills `buf`.
        ensures fails { IsErr result ↔ Contains self.old.fails self.old.calls }
        ensures count { IfOk result (λ n. n ≡ min (length self.old.left) (length buf.old)) }
        ensures calls { self.new.calls ≡ min (self.old.calls + 1) last_count }
        ensures listed { self.new.fails ≡ self.old.fails }
    {
        let call = self.calls;
        self.calls = call.saturating_add(1);
        if self.fails.contains(&call) {
            self.faults = self.faults.saturating_add(1);
            return Err(Failed);
        }
        if self.at >= self.bytes.len() {
            return Ok(0);
        }
        let count = copy_front(&self.bytes.as_slice()[self.at..], buf);
        self.at += count;
        Ok(count)
    }
}

/// A sink that fills the spare capacity of `room`. The calls whose numbers are in `fails`, from 0, fail, and no others
/// but a write of some bytes when there is no room left.
#[derive(Drop)]
pub struct MemSink {
    bytes: Vec<u8>,
    room: usize,
    fails: Vec<u64>,
    calls: u64,
    faults: u64,
}

impl Model for MemSink {
    ghost use Rattle.std.specs.Prelude.{◌≤◌, length, vec_capacity};
    ghost use Rattle.tach_media.specs.MemStreams.{SinkView};

    ghost Value = { SinkView };

    ghost view = { λ s. record {
      held = s.bytes.items;
      room = s.room;
      fails = s.fails.items;
      calls = s.calls;
      faults = s.faults;
    } };

    ghost invariant = { λ s. (length s.bytes.items ≤ s.room) × (s.room ≤ vec_capacity s.bytes) };
}

impl MemSink {
    /// A sink behind these bytes, which takes as many as there is room for. The calls of these numbers fail, counted
    /// from 0.
    pub fn new(room: Vec<u8>, fails: Vec<u64>) -> MemSink
        ensures { result ≡ record {
          held = room.items;
          room = vec_capacity room;
          fails = fails.items;
          calls = 0;
          faults = 0;
        } }
    {
        MemSink {
            room: room.capacity(),
            bytes: room,
            fails,
            calls: 0,
            faults: 0,
        }
    }

    /// What it holds.
    pub fn held(&self) -> &[u8]
        ensures { result.now ≡ self.now.held }
    {
        self.bytes.as_slice()
    }
}

impl Sink for MemSink {
    ghost held = { λ s. Told s.held };

    ghost faults = { λ s. s.faults };

    fn write(&mut self, piece: &[u8]) -> Result<usize, Failed>
        ensures bound { WritesAtMost result piece.now }
        ensures bytes { Takes (Told self.old.held) (Told self.new.held) result piece.now }
        ensures cause { CountsFaults self.old.faults self.new.faults result }

        // Only the listed calls fail, each of them does, and so does a write of some bytes where no room is left; any
        // other takes all, or fills the room.
        ensures fails { IsErr result ↔ (Contains self.old.fails self.old.calls
            ⊎ ((0 < length piece.now) × (length self.old.held ≡ self.old.room))) }
        ensures count { IfOk result (λ n. n ≡ min (length piece.now) (self.old.room - length self.old.held)) }
        ensures calls { self.new.calls ≡ min (self.old.calls + 1) last_count }
        ensures listed { (self.new.fails ≡ self.old.fails) × (self.new.room ≡ self.old.room) }
    {
        let call = self.calls;
        self.calls = call.saturating_add(1);
        let count = piece.len().min(self.room - self.bytes.len());
        if self.fails.contains(&call) || (count == 0 && !piece.is_empty()) {
            self.faults = self.faults.saturating_add(1);
            return Err(Failed);
        }
        self.bytes.extend_from_slice(&piece[..count]).unwrap();
        Ok(count)
    }
}
