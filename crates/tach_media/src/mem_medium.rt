//! A medium in memory, which tells what each stop may leave of it.
ghost use Rattle.std.specs.Prelude.{◌≡◌, ◌<◌, ◌≤◌, ◌^◌, ◌+◌, length, min, true, [], IfOk, IfSome};
ghost use Rattle.std.specs.Prelude.{IsOk, OnOk, option_map, find, is_err, ◌==◌};
ghost use Rattle.tach_media.specs.Medium.{IsNew, bytes_at, put, last_count, LeavesOnly, Reads, IsSettled, HasCause};
ghost use Rattle.tach_media.specs.Medium.{IsPartlyWritten, Rose, Unchanged, most_writes, revivable};
ghost use Rattle.tach_media.specs.MemMedium.{memory_state, coherent, read_fails, MemWrote};
ghost use Rattle.tach_media.specs.MemMedium.{counts_after};

use crate::{Counts, Failed, Left, Log, Medium, Memory, Stop};
use std::alloc::Global;
use std::marker::Model;

/// A medium in memory, which keeps each write that was begun. No call on it fails but at a stop, after one up to the
/// next `revive`, or a write for which its log has no room.
#[derive(Drop)]
pub struct MemMedium {
    log: Log,
    stops: Vec<Stop>,
    calls: u64,
    counts: Counts,
}

impl Model for MemMedium {
    ghost use Rattle.tach_media.specs.MemMedium.{MemView, AreCounted};

    ghost Value = { MemView };

    ghost view = { λ m. record { log = m.log; stops = m.stops.items; calls = m.calls; counts = m.counts } };

    ghost invariant = { λ m. AreCounted m.log m.counts };
}

impl MemMedium {
    /// A medium with this image, and room for a log of so many writes with so many bytes.
    ///
    /// # Errors
    ///
    /// `Memory` where memory runs out.
    pub fn new(
        alloc: Global,
        image: Vec<u8>,
        writes: u32,
        log_bytes: u32,
        stops: Vec<Stop>,
    ) -> Result<MemMedium, Memory>
        requires { length image.items < 2 ^ 32 }
        ensures new { IfOk result (λ medium. IsNew image.items (memory_state medium.log medium.counts)) }
        ensures log { IfOk result (λ medium. medium.log
            ≡ record {
              start = image.items;
              entries = [];
              written = [];
              most_writes = writes;
              most_bytes = log_bytes;
            }) }
        ensures stops { IfOk result (λ medium. (medium.stops ≡ stops.items) × (medium.calls ≡ 0)) }
    {
        Ok(MemMedium {
            log: Log::new(alloc, image, writes, log_bytes)?,
            stops,
            calls: 0,
            counts: Counts::new(),
        })
    }

    /// How many reads and writes there were.
    pub fn calls(&self) -> u64
        ensures { result ≡ self.now.calls }
    {
        self.calls
    }
}

impl Medium for MemMedium {
    ghost state = { λ m. memory_state m.log m.counts };

    ghost coherent = { λ m. coherent m.log m.counts };

    fn size(&self) -> u32 {
        self.log.size()
    }

    fn clock(&self) -> u64 {
        self.log.len()
    }

    fn read_at(&mut self, place: u32, out: &mut [u8]) -> Result<(), Failed>
        requires { place + length out.old ≤ (memory_state self.old.log self.old.counts).size }
        ensures bytes { OnOk result (IfSome (memory_state self.old.log self.old.counts).image
            (λ x. out.new ≡ bytes_at x place (length out.old))) }
        ensures reads { Reads (memory_state self.old.log self.old.counts) (memory_state self.new.log self.new.counts)
            (is_err result) }

        // It fails at a stop and on a broken medium alone.
        ensures fails { is_err result ≡ read_fails self.old }
        ensures log { self.new.log ≡ self.old.log }
        ensures counts { self.new.counts ≡ counts_after self.old.counts (is_err result) }
        ensures calls { (self.new.calls ≡ min (self.old.calls + 1) last_count) × (self.new.stops ≡ self.old.stops) }
    {
        let stop = stop_at(&self.stops, self.calls);
        self.calls = self.calls.saturating_add(1);
        if !self.counts.works || stop.is_some() {
            self.counts.fail();
            return Err(Failed);
        }
        self.log.read(place, out);
        Ok(())
    }

    fn write_at(&mut self, place: u32, bytes: &[u8]) -> Result<(), Failed>
        requires inside { place + length bytes.now ≤ (memory_state self.old.log self.old.counts).size }
        ensures written { OnOk result ((memory_state self.new.log self.new.counts).image ≡ option_map
            (put place bytes.now) (memory_state self.old.log self.old.counts).image) }
        ensures moments { LeavesOnly (memory_state self.old.log self.old.counts)
            (memory_state self.new.log self.new.counts) (IsPartlyWritten place bytes.now) }
        ensures settled { OnOk result (0 < length bytes.now → (memory_state self.new.log self.new.counts).clock
            < last_count → IsSettled (memory_state self.new.log self.new.counts)) }
        ensures clock { OnOk result (0 < length bytes.now
            → Rose (memory_state self.old.log self.old.counts).clock
            (memory_state self.new.log self.new.counts).clock) }
        ensures few { (memory_state self.new.log self.new.counts).clock
            ≤ (memory_state self.old.log self.old.counts).clock + most_writes (length bytes.now) }
        ensures cause { HasCause (memory_state self.old.log self.old.counts) (memory_state self.new.log self.new.counts)
            (is_err result) }

        // It fails at a stop, on a broken medium, and where the log has no room.
        ensures wrote { MemWrote self.old self.new place bytes.now (is_err result) }
    {
        let stop = stop_at(&self.stops, self.calls);
        self.calls = self.calls.saturating_add(1);
        if !self.counts.works {
            self.counts.fail();
            return Err(Failed);
        }
        let broken = self.counts.breakdowns;
        let left = stop.unwrap_or(Left::After);
        let begun = self.log.write(place, bytes, left, broken);
        if stop.is_some() || !begun {
            self.counts.fail();
            return Err(Failed);
        }
        Ok(())
    }

    fn revive(&mut self) -> Result<(), Failed>
        ensures moments { LeavesOnly (memory_state self.old.log self.old.counts)
            (memory_state self.new.log self.new.counts) Unchanged }
        ensures clock { (memory_state self.new.log self.new.counts).clock
            ≡ (memory_state self.old.log self.old.counts).clock }
        ensures cause { HasCause (revivable (memory_state self.old.log self.old.counts))
            (memory_state self.new.log self.new.counts) (is_err result) }

        // It never fails, and leaves all but that the medium works.
        ensures ok { IsOk result }
        ensures same { self.new ≡ record self.old { counts = record self.old.counts { works = true } } }
    {
        self.counts.works = true;
        Ok(())
    }

    fn holds_bytes(&self) {
        self.log.holds_bytes();
    }
}

/// What is to be left of the call with this number, where it is to fail.
fn stop_at(stops: &[Stop], call: u64) -> Option<Left>
    ensures { result ≡ option_map (λ s. s.left) (find (λ s. s.call == call) stops.now) }
{
    stops
        .iter()
        .find(|stop| stop.call == call)
        .map(|stop| stop.left)
}
