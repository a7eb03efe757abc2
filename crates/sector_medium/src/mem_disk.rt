//! A disk in memory, for tests: a stop leaves of a write whatever its sectors do not keep whole.
ghost use Rattle.std.specs.Prelude.{◌≡◌, ◌<◌, ◌≤◌, ◌+◌, ◌^◌, true, length, IfOk};
ghost use Rattle.sector_medium.specs.Disk.{IsTorn};
ghost use Rattle.sector_medium.specs.Recovered.{HasRoom};
ghost use Rattle.sector_medium.specs.Redo.{record_place};
ghost use Rattle.tach_media.specs.Medium.{IsUntouched};

use crate::Disk;
use crate::record::{RECORD_SIZE, place_behind};
use arrayvec::ArrayVec;
use std::alloc::{AllocError, Global};
use tach_media::{Counts, Failed};

/// How many groups of several writes a disk in memory tells of.
pub const MOST_GROUPS: usize = 64;

/// A stop within a write of a disk in memory.
#[derive(Clone, Copy, Debug, PartialEq, Eq)]
pub struct Cut {
    /// The number of the write, from 0.
    pub write: u64,
    /// Of its bytes those from here on ..
    pub from: usize,
    /// .. up to here are written. Of at most four bytes inside one sector none is, where these are not all.
    pub to: usize,
    /// Whether no call works from then on, as on a disk whose program was ended.
    pub for_good: bool,
}

/// A disk in memory: a front of so many bytes, and the record behind it. A call on it fails at a cut alone, and after
/// one up to the next `revive`, or from then on. It tells nothing of its content.
#[derive(Drop)]
pub struct MemDisk {
    image: Vec<u8>,
    cut: Option<Cut>,
    writes: u64,
    // the number of the first write of the group that goes on
    first: u64,
    groups: ArrayVec<u64, MOST_GROUPS>,
    clock: u64,
    counts: Counts,
    ghost short: { length image.items < 2 ^ 32 },
}

impl MemDisk {
    /// A disk with this front, which is cut so.
    ///
    /// # Errors
    ///
    /// `AllocError` where memory runs out.
    #[tactic(auto, using(crate::specs::RedoLaws::record_near))]
    pub fn new(alloc: Global, front: &[u8], cut: Option<Cut>) -> Result<MemDisk, AllocError>
        requires { length front.now + 528 < 2 ^ 32 }
        ensures untouched { IfOk result (λ disk. IsUntouched (record_place (length front.now) + 16)
            (⟦<MemDisk as Disk>⟧.state disk)) }
        ensures room { IfOk result (λ disk. HasRoom (length front.now) (⟦<MemDisk as Disk>⟧.state disk)) }
    {
        let size = place_behind(front.len() as u32) + RECORD_SIZE;
        let mut image = Vec::from_slice(alloc, front)?;
        image.resize(size as usize, 0)?;
        Ok(MemDisk::of(image, cut))
    }

    /// A disk with this image, which is cut so.
    fn of(image: Vec<u8>, cut: Option<Cut>) -> MemDisk
        requires { length image.items < 2 ^ 32 }
        ensures image { result.image ≡ image }
        ensures untouched { IsUntouched (length image.items) (⟦<MemDisk as Disk>⟧.state result) }
    {
        MemDisk {
            image,
            cut,
            writes: 0,
            first: 0,
            groups: ArrayVec::new(),
            clock: 0,
            counts: Counts::new(),
        }
    }

    /// A disk with what this one holds, which is cut so: that of a program which was started anew.
    ///
    /// # Errors
    ///
    /// `AllocError` where memory runs out.
    pub fn again(&self, cut: Option<Cut>) -> Result<MemDisk, AllocError>
        ensures untouched { IfOk result (λ disk. IsUntouched (⟦<MemDisk as Disk>⟧.state self.now).size
            (⟦<MemDisk as Disk>⟧.state disk)) }
    {
        Ok(MemDisk::of(self.image.clone()?, cut))
    }

    /// Whether it has room for a front of so many bytes, and the record behind it.
    #[tactic(auto, using(crate::specs::RedoLaws::record_near))]
    pub fn has_room(&self, front: u32) -> bool
        requires { front + 528 < 2 ^ 32 }
        ensures { result ≡ true → HasRoom front (⟦<MemDisk as Disk>⟧.state self.now) }
    {
        (place_behind(front) + RECORD_SIZE) as usize <= self.image.len()
    }

    /// How many writes were begun.
    pub fn writes(&self) -> u64 {
        self.writes
    }

    /// The number of the first write of each group of several writes, of so many groups at most.
    pub fn groups(&self) -> &[u64] {
        self.groups.as_slice()
    }
}

impl Disk for MemDisk {
    ghost use Rattle.std.specs.Prelude.{[], ◌∷◌};
    ghost use Rattle.tach_media.specs.Untold.{untold_state, untold};

    ghost state = { λ m. untold_state (length m.image.items) ((0, length m.image.items) ∷ []) m.clock m.counts.works
        m.counts.faults m.counts.breakdowns };

    ghost coherent = { λ m. untold (length m.image.items) ((0, length m.image.items) ∷ []) m.clock m.counts.works
        m.counts.faults m.counts.breakdowns };

    fn size(&self) -> u32 {
        self.image.len() as u32
    }

    fn clock(&self) -> u64 {
        self.clock
    }

    fn read_at(&mut self, place: u32, out: &mut [u8]) -> Result<(), Failed> {
        if !self.counts.works {
            self.counts.fail();
            return Err(Failed);
        }
        let from = place as usize;
        out.copy_from_slice(&self.image[from..from + out.len()]);
        Ok(())
    }

    fn write_at(&mut self, place: u32, bytes: &[u8]) -> Result<(), Failed> {
        if !self.counts.works {
            self.counts.fail();
            return Err(Failed);
        }
        let write = self.writes;
        self.writes = self.writes.saturating_add(1);
        match self.cut {
            Some(cut) if cut.write == write => {
                tear(&mut self.image, place, bytes, cut);
                self.counts.fail();
                Err(Failed)
            }
            _ => {
                let from = place as usize;
                self.image[from..from + bytes.len()].copy_from_slice(bytes);
                Ok(())
            }
        }
    }

    fn end_group(&mut self) {
        if self.first.saturating_add(1) < self.writes {
            let _ = self.groups.try_push(self.first);
        }
        self.first = self.writes;
        self.clock = self.clock.saturating_add(1);
    }

    fn revive(&mut self) -> Result<(), Failed> {
        self.counts.works = true;
        if is_gone(self.cut, self.writes) {
            self.counts.fail();
            return Err(Failed);
        }
        self.first = self.writes;
        Ok(())
    }

    fn holds_bytes(&self) {}
}

/// Whether a disk of which so many writes were begun was cut for good.
fn is_gone(cut: Option<Cut>, writes: u64) -> bool {
    match cut {
        Some(cut) => cut.for_good && cut.write < writes,
        None => false,
    }
}

/// Writes so much of some bytes as a cut leaves.
fn tear(image: &mut [u8], place: u32, bytes: &[u8], cut: Cut)
    requires { place + length bytes.now ≤ length image.old }
    ensures { IsTorn place bytes.now image.old image.new }
{
    let here = place as usize;
    let to = cut.to.min(bytes.len());
    let from = cut.from.min(to);
    let is_kept_whole = bytes.len() <= 4 && here % 512 + bytes.len() <= 512;
    if !is_kept_whole || to - from == bytes.len() {
        image[here + from..here + to].copy_from_slice(&bytes[from..to]);
    }
}
