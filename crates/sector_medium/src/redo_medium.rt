//! A disk as a medium.
ghost use Rattle.std.specs.Prelude.{◌≡◌};
ghost use Rattle.sector_medium.specs.Recovered.{on_disk, HasRoom, IsKnown};

use crate::{Disk, Found, read_over, seen, settle, store};
use tach_media::{Failed, Medium};

/// The front of a disk as a medium: each write of at most four bytes is whole or absent, also where it lies across a
/// border of two sectors.
///
/// Such a write goes by a record behind the front. A stop between its writes leaves the old or the new bytes, by what
/// the next one that looks recovers: one that reads lays the record over what it reads, one that writes does it again.
#[derive(Drop)]
pub struct RedoMedium<D: Disk> {
    disk: D,
    size: u32,
    // what stands behind the front, since the last call that failed
    found: Found,
    ghost room: { HasRoom size (D.state disk) },
    ghost known: { IsKnown size found (D.state disk) },
}

impl<D: Disk> RedoMedium<D> {
    /// The first `size` bytes of a disk that has room for them and the record.
    pub fn new(disk: D, size: u32) -> RedoMedium<D>
        requires { HasRoom size (D.state disk) }
        ensures disk { result.disk ≡ disk }
        ensures size { result.size ≡ size }
    {
        RedoMedium {
            disk,
            size,
            found: Found::Unknown,
        }
    }

    /// The disk under it.
    pub fn disk(&self) -> &D
        ensures { result.now ≡ self.now.disk }
    {
        &self.disk
    }
}

impl<D: Disk> Medium for RedoMedium<D> {
    ghost use Rattle.sector_medium.specs.Recovered.{on_disk_coherent};

    ghost state = { λ m. on_disk m.size (D.state m.disk) };

    ghost coherent = { λ m. on_disk_coherent m.size (D.state m.disk) m.room.room (D.coherent m.disk) };

    fn size(&self) -> u32 {
        self.size
    }

    fn clock(&self) -> u64 {
        self.disk.clock()
    }

    #[tactic(auto, using(crate::proofs::Known::known_unknown))]
    fn read_at(&mut self, place: u32, out: &mut [u8]) -> Result<(), Failed> {
        let found = self.found;
        self.found = Found::Unknown;
        let found = seen(&mut self.disk, self.size, found)?;
        read_over(&mut self.disk, self.size, &found, place, out)?;
        self.found = found;
        Ok(())
    }

    #[tactic(auto, using(crate::proofs::Known::known_unknown))]
    fn write_at(&mut self, place: u32, bytes: &[u8]) -> Result<(), Failed> {
        let found = self.found;
        self.found = Found::Unknown;
        let found = seen(&mut self.disk, self.size, found)?;
        settle(&mut self.disk, self.size, &found)?;
        store(&mut self.disk, self.size, place, bytes)?;
        self.disk.end_group();
        self.found = Found::Closed;
        Ok(())
    }

    fn revive(&mut self) -> Result<(), Failed> {
        self.found = Found::Unknown;
        self.disk.revive()
    }

    fn holds_bytes(&self) {
        self.disk.holds_bytes();
    }
}
