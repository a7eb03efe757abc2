//! A medium through a reference.
use crate::{Failed, Medium};

impl<M: Medium> Medium for &mut M {
    ghost use Rattle.tach_media.specs.Medium.{lent, lent_coherent};

    ghost state = { λ m. lent m.ghost_name (M.state m.now) };

    ghost coherent = { λ m. lent_coherent m.ghost_name (M.state m.now) (M.coherent m.now) };

    fn size(&self) -> u32 {
        (**self).size()
    }

    fn clock(&self) -> u64 {
        (**self).clock()
    }

    fn read_at(&mut self, place: u32, out: &mut [u8]) -> Result<(), Failed> {
        (**self).read_at(place, out)
    }

    fn write_at(&mut self, place: u32, bytes: &[u8]) -> Result<(), Failed> {
        (**self).write_at(place, bytes)
    }

    fn revive(&mut self) -> Result<(), Failed> {
        (**self).revive()
    }

    fn holds_bytes(&self) {
        (**self).holds_bytes();
    }
}
