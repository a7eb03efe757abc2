//! A slice as a medium that is only read.
ghost use Rattle.std.specs.Prelude.{◌≡◌, ◌+◌, ◌<◌, ◌≤◌, ◌^◌, length, IfSome, IsOk, IsErr, OnOk, is_err};
ghost use Rattle.tach_media.specs.Medium.{bytes_at, LeavesOnly, Reads, HasCause, Unchanged, revivable};
ghost use Rattle.tach_media.specs.SliceMedium.{slice_state, slice_coherent};

use crate::log::are_bytes;
use crate::{Failed, Medium};
use std::marker::Model;

/// A slice, to be read. No call on it fails, and no range of it may be written.
#[derive(Drop)]
pub struct SliceMedium<'a> {
    bytes: &'a [u8],
}

impl<'a> Model for SliceMedium<'a> {
    ghost use Rattle.std.specs.Prelude.{ℕ, List, ◌<◌, ◌^◌, length};

    ghost Value = { List ℕ };

    ghost view = { λ m. m.bytes.now };

    ghost invariant = { λ m. length m.bytes.now < 2 ^ 32 };
}

impl<'a> SliceMedium<'a> {
    /// A medium with this image, below 2^32 bytes.
    pub fn new(bytes: &'a [u8]) -> SliceMedium<'a>
        requires { length bytes.now < 2 ^ 32 }
        ensures { result ≡ bytes.now }
    {
        SliceMedium { bytes }
    }
}

impl<'a> Medium for SliceMedium<'a> {
    ghost state = { slice_state };

    ghost coherent = { slice_coherent };

    fn size(&self) -> u32 {
        self.bytes.len() as u32
    }

    fn clock(&self) -> u64 {
        0
    }

    fn read_at(&mut self, place: u32, out: &mut [u8]) -> Result<(), Failed>
        requires { place + length out.old ≤ (slice_state self.old).size }
        ensures bytes { OnOk result (IfSome (slice_state self.old).image
            (λ x. out.new ≡ bytes_at x place (length out.old))) }
        ensures reads { Reads (slice_state self.old) (slice_state self.new) (is_err result) }
        ensures ok { IsOk result }
        ensures same { self.new ≡ self.old }
    {
        let from = place as usize;
        out.copy_from_slice(&self.bytes[from..from + out.len()]);
        Ok(())
    }

    /// No range may be written, so the trait's condition is never met; a call that doesn't ask for it is refused.
    fn write_at(&mut self, _place: u32, _bytes: &[u8]) -> Result<(), Failed>
        ensures refused { IsErr result }
        ensures same { self.new ≡ self.old }
    {
        Err(Failed)
    }

    fn revive(&mut self) -> Result<(), Failed>
        ensures moments { LeavesOnly (slice_state self.old) (slice_state self.new) Unchanged }
        ensures clock { (slice_state self.new).clock ≡ (slice_state self.old).clock }
        ensures cause { HasCause (revivable (slice_state self.old)) (slice_state self.new) (is_err result) }
        ensures ok { IsOk result }
        ensures same { self.new ≡ self.old }
    {
        Ok(())
    }

    fn holds_bytes(&self) {
        are_bytes(self.bytes);
    }
}
