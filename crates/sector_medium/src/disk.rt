//! What a file on a disk gives.
ghost use Rattle.std.specs.Prelude.{◌≡◌, ◌≤◌, ◌+◌, length, OnOk, IfSome, option_map, is_err};
ghost use Rattle.tach_media.specs.Medium.{State, IsCoherent, HoldsBytes, LiesInside, Unchanged};
ghost use Rattle.tach_media.specs.Medium.{bytes_at, put, LeavesOnly, Reads, HasCause, revivable};
ghost use Rattle.sector_medium.specs.Disk.{IsTorn, Ends};

use tach_media::Failed;

/// A memory of a fixed size in bytes, of which a stop keeps whole only what lies inside one sector of 512 bytes.
///
/// It tells of itself what a medium tells, but that its clock counts groups of writes: `end_group` ends one.
pub trait Disk {
    ghost state: { Self → State };

    /// How many bytes it has.
    fn size(&self) -> u32
        ensures { result ≡ (state self.now).size };

    /// How many groups of writes were ended, or 2^64 - 1 once there.
    fn clock(&self) -> u64
        ensures { result ≡ (state self.now).clock };

    /// Reads the bytes from `place` on, as many as `out` holds. Failed or not, it adds no image to those that a stop
    /// may leave.
    fn read_at(&mut self, place: u32, out: &mut [u8]) -> Result<(), Failed>
        requires { place + length out.old ≤ (state self.old).size }
        ensures bytes { OnOk result (IfSome (state self.old).image (λ x. out.new ≡ bytes_at x place (length out.old))) }
        ensures reads { Reads (state self.old) (state self.new) (is_err result) };

    /// Writes `bytes` from `place` on. Of at most four bytes inside one sector a stop, or a failure, leaves all or
    /// none; of any other write it may leave any bytes in their range. Bytes outside stay.
    fn write_at(&mut self, place: u32, bytes: &[u8]) -> Result<(), Failed>
        requires inside { place + length bytes.now ≤ (state self.old).size }
        requires writable { LiesInside (state self.old).writable place (length bytes.now) }
        ensures written { OnOk result ((state self.new).image ≡ option_map (put place bytes.now)
            (state self.old).image) }
        ensures moments { LeavesOnly (state self.old) (state self.new) (IsTorn place bytes.now) }
        ensures clock { (state self.new).clock ≡ (state self.old).clock }
        ensures cause { HasCause (state self.old) (state self.new) (is_err result) };

    /// Ends a group of writes.
    fn end_group(&mut self)
        ensures { Ends (state self.old) (state self.new) };

    /// Makes a disk work again after a failure, with one of the images that a stop may leave.
    fn revive(&mut self) -> Result<(), Failed>
        ensures moments { LeavesOnly (state self.old) (state self.new) Unchanged }
        ensures clock { (state self.new).clock ≡ (state self.old).clock }
        ensures cause { HasCause (revivable (state self.old)) (state self.new) (is_err result) };

    /// Each image that it tells, and each that a stop may leave or might have left, is of bytes. It does nothing.
    fn holds_bytes(&self)
        ensures { HoldsBytes (state self.now) };

    ghost coherent: { (m : Self) → IsCoherent (state m) };
}
