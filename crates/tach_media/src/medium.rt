//! Memory that a stop may cut off.
ghost use Rattle.std.specs.Prelude.{◌≡◌, ◌≤◌, ◌<◌, ◌+◌, length, OnOk, IfSome, option_map, is_err};
ghost use Rattle.tach_media.specs.Medium.{State, IsCoherent, HoldsBytes, LiesInside, IsPartlyWritten, Unchanged};
ghost use Rattle.tach_media.specs.Medium.{bytes_at, put, LeavesOnly, Reads, IsSettled, HasCause, Rose, last_count};
ghost use Rattle.tach_media.specs.Medium.{most_writes, revivable};

use crate::Failed;

/// A memory of a fixed size in bytes, which a stop may cut off at any moment.
///
/// Where it knows its content it tells the image that a read gives, the images that a stop may leave now, and those
/// that a stop might have left since an earlier clock. After `Ok` it works, and a stop leaves only what a read gives.
/// After `Failed` every call but `revive` fails. Each failed call is a fault; one that breaks a medium that worked, and
/// each failed `revive`, is a breakdown too. The counts of faults and breakdowns never fall, and stay at 2^64 - 1 once
/// there.
pub trait Medium {
    ghost state: { Self → State };

    /// How many bytes it has.
    fn size(&self) -> u32
        ensures { result ≡ (state self.now).size };

    /// How many writes were begun on it, or 2^64 - 1 once there.
    fn clock(&self) -> u64
        ensures { result ≡ (state self.now).clock };

    /// Reads the bytes from `place` on, as many as `out` holds. Failed or not, it adds no image to those that a stop
    /// may leave.
    fn read_at(&mut self, place: u32, out: &mut [u8]) -> Result<(), Failed>
        requires { place + length out.old ≤ (state self.old).size }
        ensures bytes { OnOk result (IfSome (state self.old).image (λ x. out.new ≡ bytes_at x place (length out.old))) }
        ensures reads { Reads (state self.old) (state self.new) (is_err result) };

    /// Writes `bytes` from `place` on. Of at most four bytes a stop, or a failure, leaves all or none; of more it may
    /// leave any bytes in their range. Bytes outside stay.
    fn write_at(&mut self, place: u32, bytes: &[u8]) -> Result<(), Failed>
        requires inside { place + length bytes.now ≤ (state self.old).size }
        requires writable { LiesInside (state self.old).writable place (length bytes.now) }
        ensures written { OnOk result ((state self.new).image ≡ option_map (put place bytes.now)
            (state self.old).image) }
        ensures moments { LeavesOnly (state self.old) (state self.new) (IsPartlyWritten place bytes.now) }
        ensures settled { OnOk result (0 < length bytes.now → (state self.new).clock < last_count → IsSettled
            (state self.new)) }
        ensures clock { OnOk result (0 < length bytes.now → Rose (state self.old).clock (state self.new).clock) }
        ensures few { (state self.new).clock ≤ (state self.old).clock + most_writes (length bytes.now) }
        ensures cause { HasCause (state self.old) (state self.new) (is_err result) };

    /// Makes a medium work again after a failure, with one of the images that a stop may leave. Of a medium that works
    /// it changes no byte.
    fn revive(&mut self) -> Result<(), Failed>
        ensures moments { LeavesOnly (state self.old) (state self.new) Unchanged }
        ensures clock { (state self.new).clock ≡ (state self.old).clock }
        ensures cause { HasCause (revivable (state self.old)) (state self.new) (is_err result) };

    /// Each image that it tells, and each that a stop may leave or might have left, is of bytes. It does nothing.
    fn holds_bytes(&self)
        ensures { HoldsBytes (state self.now) };

    ghost coherent: { (m : Self) → IsCoherent (state m) };
}
