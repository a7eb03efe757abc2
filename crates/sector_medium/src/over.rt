//! What is read of a memory: the disk's bytes, with a record that is to be done laid over them.
ghost use Rattle.std.specs.Prelude.{◌≡◌, ◌≤◌, ◌<◌, ◌+◌, ◌^◌, length, IfSome, OnOk, is_err, List, ℕ};
ghost use Rattle.tach_media.specs.Medium.{Reads, bytes_at, put};
ghost use Rattle.sector_medium.specs.Redo.{record_place, recovered};
ghost use Rattle.sector_medium.specs.Recovered.{on_disk, HasRoom, IsKnown, IsSeen};
ghost use Rattle.sector_medium.specs.declared.found.Found.TheVariants.{Unknown};

use crate::{Disk, Found};
use tach_media::Failed;

/// Lays the bytes around a border over a part of an image that was read.
fn lay(out: &mut [u8], place: u32, border: u32, bytes: &[u8; 6])
    requires { place + length out.old < 2 ^ 32 }
    ensures { (x : List ℕ) → border + 6 ≤ length x → place + length out.old ≤ length x
        → out.old ≡ bytes_at x place (length out.old)
        → out.new ≡ bytes_at (put border bytes.now x) place (length out.old) }
{
    let here = place as usize;
    let there = border as usize;
    let from = here.max(there);
    let to = (here + out.len()).min(there + 6);
    if from < to {
        out[from - here..to - here].copy_from_slice(&bytes[from - there..to - there]);
    }
}

/// Lays what was seen behind a front over a part of it that was read.
fn overlay(size: u32, out: &mut [u8], place: u32, found: &Found)
    requires seen { found.now ≡ Unknown → ⊥ }
    requires inside { place + length out.old ≤ size }
    ensures { (d : List ℕ) → IsSeen size found.now d → record_place size + 16 ≤ length d
        → out.old ≡ bytes_at d place (length out.old) → out.new ≡ bytes_at (recovered size d) place (length out.old) }
{
    if let Found::Open(redo) = found {
        lay(out, place, redo.place, &redo.bytes);
    }
}

/// Reads a part of a memory, by what was seen behind it.
pub fn read_over<D: Disk>(
    disk: &mut D,
    size: u32,
    found: &Found,
    place: u32,
    out: &mut [u8],
) -> Result<(), Failed>
    requires room { HasRoom size (D.state disk.old) }
    requires known { IsKnown size found.now (D.state disk.old) }
    requires seen { found.now ≡ Unknown → ⊥ }
    requires inside { place + length out.old ≤ size }
    ensures bytes { OnOk result (IfSome (on_disk size (D.state disk.old)).image
        (λ x. out.new ≡ bytes_at x place (length out.old))) }
    ensures reads { Reads (on_disk size (D.state disk.old)) (on_disk size (D.state disk.new)) (is_err result) }
    ensures known { OnOk result (IsKnown size found.now (D.state disk.new)) }
    ensures room { HasRoom size (D.state disk.new) }
{
    disk.read_at(place, out)?;
    overlay(size, out, place, found);
    Ok(())
}
