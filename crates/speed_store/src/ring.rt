//! The ring of blocks, and a block that is added.
ghost use Rattle.std.specs.Prelude.{◌≡◌, ◌≢◌, ◌≤◌, ◌<◌, ◌+◌, length, IfOk, IfSome, OnOk};
ghost use Rattle.card_layout.specs.Images.{number_at};
ghost use Rattle.tach_media.specs.Medium.{Rose, Alters};
ghost use Rattle.gated_ring.specs.Ring.{PointsInside, IsAtPointer};
ghost use Rattle.gated_ring.specs.Change.{IsAdding, IsAdded, adding_writes};
ghost use Rattle.unit_model.specs.Image.{IsUnit};
ghost use Rattle.speed_model.specs.declared.block.TheConstants.{BLOCK_SLOTS};
ghost use Rattle.speed_model.specs.Blocks.{block_bytes};
ghost use Rattle.speed_model.specs.Stored.{speed_ring};

use gated_ring::Ring;
use speed_model::{BLOCK_SIZE, BLOCK_SLOTS, Block};
use tach_media::{Failed, Medium};
use unit_model::layout::SPEEDS;

/// The width of the pointer before the blocks.
pub const POINTER: u8 = 4;

/// The ring of blocks, whose pointer is below its count in each unit that decodes.
pub fn blocks() -> Ring
    ensures { result ≡ speed_ring }
{
    Ring::at(SPEEDS.place, BLOCK_SIZE, BLOCK_SLOTS, POINTER, 0)
}

/// A block in bytes: its time, and its speeds.
fn write_block(block: &Block, out: &mut [u8])
    requires size { length out.old ≡ BLOCK_SIZE }
    ensures bytes { out.new ≡ block_bytes block.now }
    ensures time { number_at out.new 0 4 ≡ block.now.time }
{
    let (time, speeds) = out.split_at_mut(4);
    time.copy_from_slice(&block.time.to_be_bytes());
    speeds.copy_from_slice(&block.speeds);
}

/// Adds the newest block to a unit whose image decodes, and answers its index. A stop leaves the blocks before, those
/// without the oldest where all places were taken, or those with the new one; no other byte of the unit changes.
///
/// # Errors
///
/// `Failed` where the medium failed.
pub fn add_block<M: Medium>(unit: &mut M, block: &Block) -> Result<u32, Failed>
    requires unit { IsUnit (M.state unit.old) }
    requires time { block.now.time ≢ 0 }
    ensures below { IfOk result (λ index. index < BLOCK_SLOTS) }
    ensures newest { IfOk result (λ index.
        IfSome (M.state unit.old).image (λ x. PointsInside speed_ring x → IfSome (M.state unit.new).image
        (IsAtPointer speed_ring index))) }
    ensures alters { Alters result (M.state unit.old) (M.state unit.new) 5
        (IsAdded speed_ring (block_bytes block.now)) (IsAdding speed_ring (block_bytes block.now)) }
    ensures clock { OnOk result (Rose (M.state unit.old).clock (M.state unit.new).clock) }
    ensures writes { IfSome (M.state unit.old).image
        (λ x. PointsInside speed_ring x
        → (M.state unit.new).clock ≤ (M.state unit.old).clock + adding_writes speed_ring x) }
{
    let mut bytes = [0; BLOCK_SIZE as usize];
    write_block(block, &mut bytes);
    let index = blocks().add(unit, &bytes)?;
    Ok(index)
}

/// Adds the newest block behind the one of this index, which is known to be the newest, and answers its index. Of the
/// unit it reads the time alone of the block whose place is taken.
///
/// # Errors
///
/// `Failed` where the medium failed.
pub fn add_block_behind<M: Medium>(unit: &mut M, last: u32, block: &Block) -> Result<u32, Failed>
    requires unit { IsUnit (M.state unit.old) }
    requires last { last < BLOCK_SLOTS }
    requires known { IfSome (M.state unit.old).image (IsAtPointer speed_ring last) }
    requires time { block.now.time ≢ 0 }
    ensures below { IfOk result (λ index. index < BLOCK_SLOTS) }
    ensures newest { IfOk result (λ index. IfSome (M.state unit.new).image (IsAtPointer speed_ring index)) }
    ensures alters { Alters result (M.state unit.old) (M.state unit.new) 5
        (IsAdded speed_ring (block_bytes block.now)) (IsAdding speed_ring (block_bytes block.now)) }
    ensures clock { OnOk result (Rose (M.state unit.old).clock (M.state unit.new).clock) }
    ensures writes { IfSome (M.state unit.old).image
        (λ x. (M.state unit.new).clock ≤ (M.state unit.old).clock + adding_writes speed_ring x) }
{
    let mut bytes = [0; BLOCK_SIZE as usize];
    write_block(block, &mut bytes);
    let index = blocks().add_behind(unit, last, &bytes)?;
    Ok(index)
}
