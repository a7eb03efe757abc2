//! The blocks of a unit, counted and read.
ghost use Rattle.std.specs.Prelude.{◌≡◌, ◌≢◌, ◌≤◌, ◌<◌, ◌+◌, ◌==◌, true, IfOk, IfErr, IfSome, OnOk, is_err};
ghost use Rattle.std.specs.Prelude.{if◌then◌else◌, get_or};
ghost use Rattle.tach_media.specs.Medium.{LeavesOnly, Reads, HasCause, IsSettled, Rose, last_count};
ghost use Rattle.gated_ring.specs.Ring.{pointer, gate_of, indices};
ghost use Rattle.gated_ring.specs.Change.{IsAdding, IsAdded};
ghost use Rattle.unit_model.specs.declared.layout.TheConstants.{IMAGE_SIZE};
ghost use Rattle.unit_model.specs.Image.{IsUnit};
ghost use Rattle.speed_model.specs.declared.block.TheConstants.{BLOCK_SLOTS};
ghost use Rattle.speed_model.specs.Blocks.{block_bytes};
ghost use Rattle.speed_model.specs.Stored.{speed_ring};
ghost use Rattle.speed_store.specs.Finding.{IsBlockAt};
ghost use Rattle.speed_store.specs.Faults.{IfBadPointer, has_failed};
ghost use Rattle.speed_store.specs.Stores.{HoldsBlocks, there_count, with_one};

use crate::SpeedFault;
use crate::finding::{block_at, index_of};
use crate::ring::{POINTER, add_block, blocks};
use gated_ring::Ring;
use speed_model::{BLOCK_SIZE, BLOCK_SLOTS, Block};
use std::marker::Model;
use tach_media::{Failed, Medium, read_number};
use unit_model::layout::SPEEDS;

/// The blocks of detailed speed of a unit: how many there are. After `Failed` it is loaded again.
#[derive(Drop)]
pub struct SpeedStore {
    count: u16,
}

impl Model for SpeedStore {
    ghost use Rattle.std.specs.Prelude.{◌≤◌, ℕ};

    ghost Value = { ℕ };

    ghost view = { λ s. s.count };

    ghost invariant = { λ s. s.count ≤ 1440 };
}

impl SpeedStore {
    /// Counts the blocks of a unit; it writes nothing.
    ///
    /// # Errors
    ///
    /// `Failed` where the medium failed, and `BadPointer` exactly where the ring's pointer is not below 1440.
    pub fn load<M: Medium>(unit: &mut M) -> Result<SpeedStore, SpeedFault>
        requires unit { IsUnit (M.state unit.old) }
        ensures holds { IfOk result (λ count. IfSome (M.state unit.old).image (HoldsBlocks count)) }
        ensures bad { IfErr result (λ fault. IfBadPointer fault (λ v. (BLOCK_SLOTS ≤ v) × IfSome
            (M.state unit.old).image (λ x. pointer speed_ring x ≡ v))) }
        ensures reads { Reads (M.state unit.old) (M.state unit.new) (has_failed result) }
    {
        Ring::load(unit, SPEEDS.place, BLOCK_SIZE, BLOCK_SLOTS, POINTER, 0)?;
        let count = count_there(unit)?;
        Ok(SpeedStore { count })
    }

    /// How many blocks there are.
    pub fn count(&self) -> u16
        ensures count { result ≡ self.now }
        ensures few { result ≤ BLOCK_SLOTS }
    {
        self.count
    }

    /// The block of this number, the oldest of all with 0; it writes nothing.
    ///
    /// # Errors
    ///
    /// `Failed` where the medium failed.
    pub fn block<M: Medium>(&self, unit: &mut M, nth: u16) -> Result<Block, Failed>
        requires unit { IsUnit (M.state unit.old) }
        requires nth { nth < self.now }
        ensures block { IfOk result (λ block.
            IfSome (M.state unit.old).image (λ x. HoldsBlocks self.now x → IsBlockAt x
            (get_or (indices speed_ring x) nth 0) block)) }
        ensures reads { Reads (M.state unit.old) (M.state unit.new) (is_err result) }
    {
        let index = index_of(unit, nth)?;
        let block = block_at(unit, index)?;
        Ok(block)
    }

    /// Adds the newest block. A stop leaves the blocks before, those without the oldest where all places were taken, or
    /// those with the new one; no other byte of the unit changes.
    ///
    /// # Errors
    ///
    /// `Failed` where the medium failed.
    pub fn add<M: Medium>(&mut self, unit: &mut M, block: &Block) -> Result<(), Failed>
        requires unit { IsUnit (M.state unit.old) }
        requires time { block.now.time ≢ 0 }
        ensures holds { OnOk result (IfSome (M.state unit.old).image
            (λ x. HoldsBlocks self.old x → IfSome (M.state unit.new).image (HoldsBlocks self.new))) }
        ensures added { OnOk result (IfSome (M.state unit.old).image
            (λ x. IfSome (M.state unit.new).image (IsAdded speed_ring (block_bytes block.now) x))) }
        ensures moments { LeavesOnly (M.state unit.old) (M.state unit.new)
            (IsAdding speed_ring (block_bytes block.now)) }
        ensures settled { OnOk result ((M.state unit.new).clock < last_count → IsSettled (M.state unit.new)) }
        ensures clock { OnOk result (Rose (M.state unit.old).clock (M.state unit.new).clock) }
        ensures cause { HasCause (M.state unit.old) (M.state unit.new) (is_err result) }
        ensures most { (M.state unit.new).clock ≤ (M.state unit.old).clock + 5 }
    {
        let room = blocks().room(unit)?;
        add_block(unit, block)?;
        self.grow(room.used);
        Ok(())
    }

    /// One block more, which took another's place or not.
    fn grow(&mut self, used: bool)
        ensures { self.new ≡ with_one self.old used }
    {
        if used {
            return;
        }
        self.count = (self.count + 1).min(BLOCK_SLOTS as u16);
    }
}

/// Where the time of a block stands.
pub(crate) fn time_place(index: u32) -> u32
    requires { index < BLOCK_SLOTS }
    ensures place { result ≡ gate_of speed_ring index }
    ensures inside { result + 64 ≤ IMAGE_SIZE }
{
    SPEEDS.place + POINTER as u32 + index * BLOCK_SIZE
}

/// How many blocks one with this time is.
fn one_if(time: u32) -> u16
    ensures value { result ≡ (if time == 0 then 0 else 1) }
    ensures few { result ≤ 1 }
{
    if time == 0 { 0 } else { 1 }
}

/// How many blocks are there.
fn count_there<M: Medium>(unit: &mut M) -> Result<u16, Failed>
    requires works { (M.state unit.old).works ≡ true }
    requires unit { (M.state unit.old).size ≡ IMAGE_SIZE }
    ensures count { IfOk result (λ count. IfSome (M.state unit.old).image (λ x. count ≡ there_count x BLOCK_SLOTS)) }
    ensures few { IfOk result (λ count. count ≤ BLOCK_SLOTS) }
    ensures reads { Reads (M.state unit.old) (M.state unit.new) (is_err result) }
{
    let mut count = 0;
    for index in 0..BLOCK_SLOTS {
        let time = read_number(unit, time_place(index), 4)?;
        count += one_if(time);
    }
    Ok(count)
}
