//! The block of a number, the oldest first.
ghost use Rattle.std.specs.Prelude.{◌≡◌, ◌≤◌, ◌<◌, ◌+◌, IfOk, IfSome, length, get_or, is_err};
ghost use Rattle.card_layout.specs.Images.{bytes_at};
ghost use Rattle.tach_media.specs.Medium.{Reads};
ghost use Rattle.gated_ring.specs.Ring.{PointsInside, pointer, indices};
ghost use Rattle.unit_model.specs.declared.layout.TheConstants.{IMAGE_SIZE};
ghost use Rattle.speed_model.specs.declared.block.TheConstants.{BLOCK_SLOTS};
ghost use Rattle.speed_model.specs.Stored.{speed_ring};
ghost use Rattle.speed_store.specs.Finding.{IsBlockAt, after, picked, turned};

use crate::ring::POINTER;
use crate::store::time_place;
use speed_model::{BLOCK_SLOTS, Block};
use tach_media::{Failed, Medium, read_number};
use unit_model::layout::SPEEDS;

/// How many blocks are still to come to the one that is looked for, with it, and the index where it is once none is.
#[derive(Clone, Copy, Debug, PartialEq, Eq)]
pub(crate) struct Found {
    pub left: u32,
    pub index: u32,
}

/// The index of the block of this number.
pub(crate) fn index_of<M: Medium>(unit: &mut M, nth: u16) -> Result<u32, Failed>
    requires unit { (M.state unit.old).size ≡ IMAGE_SIZE }
    ensures index { IfOk result (λ index. IfSome (M.state unit.old).image (λ x. PointsInside speed_ring x → nth < length
        (indices speed_ring x) → index ≡ get_or (indices speed_ring x) nth 0)) }
    ensures below { IfOk result (λ index. index < BLOCK_SLOTS) }
    ensures reads { Reads (M.state unit.old) (M.state unit.new) (is_err result) }
{
    let first = oldest(unit)?;
    let mut found = Found {
        left: nth as u32 + 1,
        index: first,
    };
    for step in 0..BLOCK_SLOTS {
        let index = turned(first, step);
        let time = read_number(unit, time_place(index), 4)?;
        found = pick(found, time != 0, index);
    }
    Ok(found.index)
}

/// The index of the oldest place: the one after the pointer, round the end.
fn oldest<M: Medium>(unit: &mut M) -> Result<u32, Failed>
    requires unit { (M.state unit.old).size ≡ IMAGE_SIZE }
    ensures index { IfOk result (λ first. IfSome (M.state unit.old).image (λ x. first ≡ after (pointer speed_ring x))) }
    ensures below { IfOk result (λ first. first < BLOCK_SLOTS) }
    ensures reads { Reads (M.state unit.old) (M.state unit.new) (is_err result) }
{
    let pointer = read_number(unit, SPEEDS.place, POINTER as u32)?;
    Ok(after(pointer))
}

/// The index after the pointer, round the end.
fn after(pointer: u32) -> u32
    ensures next { result ≡ after pointer }
    ensures below { result < BLOCK_SLOTS }
{
    if pointer < BLOCK_SLOTS - 1 {
        pointer + 1
    } else {
        0
    }
}

/// The index so many steps behind another, round the end.
fn turned(first: u32, step: u32) -> u32
    requires first { first < BLOCK_SLOTS }
    requires step { step < BLOCK_SLOTS }
    ensures index { result ≡ turned first step }
    ensures below { result < BLOCK_SLOTS }
{
    let index = first + step;
    if index < BLOCK_SLOTS {
        index
    } else {
        index - BLOCK_SLOTS
    }
}

/// One place more, with a block there or without.
fn pick(found: Found, there: bool, index: u32) -> Found
    ensures { result ≡ picked found there index }
{
    if !there {
        return found;
    }
    let at = if found.left == 1 { index } else { found.index };
    Found {
        left: found.left.saturating_sub(1),
        index: at,
    }
}

/// The block at an index.
pub(crate) fn block_at<M: Medium>(unit: &mut M, index: u32) -> Result<Block, Failed>
    requires unit { (M.state unit.old).size ≡ IMAGE_SIZE }
    requires index { index < BLOCK_SLOTS }
    ensures block { IfOk result (λ block. IfSome (M.state unit.old).image (λ x. IsBlockAt x index block)) }
    ensures reads { Reads (M.state unit.old) (M.state unit.new) (is_err result) }
{
    let place = time_place(index);
    let time = read_number(unit, place, 4)?;
    let speeds = read_speeds(unit, place + 4)?;
    Ok(Block { time, speeds })
}

/// The speeds that stand at a place.
fn read_speeds<M: Medium>(unit: &mut M, place: u32) -> Result<[u8; 60], Failed>
    requires { place + 60 ≤ (M.state unit.old).size }
    ensures value { IfOk result (λ speeds. IfSome (M.state unit.old).image (λ x. speeds ≡ bytes_at x place 60)) }
    ensures reads { Reads (M.state unit.old) (M.state unit.new) (is_err result) }
{
    let mut speeds = [0; 60];
    unit.read_at(place, &mut speeds)?;
    Ok(speeds)
}
