//! The newest end of a string, which is read in blocks.
ghost use Rattle.std.specs.Prelude.{◌≡◌, ◌≤◌, ◌+◌, ◌-◌, true, IfOk, IfSome, is_err};
ghost use Rattle.tach_media.specs.Medium.{Reads, bytes_at};
ghost use Rattle.card_model.specs.Image.{IsPointer, IsStringShape};
ghost use Rattle.card_days.specs.Heads.{head_bytes};
ghost use Rattle.card_days.specs.Moments.{FileFitsIn};
ghost use Rattle.card_days.specs.Rears.{head_later, IsBlock, IsRear, LiesOn, BlockIsKnown, EndsAreKnown};
ghost use Rattle.card_days.specs.declared.rear.TheConstants.{BLOCK};

use crate::circle::Circle;
use crate::head::RecordHead;
use tach_media::{Failed, Medium};

/// How many bytes of the string are read at once: as many as a card's command gives.
pub const BLOCK: usize = 256;

/// Bytes of the string that were read, from a place on.
#[derive(Clone, Copy)]
pub struct Block {
    pub place: u32,
    pub bytes: [u8; BLOCK],
}

/// The newest end of a string as it was read: both pointers, the head of the newest day, and bytes of the string.
#[derive(Clone, Copy)]
pub struct Rear {
    pub oldest: u32,
    pub newest: u32,
    pub head: RecordHead,
    pub block: Block,
}

impl Block {
    /// Whether it has the twelve bytes at a place.
    fn has(&self, place: u32) -> bool
        ensures from { result ≡ true → self.now.place ≤ place }
        ensures to { result ≡ true → place + 12 ≤ self.now.place + BLOCK }
    {
        self.place <= place && place - self.place <= BLOCK as u32 - 12
    }

    /// The numbers in the twelve bytes at a place.
    fn head(&self, place: u32) -> RecordHead
        requires from { self.now.place ≤ place }
        requires to { place + 12 ≤ self.now.place + BLOCK }
        ensures { head_bytes result ≡ bytes_at self.now.bytes (place - self.now.place) 12 }
    {
        let from = (place - self.place) as usize;
        RecordHead::new(&self.bytes[from..from + 12])
    }
}

impl Rear {
    /// Whether there is a newest day, and it is later than a date.
    pub fn is_later(&self, date: u64) -> bool
        ensures { result ≡ head_later date self.now.head }
    {
        self.head.len > 0 && self.head.date as u64 > date
    }
}

impl Circle {
    /// Where a block begins that has the twelve bytes at a place, unless they break over the end: as far before it as
    /// it can.
    fn block_place(&self, place: u32) -> u32
        requires shape { IsStringShape self.now }
        requires pointer { IsPointer self.now.size place }
        ensures inside { result + BLOCK ≤ self.now.size }
        ensures from { result ≤ place }
        ensures to { place + 12 ≤ self.now.size → place + 12 ≤ result + BLOCK }
    {
        let most = self.size() - BLOCK as u32;
        let start = place.saturating_sub(BLOCK as u32 - 12);
        if start < most { start } else { most }
    }

    /// Reads such a block.
    fn block_at<M: Medium>(&self, medium: &mut M, place: u32) -> Result<Block, Failed>
        requires fits { FileFitsIn self.now (M.state medium.old) }
        requires shape { IsStringShape self.now }
        requires pointer { IsPointer self.now.size place }
        ensures inside { IfOk result (λ b. b.place + BLOCK ≤ self.now.size) }
        ensures from { IfOk result (λ b. b.place ≤ place) }
        ensures to { IfOk result (λ b. place + 12 ≤ self.now.size → place + 12 ≤ b.place + BLOCK) }
        ensures bytes { IfOk result (λ b. IfSome (M.state medium.old).image (IsBlock self.now b)) }
        ensures reads { Reads (M.state medium.old) (M.state medium.new) (is_err result) }
    {
        let place = self.block_place(place);
        let mut bytes = [0u8; BLOCK];
        medium.read_at(self.base() + 4 + place, &mut bytes)?;
        Ok(Block { place, bytes })
    }

    /// A block that has the twelve bytes at a place, which do not break over the end: this one, where it has them.
    fn block_with<M: Medium>(
        &self,
        medium: &mut M,
        block: Block,
        place: u32,
    ) -> Result<Block, Failed>
        requires works { (M.state medium.old).works ≡ true }
        requires fits { FileFitsIn self.now (M.state medium.old) }
        requires shape { IsStringShape self.now }
        requires pointer { IsPointer self.now.size place }
        requires whole { place + 12 ≤ self.now.size }
        requires block { BlockIsKnown self.now block (M.state medium.old) }
        ensures inside { IfOk result (λ b. b.place + BLOCK ≤ self.now.size) }
        ensures from { IfOk result (λ b. b.place ≤ place) }
        ensures to { IfOk result (λ b. place + 12 ≤ b.place + BLOCK) }
        ensures bytes { IfOk result (λ b. IfSome (M.state medium.old).image (IsBlock self.now b)) }
        ensures reads { Reads (M.state medium.old) (M.state medium.new) (is_err result) }
    {
        if block.has(place) {
            return Ok(block);
        }
        self.block_at(medium, place)
    }

    /// The newest end of the string, whose pointers are these. What the block has of it is not read again.
    pub(crate) fn rear_at<M: Medium>(
        &self,
        medium: &mut M,
        oldest: u32,
        newest: u32,
        block: Block,
    ) -> Result<Rear, Failed>
        requires works { (M.state medium.old).works ≡ true }
        requires fits { FileFitsIn self.now (M.state medium.old) }
        requires shape { IsStringShape self.now }
        requires ends { EndsAreKnown self.now oldest newest (M.state medium.old) }
        requires block { BlockIsKnown self.now block (M.state medium.old) }
        ensures lies { IfOk result (LiesOn self.now) }
        ensures known { IfOk result (λ v. IfSome (M.state medium.new).image (IsRear self.now v)) }
        ensures reads { Reads (M.state medium.old) (M.state medium.new) (is_err result) }
    {
        if self.size() - newest < 12 {
            let head = self.head_at(medium, newest)?;
            return Ok(Rear {
                oldest,
                newest,
                head,
                block,
            });
        }
        let block = self.block_with(medium, block, newest)?;
        let head = block.head(newest);
        Ok(Rear {
            oldest,
            newest,
            head,
            block,
        })
    }

    /// Reads the newest end of the string.
    pub(crate) fn rear<M: Medium>(&self, medium: &mut M) -> Result<Rear, Failed>
        requires fits { FileFitsIn self.now (M.state medium.old) }
        ensures shape { IsStringShape self.now }
        ensures lies { IfOk result (LiesOn self.now) }
        ensures known { IfOk result (λ v. IfSome (M.state medium.new).image (IsRear self.now v)) }
        ensures reads { Reads (M.state medium.old) (M.state medium.new) (is_err result) }
    {
        let oldest = self.oldest(medium)?;
        let newest = self.newest(medium)?;
        let block = self.block_at(medium, newest)?;
        self.rear_at(medium, oldest, newest, block)
    }
}
