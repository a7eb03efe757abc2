//! A ring of entries in a medium: what stands in it, and its writes, each entry behind a gate.
ghost use Rattle.std.specs.Prelude.{◌≡◌, ◌≤◌, ◌<◌, ◌+◌, ◌^◌, min, length, take, drop, IfOk, OnOk, IfSome, is_err};
ghost use Rattle.std.specs.Prelude.{true, IsTrue, IsFalse, IfErr, IsOk, ◌⊎◌, ◌*◌, ◌-◌};
ghost use Rattle.std.specs.List.{range_with_len};
ghost use Rattle.tach_media.specs.Medium.{bytes_at, LeavesOnly, Reads, HasCause, LiesInside, IsSettled, Rose};
ghost use Rattle.tach_media.specs.Medium.{last_count, Alters};
ghost use Rattle.tach_media.specs.Plan.{PutsAll, PutsBy, more};
ghost use Rattle.gated_ring.specs.Ring.{IsShape, FitsIn, size_of, is_pointer_width, place_of, gate_of, gate_bytes};
ghost use Rattle.gated_ring.specs.Ring.{is_there, IsNewest, IsAtPointer, pointer, PointsInside, number_at};
ghost use Rattle.gated_ring.specs.Ring.{next, taken, IsHead};
ghost use Rattle.gated_ring.specs.Change.{adding_writes, replacing_writes, IsAdding, IsAdded, IsReplaced};
ghost use Rattle.gated_ring.specs.Change.{IsReplacingEntry, IsClosed, IsSet, OrUnwritten, TookNext, TookBehind};
ghost use Rattle.gated_ring.specs.Plans.{some_piece, shut_pieces, body_pieces, pointer_pieces, gate_pieces};
ghost use Rattle.gated_ring.specs.Plans.{placing_pieces, adding_pieces, exchanging_pieces, replacing_pieces};
ghost use Rattle.gated_ring.specs.Plans.{IsPlannedHead, TakesEntry};
ghost use Rattle.gated_ring.specs.Searching.{IsNewestOf};

use crate::{RingFault, Room};
use std::marker::Model;
use tach_media::{Failed, Medium, Plan, put_pieces, read_number};

/// A place and a shape inside a medium: a pointer, which may be absent, and then `count` places of `width` bytes.
/// An entry is there where its gate, a number of four bytes, is not 0. Such are the card's files with a pointer to the
/// newest record (Annex IB, Appendix 2, EF Vehicles_Used and EF Places) and the rings of the unit's memory (profile).
///
/// The list of a ring goes from the index after the pointer round to the pointer, through the entries that are there.
///
/// The medium handed to a call has the size that it had at loading. What the calls say of the entries holds where the
/// pointer is below the count, as [`Ring::load`] has found it and each call leaves it; of a ring from [`Ring::at`] the
/// caller knows so.
#[derive(Debug, PartialEq, Eq, Clone, Copy)]
pub struct Ring {
    base: u32,
    width: u32,
    count: u32,
    pointer_width: u32,
    gate: u32,
}

impl Model for Ring {
    ghost use Rattle.gated_ring.specs.Ring.{Shape, IsShape};

    ghost Value = { Shape };

    ghost view = { λ r. record {
      base = r.base;
      width = r.width;
      count = r.count;
      pointer_width = r.pointer_width;
      gate = r.gate;
    } };

    ghost invariant = { λ r. IsShape
        (record { base = r.base; width = r.width; count = r.count; pointer_width = r.pointer_width; gate = r.gate }) };

    ghost inverse = { λ s. record {
      base = s.base;
      width = s.width;
      count = s.count;
      pointer_width = s.pointer_width;
      gate = s.gate;
    } };
}

impl Ring {
    ghost use Rattle.gated_ring.specs.Loading.{IfBadPointer, ReadsPointer, has_failed};

    /// The ring that [`Ring::load`] gives where the pointer is below `count`, without a read: of a ring that has no
    /// pointer, and of one in an image that is known to be sound.
    pub fn at(base: u32, width: u32, count: u32, pointer_width: u8, gate: u32) -> Ring
        requires short { base + (pointer_width + count * width) < 2 ^ 32 }
        requires some { 0 < count }
        requires pointer { IsTrue (is_pointer_width pointer_width) }
        requires holds { 0 < pointer_width → count ≤ 256 ^ pointer_width }
        requires gate { gate + 4 ≤ width }
        ensures { result ≡ record {
          base = base;
          width = width;
          count = count;
          pointer_width = pointer_width;
          gate = gate;
        } }
    {
        Ring {
            base,
            width,
            count,
            pointer_width: pointer_width as u32,
            gate,
        }
    }

    /// Loads a ring at `base`, of `count` entries of `width` bytes behind a pointer of `pointer_width` bytes, which is
    /// 0 where the ring has no pointer, or 1, 2 or 4. The gate stands at `gate` in each entry.
    ///
    /// # Errors
    ///
    /// 1. `Failed` where the medium failed.
    /// 2. `BadPointer` exactly where the pointer is not below `count`.
    pub fn load<M: Medium>(
        medium: &mut M,
        base: u32,
        width: u32,
        count: u32,
        pointer_width: u8,
        gate: u32,
    ) -> Result<Ring, RingFault>
        requires inside { base + (pointer_width + count * width) ≤ (M.state medium.old).size }
        requires some { 0 < count }
        requires pointer { IsTrue (is_pointer_width pointer_width) }
        requires holds { 0 < pointer_width → count ≤ 256 ^ pointer_width }
        requires gate { gate + 4 ≤ width }
        ensures ok { IfOk result (λ ring. ring
            ≡ record { base = base; width = width; count = count; pointer_width = pointer_width; gate = gate }) }
        ensures known { IfOk result (λ ring. IfSome (M.state medium.old).image (PointsInside ring)) }
        ensures bad { IfErr result (λ fault. IfBadPointer fault (λ v. (count ≤ v) × IfSome (M.state medium.old).image
            (λ x. number_at x base pointer_width ≡ v))) }
        ensures without { pointer_width ≡ 0 → IsOk result }
        ensures reads { ReadsPointer pointer_width (M.state medium.old) (M.state medium.new) (has_failed result) }
    {
        // for the proof alone: a size is below 2 ^ 32, and so the ring ends there
        let _size = medium.size();
        let ring = Ring::at(base, width, count, pointer_width, gate);
        if pointer_width > 0 {
            let pointer = read_number(medium, base, pointer_width as u32)?;
            if pointer >= count {
                return Err(RingFault::BadPointer(pointer));
            }
        }
        Ok(ring)
    }

    /// Where an entry begins.
    fn place_of(&self, index: u32) -> u32
        requires { index < self.now.count }
        ensures place { result ≡ place_of self.now index }
        ensures low { self.now.base ≤ result }
        ensures high { result + self.now.width ≤ self.now.base + size_of self.now }
        ensures short { result + self.now.width < 2 ^ 32 }
        ensures shape { IsShape self.now }
    {
        self.base + self.pointer_width + index * self.width
    }

    /// The index after this one, round the end.
    fn next(&self, index: u32) -> u32
        requires { index < self.now.count }
        ensures next { result ≡ next self.now index }
        ensures below { result < self.now.count }
    {
        let count = self.count;
        if index + 1 == count { 0 } else { index + 1 }
    }

    /// Where an entry's gate begins.
    fn gate_place(&self, index: u32) -> u32
        requires { index < self.now.count }
        ensures place { result ≡ gate_of self.now index }
        ensures low { self.now.base ≤ result }
        ensures high { result + 4 ≤ self.now.base + size_of self.now }
        ensures short { result + 4 < 2 ^ 32 }
        ensures shape { IsShape self.now }
    {
        self.place_of(index) + self.gate
    }

    /// The number in an entry's gate.
    fn gate<M: Medium>(&self, medium: &mut M, index: u32) -> Result<u32, Failed>
        requires fits { FitsIn self.now (M.state medium.old) }
        requires index { index < self.now.count }
        ensures value { IfOk result (λ n. IfSome (M.state medium.old).image (λ x. n ≡ number_at x
            (gate_of self.now index) 4)) }
        ensures shape { IsShape self.now }
        ensures reads { Reads (M.state medium.old) (M.state medium.new) (is_err result) }
    {
        read_number(medium, self.gate_place(index), 4)
    }

    /// The pointer. One past the end is read as 0.
    fn last<M: Medium>(&self, medium: &mut M) -> Result<u32, Failed>
        requires fits { FitsIn self.now (M.state medium.old) }
        ensures last { IfOk result (λ last. IfSome (M.state medium.old).image (λ x. PointsInside self.now x → last
            ≡ pointer self.now x)) }
        ensures below { IfOk result (λ last. last < self.now.count) }
        ensures shape { IsShape self.now }
        ensures reads { Reads (M.state medium.old) (M.state medium.new) (is_err result) }
    {
        let pointer = read_number(medium, self.base, self.pointer_width)?;
        Ok(if pointer < self.count { pointer } else { 0 })
    }

    /// The pointer and the index that the next entry takes.
    fn choose<M: Medium>(&self, medium: &mut M) -> Result<(u32, u32), Failed>
        requires fits { FitsIn self.now (M.state medium.old) }
        ensures last { IfOk result (λ found. IfSome (M.state medium.old).image (λ x. PointsInside self.now x → found.0
            ≡ pointer self.now x)) }
        ensures index { IfOk result (λ found.
            IfSome (M.state medium.old).image (λ x. PointsInside self.now x → found.1 ≡ taken self.now x)) }
        ensures below { IfOk result (λ found. found.1 < self.now.count) }
        ensures shape { IsShape self.now }
        ensures reads { Reads (M.state medium.old) (M.state medium.new) (is_err result) }
    {
        let last = self.last(medium)?;
        let gate = self.gate(medium, last)?;
        let index = if gate == 0 { last } else { self.next(last) };
        Ok((last, index))
    }

    /// Reads where the next entry goes: the pointer's own index where no entry is there, else the next.
    ///
    /// # Errors
    ///
    /// `Failed` where a call on the medium failed.
    pub fn room<M: Medium>(&self, medium: &mut M) -> Result<Room, Failed>
        requires fits { FitsIn self.now (M.state medium.old) }
        ensures last { IfOk result (λ room. IfSome (M.state medium.old).image (λ x. PointsInside self.now x → room.last
            ≡ pointer self.now x)) }
        ensures index { IfOk result (λ room. IfSome (M.state medium.old).image (λ x. PointsInside self.now x
            → room.index ≡ taken self.now x)) }
        ensures used { IfOk result (λ room. IfSome (M.state medium.old).image (λ x. room.used ≡ is_there self.now x
            room.index)) }
        ensures below { IfOk result (λ room. room.index < self.now.count) }
        ensures shape { IsShape self.now }
        ensures reads { Reads (M.state medium.old) (M.state medium.new) (is_err result) }
    {
        let (last, index) = self.choose(medium)?;
        let gate = self.gate(medium, index)?;
        Ok(Room {
            last,
            index,
            used: gate != 0,
        })
    }

    /// The bytes of an entry's beginning that stand in its gate, before it and behind it.
    fn gate_bytes<'a>(&self, head: &'a [u8]) -> &'a [u8]
        requires { self.now.gate + 4 ≤ length head.now }
        ensures bytes { result.now ≡ gate_bytes self.now head.now }
        ensures len { length result.now ≡ 4 }
    {
        let gate = self.gate as usize;
        &head[gate..gate + 4]
    }

    fn front<'a>(&self, head: &'a [u8]) -> &'a [u8]
        requires { self.now.gate + 4 ≤ length head.now }
        ensures bytes { result.now ≡ take self.now.gate head.now }
        ensures len { length result.now ≡ self.now.gate }
    {
        &head[..self.gate as usize]
    }

    fn back<'a>(&self, head: &'a [u8]) -> &'a [u8]
        requires { self.now.gate + 4 ≤ length head.now }
        ensures bytes { result.now ≡ drop (self.now.gate + 4) head.now }
        ensures len { length result.now + self.now.gate + 4 ≡ length head.now }
    {
        &head[self.gate as usize + 4..]
    }

    /// Adds the write that shuts an entry's gate, where the entry is there.
    fn plan_shut<const N: usize, const B: usize>(
        &self,
        plan: &mut Plan<N, B>,
        index: u32,
        used: bool,
    )
        requires index { index < self.now.count }
        requires four { 4 ≤ B }
        requires room { length plan.old.pieces < N }
        requires from { plan.old.from ≤ gate_of self.now index }
        requires end { gate_of self.now index + 4 ≤ plan.old.end }
        ensures plan { plan.new ≡ more plan.old (shut_pieces self.now index used) }
        ensures length { length plan.new.pieces ≤ length plan.old.pieces + 1 }
    {
        if !used {
            return;
        }
        plan.put(self.gate_place(index), &[0; 4]);
    }

    /// Adds the writes of an entry's bytes beside its gate.
    fn plan_body<const N: usize, const B: usize>(
        &self,
        plan: &mut Plan<N, B>,
        index: u32,
        head: &[u8],
    )
        requires index { index < self.now.count }
        requires gate { self.now.gate + 4 ≤ length head.now }
        requires width { length head.now ≤ self.now.width }
        requires short { length head.now ≤ B }
        requires at_once { length head.now ≤ 255 }
        requires room { length plan.old.pieces + 1 < N }
        requires from { plan.old.from ≤ place_of self.now index }
        requires end { place_of self.now index + length head.now ≤ plan.old.end }
        ensures plan { plan.new ≡ more plan.old (body_pieces self.now index head.now) }
        ensures length { length plan.new.pieces ≤ length plan.old.pieces + (min self.now.gate 1 + 1) }
    {
        plan_some(plan, self.place_of(index), self.front(head));
        plan_some(plan, self.gate_place(index) + 4, self.back(head));
    }

    /// Adds the write of the pointer, where it differs.
    fn plan_pointer<const N: usize, const B: usize>(
        &self,
        plan: &mut Plan<N, B>,
        last: u32,
        index: u32,
    )
        requires pointer { 0 < self.now.pointer_width }
        requires four { 4 ≤ B }
        requires room { length plan.old.pieces < N }
        requires from { plan.old.from ≤ self.now.base }
        requires end { self.now.base + self.now.pointer_width ≤ plan.old.end }
        ensures plan { plan.new ≡ more plan.old (pointer_pieces self.now last index) }
        ensures length { length plan.new.pieces ≤ length plan.old.pieces + 1 }
    {
        if last == index {
            return;
        }
        let bytes = index.to_be_bytes();
        plan.put(self.base, &bytes[4 - self.pointer_width as usize..]);
    }

    /// Adds the write of an entry's gate.
    fn plan_gate<const N: usize, const B: usize>(
        &self,
        plan: &mut Plan<N, B>,
        index: u32,
        head: &[u8],
    )
        requires index { index < self.now.count }
        requires gate { self.now.gate + 4 ≤ length head.now }
        requires four { 4 ≤ B }
        requires room { length plan.old.pieces < N }
        requires from { plan.old.from ≤ gate_of self.now index }
        requires end { gate_of self.now index + 4 ≤ plan.old.end }
        ensures { plan.new ≡ more plan.old (gate_pieces self.now index head.now) }
    {
        plan.put(self.gate_place(index), self.gate_bytes(head));
    }

    /// Adds the writes of a new entry, which begins with `head`, to a plan: its gate is shut where an entry is there,
    /// its bytes beside the gate, the pointer where it differs, its gate. They are those of [`Ring::add`] where the
    /// room is that of the image.
    pub fn plan_entry<const N: usize, const B: usize>(
        &self,
        plan: &mut Plan<N, B>,
        room: &Room,
        head: &[u8],
    )
        requires index { room.now.index < self.now.count }
        requires pointer { 0 < self.now.pointer_width }
        requires head { IsPlannedHead self.now B head.now }
        requires takes { TakesEntry self.now N room.now.index (length head.now) plan.old }
        ensures plan { plan.new ≡ more plan.old (placing_pieces self.now room.now head.now) }
        ensures length { length plan.new.pieces ≤ length plan.old.pieces + (min self.now.gate 1 + 4) }
    {
        self.plan_shut(plan, room.index, room.used);
        self.plan_body(plan, room.index, head);
        self.plan_pointer(plan, room.last, room.index);
        self.plan_gate(plan, room.index, head);
    }

    /// Writes a new entry where there is room for it.
    fn place<M: Medium>(&self, medium: &mut M, room: &Room, head: &[u8]) -> Result<(), Failed>
        requires fits { FitsIn self.now (M.state medium.old) }
        requires writable { LiesInside (M.state medium.old).writable self.now.base (size_of self.now) }
        requires index { room.now.index < self.now.count }
        requires pointer { 0 < self.now.pointer_width }
        requires gate { self.now.gate + 4 ≤ length head.now }
        requires width { length head.now ≤ self.now.width }
        requires short { length head.now ≤ 254 }
        ensures puts { PutsAll (M.state medium.old) (M.state medium.new) (is_err result)
            (placing_pieces self.now room.now head.now) }
    {
        let end = self.place_of(room.index) + head.len() as u32;
        let mut plan = Plan::<5, 254>::new(self.base, end);
        self.plan_entry(&mut plan, room, head);
        put_pieces(medium, &plan)
    }

    /// Writes an entry, there or not, and leaves the pointer.
    fn exchange<M: Medium>(
        &self,
        medium: &mut M,
        index: u32,
        used: bool,
        head: &[u8],
    ) -> Result<(), Failed>
        requires fits { FitsIn self.now (M.state medium.old) }
        requires writable { LiesInside (M.state medium.old).writable (place_of self.now index) (length head.now) }
        requires index { index < self.now.count }
        requires gate { self.now.gate + 4 ≤ length head.now }
        requires width { length head.now ≤ self.now.width }
        requires short { length head.now ≤ 254 }
        ensures puts { PutsAll (M.state medium.old) (M.state medium.new) (is_err result)
            (exchanging_pieces self.now index used head.now) }
        ensures shape { IsShape self.now }
    {
        let place = self.place_of(index);
        let mut plan = Plan::<4, 254>::new(place, place + head.len() as u32);
        self.plan_shut(&mut plan, index, used);
        self.plan_body(&mut plan, index, head);
        self.plan_gate(&mut plan, index, head);
        put_pieces(medium, &plan)
    }

    /// Adds the newest entry, which begins with `head`, of at most 254 bytes, and answers its index: the pointer's own
    /// where no entry is there, else the next. What the place has behind a head that is shorter than the entry stays as
    /// it was.
    ///
    /// The gate is shut first and opened last, so a stop at a moment of the call leaves the list before, that list
    /// without the entry whose place is taken, or the new list.
    ///
    /// # Errors
    ///
    /// `Failed` where a call on the medium failed.
    pub fn add<M: Medium>(&mut self, medium: &mut M, head: &[u8]) -> Result<u32, Failed>
        requires fits { FitsIn self.old (M.state medium.old) }
        requires writable { LiesInside (M.state medium.old).writable self.old.base (size_of self.old) }
        requires pointer { 0 < self.old.pointer_width }
        requires head { IsHead self.old head.now }
        ensures shape { self.new ≡ self.old }
        ensures took { IfOk result (TookNext self.old (M.state medium.old)) }
        ensures puts { IfSome (M.state medium.old).image (PointsInside self.old)
            → PutsBy (M.state medium.old) (M.state medium.new) (is_err result) 1 5 (adding_pieces self.old head.now) }
        ensures alters { Alters result (M.state medium.old) (M.state medium.new) 5 (IsAdded self.old head.now)
            (IsAdding self.old head.now) }
        ensures clock { OnOk result (Rose (M.state medium.old).clock (M.state medium.new).clock) }
        ensures writes { IfSome (M.state medium.old).image
            (λ x. PointsInside self.old x
            → (M.state medium.new).clock ≤ (M.state medium.old).clock + adding_writes self.old x) }
    {
        let room = self.room(medium)?;
        self.place(medium, &room, head)?;
        Ok(room.index)
    }

    /// Adds the newest entry as [`Ring::add`] does, behind one that is known to be there at the pointer, and answers
    /// its index. Of the ring it reads the gate alone whose place is taken.
    ///
    /// # Errors
    ///
    /// `Failed` where a call on the medium failed.
    pub fn add_behind<M: Medium>(
        &mut self,
        medium: &mut M,
        last: u32,
        head: &[u8],
    ) -> Result<u32, Failed>
        requires fits { FitsIn self.old (M.state medium.old) }
        requires writable { LiesInside (M.state medium.old).writable self.old.base (size_of self.old) }
        requires pointer { 0 < self.old.pointer_width }
        requires last { last < self.old.count }
        requires known { IfSome (M.state medium.old).image (IsAtPointer self.old last) }
        requires head { IsHead self.old head.now }
        ensures shape { self.new ≡ self.old }
        ensures took { IfOk result (TookBehind self.old last (M.state medium.new)) }
        ensures alters { Alters result (M.state medium.old) (M.state medium.new) 5 (IsAdded self.old head.now)
            (IsAdding self.old head.now) }
        ensures clock { OnOk result (Rose (M.state medium.old).clock (M.state medium.new).clock) }
        ensures writes { IfSome (M.state medium.old).image
            (λ x. (M.state medium.new).clock ≤ (M.state medium.old).clock + adding_writes self.old x) }
    {
        let index = self.next(last);
        let gate = self.gate(medium, index)?;
        let room = Room {
            last,
            index,
            used: gate != 0,
        };
        self.place(medium, &room, head)?;
        Ok(index)
    }

    /// Replaces an entry, there or not, by one that begins with `head`, of at most 254 bytes. What the place has behind
    /// a head that is shorter than the entry stays as it was.
    ///
    /// A stop at a moment of the call leaves the entry as it was, none, or the new one.
    ///
    /// # Errors
    ///
    /// `Failed` where a call on the medium failed.
    pub fn put_at<M: Medium>(
        &mut self,
        medium: &mut M,
        index: u32,
        head: &[u8],
    ) -> Result<(), Failed>
        requires fits { FitsIn self.old (M.state medium.old) }
        requires writable { LiesInside (M.state medium.old).writable (place_of self.old index) (length head.now) }
        requires index { index < self.old.count }
        requires head { IsHead self.old head.now }
        ensures shape { self.new ≡ self.old }
        ensures puts { PutsBy (M.state medium.old) (M.state medium.new) (is_err result) 1 4
            (replacing_pieces self.old index head.now) }
        ensures alters { Alters result (M.state medium.old) (M.state medium.new) 4
            (IsReplaced self.old index head.now) (IsReplacingEntry self.old index head.now) }
        ensures clock { OnOk result (Rose (M.state medium.old).clock (M.state medium.new).clock) }
        ensures writes { IfSome (M.state medium.old).image
            (λ x. (M.state medium.new).clock ≤ (M.state medium.old).clock + replacing_writes self.old x index) }
    {
        let gate = self.gate(medium, index)?;
        self.exchange(medium, index, gate != 0, head)
    }

    /// Writes 0 into the gate of an entry, which then is not there. A stop leaves it as it was or shut.
    ///
    /// # Errors
    ///
    /// `Failed` where a call on the medium failed.
    pub fn close_gate<M: Medium>(&mut self, medium: &mut M, index: u32) -> Result<(), Failed>
        requires fits { FitsIn self.old (M.state medium.old) }
        requires writable { LiesInside (M.state medium.old).writable (gate_of self.old index) 4 }
        requires index { index < self.old.count }
        ensures shape { self.new ≡ self.old }
        ensures closed { OnOk result (IfSome (M.state medium.old).image
            (λ x. IfSome (M.state medium.new).image (IsClosed self.old index x))) }
        ensures moments { LeavesOnly (M.state medium.old) (M.state medium.new) (OrUnwritten (IsClosed self.old index)) }
        ensures settled { OnOk result ((M.state medium.new).clock < last_count → IsSettled (M.state medium.new)) }
        ensures clock { OnOk result (Rose (M.state medium.old).clock (M.state medium.new).clock) }
        ensures cause { HasCause (M.state medium.old) (M.state medium.new) (is_err result) }
        ensures most { (M.state medium.new).clock ≤ (M.state medium.old).clock + 1 }
    {
        medium.write_at(self.gate_place(index), &[0; 4])
    }

    /// Writes 1 to 4 bytes of an entry, at `offset` in it and beside its gate. A stop leaves all of them written or
    /// none.
    ///
    /// # Errors
    ///
    /// `Failed` where a call on the medium failed.
    pub fn set_small<M: Medium>(
        &mut self,
        medium: &mut M,
        index: u32,
        offset: u32,
        bytes: &[u8],
    ) -> Result<(), Failed>
        requires fits { FitsIn self.old (M.state medium.old) }
        requires writable { LiesInside (M.state medium.old).writable (place_of self.old index + offset)
            (length bytes.now) }
        requires index { index < self.old.count }
        requires some { 0 < length bytes.now }
        requires few { length bytes.now ≤ 4 }
        requires width { offset + length bytes.now ≤ self.old.width }
        requires apart { (offset + length bytes.now ≤ self.old.gate) ⊎ (self.old.gate + 4 ≤ offset) }
        ensures shape { self.new ≡ self.old }
        ensures alters { Alters result (M.state medium.old) (M.state medium.new) 1
            (IsSet self.old index offset bytes.now) (OrUnwritten (IsSet self.old index offset bytes.now)) }
        ensures clock { OnOk result (Rose (M.state medium.old).clock (M.state medium.new).clock) }
    {
        medium.write_at(self.place_of(index) + offset, bytes)
    }

    /// The last index from one on and below another whose entry is there.
    fn newest_in<M: Medium>(
        &self,
        medium: &mut M,
        from: u32,
        to: u32,
    ) -> Result<Option<u32>, Failed>
        requires works { (M.state medium.old).works ≡ true }
        requires fits { FitsIn self.now (M.state medium.old) }
        requires order { from ≤ to }
        requires below { to ≤ self.now.count }
        ensures below { IfOk result (λ newest. IfSome newest (λ index. index < self.now.count)) }
        ensures newest { IfOk result (λ newest.
            IfSome (M.state medium.old).image (λ x. IsNewestOf self.now x (range_with_len from (to - from)) newest)) }
        ensures reads { Reads (M.state medium.old) (M.state medium.new) (is_err result) }
    {
        let mut index = to;
        while index > from {
            index -= 1;
            if self.gate(medium, index)? != 0 {
                return Ok(Some(index));
            }
        }
        Ok(None)
    }

    /// The index of the newest entry, or `None` exactly where the list is empty.
    ///
    /// # Errors
    ///
    /// `Failed` where a call on the medium failed.
    pub fn newest<M: Medium>(&self, medium: &mut M) -> Result<Option<u32>, Failed>
        requires fits { FitsIn self.now (M.state medium.old) }
        requires pointer { 0 < self.now.pointer_width }
        ensures below { IfOk result (λ newest. IfSome newest (λ index. index < self.now.count)) }
        ensures newest { IfOk result (λ newest.
            IfSome (M.state medium.old).image (λ x. PointsInside self.now x → IsNewest self.now x newest)) }
        ensures reads { Reads (M.state medium.old) (M.state medium.new) (is_err result) }
    {
        let last = self.last(medium)?;
        match self.newest_in(medium, 0, last + 1)? {
            Some(index) => Ok(Some(index)),
            None => self.newest_in(medium, last + 1, self.count),
        }
    }

    /// Whether an entry is there, and then its beginning in `out`, which else stays as it was.
    ///
    /// # Errors
    ///
    /// `Failed` where a call on the medium failed.
    pub fn entry<M: Medium>(
        &self,
        medium: &mut M,
        index: u32,
        out: &mut [u8],
    ) -> Result<bool, Failed>
        requires fits { FitsIn self.now (M.state medium.old) }
        requires index { index < self.now.count }
        requires width { length out.old ≤ self.now.width }
        ensures there { IfOk result (λ there.
            IfSome (M.state medium.old).image (λ x. there ≡ is_there self.now x index)) }
        ensures bytes { IfOk result (λ there. IsTrue there
            → IfSome (M.state medium.old).image (λ x. out.new ≡ bytes_at x (place_of self.now index)
            (length out.old))) }
        ensures none { IfOk result (λ there. IsFalse there → out.new ≡ out.old) }
        ensures reads { Reads (M.state medium.old) (M.state medium.new) (is_err result) }
    {
        if self.gate(medium, index)? == 0 {
            return Ok(false);
        }
        medium.read_at(self.place_of(index), out)?;
        Ok(true)
    }
}

/// Adds the write of bytes, of which there may be none.
fn plan_some<const N: usize, const B: usize>(plan: &mut Plan<N, B>, place: u32, bytes: &[u8])
    requires short { length bytes.now ≤ B }
    requires at_once { length bytes.now ≤ 255 }
    requires room { length plan.old.pieces < N }
    requires from { plan.old.from ≤ place }
    requires end { place + length bytes.now ≤ plan.old.end }
    ensures plan { plan.new ≡ more plan.old (some_piece place bytes.now) }
    ensures length { length plan.new.pieces ≤ length plan.old.pieces + min (length bytes.now) 1 }
{
    if bytes.len() == 0 {
        return;
    }
    plan.put(place, bytes);
}
