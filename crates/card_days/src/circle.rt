//! The circle of bytes in which the days stand: its pointers, its lengths and its heads.
ghost use Rattle.std.specs.Prelude.{◌≡◌, ◌≤◌, ◌<◌, ◌+◌, ◌%◌, ℕ, length, slice_index, IfOk, OnOk, IfSome, is_err};
ghost use Rattle.std.specs.Prelude.{option_map, take, Some, None, []};
ghost use Rattle.card_model.specs.declared.lengths.TheConstants.{DAY_MOST};
ghost use Rattle.card_layout.specs.declared.files.TheConstants.{STRING_MOST};
ghost use Rattle.tach_media.specs.Medium.{LeavesOnly, Reads, HasCause, LiesInside, IsPartlyWritten, IsSettled};
ghost use Rattle.tach_media.specs.Medium.{last_count, put, bytes_at};
ghost use Rattle.card_model.specs.Days.{Day};
ghost use Rattle.card_model.specs.Bytes.{number, two_bytes};
ghost use Rattle.card_model.specs.Image.{HoldsDays, IsAt, IsPlace, IsPointer, IsStringShape, at, newest_pointer};
ghost use Rattle.card_model.specs.Image.{oldest_pointer, spot, string_of, turned};
ghost use Rattle.card_days.specs.Moments.{FileFitsIn};
ghost use Rattle.card_days.specs.Heads.{head_bytes, day_head};
ghost use Rattle.card_days.specs.Loading.{shape_of};

mod trim;

use crate::DayHead;
use crate::bytes::{read_two, write_two};
use crate::head::RecordHead;
use card_layout::Range;
use card_model::lengths::{DAY_HEAD, DAY_MOST};
use std::marker::Model;
use tach_media::{Failed, Medium};

/// The circle of bytes of a string in a medium, and what a walk over its days meets.
#[derive(Drop)]
pub struct Circle {
    base: u32,
    size: u32,
}

impl Model for Circle {
    ghost use Rattle.card_model.specs.Image.{StringShape, IsStringShape};

    ghost Value = { StringShape };

    ghost view = { λ r. record { base = r.base; size = r.size } };

    ghost invariant = { λ r. IsStringShape (record { base = r.base; size = r.size }) };
}

impl Circle {
    /// The days of a range, which is the file of days.
    pub(crate) fn of(range: Range) -> Circle
        requires { IsStringShape (shape_of range) }
        ensures shape { result ≡ shape_of range }
        ensures is { IsStringShape result }
    {
        Circle {
            base: range.base,
            size: range.len - 4,
        }
    }

    /// Where the file of days begins.
    pub(crate) fn base(&self) -> u32
        ensures { result ≡ self.now.base }
    {
        self.base
    }

    /// How many bytes the string has.
    pub(crate) fn size(&self) -> u32
        ensures size { result ≡ self.now.size }
        ensures most { result ≤ STRING_MOST }
    {
        self.size
    }

    /// A number, or 0 where it is no pointer.
    pub(crate) fn pointer(&self, n: u32) -> u32
        ensures same { IsPointer self.now.size n → result ≡ n }
        ensures pointer { IsPointer self.now.size result }
    {
        let size = self.size;
        if n < size && n % 2 == 0 { n } else { 0 }
    }

    /// A number, or 0 where it is no length of a day.
    pub(crate) fn day_len(n: u32) -> u32
        ensures same { n % 2 ≡ 0 → n ≤ DAY_MOST → result ≡ n }
        ensures taken { 0 < result → result ≡ n }
        ensures even { result % 2 ≡ 0 }
        ensures most { result ≤ DAY_MOST }
    {
        if n % 2 == 0 && n <= DAY_MOST { n } else { 0 }
    }

    /// The place so far behind another, round the end.
    pub(crate) fn spot(&self, from: u32, distance: u32) -> u32
        requires pointer { IsPointer self.now.size from }
        requires even { distance % 2 ≡ 0 }
        requires most { distance ≤ self.now.size }
        ensures spot { result ≡ spot self.now.size from distance }
        ensures place { IsPlace self.now.size from distance result }
        ensures pointer { IsPointer self.now.size result }
        ensures two { result + 2 ≤ self.now.size }
    {
        let size = self.size;
        let sum = from + distance;
        if sum < size { sum } else { sum - size }
    }

    /// How far a place lies behind another, round the end.
    pub(crate) fn distance(&self, from: u32, to: u32) -> u32
        requires pointer { IsPointer self.now.size from }
        requires pointer_to { IsPointer self.now.size to }
        ensures place { IsPlace self.now.size from result to }
        ensures below { result < self.now.size }
    {
        let size = self.size;
        if from <= to {
            to - from
        } else {
            to + size - from
        }
    }

    /// The place so far before another, round the end.
    pub(crate) fn back(&self, from: u32, distance: u32) -> u32
        requires pointer { IsPointer self.now.size from }
        requires even { distance % 2 ≡ 0 }
        requires most { distance ≤ DAY_MOST }
        ensures place { IsPlace self.now.size result distance from }
        ensures pointer { IsPointer self.now.size result }
    {
        let size = self.size;
        if distance <= from {
            from - distance
        } else {
            from + size - distance
        }
    }

    /// The oldest pointer.
    pub(crate) fn oldest<M: Medium>(&self, medium: &mut M) -> Result<u32, Failed>
        requires fits { FileFitsIn self.now (M.state medium.old) }
        ensures oldest { IfOk result (λ p. IfSome (M.state medium.old).image (λ x. IsPointer self.now.size
            (oldest_pointer self.now x) → p ≡ oldest_pointer self.now x)) }
        ensures pointer { IfOk result (λ p. IsPointer self.now.size p) }
        ensures shape { IsStringShape self.now }
        ensures reads { Reads (M.state medium.old) (M.state medium.new) (is_err result) }
    {
        let n = read_two(medium, self.base)?;
        Ok(self.pointer(n))
    }

    /// The newest pointer.
    pub(crate) fn newest<M: Medium>(&self, medium: &mut M) -> Result<u32, Failed>
        requires fits { FileFitsIn self.now (M.state medium.old) }
        ensures newest { IfOk result (λ p. IfSome (M.state medium.old).image (λ x. IsPointer self.now.size
            (newest_pointer self.now x) → p ≡ newest_pointer self.now x)) }
        ensures pointer { IfOk result (λ p. IsPointer self.now.size p) }
        ensures shape { IsStringShape self.now }
        ensures reads { Reads (M.state medium.old) (M.state medium.new) (is_err result) }
    {
        let n = read_two(medium, self.base + 2)?;
        Ok(self.pointer(n))
    }

    /// The length of the day at a place.
    pub(crate) fn len_at<M: Medium>(&self, medium: &mut M, place: u32) -> Result<u32, Failed>
        requires fits { FileFitsIn self.now (M.state medium.old) }
        requires pointer { IsPointer self.now.size place }
        ensures len { IfOk result (λ n. IfSome (M.state medium.old).image (λ x. (q : ℕ) → IsPlace self.now.size place 2
            q → q < self.now.size
            → number (bytes_at x (at self.now q) 2) % 2 ≡ 0 → number (bytes_at x (at self.now q) 2) ≤ DAY_MOST
            → n ≡ number (bytes_at x (at self.now q) 2))) }
        ensures even { IfOk result (λ n. n % 2 ≡ 0) }
        ensures most { IfOk result (λ n. n ≤ DAY_MOST) }
        ensures reads { Reads (M.state medium.old) (M.state medium.new) (is_err result) }
    {
        let field = self.base + 4 + self.spot(place, 2);
        let n = read_two(medium, field)?;
        Ok(Self::day_len(n))
    }

    /// The length of the day before the one at a place.
    pub(crate) fn previous_at<M: Medium>(&self, medium: &mut M, place: u32) -> Result<u32, Failed>
        requires fits { FileFitsIn self.now (M.state medium.old) }
        requires pointer { IsPointer self.now.size place }
        ensures len { IfOk result (λ n. IfSome (M.state medium.old).image (λ x. number
            (bytes_at x (at self.now place) 2) % 2 ≡ 0 → number (bytes_at x (at self.now place) 2) ≤ DAY_MOST
            → n ≡ number (bytes_at x (at self.now place) 2))) }
        ensures even { IfOk result (λ n. n % 2 ≡ 0) }
        ensures most { IfOk result (λ n. n ≤ DAY_MOST) }
        ensures reads { Reads (M.state medium.old) (M.state medium.new) (is_err result) }
    {
        let field = self.base + 4 + place;
        let n = read_two(medium, field)?;
        Ok(Self::day_len(n))
    }

    /// Reads bytes of the string that break over its end.
    fn read_broken<M: Medium>(
        &self,
        medium: &mut M,
        place: u32,
        out: &mut [u8],
    ) -> Result<(), Failed>
        requires fits { FileFitsIn self.now (M.state medium.old) }
        requires pointer { IsPointer self.now.size place }
        requires breaks { self.now.size ≤ place + length out.old }
        requires short { length out.old ≤ 12 }
        ensures bytes { OnOk result (IfSome (M.state medium.old).image
            (λ x. out.new ≡ take (length out.old) (turned place (string_of self.now x)))) }
        ensures reads { Reads (M.state medium.old) (M.state medium.new) (is_err result) }
    {
        let start = self.base + 4;
        let room = (self.size - place) as usize;
        let len = out.len();
        medium.read_at(start + place, &mut out[0..room])?;
        medium.read_at(start, &mut out[room..len])?;
        Ok(())
    }

    /// The twelve bytes at a place of the string, round its end.
    fn twelve_at<M: Medium>(&self, medium: &mut M, place: u32) -> Result<[u8; 12], Failed>
        requires fits { FileFitsIn self.now (M.state medium.old) }
        requires pointer { IsPointer self.now.size place }
        ensures shape { IsStringShape self.now }
        ensures bytes { IfOk result (λ b. IfSome (M.state medium.old).image (λ x. b ≡ take 12
            (turned place (string_of self.now x)))) }
        ensures reads { Reads (M.state medium.old) (M.state medium.new) (is_err result) }
    {
        let mut bytes = [0u8; 12];
        if self.size - place < 12 {
            self.read_broken(medium, place, &mut bytes)?;
            return Ok(bytes);
        }
        medium.read_at(self.base + 4 + place, &mut bytes)?;
        Ok(bytes)
    }

    /// The number in two bytes so far behind a place of the string, round its end.
    pub(crate) fn two_at<M: Medium>(
        &self,
        medium: &mut M,
        place: u32,
        distance: u32,
    ) -> Result<u32, Failed>
        requires fits { FileFitsIn self.now (M.state medium.old) }
        requires pointer { IsPointer self.now.size place }
        requires even { distance % 2 ≡ 0 }
        requires most { distance + 2 ≤ self.now.size }
        ensures short { IfOk result (λ n. n < 65536) }
        ensures spelled { IfOk result (λ n. IfSome (M.state medium.old).image
            (λ x. bytes_at (turned place (string_of self.now x)) distance 2 ≡ two_bytes n)) }
        ensures reads { Reads (M.state medium.old) (M.state medium.new) (is_err result) }
    {
        let field = self.base + 4 + self.spot(place, distance);
        read_two(medium, field)
    }

    /// The numbers before the words of the day at a place.
    pub(crate) fn head_at<M: Medium>(
        &self,
        medium: &mut M,
        place: u32,
    ) -> Result<RecordHead, Failed>
        requires fits { FileFitsIn self.now (M.state medium.old) }
        requires pointer { IsPointer self.now.size place }
        ensures shape { IsStringShape self.now }
        ensures short { IfOk result (λ h. h.counter < 65536) }
        ensures head { IfOk result (λ h. IfSome (M.state medium.old).image (λ x. head_bytes h ≡ take 12
            (turned place (string_of self.now x)))) }
        ensures reads { Reads (M.state medium.old) (M.state medium.new) (is_err result) }
    {
        let bytes = self.twelve_at(medium, place)?;
        Ok(RecordHead::new(&bytes))
    }

    /// The head of the day at a place; `None` where the length there is 0.
    pub(crate) fn day_at<M: Medium>(
        &self,
        medium: &mut M,
        place: u32,
    ) -> Result<Option<DayHead>, Failed>
        requires fits { FileFitsIn self.now (M.state medium.old) }
        requires pointer { IsPointer self.now.size place }
        ensures there { IfOk result (λ o. IfSome (M.state medium.old).image (λ x. (d : Day) → IsAt self.now x place d
            → o ≡ Some (day_head place d))) }
        ensures empty { IfOk result (λ o. IfSome (M.state medium.old).image (λ x. HoldsDays self.now x []
            → oldest_pointer self.now x ≡ place → o ≡ None)) }
        ensures place { IfOk result (λ o. IfSome o (λ h. h.place ≡ place)) }
        ensures reads { Reads (M.state medium.old) (M.state medium.new) (is_err result) }
    {
        let head = self.head_at(medium, place)?;
        if head.len == 0 {
            return Ok(None);
        }
        Ok(Some(head.at(place)))
    }

    /// A word of the day that begins at a place.
    pub(crate) fn word_at<M: Medium>(
        &self,
        medium: &mut M,
        place: u32,
        index: u16,
    ) -> Result<u32, Failed>
        requires fits { FileFitsIn self.now (M.state medium.old) }
        requires pointer { IsPointer self.now.size place }
        requires few { index < 1440 }
        ensures short { IfOk result (λ w. w < 65536) }
        ensures word { IfOk result (λ w. IfSome (M.state medium.old).image (λ x. (d : Day) → IsAt self.now x place d
            → index < length d.words → w ≡ slice_index d.words index)) }
        ensures reads { Reads (M.state medium.old) (M.state medium.new) (is_err result) }
    {
        let field = self.base + 4 + self.spot(place, DAY_HEAD + 2 * index as u32);
        read_two(medium, field)
    }

    /// Writes a number on the string.
    pub(crate) fn put_two<M: Medium>(
        &self,
        medium: &mut M,
        place: u32,
        n: u32,
    ) -> Result<(), Failed>
        requires fits { FileFitsIn self.now (M.state medium.old) }
        requires writable { LiesInside (M.state medium.old).writable self.now.base (4 + self.now.size) }
        requires pointer { IsPointer self.now.size place }
        requires short { n < 65536 }
        ensures written { OnOk result ((M.state medium.new).image ≡ option_map (put (at self.now place) (two_bytes n))
            (M.state medium.old).image) }
        ensures moments { LeavesOnly (M.state medium.old) (M.state medium.new)
            (IsPartlyWritten (at self.now place) (two_bytes n)) }
        ensures settled { OnOk result ((M.state medium.new).clock < last_count → IsSettled (M.state medium.new)) }
        ensures cause { HasCause (M.state medium.old) (M.state medium.new) (is_err result) }
        ensures most { (M.state medium.new).clock ≤ (M.state medium.old).clock + 1 }
    {
        write_two(medium, self.base + 4 + place, n)
    }
}
