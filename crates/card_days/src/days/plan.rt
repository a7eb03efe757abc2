//! The writes of a call on the string, in their order, before the first of them is made.
ghost use Rattle.std.specs.Prelude.{◌≡◌, ◌≤◌, ◌<◌, ◌+◌, ◌-◌, ◌*◌, ◌%◌, ◌∷◌, [], length, true, IfOk, OnOk, OnErr};
ghost use Rattle.std.specs.Prelude.{IfSome};
ghost use Rattle.card_model.specs.declared.lengths.TheConstants.{DAY_LEAST, DAY_MOST};
ghost use Rattle.tach_media.specs.Medium.{Reads};
ghost use Rattle.tach_media.specs.Plan.{more, none, piece};
ghost use Rattle.card_model.specs.Bytes.{two_bytes};
ghost use Rattle.card_model.specs.Image.{IsPointer, at};
ghost use Rattle.card_days.specs.Held.{newest_len, end_of, oldest_at};
ghost use Rattle.card_days.specs.Moments.{FileFitsIn};
ghost use Rattle.card_days.specs.Steps.{Looks};
ghost use Rattle.card_days.specs.Plans.{dropped_len, left_in, drop_pieces, word_pieces, round_pieces, pointer_pieces};
ghost use Rattle.card_days.specs.Plans.{day_pieces, count_of};

use super::Days;
use crate::bytes::{counter_after, read_two};
use card_model::lengths::{DAY_HEAD, DAY_LEAST, DAY_MOST};
use tach_media::{Failed, Medium, Plan};

/// The writes of a call: two drops of two, and a day of five.
pub type Writing = Plan<9, 12>;

/// The two bytes of a number.
pub fn two_bytes(n: u32) -> [u8; 2]
    requires { n < 65536 }
    ensures { result ≡ two_bytes n }
{
    [(n / 256) as u8, (n % 256) as u8]
}

/// A number as the length of a day that goes, which counts the least of a day where it is none.
fn dropped_len(n: u32) -> u32
    ensures len { result ≡ dropped_len n }
    ensures even { result % 2 ≡ 0 }
    ensures least { DAY_LEAST ≤ result }
    ensures most { result ≤ DAY_MOST }
{
    if n % 2 == 0 && DAY_LEAST <= n && n <= DAY_MOST {
        n
    } else {
        DAY_LEAST
    }
}

impl Days {
    /// The length of the newest day, 0 without one.
    pub(crate) fn newest_len(&self) -> u32
        ensures len { result ≡ newest_len self.now }
        ensures even { result % 2 ≡ 0 }
        ensures most { result ≤ DAY_MOST }
    {
        if self.tail.used == 0 {
            0
        } else {
            DAY_HEAD + 2 * self.tail.head.words as u32
        }
    }

    /// The place behind the newest day.
    pub(crate) fn end(&self) -> u32
        ensures place { result ≡ end_of self.now }
        ensures pointer { IsPointer self.now.shape.size result }
        ensures two { result + 2 ≤ self.now.shape.size }
    {
        self.circle.spot(self.tail.head.place, self.newest_len())
    }

    /// Where the oldest day begins, if the days have so many bytes.
    pub(crate) fn oldest(&self, used: u32) -> u32
        requires most { used ≤ self.now.shape.size }
        requires even { used % 2 ≡ 0 }
        ensures place { result ≡ oldest_at self.now used }
        ensures pointer { IsPointer self.now.shape.size result }
        ensures two { result + 2 ≤ self.now.shape.size }
    {
        self.circle.spot(self.end(), self.circle.size() - used)
    }

    /// No write on the string yet.
    pub(crate) fn writing(&self) -> Writing
        ensures { result ≡ none self.now.shape.base (self.now.shape.base + (4 + self.now.shape.size)) }
    {
        let base = self.circle.base();
        Writing::new(base, base + (4 + self.circle.size()))
    }

    /// Adds a write on the string.
    pub(crate) fn plan_at(&self, plan: &mut Writing, place: u32, bytes: &[u8])
        requires from { plan.old.from ≡ self.now.shape.base }
        requires end { plan.old.end ≡ self.now.shape.base + (4 + self.now.shape.size) }
        requires room { length plan.old.pieces < 9 }
        requires some { 0 < length bytes.now }
        requires short { length bytes.now ≤ 12 }
        requires inside { place + length bytes.now ≤ self.now.shape.size }
        ensures { plan.new ≡ more plan.old (piece (at self.now.shape place) bytes.now ∷ []) }
    {
        plan.put(self.circle.base() + 4 + place, bytes);
    }

    /// Adds the write of a number on the string.
    pub(crate) fn plan_two(&self, plan: &mut Writing, place: u32, n: u32)
        requires from { plan.old.from ≡ self.now.shape.base }
        requires end { plan.old.end ≡ self.now.shape.base + (4 + self.now.shape.size) }
        requires room { length plan.old.pieces < 9 }
        requires inside { place + 2 ≤ self.now.shape.size }
        requires low { n < 65536 }
        ensures { plan.new ≡ more plan.old (piece (at self.now.shape place) (two_bytes n) ∷ []) }
    {
        self.plan_at(plan, place, &two_bytes(n));
    }

    /// Adds a drop of the oldest day, after which so many bytes are in use.
    fn plan_drop(&self, plan: &mut Writing, left: u32)
        requires from { plan.old.from ≡ self.now.shape.base }
        requires end { plan.old.end ≡ self.now.shape.base + (4 + self.now.shape.size) }
        requires room { length plan.old.pieces < 8 }
        requires most { left ≤ self.now.shape.size }
        requires even { left % 2 ≡ 0 }
        ensures { plan.new ≡ more plan.old (piece self.now.shape.base (two_bytes (oldest_at self.now left)) ∷ piece
            (at self.now.shape (oldest_at self.now left)) (two_bytes 0) ∷ []) }
    {
        let oldest = self.oldest(left);
        plan.put(self.circle.base(), &two_bytes(oldest));
        self.plan_two(plan, oldest, 0);
    }

    /// Adds the drop of the oldest day, where these and so many bytes more do not fit: how many are in use then.
    pub(crate) fn make_room<M: Medium>(
        &self,
        medium: &mut M,
        plan: &mut Writing,
        used: u32,
        new: u32,
    ) -> Result<u32, Failed>
        requires fits { FileFitsIn self.now.shape (M.state medium.old) }
        requires from { plan.old.from ≡ self.now.shape.base }
        requires end { plan.old.end ≡ self.now.shape.base + (4 + self.now.shape.size) }
        requires room { length plan.old.pieces < 8 }
        requires most { used ≤ self.now.shape.size }
        requires even { used % 2 ≡ 0 }
        requires new { new ≤ 16 }
        ensures left { IfOk result (λ n. IfSome (M.state medium.old).image (λ x. n ≡ left_in self.now new x used)) }
        ensures plan { IfOk result (λ n. plan.new ≡ more plan.old (drop_pieces self.now used n)) }
        ensures even { IfOk result (λ n. n % 2 ≡ 0) }
        ensures less { IfOk result (λ n. n ≤ used) }
        ensures kept { IfOk result (λ n. used + new ≤ self.now.shape.size → n ≡ used) }
        ensures gone { IfOk result (λ n. self.now.shape.size < used + new → n + 14 ≤ used) }
        ensures looks { OnOk result (Looks (M.state medium.old) (M.state medium.new)) }
        ensures failed { OnErr result (Reads (M.state medium.old) (M.state medium.new) true) }
    {
        let size = self.circle.size();
        if used + new <= size {
            return Ok(used);
        }
        let field = self.circle.spot(self.oldest(used), 2);
        let n = read_two(medium, self.circle.base() + 4 + field)?;
        let left = used - dropped_len(n);
        self.plan_drop(plan, left);
        Ok(left)
    }

    /// Adds a word behind the newest day, and the length that counts it.
    pub(crate) fn plan_word(&self, plan: &mut Writing, word: u16)
        requires from { plan.old.from ≡ self.now.shape.base }
        requires end { plan.old.end ≡ self.now.shape.base + (4 + self.now.shape.size) }
        requires room { length plan.old.pieces < 8 }
        ensures { plan.new ≡ more plan.old (word_pieces self.now word) }
    {
        let field = self.circle.spot(self.tail.head.place, 2);
        self.plan_two(plan, self.end(), word as u32);
        self.plan_two(plan, field, self.newest_len() + 2);
    }

    /// Adds bytes on the string, round its end.
    fn plan_round(&self, plan: &mut Writing, place: u32, bytes: &[u8])
        requires from { plan.old.from ≡ self.now.shape.base }
        requires end { plan.old.end ≡ self.now.shape.base + (4 + self.now.shape.size) }
        requires room { length plan.old.pieces < 8 }
        requires pointer { IsPointer self.now.shape.size place }
        requires some { 0 < length bytes.now }
        requires short { length bytes.now ≤ 12 }
        ensures plan { plan.new ≡ more plan.old (round_pieces self.now.shape place bytes.now) }
        ensures length { length plan.new.pieces ≤ length plan.old.pieces + 2 }
    {
        let room = (self.circle.size() - place) as usize;
        if bytes.len() <= room {
            self.plan_at(plan, place, bytes);
            return;
        }
        self.plan_at(plan, place, &bytes[..room]);
        self.plan_at(plan, 0, &bytes[room..]);
    }

    /// Adds the newest pointer, where it differs.
    fn plan_pointer(&self, plan: &mut Writing, place: u32)
        requires from { plan.old.from ≡ self.now.shape.base }
        requires end { plan.old.end ≡ self.now.shape.base + (4 + self.now.shape.size) }
        requires room { length plan.old.pieces < 9 }
        requires pointer { IsPointer self.now.shape.size place }
        ensures { plan.new ≡ more plan.old (pointer_pieces self.now.shape self.now.tail.head.place place) }
    {
        if self.tail.head.place == place {
            return;
        }
        plan.put(self.circle.base() + 2, &two_bytes(place));
    }

    /// Adds a day behind the newest: the length before it, its body, its length, and the newest pointer.
    pub(crate) fn plan_day(&self, plan: &mut Writing, bytes: &[u8])
        requires from { plan.old.from ≡ self.now.shape.base }
        requires end { plan.old.end ≡ self.now.shape.base + (4 + self.now.shape.size) }
        requires room { length plan.old.pieces < 5 }
        requires some { 0 < length bytes.now }
        requires short { length bytes.now ≤ 12 }
        ensures { plan.new ≡ more plan.old (day_pieces self.now bytes.now) }
    {
        let place = self.end();
        self.plan_two(plan, place, self.newest_len());
        self.plan_round(plan, self.circle.spot(place, 4), bytes);
        self.plan_two(plan, self.circle.spot(place, 2), 4 + bytes.len() as u32);
        self.plan_pointer(plan, place);
    }

    /// The counter of the next day.
    pub(crate) fn next_counter(&self) -> u32
        ensures counter { result ≡ count_of self.now }
        ensures most { result ≤ 9999 }
    {
        if self.tail.used == 0 {
            1
        } else {
            counter_after(self.tail.head.counter.0 as u32)
        }
    }
}
