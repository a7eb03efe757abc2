//! The writes that keep a minute.
ghost use Rattle.std.specs.Prelude.{◌≡◌, ◌≤◌, ◌<◌, ◌+◌, ◌*◌, ◌/◌, ◌%◌, ◌∷◌, [], length};
ghost use Rattle.unit_model.specs.declared.layout.TheConstants.{DAY_COUNT, DAY_SLOTS, DAY_WORD_LIMIT};
ghost use Rattle.std.specs.Int.{to_be_bytes, w16};
ghost use Rattle.tach_media.specs.Plan.{more, piece};
ghost use Rattle.unit_model.specs.Image.{slot_place};
ghost use Rattle.unit_model.specs.Changes.{change};
ghost use Rattle.unit_model.specs.Writing.{free_place};
ghost use Rattle.unit_minutes.specs.Coming.{IsComing, changes_to};
ghost use Rattle.unit_minutes.specs.Image.{IsNotes};
ghost use Rattle.unit_minutes.specs.Minute.{further, words_on};
ghost use Rattle.unit_minutes.specs.Plans.{HasRoom, word_pieces, beginning};

use crate::bits::{BARE, SlotBits};
use crate::coming::Coming;
use crate::notes::Notes;
use crate::words::first_bits;
use activity_codec::DAY_MINUTES;
use tach_media::Plan;
use unit_model::layout::{DAY_COUNT, DAY_WORDS, LAST_KEPT, WORD_MINUTES, WORD_SLOT, slot_place};

/// The writes of a minute. On the last-kept minute's day the odometer, at most four words, their count, and the mark;
/// on a further day the odometer, three that close the day before, four of the new slot, two words, their count, and
/// the mark. A slot's beginning has 20 bytes.
pub type Writing = Plan<12, 20>;

/// A slot's state that turns at a minute, as the bits of its word (profile).
#[derive(Clone, Copy)]
pub struct SlotChange {
    pub slot: u32,
    pub minute: u32,
    pub old: u32,
    pub new: u32,
}

/// Adds the word of a slot's state where it differs, behind so many words of a day, and answers how many there are
/// then.
pub fn add_change(plan: &mut Writing, index: u32, count: u32, turned: SlotChange) -> u32
    requires room { HasRoom 1 12 plan.old }
    requires index { index < DAY_SLOTS }
    requires few { count < DAY_WORD_LIMIT }
    requires slot { turned.slot < 2 }
    requires minute { turned.minute < 1440 }
    requires state { turned.new < 16 }
    ensures count { result ≡ count + length (change turned.slot turned.minute turned.old turned.new) }
    ensures plan { plan.new ≡ more plan.old (word_pieces (free_place index count)
        (change turned.slot turned.minute turned.old turned.new)) }
    ensures length { length plan.new.pieces ≤ length plan.old.pieces + 1 }
{
    if turned.old == turned.new {
        return count;
    }
    let word = (WORD_SLOT * turned.slot + WORD_MINUTES * turned.new + turned.minute) as u16;
    plan.put(
        slot_place(index) + DAY_WORDS.place + 2 * count,
        &word.to_be_bytes(),
    );
    count + 1
}

/// Adds the words of both slots.
pub fn add_changes(
    plan: &mut Writing,
    index: u32,
    count: u32,
    minute: u32,
    old: SlotBits,
    new: SlotBits,
) -> u32
    requires room { HasRoom 2 12 plan.old }
    requires index { index < DAY_SLOTS }
    requires few { count + 2 ≤ DAY_WORD_LIMIT }
    requires minute { minute < 1440 }
    requires driver { new.driver < 16 }
    requires codriver { new.codriver < 16 }
    ensures count { result ≡ count + length (changes_to minute old new) }
    ensures plan { plan.new ≡ more plan.old (word_pieces (free_place index count) (changes_to minute old new)) }
    ensures length { length plan.new.pieces ≤ length plan.old.pieces + 2 }
{
    let driver = SlotChange {
        slot: 0,
        minute,
        old: old.driver,
        new: new.driver,
    };
    let codriver = SlotChange {
        slot: 1,
        minute,
        old: old.codriver,
        new: new.codriver,
    };
    let count = add_change(plan, index, count, driver);
    add_change(plan, index, count, codriver)
}

/// Adds the words that a minute brings on the day of the last-kept one, and answers how many there are then.
pub fn add_new(plan: &mut Writing, notes: &Notes, coming: Coming) -> u32
    requires room { HasRoom 4 12 plan.old }
    requires notes { IsNotes notes.now }
    requires order { notes.now.kept % 1440 < coming.minute % 1440 }
    requires coming { IsComing coming }
    ensures count { result ≡ notes.now.count + length (words_on notes.now coming) }
    ensures plan { plan.new ≡ more plan.old
        (word_pieces (free_place notes.now.index notes.now.count) (words_on notes.now coming)) }
    ensures length { length plan.new.pieces ≤ length plan.old.pieces + 4 }
{
    let index = notes.index;
    let next = notes.kept % DAY_MINUTES + 1;
    let minute = coming.minute % DAY_MINUTES;
    if next == minute {
        return add_changes(plan, index, notes.count, minute, notes.bits, coming.bits);
    }
    let count = add_changes(plan, index, notes.count, next, notes.bits, BARE);
    add_changes(plan, index, count, minute, BARE, coming.bits)
}

/// Adds the count of a day's words.
pub fn add_count(plan: &mut Writing, index: u32, count: u32)
    requires room { HasRoom 1 12 plan.old }
    requires index { index < DAY_SLOTS }
    requires few { count ≤ DAY_WORD_LIMIT }
    ensures { plan.new ≡ more plan.old (piece (slot_place index + DAY_COUNT.place) (to_be_bytes w16 count) ∷ []) }
{
    plan.put(
        slot_place(index) + DAY_COUNT.place,
        &(count as u16).to_be_bytes(),
    );
}

/// Adds the writes of a new day behind its `add`, and answers how many words it has then.
pub fn add_further(plan: &mut Writing, index: u32, coming: Coming) -> u32
    requires room { HasRoom 4 12 plan.old }
    requires index { index < DAY_SLOTS }
    requires coming { IsComing coming }
    ensures count { result ≡ 2 + length (further coming) }
    ensures plan { plan.new ≡ more plan.old (beginning index coming) }
    ensures length { length plan.new.pieces ≤ length plan.old.pieces + 4 }
{
    let now = coming.minute % DAY_MINUTES;
    let first = first_bits(now, coming.bits);
    let count = add_changes(plan, index, 2, now, first, coming.bits);
    add_count(plan, index, count);
    plan.put(LAST_KEPT.place, &coming.minute.to_be_bytes());
    count
}
