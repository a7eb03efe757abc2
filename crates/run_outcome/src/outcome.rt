//! What a run tells of itself.
ghost use Rattle.std.specs.Prelude.{◌≡◌, ◌+◌, ◌*◌, ◌≤◌, [], IfOk, OnOk};
ghost use Rattle.trace_model.specs.Trace.{item_seconds, total_seconds};
ghost use Rattle.trace_text.specs.Trace.{IsWellFormed};
ghost use Rattle.trace_text.specs.Line.{InRange};
ghost use Rattle.run_outcome.specs.Room.{offs, is_off, insertions, is_insertion, IsReserved, HasFree, HasLinesOf};

use crate::lines::Lines;
use log_model::{Break, Find, Mark, Refused};
use std::alloc::Global;
use tach_media::Memory;
use trace_text::{Action, Item, Items, Trace};

/// How many entries may be owed to a card at most.
pub const MOST_OWED: usize = 4;

/// How many minutes of a run may wait to be kept at most.
pub const MOST_OWING: usize = 3;

/// How many cards may be torn out at most that sit in a slot or are leaving one.
pub const MOST_FALLEN: usize = 4;

/// How many slots there are: a power-on finds a card in each at most.
pub const SLOTS: usize = 2;

/// The lines of a run, each list in order of time: what the devices have acknowledged, where power was lost or a card
/// torn out, which actions were refused, and what insertions found.
#[derive(Drop)]
pub struct Outcome {
    /// The minutes that devices have acknowledged.
    pub marks: Lines<Mark>,
    /// The seconds in which power was lost or a card torn out.
    pub breaks: Lines<Break>,
    /// The actions that were refused.
    pub refused: Lines<Refused>,
    /// What insertions found, and power-ons of the cards in the slots.
    pub finds: Lines<Find>,
}

impl Outcome {
    /// No line, and room for none; it takes no memory.
    pub fn empty(alloc: Global) -> Outcome
        ensures marks { result.marks ≡ record { items = []; room = 0 } }
        ensures breaks { result.breaks ≡ record { items = []; room = 0 } }
        ensures refused { result.refused ≡ record { items = []; room = 0 } }
        ensures finds { result.finds ≡ record { items = []; room = 0 } }
    {
        Outcome {
            marks: Lines::new(alloc),
            breaks: Lines::new(alloc),
            refused: Lines::new(alloc),
            finds: Lines::new(alloc),
        }
    }

    /// No line, and room for all that a run of this trace can have.
    ///
    /// # Errors
    ///
    /// `Memory` where there is none.
    pub fn reserve(alloc: Global, trace: &Trace) -> Result<Outcome, Memory>
        requires well { IsWellFormed trace.now.start trace.now.items }
        ensures { IfOk result (IsReserved trace.now.items) }
    {
        let minutes = seconds_of(&trace.items) / 60 + 2;
        let cuts = minutes + offs_of(&trace.items);
        let insertions = insertions_of(&trace.items);
        let most_finds = room_for(2 * cuts, insertions)?;
        let marks = Lines::with_room(alloc, marks_for(minutes, most_finds)?)?;
        let breaks = Lines::with_room(alloc, room_for(cuts, insertions)?)?;
        let refused = Lines::with_room(alloc, trace.items.len())?;
        let finds = Lines::with_room(alloc, most_finds)?;
        Ok(Outcome {
            marks,
            breaks,
            refused,
            finds,
        })
    }

    /// Takes room for all that a run that is underway can have of one item more, where so many actions wait for their
    /// second. The lines stay, whatever the answer.
    ///
    /// # Errors
    ///
    /// `Memory` where there is none.
    pub fn make_room(&mut self, item: Item, waiting: usize) -> Result<(), Memory>
        requires item { InRange item }
        ensures lines { HasLinesOf self.old self.new }
        ensures free { OnOk result (HasFree (item_seconds item) waiting self.new) }
    {
        let minutes = item_seconds(item) / 60 + 2;
        let cuts = minutes + 1;
        let breaks = room_for(cuts + MOST_FALLEN, waiting)?;
        let finds = room_for(2 * cuts + SLOTS, waiting)?;
        let marks = marks_for(minutes + MOST_OWING, finds)?;
        self.breaks.make_room(breaks)?;
        self.finds.make_room(finds)?;
        self.marks.make_room(marks)?;
        self.refused.make_room(waiting)
    }
}

// Room for so many lines and so many more, where a list can have as many.
fn room_for(some: usize, more: usize) -> Result<usize, Memory>
    ensures { IfOk result (λ room. room ≡ some + more) }
{
    match some.checked_add(more) {
        Some(room) => Ok(room),
        None => Err(Memory),
    }
}

// Room for the marks of so many minutes, and of what was owed to so many cards that are found.
fn marks_for(minutes: usize, finds: usize) -> Result<usize, Memory>
    requires few { minutes ≤ 576005 }
    ensures { IfOk result (λ room. room ≡ 3 * minutes + MOST_OWED * finds) }
{
    match finds.checked_mul(MOST_OWED) {
        Some(owed) => room_for(3 * minutes, owed),
        None => Err(Memory),
    }
}

// How many seconds these items have.
fn seconds_of(items: &Items) -> usize
    requires few { total_seconds items.now ≤ 34560000 }
    ensures { result ≡ total_seconds items.now }
{
    let mut total = 0;
    for i in 0..items.len() {
        total += item_seconds(*items.get(i));
    }
    total
}

// How many seconds an item has.
fn item_seconds(item: Item) -> usize
    ensures { result ≡ item_seconds item }
{
    match item {
        Item::Run { seconds, .. } | Item::Off { seconds } => seconds as usize,
        Item::Act(_) => 0,
    }
}

// How many of these items are seconds without power.
fn offs_of(items: &Items) -> usize
    ensures { result ≡ offs items.now }
{
    let mut count = 0;
    for i in 0..items.len() {
        if is_off(*items.get(i)) {
            count += 1;
        }
    }
    count
}

// Whether an item is seconds without power.
fn is_off(item: Item) -> bool
    ensures { result ≡ is_off item }
{
    match item {
        Item::Off { .. } => true,
        Item::Run { .. } | Item::Act(_) => false,
    }
}

// How many of these items put a card into a slot.
fn insertions_of(items: &Items) -> usize
    ensures { result ≡ insertions items.now }
{
    let mut count = 0;
    for i in 0..items.len() {
        if is_insertion(*items.get(i)) {
            count += 1;
        }
    }
    count
}

// Whether an item puts a card into a slot.
fn is_insertion(item: Item) -> bool
    ensures { result ≡ is_insertion item }
{
    match item {
        Item::Act(Action::Insert { .. }) => true,
        Item::Run { .. } | Item::Off { .. } | Item::Act(_) => false,
    }
}
