//! A trace: its first second and its items, and how the text of one can be wrong.
ghost use Rattle.std.specs.Prelude.{◌≡◌, ◌==◌, ◌<◌, [], ◌∷◌, ◌++◌, OnOk, OnErr, length, slice_get, Some};
ghost use Rattle.trace_text.specs.Line.{knows};

use std::alloc::Global;
use std::marker::Model;
use tach_media::Memory;
use trace_model::{Action, Item};

/// Which lines may follow the `start` line.
#[derive(Clone, Copy, Debug, PartialEq, Eq)]
pub enum Form {
    /// `run` and `select`.
    Minutes,
    /// All that a run can have: `run`, `off` and all actions.
    Whole,
}

impl Form {
    /// Whether a line of this kind is one of the form's.
    pub fn has(self, item: Item) -> bool
        ensures { result ≡ knows self item }
    {
        match (self, item) {
            (Form::Whole, Item::Run { .. } | Item::Off { .. }) => true,
            (Form::Whole, Item::Act(_)) => true,
            (Form::Minutes, Item::Run { .. } | Item::Act(Action::Select { .. })) => true,
            (Form::Minutes, Item::Off { .. } | Item::Act(_)) => false,
        }
    }
}

/// A list of items.
#[derive(Drop)]
pub struct Items {
    list: Vec<Item>,
}

impl Model for Items {
    ghost use Rattle.std.specs.Prelude.{List};
    ghost use Rattle.trace_model.specs.declared.Item.{Item as Each};

    ghost Value = { List Each };

    ghost view = { λ s. s.list.items };
}

impl Items {
    /// The empty list, which takes no memory.
    pub fn new(alloc: Global) -> Self
        ensures { result ≡ [] }
    {
        Items {
            list: Vec::new(alloc),
        }
    }

    /// Adds an item at the end.
    ///
    /// # Errors
    ///
    /// `Memory` where there is none; the list stays as it was.
    pub fn push(&mut self, item: Item) -> Result<(), Memory>
        ensures ok { OnOk result (self.new ≡ self.old ++ item ∷ []) }
        ensures err { OnErr result (self.new ≡ self.old) }
    {
        if self.list.push(item).is_err() {
            return Err(Memory);
        }
        Ok(())
    }

    /// How many items it has.
    pub fn len(&self) -> usize
        ensures { result ≡ length self.now }
    {
        self.list.len()
    }

    /// Whether it has none.
    pub fn is_empty(&self) -> bool
        ensures { result ≡ (length self.now == 0) }
    {
        self.list.is_empty()
    }

    /// The item at an index.
    pub fn get(&self, index: usize) -> &Item
        requires { index < length self.now }
        ensures { slice_get self.now index ≡ Some result.now }
    {
        &self.list[index]
    }
}

/// A trace. The seconds that are put in, where no run follows actions before the next `off` or the end, are among its
/// items.
#[derive(Drop)]
pub struct Trace {
    /// The first second, in seconds since 1970-01-01 00:00 GMT: 86400 to 4294880895.
    pub start: u32,
    /// What follows the `start` line.
    pub items: Items,
}

/// Why no trace was read.
#[derive(Clone, Copy, Debug, PartialEq, Eq)]
pub enum TraceFault {
    /// The source failed.
    ReadFault,
    /// This line, from 1, is the first outside the grammar.
    BadLine(u32),
    /// At this line, from 1, a limit is passed first; 0 where the source has more than 16777216 bytes.
    TooLong(u32),
    /// Out of memory.
    Memory,
}

impl From<Memory> for TraceFault {
    ghost use Rattle.std.specs.Prelude.{◌≡◌};
    ghost use Rattle.trace_text.specs.declared.lines_trace.TraceFault.{TraceFault};

    ghost from_gives = { λ _ fault. fault ≡ TraceFault.Memory };

    fn from(_memory: Memory) -> TraceFault {
        TraceFault::Memory
    }
}
