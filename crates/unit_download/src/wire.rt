//! What passes on the link in a download.
ghost use Rattle.std.specs.Prelude.{◌≡◌, [], length};

use crate::tape::Tape;
use link_frames::{End, Frame};
use std::alloc::Global;
use std::marker::Model;
use tach_media::Memory;

/// A frame that passed, with its sender.
#[derive(Drop)]
pub struct Passed {
    /// The side that sent it.
    pub from: End,
    /// Its data.
    pub frame: Frame,
}

/// The frames that passed, in their order.
#[derive(Drop)]
pub struct Wire {
    list: Vec<Passed>,
}

impl Model for Wire {
    ghost use Rattle.std.specs.Prelude.{List};
    ghost use Rattle.unit_download.specs.declared.wire.Passed.{Passed};

    ghost Value = { List Passed };

    ghost view = { λ w. w.list.items };
}

impl Wire {
    /// Nothing has passed. It takes no memory.
    pub fn new(alloc: Global) -> Wire
        ensures { result ≡ [] }
    {
        Wire {
            list: Vec::new(alloc),
        }
    }

    /// The frames that passed.
    pub fn frames(&self) -> &[Passed]
        ensures { result.now ≡ self.now }
    {
        self.list.as_slice()
    }

    /// How many frames passed.
    pub fn len(&self) -> usize
        ensures { result ≡ length self.now }
    {
        self.list.len()
    }
}

impl Tape for Wire {
    ghost use Rattle.std.specs.Prelude.{Some, length};

    ghost frames = { λ w. Some w };

    ghost count = { λ w. length w };

    fn push(&mut self, from: End, frame: Frame) -> Result<(), Memory> {
        if self.list.push(Passed { from, frame }).is_err() {
            return Err(Memory);
        }
        Ok(())
    }
}
