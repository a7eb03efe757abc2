//! Where the frames of a download go, whether or not they are listed.
ghost use Rattle.std.specs.Prelude.{◌≡◌, ◌<◌, ◌+◌, ◌^◌, ℕ, List, [], ◌∷◌, OnOk, OnErr};
ghost use Rattle.std.specs.declared.option.Option.{Option};
ghost use Rattle.unit_download.specs.declared.wire.Passed.{Passed as Each};
ghost use Rattle.unit_download.specs.Tapes.{HasMore};

use link_frames::{End, Frame};
use tach_media::Memory;

/// Takes the frames that pass. It tells which it has, where it keeps them.
pub trait Tape {
    ghost frames: { Self → Option (List Each) };

    /// How many it was given.
    ghost count: { Self → ℕ };

    /// Adds a frame of this sender.
    ///
    /// # Errors
    ///
    /// `Memory`; it has what it had.
    fn push(&mut self, from: End, frame: Frame) -> Result<(), Memory>
        ensures ok { OnOk result (HasMore (frames self.old) (frames self.new)
            (record { from = from; frame = frame } ∷ [])) }
        ensures err { OnErr result (frames self.new ≡ frames self.old) }
        ensures more { OnOk result (count self.new ≡ count self.old + 1) }
        // A number of 64 bits counts them.
        ensures few { OnOk result (count self.old < 2 ^ 64) };
}

/// Frames that nobody asks for: each is counted, and let go.
#[derive(Drop)]
pub struct Unlisted {
    count: u64,
}

impl Unlisted {
    /// None has passed.
    pub fn new() -> Unlisted
        ensures { result ≡ record { count = 0 } }
    {
        Unlisted { count: 0 }
    }
}

impl Tape for Unlisted {
    ghost use Rattle.std.specs.Prelude.{None};

    ghost frames = { λ u. None };

    ghost count = { λ u. u.count };

    fn push(&mut self, _from: End, _frame: Frame) -> Result<(), Memory> {
        match self.count.checked_add(1) {
            Some(count) => {
                self.count = count;
                Ok(())
            }
            None => Err(Memory),
        }
    }
}
