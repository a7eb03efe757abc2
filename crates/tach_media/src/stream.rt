//! Bytes that come, and where bytes go.
ghost use Rattle.std.specs.Prelude.{ℕ, List};
ghost use Rattle.std.specs.declared.option.Option.{Option};
ghost use Rattle.std.specs.Io.{ReadsAtMost, WritesAtMost};
ghost use Rattle.std.specs.Io.KnownBytes.{ReadConsumes};
ghost use Rattle.tach_media.specs.Streams.{CountsFaults, Takes};

use crate::Failed;

/// Bytes that come, one piece after another. It tells what is left where it knows.
pub trait Source {
    ghost left: { Self → Option (List ℕ) };

    /// How many of its calls have failed.
    ghost faults: { Self → ℕ };

    /// Takes the next bytes. None into a `buf` that is not empty is the end. A failed call takes nothing.
    fn read(&mut self, buf: &mut [u8]) -> Result<usize, Failed>
        ensures bound { ReadsAtMost result buf.new }
        ensures bytes { ReadConsumes (left self.old) (left self.new) result buf.new }
        ensures cause { CountsFaults (faults self.old) (faults self.new) result };
}

/// Where bytes go. It tells what it holds where it knows.
pub trait Sink {
    ghost held: { Self → Option (List ℕ) };

    /// How many of its calls have failed.
    ghost faults: { Self → ℕ };

    /// Takes bytes from the front of `piece`, one at least where it is not empty. A failed call takes nothing.
    fn write(&mut self, piece: &[u8]) -> Result<usize, Failed>
        ensures bound { WritesAtMost result piece.now }
        ensures bytes { Takes (held self.old) (held self.new) result piece.now }
        ensures cause { CountsFaults (faults self.old) (faults self.new) result };
}
