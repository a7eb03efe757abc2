//! A sink whose other end relies on what it reads.
ghost use Rattle.std.specs.Prelude.{List};
ghost use Rattle.std.specs.declared.option.Option.{Option};
ghost use Rattle.std.specs.Io.{WritesAtMost};
ghost use Rattle.tach_media.specs.Streams.{CountsFaults, Takes};
ghost use Rattle.live_telling.specs.Telling.{Telling, Tells, clocks_of};

use std::io::Write;
use tach_media::{Chip, Failed, Medium, MemSink, Sink, StdSink};

/// A sink whose other end relies on what it reads, as whoever watches a recorder does. It tells how far the clocks of
/// the unit and of both cards had come at each write, where it knows.
pub trait Teller<U: Medium, C: Chip>: Sink {
    ghost told: { Self → Option (List Telling) };

    /// Takes bytes from the front of `piece`, while the devices stand so: one at least where it is not empty. A failed
    /// call takes nothing.
    fn write_beside(
        &mut self,
        piece: &[u8],
        unit: &U,
        card_a: &C,
        card_b: &C,
    ) -> Result<usize, Failed>
        ensures bound { WritesAtMost result piece.now }
        ensures bytes { Takes (Self.held self.old) (Self.held self.new) result piece.now }
        ensures cause { CountsFaults (Self.faults self.old) (Self.faults self.new) result }
        ensures told { Tells (told self.old) (told self.new)
            (clocks_of (U.state unit.now) (C.state card_a.now) (C.state card_b.now)) result piece.now };
}

impl<W: Write, U: Medium, C: Chip> Teller<U, C> for StdSink<W> {
    ghost use Rattle.std.specs.declared.option.Option.TheVariants.{None as Untold};

    ghost told = { λ _. Untold };

    fn write_beside(
        &mut self,
        piece: &[u8],
        _unit: &U,
        _card_a: &C,
        _card_b: &C,
    ) -> Result<usize, Failed> {
        self.write(piece)
    }
}

impl<U: Medium, C: Chip> Teller<U, C> for MemSink {
    ghost use Rattle.std.specs.declared.option.Option.TheVariants.{None as Untold};

    ghost told = { λ _. Untold };

    fn write_beside(
        &mut self,
        piece: &[u8],
        _unit: &U,
        _card_a: &C,
        _card_b: &C,
    ) -> Result<usize, Failed> {
        self.write(piece)
    }
}
