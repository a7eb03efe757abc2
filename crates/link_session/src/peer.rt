//! A source whose other end waits for answers.
ghost use Rattle.std.specs.Prelude.{List};
ghost use Rattle.std.specs.declared.option.Option.{Option};
ghost use Rattle.std.specs.Io.{ReadsAtMost};
ghost use Rattle.std.specs.Io.KnownBytes.{ReadConsumes};
ghost use Rattle.tach_media.specs.Streams.{CountsFaults};
ghost use Rattle.link_session.specs.Asked.{Asking, Asks};

use std::io::Read;
use tach_media::{Failed, MemSource, Sink, Source, StdSource};

/// A source whose other end sees the sink, as a loader that waits for the answer to what it sent. It tells what the
/// sink held at each read, where it knows.
pub trait Peer<K: Sink>: Source {
    ghost asked: { Self → Option (List Asking) };

    /// Takes the next bytes, while the sink stands so. None into a `buf` that is not empty is the end. A failed call
    /// takes nothing.
    fn read_after(&mut self, buf: &mut [u8], sink: &K) -> Result<usize, Failed>
        ensures bound { ReadsAtMost result buf.new }
        ensures bytes { ReadConsumes (Self.left self.old) (Self.left self.new) result buf.new }
        ensures cause { CountsFaults (Self.faults self.old) (Self.faults self.new) result }
        ensures asked { Asks (asked self.old) (asked self.new) (K.held sink.now) result buf.new };
}

impl<R: Read, K: Sink> Peer<K> for StdSource<R> {
    ghost use Rattle.std.specs.declared.option.Option.TheVariants.{None as Untold};

    ghost asked = { λ _. Untold };

    fn read_after(&mut self, buf: &mut [u8], _sink: &K) -> Result<usize, Failed> {
        self.read(buf)
    }
}

impl<K: Sink> Peer<K> for MemSource {
    ghost use Rattle.std.specs.declared.option.Option.TheVariants.{None as Untold};

    ghost asked = { λ _. Untold };

    fn read_after(&mut self, buf: &mut [u8], _sink: &K) -> Result<usize, Failed> {
        self.read(buf)
    }
}
