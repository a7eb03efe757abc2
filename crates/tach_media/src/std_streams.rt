//! Readers and writers of the library as sources and sinks.
ghost use Rattle.std.specs.Prelude.{◌≡◌, ◌<◌, length, take, IfOk, OnErr};
ghost use Rattle.std.specs.Io.{ReadsAtMost, WritesAtMost};
ghost use Rattle.std.specs.Io.KnownBytes.{Appends, Consumes, IsAtEnd, Keeps};

use crate::{Failed, Sink, Source};
use std::io;
use std::io::{Error, ErrorKind, Read, Write};

/// A reader, as standard input, as a source. It tells what is left where the reader does; standard input tells nothing.
/// A read that a signal interrupts is no fault, and is made again.
#[derive(Drop)]
pub struct StdSource<R: Read> {
    inner: R,
    faults: u64,
}

impl<R: Read> StdSource<R> {
    /// A source of what this reader gives; no call has failed.
    pub fn new(inner: R) -> Self
        ensures left { ⟦<StdSource<R> as Source>⟧.left result ≡ R.remaining inner }
        ensures faults { ⟦<StdSource<R> as Source>⟧.faults result ≡ 0 }
    {
        StdSource { inner, faults: 0 }
    }
}

impl<R: Read> Source for StdSource<R> {
    ghost left = { λ s. R.remaining s.inner };

    ghost faults = { λ s. s.faults };

    fn read(&mut self, buf: &mut [u8]) -> Result<usize, Failed> {
        match read_again(&mut self.inner, buf) {
            Ok(count) => Ok(count),
            Err(_) => {
                self.faults = self.faults.saturating_add(1);
                Err(Failed)
            }
        }
    }
}

/// A writer, as standard output, as a sink. It tells what it holds where the writer does; standard output tells
/// nothing. A write that a signal interrupts is no fault, and is made again.
#[derive(Drop)]
pub struct StdSink<W: Write> {
    inner: W,
    faults: u64,
}

impl<W: Write> StdSink<W> {
    /// A sink that hands all to this writer; no call has failed.
    pub fn new(inner: W) -> Self
        ensures held { ⟦<StdSink<W> as Sink>⟧.held result ≡ W.contents inner }
        ensures faults { ⟦<StdSink<W> as Sink>⟧.faults result ≡ 0 }
    {
        StdSink { inner, faults: 0 }
    }
}

impl<W: Write> Sink for StdSink<W> {
    ghost held = { λ s. W.contents s.inner };

    ghost faults = { λ s. s.faults };

    fn write(&mut self, piece: &[u8]) -> Result<usize, Failed> {
        match write_again(&mut self.inner, piece) {
            Ok(0) if !piece.is_empty() => {
                self.faults = self.faults.saturating_add(1);
                Err(Failed)
            }
            Ok(count) => Ok(count),
            Err(_) => {
                self.faults = self.faults.saturating_add(1);
                Err(Failed)
            }
        }
    }
}

/// One read, made again where a signal interrupts it.
fn read_again<R: Read>(reader: &mut R, buf: &mut [u8]) -> io::Result<usize>
    ensures bound { ReadsAtMost result buf.new }
    ensures ok { IfOk result (λ n. Consumes (R.remaining reader.old) (R.remaining reader.new) (take n buf.new)) }
    ensures end { IfOk result (λ n. n ≡ 0 → 0 < length buf.new → IsAtEnd (R.remaining reader.new)) }
    ensures err { OnErr result (Keeps (R.remaining reader.old) (R.remaining reader.new)) }
{
    for _turn in 0..u64::MAX {
        match reader.read(buf) {
            Ok(count) => return Ok(count),
            Err(error) => {
                if error.kind() != ErrorKind::Interrupted {
                    return Err(error);
                }
            }
        }
    }
    Err(Error::from(ErrorKind::Interrupted))
}

/// One write, made again where a signal interrupts it.
fn write_again<W: Write>(writer: &mut W, piece: &[u8]) -> io::Result<usize>
    ensures bound { WritesAtMost result piece.now }
    ensures ok { IfOk result (λ n. Appends (W.contents writer.old) (W.contents writer.new) (take n piece.now)) }
    ensures err { OnErr result (Keeps (W.contents writer.old) (W.contents writer.new)) }
{
    for _turn in 0..u64::MAX {
        match writer.write(piece) {
            Ok(count) => return Ok(count),
            Err(error) => {
                if error.kind() != ErrorKind::Interrupted {
                    return Err(error);
                }
            }
        }
    }
    Err(Error::from(ErrorKind::Interrupted))
}
