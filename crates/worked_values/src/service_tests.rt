ghost use Rattle.std.specs.declared.option.Option.TheVariants.{None as Untold};

use link_session::{Peer, ServeFault, serve};
use std::alloc::{AllocError, Global};
use std::process::Abort;
use std::test::*;
use tach_media::{AbsentMedium, Failed, MemSink, MemSource, Sink, Source};
use unit_model::layout::IMAGE_SIZE;

/// From the start of communication to its end, with a request before the upload, an unknown service, one that is too
/// short, a wrong sum, and a frame of no length.
const HEARD: [u8; 73] = [
    0x81, 0xEE, 0xF0, 0x81, 0xE0, 0x80, 0xEE, 0xF0, 0x02, 0x36, 0x01, 0x97, 0x80, 0xEE, 0xF0, 0x02,
    0x10, 0x81, 0xF1, 0x80, 0xEE, 0xF0, 0x0A, 0x35, 0x00, 0x00, 0x00, 0x00, 0x00, 0xFF, 0xFF, 0xFF,
    0xFF, 0x99, 0x80, 0xEE, 0xF0, 0x01, 0x27, 0x86, 0x80, 0xEE, 0xF0, 0x01, 0x36, 0x95, 0x80, 0xEE,
    0xF0, 0x01, 0x82, 0xE2, 0x80, 0xEE, 0xF0, 0x00, 0x5E, 0x80, 0xEE, 0xF0, 0x01, 0x37, 0x96, 0x80,
    0xEE, 0xF0, 0x01, 0x82, 0xE1, 0x80, 0xEE, 0xF0, 0x01,
];

/// What is answered to it.
const ANSWERED: [u8; 67] = [
    0x80, 0xF0, 0xEE, 0x03, 0xC1, 0xEA, 0x8F, 0x9B, 0x80, 0xF0, 0xEE, 0x03, 0x7F, 0x36, 0x22, 0x38,
    0x80, 0xF0, 0xEE, 0x02, 0x50, 0x81, 0x31, 0x80, 0xF0, 0xEE, 0x03, 0x75, 0x00, 0xFF, 0xD5, 0x80,
    0xF0, 0xEE, 0x03, 0x7F, 0x27, 0x11, 0x18, 0x80, 0xF0, 0xEE, 0x03, 0x7F, 0x36, 0x13, 0x29, 0x80,
    0xF0, 0xEE, 0x03, 0x7F, 0x82, 0x10, 0x72, 0x80, 0xF0, 0xEE, 0x01, 0x77, 0xD6, 0x80, 0xF0, 0xEE,
    0x01, 0xC2, 0x21,
];

/// A source that gives so many of these bytes at a time, and tells nothing.
#[derive(Drop)]
struct Pieces {
    piece: usize,
    at: usize,
}

impl Source for Pieces {
    ghost left = { λ _. Untold };

    ghost faults = { λ _. 0 };

    fn read(&mut self, buf: &mut [u8]) -> Result<usize, Failed> {
        let rest = &HEARD[self.at.min(HEARD.len())..];
        let count = self.piece.min(rest.len()).min(buf.len());
        buf[..count].copy_from_slice(&rest[..count]);
        self.at = self.at.saturating_add(count);
        Ok(count)
    }
}

impl<K: Sink> Peer<K> for Pieces {
    ghost asked = { λ _. Untold };

    fn read_after(&mut self, buf: &mut [u8], _sink: &K) -> Result<usize, Failed> {
        self.read(buf)
    }
}

/// A loader that sends its next byte only where the sink holds the answers to those before it: after so many bytes, so
/// many.
#[derive(Drop)]
struct Loader {
    at: usize,
}

impl Source for Loader {
    ghost left = { λ _. Untold };

    ghost faults = { λ _. 0 };

    fn read(&mut self, buf: &mut [u8]) -> Result<usize, Failed> {
        let rest = &HEARD[self.at.min(HEARD.len())..];
        let count = rest.len().min(buf.len()).min(1);
        buf[..count].copy_from_slice(&rest[..count]);
        self.at = self.at.saturating_add(count);
        Ok(count)
    }
}

/// After which of the bytes an answer is due, and how many bytes the answers have then.
const DUE: [(usize, usize); 3] = [(5, 8), (12, 16), (19, 23)];

impl Peer<MemSink> for Loader {
    ghost asked = { λ _. Untold };

    fn read_after(&mut self, buf: &mut [u8], sink: &MemSink) -> Result<usize, Failed> {
        for (came, answered) in DUE {
            if self.at >= came && sink.held().len() < answered {
                return Ok(0);
            }
        }
        self.read(buf)
    }
}

/// A service of this source over a unit that is not there: it ends well, and all is answered.
fn answers_all<S: Peer<MemSink>>(
    rt: &impl Abort,
    alloc: Global,
    source: &mut S,
) -> Result<(), AllocError> {
    let mut unit = AbsentMedium::new(IMAGE_SIZE);
    let mut sink = MemSink::new(Vec::with_capacity(alloc, 100)?, Vec::new(alloc));
    assert_eq!(rt; serve(source, &mut sink, &mut unit), Ok(()));
    assert_eq!(rt; sink.held(), &ANSWERED[..]);
    Ok(())
}

#[test]
fn a_loader_that_waits_is_answered(rt: HostRuntime) -> Result<(), Fail> {
    answers_all(&rt, rt.alloc(), &mut Loader { at: 0 })?;
    Ok(())
}

#[test]
fn answers_in_any_pieces(rt: HostRuntime) -> Result<(), Fail> {
    for piece in [1, 2, 7, 255] {
        answers_all(&rt, rt.alloc(), &mut Pieces { piece, at: 0 })?;
    }
    Ok(())
}

/// These bytes, in a vector with the room for them alone.
fn copied(alloc: Global, bytes: &[u8]) -> Result<Vec<u8>, AllocError> {
    let mut list = Vec::with_capacity(alloc, bytes.len())?;
    list.extend_from_slice(bytes)?;
    Ok(list)
}

/// These numbers.
fn listed(alloc: Global, numbers: &[u64]) -> Result<Vec<u64>, AllocError> {
    let mut list = Vec::new(alloc);
    list.extend_from_slice(numbers)?;
    Ok(list)
}

/// What a service is given: these bytes, the calls of the source and of the sink that fail, each counted from 0, and so
/// much room in the sink.
#[derive(Clone, Copy)]
struct Given<'a> {
    bytes: &'a [u8],
    source_fails: &'a [u64],
    sink_fails: &'a [u64],
    room: usize,
}

/// A service over a unit that is not there: how it ends, and what the sink holds.
fn served(alloc: Global, given: &Given) -> Result<(Result<(), ServeFault>, MemSink), AllocError> {
    let mut unit = AbsentMedium::new(IMAGE_SIZE);
    let bytes = copied(alloc, given.bytes)?;
    let mut source = MemSource::new(bytes, listed(alloc, given.source_fails)?);
    let room = Vec::with_capacity(alloc, given.room)?;
    let mut sink = MemSink::new(room, listed(alloc, given.sink_fails)?);
    let ended = serve(&mut source, &mut sink, &mut unit);
    Ok((ended, sink))
}

/// The service ends so, and the sink holds so many of the answers.
fn serves_so(
    rt: &impl Abort,
    alloc: Global,
    given: &Given,
    ends: Result<(), ServeFault>,
    count: usize,
) -> Result<(), AllocError> {
    let (ended, sink) = served(alloc, given)?;
    assert_eq!(rt; ended, ends);
    assert_eq!(rt; sink.held(), &ANSWERED[..count.min(ANSWERED.len())]);
    Ok(())
}

/// All that was heard, with a sink that has room for the answers.
const ALL: Given = Given {
    bytes: &HEARD,
    source_fails: &[],
    sink_fails: &[],
    room: 100,
};

#[test]
fn serves_a_source_to_its_end(rt: HostRuntime) -> Result<(), Fail> {
    serves_so(&rt, rt.alloc(), &ALL, Ok(()), ANSWERED.len())?;
    Ok(())
}

#[test]
fn a_full_sink_ends_the_service(rt: HostRuntime) -> Result<(), Fail> {
    let full = Given { room: 10, ..ALL };
    serves_so(&rt, rt.alloc(), &full, Err(ServeFault::WriteFault), 10)?;
    Ok(())
}

/// The third answer fails: the two before it were written.
#[test]
fn a_failed_sink_ends_the_service(rt: HostRuntime) -> Result<(), Fail> {
    let failed = Given {
        sink_fails: &[2],
        ..ALL
    };
    serves_so(&rt, rt.alloc(), &failed, Err(ServeFault::WriteFault), 16)?;
    Ok(())
}

/// What came before the source failed is answered.
#[test]
fn a_failed_source_ends_the_service(rt: HostRuntime) -> Result<(), Fail> {
    let late = Given {
        source_fails: &[1],
        ..ALL
    };
    serves_so(
        &rt,
        rt.alloc(),
        &late,
        Err(ServeFault::ReadFault),
        ANSWERED.len(),
    )?;
    let early = Given {
        source_fails: &[0],
        ..ALL
    };
    serves_so(&rt, rt.alloc(), &early, Err(ServeFault::ReadFault), 0)?;
    Ok(())
}

/// A request of the overview behind the first frames: the unit is called at it and not before, and it is not there.
#[test]
fn a_unit_is_called_where_it_is_asked(rt: HostRuntime) -> Result<(), Fail> {
    let mut bytes = copied(rt.alloc(), &HEARD[..34])?;
    bytes.extend_from_slice(&[0x80, 0xEE, 0xF0, 0x02, 0x36, 0x01, 0x97])?;
    let asked = Given {
        bytes: bytes.as_slice(),
        ..ALL
    };
    serves_so(&rt, rt.alloc(), &asked, Err(ServeFault::Failed), 31)?;
    Ok(())
}
