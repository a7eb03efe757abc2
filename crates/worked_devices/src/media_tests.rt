ghost use Rattle.std.specs.Prelude.{◌≡◌, ◌≤◌, ◌+◌, ◌⊎◌, length, OnOk, option_map, is_err};
ghost use Rattle.tach_media.specs.Medium.{IsPartlyWritten, LeavesOnly, HasCause, LiesInside, put};

use std::io;
use std::io::{Cursor, ErrorKind, Read, Write};
use std::test::Fail;
use tach_media::{
    AbsentMedium, Failed, Left, Medium, MemMedium, MemSink, MemSource, SliceMedium, StdSink,
    StdSource, Stop, TakeFault, put_all, take_all,
};

/// A layer above, as an example: a value, and then the mark in front of it that says that it is there. A stop leaves
/// the old mark with whatever stands behind it, or the mark and the value.
fn put_marked<M: Medium>(
    medium: &mut M,
    place: u32,
    mark: &[u8; 4],
    value: &[u8],
) -> Result<(), Failed>
    requires inside { place + 4 + length value.now ≤ (M.state medium.old).size }
    requires writable { LiesInside (M.state medium.old).writable place (4 + length value.now) }
    ensures written { OnOk result ((M.state medium.new).image
        ≡ option_map (λ x. put place mark.now (put (place + 4) value.now x)) (M.state medium.old).image) }
    ensures moments { LeavesOnly (M.state medium.old) (M.state medium.new)
        (λ x c. IsPartlyWritten (place + 4) value.now x c ⊎ (c ≡ put place mark.now (put (place + 4) value.now x))) }
    ensures cause { HasCause (M.state medium.old) (M.state medium.new) (is_err result) }
{
    let _size = medium.size();
    medium.write_at(place + 4, value)?;
    medium.write_at(place, mark)
}

#[test]
fn a_torn_write_is_left_and_revived(rt: HostRuntime) -> Result<(), Fail> {
    let alloc = rt.alloc();
    let stops = vec![in alloc;
        Stop {
            call: 1,
            left: Left::Torn(7)
        },
    ]?;
    let mut medium = MemMedium::new(alloc, vec![in alloc; 0u8; 10]?, 8, 64, stops)?;
    let mut out = [0u8; 6];
    assert!(rt; medium.write_at(1, &[1, 2, 3, 4]).is_ok());
    assert!(rt; medium.write_at(2, &[9, 9, 9, 9, 9]).is_err());
    assert!(rt; medium.read_at(0, &mut out).is_err());
    assert!(rt; medium.revive().is_ok());
    assert!(rt; medium.read_at(0, &mut out).is_ok());
    assert!(rt; out == [0, 1, 7, 7, 7, 7]);
    assert_eq!(rt; medium.clock(), 2);
    assert_eq!(rt; medium.calls(), 4);
    Ok(())
}

#[test]
fn a_mark_stands_before_its_value(rt: HostRuntime) -> Result<(), Fail> {
    let alloc = rt.alloc();
    let mut medium = MemMedium::new(alloc, vec![in alloc; 0u8; 12]?, 2, 12, Vec::new(alloc))?;
    let mut out = [0u8; 10];
    assert!(rt; put_marked(&mut medium, 1, b"mark", b"value").is_ok());
    assert!(rt; (&mut medium).read_at(1, &mut out).is_ok());
    assert!(rt; &out[..9] == b"markvalue".as_slice());
    assert!(rt; SliceMedium::new(&out).read_at(1, &mut [0u8; 9]).is_ok());
    assert!(rt; AbsentMedium::new(12).read_at(0, &mut [0u8]).is_err());
    Ok(())
}

#[test]
fn all_is_taken_and_put(rt: HostRuntime) -> Result<(), Fail> {
    let alloc = rt.alloc();
    let source = Cursor::new(b"minutes of a day");
    let mut taken = StdSource::new(source);
    let text = take_all(alloc, &mut taken, 16)?;
    let mut sink = MemSink::new(Vec::with_capacity(alloc, 20)?, vec![in alloc; 1u64]?);
    assert!(rt; put_all(&mut sink, text.as_slice()).is_ok());
    assert!(rt; put_all(&mut sink, text.as_slice()).is_err());
    assert!(rt; put_all(&mut sink, text.as_slice()).is_err());
    assert!(rt; sink.held() == b"minutes of a dayminu".as_slice());
    let mut copied = StdSink::new(Vec::new(alloc));
    assert!(rt; put_all(&mut copied, text.as_slice()).is_ok());
    let mut short = MemSource::new(text, Vec::new(alloc));
    assert!(rt; take_all(alloc, &mut short, 15) == Err(TakeFault::TooLong));
    Ok(())
}

/// A stream of which a signal interrupts the next so many calls.
#[derive(Drop)]
struct Interrupted<T> {
    inner: T,
    times: u32,
}

impl<T> Interrupted<T> {
    fn interrupt(&mut self) -> io::Result<()> {
        if self.times == 0 {
            return Ok(());
        }
        self.times -= 1;
        Err(io::Error::from(ErrorKind::Interrupted))
    }
}

impl<R: Read> Read for Interrupted<R> {
    fn read(&mut self, buf: &mut [u8]) -> io::Result<usize> {
        self.interrupt()?;
        self.inner.read(buf)
    }
}

impl<W: Write> Write for Interrupted<W> {
    fn write(&mut self, piece: &[u8]) -> io::Result<usize> {
        self.interrupt()?;
        self.inner.write(piece)
    }

    fn flush(&mut self) -> io::Result<()> {
        self.inner.flush()
    }
}

#[test]
fn an_interrupted_call_is_made_again(rt: HostRuntime) -> Result<(), Fail> {
    let alloc = rt.alloc();
    let inner = Cursor::new(b"a line");
    let mut source = StdSource::new(Interrupted { inner, times: 3 });
    let text = take_all(alloc, &mut source, 16)?;
    assert!(rt; text.as_slice() == b"a line".as_slice());
    let mut bytes = Vec::new(alloc);
    let inner = &mut bytes;
    let mut sink = StdSink::new(Interrupted { inner, times: 3 });
    assert!(rt; put_all(&mut sink, b"a line").is_ok());
    assert!(rt; bytes.as_slice() == b"a line".as_slice());
    Ok(())
}
