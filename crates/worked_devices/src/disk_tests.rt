//! Writes over a border of two sectors, on a disk in memory. Each write of the disk that they take is cut at each byte;
//! opened again the memory is the old or the new one. So it is where the record behind it is of an earlier write, and
//! where the next write is cut too.
ghost use Rattle.std.specs.Prelude.{◌≤◌, length};

use sector_medium::{Cut, MemDisk, RedoMedium};
use std::alloc::Global;
use std::process::Abort;
use std::rt::HostRuntime;
use std::test::Fail;
use tach_media::{Failed, Medium};

/// How many bytes the memory has: two borders of sectors lie in it, and one at its end.
const SIZE: u32 = 1537;

/// The bytes that are written, at most so many. None of them stands there before.
const BYTES: [u8; 4] = [0xF1, 0xF2, 0xF3, 0xF4];

/// A write of at most four bytes.
#[derive(Clone, Copy, Debug, PartialEq, Eq)]
struct Write {
    place: u32,
    len: usize,
}

/// How a write ended: what a memory that is opened again has then, whether it was done, and how many writes of the disk
/// were begun.
#[derive(Drop)]
struct Left {
    bytes: Vec<u8>,
    is_done: bool,
    writes: u64,
}

/// A memory on a disk that has room for it.
fn over(disk: MemDisk) -> Result<RedoMedium<MemDisk>, Fail> {
    if !disk.has_room(SIZE) {
        return Err(Fail::from("no room"));
    }
    Ok(RedoMedium::new(disk, SIZE))
}

/// A disk that has these bytes in front, and is cut so.
fn disk_of(alloc: Global, bytes: &[u8], cut: Option<Cut>) -> Result<MemDisk, Fail> {
    if bytes.len() > 4096 {
        return Err(Fail::from("too long"));
    }
    Ok(MemDisk::new(alloc, bytes, cut)?)
}

/// The memory before any write: each byte tells its place, as far as it can.
fn before(alloc: Global) -> Result<Vec<u8>, Fail> {
    let mut bytes = Vec::new(alloc);
    for place in 0..SIZE {
        bytes.push((place % 241) as u8)?;
    }
    Ok(bytes)
}

/// The memory with a write done.
fn after(alloc: Global, bytes: &[u8], write: Write) -> Result<Vec<u8>, Fail> {
    let mut new = bytes.to_vec(alloc)?;
    for i in 0..write.len.min(4) {
        let at = write.place as usize + i;
        if at < new.len() {
            new[at] = BYTES[i];
        }
    }
    Ok(new)
}

/// All bytes of a memory.
fn bytes_of(alloc: Global, medium: &mut RedoMedium<MemDisk>) -> Result<Vec<u8>, Fail> {
    let mut bytes = vec![in alloc; 0u8; SIZE as usize]?;
    if medium.size() != SIZE || bytes.len() != SIZE as usize {
        return Err(Fail::from("another size"));
    }
    medium.read_at(0, bytes.as_mut_slice())?;
    Ok(bytes)
}

/// Makes a write that lies inside the memory.
fn make(medium: &mut RedoMedium<MemDisk>, write: Write) -> Result<(), Failed> {
    let len = write.len.min(4);
    if medium.size() != SIZE || write.place > SIZE - 4 {
        return Err(Failed);
    }
    medium.write_at(write.place, &BYTES[..len])
}

/// A write on a disk, and what one that is opened again has.
fn left_of(alloc: Global, disk: MemDisk, write: Write) -> Result<Left, Fail> {
    let mut medium = over(disk)?;
    let is_done = make(&mut medium, write).is_ok();
    let writes = medium.disk().writes();
    let mut again = over(medium.disk().again(None)?)?;
    let bytes = bytes_of(alloc, &mut again)?;
    Ok(Left {
        bytes,
        is_done,
        writes,
    })
}

/// The disk that a write leaves which is cut so.
fn cut_disk(alloc: Global, write: Write, cut: Cut) -> Result<MemDisk, Fail> {
    let old = before(alloc)?;
    let mut medium = over(disk_of(alloc, old.as_slice(), Some(cut))?)?;
    let _ = make(&mut medium, write);
    Ok(medium.disk().again(None)?)
}

/// A cut of the write with this number, of which the bytes `from..to` stand.
fn cut_at(write: u64, from: usize, to: usize) -> Cut {
    Cut {
        write,
        from,
        to,
        for_good: true,
    }
}

/// That what is left of a write is the old memory or the new one.
fn is_old_or_new(rt: &impl Abort, left: &Left, old: &[u8], new: &[u8]) {
    assert!(rt; left.bytes.as_slice() == old || left.bytes.as_slice() == new);
}

/// Cuts a write on new disks so: the number of the disk's write, and each front of its bytes and each end.
fn cut_each_way(rt: &(impl Abort + AllocGlobal), write: Write, number: u64) -> Result<(), Fail> {
    let old = before(rt.alloc())?;
    let new = after(rt.alloc(), old.as_slice(), write)?;
    for len in 0..13 {
        for cut in [cut_at(number, 0, len), cut_at(number, len, 12)] {
            let disk = disk_of(rt.alloc(), old.as_slice(), Some(cut))?;
            let left = left_of(rt.alloc(), disk, write)?;
            assert!(rt; !left.is_done);
            is_old_or_new(rt, &left, old.as_slice(), new.as_slice());
        }
    }
    Ok(())
}

/// What a cut has left is opened and written once more, at another border, and that is cut too, within each of the
/// eight writes of the disk that a record which is to be done again makes of it.
fn cut_next(rt: &(impl Abort + AllocGlobal), write: Write, cut: Cut) -> Result<(), Fail> {
    let next = Write {
        place: 1022,
        len: 4,
    };
    let found = left_of(rt.alloc(), cut_disk(rt.alloc(), write, cut)?, NOTHING)?;
    let new = after(rt.alloc(), found.bytes.as_slice(), next)?;
    for number in 0..8 {
        for len in [0, 5] {
            let disk = cut_disk(rt.alloc(), write, cut)?.again(Some(cut_at(number, 0, len)))?;
            let left = left_of(rt.alloc(), disk, next)?;
            is_old_or_new(rt, &left, found.bytes.as_slice(), new.as_slice());
        }
    }
    Ok(())
}

/// A write of no byte, which only does again what is to be.
const NOTHING: Write = Write { place: 0, len: 0 };

/// Cuts a write within each of the five writes of the disk that it takes.
fn cut_write(rt: &(impl Abort + AllocGlobal), write: Write) -> Result<(), Fail> {
    let old = before(rt.alloc())?;
    let new = after(rt.alloc(), old.as_slice(), write)?;
    let whole = left_of(
        rt.alloc(),
        disk_of(rt.alloc(), old.as_slice(), None)?,
        write,
    )?;
    assert_eq!(rt; (whole.is_done, whole.writes), (true, 5));
    assert!(rt; whole.bytes.as_slice() == new.as_slice());
    for number in 0..5 {
        cut_each_way(rt, write, number)?;
        cut_next(rt, write, cut_at(number, 0, 1))?;
    }
    Ok(())
}

#[test]
fn two_bytes_over_a_border(rt: HostRuntime) -> Result<(), Fail> {
    cut_write(&rt, Write { place: 511, len: 2 })
}

#[test]
fn three_bytes_over_a_border(rt: HostRuntime) -> Result<(), Fail> {
    for place in 510..512 {
        cut_write(&rt, Write { place, len: 3 })?;
    }
    Ok(())
}

#[test]
fn four_bytes_over_a_border(rt: HostRuntime) -> Result<(), Fail> {
    for place in 509..512 {
        cut_write(&rt, Write { place, len: 4 })?;
    }
    Ok(())
}

/// The six bytes around a border at the memory's end lie in part behind it.
#[test]
fn four_bytes_up_to_the_end(rt: HostRuntime) -> Result<(), Fail> {
    let old = before(rt.alloc())?;
    let write = Write {
        place: 1533,
        len: 4,
    };
    let whole = left_of(
        rt.alloc(),
        disk_of(rt.alloc(), old.as_slice(), None)?,
        write,
    )?;
    assert_eq!(rt; (whole.is_done, whole.writes), (true, 5));
    let new = after(rt.alloc(), old.as_slice(), write)?;
    assert!(rt; whole.bytes.as_slice() == new.as_slice());
    for number in 0..5 {
        for len in 0..13 {
            let disk = disk_of(rt.alloc(), old.as_slice(), Some(cut_at(number, 0, len)))?;
            let left = left_of(rt.alloc(), disk, write)?;
            is_old_or_new(&rt, &left, old.as_slice(), new.as_slice());
        }
    }
    Ok(())
}

/// A disk with this memory, behind which a record stands that is to write zeros around the first border, in the place
/// of six bytes that do not stand there.
fn disk_with_record(alloc: Global) -> Result<MemDisk, Fail> {
    let mut bytes = before(alloc)?;
    for _ in SIZE..2048 {
        bytes.push(7)?;
    }
    bytes.extend_from_slice(&[0, 0, 0, 1])?;
    bytes.extend_from_slice(&BYTES[..3])?;
    bytes.extend_from_slice(&BYTES[..3])?;
    bytes.extend_from_slice(&[0; 6])?;
    Ok(disk_of(alloc, bytes.as_slice(), None)?)
}

/// A record that does not fit is passed over, and is shut before the first write. Else these would make it fit, and be
/// undone by it.
#[test]
fn a_record_that_does_not_fit(rt: HostRuntime) -> Result<(), Fail> {
    let old = before(rt.alloc())?;
    let mut medium = over(disk_with_record(rt.alloc())?)?;
    let found = bytes_of(rt.alloc(), &mut medium)?;
    assert!(rt; found.as_slice() == old.as_slice());
    let first = Write { place: 509, len: 3 };
    let second = Write { place: 512, len: 3 };
    assert_eq!(rt; make(&mut medium, first), Ok(()));
    assert_eq!(rt; medium.disk().writes(), 2);
    assert_eq!(rt; make(&mut medium, second), Ok(()));
    assert_eq!(rt; medium.disk().writes(), 3);
    let once = after(rt.alloc(), old.as_slice(), first)?;
    let new = after(rt.alloc(), once.as_slice(), second)?;
    let mut again = over(medium.disk().again(None)?)?;
    let found = bytes_of(rt.alloc(), &mut again)?;
    assert!(rt; found.as_slice() == new.as_slice());
    Ok(())
}

/// A failed call that ends no program: the same memory is revived, and goes on.
#[test]
fn a_failed_call_that_goes_on(rt: HostRuntime) -> Result<(), Fail> {
    let old = before(rt.alloc())?;
    let write = Write { place: 511, len: 2 };
    let new = after(rt.alloc(), old.as_slice(), write)?;
    for number in 0..5 {
        let cut = Cut {
            for_good: false,
            ..cut_at(number, 0, 2)
        };
        let mut medium = over(disk_of(rt.alloc(), old.as_slice(), Some(cut))?)?;
        assert_eq!(rt; make(&mut medium, write), Err(Failed));
        assert_eq!(rt; make(&mut medium, write), Err(Failed));
        assert_eq!(rt; medium.revive(), Ok(()));
        assert_eq!(rt; make(&mut medium, write), Ok(()));
        assert_eq!(rt; medium.clock(), 1);
        let found = bytes_of(rt.alloc(), &mut medium)?;
        assert!(rt; found.as_slice() == new.as_slice());
    }
    Ok(())
}
