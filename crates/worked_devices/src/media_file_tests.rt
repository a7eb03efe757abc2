use sector_medium::{CopyNames, FileDisk, Missing, RedoMedium};
use std::fs;
use std::fs::File;
use std::os::fd::AsRawFd;
use std::os::unix::fs::symlink;
use std::process::Abort;
use std::test::Fail;
use tach_media::{Failed, Medium};

/// Four bytes of a medium.
fn four<M: Medium>(medium: &mut M, place: u32) -> Result<[u8; 4], Failed> {
    let mut out = [9; 4];
    if place > 60 || medium.size() < place + 4 {
        return Err(Failed);
    }
    medium.read_at(place, &mut out)?;
    Ok(out)
}

/// Four bytes of a medium are read, and they are these.
fn reads<M: Medium>(rt: &impl Abort, medium: &mut M, place: u32, wanted: &[u8; 4]) {
    assert_eq!(rt; four(medium, place), Ok(*wanted));
}

/// Four bytes of a medium cannot be read.
fn does_not_read<M: Medium>(rt: &impl Abort, medium: &mut M, place: u32) {
    assert!(rt; medium.size() >= 8 && place <= 4);
    assert_eq!(rt; four(medium, place), Err(Failed));
}

/// Bytes are written at a place of a medium.
fn write(
    medium: &mut RedoMedium<FileDisk<'_, HostRuntime>>,
    place: u32,
    bytes: &[u8],
) -> Result<(), Failed> {
    if place > 60 || bytes.len() > 4 || medium.size() < place + 4 {
        return Err(Failed);
    }
    medium.write_at(place, bytes)
}

/// Bytes can be written at a place of a medium.
fn writes(
    rt: &impl Abort,
    medium: &mut RedoMedium<FileDisk<'_, HostRuntime>>,
    place: u32,
    bytes: &[u8],
) {
    assert_eq!(rt; write(medium, place, bytes), Ok(()));
}

/// Four bytes cannot be written at the front of a medium.
fn does_not_write(
    rt: &impl Abort,
    medium: &mut RedoMedium<FileDisk<'_, HostRuntime>>,
    bytes: &[u8; 4],
) {
    assert!(rt; medium.size() >= 8);
    assert_eq!(rt; write(medium, 0, bytes), Err(Failed));
}

/// A medium works again.
fn revives<M: Medium>(rt: &impl Abort, medium: &mut M) {
    assert_eq!(rt; medium.revive(), Ok(()));
}

/// A medium does not work again.
fn does_not_revive<M: Medium>(rt: &impl Abort, medium: &mut M) {
    assert_eq!(rt; medium.revive(), Err(Failed));
}

/// Whether there is no file at this path.
fn is_not_there(files: &HostRuntime, path: &str) -> bool {
    matches!(fs::exists(files, path), Ok(false))
}

/// Whether a file is so long.
fn is_long(files: &HostRuntime, path: &str, len: u64) -> bool {
    match fs::metadata(files, path) {
        Ok(told) => told.len() == len,
        Err(_) => false,
    }
}

/// Whether a file holds these bytes.
fn holds(files: &HostRuntime, path: &str, wanted: &[u8]) -> bool {
    match fs::read(files, path) {
        Ok(bytes) => bytes.as_slice() == wanted,
        Err(_) => false,
    }
}

/// Whether a file holds these bytes now.
fn put_file(files: &HostRuntime, path: &str, bytes: &[u8]) -> bool {
    fs::write(files, path, bytes).is_ok()
}

/// Whether a file goes.
fn remove(files: &HostRuntime, path: &str) -> bool {
    fs::remove_file(files, path).is_ok()
}

/// Whether a link to a path stands at another now.
fn link(files: &HostRuntime, to: &str, path: &str) -> bool {
    symlink(files, to, path).is_ok()
}

#[test]
fn a_file_is_made_written_and_read(rt: HostRuntime) {
    let mut made = RedoMedium::new(FileDisk::new(&rt, "tach_media_made", 64), 64);
    assert!(rt; is_not_there(&rt, "tach_media_made"));
    writes(&rt, &mut made, 10, b"abc");
    reads(&rt, &mut made, 9, b"\0abc");
    assert!(rt; is_long(&rt, "tach_media_made", 64));
    assert!(rt; remove(&rt, "tach_media_made"));
}

#[test]
fn a_file_of_no_folder(rt: HostRuntime) {
    let mut nowhere = RedoMedium::new(FileDisk::new(&rt, "no_such_folder/file", 64), 64);
    does_not_read(&rt, &mut nowhere, 0);
    does_not_revive(&rt, &mut nowhere);
}

#[test]
fn of_a_longer_file_the_front(rt: HostRuntime) {
    assert!(rt; put_file(&rt, "tach_media_long", b"0123456789"));
    let mut front = RedoMedium::new(FileDisk::new(&rt, "tach_media_long", 8), 8);
    writes(&rt, &mut front, 4, b"abcd");
    reads(&rt, &mut front, 3, b"3abc");
    assert!(rt; holds(&rt, "tach_media_long", b"0123abcd89"));
    assert!(rt; remove(&rt, "tach_media_long"));
}

/// A medium whose file, or its folder, lacks this tells so, and each call fails.
fn lacks(rt: &impl Abort, medium: &mut RedoMedium<FileDisk<'_, HostRuntime>>, missing: Missing) {
    assert_eq!(rt; medium.disk().missing(), None);
    does_not_read(rt, medium, 0);
    assert_eq!(rt; medium.disk().missing(), Some(missing));
    does_not_write(rt, medium, b"abcd");
    does_not_revive(rt, medium);
    assert_eq!(rt; medium.disk().missing(), Some(missing));
}

/// One of a single byte less than its device is too short, and is left so.
#[test]
fn a_file_that_is_too_short(rt: HostRuntime) {
    assert!(rt; put_file(&rt, "tach_media_short", b"012345678901234"));
    {
        let mut medium = RedoMedium::new(FileDisk::new(&rt, "tach_media_short", 16), 16);
        lacks(&rt, &mut medium, Missing::Bytes);
    }
    let mut read = RedoMedium::new(FileDisk::for_reading(&rt, "tach_media_short", 16), 16);
    lacks(&rt, &mut read, Missing::Bytes);
    assert!(rt; holds(&rt, "tach_media_short", b"012345678901234"));
    assert!(rt; remove(&rt, "tach_media_short"));
}

/// Where the device is made anew such a file is made whole, and what it held is copied first, where that is asked for.
/// Whether the file was taken away is told.
#[test]
fn a_short_file_of_a_new_device(rt: HostRuntime) {
    assert!(rt; put_file(&rt, "tach_media_renewed", b"01234567"));
    {
        let mut medium = RedoMedium::new(
            FileDisk::renewing(&rt, "tach_media_renewed", None, 16),
            16,
        );
        reads(&rt, &mut medium, 6, b"67\0\0");
        assert!(rt; is_long(&rt, "tach_media_renewed", 16));
        assert_eq!(rt; medium.disk().missing(), None);
    }
    let names = CopyNames {
        path: "tach_media_renewed.before",
        unfinished: "tach_media_renewed.part",
    };
    let disk = FileDisk::without_waiting(&rt, "tach_media_renewed", Some(names), 32);
    let mut shown = RedoMedium::new(disk, 32);
    reads(&rt, &mut shown, 28, &[0; 4]);
    assert!(rt; is_long(&rt, "tach_media_renewed", 32));
    assert!(rt;
        holds(
            &rt,
            "tach_media_renewed.before",
            b"01234567\0\0\0\0\0\0\0\0"
        )
    );
    assert!(rt; !shown.disk().is_elsewhere());
    assert!(rt; remove(&rt, "tach_media_renewed"));
    assert!(rt; shown.disk().is_elsewhere());
    assert!(rt; remove(&rt, "tach_media_renewed.before"));
}

/// While a medium has its file, another of that file does not work.
fn has_it_alone(
    rt: &impl Abort,
    first: &mut RedoMedium<FileDisk<'_, HostRuntime>>,
    second: &mut RedoMedium<FileDisk<'_, HostRuntime>>,
) {
    writes(rt, first, 0, b"abcd");
    does_not_read(rt, second, 0);
    assert_eq!(rt; second.disk().missing(), None);
    does_not_revive(rt, second);
    does_not_write(rt, second, b"efgh");
    reads(rt, first, 0, b"abcd");
}

#[test]
fn a_file_that_another_has_locked(rt: HostRuntime) {
    {
        let mut first = RedoMedium::new(FileDisk::new(&rt, "tach_media_locked", 8), 8);
        let mut second = RedoMedium::new(FileDisk::new(&rt, "tach_media_locked", 8), 8);
        has_it_alone(&rt, &mut first, &mut second);
    }
    let mut later = RedoMedium::new(FileDisk::new(&rt, "tach_media_locked", 8), 8);
    writes(&rt, &mut later, 4, b"efgh");
    assert!(rt; remove(&rt, "tach_media_locked"));
}

#[test]
fn a_link_to_a_file(rt: HostRuntime) {
    assert!(rt; put_file(&rt, "tach_media_target", b"01234567"));
    assert!(rt; link(&rt, "tach_media_target", "tach_media_link"));
    let mut through = RedoMedium::new(FileDisk::new(&rt, "tach_media_link", 8), 8);
    writes(&rt, &mut through, 0, b"abcd");
    assert!(rt; holds(&rt, "tach_media_target", b"abcd4567"));
    assert!(rt; remove(&rt, "tach_media_link"));
    assert!(rt; remove(&rt, "tach_media_target"));
}

#[test]
fn a_link_to_no_file(rt: HostRuntime) {
    assert!(rt; link(&rt, "tach_media_nothing", "tach_media_dangling"));
    let mut dangling = RedoMedium::new(FileDisk::new(&rt, "tach_media_dangling", 8), 8);
    does_not_read(&rt, &mut dangling, 0);
    does_not_revive(&rt, &mut dangling);
    assert!(rt; is_not_there(&rt, "tach_media_nothing"));
    assert!(rt; remove(&rt, "tach_media_dangling"));
}

#[test]
fn a_folder_is_no_medium(rt: HostRuntime) {
    let mut folder = RedoMedium::new(FileDisk::new(&rt, ".", 8), 8);
    does_not_read(&rt, &mut folder, 0);
    does_not_revive(&rt, &mut folder);
}

/// A program that runs may be read, and not written.
#[test]
fn a_file_that_may_only_be_read(rt: HostRuntime) {
    let mut program = RedoMedium::new(FileDisk::new(&rt, "/proc/self/exe", 8), 8);
    does_not_read(&rt, &mut program, 0);
    does_not_revive(&rt, &mut program);
    let mut read = RedoMedium::new(FileDisk::for_reading(&rt, "/proc/self/exe", 8), 8);
    reads(&rt, &mut read, 0, b"\x7fELF");
    does_not_write(&rt, &mut read, b"abcd");
    revives(&rt, &mut read);
    reads(&rt, &mut read, 0, b"\x7fELF");
    assert_eq!(rt; read.clock(), 0);
}

#[test]
fn a_file_that_others_read_too(rt: HostRuntime) {
    assert!(rt; put_file(&rt, "tach_media_read", b"01234567"));
    {
        let mut first = RedoMedium::new(FileDisk::for_reading(&rt, "tach_media_read", 8), 8);
        let mut second = RedoMedium::new(FileDisk::for_reading(&rt, "tach_media_read", 8), 8);
        let mut writer = RedoMedium::new(FileDisk::new(&rt, "tach_media_read", 8), 8);
        reads(&rt, &mut first, 0, b"0123");
        reads(&rt, &mut second, 4, b"4567");
        does_not_write(&rt, &mut second, b"abcd");
        does_not_read(&rt, &mut writer, 0);
    }
    {
        let mut writer = RedoMedium::new(FileDisk::new(&rt, "tach_media_read", 8), 8);
        let mut reader = RedoMedium::new(FileDisk::for_reading(&rt, "tach_media_read", 8), 8);
        reads(&rt, &mut writer, 0, b"0123");
        does_not_read(&rt, &mut reader, 0);
    }
    assert!(rt; remove(&rt, "tach_media_read"));
}

/// One that has no byte, as a making that was stopped leaves it, is made.
#[test]
fn a_file_without_a_byte_is_made(rt: HostRuntime) {
    assert!(rt; put_file(&rt, "tach_media_empty", b""));
    {
        let mut made = RedoMedium::new(FileDisk::new(&rt, "tach_media_empty", 64), 64);
        reads(&rt, &mut made, 60, &[0; 4]);
        writes(&rt, &mut made, 0, b"abcd");
    }
    assert!(rt; is_long(&rt, "tach_media_empty", 64));
    assert!(rt; remove(&rt, "tach_media_empty"));
}

/// One that is missing, or has no byte, is made for reading too.
#[test]
fn a_file_is_made_for_reading(rt: HostRuntime) {
    assert!(rt; put_file(&rt, "tach_media_bare", b""));
    {
        let mut first = RedoMedium::new(FileDisk::for_reading(&rt, "tach_media_bare", 64), 64);
        let mut second = RedoMedium::new(FileDisk::for_reading(&rt, "tach_media_bare", 64), 64);
        reads(&rt, &mut first, 60, &[0; 4]);
        reads(&rt, &mut second, 60, &[0; 4]);
        does_not_write(&rt, &mut first, b"abcd");
    }
    assert!(rt; remove(&rt, "tach_media_bare"));
    let mut missing = RedoMedium::new(FileDisk::for_reading(&rt, "tach_media_bare", 64), 64);
    reads(&rt, &mut missing, 60, &[0; 4]);
    assert!(rt; is_long(&rt, "tach_media_bare", 64));
    assert!(rt; remove(&rt, "tach_media_bare"));
}

/// By the folder of the files that a process has open each can be opened anew, and no name there stands on a disk.
#[test]
fn a_folder_that_cannot_be_synchronised(rt: HostRuntime) -> Result<(), Fail> {
    let kept = File::create(&rt, "tach_media_open")?;
    let number = kept.as_raw_fd();
    let path = format!(in rt.alloc(); "/proc/self/fd/{number}")?;
    let mut medium = RedoMedium::new(FileDisk::new(&rt, path.as_str(), 8), 8);
    lacks(&rt, &mut medium, Missing::SynchronisedFolders);
    assert!(rt; is_long(&rt, "tach_media_open", 0));
    let mut made = RedoMedium::new(FileDisk::new(&rt, "tach_media_open", 8), 8);
    reads(&rt, &mut made, 4, &[0; 4]);
    assert_eq!(rt; made.disk().missing(), None);
    assert!(rt; remove(&rt, "tach_media_open"));
    Ok(())
}

/// A file that was there is used also where its folder cannot be synchronised.
#[test]
fn a_file_that_was_there(rt: HostRuntime) -> Result<(), Fail> {
    assert!(rt; put_file(&rt, "tach_media_there", b"01234567"));
    let kept = File::open(&rt, "tach_media_there")?;
    let number = kept.as_raw_fd();
    let path = format!(in rt.alloc(); "/proc/self/fd/{number}")?;
    let mut medium = RedoMedium::new(FileDisk::new(&rt, path.as_str(), 8), 8);
    writes(&rt, &mut medium, 0, b"abcd");
    assert_eq!(rt; medium.disk().missing(), None);
    assert!(rt; holds(&rt, "tach_media_there", b"abcd4567"));
    assert!(rt; remove(&rt, "tach_media_there"));
    Ok(())
}

/// What of a process goes into its core file can be written, and stands on no disk.
#[test]
fn a_write_that_cannot_be_synchronised(rt: HostRuntime) {
    {
        let mut shown = RedoMedium::new(
            FileDisk::without_waiting(&rt, "/proc/self/coredump_filter", None, 8),
            8,
        );
        writes(&rt, &mut shown, 0, b"0x33");
        revives(&rt, &mut shown);
    }
    let mut filter = RedoMedium::new(FileDisk::new(&rt, "/proc/self/coredump_filter", 8), 8);
    reads(&rt, &mut filter, 0, b"0000");
    reads(&rt, &mut filter, 4, b"0033");
    does_not_write(&rt, &mut filter, b"0x33");
    does_not_revive(&rt, &mut filter);
    does_not_read(&rt, &mut filter, 0);
    assert_eq!(rt; filter.clock(), 0);
}

/// Four bytes are written at a place of a memory of 600 bytes in a file.
fn write_of_600(
    medium: &mut RedoMedium<FileDisk<'_, HostRuntime>>,
    place: u32,
    bytes: &[u8; 4],
) -> Result<(), Failed> {
    if place > 596 || medium.size() != 600 {
        return Err(Failed);
    }
    medium.write_at(place, bytes)
}

/// Four bytes of a memory of 600 bytes in a file.
fn four_of_600<M: Medium>(medium: &mut M, place: u32) -> Result<[u8; 4], Failed> {
    let mut out = [9; 4];
    if place > 596 || medium.size() != 600 {
        return Err(Failed);
    }
    medium.read_at(place, &mut out)?;
    Ok(out)
}

/// A write inside a sector leaves a file as long as it was. One over a border of two sectors goes by a record behind
/// the front, whose gate is shut then.
#[test]
fn a_write_over_a_border(rt: HostRuntime) {
    let mut medium = RedoMedium::new(FileDisk::new(&rt, "tach_media_border", 600), 600);
    assert_eq!(rt; write_of_600(&mut medium, 508, b"abcd"), Ok(()));
    assert!(rt; is_long(&rt, "tach_media_border", 600));
    assert_eq!(rt; write_of_600(&mut medium, 510, b"efgh"), Ok(()));
    assert_eq!(rt; four_of_600(&mut medium, 508), Ok(*b"abef"));
    assert_eq!(rt; four_of_600(&mut medium, 512), Ok(*b"gh\0\0"));
    assert_eq!(rt; medium.clock(), 2);
    assert!(rt; is_long(&rt, "tach_media_border", 1040));
    assert!(rt; remove(&rt, "tach_media_border"));
}
