//! A file of the file system as a disk.
ghost use Rattle.std.specs.Prelude.{◌≡◌, ◌<◌, ◌≤◌, ◌+◌, ◌^◌, None, true, false, is_some};
ghost use Rattle.sector_medium.specs.Files.{missing_in, unlocked};
ghost use Rattle.sector_medium.specs.Recovered.{HasRoom};
ghost use Rattle.sector_medium.specs.Redo.{record_place};
ghost use Rattle.tach_media.specs.Medium.{IsUntouched};

use crate::Disk;
use crate::copy::{CopyNames, keep_copy};
use crate::record::{RECORD_SIZE, place_behind};
use std::fs::{File, Files, Metadata, OpenFile, OpenOptions, TryLockError};
use std::io::ErrorKind;
use std::os::unix::fs::{FileExt, FileTypeExt, MetadataExt};
use std::{fs, io};
use tach_media::{Counts, Failed};

// What a file is asked for.
#[derive(Clone, Copy)]
enum Access {
    // To be read and written: each write waits for the disk.
    Lasting,
    // To be written anew, as a device that is made: a file that is too short is made whole first.
    Renewing,
    // The same, and no write waits.
    Passing,
    // To be read.
    Reading,
}

impl Access {
    fn waits(self) -> bool {
        match self {
            Access::Lasting | Access::Renewing => true,
            _ => false,
        }
    }

    fn writes(self) -> bool {
        match self {
            Access::Reading => false,
            _ => true,
        }
    }

    // Whether all that the file holds is written anew, so that one that is too short serves.
    fn renews(self) -> bool {
        match self {
            Access::Renewing | Access::Passing => true,
            _ => false,
        }
    }
}

/// What a disk asks of a file and its file system, and does not find.
#[derive(Clone, Copy, Debug, PartialEq, Eq)]
pub enum Missing {
    /// Its files can't be locked, so that two programs could write one file at once.
    Locks,
    /// Its folders can't be synchronised, so that a power cut could take the name of a new file.
    SynchronisedFolders,
    /// The file has some bytes, and fewer than its device.
    Bytes,
    /// No copy could be made of what the file of a device held that is to be made anew.
    Copy,
}

// Where a file is, and where the copy of what it held goes, if one is to be made.
#[derive(Clone, Copy)]
struct Place<'a> {
    path: &'a str,
    copy: Option<CopyNames<'a>>,
}

// Why a file is not reached.
#[derive(Clone, Copy)]
pub(crate) enum Unreached {
    // It can be neither opened nor made, or somebody else has its lock.
    Refused,
    // It, or its file system, lacks this.
    Lacking(Missing),
}

// The file under a disk.
#[derive(Drop)]
enum Backing {
    // No call has asked for it yet.
    Unopened,
    // It is locked: nobody else who asks for its lock has it, or only such as read.
    Open(File),
    // It can be neither opened nor made, or somebody else has its lock, or a write could not be synchronised, so that
    // nobody knows what a power cut leaves of it: every call fails.
    Lost,
    // It, or its file system, lacks this: every call fails.
    Lacking(Missing),
}

/// A file, as a disk of a fixed size: a front of so many bytes, and the record behind it. Of a longer file it is that
/// part. Behind the front what the file does not have reads as zeros, so that a file without a record keeps its length.
///
/// The first call opens the file, and makes it, as zeros, where it is missing or has no byte, as a making that was
/// stopped leaves it. From then on it is locked; where another program has locked it, every call fails. One that has
/// some bytes, and fewer than its front, is too short: it is made whole, with zeros, where the device is made anew, and
/// else every call fails. Every write stands on the disk before `Ok`, and so does the name of a file that was made.
/// Each opening that writes waits for the name of a file that was there too, since whoever made it may have been
/// stopped before; where its folder can't be synchronised it goes on. Where the file, or its file system, lacks what
/// all this takes every call fails, and `missing` tells what. Of a device that is made anew a copy of what it held can
/// be kept. It tells nothing of its content.
#[derive(Drop)]
pub struct FileDisk<'a, R: Files<File = File>> {
    files: &'a R,
    place: Place<'a>,
    backing: Backing,
    access: Access,
    front: u32,
    size: u32,
    // how many groups of writes were ended
    clock: u64,
    counts: Counts,
    ghost broken: { is_some (missing_in backing) ≡ true → counts.works ≡ false },
}

impl<'a, R: Files<File = File>> FileDisk<'a, R> {
    /// A front of so many bytes, and room for its record, in the file at this path.
    pub fn new(files: &'a R, path: &'a str, front: u32) -> FileDisk<'a, R>
        requires { front + 528 < 2 ^ 32 }
        ensures untouched { IsUntouched (record_place front + 16) (⟦<FileDisk<'a, R> as Disk>⟧.state result) }
        ensures room { HasRoom front (⟦<FileDisk<'a, R> as Disk>⟧.state result) }
        ensures missing { missing_in result.backing ≡ None }
    {
        FileDisk::asking(files, Place { path, copy: None }, front, Access::Lasting)
    }

    /// The same for a device that is made anew: a file that is too short is made whole first. Where names of a copy are
    /// given, what the file holds is copied before its first byte is changed, unless it has no byte; where that fails
    /// every call does, and the file is as it was.
    pub fn renewing(
        files: &'a R,
        path: &'a str,
        copy: Option<CopyNames<'a>>,
        front: u32,
    ) -> FileDisk<'a, R>
        requires { front + 528 < 2 ^ 32 }
        ensures untouched { IsUntouched (record_place front + 16) (⟦<FileDisk<'a, R> as Disk>⟧.state result) }
        ensures room { HasRoom front (⟦<FileDisk<'a, R> as Disk>⟧.state result) }
        ensures missing { missing_in result.backing ≡ None }
    {
        FileDisk::asking(files, Place { path, copy }, front, Access::Renewing)
    }

    /// The same for what need not outlive a power cut, as a demonstration: no write waits for the disk, but for those of
    /// the copy.
    pub fn without_waiting(
        files: &'a R,
        path: &'a str,
        copy: Option<CopyNames<'a>>,
        front: u32,
    ) -> FileDisk<'a, R>
        requires { front + 528 < 2 ^ 32 }
        ensures untouched { IsUntouched (record_place front + 16) (⟦<FileDisk<'a, R> as Disk>⟧.state result) }
        ensures room { HasRoom front (⟦<FileDisk<'a, R> as Disk>⟧.state result) }
        ensures missing { missing_in result.backing ≡ None }
    {
        FileDisk::asking(files, Place { path, copy }, front, Access::Passing)
    }

    /// The same for what only reads: the file may be one that can't be written, and others that only read may have it
    /// at the same time. Every write fails.
    pub fn for_reading(files: &'a R, path: &'a str, front: u32) -> FileDisk<'a, R>
        requires { front + 528 < 2 ^ 32 }
        ensures untouched { IsUntouched (record_place front + 16) (⟦<FileDisk<'a, R> as Disk>⟧.state result) }
        ensures room { HasRoom front (⟦<FileDisk<'a, R> as Disk>⟧.state result) }
        ensures missing { missing_in result.backing ≡ None }
    {
        FileDisk::asking(files, Place { path, copy: None }, front, Access::Reading)
    }

    /// One that asks so for its file.
    #[tactic(auto, using(crate::specs::RedoLaws::record_near))]
    fn asking(files: &'a R, place: Place<'a>, front: u32, access: Access) -> FileDisk<'a, R>
        requires { front + 528 < 2 ^ 32 }
        ensures untouched { IsUntouched (record_place front + 16) (⟦<FileDisk<'a, R> as Disk>⟧.state result) }
        ensures room { HasRoom front (⟦<FileDisk<'a, R> as Disk>⟧.state result) }
        ensures missing { missing_in result.backing ≡ None }
    {
        FileDisk {
            files,
            place,
            backing: Backing::Unopened,
            access,
            front,
            size: place_behind(front) + RECORD_SIZE,
            clock: 0,
            counts: Counts::new(),
        }
    }

    /// What the file or its file system lacks, where a call has failed for that. The disk does not work then, and each
    /// call fails.
    pub fn missing(&self) -> Option<Missing>
        ensures told { result ≡ missing_in self.now.backing }
        ensures works { is_some result ≡ true → (⟦<FileDisk<'a, R> as Disk>⟧.state self.now).works ≡ false }
    {
        match &self.backing {
            Backing::Lacking(missing) => Some(*missing),
            _ => None,
        }
    }

    /// Whether the file was opened, and its path names another one now, or none: somebody has moved it, or put another
    /// one in its place. What was written is in the one that was opened.
    pub fn is_elsewhere(&self) -> bool {
        match &self.backing {
            Backing::Open(file) => {
                !are_one(file.metadata(), fs::metadata(self.files, self.place.path))
            }
            _ => false,
        }
    }
}

impl<'a, R: Files<File = File>> Disk for FileDisk<'a, R> {
    ghost use Rattle.std.specs.Prelude.{[], ◌∷◌};
    ghost use Rattle.tach_media.specs.Untold.{untold_state, untold};

    ghost state = { λ m. untold_state m.size ((0, m.size) ∷ []) m.clock m.counts.works m.counts.faults
        m.counts.breakdowns };

    ghost coherent = { λ m. untold m.size ((0, m.size) ∷ []) m.clock m.counts.works m.counts.faults
        m.counts.breakdowns };

    fn size(&self) -> u32 {
        self.size
    }

    fn clock(&self) -> u64 {
        self.clock
    }

    fn read_at(&mut self, place: u32, out: &mut [u8]) -> Result<(), Failed> {
        reach(
            self.files,
            self.place,
            self.front,
            self.access,
            &mut self.backing,
        );
        if self.counts.works && read(&self.backing, self.front, place, out) {
            return Ok(());
        }
        self.counts.fail();
        Err(Failed)
    }

    fn write_at(&mut self, place: u32, bytes: &[u8]) -> Result<(), Failed> {
        reach(
            self.files,
            self.place,
            self.front,
            self.access,
            &mut self.backing,
        );
        if self.counts.works
            && self.access.writes()
            && write(&self.backing, place, bytes)
            && stands(self.access, &mut self.backing)
        {
            return Ok(());
        }
        self.counts.fail();
        Err(Failed)
    }

    fn end_group(&mut self) {
        self.clock = self.clock.saturating_add(1);
    }

    fn revive(&mut self) -> Result<(), Failed> {
        reach(
            self.files,
            self.place,
            self.front,
            self.access,
            &mut self.backing,
        );
        self.counts.works = true;
        if stands(self.access, &mut self.backing) {
            return Ok(());
        }
        self.counts.fail();
        Err(Failed)
    }

    fn holds_bytes(&self) {}
}

/// Opens the file, or makes it, at the first call.
fn reach<R: Files<File = File>>(
    files: &R,
    place: Place<'_>,
    size: u32,
    access: Access,
    backing: &mut Backing,
) {
    if let Backing::Unopened = backing {
        let opened = match access {
            Access::Reading => shared(files, place, size),
            _ => owned(files, place, size, access),
        };
        *backing = match opened {
            Ok(file) => Backing::Open(file),
            Err(Unreached::Refused) => Backing::Lost,
            Err(Unreached::Lacking(missing)) => Backing::Lacking(missing),
        };
    }
}

/// The file that nobody else has, to be read and written.
fn owned<R: Files<File = File>>(
    files: &R,
    place: Place<'_>,
    size: u32,
    access: Access,
) -> Result<File, Unreached> {
    let mut options = OpenOptions::new();
    options.read(true).write(true);
    match options.open(files, place.path) {
        Ok(file) => {
            let file = locked(file)?;
            if ends_before(&file, 1) {
                refilled(files, place.path, &file, size)?;
            } else {
                kept(files, &file, place.copy)?;
                whole(&file, size, access)?;
                // whoever made it may have been stopped before this
                let _ = named(files, place.path);
            }
            Ok(file)
        }
        Err(error) if error.kind() == ErrorKind::NotFound => made(files, place.path, size),
        Err(_) => Err(Unreached::Refused),
    }
}

/// Copies what a file holds, where a copy is to be made.
fn kept<R: Files<File = File>>(
    files: &R,
    file: &File,
    copy: Option<CopyNames<'_>>,
) -> Result<(), Unreached> {
    match copy {
        Some(copy) if keep_copy(files, file, copy).is_err() => {
            Err(Unreached::Lacking(Missing::Copy))
        }
        _ => Ok(()),
    }
}

/// Sees to it that a file which has some bytes has as many as its device: where it is written anew it is made so long.
fn whole(file: &File, size: u32, access: Access) -> Result<(), Unreached> {
    if !ends_before(file, size) {
        Ok(())
    } else if !access.renews() {
        Err(Unreached::Lacking(Missing::Bytes))
    } else if file.set_len(size as u64).is_ok() && file.sync_all().is_ok() {
        Ok(())
    } else {
        Err(Unreached::Refused)
    }
}

/// The file that only others who read it have, to be read. One that is to be made is made first.
fn shared<R: Files<File = File>>(
    files: &R,
    place: Place<'_>,
    size: u32,
) -> Result<File, Unreached> {
    if is_pipe(files, place.path) {
        return Err(Unreached::Refused);
    }
    match File::open(files, place.path) {
        Ok(file) => {
            let file = lent(file)?;
            if !ends_before(&file, 1) {
                whole(&file, size, Access::Reading)?;
                return Ok(file);
            }
        }
        Err(error) if error.kind() == ErrorKind::NotFound => {}
        Err(_) => return Err(Unreached::Refused),
    }
    lent(owned(files, place, size, Access::Reading)?)
}

/// A file that nobody else has locked.
fn locked(file: File) -> Result<File, Unreached> {
    match file.try_lock() {
        Ok(()) => Ok(file),
        Err(refusal) => Err(unlocked(refusal)),
    }
}

/// A file that nobody has locked but to read it.
fn lent(file: File) -> Result<File, Unreached> {
    match file.try_lock_shared() {
        Ok(()) => Ok(file),
        Err(refusal) => Err(unlocked(refusal)),
    }
}

/// Why a file is not locked: somebody else has its lock, or its file system has none.
fn unlocked(refusal: TryLockError) -> Unreached
    ensures { result ≡ unlocked refusal }
{
    match refusal {
        TryLockError::WouldBlock => Unreached::Refused,
        TryLockError::Error(_) => Unreached::Lacking(Missing::Locks),
    }
}

/// Whether a file has fewer bytes than so many. Whoever makes one holds its lock, so of one that is locked here no byte
/// at all says that a making was stopped.
fn ends_before(file: &File, size: u32) -> bool {
    matches!(
        file.read_at(&mut [0; 1], size.saturating_sub(1) as u64),
        Ok(0)
    )
}

/// Whether it is a pipe, which is no medium: to open one to read waits for another program that writes.
fn is_pipe<R: Files<File = File>>(files: &R, path: &str) -> bool {
    match fs::metadata(files, path) {
        Ok(metadata) => metadata.file_type().is_fifo(),
        Err(_) => false,
    }
}

/// A new file of so many zeros. One that could be neither locked nor filled, or whose name does not stand in its
/// folder, is taken away again; one that another program has locked meanwhile is left to it, which fills it.
fn made<R: Files<File = File>>(files: &R, path: &str, size: u32) -> Result<File, Unreached> {
    let mut options = OpenOptions::new();
    options.read(true).write(true).create_new(true);
    let Ok(file) = options.open(files, path) else {
        return Err(Unreached::Refused);
    };
    let unreached = match file.try_lock() {
        Ok(()) => match filled(files, path, &file, size) {
            Ok(()) => return Ok(file),
            Err(unreached) => unreached,
        },
        Err(TryLockError::WouldBlock) => return Err(Unreached::Refused),
        Err(refusal) => unlocked(refusal),
    };
    let _ = files.remove_file(path);
    Err(unreached)
}

/// Fills a file that has no byte. One that can't be filled has none again, so that the next call makes it anew.
fn refilled<R: Files<File = File>>(
    files: &R,
    path: &str,
    file: &File,
    size: u32,
) -> Result<(), Unreached> {
    let done = filled(files, path, file, size);
    if done.is_err() {
        let _ = file.set_len(0);
    }
    done
}

/// Fills a file with so many zeros, and waits until they and its name stand on the disk. It has its name still: another
/// program that could not fill it may have taken it away before this one locked it.
fn filled<R: Files<File = File>>(
    files: &R,
    path: &str,
    file: &File,
    size: u32,
) -> Result<(), Unreached> {
    if file.set_len(size as u64).is_err() || file.sync_all().is_err() {
        return Err(Unreached::Refused);
    }
    named(files, path)?;
    if has_name(file) {
        Ok(())
    } else {
        Err(Unreached::Refused)
    }
}

/// Whether two files are one.
fn are_one(one: io::Result<Metadata>, other: io::Result<Metadata>) -> bool {
    match (one, other) {
        (Ok(one), Ok(other)) => one.dev() == other.dev() && one.ino() == other.ino(),
        _ => false,
    }
}

/// Whether a file has a name.
fn has_name(file: &File) -> bool {
    match file.metadata() {
        Ok(metadata) => metadata.nlink() > 0,
        Err(_) => false,
    }
}

/// Waits until the name of a file stands in its folder.
pub(crate) fn named<R: Files<File = File>>(files: &R, path: &str) -> Result<(), Unreached> {
    let folder = match path.rsplit_once('/') {
        None => ".",
        Some((folder, _name)) if folder.is_empty() => "/",
        Some((folder, _name)) => folder,
    };
    let Ok(folder) = File::open(files, folder) else {
        return Err(Unreached::Refused);
    };
    if folder.sync_all().is_ok() {
        Ok(())
    } else {
        Err(Unreached::Lacking(Missing::SynchronisedFolders))
    }
}

/// Reads from a file. Behind the front, what it does not have reads as zeros.
fn read(backing: &Backing, front: u32, place: u32, out: &mut [u8]) -> bool
    ensures { result ≡ true → missing_in backing.now ≡ None }
{
    match backing {
        Backing::Open(file) => {
            let there = if place < front {
                out.len()
            } else {
                there(file, place, out.len())
            };
            out[there..].fill(0);
            file.read_exact_at(&mut out[..there], place as u64).is_ok()
        }
        _ => false,
    }
}

/// How many of so many bytes from a place on a file has.
fn there(file: &File, place: u32, len: usize) -> usize
    ensures { result ≤ len }
{
    match file.metadata() {
        Ok(metadata) => len.min(metadata.len().saturating_sub(place as u64) as usize),
        Err(_) => len,
    }
}

fn write(backing: &Backing, place: u32, bytes: &[u8]) -> bool {
    match backing {
        Backing::Open(file) => file.write_all_at(bytes, place as u64).is_ok(),
        _ => false,
    }
}

/// Waits until what was written stands on the disk. A file of which that cannot be said is lost.
fn stands(access: Access, backing: &mut Backing) -> bool
    ensures { result ≡ true → missing_in backing.new ≡ None }
{
    let stands = match &*backing {
        Backing::Open(file) => !access.waits() || file.sync_data().is_ok(),
        _ => return false,
    };
    if !stands {
        *backing = Backing::Lost;
    }
    stands
}
