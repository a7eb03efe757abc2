//! A copy of what a file holds, for a device that is made anew.
use crate::file::named;
use std::fs::{File, Files, OpenFile, OpenOptions};
use std::io;
use std::io::ErrorKind;
use std::os::unix::fs::FileExt;

/// How many bytes are copied at a time.
const PIECE: usize = 16384;

/// The names of a copy: the one that it has in the end, and the one of a copy that is not whole yet. Both are in one
/// folder.
#[derive(Clone, Copy, Debug)]
pub struct CopyNames<'a> {
    pub path: &'a str,
    pub unfinished: &'a str,
}

/// Copies a file as it is, in place of an older copy, and waits until the copy stands on the disk, with its name where
/// its folder can be synchronised. An older copy stands until then. What is no file of a fixed length is not copied.
pub(crate) fn keep_copy<R: Files<File = File>>(
    files: &R,
    file: &File,
    copy: CopyNames<'_>,
) -> io::Result<()> {
    if !file.metadata()?.is_file() {
        return Err(io::Error::from(ErrorKind::InvalidInput));
    }
    let _ = files.remove_file(copy.unfinished);
    let done = fill_copy(files, file, copy);
    if done.is_err() {
        let _ = files.remove_file(copy.unfinished);
    }
    done
}

/// Makes the copy under its first name, and gives it its own.
fn fill_copy<R: Files<File = File>>(files: &R, file: &File, copy: CopyNames<'_>) -> io::Result<()> {
    let mut options = OpenOptions::new();
    options.write(true).create_new(true);
    let made = options.open(files, copy.unfinished)?;
    copy_bytes(file, &made)?;
    made.sync_all()?;
    files.rename(copy.unfinished, copy.path)?;
    // where the folder can't be synchronised it goes on, as with a file that was there
    let _ = named(files, copy.path);
    Ok(())
}

/// Copies the bytes of a file into another one that has none.
fn copy_bytes(from: &File, to: &File) -> io::Result<()> {
    let mut piece = [0; PIECE];
    let mut place: u64 = 0;
    for _turn in 0..u64::MAX {
        match from.read_at(&mut piece, place) {
            Ok(0) => return Ok(()),
            Ok(count) => {
                to.write_all_at(&piece[..count], place)?;
                place = place.saturating_add(count as u64);
            }
            Err(error) => {
                if error.kind() != ErrorKind::Interrupted {
                    return Err(error);
                }
            }
        }
    }
    Err(io::Error::from(ErrorKind::Interrupted))
}
