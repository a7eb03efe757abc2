//! A file as a sink, which the first write makes.
ghost use Rattle.std.specs.Prelude.{◌≡◌, length, IfOk};
ghost use Rattle.std.specs.Io.{WritesAtMost};

use std::fs::{File, Files, OpenOptions};
use tach_media::{Failed, Sink, StdSink};

// The file under a sink.
#[derive(Drop)]
enum Backing {
    // Nothing was written yet.
    Unopened,
    // It is written.
    Open(StdSink<File>),
    // It cannot be made: every write fails.
    Lost,
}

/// A file, as a sink. The first write makes it anew, empty where it was there. It tells nothing of its content.
#[derive(Drop)]
pub struct FileSink<'a, R: Files<File = File>> {
    files: &'a R,
    path: &'a str,
    backing: Backing,
    faults: u64,
}

impl<'a, R: Files<File = File>> FileSink<'a, R> {
    /// A sink into the file at this path; no call has failed.
    pub fn new(files: &'a R, path: &'a str) -> FileSink<'a, R> {
        FileSink {
            files,
            path,
            backing: Backing::Unopened,
            faults: 0,
        }
    }
}

impl<'a, R: Files<File = File>> Sink for FileSink<'a, R> {
    ghost use Rattle.std.specs.declared.option.Option.TheVariants.{None as Untold};

    ghost held = { λ _. Untold };

    ghost faults = { λ s. s.faults };

    fn write(&mut self, piece: &[u8]) -> Result<usize, Failed> {
        reach(self.files, self.path, &mut self.backing);
        match put(&mut self.backing, piece) {
            Ok(count) => Ok(count),
            Err(_) => {
                self.faults = self.faults.saturating_add(1);
                Err(Failed)
            }
        }
    }
}

/// Makes the file anew, at the first write.
fn reach<R: Files<File = File>>(files: &R, path: &str, backing: &mut Backing) {
    if let Backing::Unopened = backing {
        let mut options = OpenOptions::new();
        options.write(true).create(true).truncate(true);
        *backing = match options.open(files, path) {
            Ok(file) => Backing::Open(StdSink::new(file)),
            Err(_) => Backing::Lost,
        };
    }
}

/// Writes to the file, where it could be made.
fn put(backing: &mut Backing, piece: &[u8]) -> Result<usize, Failed>
    ensures bound { WritesAtMost result piece.now }
    ensures some { IfOk result (λ n. n ≡ 0 → length piece.now ≡ 0) }
{
    match backing {
        Backing::Open(file) => file.write(piece),
        _ => Err(Failed),
    }
}
