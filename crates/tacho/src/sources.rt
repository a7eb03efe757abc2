//! What the program reads: standard input, or the files that its last words name, one behind another.
ghost use Rattle.std.specs.Prelude.{◌≡◌};
ghost use Rattle.std.specs.Io.{ReadsAtMost};
ghost use Rattle.tacho.specs.Forms.{form_of};
ghost use Rattle.tacho.specs.Sources.{takes_names};

use crate::forms::{Form, form_of};
use crate::words::Words;
use link_session::Peer;
use outside_files::{begins_behind, lines_begun, piece_at};
use std::alloc::Global;
use std::fs::{File, Files};
use std::io;
use std::io::{ErrorKind, Read, Stdin};
use tach_media::{Failed, Memory, Sink, Source, StdSource};

/// Whether the form of the words reads its input to its end, so that names of files may stand behind the words.
pub fn takes_names(words: &Words) -> bool
    ensures { result ≡ takes_names (form_of words.now) }
{
    reads_all(form_of(words))
}

/// Whether a form reads its input to its end.
pub fn reads_all(form: Option<Form>) -> bool
    ensures { result ≡ takes_names form }
{
    match form {
        Some(Form::Minutes { .. } | Form::Record | Form::Read { .. }) => true,
        _ => false,
    }
}

/// Standard input, or named files one behind another, as a source. It tells nothing of its content.
#[derive(Drop)]
pub struct Input<'a, R: Files<File = File>> {
    standard: StdSource<Stdin>,
    named: NamedFiles<'a, R>,
    faults: u64,
}

impl<'a, R: Files<File = File>> Input<'a, R> {
    /// A source of these files, or of standard input where there are none; no call has failed.
    pub fn new(standard: Stdin, named: NamedFiles<'a, R>) -> Input<'a, R> {
        Input {
            standard: StdSource::new(standard),
            named,
            faults: 0,
        }
    }

    /// The files that are named, none where standard input is read.
    pub fn named(&self) -> &NamedFiles<'a, R> {
        &self.named
    }

    /// The next bytes, from where they come.
    fn take(&mut self, buf: &mut [u8]) -> Result<usize, Failed>
        ensures bound { ReadsAtMost result buf.new }
        ensures faults { self.new.faults ≡ self.old.faults }
    {
        if self.named.is_empty() {
            self.standard.read(buf)
        } else {
            self.named.read(buf)
        }
    }
}

impl<'a, R: Files<File = File>> Source for Input<'a, R> {
    ghost use Rattle.std.specs.declared.option.Option.TheVariants.{None as Untold};

    ghost left = { λ _. Untold };

    ghost faults = { λ s. s.faults };

    fn read(&mut self, buf: &mut [u8]) -> Result<usize, Failed> {
        match self.take(buf) {
            Ok(count) => Ok(count),
            Err(_) => {
                self.faults = self.faults.saturating_add(1);
                Err(Failed)
            }
        }
    }
}

impl<'a, R: Files<File = File>, K: Sink> Peer<K> for Input<'a, R> {
    ghost use Rattle.std.specs.declared.option.Option.TheVariants.{None as Untold};

    ghost asked = { λ _. Untold };

    fn read_after(&mut self, buf: &mut [u8], _sink: &K) -> Result<usize, Failed> {
        self.read(buf)
    }
}

/// Files that are read one behind another, each opened as it is come to.
#[derive(Drop)]
pub struct NamedFiles<'a, R: Files<File = File>> {
    files: &'a R,
    names: Vec<String>,
    // of each file how many bytes were read, how many lines begin in them, and whether the first byte goes on with a
    // line of the file before
    sizes: Vec<u64>,
    lines: Vec<u64>,
    goes_on: Vec<bool>,
    // the file that is read, by its name's index, and whether its next byte begins a line
    at: usize,
    open: Option<File>,
    begins: bool,
    // why that file could not be opened or read
    refusal: Option<ErrorKind>,
}

impl<'a, R: Files<File = File>> NamedFiles<'a, R> {
    /// The files of these names, none of which is opened yet.
    ///
    /// # Errors
    ///
    /// `Memory` where there is none for what is counted of each.
    pub fn new(files: &'a R, alloc: Global, names: Vec<String>) -> Result<Self, Memory> {
        let count = names.len();
        Ok(NamedFiles {
            files,
            names,
            sizes: vec![in alloc; 0; count]?,
            lines: vec![in alloc; 0; count]?,
            goes_on: vec![in alloc; false; count]?,
            at: 0,
            open: None,
            begins: true,
            refusal: None,
        })
    }

    /// Whether there are none.
    pub fn is_empty(&self) -> bool {
        self.names.is_empty()
    }

    /// The name of the file that could not be opened or read, and why.
    pub fn refusal(&self) -> Option<(&str, ErrorKind)> {
        let kind = self.refusal?;
        let name = self.names.get(self.at)?;
        Some((name.as_str(), kind))
    }

    /// The name of the file in which a place of the whole lies, and the place in that file.
    pub fn find_place(&self, place: u32) -> Option<(&str, u64)> {
        let (index, place) = piece_at(self.sizes.as_slice(), place as u64)?;
        let name = self.names.get(index)?;
        Some((name.as_str(), place))
    }

    /// The name of the file in which a line of the whole begins, and the line's number in that file; both numbers are
    /// from 1.
    pub fn find_line(&self, line: u32) -> Option<(&str, u64)> {
        let (index, line) = piece_at(self.lines.as_slice(), (line as u64).saturating_sub(1))?;
        let goes_on = *self.goes_on.get(index)?;
        let name = self.names.get(index)?;
        let first = if goes_on { 2 } else { 1 };
        Some((name.as_str(), line.saturating_add(first)))
    }

    /// The next bytes of the files. None into a `buf` that is not empty is the end of the last one.
    fn read(&mut self, buf: &mut [u8]) -> Result<usize, Failed>
        ensures bound { ReadsAtMost result buf.new }
    {
        for _file in 0..u64::MAX {
            if self.refusal.is_some() {
                return Err(Failed);
            }
            if self.at >= self.names.len() || buf.is_empty() {
                return Ok(0);
            }
            match self.read_open(buf) {
                Ok(0) => self.pass(),
                Ok(count) => {
                    self.count(&buf[..count]);
                    return Ok(count);
                }
                Err(error) => {
                    self.refusal = Some(error.kind());
                    return Err(Failed);
                }
            }
        }
        Ok(0)
    }

    /// The next bytes of the file that is come to, which is opened first.
    fn read_open(&mut self, buf: &mut [u8]) -> io::Result<usize>
        ensures bound { ReadsAtMost result buf.new }
    {
        if self.open.is_none() {
            if let Some(name) = self.names.get(self.at) {
                self.open = Some(File::open(self.files, name.as_str())?);
            }
        }
        match &mut self.open {
            Some(file) => read_again(file, buf),
            None => Ok(0),
        }
    }

    /// Goes on to the next file.
    fn pass(&mut self) {
        self.open = None;
        self.at = self.at.saturating_add(1);
        if let Some(goes_on) = self.goes_on.get_mut(self.at) {
            *goes_on = !self.begins;
        }
    }

    /// Counts what was read of a file.
    fn count(&mut self, piece: &[u8]) {
        if let Some(size) = self.sizes.get_mut(self.at) {
            *size = (*size).saturating_add(piece.len() as u64);
        }
        if let Some(lines) = self.lines.get_mut(self.at) {
            *lines = (*lines).saturating_add(lines_begun(piece, self.begins) as u64);
        }
        self.begins = begins_behind(piece, self.begins);
    }
}

/// One read of a file, made again where a signal interrupts it.
fn read_again(file: &mut File, buf: &mut [u8]) -> io::Result<usize>
    ensures bound { ReadsAtMost result buf.new }
{
    for _turn in 0..u64::MAX {
        match file.read(buf) {
            Ok(count) => return Ok(count),
            Err(error) => {
                if error.kind() != ErrorKind::Interrupted {
                    return Err(error);
                }
            }
        }
    }
    Err(io::Error::from(ErrorKind::Interrupted))
}

/// Why a file can't be read, as a line tells it.
pub fn reason(kind: ErrorKind) -> &'static str {
    match kind {
        ErrorKind::NotFound => "No such file",
        ErrorKind::PermissionDenied => "Permission denied",
        ErrorKind::IsADirectory => "It is a folder",
        _ => "It can't be read",
    }
}
