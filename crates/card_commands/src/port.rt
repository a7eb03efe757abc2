//! A card as a medium, reached by its commands.
ghost use Rattle.std.specs.Prelude.{◌≡◌, ◌≤◌, ◌<◌, ◌+◌, ◌^◌, true, false, length, take, Some, None, Ok, Err, OnOk};
ghost use Rattle.std.specs.Prelude.{IfOk, IfErr, IfSome, is_err};
ghost use Rattle.card_commands.specs.declared.port.TheConstants.{READ_MOST, WRITE_MOST};
ghost use Rattle.card_layout.specs.Application.{IsApplication, application_in};
ghost use Rattle.card_layout.specs.Files.{image_size_of};
ghost use Rattle.tach_media.specs.Medium.{Reads, bytes_at};
ghost use Rattle.card_layout.specs.Outcomes.{file_of, is_under};
ghost use Rattle.tach_media.specs.Chip.{WritesAt};
ghost use Rattle.card_commands.specs.Ports.{IsPort, IsJudged, application_file};

use crate::loading::{APPLICATION, PortFault, read_sizes};
use crate::place::file_at;
use crate::sending::{enter, read, select, update};
use card_files::image_size;
use card_layout::{Application, Directory, ElementaryFile, Fid, LARGEST_IMAGE};
use tach_media::{Chip, Failed, Medium};

/// At most so many bytes are read, and written, by one command.
const READ_MOST: usize = 256;

const WRITE_MOST: usize = 255;

/// A card's flat image as a medium, reached by SELECT FILE, READ BINARY and UPDATE BINARY alone.
#[derive(Drop)]
pub struct Port<C: Chip> {
    chip: C,
    application: Application,
    // a file that the chip has selected
    selected: Option<ElementaryFile>,
    ghost sound: { IsPort application selected (C.card chip) (C.state chip) },
}

impl<C: Chip> Port<C> {
    /// A port over a chip whose sizes `read_sizes` has just read.
    pub fn new(chip: C, application: Application) -> Port<C>
        requires { IsPort application (Some application_file) (C.card chip) (C.state chip) }
        ensures chip { result.chip ≡ chip }
        ensures sizes { result.application ≡ application }
    {
        Port {
            chip,
            application,
            selected: Some(APPLICATION),
        }
    }

    /// A port over a chip that goes by these sizes.
    pub fn resume(chip: C, application: Application) -> Port<C>
        requires { IsPort application None (C.card chip) (C.state chip) }
        ensures chip { result.chip ≡ chip }
        ensures sizes { result.application ≡ application }
    {
        Port {
            chip,
            application,
            selected: None,
        }
    }

    /// The sizes read at loading.
    pub fn application(&self) -> Application
        ensures value { result ≡ self.now.application }
        ensures good { IsApplication result }
    {
        self.application
    }

    /// Sends a command that changes nothing on the card.
    fn reach(&mut self) -> Result<(), Failed>
        ensures reads { Reads (C.state self.old.chip) (C.state self.new.chip) (is_err result) }
        ensures application { self.new.application ≡ self.old.application }
    {
        self.selected = None;
        enter(&mut self.chip, Directory::Tachograph)
    }

    /// Selects a file, unless the chip still has it selected.
    fn select(&mut self, file: ElementaryFile) -> Result<(), Failed>
        requires { file_of (C.card self.old.chip).application file.fid ≡ Some file }
        ensures selected { OnOk result (self.new.selected ≡ Some file) }
        ensures reads { Reads (C.state self.old.chip) (C.state self.new.chip) (is_err result) }
        ensures application { self.new.application ≡ self.old.application }
    {
        if self.selected == Some(file) {
            return Ok(());
        }
        self.selected = None;
        enter(&mut self.chip, directory_of(file.fid))?;
        select(&mut self.chip, file)?;
        self.selected = Some(file);
        Ok(())
    }

    /// Reads from the selected file. A failure makes the port forget that it is selected.
    fn read_selected(
        &mut self,
        file: ElementaryFile,
        offset: u32,
        out: &mut [u8],
    ) -> Result<(), Failed>
        requires selected { self.old.selected ≡ Some file }
        requires some { 0 < length out.old }
        requires few { length out.old ≤ READ_MOST }
        requires inside { offset + length out.old ≤ file.range.len }
        requires file { file.range.base + file.range.len ≤ LARGEST_IMAGE }
        ensures bytes { OnOk result (IfSome (C.state self.old.chip).image
            (λ x. out.new ≡ bytes_at x (file.range.base + offset) (length out.old))) }
        ensures reads { Reads (C.state self.old.chip) (C.state self.new.chip) (is_err result) }
        ensures application { self.new.application ≡ self.old.application }
    {
        let read = read(&mut self.chip, file, offset as u16, out);
        if read.is_err() {
            self.selected = None;
        }
        read
    }

    /// Reads what one command can, from the file in which a place lies: how many bytes.
    fn read_part(&mut self, place: u32, out: &mut [u8]) -> Result<usize, Failed>
        requires some { 0 < length out.old }
        requires inside { place + length out.old ≤ image_size_of self.old.application }
        ensures many { IfOk result (λ n. (0 < n) × (n ≤ length out.old)) }
        ensures bytes { IfOk result (λ n. IfSome (C.state self.old.chip).image (λ x. take n out.new ≡ bytes_at x place
            n)) }
        ensures reads { Reads (C.state self.old.chip) (C.state self.new.chip) (is_err result) }
        ensures application { self.new.application ≡ self.old.application }
    {
        let file = file_at(&self.application, place);
        let offset = place - file.range.base;
        let len = out
            .len()
            .min(READ_MOST)
            .min((file.range.len - offset) as usize);
        self.select(file)?;
        self.read_selected(file, offset, &mut out[..len])?;
        Ok(len)
    }

    /// Reads bytes of the flat image, command by command.
    fn read_all(&mut self, place: u32, out: &mut [u8]) -> Result<(), Failed>
        requires some { 0 < length out.old }
        requires inside { place + length out.old ≤ image_size_of self.old.application }
        requires short { place + length out.old < 2 ^ 32 }
        ensures bytes { OnOk result (IfSome (C.state self.old.chip).image
            (λ x. out.new ≡ bytes_at x place (length out.old))) }
        ensures reads { Reads (C.state self.old.chip) (C.state self.new.chip) (is_err result) }
        ensures application { self.new.application ≡ self.old.application }
    {
        let len = out.len();
        let mut done = self.read_part(place, out)?;
        while done < len {
            done += self.read_part(place + done as u32, &mut out[done..])?;
        }
        Ok(())
    }

    /// Writes to the selected file with one command. A failure makes the port forget that it is selected.
    fn write_part(&mut self, file: ElementaryFile, place: u32, bytes: &[u8]) -> Result<(), Failed>
        requires selected { self.old.selected ≡ Some file }
        requires updated { file.updated ≡ true }
        requires some { 0 < length bytes.now }
        requires few { length bytes.now ≤ WRITE_MOST }
        requires behind { file.range.base ≤ place }
        requires inside { place + length bytes.now ≤ file.range.base + file.range.len }
        requires file { file.range.base + file.range.len ≤ LARGEST_IMAGE }
        ensures writes { WritesAt place bytes.now (C.state self.old.chip) (C.state self.new.chip) (is_err result) }
        ensures selected { OnOk result (self.new.selected ≡ Some file) }
        ensures application { self.new.application ≡ self.old.application }
    {
        let offset = place - file.range.base;
        let written = update(&mut self.chip, file, offset as u16, bytes);
        if written.is_err() {
            self.selected = None;
        }
        written
    }

    /// Writes bytes of one file, command by command.
    fn write_all(&mut self, file: ElementaryFile, place: u32, bytes: &[u8]) -> Result<(), Failed>
        requires selected { self.old.selected ≡ Some file }
        requires updated { file.updated ≡ true }
        requires some { 0 < length bytes.now }
        requires behind { file.range.base ≤ place }
        requires inside { place + length bytes.now ≤ file.range.base + file.range.len }
        requires file { file.range.base + file.range.len ≤ LARGEST_IMAGE }
        ensures writes { WritesAt place bytes.now (C.state self.old.chip) (C.state self.new.chip) (is_err result) }
        ensures application { self.new.application ≡ self.old.application }
    {
        let first = bytes.len().min(WRITE_MOST);
        self.write_part(file, place, &bytes[..first])?;
        let mut done = first;
        while done < bytes.len() {
            let next = bytes.len().min(done + WRITE_MOST);
            self.write_part(file, place + done as u32, &bytes[done..next])?;
            done = next;
        }
        Ok(())
    }
}

impl<C: Chip + Drop> Port<C> {
    /// Reads the card's sizes. The chip's size is at least 24959. A refusal drops `chip`, so callers hand in a `&mut
    /// C`.
    ///
    /// # Errors
    ///
    /// 1. `Failed` where a call on the chip failed.
    /// 2. `BadApplication` exactly where a field of Application_Identification is out of its range, with the number of
    ///    the first such field.
    pub fn load(mut chip: C) -> Result<Port<C>, PortFault>
        requires { LARGEST_IMAGE ≤ (C.state chip).size }
        ensures reads { IfOk result (λ port. Reads (C.state chip) (C.state port.chip) false) }
        ensures good { IfOk result (λ port. IsApplication port.application) }
        ensures sizes { IfOk result (λ port. IfSome (C.state chip).image (λ x. IsJudged (application_in x)
            (Ok port.application))) }
        ensures refused { IfErr result (λ fault. IfSome (C.state chip).image
            (λ x. IsJudged (application_in x) (Err fault))) }
    {
        let application = read_sizes(&mut chip)?;
        Ok(Port::new(chip, application))
    }
}

/// The directory under which a file stands.
fn directory_of(fid: Fid) -> Directory
    ensures { is_under result fid ≡ true }
{
    match fid {
        Fid::ICC | Fid::IC => Directory::Master,
        _ => Directory::Tachograph,
    }
}

impl<C: Chip> Medium for Port<C> {
    ghost use Rattle.card_commands.specs.Ports.{port_state, port_coherent};

    ghost state = { λ p. port_state p.application (C.state p.chip) };

    ghost coherent = { λ p. port_coherent p.application (C.state p.chip) (C.coherent p.chip) };

    fn size(&self) -> u32 {
        image_size(&self.application)
    }

    fn clock(&self) -> u64 {
        self.chip.clock()
    }

    fn read_at(&mut self, place: u32, out: &mut [u8]) -> Result<(), Failed> {
        if out.is_empty() {
            return self.reach();
        }
        self.read_all(place, out)
    }

    fn write_at(&mut self, place: u32, bytes: &[u8]) -> Result<(), Failed> {
        if bytes.is_empty() {
            return self.reach();
        }
        let file = file_at(&self.application, place);
        self.select(file)?;
        self.write_all(file, place, bytes)
    }

    fn revive(&mut self) -> Result<(), Failed> {
        self.selected = None;
        self.chip.revive()
    }

    fn holds_bytes(&self) {
        self.chip.holds_bytes();
    }
}
