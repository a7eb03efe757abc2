//! A driver card over a medium, which answers commands by their tables.
ghost use Rattle.std.specs.Prelude.{◌≡◌, ◌≤◌, ◌<◌, ◌+◌, ◌++◌, ◌/◌, ◌%◌, [], ◌∷◌, true, not, length, Some, None, Ok};
ghost use Rattle.std.specs.Prelude.{OnOk, OnErr, IfOk, IfSome, is_ok, is_err};
ghost use Rattle.card_commands.specs.declared.port.TheConstants.{READ_MOST, WRITE_MOST};
ghost use Rattle.card_layout.specs.declared.command.Command.TheVariants.{Select, Read, Update};
ghost use Rattle.card_layout.specs.Application.{application_in};
ghost use Rattle.tach_media.specs.Medium.{State, LiesInside, Reads, bytes_at};
ghost use Rattle.card_layout.specs.Outcomes.{just_issued, in_directory, is_fixed, file_of, Fixes, command_outcome};
ghost use Rattle.card_layout.specs.Outcomes.{outcome_from, gives, IsData, is_application};
ghost use Rattle.tach_media.specs.Chip.{Does, WritesAt};
ghost use Rattle.card_commands.specs.Performing.{IsFile, IsSound, IsPerformed};
ghost use Rattle.card_commands.specs.Written.{command_with, read_with, IsWritable};

use crate::codec::{Header, behind_header, read_header};
use crate::files::{fixed_file, is_under, sized_file};
use crate::issue::issue;
use card_layout::{APPLICATION_RANGE, CardState, Directory, ElementaryFile, Fid, LARGEST_IMAGE};
use tach_media::{Answer, Chip, Failed, Medium};

/// The status words of commands that read well.
const DONE: u16 = 0x9000;

const NOT_FOUND: u16 = 0x6A82;

const NONE_SELECTED: u16 = 0x6986;

const NOT_UPDATED: u16 = 0x6982;

const BAD_OFFSET: u16 = 0x6B00;

const BAD_LENGTH: u16 = 0x6700;

/// The identifiers of the two directories.
const MASTER_FILE: Fid = Fid(0x3F00);

const TACHOGRAPH: Fid = Fid(0x0500);

/// A driver card whose flat image stands in a medium.
#[derive(Drop)]
pub struct SimCard<M: Medium> {
    medium: M,
    card: CardState,
    // whether the medium is known to work
    works: bool,
    ghost sound: { IsSound card works (M.state medium) },
}

impl<M: Medium> SimCard<M> {
    /// A card that was reset. Every range inside the medium's size, which is at least 24959, may be written.
    pub fn new(medium: M) -> SimCard<M>
        requires size { LARGEST_IMAGE ≤ (M.state medium).size }
        requires writable { LiesInside (M.state medium).writable 0 (M.state medium).size }
        ensures medium { result.medium ≡ medium }
        ensures state { result.card ≡ just_issued }
    {
        SimCard {
            medium,
            card: CardState {
                directory: Directory::Master,
                selected: None,
                application: None,
            },
            works: false,
        }
    }

    /// The medium of the card's memory.
    pub fn medium(&self) -> &M
        ensures { result.now ≡ self.now.medium }
    {
        &self.medium
    }

    /// The medium alone; what the card has selected is forgotten.
    pub fn into_medium(self) -> M
        ensures { result ≡ self.medium }
    {
        let SimCard {
            medium,
            card: _,
            works: _,
        } = self;
        medium
    }

    /// Finds out whether the medium works, where that isn't known.
    fn wake(&mut self) -> Result<(), Failed>
        ensures reads { Reads (M.state self.old.medium) (M.state self.new.medium) (is_err result) }
        ensures card { self.new.card ≡ self.old.card }
        ensures works { self.new.works ≡ is_ok result }
    {
        if self.works {
            return Ok(());
        }
        self.read(0, &mut [])
    }

    fn read(&mut self, place: u32, out: &mut [u8]) -> Result<(), Failed>
        requires { place + length out.old ≤ (M.state self.old.medium).size }
        ensures bytes { OnOk result (IfSome (M.state self.old.medium).image
            (λ x. out.new ≡ bytes_at x place (length out.old))) }
        ensures reads { Reads (M.state self.old.medium) (M.state self.new.medium) (is_err result) }
        ensures card { self.new.card ≡ self.old.card }
        ensures works { self.new.works ≡ is_ok result }
    {
        let read = self.medium.read_at(place, out);
        self.works = read.is_ok();
        read
    }

    /// Writes behind Application_Identification.
    fn write(&mut self, place: u32, bytes: &[u8]) -> Result<(), Failed>
        requires inside { place + length bytes.now ≤ (M.state self.old.medium).size }
        requires behind { APPLICATION_RANGE.base + APPLICATION_RANGE.len ≤ place }
        requires some { 0 < length bytes.now }
        ensures writes { WritesAt place bytes.now (M.state self.old.medium) (M.state self.new.medium) (is_err result) }
        ensures card { self.new.card ≡ self.old.card }
        ensures works { self.new.works ≡ is_ok result }
    {
        let written = self.medium.write_at(place, bytes);
        self.works = written.is_ok();
        written
    }

    /// The bytes of Application_Identification by which the card goes. They are fixed here, unless an earlier command
    /// has needed the sizes.
    fn fix(&mut self) -> Result<[u8; 10], Failed>
        requires { self.old.works ≡ true }
        ensures sizes { OnOk result (Fixes true (M.state self.old.medium).image self.old.card.application
            self.new.card.application) }
        ensures card { IfOk result (λ bytes. self.new.card ≡ record self.old.card { application = Some bytes }) }
        ensures image { IfOk result (λ bytes. IfSome (M.state self.old.medium).image (λ x. bytes ≡ application_in x)) }
        ensures reads { Reads (M.state self.old.medium) (M.state self.new.medium) (is_err result) }
        ensures kept { OnErr result (self.new.card ≡ self.old.card) }
    {
        if let Some(application) = self.card.application {
            return Ok(application);
        }
        let mut application = [0; 10];
        self.read(APPLICATION_RANGE.base, &mut application)?;
        self.card.application = Some(application);
        Ok(application)
    }

    /// The file with this identifier, in whichever directory.
    fn find(&mut self, fid: Fid) -> Result<Option<ElementaryFile>, Failed>
        requires { self.old.works ≡ true }
        ensures sizes { OnOk result (Fixes (not (is_fixed fid)) (M.state self.old.medium).image
            self.old.card.application self.new.card.application) }
        ensures file { IfOk result (λ file. file ≡ file_of self.new.card.application fid) }
        ensures inside { IfOk result (λ file. IfSome file IsFile) }
        ensures card { OnOk result (self.new.card ≡ record self.old.card { application = self.new.card.application }) }
        ensures reads { Reads (M.state self.old.medium) (M.state self.new.medium) (is_err result) }
        ensures kept { OnErr result (self.new.card ≡ self.old.card) }
    {
        let fixed = fixed_file(fid);
        if fixed.is_some() {
            return Ok(fixed);
        }
        let application = self.fix()?;
        Ok(sized_file(&application, fid))
    }

    /// Makes a directory current, with no file selected.
    fn enter(&mut self, directory: Directory) -> u16
        ensures status { result ≡ 0x9000 }
        ensures card { self.new.card ≡ in_directory directory self.old.card }
        ensures medium { self.new.medium ≡ self.old.medium }
        ensures works { self.new.works ≡ self.old.works }
    {
        self.card.directory = directory;
        self.card.selected = None;
        DONE
    }

    /// SELECT by file identifier.
    fn select(&mut self, fid: Fid) -> Result<u16, Failed>
        requires { self.old.works ≡ true }
        ensures performed { IfOk result (λ status. IsPerformed (Ok (Select fid)) (M.state self.old.medium).image
            self.old.card self.new.card [] status) }
        ensures reads { Reads (M.state self.old.medium) (M.state self.new.medium) (is_err result) }
        ensures kept { OnErr result (self.new.card ≡ self.old.card) }
    {
        match fid {
            MASTER_FILE => return Ok(self.enter(Directory::Master)),
            TACHOGRAPH => return Ok(self.enter(Directory::Tachograph)),
            _ => {}
        }
        let found = self.find(fid)?;
        if found.is_none() || !is_under(self.card.directory, fid) {
            return Ok(NOT_FOUND);
        }
        self.card.selected = found;
        Ok(DONE)
    }

    /// The bytes of a file from an offset on; Application_Identification as the card goes by it.
    fn file_bytes(
        &mut self,
        file: ElementaryFile,
        offset: u16,
        out: &mut [u8],
    ) -> Result<(), Failed>
        requires works { self.old.works ≡ true }
        requires file { IsFile file }
        requires inside { offset + length out.old ≤ file.range.len }
        ensures bytes { OnOk result (IsData (gives file offset (length out.old)) (M.state self.old.medium).image
            self.new.card.application out.new) }
        ensures sizes { OnOk result (Fixes (is_application file) (M.state self.old.medium).image
            self.old.card.application self.new.card.application) }
        ensures card { OnOk result (self.new.card ≡ record self.old.card { application = self.new.card.application }) }
        ensures reads { Reads (M.state self.old.medium) (M.state self.new.medium) (is_err result) }
        ensures kept { OnErr result (self.new.card ≡ self.old.card) }
    {
        if file.fid != Fid::APPLICATION {
            return self.read(file.range.base + offset as u32, out);
        }
        let application = self.fix()?;
        let from = offset as usize;
        out.copy_from_slice(&application[from..from + out.len()]);
        Ok(())
    }

    /// The selected file.
    fn selected(&self) -> Option<ElementaryFile>
        ensures value { result ≡ self.now.card.selected }
        ensures inside { IfSome result IsFile }
        ensures size { LARGEST_IMAGE ≤ (M.state self.now.medium).size }
    {
        self.card.selected
    }

    /// READ BINARY.
    fn read_binary(&mut self, offset: u16, len: u16, answer: &mut Answer) -> Result<u16, Failed>
        requires works { self.old.works ≡ true }
        requires len { len ≤ READ_MOST }
        requires empty { answer.old.items ≡ [] }
        ensures performed { IfOk result (λ status. IsPerformed (Ok (Read offset len)) (M.state self.old.medium).image
            self.old.card self.new.card answer.new.items status) }
        ensures reads { Reads (M.state self.old.medium) (M.state self.new.medium) (is_err result) }
        ensures kept { OnErr result (self.new.card ≡ self.old.card) }
        ensures no_answer { OnErr result (answer.new.items ≡ []) }
    {
        let Some(file) = self.selected() else {
            return Ok(NONE_SELECTED);
        };
        if offset as u32 > file.range.len {
            return Ok(BAD_OFFSET);
        }
        if offset as u32 + len as u32 > file.range.len {
            return Ok(BAD_LENGTH);
        }
        let mut room = [0; 256];
        let out = &mut room[..len as usize];
        self.file_bytes(file, offset, out)?;
        let _ = answer.try_extend_from_slice(out);
        Ok(DONE)
    }

    /// UPDATE BINARY.
    fn update_binary(&mut self, offset: u16, bytes: &[u8]) -> Result<u16, Failed>
        requires works { self.old.works ≡ true }
        requires some { 0 < length bytes.now }
        requires few { length bytes.now ≤ WRITE_MOST }
        ensures performed { IfOk result (λ status. IsPerformed (Ok (Update offset (record { items = bytes.now })))
            (M.state self.old.medium).image self.old.card self.new.card [] status) }
        ensures image { Does (command_outcome self.old.card (Update offset (record { items = bytes.now }))).effect
            (M.state self.old.medium) (M.state self.new.medium) (is_err result) }
        ensures kept { OnErr result (self.new.card ≡ self.old.card) }
    {
        let Some(file) = self.selected() else {
            return Ok(NONE_SELECTED);
        };
        if !file.updated {
            return Ok(NOT_UPDATED);
        }
        if offset as u32 > file.range.len {
            return Ok(BAD_OFFSET);
        }
        if offset as u32 + bytes.len() as u32 > file.range.len {
            return Ok(BAD_LENGTH);
        }
        self.write(file.range.base + offset as u32, bytes)?;
        Ok(DONE)
    }

    /// Does what a header with its data asks for that reads as a command.
    fn perform(
        &mut self,
        read: &Result<Header, u16>,
        behind: &[u8],
        answer: &mut Answer,
    ) -> Result<u16, Failed>
        requires works { self.old.works ≡ true }
        requires writable { IfOk read.now (λ header. IsWritable (command_with header behind.now)) }
        requires few { IfOk read.now (λ header. length behind.now ≤ WRITE_MOST) }
        requires empty { answer.old.items ≡ [] }
        ensures performed { IfOk result (λ status. IsPerformed (read_with read.now behind.now)
            (M.state self.old.medium).image self.old.card self.new.card answer.new.items status) }
        ensures image { Does (outcome_from self.old.card (read_with read.now behind.now)).effect
            (M.state self.old.medium) (M.state self.new.medium) (is_err result) }
        ensures room { length answer.new.items ≤ READ_MOST }
        ensures kept { OnErr result (self.new.card ≡ self.old.card) }
        ensures no_answer { OnErr result (answer.new.items ≡ []) }
    {
        match read {
            Ok(Header::Application) => Ok(self.enter(Directory::Tachograph)),
            Ok(Header::Select(fid)) => self.select(*fid),
            Ok(Header::Read { offset, len }) => self.read_binary(*offset, *len, answer),
            Ok(Header::Update { offset }) => self.update_binary(*offset, behind),
            Err(status) => Ok(*status),
        }
    }
}

impl<M: Medium> Chip for SimCard<M> {
    ghost state = { λ c. M.state c.medium };

    ghost card = { λ c. c.card };

    ghost coherent = { λ c. M.coherent c.medium };

    ghost ten = { λ c. c.sound.ten };

    fn size(&self) -> u32 {
        self.medium.size()
    }

    fn clock(&self) -> u64 {
        self.medium.clock()
    }

    fn transmit(&mut self, command: &[u8], answer: &mut Answer) -> Result<(), Failed> {
        answer.clear();
        self.wake()?;
        let read = read_header(command);
        let behind = behind_header(command);
        let status = self.perform(&read, behind, answer)?;
        conclude(answer, status);
        Ok(())
    }

    fn issue(&mut self, image: &[u8]) -> Result<(), Failed> {
        self.card = CardState {
            directory: Directory::Master,
            selected: None,
            application: None,
        };
        let issued = issue(&mut self.medium, image);
        self.works = issued.is_ok();
        issued
    }

    fn revive(&mut self) -> Result<(), Failed> {
        self.enter(Directory::Master);
        let revived = self.medium.revive();
        self.works = revived.is_ok();
        revived
    }

    fn holds_bytes(&self) {
        self.medium.holds_bytes();
    }
}

/// Puts the status word behind the data.
fn conclude(answer: &mut Answer, status: u16)
    requires { length answer.old.items ≤ READ_MOST }
    ensures { answer.new.items ≡ answer.old.items ++ (status / 256 ∷ status % 256 ∷ []) }
{
    let _ = answer.try_extend_from_slice(&status.to_be_bytes());
}
