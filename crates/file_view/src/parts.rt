//! The files of a card file that its view needs.
ghost use Rattle.std.specs.Prelude.{◌≡◌, ◌+◌, ◌≤◌, ◌-◌, ◌%◌, true, false, ◌<◌, ◌^◌, ◌++◌, ◌∷◌, ◌&&◌, not, is_some};
ghost use Rattle.std.specs.Prelude.{List, [], Some, None, length, IfOk, IfErr, IfSome, IfNone};
ghost use Rattle.std.specs.Bool.{OnTrue};
ghost use Rattle.std.specs.Option.{ForSome};
ghost use Rattle.card_layout.specs.Application.{IsApplication, application_of};
ghost use Rattle.card_layout.specs.declared.files.TheConstants.{STRING_LEAST, STRING_MOST};
ghost use Rattle.card_model.specs.Checks.{first_bad};
ghost use Rattle.card_model.specs.Image.{IsStringShape};
ghost use Rattle.card_model.specs.Walk.{days_of};
ghost use Rattle.card_days.specs.Held.{Knows};
ghost use Rattle.card_image.specs.CardFile.{FileEntry};
ghost use Rattle.file_view.specs.CardFiles.{may_follow, lacks, are_sizes, are_days, are_vehicles, IsBadCardFile};
ghost use Rattle.file_view.specs.Reading.{FoundInFile, told_at, value_at, days_size, vehicles_size, AreParts};
ghost use Rattle.file_view.specs.Reading.{ArePartsOf};

use crate::entry::{EntryAt, part};
use byteorder::{BigEndian, ByteOrder};
use card_days::Days;
use card_files::{Vehicle, read_application};
use card_layout::{Application, Fid, Range};
use tach_media::SliceMedium;

/// How many bytes Application_Identification has.
const SIZES: usize = 10;

/// What a view needs of a card file: the card's sizes, and where the string of days and the vehicle entries begin in
/// it.
#[derive(Clone, Copy, Debug, PartialEq, Eq)]
pub struct Parts {
    pub app: Application,
    pub days: usize,
    pub vehicles: usize,
}

impl Parts {
    /// The parts of a card file, or the place where the bytes are first outside its grammar.
    ///
    /// # Errors
    ///
    /// The place of the first entry that is not in the grammar, or the length of the bytes where a needed entry is
    /// missing.
    pub fn read(b: &[u8]) -> Result<Parts, u32>
        requires { length b.now < 2 ^ 32 }
        ensures parts { IfOk result (AreParts b.now) }
        ensures bad { IfErr result (λ place. IsBadCardFile place b.now) }
    {
        let mut found = Found {
            app: None,
            days: None,
            vehicles: None,
        };
        let mut place = 0;
        while place < b.len() {
            let Some(entry) = EntryAt::read(b, place) else {
                return Err(place as u32);
            };
            if !found.take(b, entry) {
                return Err(place as u32);
            }
            place = entry.place + entry.len;
        }
        match found.whole() {
            Some(parts) => Ok(parts),
            None => Err(b.len() as u32),
        }
    }
}

/// The needed parts that were found so far.
#[derive(Clone, Copy)]
struct Found {
    app: Option<Application>,
    days: Option<usize>,
    vehicles: Option<usize>,
}

impl Found {
    /// Whether an entry may stand behind those before it; it is then taken.
    fn take(&mut self, b: &[u8], entry: EntryAt) -> bool
        requires sound { ForSome self.old.app IsApplication }
        requires inside { entry.place + entry.len ≤ length b.now }
        requires short { length b.now < 2 ^ 32 }
        ensures sound { ForSome self.new.app IsApplication }
        ensures follows { (before : List FileEntry) → FoundInFile b.now self.old before
            → result ≡ may_follow before (told_at b.now entry) }
        ensures taken { (before : List FileEntry) → FoundInFile b.now self.old before
            → OnTrue result (FoundInFile b.now self.new (before ++ told_at b.now entry ∷ [])) }
    {
        if entry.kind != 0 {
            return true;
        }
        if entry.fid == Fid::APPLICATION.0 {
            return self.take_sizes(entry.value(b));
        }
        if entry.fid == Fid::ACTIVITY.0 {
            return self.take_days(entry.value(b), entry.place);
        }
        if entry.fid == Fid::VEHICLES.0 {
            return self.take_vehicles(entry.value(b), entry.place);
        }
        true
    }

    /// Takes the card's sizes.
    fn take_sizes(&mut self, value: &[u8]) -> bool
        requires sound { ForSome self.old.app IsApplication }
        ensures sound { ForSome self.new.app IsApplication }
        ensures judged { result ≡ (not (is_some self.old.app) && are_sizes value.now) }
        ensures taken { OnTrue result (self.new ≡ record self.old { app = Some (application_of value.now) }) }
    {
        if self.app.is_some() {
            return false;
        }
        if value.len() != SIZES {
            return false;
        }
        let Ok(app) = read_application(value) else {
            return false;
        };
        self.app = Some(app);
        true
    }

    /// Takes the string of days, which stands there.
    fn take_days(&mut self, value: &[u8], place: usize) -> bool
        requires sound { ForSome self.old.app IsApplication }
        requires short { length value.now < 2 ^ 32 }
        ensures sound { self.new.app ≡ self.old.app }
        ensures judged { result ≡ (not (is_some self.old.days) && are_days self.old.app value.now) }
        ensures taken { OnTrue result (self.new ≡ record self.old { days = Some place }) }
    {
        let Some(app) = self.app else {
            return false;
        };
        if self.days.is_some() {
            return false;
        }
        if !are_days(app, value) {
            return false;
        }
        self.days = Some(place);
        true
    }

    /// Takes the vehicle entries, which stand there.
    fn take_vehicles(&mut self, value: &[u8], place: usize) -> bool
        requires sound { ForSome self.old.app IsApplication }
        ensures sound { self.new.app ≡ self.old.app }
        ensures judged { result ≡ (not (is_some self.old.vehicles) && are_vehicles self.old.app value.now) }
        ensures taken { OnTrue result (self.new ≡ record self.old { vehicles = Some place }) }
    {
        let Some(app) = self.app else {
            return false;
        };
        if self.vehicles.is_some() {
            return false;
        }
        if !are_vehicles(app, value) {
            return false;
        }
        self.vehicles = Some(place);
        true
    }

    /// The parts, where all were found.
    fn whole(&self) -> Option<Parts>
        ensures some { IfSome result (ArePartsOf self.now) }
        ensures none { IfNone result ((is_some self.now.app && (is_some self.now.days && is_some self.now.vehicles))
            ≡ false) }
    {
        let app = self.app?;
        let days = self.days?;
        let vehicles = self.vehicles?;
        Some(Parts {
            app,
            days,
            vehicles,
        })
    }
}

/// How many bytes the string of days has behind its pointers, with them.
pub fn days_len(app: Application) -> usize
    ensures value { result ≡ days_size app }
{
    4 + app.activity as usize
}

/// How many bytes the vehicle entries have, with their pointer.
pub fn vehicles_len(app: Application) -> usize
    ensures value { result ≡ vehicles_size app }
{
    2 + Vehicle::SIZE * app.vehicles as usize
}

/// Whether a value is a string of days of a card of these sizes.
fn are_days(app: Application, value: &[u8]) -> bool
    requires sound { IsApplication app }
    requires short { length value.now < 2 ^ 32 }
    ensures { result ≡ are_days (Some app) value.now }
{
    if value.len() != days_len(app) {
        return false;
    }
    load_days(value).is_some()
}

/// The days of a string that stands alone.
pub fn load_days(value: &[u8]) -> Option<Days>
    requires even { length value.now % 2 ≡ 0 }
    requires low { 4 + STRING_LEAST ≤ length value.now }
    requires high { length value.now ≤ 4 + STRING_MOST }
    ensures shape { IfSome result (λ days. IsStringShape days.shape) }
    ensures some { IfSome result (λ days. (days.shape ≡ record { base = 0; size = length value.now - 4 })
        × Knows days value.now (days_of (record { base = 0; size = length value.now - 4 }) value.now)) }
    ensures none { IfNone result (is_some (first_bad (record { base = 0; size = length value.now - 4 }) value.now)
        ≡ true) }
{
    let len = value.len() as u32;
    let mut medium = SliceMedium::new(value);
    match Days::load(&mut medium, Range { base: 0, len }) {
        Ok(days) => Some(days),
        Err(_) => None,
    }
}

/// Whether a value holds the vehicle entries of a card of these sizes.
fn are_vehicles(app: Application, value: &[u8]) -> bool
    ensures { result ≡ are_vehicles (Some app) value.now }
{
    if value.len() != vehicles_len(app) {
        return false;
    }
    BigEndian::read_u16(part(value, 0, 2)) < app.vehicles
}
