//! The minutes that a unit file shows.
ghost use Rattle.std.specs.Prelude.{◌≡◌, ◌+◌, ◌*◌, ◌≤◌, ◌<◌, ◌++◌, ◌∷◌, ◌^◌, ℕ, List, [], Some, None, length, map};
ghost use Rattle.std.specs.Prelude.{drop, if◌then◌else◌, ◌==◌, ◌/◌, ◌%◌, IfOk, IfErr, OnOk, option_map};
ghost use Rattle.message_model.specs.Messages.{Message as FileMessage, AnOverview, ADay, Overview as FileOverview};
ghost use Rattle.message_model.specs.Messages.{DayMessage, IsUnitFile};
ghost use Rattle.message_model.specs.Showing.{day_minutes, told_day};
ghost use Rattle.unit_model.specs.Days.{UnitMinute};
ghost use Rattle.unit_messages.specs.Reading.{BeginsWith, request_of};
ghost use Rattle.view_model.specs.Lines.{lines_of, same_unit};
ghost use Rattle.view_text.specs.Text.{IsUnitView};
ghost use Rattle.file_view.specs.Deciding.{Decides};
ghost use Rattle.file_view.specs.Faults.{IfBadFile};
ghost use Rattle.file_view.specs.Histories.{AreLines, minutes_on, minute_told, minute_shown};
ghost use Rattle.file_view.specs.UnitFiles.{IsBadUnitFile, HasNoMessage};
ghost use Rattle.file_view.specs.UnitShowing.{ShowsUnitFile, AreTold, IsTaken, minutes_told, IsStoredAt, SlotsDecide};
ghost use Rattle.file_view.specs.UnitShowing.{slot_words, state_by, crew_by, minutes_of_day, first_time};

use crate::ViewFault;
use crate::card::first_of;
use crate::day_words::DayWords;
use crate::entry::part;
use crate::runs::add_run;
use activity_codec::{Activity, Change, DAY_MINUTES, DAY_SECONDS};
use byteorder::{BigEndian, ByteOrder};
use std::alloc::{AllocError, Global};
use std::marker::Model;
use tach_media::Memory;
use unit_messages::{Request, day_words, overview, read_message};
use view_model::{Line, State, UnitShown};
use view_text::lines_text;

/// The least word of the co-driver slot: the slot is the highest bit of a word.
const CODRIVER: u16 = 32768;

/// The minutes that a unit file shows, as the lines of their view.
#[derive(Drop)]
pub struct UnitHistory {
    lines: Vec<Line<UnitShown>>,
}

impl Model for UnitHistory {
    ghost use Rattle.std.specs.Prelude.{List, map};
    ghost use Rattle.unit_model.specs.Days.{UnitMinute};
    ghost use Rattle.view_model.specs.Lines.{same_unit};
    ghost use Rattle.file_view.specs.Histories.{AreLines, minutes_on, minute_told};

    ghost Value = { List UnitMinute };

    ghost view = { λ h. map minute_told (minutes_on h.lines.items) };

    ghost invariant = { λ h. AreLines same_unit h.lines.items };
}

impl UnitHistory {
    /// The lines of its minutes.
    pub fn lines(&self) -> &[Line<UnitShown>]
        ensures lines { AreLines same_unit result.now }
        ensures minutes { map minute_told (minutes_on result.now) ≡ self.now }
    {
        self.lines.as_slice()
    }
}

/// The minutes of a unit file: for each message of a day, in order, all minutes of its day, or those up to the minute
/// of the first overview's time where that lies in the day (Appendix 7, 2.2.6; the cut: profile).
///
/// # Errors
///
/// 1. `BadFile` exactly where the bytes are no unit file, with the place of the first message that is not in its
///    grammar, 0 where there is no byte.
/// 2. `Memory`.
pub fn read_download(alloc: Global, b: &[u8]) -> Result<UnitHistory, ViewFault>
    requires { length b.now < 2 ^ 32 }
    ensures minutes { IfOk result (λ h. ShowsUnitFile None b.now h) }
    ensures bad { IfErr result (λ fault. IfBadFile fault (λ place. IsBadUnitFile place b.now)) }
{
    unit_history(alloc, b, None)
}

/// The minutes of the last `n` messages of a day; of all where there are fewer.
///
/// # Errors
///
/// As `read_download`.
pub fn last_messages(alloc: Global, b: &[u8], n: u32) -> Result<UnitHistory, ViewFault>
    requires { length b.now < 2 ^ 32 }
    ensures minutes { IfOk result (λ h. ShowsUnitFile (Some n) b.now h) }
    ensures bad { IfErr result (λ fault. IfBadFile fault (λ place. IsBadUnitFile place b.now)) }
{
    unit_history(alloc, b, Some(n))
}

/// The view text of minutes.
///
/// # Errors
///
/// `Memory` where it runs out.
pub fn unit_text(alloc: Global, h: &UnitHistory) -> Result<Vec<u8>, Memory>
    ensures { IfOk result (λ text. IsUnitView (map minute_shown h.now) text.items) }
{
    let text = lines_text(alloc, h.lines.as_slice())?;
    Ok(text)
}

/// The minutes of all messages of a day of a unit file, or of the last so many.
///
/// # Errors
///
/// As `read_download`.
pub fn unit_history(alloc: Global, b: &[u8], last: Option<u32>) -> Result<UnitHistory, ViewFault>
    requires { length b.now < 2 ^ 32 }
    ensures minutes { IfOk result (λ h. ShowsUnitFile last b.now h) }
    ensures bad { IfErr result (λ fault. IfBadFile fault (λ place. IsBadUnitFile place b.now)) }
{
    let told = Told::read(alloc, b)?;
    let lines = unit_lines(alloc, b, &told, last)?;
    Ok(UnitHistory { lines })
}

/// The lines of the minutes of a file that was read.
fn unit_lines(
    alloc: Global,
    b: &[u8],
    told: &Told,
    last: Option<u32>,
) -> Result<Vec<Line<UnitShown>>, AllocError>
    requires { (messages : List FileMessage) × AreTold b.now messages told.now }
    ensures lines { IfOk result (λ lines. AreLines same_unit lines.items) }
    ensures minutes { (messages : List FileMessage) → AreTold b.now messages told.now
        → IfOk result (λ lines. map minute_told (minutes_on lines.items) ≡ minutes_told last messages) }
{
    let mut lines = Vec::new(alloc);
    let time = told.time;
    let from = first_of(told.days.len(), last);
    let shown = &told.days.as_slice()[from..];
    for day in shown {
        add_day(&mut lines, b, *day, time)?;
    }
    Ok(lines)
}

/// A day of a unit file: its first second, and where its words stand.
#[derive(Clone, Copy, Debug, Default, PartialEq, Eq)]
pub struct DayAt {
    date: u32,
    place: usize,
    words: u16,
}

/// What a unit file tells: the time of its first overview, and its days.
#[derive(Drop)]
pub struct Told {
    time: Option<u32>,
    days: Vec<DayAt>,
}

impl Told {
    /// Reads a unit file, one message after another.
    fn read(alloc: Global, b: &[u8]) -> Result<Told, ViewFault>
        requires { length b.now < 2 ^ 32 }
        ensures told { IfOk result (λ told. (messages : List FileMessage) × IsUnitFile messages b.now
            × AreTold b.now messages told) }
        ensures bad { IfErr result (λ fault. IfBadFile fault (λ place. IsBadUnitFile place b.now)) }
    {
        let mut told = Told {
            time: None,
            days: Vec::new(alloc),
        };
        let mut place = told.take_at(b, 0)?;
        while place < b.len() {
            place = told.take_at(b, place)?;
        }
        Ok(told)
    }

    /// Takes the message that stands at this place, and answers where it ends.
    fn take_at(&mut self, b: &[u8], place: usize) -> Result<usize, ViewFault>
        requires inside { place ≤ length b.now }
        requires short { length b.now < 2 ^ 32 }
        ensures taken { (before : List FileMessage) → AreTold b.now before self.old
            → IfOk result (λ end. IsTaken b.now before place end self.new) }
        ensures bad { IfErr result (λ fault. IfBadFile fault (λ at. (at ≡ place) × HasNoMessage (drop place b.now))) }
    {
        let read = match read_message(&b[place..]) {
            Ok(read) => read,
            Err(_) => return Err(ViewFault::BadFile(place as u32)),
        };
        self.take(b, place, read.request)?;
        Ok(place + read.len as usize)
    }

    /// Takes the message that stands at this place, which answers this request.
    fn take(&mut self, b: &[u8], place: usize, request: Request) -> Result<(), AllocError>
        requires inside { place ≤ length b.now }
        requires begins { (m : FileMessage) × BeginsWith m (drop place b.now) × (request ≡ request_of m) }
        ensures { (m : FileMessage) (before : List FileMessage) → BeginsWith m (drop place b.now)
            → request ≡ request_of m → AreTold b.now before self.old
            → OnOk result (AreTold b.now (before ++ m ∷ []) self.new) }
    {
        match request {
            Request::Overview => {
                self.take_time(&b[place..]);
                Ok(())
            }
            Request::Day(date) => self.take_day(b, place, date),
            Request::Events => Ok(()),
            Request::Speed => Ok(()),
            Request::Technical => Ok(()),
        }
    }

    /// Takes the time of the overview at the front, where none was taken.
    fn take_time(&mut self, rest: &[u8])
        requires { (m : FileOverview) × BeginsWith (AnOverview m) rest.now }
        ensures days { self.new.days ≡ self.old.days }
        ensures time { (m : FileOverview) → BeginsWith (AnOverview m) rest.now
            → self.new.time ≡ first_time self.old.time (Some m.now) }
    {
        if self.time.is_some() {
            return;
        }
        let read = overview(rest);
        self.time = Some(read.now.0);
    }

    /// Takes the day that stands at this place.
    fn take_day(&mut self, b: &[u8], place: usize, date: u32) -> Result<(), AllocError>
        requires inside { place ≤ length b.now }
        requires begins { (m : DayMessage) × BeginsWith (ADay m) (drop place b.now) }
        ensures time { self.new.time ≡ self.old.time }
        ensures day { (m : DayMessage) → BeginsWith (ADay m) (drop place b.now) → date ≡ m.date
            → OnOk result ((day : DayAt) × IsStoredAt b.now day m
            × (self.new.days.items ≡ self.old.days.items ++ day ∷ [])) }
    {
        let found = day_words(&b[place..]);
        let day = DayAt {
            date,
            place: place + found.0 as usize,
            words: found.1,
        };
        self.days.push(day)?;
        Ok(())
    }
}

/// Adds the minutes of a day, up to the unit's time where that lies in it.
fn add_day(
    lines: &mut Vec<Line<UnitShown>>,
    b: &[u8],
    day: DayAt,
    time: Option<u32>,
) -> Result<(), AllocError>
    requires { (m : DayMessage) × IsStoredAt b.now day m }
    ensures { (m : DayMessage) (before : List UnitMinute) → IsStoredAt b.now day m
        → lines.old.items ≡ lines_of same_unit (map minute_shown before)
        → OnOk result (lines.new.items
        ≡ lines_of same_unit (map minute_shown (before ++ day_minutes time (told_day m)))) }
{
    let words = words_of(b, day);
    let first = day.date / 60;
    let count = count_of(day.date, time);
    let mut t = 0;
    let mut places = (0, 0);
    while t < count {
        let driver = words.driver.run_at(t, places.0);
        let codriver = words.codriver.run_at(t, places.1);
        let end = driver.end.min(codriver.end).min(count);
        let run = Line {
            first: first + t,
            last: first + end - 1,
            shown: shown_by(driver.change, codriver.change),
        };
        add_run(lines, run)?;
        places = (driver.place, codriver.place);
        t = end;
    }
    Ok(())
}

/// How many minutes of a day are shown.
fn count_of(date: u32, time: Option<u32>) -> u32
    ensures most { result ≤ 1440 }
    ensures value { result ≡ minutes_of_day date time }
{
    let kept = match time {
        Some(time) => time / 60,
        None => return DAY_MINUTES,
    };
    if date / DAY_SECONDS == kept / DAY_MINUTES {
        return kept % DAY_MINUTES + 1;
    }
    DAY_MINUTES
}

/// Which changes of each slot decide the minutes of a day.
#[derive(Drop)]
pub struct SlotWords {
    driver: DayWords,
    codriver: DayWords,
}

impl SlotWords {
    /// No word came yet.
    fn new() -> SlotWords
        ensures { SlotsDecide result [] }
    {
        SlotWords {
            driver: DayWords::new(),
            codriver: DayWords::new(),
        }
    }

    /// One word more, which stands before those that came.
    fn put_word(&mut self, word: u16)
        ensures { (words : List ℕ) → SlotsDecide self.old words → SlotsDecide self.new (word ∷ words) }
    {
        if word < CODRIVER {
            self.driver.put_word(word);
            return;
        }
        self.codriver.put_word(word);
    }
}

/// Which words of a day decide its minutes.
fn words_of(b: &[u8], day: DayAt) -> SlotWords
    requires { day.place + 2 * day.words ≤ length b.now }
    ensures { (m : DayMessage) → IsStoredAt b.now day m → SlotsDecide result m.words }
{
    let mut words = SlotWords::new();
    let mut left = day.words as usize;
    while left > 0 {
        left -= 1;
        let word = BigEndian::read_u16(part(b, day.place + 2 * left, 2));
        words.put_word(word);
    }
    words
}

/// What is shown of a minute by the changes that decide it; CREW is that of the driver's.
fn shown_by(driver: Option<Change>, codriver: Option<Change>) -> UnitShown
    ensures { result ≡ record { driver = state_by driver; codriver = state_by codriver; crew = crew_by driver } }
{
    let crew = match driver {
        Some(change) => change.crew_or_known,
        None => false,
    };
    UnitShown {
        driver: state_of(driver),
        codriver: state_of(codriver),
        crew,
    }
}

/// The state of a slot: rest, with no card, where no change decides.
fn state_of(change: Option<Change>) -> State
    ensures { result ≡ state_by change }
{
    match change {
        Some(change) => State {
            act: change.act,
            present: !change.absent,
        },
        None => State {
            act: Activity::Rest,
            present: false,
        },
    }
}
