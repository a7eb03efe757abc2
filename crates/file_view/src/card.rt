//! The entries that a card file shows.
ghost use Rattle.std.specs.Prelude.{◌≡◌, ◌+◌, ◌*◌, ◌≤◌, ◌<◌, ◌++◌, ◌^◌, ℕ, List, [], Some, None, length, map, true};
ghost use Rattle.std.specs.Prelude.{IfOk, IfErr, OnOk};
ghost use Rattle.std.specs.List.{AllByRecursion};
ghost use Rattle.activity_codec.specs.declared.entries.Entry.{Entry as CardEntry};
ghost use Rattle.card_layout.specs.Application.{IsApplication};
ghost use Rattle.card_image.specs.CardFile.{FileEntry, IsCardFile, shown_entries, string_alone};
ghost use Rattle.card_layout.specs.declared.files.Application.{Application as Sizes};
ghost use Rattle.card_model.specs.Days.{Day};
ghost use Rattle.card_model.specs.Walk.{days_of};
ghost use Rattle.card_days.specs.Heads.{heads_of};
ghost use Rattle.card_retention.specs.Entries.{day_entries, entries_up_to};
ghost use Rattle.card_retention.specs.Retains.{Rise};
ghost use Rattle.view_model.specs.Lines.{lines_of, same_card, day_of_minute};
ghost use Rattle.view_text.specs.Text.{IsCardView};
ghost use Rattle.view_text.specs.Entries.{entry_shown};
ghost use Rattle.file_view.specs.CardFiles.{last_entries, mark_of, are_vehicles, IsBadCardFile};
ghost use Rattle.file_view.specs.Faults.{IfBadFile};
ghost use Rattle.file_view.specs.Histories.{AreLines, minutes_on, entry_told};
ghost use Rattle.file_view.specs.Reading.{AreParts, days_part, vehicles_part, vehicles_size};
ghost use Rattle.file_view.specs.Vehicles.{ShowsCard};
ghost use Rattle.file_view.specs.Walking.{IsDayAt};
ghost use Rattle.file_view.specs.Runs.{is_run};
ghost use Rattle.file_view.specs.Showing.{ShowsCardFile, TellsHeads, entries_told, entries_in, before_last};

use crate::ViewFault;
use crate::entry::part;
use crate::parts::{Parts, days_len, load_days, vehicles_len};
use crate::runs::add_run;
use crate::string::{heads, words_of};
use crate::vehicles::vehicles_in;
use activity_codec::{Change, DAY_MINUTES};
use card_days::{DayHead, Days};
use card_files::{Vehicle, read_vehicle};
use card_layout::Application;
use gated_ring::Ring;
use std::alloc::{AllocError, Global};
use std::marker::Model;
use tach_media::{Memory, SliceMedium};
use view_model::{CardShown, Line};
use view_text::lines_text;

/// How many bytes the pointer of Vehicles_Used has (Appendix 1, CardVehiclesUsed).
const VEHICLE_POINTER: usize = 2;

/// Where an entry has the time of its first use (Appendix 1, CardVehicleRecord).
const VEHICLE_FIRST_USE: u32 = 6;

/// The entries that a card file shows, as the lines of their view.
#[derive(Drop)]
pub struct CardHistory {
    lines: Vec<Line<CardShown>>,
}

impl Model for CardHistory {
    ghost use Rattle.std.specs.Prelude.{List, map};
    ghost use Rattle.activity_codec.specs.declared.entries.Entry.{Entry};
    ghost use Rattle.view_model.specs.Lines.{same_card};
    ghost use Rattle.file_view.specs.Histories.{AreLines, minutes_on, entry_told};

    ghost Value = { List Entry };

    ghost view = { λ h. map entry_told (minutes_on h.lines.items) };

    ghost invariant = { λ h. AreLines same_card h.lines.items };
}

impl CardHistory {
    /// The lines of its entries.
    pub fn lines(&self) -> &[Line<CardShown>]
        ensures lines { AreLines same_card result.now }
        ensures entries { map entry_told (minutes_on result.now) ≡ self.now }
    {
        self.lines.as_slice()
    }
}

/// The entries of a card file: the minutes in which the card was in a slot, up to the end mark (Appendix 7, 3.4;
/// Appendix 1, CardDriverActivity; the end mark: profile). Each is later than the one before it.
///
/// # Errors
///
/// 1. `BadFile` exactly where the bytes are no card file, with the place of the first entry that is not in its grammar,
///    or their length where a needed entry is missing.
/// 2. `Memory`.
pub fn read_card_file(alloc: Global, b: &[u8]) -> Result<CardHistory, ViewFault>
    requires { length b.now < 2 ^ 32 }
    ensures entries { IfOk result (λ h. ShowsCardFile None b.now h) }
    ensures rise { IfOk result (λ h. Rise h) }
    ensures bad { IfErr result (λ fault. IfBadFile fault (λ place. IsBadCardFile place b.now)) }
{
    card_history(alloc, b, None)
}

/// What a card file shows and tells.
#[derive(Drop)]
pub struct CardRead {
    /// Its entries.
    pub history: CardHistory,
    /// Its vehicle entries, oldest first.
    pub vehicles: Vec<Vehicle>,
}

/// The entries of a card file, and its vehicle entries.
///
/// # Errors
///
/// As `read_card_file`.
pub fn read_card(alloc: Global, b: &[u8]) -> Result<CardRead, ViewFault>
    requires { length b.now < 2 ^ 32 }
    ensures shown { IfOk result (λ card. ShowsCard b.now card.history card.vehicles.items) }
    ensures rise { IfOk result (λ card. Rise card.history) }
    ensures bad { IfErr result (λ fault. IfBadFile fault (λ place. IsBadCardFile place b.now)) }
{
    let parts = match Parts::read(b) {
        Ok(parts) => parts,
        Err(place) => return Err(ViewFault::BadFile(place)),
    };
    let value = part(b, parts.vehicles, vehicles_len(parts.app));
    let vehicles = vehicles_in(alloc, parts.app, value)?;
    let lines = card_lines(alloc, b, parts, None)?;
    Ok(CardRead {
        history: CardHistory { lines },
        vehicles,
    })
}

/// The entries of the newest `n` days of a card file's string, also of days behind the end mark and of days without an
/// entry, which show none; of all days where there are fewer.
///
/// # Errors
///
/// As `read_card_file`.
pub fn last_days(alloc: Global, b: &[u8], n: u32) -> Result<CardHistory, ViewFault>
    requires { length b.now < 2 ^ 32 }
    ensures entries { IfOk result (λ h. ShowsCardFile (Some n) b.now h) }
    ensures rise { IfOk result (λ h. Rise h) }
    ensures bad { IfErr result (λ fault. IfBadFile fault (λ place. IsBadCardFile place b.now)) }
{
    card_history(alloc, b, Some(n))
}

/// The heads of the days of a card file's string, oldest first.
///
/// # Errors
///
/// As `read_card_file`.
pub fn day_heads(alloc: Global, b: &[u8]) -> Result<Vec<DayHead>, ViewFault>
    requires { length b.now < 2 ^ 32 }
    ensures heads { IfOk result (λ heads. TellsHeads b.now heads.items) }
    ensures bad { IfErr result (λ fault. IfBadFile fault (λ place. IsBadCardFile place b.now)) }
{
    let parts = match Parts::read(b) {
        Ok(parts) => parts,
        Err(place) => return Err(ViewFault::BadFile(place)),
    };
    let all = string_heads(alloc, b, parts)?;
    Ok(all)
}

/// The view text of entries.
///
/// # Errors
///
/// `Memory` where it runs out.
pub fn card_text(alloc: Global, h: &CardHistory) -> Result<Vec<u8>, Memory>
    ensures { IfOk result (λ text. IsCardView (map entry_shown h.now) text.items) }
{
    let text = lines_text(alloc, h.lines.as_slice())?;
    Ok(text)
}

/// The entries of all days of a card file, or of the newest so many of its string, as `last_days`.
///
/// # Errors
///
/// As `read_card_file`.
pub fn card_history(alloc: Global, b: &[u8], last: Option<u32>) -> Result<CardHistory, ViewFault>
    requires { length b.now < 2 ^ 32 }
    ensures entries { IfOk result (λ h. ShowsCardFile last b.now h) }
    ensures rise { IfOk result (λ h. Rise h) }
    ensures bad { IfErr result (λ fault. IfBadFile fault (λ place. IsBadCardFile place b.now)) }
{
    let parts = match Parts::read(b) {
        Ok(parts) => parts,
        Err(place) => return Err(ViewFault::BadFile(place)),
    };
    let lines = card_lines(alloc, b, parts, last)?;
    Ok(CardHistory { lines })
}

/// The heads of the days of the string.
fn string_heads(alloc: Global, b: &[u8], parts: Parts) -> Result<Vec<DayHead>, AllocError>
    requires short { length b.now < 2 ^ 32 }
    requires parts { AreParts b.now parts }
    ensures { IfOk result (λ heads. heads.items
        ≡ heads_of (string_alone parts.app) (days_part b.now parts)
        (days_of (string_alone parts.app) (days_part b.now parts))) }
{
    let file = part(b, parts.days, days_len(parts.app));
    let Some(string) = load_days(file) else {
        return Ok(Vec::new(alloc));
    };
    let all = heads(alloc, &string, file)?;
    Ok(all)
}

/// The lines of the entries.
fn card_lines(
    alloc: Global,
    b: &[u8],
    parts: Parts,
    last: Option<u32>,
) -> Result<Vec<Line<CardShown>>, AllocError>
    requires short { length b.now < 2 ^ 32 }
    requires parts { AreParts b.now parts }
    ensures lines { IfOk result (λ lines. AreLines same_card lines.items) }
    ensures entries { IfOk result (λ lines. map entry_told (minutes_on lines.items)
        ≡ entries_told last parts.app (days_part b.now parts) (vehicles_part b.now parts)) }
    ensures rise { IfOk result (λ lines. Rise (map entry_told (minutes_on lines.items))) }
{
    let file = part(b, parts.days, days_len(parts.app));
    let mark = end_mark(parts.app, part(b, parts.vehicles, vehicles_len(parts.app)));
    let mut lines = Vec::new(alloc);
    let Some(string) = load_days(file) else {
        return Ok(lines);
    };
    let all = heads(alloc, &string, file)?;
    let from = first_of(all.len(), last);
    let shown = &all.as_slice()[from..];
    for head in shown {
        add_day(&mut lines, &string, file, head, mark)?;
    }
    Ok(lines)
}

/// Which of so many days is the first that is shown.
pub fn first_of(count: usize, last: Option<u32>) -> usize
    ensures most { result ≤ count }
    ensures value { result ≡ before_last last count }
{
    match last {
        Some(n) => count.saturating_sub(n as usize),
        None => 0,
    }
}

/// The minute of the last use that the vehicle entries tell; 0 without one.
pub fn end_mark(app: Application, value: &[u8]) -> u32
    requires sound { IsApplication app }
    requires good { are_vehicles (Some app) value.now ≡ true }
    requires len { length value.now ≡ vehicles_size app }
    ensures mark { result ≡ mark_of app value.now }
    ensures low { 60 * result < 2 ^ 32 }
{
    let mut medium = SliceMedium::new(value);
    let width = Vehicle::SIZE as u32;
    let count = u32::from(app.vehicles);
    let pointer = VEHICLE_POINTER as u8;
    let Ok(ring) = Ring::load(&mut medium, 0, width, count, pointer, VEHICLE_FIRST_USE) else {
        return 0;
    };
    let Ok(Some(index)) = ring.newest(&mut medium) else {
        return 0;
    };
    let place = VEHICLE_POINTER + Vehicle::SIZE * index as usize;
    read_vehicle(part(value, place, Vehicle::SIZE)).last_use.0 / 60
}

/// Adds the entries of a day.
fn add_day(
    lines: &mut Vec<Line<CardShown>>,
    string: &Days,
    file: &[u8],
    head: &DayHead,
    mark: u32,
) -> Result<(), AllocError>
    requires fits { 4 + string.now.shape.size ≤ length file.now }
    requires alone { string.now.shape.base ≡ 0 }
    requires short { length file.now < 2 ^ 32 }
    requires place { head.now.place < 4 + string.now.shape.size }
    requires day { (d : Day) × IsDayAt string.now.shape file.now head.now d }
    ensures { (d : Day) (before : List CardEntry) → IsDayAt string.now.shape file.now head.now d
        → lines.old.items ≡ lines_of same_card (map entry_shown before)
        → OnOk result (lines.new.items ≡ lines_of same_card (map entry_shown (before ++ day_entries mark d))) }
{
    let words = words_of(string, file, head);
    let first = head.date.0 / 60;
    let mut t = 0;
    let mut place = 0;
    while t < DAY_MINUTES {
        let run = words.run_at(t, place);
        add_told(lines, mark, first + t, first + run.end - 1, run.change)?;
        place = run.place;
        t = run.end;
    }
    Ok(())
}

/// Adds the entries that a change tells of minutes in a row of one day, up to the mark, if it tells any.
fn add_told(
    lines: &mut Vec<Line<CardShown>>,
    mark: u32,
    first: u32,
    last: u32,
    change: Option<Change>,
) -> Result<(), AllocError>
    requires { is_run first last ≡ true }
    ensures { (before : List CardEntry) → lines.old.items ≡ lines_of same_card (map entry_shown before)
        → OnOk result (lines.new.items
        ≡ lines_of same_card (map entry_shown (before ++ entries_in mark first last change))) }
{
    let change = match change {
        Some(change) => change,
        None => return Ok(()),
    };
    if first > mark {
        return Ok(());
    }
    if change.absent {
        return Ok(());
    }
    let run = Line {
        first,
        last: last.min(mark),
        shown: CardShown {
            slot: change.slot,
            act: change.act,
            crew: change.crew_or_known,
        },
    };
    add_run(lines, run)
}
