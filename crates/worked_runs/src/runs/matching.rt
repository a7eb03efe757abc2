//! Whether the entries of a card stand in the unit's file: by the match of both files, and each entry looked up by
//! itself.
use activity_codec::{Entry, Slot};
use card_download::write_card_file;
use card_layout::LARGEST_IMAGE;
use card_match::{Matched, match_files};
use file_calls::{CardEntries, UnitMinutes};
use file_view::{CardHistory, UnitHistory, read_card_file, read_download};
use std::alloc::Global;
use std::test::Fail;
use tach_media::{Chip, MemSink};
use unit_download::{Wire, download};
use worked_media::{NO_ROOM, unit_with};

/// More than the file of a day has.
const MOST: usize = 32768;

/// The file of a unit with this image.
pub fn unit_file(alloc: Global, image: Vec<u8>) -> Result<Vec<u8>, Fail> {
    let mut unit = unit_with(alloc, image, NO_ROOM, Vec::new(alloc))?;
    let mut sink = MemSink::new(Vec::with_capacity(alloc, MOST)?, Vec::new(alloc));
    let mut wire = Wire::new(alloc);
    if download(alloc, &mut sink, &mut unit, &mut wire).is_err() {
        return Err(Fail::from("a download that is refused"));
    }
    Ok(sink.held().to_vec(alloc)?)
}

/// The file of a card that works again.
pub fn card_file<C: Chip>(alloc: Global, card: &mut C) -> Result<Vec<u8>, Fail> {
    card.revive()?;
    if card.size() < LARGEST_IMAGE {
        return Err(Fail::from("a card is too small"));
    }
    let mut sink = MemSink::new(Vec::with_capacity(alloc, MOST)?, Vec::new(alloc));
    if write_card_file(card, &mut sink).is_err() {
        return Err(Fail::from("a card that is refused"));
    }
    Ok(sink.held().to_vec(alloc)?)
}

/// How many entries a card's file has, where the match says yes with all of them tested, and each of them stands in the
/// unit's file; else nothing.
pub fn entries_that_match(alloc: Global, unit: &[u8], card: &[u8]) -> Result<Option<u32>, Fail> {
    if unit.len() > MOST || card.len() > MOST {
        return Err(Fail::from("a file of many days"));
    }
    let Ok(minutes) = read_download(alloc, unit) else {
        return Err(Fail::from("a unit file that is refused"));
    };
    let Ok(entries) = read_card_file(alloc, card) else {
        return Err(Fail::from("a card file that is refused"));
    };
    let Ok(matched) = match_files(alloc, unit, card) else {
        return Err(Fail::from("files that are refused"));
    };
    let all = Matched::Yes {
        tested: entries.count(),
        other: 0,
        before: 0,
    };
    if matched == all && all_stand(&minutes, &entries) {
        return Ok(Some(entries.count()));
    }
    Ok(None)
}

/// Whether each entry stands.
fn all_stand(minutes: &UnitHistory, entries: &CardHistory) -> bool {
    let count = entries.count();
    for nth in 0..count {
        if !stands(minutes, entries.entry(nth)) {
            return false;
        }
    }
    true
}

/// Whether the unit's file has the minute of an entry, with a card in its slot, its activity and its crew.
fn stands(minutes: &UnitHistory, entry: Entry) -> bool {
    let Some(shown) = minutes.at(entry.minute) else {
        return false;
    };
    let state = match entry.slot {
        Slot::Driver => shown.driver,
        Slot::CoDriver => shown.codriver,
    };
    state.present && state.act == entry.act && shown.crew == entry.crew
}
