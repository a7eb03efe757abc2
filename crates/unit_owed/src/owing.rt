//! What is owed to the card of a number, and which row is begun for it: read at once of all rows.
ghost use Rattle.std.specs.Prelude.{◌≡◌, ◌≤◌, ◌<◌, ◌+◌, ◌%◌, ◌==◌, ◌&&◌, ◌↔◌, [], fold, is_some, length, nat_lt};
ghost use Rattle.std.specs.Prelude.{nat_le, true, IfOk, IfSome, is_err, option_map};
ghost use Rattle.unit_model.specs.declared.layout.TheConstants.{CELLS, OWED, OWED_ROWS};
ghost use Rattle.std.specs.List.{prefix_len, range_with_len};
ghost use Rattle.unit_model.specs.Ring.{number_at};
ghost use Rattle.tach_media.specs.Medium.{Reads};
ghost use Rattle.unit_model.specs.Image.{IsUnit, last_kept};
ghost use Rattle.unit_owed.specs.Owed.{rows_in, row_in, cell_in, entry_of, placed, counts, owed_of, owed_to};
ghost use Rattle.unit_owed.specs.Rows.{HasRow, IsRowFor};
ghost use Rattle.unit_owed.specs.Searching.{with_owed, IsSane};

use crate::rows::{begun_row, number_at, read_rows, row_index, session_in};
use activity_codec::{DAY_MINUTES, Entry, Owed, decode_change};
use tach_media::{Failed, Medium};
use unit_model::layout::{CELL_SIZE, CELL_WORD, CELLS, OWED_ROW_SIZE, ROW_CELLS, WORD_MINUTES};

/// What is asked as a card is put in: the entries that are owed to it, and the row that is begun for it.
#[derive(Drop)]
pub struct Asked {
    /// The entries that are owed to it, in order of minutes.
    pub owed: Owed,
    /// The index of the row that is begun for it, 0 to 7.
    pub row: u32,
}

/// The session of a card, and the minutes between which its entries are owed: later than the one, up to the last-kept
/// one.
#[derive(Clone, Copy)]
pub struct Owing {
    pub session: u32,
    pub after: u32,
    pub kept: u32,
}

/// How many entries from the front on are earlier than a minute.
fn place_for(entries: &[Entry], minute: u32) -> usize
    ensures place { result ≡ prefix_len (λ e. nat_lt e.minute minute) entries.now }
    ensures below { result ≤ length entries.now }
{
    let mut at = 0;
    while at < entries.len() && entries[at].minute < minute {
        at += 1;
    }
    at
}

/// Puts an entry behind those that are earlier.
fn place(owed: &mut Owed, entry: Entry)
    requires room { length owed.old.items < 4 }
    ensures placed { owed.new.items ≡ placed owed.old.items entry }
    ensures length { length owed.new.items ≡ length owed.old.items + 1 }
{
    let at = place_for(owed.as_slice(), entry.minute);
    owed.insert(at, entry);
}

/// The entry of a cell.
fn entry_of(minute: u32, word: u32) -> Entry
    requires { word < 65536 }
    ensures { result ≡ entry_of (record { minute = minute; word = word }) }
{
    match decode_change((word / WORD_MINUTES * WORD_MINUTES) as u16) {
        Ok(change) => Entry {
            minute,
            slot: change.slot,
            crew: change.crew_or_known,
            act: change.act,
        },
        Err(_) => Entry::default(),
    }
}

/// Adds the entry of a cell, where it holds one that is owed.
fn add_cell(owed: &mut Owed, cell: u32, minute: u32, word: u32, owing: Owing)
    requires cell { cell < CELLS }
    requires word { word < 65536 }
    requires room { length owed.old.items ≤ cell }
    ensures added { owed.new.items
        ≡ with_owed owing.session owing.after owing.kept owed.old.items cell (record { minute = minute; word = word }) }
    ensures room { length owed.new.items ≤ cell + 1 }
{
    if is_owed(cell, minute, owing) {
        place(owed, entry_of(minute, word));
    }
}

/// Whether the entry of a cell with this minute is owed.
fn is_owed(cell: u32, minute: u32, owing: Owing) -> bool
    ensures { result ≡ (minute % 4 == cell && nat_le 1440 minute)
        && counts owing.session owing.after owing.kept minute }
{
    (minute % CELLS == cell && DAY_MINUTES <= minute)
        && (owing.session / 60 <= minute && (owing.after < minute && minute <= owing.kept))
}

/// The number in two bytes of the rows.
fn word_in(rows: &[u8], place: u32) -> u32
    requires inside { place + 2 ≤ length rows.now }
    ensures value { result ≡ number_at rows.now place 2 }
    ensures short { result < 65536 }
{
    let from = place as usize;
    u32::from(u16::from_be_bytes([rows[from], rows[from + 1]]))
}

/// What is owed of the cells of a row.
fn owed_cells(rows: &[u8], row: u32, owing: Owing) -> Owed
    requires sized { length rows.now ≡ OWED.size }
    requires row { row < OWED_ROWS }
    ensures items { result.items
        ≡ fold (λ es i. with_owed owing.session owing.after owing.kept es i (cell_in rows.now row i)) []
        (range_with_len 0 4) }
    ensures sane { IsSane owing.after owing.kept result.items }
{
    let mut owed = Owed::new();
    for cell in 0..CELLS {
        let place = row * OWED_ROW_SIZE + ROW_CELLS.place + cell * CELL_SIZE;
        let minute = number_at(rows, place, 4);
        let word = word_in(rows, place + CELL_WORD.place);
        add_cell(&mut owed, cell, minute, word, owing);
    }
    owed
}

/// What is owed of a row.
fn owed_in(rows: &[u8], row: Option<u32>, owing: Owing) -> Owed
    requires sized { length rows.now ≡ OWED.size }
    requires row { IfSome row (λ r. r < OWED_ROWS) }
    ensures items { result.items ≡ owed_of owing.session owing.after owing.kept (option_map (row_in rows.now) row) }
    ensures sane { IsSane owing.after owing.kept result.items }
{
    match row {
        None => Owed::new(),
        Some(row) => {
            if session_in(rows, row) == owing.session {
                owed_cells(rows, row, owing)
            } else {
                Owed::new()
            }
        }
    }
}

/// The entries that are owed to the card of a number in a session, in order of minutes, of a unit whose last-kept
/// minute is given.
///
/// # Errors
///
/// `Failed` where the unit failed.
pub fn owed<M: Medium>(
    unit: &mut M,
    kept: u32,
    number: &[u8],
    session: u32,
    after: u32,
) -> Result<Owed, Failed>
    requires unit { IsUnit (M.state unit.old) }
    requires kept { IfSome (M.state unit.old).image (λ x. kept ≡ last_kept x) }
    ensures sane { IfOk result (λ es. IsSane after kept es.items) }
    ensures owed { IfOk result (λ es. IfSome (M.state unit.old).image (λ x. es.items ≡ owed_to x number.now session
        after)) }
    ensures reads { Reads (M.state unit.old) (M.state unit.new) (is_err result) }
{
    let rows = read_rows(unit)?;
    let owing = Owing {
        session,
        after,
        kept,
    };
    Ok(owed_in(&rows, row_index(&rows, number), owing))
}

/// The same, and which row is begun for the number, while the row of another one is spared: in one read.
///
/// # Errors
///
/// `Failed` where the unit failed.
pub fn ask<M: Medium>(
    unit: &mut M,
    kept: u32,
    number: &[u8],
    session: u32,
    after: u32,
    spared: Option<&[u8]>,
) -> Result<Asked, Failed>
    requires unit { IsUnit (M.state unit.old) }
    requires kept { IfSome (M.state unit.old).image (λ x. kept ≡ last_kept x) }
    ensures sane { IfOk result (λ a. IsSane after kept a.owed.items) }
    ensures owed { IfOk result (λ a. IfSome (M.state unit.old).image (λ x. a.owed.items ≡ owed_to x number.now session
        after)) }
    ensures row { IfOk result (λ a. IfSome (M.state unit.old).image (IsRowFor a.row number.now
        (option_map (λ s. s.now) spared.entry))) }
    ensures low { IfOk result (λ a. a.row < OWED_ROWS) }
    ensures reads { Reads (M.state unit.old) (M.state unit.new) (is_err result) }
{
    let rows = read_rows(unit)?;
    let owing = Owing {
        session,
        after,
        kept,
    };
    let owed = owed_in(&rows, row_index(&rows, number), owing);
    let row = begun_row(&rows, number, spared);
    Ok(Asked { owed, row })
}

/// Whether a number has a row.
///
/// # Errors
///
/// `Failed` where the unit failed.
pub fn has_row<M: Medium>(unit: &mut M, number: &[u8]) -> Result<bool, Failed>
    requires unit { IsUnit (M.state unit.old) }
    ensures row { IfOk result (λ found. IfSome (M.state unit.old).image (λ x. (found ≡ true) ↔ HasRow number.now x)) }
    ensures reads { Reads (M.state unit.old) (M.state unit.new) (is_err result) }
{
    let rows = read_rows(unit)?;
    let row = row_index(&rows, number);
    Ok(row.is_some())
}
