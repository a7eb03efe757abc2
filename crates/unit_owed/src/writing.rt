//! The writes that put an entry into a row, and that begin a row.
ghost use Rattle.std.specs.Prelude.{◌≡◌, ◌≢◌, ◌≤◌, ◌<◌, ◌+◌, ℕ, Option, List, length, min, IfOk, OnOk, IfSome, is_err};
ghost use Rattle.std.specs.Prelude.{option_map};
ghost use Rattle.unit_model.specs.declared.layout.TheConstants.{IMAGE_SIZE, OWED_ROWS, ROW_NUMBER};
ghost use Rattle.std.specs.Option.{ForSome};
ghost use Rattle.tach_media.specs.Medium.{LeavesOnly, HasCause, StaysSettled, IsSettled, last_count};
ghost use Rattle.tach_media.specs.Plan.{PutsAll, PutsBy, more, none};
ghost use Rattle.unit_model.specs.Image.{IsUnit};
ghost use Rattle.unit_owed.specs.Owed.{rows_in};
ghost use Rattle.unit_owed.specs.Rows.{entry_word, cell_pieces, row_pieces, pieces_into, putting, pieces_at, beginning};
ghost use Rattle.unit_owed.specs.Rows.{HasRow, IsRowAt, IsRowFor, OwedRowHas, IsPutting, IsRowBegun, IsRowBeginning};

use crate::rows::{begun_index, read_rows, row_index};
use activity_codec::{Entry, entry_word};
use tach_media::{Failed, Medium, Plan, put_pieces};
use unit_model::layout::{
    CELL_SIZE, CELL_WORD, CELLS, IMAGE_SIZE, OWED, OWED_ROW_SIZE, ROW_CELLS, ROW_NUMBER,
};

/// The writes that put an entry into a row: the minute of its cell to 0, the word, the minute.
fn putting(row: Option<u32>, minute: u32, word: u16) -> Plan<3, 4>
    requires row { IfSome row (λ r. r < OWED_ROWS) }
    ensures plan { result ≡ more (none 0 IMAGE_SIZE) (pieces_into minute word row) }
{
    let mut plan = Plan::new(0, IMAGE_SIZE);
    if let Some(row) = row {
        let place = OWED.place + row * OWED_ROW_SIZE + ROW_CELLS.place + minute % CELLS * CELL_SIZE;
        plan.put(place, &[0; 4]);
        plan.put(place + CELL_WORD.place, &word.to_be_bytes());
        plan.put(place, &minute.to_be_bytes());
    }
    plan
}

/// The writes that begin a row: the session to 0, the minutes of the cells to 0, the number, the session.
fn beginning(row: Option<u32>, number: &[u8], session: u32) -> Plan<7, 18>
    requires row { IfSome row (λ r. r < OWED_ROWS) }
    requires number { length number.now ≡ ROW_NUMBER.size }
    ensures plan { result ≡ more (none 0 IMAGE_SIZE) (pieces_at number.now session row) }
{
    let mut plan = Plan::new(0, IMAGE_SIZE);
    if let Some(row) = row {
        let place = OWED.place + row * OWED_ROW_SIZE;
        let cells = place + ROW_CELLS.place;
        plan.put(place, &[0; 4]);
        plan.put(cells, &[0; 4]);
        plan.put(cells + CELL_SIZE, &[0; 4]);
        plan.put(cells + 2 * CELL_SIZE, &[0; 4]);
        plan.put(cells + 3 * CELL_SIZE, &[0; 4]);
        plan.put(place + ROW_NUMBER.place, number);
        plan.put(place, &session.to_be_bytes());
    }
    plan
}

/// Reads the rows, and writes an entry into that of a number.
fn write_entry<M: Medium>(unit: &mut M, number: &[u8], minute: u32, word: u16) -> Result<(), Failed>
    requires unit { IsUnit (M.state unit.old) }
    ensures puts { PutsBy (M.state unit.old) (M.state unit.new) (is_err result) 0 3
        (λ x. putting number.now minute word (rows_in x)) }
    ensures wrote { OnOk result (IfSome (M.state unit.old).image
        (λ x. HasRow number.now x → min ((M.state unit.old).clock + 3) last_count ≤ (M.state unit.new).clock)) }
    ensures minute { minute < 4294967296 }
    ensures word { word < 65536 }
{
    let rows = read_rows(unit)?;
    let plan = putting(row_index(&rows, number), minute, word);
    put_pieces(unit, &plan)
}

/// Puts an entry into the row of a number, in its cell; a unit that doesn't tell its image may have no such row, and is
/// left alone then.
///
/// # Errors
///
/// `Failed` where the unit failed; then the cell may hold the entry, what it held before, or nothing.
pub fn put_owed<M: Medium>(unit: &mut M, number: &[u8], entry: &Entry) -> Result<(), Failed>
    requires unit { IsUnit (M.state unit.old) }
    requires row { IfSome (M.state unit.old).image (HasRow number.now) }
    ensures puts { PutsBy (M.state unit.old) (M.state unit.new) (is_err result) 0 3
        (λ x. putting number.now entry.now.minute (entry_word entry.now) (rows_in x)) }
    ensures wrote { OnOk result (IfSome (M.state unit.old).image
        (λ x. min ((M.state unit.old).clock + 3) last_count ≤ (M.state unit.new).clock)) }
    ensures put { OnOk result (IfSome (M.state unit.old).image
        (λ x. IfSome (M.state unit.new).image (OwedRowHas number.now entry.now x))) }
    ensures moments { LeavesOnly (M.state unit.old) (M.state unit.new) (IsPutting number.now entry.now) }
    ensures settled { OnOk result (StaysSettled (M.state unit.old) (M.state unit.new)) }
    ensures cause { HasCause (M.state unit.old) (M.state unit.new) (is_err result) }
{
    write_entry(unit, number, entry.minute, entry_word(entry))
}

/// Writes an entry into a row.
fn write_into<M: Medium>(unit: &mut M, row: u32, minute: u32, word: u16) -> Result<(), Failed>
    requires unit { IsUnit (M.state unit.old) }
    requires row { row < OWED_ROWS }
    ensures puts { PutsAll (M.state unit.old) (M.state unit.new) (is_err result) (cell_pieces row minute word) }
    ensures minute { minute < 4294967296 }
    ensures word { word < 65536 }
{
    let plan = putting(Some(row), minute, word);
    put_pieces(unit, &plan)
}

/// Puts an entry into the row at an index, in its cell. Nothing is read: whose row it is was found before (`ask`).
///
/// # Errors
///
/// `Failed` where the unit failed; then the cell may hold the entry, what it held before, or nothing.
pub fn put_owed_at<M: Medium>(unit: &mut M, row: u32, entry: &Entry) -> Result<(), Failed>
    requires unit { IsUnit (M.state unit.old) }
    requires low { row < OWED_ROWS }
    ensures puts { PutsAll (M.state unit.old) (M.state unit.new) (is_err result)
        (cell_pieces row entry.now.minute (entry_word entry.now)) }
    ensures put { (number : List ℕ) → IfSome (M.state unit.old).image (IsRowAt row number)
        → OnOk result (IfSome (M.state unit.old).image
        (λ x. IfSome (M.state unit.new).image (OwedRowHas number entry.now x))) }
    ensures moments { (number : List ℕ) → IfSome (M.state unit.old).image (IsRowAt row number)
        → LeavesOnly (M.state unit.old) (M.state unit.new) (IsPutting number entry.now) }
    ensures settled { OnOk result ((M.state unit.new).clock < last_count → IsSettled (M.state unit.new)) }
    ensures cause { HasCause (M.state unit.old) (M.state unit.new) (is_err result) }
{
    write_into(unit, row, entry.minute, entry_word(entry))
}

/// Reads the rows, and begins one for a number.
fn write_row<M: Medium>(
    unit: &mut M,
    number: &[u8],
    session: u32,
    spared: Option<&[u8]>,
) -> Result<(), Failed>
    requires unit { IsUnit (M.state unit.old) }
    requires number { length number.now ≡ ROW_NUMBER.size }
    ensures puts { PutsBy (M.state unit.old) (M.state unit.new) (is_err result) 7 7
        (λ x. beginning number.now session (option_map (λ s. s.now) spared.entry) (rows_in x)) }
    ensures session { session < 4294967296 }
{
    let rows = read_rows(unit)?;
    let plan = beginning(begun_index(&rows, number, spared), number, session);
    put_pieces(unit, &plan)
}

/// Begins a row for a number, with a session time and without an entry: its own row, else the lowest empty one, else
/// the one with the least session time, but not the row of the number that is spared.
///
/// # Errors
///
/// `Failed` where the unit failed; then the row may be begun or not, or have no session.
pub fn begin_owed<M: Medium>(
    unit: &mut M,
    number: &[u8],
    session: u32,
    spared: Option<&[u8]>,
) -> Result<(), Failed>
    requires unit { IsUnit (M.state unit.old) }
    requires number { length number.now ≡ ROW_NUMBER.size }
    requires session { 0 < session }
    ensures puts { PutsBy (M.state unit.old) (M.state unit.new) (is_err result) 7 7
        (λ x. beginning number.now session (option_map (λ s. s.now) spared.entry) (rows_in x)) }
    ensures begun { OnOk result (IfSome (M.state unit.old).image
        (λ x. IfSome (M.state unit.new).image
        (IsRowBegun number.now session (option_map (λ s. s.now) spared.entry) x))) }
    ensures moments { LeavesOnly (M.state unit.old) (M.state unit.new)
        (IsRowBeginning number.now session (option_map (λ s. s.now) spared.entry)) }
    ensures settled { OnOk result ((M.state unit.new).clock < last_count → IsSettled (M.state unit.new)) }
    ensures cause { HasCause (M.state unit.old) (M.state unit.new) (is_err result) }
{
    write_row(unit, number, session, spared)
}

/// Begins a row for a number.
fn write_row_at<M: Medium>(
    unit: &mut M,
    row: u32,
    number: &[u8],
    session: u32,
) -> Result<(), Failed>
    requires unit { IsUnit (M.state unit.old) }
    requires row { row < OWED_ROWS }
    requires number { length number.now ≡ ROW_NUMBER.size }
    ensures puts { PutsAll (M.state unit.old) (M.state unit.new) (is_err result) (row_pieces row number.now session) }
    ensures session { session < 4294967296 }
{
    let plan = beginning(Some(row), number, session);
    put_pieces(unit, &plan)
}

/// Begins the row at an index for a number, with a session time and without an entry. Nothing is read: that it is the
/// row which is begun for this number, while another one is spared, was found before (`ask`).
///
/// # Errors
///
/// `Failed` where the unit failed; then the row may be begun or not, or have no session.
pub fn begin_owed_at<M: Medium>(
    unit: &mut M,
    row: u32,
    number: &[u8],
    session: u32,
) -> Result<(), Failed>
    requires unit { IsUnit (M.state unit.old) }
    requires low { row < OWED_ROWS }
    requires number { length number.now ≡ ROW_NUMBER.size }
    requires session { 0 < session }
    ensures puts { PutsAll (M.state unit.old) (M.state unit.new) (is_err result) (row_pieces row number.now session) }
    ensures begun { (spared : Option (List ℕ)) → IfSome (M.state unit.old).image (IsRowFor row number.now spared)
        → OnOk result (IfSome (M.state unit.old).image
        (λ x. IfSome (M.state unit.new).image (IsRowBegun number.now session spared x))) }
    ensures moments { (spared : Option (List ℕ)) → IfSome (M.state unit.old).image (IsRowFor row number.now spared)
        → LeavesOnly (M.state unit.old) (M.state unit.new) (IsRowBeginning number.now session spared) }
    ensures settled { OnOk result ((M.state unit.new).clock < last_count → IsSettled (M.state unit.new)) }
    ensures cause { HasCause (M.state unit.old) (M.state unit.new) (is_err result) }
{
    write_row_at(unit, row, number, session)
}
