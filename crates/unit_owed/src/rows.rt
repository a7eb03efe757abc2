//! The bytes of all rows, read in one read, and what stands in them.
ghost use Rattle.std.specs.Prelude.{◌≡◌, ◌≤◌, ◌<◌, ◌+◌, ◌*◌, ◌==◌, Some, length, IfOk, IfSome, is_err, not, ◌&&◌};
ghost use Rattle.std.specs.Prelude.{nat_eq, option_map};
ghost use Rattle.unit_model.specs.declared.layout.TheConstants.{OWED, OWED_ROWS};
ghost use Rattle.std.specs.Cmp.Lexicographic.{pointwise};
ghost use Rattle.tach_media.specs.Medium.{Reads};
ghost use Rattle.unit_model.specs.Ring.{number_at};
ghost use Rattle.unit_model.specs.Image.{IsUnit};
ghost use Rattle.unit_owed.specs.Owed.{rows_in, session_in, is_row_of, row_index};
ghost use Rattle.unit_owed.specs.Searching.{or_this};
ghost use Rattle.unit_owed.specs.Rows.{is_this_row, lesser, least, empty_index, spared_index, begun_index};

use tach_media::{Failed, Medium};
use unit_model::layout::{OWED, OWED_ROW_SIZE, OWED_ROWS, ROW_NUMBER};

/// How many bytes all rows have.
const ROWS_SIZE: usize = OWED.size as usize;

/// The bytes of all rows.
///
/// # Errors
///
/// `Failed` where the unit failed.
pub fn read_rows<M: Medium>(unit: &mut M) -> Result<[u8; ROWS_SIZE], Failed>
    requires unit { IsUnit (M.state unit.old) }
    ensures rows { IfOk result (λ rows. IfSome (M.state unit.old).image (λ x. rows ≡ rows_in x)) }
    ensures reads { Reads (M.state unit.old) (M.state unit.new) (is_err result) }
{
    let mut rows = [0; ROWS_SIZE];
    unit.read_at(OWED.place, &mut rows)?;
    Ok(rows)
}

/// The number in at most four bytes of them.
pub fn number_at(rows: &[u8], place: u32, len: u32) -> u32
    requires short { len ≤ 4 }
    requires inside { place + len ≤ length rows.now }
    ensures value { result ≡ number_at rows.now place len }
{
    let mut bytes = [0; 4];
    let from = place as usize;
    bytes[4 - len as usize..].copy_from_slice(&rows[from..from + len as usize]);
    u32::from_be_bytes(bytes)
}

/// The session time of a row.
pub fn session_in(rows: &[u8], row: u32) -> u32
    requires sized { length rows.now ≡ OWED.size }
    requires row { row < OWED_ROWS }
    ensures session { result ≡ session_in rows.now row }
{
    number_at(rows, row * OWED_ROW_SIZE, 4)
}

/// Whether a row is that of a number.
fn is_row_of(rows: &[u8], row: u32, number: &[u8]) -> bool
    requires sized { length rows.now ≡ OWED.size }
    requires row { row < OWED_ROWS }
    ensures { result ≡ is_row_of number.now rows.now row }
{
    let from = (row * OWED_ROW_SIZE + ROW_NUMBER.place) as usize;
    session_in(rows, row) != 0 && &rows[from..from + ROW_NUMBER.size as usize] == number
}

/// The row that was found before, else this one where it is one.
fn or_this(found: Option<u32>, row: u32, is: bool) -> Option<u32>
    requires row { row < OWED_ROWS }
    requires found { IfSome found (λ r. r < OWED_ROWS) }
    ensures row { result ≡ or_this found row is }
    ensures below { IfSome result (λ r. r < OWED_ROWS) }
{
    match found {
        Some(other) => Some(other),
        None => { if is { Some(row) } else { None } }
    }
}

/// The lowest row of a number.
pub fn row_index(rows: &[u8], number: &[u8]) -> Option<u32>
    requires sized { length rows.now ≡ OWED.size }
    ensures row { result ≡ row_index number.now rows.now }
    ensures below { IfSome result (λ r. r < OWED_ROWS) }
{
    let mut found = None;
    for row in 0..OWED_ROWS {
        found = or_this(found, row, is_row_of(rows, row, number));
    }
    found
}

/// The lowest empty row.
fn empty_index(rows: &[u8]) -> Option<u32>
    requires sized { length rows.now ≡ OWED.size }
    ensures row { result ≡ empty_index rows.now }
    ensures below { IfSome result (λ r. r < OWED_ROWS) }
{
    let mut found = None;
    for row in 0..OWED_ROWS {
        found = or_this(found, row, session_in(rows, row) == 0);
    }
    found
}

/// Of a row and the best one before it the one with the lesser session time; the spared one doesn't count.
fn lesser(rows: &[u8], spared: Option<u32>, best: Option<u32>, row: u32) -> Option<u32>
    requires sized { length rows.now ≡ OWED.size }
    requires row { row < OWED_ROWS }
    requires best { IfSome best (λ r. r < OWED_ROWS) }
    ensures row { result ≡ lesser rows.now spared best row }
    ensures below { IfSome result (λ r. r < OWED_ROWS) }
{
    if is_this_row(spared, row) {
        return best;
    }
    match best {
        None => Some(row),
        Some(other) => {
            if session_in(rows, row) < session_in(rows, other) {
                Some(row)
            } else {
                Some(other)
            }
        }
    }
}

/// Whether a row is the spared one.
fn is_this_row(spared: Option<u32>, row: u32) -> bool
    ensures { result ≡ is_this_row spared row }
{
    match spared {
        None => false,
        Some(other) => other == row,
    }
}

/// Of the rows but the spared one the first that has the least session time.
fn least(rows: &[u8], spared: Option<u32>) -> Option<u32>
    requires sized { length rows.now ≡ OWED.size }
    ensures row { result ≡ least rows.now spared }
    ensures below { IfSome result (λ r. r < OWED_ROWS) }
{
    let mut best = None;
    for row in 0..OWED_ROWS {
        best = lesser(rows, spared, best, row);
    }
    best
}

/// The row of a number that is spared.
fn spared_index(rows: &[u8], spared: Option<&[u8]>) -> Option<u32>
    requires sized { length rows.now ≡ OWED.size }
    ensures row { result ≡ spared_index (option_map (λ s. s.now) spared.entry) rows.now }
{
    match spared {
        None => None,
        Some(number) => row_index(rows, number),
    }
}

/// The row that is begun for a number: its own, else the lowest empty one, else the one with the least session time,
/// but not the row of the number that is spared.
pub fn begun_index(rows: &[u8], number: &[u8], spared: Option<&[u8]>) -> Option<u32>
    requires sized { length rows.now ≡ OWED.size }
    ensures row { result ≡ begun_index number.now (option_map (λ s. s.now) spared.entry) rows.now }
    ensures below { IfSome result (λ r. r < OWED_ROWS) }
{
    if let Some(row) = row_index(rows, number) {
        return Some(row);
    }
    if let Some(row) = empty_index(rows) {
        return Some(row);
    }
    least(rows, spared_index(rows, spared))
}

/// The same row, which there always is.
pub fn begun_row(rows: &[u8], number: &[u8], spared: Option<&[u8]>) -> u32
    requires sized { length rows.now ≡ OWED.size }
    ensures row { begun_index number.now (option_map (λ s. s.now) spared.entry) rows.now ≡ Some result }
    ensures below { result < OWED_ROWS }
{
    match begun_index(rows, number, spared) {
        Some(row) => row,
        None => unreachable!(),
    }
}
