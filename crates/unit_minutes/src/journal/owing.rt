//! What the unit owes to cards, by the journal.
ghost use Rattle.std.specs.Prelude.{◌≡◌, ◌↔◌, ◌<◌, ℕ, Option, List, true, IfOk, OnOk, IfSome, is_err};
ghost use Rattle.std.specs.Prelude.{option_map};
ghost use Rattle.tach_media.specs.Medium.{Reads, LeavesOnly, HasCause, IsSettled, last_count};
ghost use Rattle.tacho_types.specs.CardNumber.{card_number_bytes};
ghost use Rattle.unit_model.specs.declared.layout.TheConstants.{OWED_ROWS};
ghost use Rattle.unit_model.specs.Image.{IsUnit};
ghost use Rattle.unit_minutes.specs.Image.{Agrees};
ghost use Rattle.tach_media.specs.Plan.{PutsAll, PutsBy};
ghost use Rattle.unit_owed.specs.Owed.{rows_in, owed_to};
ghost use Rattle.unit_owed.specs.Rows.{entry_word, cell_pieces, row_pieces, putting, beginning, HasRow, IsRowAt};
ghost use Rattle.unit_owed.specs.Rows.{IsRowFor, OwedRowHas, IsPutting, IsRowBegun, IsRowBeginning};
ghost use Rattle.unit_owed.specs.Searching.{IsSane};
ghost use Rattle.unit_minutes.specs.Calls.{UnitPut};

use super::Journal;
use tach_media::{Failed, Medium};
use tacho_types::{FullCardNumber, write_card_number};
use unit_owed::{
    Asked, Entry, Owed, ask, begin_owed, begin_owed_at, has_row, owed, put_owed, put_owed_at,
};

impl Journal {
    /// The entries that are owed to the card of a number in a session, later than a minute, in order of minutes.
    ///
    /// # Errors
    ///
    /// `Failed` where the medium failed.
    pub fn owed<M: Medium>(
        &self,
        unit: &mut M,
        number: &FullCardNumber,
        session: u32,
        after: u32,
    ) -> Result<Owed, Failed>
        requires unit { IsUnit (M.state unit.old) }
        requires agrees { IfSome (M.state unit.old).image (Agrees self.now) }
        ensures owed { IfOk result (λ es. IfSome (M.state unit.old).image (λ x. es.items ≡ owed_to x
            (card_number_bytes number.now) session after)) }
        ensures sane { IfOk result (λ es. IsSane after self.now.kept es.items) }
        ensures reads { Reads (M.state unit.old) (M.state unit.new) (is_err result) }
    {
        let mut bytes = [0; 18];
        write_card_number(number, &mut bytes);
        owed(unit, self.notes.kept, &bytes, session, after)
    }

    /// The same, and which row is begun for the number, while the row of another one is spared: in one read.
    ///
    /// # Errors
    ///
    /// `Failed` where the medium failed.
    pub fn ask<M: Medium>(
        &self,
        unit: &mut M,
        number: &FullCardNumber,
        session: u32,
        after: u32,
        spared: Option<&FullCardNumber>,
    ) -> Result<Asked, Failed>
        requires unit { IsUnit (M.state unit.old) }
        requires agrees { IfSome (M.state unit.old).image (Agrees self.now) }
        ensures owed { IfOk result (λ a. IfSome (M.state unit.old).image (λ x. a.owed.items ≡ owed_to x
            (card_number_bytes number.now) session after)) }
        ensures sane { IfOk result (λ a. IsSane after self.now.kept a.owed.items) }
        ensures row { IfOk result (λ a. IfSome (M.state unit.old).image (IsRowFor a.row (card_number_bytes number.now)
            (option_map (λ s. card_number_bytes s.now) spared.entry))) }
        ensures low { IfOk result (λ a. a.row < OWED_ROWS) }
        ensures reads { Reads (M.state unit.old) (M.state unit.new) (is_err result) }
    {
        let mut bytes = [0; 18];
        write_card_number(number, &mut bytes);
        let other = match spared {
            None => return ask(unit, self.notes.kept, &bytes, session, after, None),
            Some(other) => other,
        };
        let mut others = [0; 18];
        write_card_number(other, &mut others);
        ask(unit, self.notes.kept, &bytes, session, after, Some(&others))
    }

    /// Whether the card of a number has a row.
    ///
    /// # Errors
    ///
    /// `Failed` where the medium failed.
    pub fn has_row<M: Medium>(&self, unit: &mut M, number: &FullCardNumber) -> Result<bool, Failed>
        requires unit { IsUnit (M.state unit.old) }
        ensures row { IfOk result (λ found. IfSome (M.state unit.old).image (λ x. (found ≡ true) ↔ HasRow
            (card_number_bytes number.now) x)) }
        ensures reads { Reads (M.state unit.old) (M.state unit.new) (is_err result) }
    {
        let mut bytes = [0; 18];
        write_card_number(number, &mut bytes);
        has_row(unit, &bytes)
    }

    /// Puts an entry among those that are owed to the card of a number, which has a row (`has_row` tells). It has it
    /// still.
    ///
    /// # Errors
    ///
    /// `Failed` where the medium failed; then the cell may hold the entry, what it held before, or nothing.
    pub fn put_owed<M: Medium>(
        &mut self,
        unit: &mut M,
        number: &FullCardNumber,
        entry: &Entry,
    ) -> Result<(), Failed>
        requires unit { IsUnit (M.state unit.old) }
        requires agrees { IfSome (M.state unit.old).image (Agrees self.old) }
        requires row { IfSome (M.state unit.old).image (HasRow (card_number_bytes number.now)) }
        ensures same { self.new ≡ self.old }
        ensures put { OnOk result
            (UnitPut (card_number_bytes number.now) entry.now self.old (M.state unit.old) (M.state unit.new)) }
        ensures puts { PutsBy (M.state unit.old) (M.state unit.new) (is_err result) 0 3
            (λ x. putting (card_number_bytes number.now) entry.now.minute (entry_word entry.now) (rows_in x)) }
        ensures moments { LeavesOnly (M.state unit.old) (M.state unit.new)
            (IsPutting (card_number_bytes number.now) entry.now) }
        ensures cause { HasCause (M.state unit.old) (M.state unit.new) (is_err result) }
    {
        // Read for the proof alone: so the notes have their ranges.
        let _days = &self.days;
        let mut bytes = [0; 18];
        write_card_number(number, &mut bytes);
        put_owed(unit, &bytes, entry)
    }

    /// Begins a row for the card of a number, with a session time and without an entry: its own row, else the lowest
    /// empty one, else the one with the least session time, but not the row of the number that is spared.
    ///
    /// At each moment of the call every other row is as it was, and the row that is begun is as it was, or has no
    /// session, or is begun. After it the number has a row.
    ///
    /// # Errors
    ///
    /// `Failed` where the medium failed; then the row may be begun or not, or have no session.
    pub fn begin_owed<M: Medium>(
        &mut self,
        unit: &mut M,
        number: &FullCardNumber,
        session: u32,
        spared: Option<&FullCardNumber>,
    ) -> Result<(), Failed>
        requires unit { IsUnit (M.state unit.old) }
        requires agrees { IfSome (M.state unit.old).image (Agrees self.old) }
        requires session { 0 < session }
        ensures same { self.new ≡ self.old }
        ensures agrees { OnOk result (IfSome (M.state unit.new).image (Agrees self.old)) }
        ensures row { OnOk result (IfSome (M.state unit.new).image (HasRow (card_number_bytes number.now))) }
        ensures puts { PutsBy (M.state unit.old) (M.state unit.new) (is_err result) 7 7
            (λ x. beginning (card_number_bytes number.now) session
            (option_map (λ s. card_number_bytes s.now) spared.entry) (rows_in x)) }
        ensures begun { OnOk result (IfSome (M.state unit.old).image
            (λ x. IfSome (M.state unit.new).image
            (IsRowBegun (card_number_bytes number.now) session (option_map (λ s. card_number_bytes s.now) spared.entry)
            x))) }
        ensures moments { LeavesOnly (M.state unit.old) (M.state unit.new)
            (IsRowBeginning (card_number_bytes number.now) session
            (option_map (λ s. card_number_bytes s.now) spared.entry)) }
        ensures settled { OnOk result ((M.state unit.new).clock < last_count → IsSettled (M.state unit.new)) }
        ensures cause { HasCause (M.state unit.old) (M.state unit.new) (is_err result) }
    {
        // Read for the proof alone: so the notes have their ranges.
        let _days = &self.days;
        let mut bytes = [0; 18];
        write_card_number(number, &mut bytes);
        let other = match spared {
            None => return begin_owed(unit, &bytes, session, None),
            Some(other) => other,
        };
        let mut others = [0; 18];
        write_card_number(other, &mut others);
        begin_owed(unit, &bytes, session, Some(&others))
    }

    /// Puts an entry into the row at an index, which is that of some number. Nothing is read.
    ///
    /// # Errors
    ///
    /// `Failed` where the medium failed; then the cell may hold the entry, what it held before, or nothing.
    pub fn put_owed_at<M: Medium>(
        &mut self,
        unit: &mut M,
        row: u32,
        entry: &Entry,
    ) -> Result<(), Failed>
        requires unit { IsUnit (M.state unit.old) }
        requires agrees { IfSome (M.state unit.old).image (Agrees self.old) }
        requires low { row < OWED_ROWS }
        requires own { (number : List ℕ) × IfSome (M.state unit.old).image (IsRowAt row number) }
        ensures same { self.new ≡ self.old }
        ensures agrees { OnOk result (IfSome (M.state unit.new).image (Agrees self.old)) }
        ensures puts { PutsAll (M.state unit.old) (M.state unit.new) (is_err result)
            (cell_pieces row entry.now.minute (entry_word entry.now)) }
        ensures put { (number : List ℕ) → IfSome (M.state unit.old).image (IsRowAt row number)
            → OnOk result (IfSome (M.state unit.old).image
            (λ x. IfSome (M.state unit.new).image (OwedRowHas number entry.now x))) }
        ensures moments { (number : List ℕ) → IfSome (M.state unit.old).image (IsRowAt row number)
            → LeavesOnly (M.state unit.old) (M.state unit.new) (IsPutting number entry.now) }
        ensures settled { OnOk result ((M.state unit.new).clock < last_count → IsSettled (M.state unit.new)) }
        ensures cause { HasCause (M.state unit.old) (M.state unit.new) (is_err result) }
    {
        // Read for the proof alone: so the notes have their ranges.
        let _days = &self.days;
        put_owed_at(unit, row, entry)
    }

    /// Begins the row at an index for the card of a number, with a session time and without an entry: it is the one
    /// that `ask` told, and it is the number's after it. Nothing is read.
    ///
    /// # Errors
    ///
    /// `Failed` where the medium failed; then the row may be begun or not, or have no session.
    pub fn begin_owed_at<M: Medium>(
        &mut self,
        unit: &mut M,
        row: u32,
        number: &FullCardNumber,
        session: u32,
    ) -> Result<(), Failed>
        requires unit { IsUnit (M.state unit.old) }
        requires agrees { IfSome (M.state unit.old).image (Agrees self.old) }
        requires low { row < OWED_ROWS }
        requires own { (spared : Option (List ℕ))
            × IfSome (M.state unit.old).image (IsRowFor row (card_number_bytes number.now) spared) }
        requires session { 0 < session }
        ensures same { self.new ≡ self.old }
        ensures agrees { OnOk result (IfSome (M.state unit.new).image (Agrees self.old)) }
        ensures row { OnOk result (IfSome (M.state unit.new).image (IsRowAt row (card_number_bytes number.now))) }
        ensures puts { PutsAll (M.state unit.old) (M.state unit.new) (is_err result)
            (row_pieces row (card_number_bytes number.now) session) }
        ensures begun { (spared : Option (List ℕ))
            → IfSome (M.state unit.old).image (IsRowFor row (card_number_bytes number.now) spared)
            → OnOk result (IfSome (M.state unit.old).image
            (λ x. IfSome (M.state unit.new).image (IsRowBegun (card_number_bytes number.now) session spared x))) }
        ensures moments { (spared : Option (List ℕ))
            → IfSome (M.state unit.old).image (IsRowFor row (card_number_bytes number.now) spared)
            → LeavesOnly (M.state unit.old) (M.state unit.new)
            (IsRowBeginning (card_number_bytes number.now) session spared) }
        ensures settled { OnOk result ((M.state unit.new).clock < last_count → IsSettled (M.state unit.new)) }
        ensures cause { HasCause (M.state unit.old) (M.state unit.new) (is_err result) }
    {
        // Read for the proof alone: so the notes have their ranges.
        let _days = &self.days;
        let mut bytes = [0; 18];
        write_card_number(number, &mut bytes);
        begin_owed_at(unit, row, &bytes, session)
    }
}
