//! Laws on the definitions of specs/: they run nothing, and their contracts say what is proved of them.
ghost use Rattle.std.specs.Prelude.{◌≡◌, ℕ, ◌/◌, ◌<◌, ◌≤◌, ◌↔◌, max, ◌++◌, ◌∷◌, [], List, All, Contains};
ghost use Rattle.activity_codec.specs.declared.entries.Entry.{Entry};
ghost use Rattle.activity_codec.specs.declared.entries.Manual.{Manual};
ghost use Rattle.trace_model.specs.declared.Card.{Card};
ghost use Rattle.tach_media.specs.Medium.{IsSettled};
ghost use Rattle.card_layout.specs.declared.files.Application.{Application};
ghost use Rattle.card_model.specs.Days.{AreDays};
ghost use Rattle.card_image.specs.Fields.{card_days};
ghost use Rattle.card_image.specs.View.{CardView, card_view};
ghost use Rattle.card_image.specs.Own.{own_sizes, own_view, KeepsFrom, KeepsOf};
ghost use Rattle.unit_model.specs.Days.{ShownDay};
ghost use Rattle.unit_model.specs.Image.{last_kept};
ghost use Rattle.unit_owed.specs.Owed.{owed_to, row_view};
ghost use Rattle.history_model.specs.Minutes.{HistoryMinute, card_history, up_to};
ghost use Rattle.history_model.specs.Presence.{CardStart, trimmed_by, newest_by};
ghost use Rattle.device_rule.specs.Views.{UnitView, beyond, other, owed, owed_in};
ghost use Rattle.device_rule.specs.Device.{LeavesViews, EndsWith, Nothing};
ghost use Rattle.device_rule.specs.Steps.{IsKeeping, IsPutting, IsBeginning, IsMending, IsInserting, IsInserted};
ghost use Rattle.device_rule.specs.Steps.{IsOnCard, IsNowOnCard, IsClosing};
ghost use Rattle.device_rule.specs.Rules.{DaysGoOn, OwedCounts, Standing, In, Torn, MeetsStanding, IsPresent};
ghost use Rattle.device_rule.specs.Rules.{IsEntered};
ghost use Rattle.device_rule.specs.Filling.{FillsDays, KeepsMinute, GivesUpDay};
ghost use Rattle.device_rule.specs.Marked.{of_unit, of_card, AnyAdded, HasMarked, KeepsMarks, IsOwing, IsBefore};
ghost use Rattle.device_rule.specs.Marked.{MayCommit, IsBeside, HasBrought, UnitKeepsBrought, CardKeepsBrought};

use tach_media::{Chip, Medium};

/// What a unit's image owes to a card is what its view owes.
pub fn owed_is_seen()
    ensures { (image number : List ℕ) (session after : ℕ) → owed_to image number session after
        ≡ owed_in (row_view number image) (last_kept image) session after }
{}

/// The days of a unit go on with a minute that is kept, and with one that the oldest day was given up for.
pub fn days_go_on()
    ensures { (start : List ShownDay) → DaysGoOn (FillsDays start) KeepsMinute GivesUpDay }
{}

/// For a minute later than the words at the start, the newest minute that an insertion answers is earlier exactly where
/// that of the history is.
pub fn presence_is_the_same()
    ensures { (start : CardStart) (entries : List Entry) (newest words minute : ℕ) →
        newest ≡ max words (trimmed_by start entries) → words ≤ max start.word (trimmed_by start entries)
        → start.word < minute →
        (newest < minute) ↔ (newest_by start entries < minute) }
{}

/// A card whose days are days brings its newest minute, which is not earlier than its end mark, and with the newest
/// word where no session is open that of the history; and no entry of it is later than that mark.
pub fn a_card_brings_its_newest_minute()
    ensures { (app : Application) (x : List ℕ) (start : CardStart) →
        AreDays 0 (card_days app x) → start.mark ≡ (card_view app x).mark →
        ((card_view app x).newest ≡ trimmed_by start (card_view app x).held.entries)
        × ((card_view app x).mark ≤ (card_view app x).newest)
        × (start.word ≡ beyond (card_view app x) →
        max (beyond (card_view app x)) (card_view app x).newest ≡ newest_by start (card_view app x).held.entries)
        × All (λ e. e.minute ≤ (card_view app x).mark) (card_view app x).held.entries }
{}

/// What is stated of a card's overwriting goes on with what is owed to it: its entries followed by the owed ones are
/// all of them, but for whole days that were overwritten. So it is whatever entries by hand count as words.
pub fn owed_entries_count()
    ensures { (image : List ℕ) (hands : List Manual) (start : CardStart) → AreDays 0 (card_days (own_sizes image) image)
        →
        start.entries ≡ (own_view image).held.entries → start.mark ≡ (own_view image).mark →
        start.word ≡ beyond (own_view image) → OwedCounts start (KeepsFrom image hands) (KeepsOf image hands) }
{}

/// The entry that a card kept last, and each that an insertion brought, is acknowledged then.
pub fn what_is_on_a_card_is_acknowledged<M: Medium, C: Chip, D: Chip>(
    unit: &M,
    before: &C,
    after: &D,
)
    ensures kept { (e : Entry) → IsSettled (D.state after.now)
        → EndsWith (of_card (C.state before.now)) (of_card (D.state after.now)) (IsNowOnCard AnyAdded e) →
        HasMarked e.minute (D.state after.now).clock (D.state after.now) }
    ensures brought { (a b : List ℕ) (c : Card) (given : List Entry) (now newest : ℕ) → IsSettled (D.state after.now)
        → IsOwing a b c given now (M.state unit.now) (C.state before.now) →
        EndsWith (of_card (C.state before.now)) (of_card (D.state after.now)) (IsInserted AnyAdded given now newest) →
        (e : Entry) → Contains given e → HasMarked e.minute (D.state after.now).clock (D.state after.now) }
{}

/// What a card has acknowledged stays so over each step on it: an insertion, a keep of an entry that is not earlier
/// than its end mark, a withdrawal, and calls that only read.
pub fn a_step_takes_no_mark_back<C: Chip, D: Chip>(before: &C, after: &D)
    ensures inserted { (given : List Entry) (now : ℕ)
        → LeavesViews (of_card (C.state before.now)) (of_card (D.state after.now)) (IsInserting AnyAdded given now)
        → KeepsMarks (C.state before.now) (D.state after.now) }
    ensures kept { (e : Entry) → ((x : CardView) → (of_card (C.state before.now)).may_leave x → x.mark ≤ e.minute) →
        LeavesViews (of_card (C.state before.now)) (of_card (D.state after.now)) (IsOnCard AnyAdded e)
        → KeepsMarks (C.state before.now) (D.state after.now) }
    ensures closed { LeavesViews (of_card (C.state before.now)) (of_card (D.state after.now)) (IsClosing AnyAdded)
        → KeepsMarks (C.state before.now) (D.state after.now) }
    ensures read { LeavesViews (of_card (C.state before.now)) (of_card (D.state after.now)) Nothing
        → KeepsMarks (C.state before.now) (D.state after.now) }
{}

/// Nothing is owed to a card that is accepted, up to whatever minute the unit had kept; and of one that was torn out,
/// up to a minute before each that is owed to it.
pub fn an_acceptance_has_brought<M: Medium, C: Chip>(unit: &M, card: &C)
    ensures accepted { (a b : List ℕ) (c : Card) (start : CardStart) (began session newest k : ℕ) →
        MeetsStanding c start began (In session newest) [] (of_unit a b (M.state unit.now)) (of_card (C.state card.now))
        → HasBrought a b c k (M.state unit.now) (C.state card.now) }
    ensures torn { (a b : List ℕ) (c : Card) (start : CardStart) (began session newest floor k : ℕ) → k < floor →
        MeetsStanding c start began (Torn session newest floor) [] (of_unit a b (M.state unit.now))
        (of_card (C.state card.now)) → HasBrought a b c k (M.state unit.now) (C.state card.now) }
{}

/// What an acceptance brought stays so over each step on the unit: an entry that is put for a minute that comes, a
/// minute that is kept, a row that is begun, a mend, and what leaves rows and last-kept minute, as a note or a call
/// that only reads.
pub fn the_unit_owes_nothing_brought<M: Medium, N: Medium, C: Chip>(before: &M, after: &N, card: &C)
    ensures put { (a b : List ℕ) (c : Card) (start : CardStart) (began : ℕ) (s : Standing) (e : Entry)
        → IsPresent start s e.minute → IsBefore a b e.minute (M.state before.now) →
        MeetsStanding c start began s [] (of_unit a b (M.state before.now)) (of_card (C.state card.now)) →
        LeavesViews (of_unit a b (M.state before.now)) (of_unit a b (N.state after.now)) (IsPutting c e)
        → UnitKeepsBrought a b c (M.state before.now) (N.state after.now) (C.state card.now) }
    ensures put_beside { (a b : List ℕ) (c : Card) (e : Entry) →
        LeavesViews (of_unit a b (M.state before.now)) (of_unit a b (N.state after.now)) (IsPutting c e)
        → UnitKeepsBrought a b (other c) (M.state before.now) (N.state after.now) (C.state card.now) }
    ensures kept { (a b : List ℕ) (c : Card) (start : CardStart) (began : ℕ) (s : Standing) (i : HistoryMinute) (k : ℕ)
        → k < i.minute →
        MayCommit a b c start began s i (M.state before.now) (C.state card.now) →
        LeavesViews (of_unit a b (M.state before.now)) (of_unit a b (N.state after.now))
        (IsKeeping KeepsMinute GivesUpDay i) →
        HasBrought a b c k (M.state before.now) (C.state card.now)
        → HasBrought a b c k (N.state after.now) (C.state card.now) }
    ensures begun { (a b : List ℕ) (c : Card) (start : CardStart) (began session newest : ℕ)
        → IsEntered start began session newest (of_card (C.state card.now))
        → IsBefore a b (session / 60) (M.state before.now) →
        LeavesViews (of_unit a b (M.state before.now)) (of_unit a b (N.state after.now)) (IsBeginning c)
        → UnitKeepsBrought a b c (M.state before.now) (N.state after.now) (C.state card.now) }
    ensures begun_beside { (a b : List ℕ) (c : Card) →
        LeavesViews (of_unit a b (M.state before.now)) (of_unit a b (N.state after.now)) (IsBeginning c)
        → UnitKeepsBrought a b (other c) (M.state before.now) (N.state after.now) (C.state card.now) }
    ensures mended { (a b : List ℕ) (c : Card) →
        LeavesViews (of_unit a b (M.state before.now)) (of_unit a b (N.state after.now)) IsMending
        → UnitKeepsBrought a b c (M.state before.now) (N.state after.now) (C.state card.now) }
    ensures noted { (a b : List ℕ) (c : Card) →
        LeavesViews (of_unit a b (M.state before.now)) (of_unit a b (N.state after.now)) IsBeside
        → UnitKeepsBrought a b c (M.state before.now) (N.state after.now) (C.state card.now) }
{}

/// And over each step on the card: an insertion that is given what is owed, a keep of the one entry that is owed, a
/// withdrawal where nothing is, and calls that only read.
pub fn a_card_is_owed_nothing_brought<M: Medium, C: Chip, D: Chip>(unit: &M, before: &C, after: &D)
    ensures inserted { (a b : List ℕ) (c : Card) (given : List Entry) (now : ℕ)
        → IsOwing a b c given now (M.state unit.now) (C.state before.now) →
        LeavesViews (of_card (C.state before.now)) (of_card (D.state after.now)) (IsInserting AnyAdded given now)
        → CardKeepsBrought a b c (M.state unit.now) (C.state before.now) (D.state after.now) }
    ensures kept { (a b : List ℕ) (c : Card) (start : CardStart) (began session newest : ℕ) (e : Entry)
        → newest ≤ e.minute →
        MeetsStanding c start began (In session newest) (e ∷ []) (of_unit a b (M.state unit.now))
        (of_card (C.state before.now)) →
        LeavesViews (of_card (C.state before.now)) (of_card (D.state after.now)) (IsOnCard AnyAdded e)
        → CardKeepsBrought a b c (M.state unit.now) (C.state before.now) (D.state after.now) }
    ensures closed { (a b : List ℕ) (c : Card) (start : CardStart) (began session newest : ℕ) →
        MeetsStanding c start began (In session newest) [] (of_unit a b (M.state unit.now))
        (of_card (C.state before.now)) →
        LeavesViews (of_card (C.state before.now)) (of_card (D.state after.now)) (IsClosing AnyAdded)
        → CardKeepsBrought a b c (M.state unit.now) (C.state before.now) (D.state after.now) }
    ensures read { (a b : List ℕ) (c : Card) →
        LeavesViews (of_card (C.state before.now)) (of_card (D.state after.now)) Nothing
        → CardKeepsBrought a b c (M.state unit.now) (C.state before.now) (D.state after.now) }
{}
