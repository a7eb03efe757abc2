//! What a run carries between two steps on its devices, and what it promises by it: laws.
ghost use Rattle.std.specs.Prelude.{◌≡◌, ◌/◌, ◌<◌, ◌≤◌, ℕ, List, [], All};
ghost use Rattle.run_course.specs.activity_codec.declared.entries.Entry.{Entry};
ghost use Rattle.run_course.specs.trace_model.declared.Card.{Card};
ghost use Rattle.run_course.specs.trace_model.declared.Card.TheVariants.{A, B};
ghost use Rattle.unit_rule.specs.card_model.Days.{AreDays};
ghost use Rattle.unit_rule.specs.device_rule.Fields.{card_days};
ghost use Rattle.unit_rule.specs.device_rule.Own.{own_view, own_sizes, IsOwnValid};
ghost use Rattle.unit_rule.specs.unit_model.Decoding.{Decodes};
ghost use Rattle.unit_rule.specs.unit_model.Image.{last_kept};
ghost use Rattle.run_course.specs.log_model.Spans.{AreInOrder};
ghost use Rattle.unit_rule.specs.hand_model.Written.{Hands, no_hands};
ghost use Rattle.run_course.specs.history_model.Minutes.{HistoryMinute};
ghost use Rattle.run_course.specs.history_model.Book.{Book, kept, broken, found, Follows, not_begun};
ghost use Rattle.unit_rule.specs.device_rule.Views.{UnitView, other};
ghost use Rattle.unit_rule.specs.device_rule.Device.{LeavesViews, Nothing};
ghost use Rattle.unit_rule.specs.device_rule.Filling.{KeepsMinute, GivesUpDay};
ghost use Rattle.unit_rule.specs.device_rule.Steps.{IsKeeping, IsPutting, IsBeginning, IsMending};
ghost use Rattle.unit_rule.specs.device_rule.Rules.{Brings, Standing, Out, In, Torn, MeetsStanding, IsPresent};
ghost use Rattle.unit_rule.specs.device_rule.Rules.{IsEntered};
ghost use Rattle.unit_rule.specs.device_rule.Rules.{CardDark};
ghost use Rattle.unit_rule.specs.device_rule.Marked.{of_card, IsBefore, IsBeside};
ghost use Rattle.unit_rule.specs.Recording.{Recording, card_image, history_of, lost_of};
ghost use Rattle.unit_rule.specs.Safe.{IsSafe};
ghost use Rattle.unit_rule.specs.Rule.{started};
ghost use Rattle.run_promise.specs.Found.{Found, found_of, unit_seen, AnyKept};
ghost use Rattle.run_promise.specs.Cards.{CardWaits, MayKeep, IsStrung};
ghost use Rattle.run_promise.specs.Opening.{BeginsAs, as_found, IsLookedAt, carried_first};
ghost use Rattle.run_promise.specs.Between.{RunLedger, LedgerStandsPowered, LedgerStands, IsFound, HandsFollowed};
ghost use Rattle.run_promise.specs.Between.{AreBrought, AreUntouched, devices};

use tach_media::{Chip, Medium};

/// What a card brings whose image was looked at; and where unit and card have one image each, it stands as one that is
/// not accepted.
pub fn a_card_that_was_looked_at_brings<M: Medium, C: Chip>(unit: &M, card: &C)
    ensures brings { (c : Card) (u : UnitView) (x : List ℕ) → AreDays 0 (card_days (own_sizes x) x)
        → Brings AnyKept c (as_found c u x) u (own_view x) }
    ensures waits { (f : Found) (c : Card) (u x : List ℕ) → BeginsAs u (M.state unit.now)
        → BeginsAs x (C.state card.now) →
        IsLookedAt f c u x (C.state card.now).clock → IsOwnValid x
        → CardWaits f no_hands c not_begun Out [] (M.state unit.now) (C.state card.now) }
{}

/// What the opening finds of unit and cards, while each has one image, is what a run carries before its first second.
pub fn what_the_opening_finds_is_carried<M: Medium, C: Chip, D: Chip>(
    unit: &M,
    card_a: &C,
    card_b: &D,
)
    ensures { (f : Found) (u a b : List ℕ) (due : ℕ) → Decodes u → last_kept u < due →
        BeginsAs u (M.state unit.now) → BeginsAs a (C.state card_a.now) → BeginsAs b (D.state card_b.now) →
        f.unit ≡ started u f.unit.number_a f.unit.number_b (M.state unit.now).clock → (found_of f A).image ≡ a
        → (found_of f B).image ≡ b →
        (IsOwnValid a → IsLookedAt f A u a (C.state card_a.now).clock)
        → (IsOwnValid b → IsLookedAt f B u b (D.state card_b.now).clock) →
        LedgerStands f (carried_first due) (devices (M.state unit.now) (C.state card_a.now) (D.state card_b.now)) }
{}

/// While the unit has power a run carries what it carries with power or without.
pub fn what_is_lit_is_carried<M: Medium, C: Chip, D: Chip>(unit: &M, card_a: &C, card_b: &D)
    ensures { (f : Found) (w : RunLedger)
        → LedgerStandsPowered f w (devices (M.state unit.now) (C.state card_a.now) (D.state card_b.now)) →
        LedgerStands f w (devices (M.state unit.now) (C.state card_a.now) (D.state card_b.now)) }
{}

/// THE CRASH-SAFETY THEOREM, from what a run carries at its end: the unit and the cards stand as a book says that
/// follows the history, the entries by hand are those of the run's record, what each acceptance brought is on its card,
/// and a card that may not be written is as it was.
pub fn what_is_carried_is_safe<M: Medium, C: Chip, D: Chip, N: Medium, E: Chip, F: Chip>(
    old_unit: &M,
    old_a: &C,
    old_b: &D,
    unit: &N,
    card_a: &E,
    card_b: &F,
)
    ensures { (r : Recording) (f : Found) (w : RunLedger) (from : ℕ) → Decodes r.unit → AreInOrder from r.trace
        → last_kept r.unit < from / 60 →
        IsFound r f (devices (M.state old_unit.now) (C.state old_a.now) (D.state old_b.now)) →
        Follows (history_of r) (lost_of r) w.book →
        LedgerStands f w (devices (N.state unit.now) (E.state card_a.now) (F.state card_b.now)) →
        ((c : Card) → IsOwnValid (card_image r c) → HandsFollowed r c (w.hands c) (w.firsts c) w.marks) →
        ((c : Card) → IsOwnValid (card_image r c) → AreBrought r c w.book (w.brought c)) →
        AreUntouched r f (devices (N.state unit.now) (E.state card_a.now) (F.state card_b.now)) →
        IsSafe r w.marks (devices (M.state old_unit.now) (C.state old_a.now) (D.state old_b.now))
        (devices (N.state unit.now) (E.state card_a.now) (F.state card_b.now)) }
{}

/// What is carried of a card's string stays so as the unit keeps a minute, and where that is broken off.
pub fn a_string_waits_for_a_minute<M: Medium, N: Medium, C: Chip>(before: &M, after: &N, card: &C)
    ensures broken { (f : Found) (h : Hands) (c : Card) (b : Book) (z : Standing) (i : HistoryMinute)
        → MayKeep f c b z i (M.state before.now) (C.state card.now) →
        LeavesViews (unit_seen f (M.state before.now)) (unit_seen f (N.state after.now))
        (IsKeeping KeepsMinute GivesUpDay i) →
        IsStrung f h c b z (M.state before.now) (C.state card.now)
        → IsStrung f h c (broken i b) z (N.state after.now) (C.state card.now) }
    ensures kept { (f : Found) (h : Hands) (c : Card) (b : Book) (z : Standing) (i : HistoryMinute) →
        IsStrung f h c (broken i b) z (M.state before.now) (C.state card.now)
        → IsStrung f h c (kept i b) z (M.state before.now) (C.state card.now) }
{}

/// So it does over each other step on the unit: power is back and a minute is found, a mend, an entry that is put for
/// the card or for the other one, a row that is begun, and what leaves rows and last-kept minute.
pub fn a_string_waits_for_the_unit<M: Medium, N: Medium, C: Chip>(before: &M, after: &N, card: &C)
    ensures found { (f : Found) (h : Hands) (c : Card) (b : Book) (k : ℕ) (z : Standing)
        → All (λ i. i.minute ≤ k) b.sure →
        CardDark c (found_of f c).start AnyKept (found_of f c).began b z (unit_seen f (M.state before.now))
        (of_card (C.state card.now)) →
        LeavesViews (unit_seen f (M.state before.now)) (unit_seen f (N.state after.now)) Nothing →
        IsStrung f h c b z (M.state before.now) (C.state card.now)
        → IsStrung f h c (found k b) z (N.state after.now) (C.state card.now) }
    ensures mended { (f : Found) (h : Hands) (c : Card) (b : Book) (z : Standing)
        → LeavesViews (unit_seen f (M.state before.now)) (unit_seen f (N.state after.now)) IsMending →
        IsStrung f h c b z (M.state before.now) (C.state card.now)
        → IsStrung f h c b z (N.state after.now) (C.state card.now) }
    ensures put { (f : Found) (h : Hands) (c : Card) (b : Book) (z : Standing) (e : Entry)
        → IsPresent (found_of f c).start z e.minute →
        IsBefore f.card_a.number f.card_b.number e.minute (M.state before.now) →
        MeetsStanding c (found_of f c).start (found_of f c).began z [] (unit_seen f (M.state before.now))
        (of_card (C.state card.now)) →
        LeavesViews (unit_seen f (M.state before.now)) (unit_seen f (N.state after.now)) (IsPutting c e) →
        IsStrung f h c b z (M.state before.now) (C.state card.now)
        → IsStrung f h c b z (N.state after.now) (C.state card.now) }
    ensures put_beside { (f : Found) (h : Hands) (c : Card) (b : Book) (z : Standing) (e : Entry) →
        LeavesViews (unit_seen f (M.state before.now)) (unit_seen f (N.state after.now)) (IsPutting c e) →
        IsStrung f h (other c) b z (M.state before.now) (C.state card.now)
        → IsStrung f h (other c) b z (N.state after.now) (C.state card.now) }
    ensures begun { (f : Found) (h : Hands) (c : Card) (b : Book) (session newest : ℕ)
        → IsEntered (found_of f c).start (found_of f c).began session newest (of_card (C.state card.now)) →
        IsBefore f.card_a.number f.card_b.number (session / 60) (M.state before.now) →
        LeavesViews (unit_seen f (M.state before.now)) (unit_seen f (N.state after.now)) (IsBeginning c) →
        IsStrung f h c b Out (M.state before.now) (C.state card.now)
        → IsStrung f h c b (In session newest) (N.state after.now) (C.state card.now) }
    ensures begun_beside { (f : Found) (h : Hands) (c : Card) (b : Book) (z : Standing)
        → LeavesViews (unit_seen f (M.state before.now)) (unit_seen f (N.state after.now)) (IsBeginning c) →
        IsStrung f h (other c) b z (M.state before.now) (C.state card.now)
        → IsStrung f h (other c) b z (N.state after.now) (C.state card.now) }
    ensures noted { (f : Found) (h : Hands) (c : Card) (b : Book) (z : Standing)
        → LeavesViews (unit_seen f (M.state before.now)) (unit_seen f (N.state after.now)) IsBeside →
        IsStrung f h c b z (M.state before.now) (C.state card.now)
        → IsStrung f h c b z (N.state after.now) (C.state card.now) }
{}

/// And as a card leaves its slot: torn out between two calls, or where it is not accepted any more.
pub fn a_string_stays_with_the_card<M: Medium, C: Chip>(unit: &M, card: &C)
    ensures torn { (f : Found) (h : Hands) (c : Card) (b : Book) (session newest floor : ℕ)
        → IsStrung f h c b (In session newest) (M.state unit.now) (C.state card.now)
        → IsStrung f h c b (Torn session newest floor) (M.state unit.now) (C.state card.now) }
    ensures out { (f : Found) (h : Hands) (c : Card) (b : Book) (z : Standing)
        → CardDark c (found_of f c).start AnyKept (found_of f c).began b z (unit_seen f (M.state unit.now))
        (of_card (C.state card.now)) →
        IsStrung f h c b z (M.state unit.now) (C.state card.now)
        → IsStrung f h c b Out (M.state unit.now) (C.state card.now) }
{}
