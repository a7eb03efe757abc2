//! Laws beside the steps: what stays of the rules where no call was made, and what a step makes possible.
ghost use Rattle.std.specs.Prelude.{◌≡◌, ◌⊎◌, ◌↔◌, ℕ, suc, ◌/◌, ◌<◌, ◌≤◌, true, Some, None, IfSome, is_some, List, []};
ghost use Rattle.std.specs.Prelude.{◌∷◌, ◌++◌, length, All};
ghost use Rattle.activity_codec.specs.declared.entries.Entry.{Entry};
ghost use Rattle.activity_codec.specs.declared.entries.Manual.{Manual};
ghost use Rattle.trace_model.specs.declared.Card.{Card};
ghost use Rattle.tach_media.specs.Medium.{LeavesOnly, Unchanged};
ghost use Rattle.tacho_types.specs.declared.texts.Registration.{Registration};
ghost use Rattle.card_layout.specs.declared.files.Application.{Application};
ghost use Rattle.card_layout.specs.Application.{IsApplication};
ghost use Rattle.card_layout.specs.Files.{image_size_of};
ghost use Rattle.unit_rule.specs.card_model.Days.{AreDays};
ghost use Rattle.card_validity.specs.card_image.Fields.{card_days};
ghost use Rattle.card_validity.specs.card_image.Judging.{IsValid};
ghost use Rattle.card_validity.specs.card_image.Own.{own_sizes, own_view, own_covered};
ghost use Rattle.card_validity.specs.card_image.View.{card_view};
ghost use Rattle.card_session.specs.Inserting.{AreOwed, IsCardInserting, IsCardInserted};
ghost use Rattle.unit_minutes.specs.unit_model.Image.{last_kept};
ghost use Rattle.unit_notes.specs.Journal.{LeavesJournal};
ghost use Rattle.unit_rule.specs.log_model.declared.lines.Mark.{Mark};
ghost use Rattle.unit_rule.specs.history_model.Book.{Book, found};
ghost use Rattle.unit_rule.specs.history_model.Presence.{Start, card_start, newest_minute};
ghost use Rattle.unit_rule.specs.device_rule.Rules.{Standing, In, Out, Torn, IsEntered};
ghost use Rattle.unit_rule.specs.device_rule.Views.{beyond};
ghost use Rattle.unit_rule.specs.Rule.{Started};
ghost use Rattle.unit_rule.specs.Marks.{UnitFollowsBook};
ghost use Rattle.unit_rule.specs.card_retention.Expected.{with_entry};
ghost use Rattle.card_session.specs.Sessions.{Session, IsSession};
ghost use Rattle.card_session.specs.Overwriting.{and_entry};
ghost use Rattle.unit_rule.specs.card_string.Shows.{IsDone};
ghost use Rattle.unit_rule.specs.card_string.Since.{all_since, bound_since, counted_since};
ghost use Rattle.device_calls.specs.Rule.{Both, opened, card_seen, CardHolds, CardRests};
ghost use Rattle.device_calls.specs.CardNotes.{IsNote, IsSound};
ghost use Rattle.device_calls.specs.Entering.{owed_on, IsEntering};
ghost use Rattle.hand_model.specs.Written.{Written, Hands};
ghost use Rattle.hand_model.specs.Holding.{LieBetween};
ghost use Rattle.card_by_hand.specs.Wider.{with_hands};
ghost use Rattle.device_calls.specs.OnCard.{SessionKnowsCard, CardMayTake, IsSittingSince};
ghost use Rattle.device_calls.specs.Minute.{Carry, and_kept, IsSitting, MayWriteBefore, IsNotIn};

use crate::entering::{Entered, NotEntered};
use tach_media::{Chip, Medium};

/// A card to which nothing is owed may be torn out between two calls: what is owed to it from then on is not earlier
/// than any minute that is named.
pub fn a_torn_card_stands<M: Medium, C: Chip>(unit: &M, card: &C)
    ensures { (r : Both) (c : Card) (b : Book) (time newest floor : ℕ)
        → CardHolds r c b (In time newest) [] [] (M.state unit.now) (C.state card.now)
        → CardHolds r c b (Torn time newest floor) [] [] (M.state unit.now) (C.state card.now) }
{}

/// A card that was only read since, or revived, stands as it did.
pub fn a_card_that_was_read_rests<M: Medium, C: Chip, D: Chip>(unit: &M, before: &C, after: &D)
    ensures { (r : Both) (c : Card) (b : Book) (z : Standing)
        → LeavesOnly (C.state before.now) (D.state after.now) Unchanged
        → CardRests r c b z (M.state unit.now) (C.state before.now)
        → CardRests r c b z (M.state unit.now) (D.state after.now) }
{}

/// At a power-on the last-kept minute of a unit that was only read, or revived, tells which minutes it has; and the
/// cards stand as they did.
pub fn a_unit_that_is_found_leaves_the_cards<M: Medium, N: Medium, C: Chip>(
    before: &M,
    after: &N,
    card: &C,
)
    ensures { (r : Both) (c : Card) (s : Started) (due : ℕ) (b : Book) (marks : List Mark) (z : Standing) (x : List ℕ)
        → UnitFollowsBook s due b marks (M.state before.now)
        → LeavesOnly (M.state before.now) (N.state after.now) Unchanged →
        (N.state after.now).works ≡ true → (N.state after.now).image ≡ Some x
        → CardRests r c b z (M.state before.now) (C.state card.now)
        → CardRests r c (found (last_kept x) b) z (N.state after.now) (C.state card.now) }
{}

/// What is owed to a card that is not in its slot, accepted, is owed to it whatever the minute said: nothing more is to
/// be kept on it.
pub fn a_card_out_of_its_slot_stands<M: Medium, C: Chip>(unit: &M, card: &C)
    ensures { (r : Both) (c : Card) (b : Book) (z : Standing) (d : List Entry) → IsNotIn z
        → CardHolds r c b z [] d (M.state unit.now) (C.state card.now)
        → CardHolds r c b z [] [] (M.state unit.now) (C.state card.now) }
{}

/// A card in its slot that kept an entry may keep the next one: what is carried of its string goes on.
pub fn a_card_sits_on<C: Chip, D: Chip>(before: &C, after: &D)
    ensures ready { (t : Session) (w : Carry) (hands : List Manual) (e : Entry) → IsSitting t w (C.state before.now)
        → MayWriteBefore t hands e (C.state before.now)
        → IfSome (C.state before.now).image (CardMayTake t w.slack w.covered w.from w.counted w.all hands e) }
    ensures goes_on { (s t : Session) (w : Carry) (hands : List Manual) (e : Entry)
        → is_some (D.state after.now).image ≡ is_some (C.state before.now).image → t.application ≡ s.application
        → t.minute ≡ e.minute → IsSitting s w (C.state before.now) → MayWriteBefore s hands e (C.state before.now)
        → IfSome (C.state before.now).image (λ x. IfSome (D.state after.now).image
        (λ y. CardMayTake s w.slack w.covered w.from w.counted w.all hands e x
        → IsDone s.application w.slack w.covered (with_hands w.covered w.counted hands) w.all e x y
        × SessionKnowsCard t (and_entry w.slack e) w.covered (suc e.minute)
        (with_entry w.covered (with_hands w.covered w.counted hands) e) (w.all ++ e ∷ []) y))
        → IsSitting t (and_kept w hands e) (D.state after.now) }
{}

/// A card whose string goes on since the start of a run may keep an entry, with entries by hand before it, that may
/// come: what `keep_on_card` asks.
pub fn a_string_that_goes_on_is_ready<C: Chip>(card: &C)
    ensures { (t : Session) (image : List ℕ) (h : Hands) (done : List Entry) (n : ℕ) (hands : List Manual) (e : Entry)
        → IsApplication t.application → LieBetween t.minute e.minute hands → length hands ≤ 8
        → IfSome (C.state card.now).image (IsSittingSince t image h done n hands e)
        → (ws : List Written) × (from : ℕ)
        × IfSome (C.state card.now).image (CardMayTake t (bound_since image done) (own_covered image) from
        (counted_since image ws) (all_since image done) hands e) }
{}

/// An insertion only read the card; or that was valid, and each image that it leaves since is one of an insertion with
/// the entries that the unit's image owed to it.
pub fn an_insertion_puts_what_is_owed<M: Medium, N: Medium, C: Chip, D: Chip>(
    unit: &M,
    later: &N,
    before: &C,
    after: &D,
    answer: &Result<Entered, NotEntered>,
)
    ensures { (app : Application) (registration : Registration) (odometer now : ℕ) (u x : List ℕ)
        → IsEntering app registration odometer now (M.state unit.now) (N.state later.now) (C.state before.now)
        (D.state after.now) answer.now → (M.state unit.now).image ≡ Some u → (C.state before.now).image ≡ Some x
        → LeavesOnly (C.state before.now) (D.state after.now) Unchanged
        ⊎ (IsValid app x × AreOwed now (owed_on app u x)
        × LeavesOnly (C.state before.now) (D.state after.now)
        (IsCardInserting app registration odometer (owed_on app u x) now)) }
{}

/// A note on the unit, of an insertion, a withdrawal, a place or an event, leaves the unit's rule and that of a card.
pub fn a_note_on_the_unit_leaves_the_rules<M: Medium, N: Medium, C: Chip>(
    before: &M,
    after: &N,
    card: &C,
)
    ensures holds { (s : Started) (due : ℕ) (b : Book) (marks : List Mark)
        → LeavesOnly (M.state before.now) (N.state after.now) LeavesJournal
        → UnitFollowsBook s due b marks (M.state before.now) → UnitFollowsBook s due b marks (N.state after.now) }
    ensures card { (r : Both) (c : Card) (s : Started) (due : ℕ) (b : Book) (marks : List Mark) (z : Standing)
        (m d : List Entry) → LeavesOnly (M.state before.now) (N.state after.now) LeavesJournal
        → UnitFollowsBook s due b marks (M.state before.now)
        → CardHolds r c b z m d (M.state before.now) (C.state card.now)
        → CardHolds r c b z m d (N.state after.now) (C.state card.now) }
    ensures rests { (r : Both) (c : Card) (s : Started) (due : ℕ) (b : Book) (marks : List Mark) (z : Standing)
        → LeavesOnly (M.state before.now) (N.state after.now) LeavesJournal
        → UnitFollowsBook s due b marks (M.state before.now)
        → CardRests r c b z (M.state before.now) (C.state card.now)
        → CardRests r c b z (N.state after.now) (C.state card.now) }
{}

/// A card that was torn out, or accepted until then, stands as one that was never there: what an insertion asks.
pub fn a_torn_card_is_out<M: Medium, C: Chip>(unit: &M, card: &C)
    ensures { (r : Both) (c : Card) (b : Book) (z : Standing) (d : List Entry)
        → CardHolds r c b z [] d (M.state unit.now) (C.state card.now)
        → CardHolds r c b Out [] [] (M.state unit.now) (C.state card.now) }
{}

/// A note on a card, of an event or a place, leaves its rule: while it works, that of a card which is accepted too.
/// Where it failed such a card is torn out.
pub fn a_note_on_a_card_leaves_the_rules<M: Medium, C: Chip, D: Chip>(
    unit: &M,
    before: &C,
    after: &D,
)
    ensures card { (r : Both) (c : Card) (b : Book) (z : Standing) (m d : List Entry) (app : Application)
        → IsApplication app → IfSome (C.state before.now).image (IsSound app)
        → LeavesOnly (C.state before.now) (D.state after.now) (IsNote app)
        → (D.state after.now).works ≡ true → CardHolds r c b z m d (M.state unit.now) (C.state before.now)
        → CardHolds r c b z m d (M.state unit.now) (D.state after.now) }
    ensures torn { (r : Both) (c : Card) (b : Book) (time newest floor : ℕ) (app : Application) → IsApplication app
        → IfSome (C.state before.now).image (IsSound app)
        → LeavesOnly (C.state before.now) (D.state after.now) (IsNote app)
        → CardHolds r c b (In time newest) [] [] (M.state unit.now) (C.state before.now)
        → CardHolds r c b (Torn time newest floor) [] [] (M.state unit.now) (D.state after.now) }
    ensures rests { (r : Both) (c : Card) (b : Book) (z : Standing) (app : Application) → IsApplication app
        → IfSome (C.state before.now).image (IsSound app)
        → LeavesOnly (C.state before.now) (D.state after.now) (IsNote app)
        → CardRests r c b z (M.state unit.now) (C.state before.now)
        → CardRests r c b z (M.state unit.now) (D.state after.now) }
{}

/// A valid card is valid at each moment of a note of an event or a place, shows the same, and goes by the same sizes.
pub fn a_noted_card_is_valid()
    ensures { (app : Application) (x y : List ℕ) → IsApplication app → IsSound app x → IsNote app x y
        → IsSound app y × (card_view app y ≡ card_view app x) }
{}

/// The days of a valid card are days, each later than the one before it.
pub fn a_valid_card_has_days()
    ensures { (app : Application) (x : List ℕ) → IsApplication app → image_size_of app ≤ length x → IsValid app x
        → AreDays 0 (card_days app x) }
{}

/// A card that was put in answers a newest minute that is earlier than a minute behind the words at its start exactly
/// where that of the history is.
pub fn an_accepted_card_is_told<M: Medium, C: Chip>(unit: &M, card: &C)
    ensures { (start : Start) (r : Both) (c : Card) (b : Book) (now newest : ℕ)
        → card_start start c ≡ (opened r c).start → b.maybe ≡ None
        → CardHolds r c b Out [] [] (M.state unit.now) (C.state card.now)
        → IsEntered (opened r c).start (opened r c).began now newest (card_seen (C.state card.now)) → (u x : List ℕ)
        → (M.state unit.now).may_leave u → (C.state card.now).may_leave x → All (λ i. i.minute ≤ last_kept u) b.sure
        → last_kept u < now / 60
        → (m : ℕ) → (card_start start c).word < m → (newest < m) ↔ (newest_minute start b.sure c now < m) }
{}

/// The first time a card answers no minute that is earlier than the words at its start.
pub fn a_first_acceptance_knows_its_words()
    ensures { (app : Application) (registration : Registration) (odometer now : ℕ) (owed : List Entry) (x y : List ℕ)
        (t : Session) → IsApplication app → image_size_of app ≤ length x → length registration.0 ≡ 15 → IsSound app x
        → IsCardInserted app registration odometer owed now x y → t.application ≡ app → IsSession t y
        → beyond (own_view x) ≤ t.minute }
{}
