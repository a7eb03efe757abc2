//! Laws of each image that a card may have: over each call it stands as the rule says.
ghost use Rattle.std.specs.Prelude.{◌≡◌, ◌⊎◌, ℕ, suc, ◌<◌, ◌≤◌, Some, List, [], ◌∷◌, ◌++◌, length, Contains};
ghost use Rattle.card_by_hand.specs.activity_codec.declared.entries.Entry.{Entry};
ghost use Rattle.card_by_hand.specs.activity_codec.declared.entries.Manual.{Manual};
ghost use Rattle.card_by_hand.specs.activity_codec.declared.values.Activity.{Activity};
ghost use Rattle.card_by_hand.specs.tacho_types.declared.texts.Registration.{Registration};
ghost use Rattle.tach_media.specs.Medium.{LeavesOnly, Unchanged};
ghost use Rattle.tach_media.specs.card_layout.declared.files.Application.{Application};
ghost use Rattle.tach_media.specs.card_layout.Application.{IsApplication};
ghost use Rattle.tach_media.specs.card_layout.Files.{image_size_of};
ghost use Rattle.card_by_hand.specs.card_retention.Entries.{newest_minute};
ghost use Rattle.card_by_hand.specs.card_retention.Shown.{AllUpTo};
ghost use Rattle.card_by_hand.specs.card_image.Fields.{card_days, end_mark, session_time};
ghost use Rattle.card_by_hand.specs.card_image.Judging.{IsValid};
ghost use Rattle.card_by_hand.specs.card_image.Own.{own_sizes, own_view};
ghost use Rattle.card_by_hand.specs.card_image.View.{card_view};
ghost use Rattle.card_by_hand.specs.card_session.Sessions.{Session, IsSession};
ghost use Rattle.card_by_hand.specs.card_session.Cards.{IsCardClosing};
ghost use Rattle.card_by_hand.specs.hand_model.AtStart.{HasDayOf};
ghost use Rattle.card_by_hand.specs.hand_model.ByHand.{by_hand_in};
ghost use Rattle.card_by_hand.specs.hand_model.Written.{Hands, and_sure, and_given};
ghost use Rattle.card_by_hand.specs.First.{IsFirstKeeping};
ghost use Rattle.card_by_hand.specs.card_session.Inserting.{AreOwed, Follow, IsCardInserting};
ghost use Rattle.card_by_hand.specs.card_session.Repairs.{first_minute, newest_behind, lacked_by};
ghost use Rattle.card_string.specs.Since.{SitsSince, IsReadySince};
ghost use Rattle.card_string.specs.Each.{EachHolds, LeavesString};

use tach_media::Chip;

/// Over a keep, the first one with its entries by hand, each image of a card stands so, and each since the start keeps
/// its entries: the one that is kept was lacked before, and its entries by hand are given then.
pub fn a_keep_keeps_each_image<C: Chip, D: Chip>(before: &C, after: &D)
    ensures { (s : Session) (image : List ℕ) (h : Hands) (done es : List Entry) (hands : List Manual) (e : Entry)
        (odometer n next began : ℕ) → IsApplication s.application → own_sizes image ≡ s.application
        → began ≤ (C.state before.now).clock → Follow e.minute es → e.minute < next →
        ((x : List ℕ) → (C.state before.now).image ≡ Some x → IsReadySince s image h done n hands e x) →
        LeavesOnly (C.state before.now) (D.state after.now) (IsFirstKeeping s hands e odometer)
        → EachHolds s.application image h (done ++ e ∷ es) next began (C.state before.now)
        → EachHolds s.application image (and_given hands h) (done ++ e ∷ es) next began (D.state after.now) }
{}

/// So it is over a withdrawal.
pub fn a_withdrawal_keeps_each_image<C: Chip, D: Chip>(before: &C, after: &D)
    ensures { (s : Session) (act : Activity) (image : List ℕ) (h : Hands) (done : List Entry) (n m next began : ℕ)
        → IsApplication s.application → own_sizes image ≡ s.application → began ≤ (C.state before.now).clock → n ≤ next
        → m ≤ next →
        ((x : List ℕ) → (C.state before.now).image ≡ Some x
        → (image_size_of s.application ≤ length x) × IsSession s x × (0 < session_time s.application x)
        × (newest_minute (end_mark s.application x) (card_days s.application x) < next)
        × SitsSince s.application image h done n x) →
        LeavesOnly (C.state before.now) (D.state after.now) (IsCardClosing s act)
        → EachHolds s.application image h done m began (C.state before.now)
        → EachHolds s.application image h done next began (D.state after.now) }
{}

/// So it is over an insertion that is given what the card lacks, where its session was left open.
pub fn an_insertion_keeps_each_image<C: Chip, D: Chip>(before: &C, after: &D)
    ensures { (app : Application) (registration : Registration) (odometer now : ℕ) (owed : List Entry) (image : List ℕ)
        (h : Hands) (brought : List Entry) (n next began : ℕ) → IsApplication app → own_sizes image ≡ app
        → began ≤ (C.state before.now).clock → n ≤ next →
        length registration.0 ≡ 15 → AreOwed now owed →
        ((x : List ℕ) → (C.state before.now).image ≡ Some x
        → (image_size_of app ≤ length x) × IsValid app x × (0 < session_time app x →
        (newest_behind (card_view app x).newest (lacked_by app x owed) < next)
        × ((done : List Entry) × AllUpTo (end_mark app x) done × (brought ≡ done ++ lacked_by app x owed))) ×
        (session_time app x ≡ 0 → AllUpTo (end_mark app x) brought
        × (newest_minute (end_mark app x) (card_days app x) < next))) →
        LeavesOnly (C.state before.now) (D.state after.now) (IsCardInserting app registration odometer owed now)
        → EachHolds app image h brought n began (C.state before.now)
        → EachHolds app image h brought next began (D.state after.now) }
{}

/// So it is over a write beside the string, as of an event or a place, and where nothing is written; and with further
/// entries that each image since the start lacks.
pub fn a_write_beside_keeps_each_image<C: Chip, D: Chip>(before: &C, after: &D)
    ensures beside { (app : Application) (image : List ℕ) (h : Hands) (brought : List Entry) (n next began : ℕ)
        → IsApplication app → own_sizes image ≡ app → began ≤ (C.state before.now).clock → n ≤ next →
        LeavesOnly (C.state before.now) (D.state after.now) (LeavesString app)
        → EachHolds app image h brought n began (C.state before.now)
        → EachHolds app image h brought next began (D.state after.now) }
    ensures read { (app : Application) (image : List ℕ) (h : Hands) (brought : List Entry) (n next began : ℕ)
        → IsApplication app → own_sizes image ≡ app → began ≤ (C.state before.now).clock → n ≤ next →
        LeavesOnly (C.state before.now) (D.state after.now) Unchanged
        → EachHolds app image h brought n began (C.state before.now)
        → EachHolds app image h brought next began (D.state after.now) }
    ensures brought { (app : Application) (image : List ℕ) (h : Hands) (brought es : List Entry) (m n next began : ℕ)
        → Follow m (brought ++ es) → n ≤ first_minute next es
        → ((x : List ℕ) → (C.state before.now).left_since began x → Follow (own_view x).mark es) →
        EachHolds app image h brought n began (C.state before.now)
        → EachHolds app image h (brought ++ es) next began (C.state before.now) }
{}

/// An acknowledged keep leaves its entries by hand on each image that a stop may leave behind it; and each image since
/// then that has their day tells them.
pub fn an_acknowledged_keep_leaves_its_entries_by_hand<C: Chip>(card: &C)
    ensures sure { (app : Application) (image : List ℕ) (h : Hands) (hands : List Manual) (brought : List Entry)
        (next began : ℕ) → EachHolds app image (and_given hands h) brought next began (C.state card.now) →
        ((x : List ℕ) → (C.state card.now).may_leave x → SitsSince app image (and_sure hands h) brought next x)
        → EachHolds app image (and_sure hands h) brought next began (C.state card.now) }
    ensures told { (app : Application) (image : List ℕ) (h : Hands) (brought : List Entry) (next began : ℕ) (x : List ℕ)
        (e : Manual) → EachHolds app image h brought next began (C.state card.now) → (C.state card.now).may_leave x →
        Contains h.sure e → HasDayOf e.minute app x → Contains (by_hand_in app x) e }
{}
