//! A law: when a card was last used, as the calls on it leave that.
ghost use Rattle.std.specs.Prelude.{◌≡◌, ◌≤◌, IfSome, ℕ, List, length};
ghost use Rattle.activity_codec.specs.declared.entries.Entry.{Entry};
ghost use Rattle.activity_codec.specs.declared.entries.Manual.{Manual};
ghost use Rattle.activity_codec.specs.declared.values.Activity.{Activity};
ghost use Rattle.tach_media.specs.Medium.{LeavesOnly};
ghost use Rattle.tacho_types.specs.declared.texts.Registration.{Registration};
ghost use Rattle.card_layout.specs.declared.files.Application.{Application};
ghost use Rattle.card_layout.specs.Application.{IsApplication};
ghost use Rattle.card_layout.specs.Files.{image_size_of};
ghost use Rattle.card_validity.specs.card_image.Judging.{IsValid};
ghost use Rattle.card_validity.specs.card_image.Own.{own_sizes};
ghost use Rattle.card_session.specs.Sessions.{Session, IsSession};
ghost use Rattle.card_session.specs.Cards.{IsCardClosing};
ghost use Rattle.card_session.specs.Inserting.{IsCardInserting};
ghost use Rattle.card_by_hand.specs.First.{IsFirstKeeping};
ghost use Rattle.device_calls.specs.CardNotes.{IsNote};
ghost use Rattle.device_calls.specs.Times.{AreTimedSince};

use tach_media::Chip;

/// Where the last use of each image that a card might have left since a moment is that of a first image, or a whole
/// minute, it is so behind each call that writes the card: as an entry is kept with entries by hand before it, as it is
/// withdrawn, as it is put in, and as an event or a place is noted on it.
pub fn the_last_use_is_whole<C: Chip, D: Chip>(before: &C, after: &D)
    ensures kept { (first : List ℕ) (n : ℕ) (s : Session) (hands : List Manual) (e : Entry) (odometer : ℕ)
        → n ≤ (C.state before.now).clock → AreTimedSince first n (C.state before.now)
        → IfSome (C.state before.now).image (λ x. own_sizes x ≡ s.application)
        → IfSome (C.state before.now).image (IsSession s) →
        LeavesOnly (C.state before.now) (D.state after.now)
        (λ x c. IsSession s x → IsFirstKeeping s hands e odometer x c) → AreTimedSince first n (D.state after.now) }
    ensures closed { (first : List ℕ) (n : ℕ) (s : Session) (act : Activity) → n ≤ (C.state before.now).clock
        → AreTimedSince first n (C.state before.now) → IsApplication s.application
        → image_size_of s.application ≤ (C.state before.now).size
        → IfSome (C.state before.now).image (λ x. own_sizes x ≡ s.application) →
        LeavesOnly (C.state before.now) (D.state after.now) (IsCardClosing s act)
        → AreTimedSince first n (D.state after.now) }
    ensures inserted { (first : List ℕ) (n : ℕ) (app : Application) (registration : Registration) (odometer now : ℕ)
        (owed : List ℕ → List Entry) → n ≤ (C.state before.now).clock → AreTimedSince first n (C.state before.now)
        → IsApplication app → image_size_of app ≤ (C.state before.now).size →
        IfSome (C.state before.now).image (λ x. own_sizes x ≡ app) → length registration.0 ≡ 15
        → LeavesOnly (C.state before.now) (D.state after.now)
        (λ x c. IsCardInserting app registration odometer (owed x) now x c)
        → AreTimedSince first n (D.state after.now) }
    ensures noted { (first : List ℕ) (n : ℕ) (app : Application) → n ≤ (C.state before.now).clock
        → AreTimedSince first n (C.state before.now) → IsApplication app
        → IfSome (C.state before.now).image (λ x. own_sizes x ≡ app) → IfSome (C.state before.now).image (IsValid app) →
        LeavesOnly (C.state before.now) (D.state after.now) (IsNote app) → AreTimedSince first n (D.state after.now) }
{}
