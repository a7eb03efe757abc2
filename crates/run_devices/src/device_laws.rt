//! What each step on the devices leaves of what a run carries: laws.
ghost use Rattle.std.specs.Prelude.{◌≡◌, ◌/◌, ◌^◌, ◌<◌, ◌≤◌, ℕ, true, Some, None, Ok, length, List};
ghost use Rattle.device_calls.specs.activity_codec.declared.values.Activity.{Activity};
ghost use Rattle.tach_media.specs.Medium.{LeavesOnly, Unchanged, IsSettled};
ghost use Rattle.device_calls.specs.tacho_types.declared.texts.Registration.{Registration};
ghost use Rattle.device_calls.specs.trace_model.declared.Card.{Card};
ghost use Rattle.device_calls.specs.trace_model.declared.Card.TheVariants.{A, B};
ghost use Rattle.tach_media.specs.card_layout.Files.{image_size_of};
ghost use Rattle.device_calls.specs.card_image.Own.{own_sizes, IsOwnValid};
ghost use Rattle.device_calls.specs.card_session.Sessions.{IsSession};
ghost use Rattle.device_calls.specs.card_session.Cards.{IsCardClosing};
ghost use Rattle.device_calls.specs.unit_model.Image.{last_kept};
ghost use Rattle.device_calls.specs.Journal.{LeavesJournal};
ghost use Rattle.device_calls.specs.device_rule.Rules.{Out};
ghost use Rattle.device_calls.specs.device_rule.Views.{other};
ghost use Rattle.device_calls.specs.declared.entering.Entered.{Entered as CardEntered};
ghost use Rattle.device_calls.specs.Entering.{IsEntering};
ghost use Rattle.run_crew.specs.declared.cards.Accepted.{Accepted};
ghost use Rattle.run_crew.specs.declared.cards.Cards.{Cards};
ghost use Rattle.run_crew.specs.Cards.{session_of};
ghost use Rattle.run_promise.specs.Found.{Found, found_of};
ghost use Rattle.run_promise.specs.Between.{RunLedger, devices};
ghost use Rattle.run_devices.specs.Told.{AreFoundCards, IsPutIn, DevicesPowered, DevicesUnpowered, arranged};
ghost use Rattle.run_devices.specs.Told.{with_standing, card_marks, with_marks, carried_found};

use device_calls::{Entered, NotEntered};
use tach_media::{Chip, Medium};

/// A note on the unit, of an insertion, a withdrawal, a place or an event, leaves what is carried; so it does where the
/// unit failed.
pub fn a_note_on_the_unit_leaves_what_is_carried<M: Medium, N: Medium, C: Chip, D: Chip>(
    before: &M,
    after: &N,
    card_a: &C,
    card_b: &D,
)
    ensures noted { (f : Found) (w : RunLedger) (cards : Cards) → AreFoundCards f cards
        → LeavesOnly (M.state before.now) (N.state after.now) LeavesJournal → (N.state after.now).works ≡ true →
        DevicesPowered f w cards (devices (M.state before.now) (C.state card_a.now) (D.state card_b.now))
        → DevicesPowered f w cards (devices (N.state after.now) (C.state card_a.now) (D.state card_b.now)) }
    ensures failed { (f : Found) (w : RunLedger) (cards : Cards) → AreFoundCards f cards
        → LeavesOnly (M.state before.now) (N.state after.now) LeavesJournal →
        DevicesPowered f w cards (devices (M.state before.now) (C.state card_a.now) (D.state card_b.now))
        → DevicesUnpowered f w (devices (N.state after.now) (C.state card_a.now) (D.state card_b.now)) }
{}

/// A card that is put in, and was not accepted, leaves what is carried, however that ended. Where it is accepted its
/// session and its string are known, and the entries that were owed to it may be marked.
pub fn a_card_that_is_put_in_leaves_what_is_carried<
    M: Medium,
    N: Medium,
    C: Chip,
    D: Chip,
    E: Chip,
>(
    unit: &M,
    unit_after: &N,
    mine: &C,
    mine_after: &D,
    others: &E,
    answer: &Result<Entered, NotEntered>,
)
    ensures powered { (f : Found) (w : RunLedger) (cards : Cards) (c : Card) (registration : Registration)
        (odometer now : ℕ) → AreFoundCards f cards → length registration.0 ≡ 15 → registration ≡ (found_of f c).vehicle
        → now < 2 ^ 32 → w.standing c ≡ Out → session_of cards c ≡ None → w.due ≤ now / 60 →
        image_size_of (own_sizes (found_of f c).image) ≤ (C.state mine.now).size
        → IsEntering (own_sizes (found_of f c).image) registration odometer now (M.state unit.now)
        (N.state unit_after.now) (C.state mine.now) (D.state mine_after.now) answer.now →
        (N.state unit_after.now).works ≡ true
        → DevicesPowered f w cards (arranged c (M.state unit.now) (C.state mine.now) (E.state others.now))
        → DevicesPowered f w cards (arranged c (N.state unit_after.now) (D.state mine_after.now) (E.state others.now)) }
    ensures powerless { (f : Found) (w : RunLedger) (cards : Cards) (c : Card) (registration : Registration)
        (odometer now : ℕ) → AreFoundCards f cards → length registration.0 ≡ 15 → registration ≡ (found_of f c).vehicle
        → now < 2 ^ 32 → w.standing c ≡ Out → session_of cards c ≡ None → w.due ≤ now / 60 →
        image_size_of (own_sizes (found_of f c).image) ≤ (C.state mine.now).size
        → IsEntering (own_sizes (found_of f c).image) registration odometer now (M.state unit.now)
        (N.state unit_after.now) (C.state mine.now) (D.state mine_after.now) answer.now →
        DevicesPowered f w cards (arranged c (M.state unit.now) (C.state mine.now) (E.state others.now))
        → DevicesUnpowered f w (arranged c (N.state unit_after.now) (D.state mine_after.now) (E.state others.now)) }
    ensures accepted { (f : Found) (w : RunLedger) (cards : Cards) (c : Card) (registration : Registration)
        (odometer now : ℕ) → AreFoundCards f cards → length registration.0 ≡ 15 → registration ≡ (found_of f c).vehicle
        → now < 2 ^ 32 → w.standing c ≡ Out → session_of cards c ≡ None → w.due ≤ now / 60 →
        image_size_of (own_sizes (found_of f c).image) ≤ (C.state mine.now).size
        → IsEntering (own_sizes (found_of f c).image) registration odometer now (M.state unit.now)
        (N.state unit_after.now) (C.state mine.now) (D.state mine_after.now) answer.now →
        DevicesPowered f w cards (arranged c (M.state unit.now) (C.state mine.now) (E.state others.now))
        → IsOwnValid (found_of f c).image → (e : CardEntered) → answer.now ≡ Ok e →
        IsPutIn (found_of f c) (w.hands c) c w.book now e.session (D.state mine_after.now)
        × ((N.state unit_after.now).works ≡ true → IsSettled (D.state mine_after.now)
        → DevicesPowered f (with_marks (card_marks c (D.state mine_after.now).clock e.owed.items) w) cards
        (arranged c (N.state unit_after.now) (D.state mine_after.now) (E.state others.now))) }
{}

/// A card that is taken out in order is not accepted any more, however that ended, and the rest that is carried stays.
pub fn a_card_that_is_taken_out_leaves_what_is_carried<M: Medium, C: Chip, D: Chip, E: Chip>(
    unit: &M,
    mine: &C,
    mine_after: &D,
    others: &E,
)
    ensures { (f : Found) (w : RunLedger) (cards left : Cards) (c : Card) (a : Accepted) (act : Activity)
        → AreFoundCards f cards → AreFoundCards f left → session_of cards c ≡ Some a → session_of left c ≡ None
        → session_of left (other c) ≡ session_of cards (other c) →
        image_size_of (own_sizes (found_of f c).image) ≤ (C.state mine.now).size
        → LeavesOnly (C.state mine.now) (D.state mine_after.now)
        (λ x y. IsSession a.session x → IsCardClosing a.session act x y) →
        DevicesPowered f w cards (arranged c (M.state unit.now) (C.state mine.now) (E.state others.now))
        → DevicesPowered f (with_standing c Out w) left
        (arranged c (M.state unit.now) (D.state mine_after.now) (E.state others.now)) }
{}

/// As power is lost nothing of what is carried is; and as it is back the unit was only read, and its last-kept minute
/// is found.
pub fn power_is_lost_and_is_back<M: Medium, N: Medium, C: Chip, D: Chip>(
    before: &M,
    after: &N,
    card_a: &C,
    card_b: &D,
)
    ensures lost { (f : Found) (w : RunLedger) (cards : Cards) → AreFoundCards f cards
        → DevicesPowered f w cards (devices (M.state before.now) (C.state card_a.now) (D.state card_b.now))
        → DevicesUnpowered f w (devices (M.state before.now) (C.state card_a.now) (D.state card_b.now)) }
    ensures back { (f : Found) (w : RunLedger) (cards : Cards) (x : List ℕ) → AreFoundCards f cards
        → LeavesOnly (M.state before.now) (N.state after.now) Unchanged → (N.state after.now).works ≡ true
        → (N.state after.now).image ≡ Some x →
        DevicesUnpowered f w (devices (M.state before.now) (C.state card_a.now) (D.state card_b.now))
        → DevicesUnpowered f (carried_found (last_kept x) w)
        (devices (N.state after.now) (C.state card_a.now) (D.state card_b.now)) }
{}
