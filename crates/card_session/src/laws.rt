//! Laws of keeps, withdrawals and insertions: what each of their moments leaves of a card.
ghost use Rattle.std.specs.Prelude.{◌≡◌, ◌⊎◌, ℕ, suc, ◌*◌, ◌<◌, ◌≤◌, ◌^◌, max, false, Some, List, [], ◌∷◌, ◌++◌};
ghost use Rattle.std.specs.Prelude.{length, map};
ghost use Rattle.activity_codec.specs.declared.entries.Entry.{Entry};
ghost use Rattle.activity_codec.specs.declared.values.Activity.{Activity};
ghost use Rattle.tacho_types.specs.declared.texts.Registration.{Registration};
ghost use Rattle.card_layout.specs.declared.files.Application.{Application};
ghost use Rattle.card_layout.specs.Application.{IsApplication};
ghost use Rattle.card_layout.specs.Files.{image_size_of};
ghost use Rattle.card_days.specs.card_model.Changes.{trimmed};
ghost use Rattle.card_validity.specs.card_retention.Expected.{Counted, with_entry};
ghost use Rattle.card_validity.specs.card_retention.Shown.{Bound, AllUpTo, is_open};
ghost use Rattle.card_validity.specs.card_retention.Entries.{newest_minute, newest_word, closed_at};
ghost use Rattle.card_files.specs.Vehicles.{vehicle_of};
ghost use Rattle.gated_ring.specs.Ring.{PointsInside, ring_list};
ghost use Rattle.card_validity.specs.card_image.Fields.{file_bytes, vehicle_ring, last_of, card_days, card_number};
ghost use Rattle.card_validity.specs.card_image.Fields.{end_mark};
ghost use Rattle.card_validity.specs.card_image.Fields.{session_time};
ghost use Rattle.card_validity.specs.card_image.Judging.{IsValid};
ghost use Rattle.card_validity.specs.card_image.View.{card_view};
ghost use Rattle.card_session.specs.Vehicles.{vehicles_of, standing};
ghost use Rattle.card_session.specs.Sessions.{Session, IsSession};
ghost use Rattle.card_session.specs.Cards.{IsCardKept, IsCardKeeping, IsCardClosed, IsCardClosing, MayEnd};
ghost use Rattle.card_session.specs.Inserting.{AreOwed, IsCardInserted, IsCardInserting};
ghost use Rattle.card_session.specs.Repairs.{first_minute, mark_behind, newest_behind, BeginsLater, NewestSoFar};
ghost use Rattle.card_session.specs.Repairs.{lacked_by, ShowsFirst, ShowsOwed, ShowsMore};
ghost use Rattle.card_session.specs.Overwriting.{DaysFollowOverwriting, IsRepairable, ShowsEntries, TellsNoLater};
ghost use Rattle.card_session.specs.Overwriting.{BeginsBehind, and_entry};

/// The vehicle entries that stand in a card's ring are its list, the newest last.
pub fn vehicles_are_the_list_of_their_ring()
    ensures list { (app : Application) (x : List ℕ) → PointsInside (vehicle_ring app) x
        → standing (vehicles_of app x).ring ≡ map vehicle_of (ring_list (vehicle_ring app) x) }
    ensures newest { (app : Application) (x : List ℕ) → PointsInside (vehicle_ring app) x
        → last_of (standing (vehicles_of app x).ring) ≡ (vehicles_of app x).newest }
{}

/// A stop in a keep leaves the session time, the events and the number of a card.
pub fn a_keep_leaves_the_session()
    ensures session { (s : Session) (e : Entry) (odometer : ℕ) (x y : List ℕ) → IsCardKeeping s e odometer x y
        → session_time s.application y ≡ session_time s.application x }
    ensures events { (s : Session) (e : Entry) (odometer : ℕ) (x y : List ℕ) → IsCardKeeping s e odometer x y
        → file_bytes s.application 0x0502 y ≡ file_bytes s.application 0x0502 x }
    ensures number { (s : Session) (e : Entry) (odometer : ℕ) (x y : List ℕ) → IsCardKeeping s e odometer x y
        → card_number s.application y ≡ card_number s.application x }
{}

/// A stop leaves the old end mark, or in a keep the entry's minute, and in a withdrawal the minute after the old one.
pub fn a_stop_leaves_an_end_mark()
    ensures keep { (s : Session) (e : Entry) (odometer : ℕ) (x y : List ℕ) → IsCardKeeping s e odometer x y
        → (end_mark s.application y ≡ end_mark s.application x) ⊎ (end_mark s.application y ≡ e.minute) }
    ensures withdrawal { (s : Session) (act : Activity) (x y : List ℕ) → IsApplication s.application
        → image_size_of s.application ≤ length x → IsSession s x → IsCardClosing s act x y →
        (end_mark s.application y ≡ end_mark s.application x)
        ⊎ (end_mark s.application y ≡ suc (end_mark s.application x)) }
{}

/// At the end of a withdrawal no session is open.
pub fn a_withdrawal_ends_the_session()
    ensures { (s : Session) (act : Activity) (x y : List ℕ) → image_size_of s.application ≤ length x
        → IsCardClosed s act x y → session_time s.application y ≡ 0 }
{}

/// A stop in a keep leaves the old end mark and, once a repair has cut them to it, the days of the entries so far, as
/// the stated overwriting leaves them before this entry; or this entry's minute as the end mark, and the days of this
/// entry too.
pub fn a_keep_leaves_the_entries()
    ensures { (s : Session) (e : Entry) (odometer : ℕ) (x y : List ℕ) → IsApplication s.application → IsSession s x
        → s.minute < e.minute → BeginsBehind s.application e x →
        (slack : Bound) (covered from : ℕ) (c : Counted) → 16 ≤ slack.bytes → from ≤ e.minute
        → DaysFollowOverwriting s.application slack covered from c x → IsCardKeeping s e odometer x y →
        ((end_mark s.application y ≡ end_mark s.application x) × IsRepairable s.application slack covered e.minute c y)
        ⊎ ((end_mark s.application y ≡ e.minute)
        × DaysFollowOverwriting s.application (and_entry slack e) covered (suc e.minute) (with_entry covered c e) y) }
{}

/// A stop in a withdrawal leaves the old end mark and, once a repair has cut them to it, the days of the entries; or
/// the days with the closing word, and the end mark at it. So they are at its end.
pub fn a_withdrawal_leaves_the_entries()
    ensures moments { (s : Session) (act : Activity) (x y : List ℕ) → IsApplication s.application
        → image_size_of s.application ≤ length x →
        (slack : Bound) (covered from next : ℕ) (c : Counted) → 16 ≤ slack.bytes → from ≤ next
        → newest_minute (end_mark s.application x) (card_days s.application x) < next
        → DaysFollowOverwriting s.application slack covered from c x → IsCardClosing s act x y →
        ((end_mark s.application y ≡ end_mark s.application x) × IsRepairable s.application slack covered next c y)
        ⊎ DaysFollowOverwriting s.application slack covered next c y }
    ensures closed { (s : Session) (act : Activity) (x y : List ℕ) → IsApplication s.application
        → image_size_of s.application ≤ length x →
        (slack : Bound) (covered from next : ℕ) (c : Counted) → 16 ≤ slack.bytes → from ≤ next
        → newest_minute (end_mark s.application x) (card_days s.application x) < next
        → DaysFollowOverwriting s.application slack covered from c x → IsCardClosed s act x y →
        DaysFollowOverwriting s.application slack covered next c y }
{}

/// As long as the end mark of a keep is the old one, a card shows the entries of before whose day is there, and no
/// other.
pub fn a_keep_shows_the_entries_of_before()
    ensures { (s : Session) (e : Entry) (odometer : ℕ) (x y : List ℕ) → IsApplication s.application → IsSession s x
        → s.minute < e.minute → BeginsBehind s.application e x →
        (all : List Entry) → AllUpTo (end_mark s.application x) all → ShowsEntries s.application all x
        → IsCardKeeping s e odometer x y → end_mark s.application y ≡ end_mark s.application x
        → ShowsEntries s.application all y }
{}

/// Once it is the entry's minute, the card shows that entry behind them too, where no minute behind the old end mark
/// told one; and none behind the new one does.
pub fn a_keep_shows_its_entry()
    ensures entry { (s : Session) (e : Entry) (odometer : ℕ) (x y : List ℕ) → IsApplication s.application
        → IsSession s x → s.minute < e.minute → BeginsBehind s.application e x → TellsNoLater s.application x →
        (all : List Entry) → AllUpTo (end_mark s.application x) all → ShowsEntries s.application all x
        → IsCardKeeping s e odometer x y → end_mark s.application y ≡ e.minute
        → ShowsEntries s.application (all ++ e ∷ []) y }
    ensures silent { (s : Session) (e : Entry) (odometer : ℕ) (x y : List ℕ) → IsApplication s.application
        → IsSession s x → s.minute < e.minute → IsCardKeeping s e odometer x y → end_mark s.application y ≡ e.minute
        → TellsNoLater s.application y }
{}

/// At each moment of a withdrawal a card shows the entries of before whose day is there, and no other.
pub fn a_withdrawal_shows_the_entries()
    ensures { (s : Session) (act : Activity) (x y : List ℕ) → IsApplication s.application
        → image_size_of s.application ≤ length x → IsSession s x →
        (all : List Entry) → AllUpTo (end_mark s.application x) all → ShowsEntries s.application all x
        → IsCardClosing s act x y → ShowsEntries s.application all y }
{}

/// As long as the end mark of a keep is the old one, the newest minute is the old one too, where that is not before all
/// words; and then that of the entry, or of its closing word.
pub fn a_keep_leaves_the_newest_minute()
    ensures before { (s : Session) (e : Entry) (odometer : ℕ) (x y : List ℕ) → IsApplication s.application
        → IsSession s x → s.minute < e.minute → IsCardKeeping s e odometer x y
        → end_mark s.application y ≡ end_mark s.application x →
        max (card_view s.application x).word (card_view s.application y).newest
        ≡ max (card_view s.application x).word (card_view s.application x).newest }
    ensures after { (s : Session) (e : Entry) (odometer : ℕ) (x y : List ℕ) → IsApplication s.application
        → IsSession s x → s.minute < e.minute → IsCardKeeping s e odometer x y → end_mark s.application y ≡ e.minute →
        (card_view s.application y).newest ≡ closed_at (Some e) }
{}

/// A stop in a keep, or in a withdrawal before the session time is written, leaves a card valid that was.
pub fn a_stop_leaves_a_valid_card()
    ensures keep { (s : Session) (e : Entry) (odometer : ℕ) (x y : List ℕ) → IsApplication s.application
        → image_size_of s.application ≤ length x → 0 < session_time s.application x → IsValid s.application x →
        IsSession s x → s.minute < e.minute → IsCardKeeping s e odometer x y → IsValid s.application y }
    ensures withdrawal { (s : Session) (act : Activity) (x y : List ℕ) → IsApplication s.application
        → image_size_of s.application ≤ length x → 0 < session_time s.application x → IsValid s.application x →
        IsSession s x → IsCardClosing s act x y → 0 < session_time s.application y → IsValid s.application y }
{}

/// A stop in an insertion leaves the sizes, the length and the number of a card, so that the card may be inserted
/// again.
pub fn an_insertion_leaves_the_number()
    ensures sizes { (app : Application) (registration : Registration) (odometer now : ℕ) (owed : List Entry)
        (x y : List ℕ) → image_size_of app ≤ length x → length registration.0 ≡ 15
        → IsCardInserting app registration odometer owed now x y →
        file_bytes app 0x0501 y ≡ file_bytes app 0x0501 x }
    ensures long { (app : Application) (registration : Registration) (odometer now : ℕ) (owed : List Entry)
        (x y : List ℕ) → image_size_of app ≤ length x → length registration.0 ≡ 15
        → IsCardInserting app registration odometer owed now x y →
        length y ≡ length x }
    ensures number { (app : Application) (registration : Registration) (odometer now : ℕ) (owed : List Entry)
        (x y : List ℕ) → image_size_of app ≤ length x → length registration.0 ≡ 15
        → IsCardInserting app registration odometer owed now x y →
        card_number app y ≡ card_number app x }
{}

/// A stop in an insertion of a card whose session was left open leaves that session, and of the owed entries that the
/// card lacked the first ones, with the end mark at the last of them, so that the rest is what it lacks then; or all of
/// them, whatever is kept next. By the stated overwriting, with what a repair would leave. Of a card without a session
/// it leaves the entries; where its words are not closed, as a withdrawal does: with the old end mark, once a repair
/// has cut them to it, or with the closing word and the mark at it.
pub fn a_stop_in_an_insertion_leaves_the_entries()
    ensures open { (app : Application) (registration : Registration) (odometer now : ℕ) (owed : List Entry)
        (x y : List ℕ) → IsApplication app → image_size_of app ≤ length x → length registration.0 ≡ 15
        → AreOwed now owed → IsValid app x → 0 < session_time app x →
        (slack : Bound) (covered from next : ℕ) (c : Counted) → 16 ≤ slack.bytes
        → IsRepairable app slack covered from c x → from ≤ first_minute next (lacked_by app x owed)
        → suc (mark_behind (end_mark app x) (lacked_by app x owed)) < next →
        BeginsLater (end_mark app x) (lacked_by app x owed) (trimmed (end_mark app x) (card_days app x))
        → IsCardInserting app registration odometer owed now x y →
        ((session_time app y ≡ session_time app x) × ShowsFirst app slack covered next c owed x y)
        ⊎ ShowsOwed app slack covered next c owed x y }
    ensures rest { (app : Application) (now : ℕ) (owed : List Entry) (x y : List ℕ) → AreOwed now owed
        → (slack : Bound) (covered next : ℕ) (c : Counted) → (first : ShowsFirst app slack covered next c owed x y)
        → lacked_by app y owed ≡ first.rest }
    ensures shut { (app : Application) (registration : Registration) (odometer now : ℕ) (owed : List Entry)
        (x y : List ℕ) → IsApplication app → image_size_of app ≤ length x → length registration.0 ≡ 15
        → session_time app x ≡ 0 → is_open (end_mark app x) (card_days app x) ≡ false →
        (slack : Bound) (covered from : ℕ) (c : Counted) → DaysFollowOverwriting app slack covered from c x
        → IsCardInserting app registration odometer owed now x y → DaysFollowOverwriting app slack covered from c y }
    ensures unclosed { (app : Application) (registration : Registration) (odometer now : ℕ) (owed : List Entry)
        (x y : List ℕ) → IsApplication app → image_size_of app ≤ length x → length registration.0 ≡ 15
        → session_time app x ≡ 0 →
        (slack : Bound) (covered from next : ℕ) (c : Counted) → 16 ≤ slack.bytes → from ≤ next
        → newest_minute (end_mark app x) (card_days app x) < next → DaysFollowOverwriting app slack covered from c x
        → IsCardInserting app registration odometer owed now x y →
        ((end_mark app y ≡ end_mark app x) × IsRepairable app slack covered next c y)
        ⊎ DaysFollowOverwriting app slack covered next c y }
{}

/// At its end all owed entries that the card lacked are on it.
pub fn an_insertion_leaves_the_entries()
    ensures open { (app : Application) (registration : Registration) (odometer now : ℕ) (owed : List Entry)
        (x y : List ℕ) → IsApplication app → image_size_of app ≤ length x → length registration.0 ≡ 15
        → AreOwed now owed → IsValid app x → 0 < session_time app x →
        (slack : Bound) (covered from next : ℕ) (c : Counted) → 16 ≤ slack.bytes
        → IsRepairable app slack covered from c x → from ≤ first_minute next (lacked_by app x owed)
        → suc (mark_behind (end_mark app x) (lacked_by app x owed)) < next →
        BeginsLater (end_mark app x) (lacked_by app x owed) (trimmed (end_mark app x) (card_days app x))
        → IsCardInserted app registration odometer owed now x y → ShowsOwed app slack covered next c owed x y }
    ensures shut { (app : Application) (registration : Registration) (odometer now : ℕ) (owed : List Entry)
        (x y : List ℕ) → IsApplication app → image_size_of app ≤ length x → length registration.0 ≡ 15
        → session_time app x ≡ 0 → is_open (end_mark app x) (card_days app x) ≡ false →
        (slack : Bound) (covered from : ℕ) (c : Counted) → DaysFollowOverwriting app slack covered from c x
        → IsCardInserted app registration odometer owed now x y → DaysFollowOverwriting app slack covered from c y }
    ensures unclosed { (app : Application) (registration : Registration) (odometer now : ℕ) (owed : List Entry)
        (x y : List ℕ) → IsApplication app → image_size_of app ≤ length x → length registration.0 ≡ 15
        → session_time app x ≡ 0 →
        (slack : Bound) (covered from next : ℕ) (c : Counted) → 16 ≤ slack.bytes → from ≤ next
        → newest_minute (end_mark app x) (card_days app x) < next → DaysFollowOverwriting app slack covered from c x
        → IsCardInserted app registration odometer owed now x y →
        DaysFollowOverwriting app slack covered next c y }
{}

/// A stop in an insertion leaves a card valid that was, whatever its session time is then.
pub fn a_stop_in_an_insertion_leaves_a_valid_card()
    ensures open { (app : Application) (registration : Registration) (odometer now : ℕ) (owed : List Entry)
        (x y : List ℕ) → IsApplication app → image_size_of app ≤ length x → length registration.0 ≡ 15
        → AreOwed now owed → IsValid app x → 0 < session_time app x →
        IsCardInserting app registration odometer owed now x y → IsValid app y }
    ensures shut { (app : Application) (registration : Registration) (odometer now : ℕ) (owed : List Entry)
        (x y : List ℕ) → IsApplication app → image_size_of app ≤ length x → length registration.0 ≡ 15 → IsValid app x
        → session_time app x ≡ 0 →
        IsCardInserting app registration odometer owed now x y → IsValid app y }
{}

/// A stop in an insertion leaves the session time, 0, or that of now, which it is at its end.
pub fn an_insertion_opens_a_session()
    ensures moments { (app : Application) (registration : Registration) (odometer now : ℕ) (owed : List Entry)
        (x y : List ℕ) → image_size_of app ≤ length x → length registration.0 ≡ 15 → now < 2 ^ 32
        → IsCardInserting app registration odometer owed now x y →
        (session_time app y ≡ session_time app x) ⊎ ((session_time app y ≡ 0) ⊎ (session_time app y ≡ now)) }
    ensures inserted { (app : Application) (registration : Registration) (odometer now : ℕ) (owed : List Entry)
        (x y : List ℕ) → image_size_of app ≤ length x → length registration.0 ≡ 15 → now < 2 ^ 32
        → IsCardInserted app registration odometer owed now x y →
        session_time app y ≡ now }
{}

/// A stop in an insertion leaves a card that shows the entries of before whose day is there, and behind them the first
/// of the owed ones that it lacked where its session was left open, with the end mark at the last of these; or all of
/// them, as at its end.
pub fn an_insertion_shows_the_entries()
    ensures open { (app : Application) (registration : Registration) (odometer now : ℕ) (owed : List Entry)
        (x y : List ℕ) → IsApplication app → image_size_of app ≤ length x → length registration.0 ≡ 15
        → AreOwed now owed → IsValid app x → 0 < session_time app x →
        BeginsLater (end_mark app x) (lacked_by app x owed) (trimmed (end_mark app x) (card_days app x))
        → (all : List Entry) → AllUpTo (end_mark app x) all → ShowsEntries app all x
        → IsCardInserting app registration odometer owed now x y →
        ShowsMore app all owed x y ⊎ ShowsEntries app (all ++ lacked_by app x owed) y }
    ensures ended { (app : Application) (registration : Registration) (odometer now : ℕ) (owed : List Entry)
        (x y : List ℕ) → IsApplication app → image_size_of app ≤ length x → length registration.0 ≡ 15
        → AreOwed now owed → IsValid app x → 0 < session_time app x →
        BeginsLater (end_mark app x) (lacked_by app x owed) (trimmed (end_mark app x) (card_days app x))
        → (all : List Entry) → AllUpTo (end_mark app x) all → ShowsEntries app all x
        → IsCardInserted app registration odometer owed now x y →
        ShowsEntries app (all ++ lacked_by app x owed) y }
    ensures shut { (app : Application) (registration : Registration) (odometer now : ℕ) (owed : List Entry)
        (x y : List ℕ) → IsApplication app → image_size_of app ≤ length x → length registration.0 ≡ 15
        → session_time app x ≡ 0 →
        (all : List Entry) → AllUpTo (end_mark app x) all → ShowsEntries app all x
        → IsCardInserting app registration odometer owed now x y → ShowsEntries app all y }
{}

/// The end of a keep, of a withdrawal and of an insertion is a moment of it.
pub fn an_end_is_a_moment()
    ensures keep { (s next : Session) (e : Entry) (odometer : ℕ) (x y : List ℕ) → IsCardKept s next e odometer x y
        → IsCardKeeping s e odometer x y }
    ensures withdrawal { (s : Session) (act : Activity) (x y : List ℕ) → IsCardClosed s act x y
        → IsCardClosing s act x y }
    ensures insertion { (app : Application) (registration : Registration) (odometer now : ℕ) (owed : List Entry)
        (x y : List ℕ) → IsCardInserted app registration odometer owed now x y
        → IsCardInserting app registration odometer owed now x y }
{}

/// As long as the end mark of a keep is the old one, the stored time is the old one too, and then the time of the
/// entry's minute, which no word is later than.
pub fn a_keep_leaves_the_stored_time()
    ensures stored { (s : Session) (e : Entry) (odometer : ℕ) (x y : List ℕ) → 0 < session_time s.application x
        → IsSession s x → s.minute < e.minute → IsCardKeeping s e odometer x y →
        ((end_mark s.application y ≡ end_mark s.application x)
        × ((card_view s.application y).stored ≡ (card_view s.application x).stored))
        ⊎ ((end_mark s.application y ≡ e.minute) × ((card_view s.application y).stored ≡ 60 * e.minute)) }
    ensures word { (s : Session) (e : Entry) (odometer : ℕ) (x y : List ℕ) → IsApplication s.application → IsSession s x
        → s.minute < e.minute → IsCardKeeping s e odometer x y → end_mark s.application y ≡ e.minute →
        (card_view s.application y).word ≤ e.minute }
{}

/// A stop in a withdrawal leaves the newest minute, and so does its end; no word and no stored time is later than it
/// and those of before.
pub fn a_withdrawal_leaves_the_newest_minute()
    ensures newest { (s : Session) (act : Activity) (x y : List ℕ) → IsApplication s.application
        → image_size_of s.application ≤ length x → IsSession s x → IsCardClosing s act x y →
        (card_view s.application y).newest ≡ (card_view s.application x).newest }
    ensures word { (s : Session) (act : Activity) (x y : List ℕ) → IsApplication s.application
        → image_size_of s.application ≤ length x → IsSession s x → IsCardClosing s act x y →
        (card_view s.application y).word ≤ max (card_view s.application x).word (card_view s.application x).newest }
    ensures stored { (s : Session) (act : Activity) (x y : List ℕ) → IsApplication s.application
        → image_size_of s.application ≤ length x → IsSession s x → IsCardClosing s act x y →
        (card_view s.application y).stored
        ≤ max (card_view s.application x).stored
        (60 * max (card_view s.application x).word (card_view s.application x).newest) }
{}

/// A stop in an insertion of a card whose session was left open leaves the newest minute, with the first of the owed
/// entries that it lacked behind it, and the session until all of them are there. So the newest minute with all that
/// the card lacks stays the same; it is that of the card at its end, and what the session knows. Of a card without a
/// session the newest minute stays.
pub fn an_insertion_leaves_the_newest_minute()
    ensures open { (app : Application) (registration : Registration) (odometer now : ℕ) (owed : List Entry)
        (x y : List ℕ) → IsApplication app → image_size_of app ≤ length x → length registration.0 ≡ 15
        → AreOwed now owed → IsValid app x → 0 < session_time app x →
        IsCardInserting app registration odometer owed now x y →
        (first : NewestSoFar (end_mark app x) (card_view app x).newest (lacked_by app x owed) (end_mark app y)
        (card_view app y).newest)
        × ((session_time app y ≡ session_time app x) ⊎ (first.rest ≡ [])) }
    ensures again { (app : Application) (registration : Registration) (odometer now : ℕ) (owed : List Entry)
        (x y : List ℕ) → IsApplication app → image_size_of app ≤ length x → length registration.0 ≡ 15
        → AreOwed now owed → IsValid app x → 0 < session_time app x →
        IsCardInserting app registration odometer owed now x y →
        newest_behind (card_view app y).newest (lacked_by app y owed)
        ≡ newest_behind (card_view app x).newest (lacked_by app x owed) }
    ensures ended { (app : Application) (registration : Registration) (odometer now : ℕ) (owed : List Entry)
        (x y : List ℕ) (s : Session) → IsApplication app → image_size_of app ≤ length x → length registration.0 ≡ 15
        → AreOwed now owed → IsValid app x → 0 < session_time app x →
        IsCardInserted app registration odometer owed now x y → s.application ≡ app → IsSession s y →
        ((card_view app y).newest ≡ newest_behind (card_view app x).newest (lacked_by app x owed))
        × (s.minute ≡ (card_view app y).newest) }
    ensures shut { (app : Application) (registration : Registration) (odometer now : ℕ) (owed : List Entry)
        (x y : List ℕ) → IsApplication app → image_size_of app ≤ length x → length registration.0 ≡ 15 → IsValid app x
        → session_time app x ≡ 0 → IsCardInserting app registration odometer owed now x y →
        (card_view app y).newest ≡ (card_view app x).newest }
    ensures shut_ended { (app : Application) (registration : Registration) (odometer now : ℕ) (owed : List Entry)
        (x y : List ℕ) (s : Session) → IsApplication app → image_size_of app ≤ length x → length registration.0 ≡ 15
        → IsValid app x → session_time app x ≡ 0 → IsCardInserted app registration odometer owed now x y
        → s.application ≡ app → IsSession s y →
        s.minute ≡ max (card_view app x).word (card_view app x).newest }
{}

/// At each moment of an insertion the stored time is not later than that of before, now and the newest minute.
pub fn an_insertion_leaves_the_stored_time()
    ensures open { (app : Application) (registration : Registration) (odometer now : ℕ) (owed : List Entry)
        (x y : List ℕ) → IsApplication app → image_size_of app ≤ length x → length registration.0 ≡ 15
        → AreOwed now owed → IsValid app x → 0 < session_time app x →
        IsCardInserting app registration odometer owed now x y →
        (card_view app y).stored ≤ max (max (card_view app x).stored now) (60 * (card_view app y).newest) }
    ensures shut { (app : Application) (registration : Registration) (odometer now : ℕ) (owed : List Entry)
        (x y : List ℕ) → IsApplication app → image_size_of app ≤ length x → length registration.0 ≡ 15 → IsValid app x
        → session_time app x ≡ 0 → IsCardInserting app registration odometer owed now x y →
        (card_view app y).stored ≤ max (max (card_view app x).stored now) (60 * (card_view app y).newest) }
{}

/// Once an insertion has ended a session that was left open, and at its end, no word of the card stands behind the end
/// mark. Of a card without a session no word is later than those of before and the newest minute.
pub fn an_insertion_leaves_no_word_behind()
    ensures open { (app : Application) (registration : Registration) (odometer now : ℕ) (owed : List Entry)
        (x y : List ℕ) → IsApplication app → image_size_of app ≤ length x → length registration.0 ≡ 15
        → AreOwed now owed → IsValid app x → 0 < session_time app x →
        IsCardInserting app registration odometer owed now x y → session_time app y ≡ 0 →
        (card_view app y).word ≤ end_mark app y }
    ensures ended { (app : Application) (registration : Registration) (odometer now : ℕ) (owed : List Entry)
        (x y : List ℕ) → IsApplication app → image_size_of app ≤ length x → length registration.0 ≡ 15
        → AreOwed now owed → IsValid app x → 0 < session_time app x →
        IsCardInserted app registration odometer owed now x y →
        (card_view app y).word ≤ end_mark app y }
    ensures shut { (app : Application) (registration : Registration) (odometer now : ℕ) (owed : List Entry)
        (x y : List ℕ) → IsApplication app → image_size_of app ≤ length x → length registration.0 ≡ 15 → IsValid app x
        → session_time app x ≡ 0 → IsCardInserting app registration odometer owed now x y →
        (card_view app y).word ≤ max (card_view app x).word (card_view app x).newest }
{}

/// At the end of an insertion no entry of a card is open: where the minute behind the end mark lies in its newest day,
/// the latest word of that day is no entry's.
pub fn an_insertion_leaves_no_entry_open()
    ensures open { (app : Application) (registration : Registration) (odometer now : ℕ) (owed : List Entry)
        (x y : List ℕ) → IsApplication app → image_size_of app ≤ length x → length registration.0 ≡ 15
        → AreOwed now owed → IsValid app x → 0 < session_time app x →
        IsCardInserted app registration odometer owed now x y → is_open (end_mark app y) (card_days app y) ≡ false }
    ensures shut { (app : Application) (registration : Registration) (odometer now : ℕ) (owed : List Entry)
        (x y : List ℕ) → IsApplication app → image_size_of app ≤ length x → length registration.0 ≡ 15 → IsValid app x
        → session_time app x ≡ 0 →
        IsCardInserted app registration odometer owed now x y → is_open (end_mark app y) (card_days app y) ≡ false }
{}

/// At the end of an insertion, and once the end mark of a keep has moved, a card would be valid, were its session
/// ended.
pub fn a_card_may_be_ended()
    ensures keep { (s : Session) (e : Entry) (odometer : ℕ) (x y : List ℕ) → IsApplication s.application
        → image_size_of s.application ≤ length x → 0 < session_time s.application x → IsValid s.application x →
        IsSession s x → s.minute < e.minute → IsCardKeeping s e odometer x y → end_mark s.application y ≡ e.minute
        → MayEnd s.application y }
    ensures open { (app : Application) (registration : Registration) (odometer now : ℕ) (owed : List Entry)
        (x y : List ℕ) → IsApplication app → image_size_of app ≤ length x → length registration.0 ≡ 15
        → AreOwed now owed → IsValid app x → 0 < session_time app x →
        IsCardInserted app registration odometer owed now x y → MayEnd app y }
    ensures shut { (app : Application) (registration : Registration) (odometer now : ℕ) (owed : List Entry)
        (x y : List ℕ) → IsApplication app → image_size_of app ≤ length x → length registration.0 ≡ 15 → IsValid app x
        → session_time app x ≡ 0 →
        IsCardInserted app registration odometer owed now x y → MayEnd app y }
{}

/// A stop in a withdrawal, and its end, leave a card valid that was, and that would be, were its session ended.
pub fn a_withdrawal_leaves_a_valid_card()
    ensures { (s : Session) (act : Activity) (x y : List ℕ) → IsApplication s.application
        → image_size_of s.application ≤ length x → 0 < session_time s.application x → IsValid s.application x
        → MayEnd s.application x →
        IsSession s x → IsCardClosing s act x y → IsValid s.application y }
{}
