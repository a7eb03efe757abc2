//! Laws of entries by hand.
ghost use Rattle.std.specs.Prelude.{◌≡◌, ◌⊎◌, ℕ, suc, ◌+◌, ◌/◌, ◌<◌, ◌≤◌, false, true, List, [], ◌∷◌, ◌++◌, length};
ghost use Rattle.activity_codec.specs.declared.entries.Entry.{Entry};
ghost use Rattle.tach_media.specs.card_layout.declared.files.Application.{Application};
ghost use Rattle.tach_media.specs.card_layout.Application.{IsApplication};
ghost use Rattle.tach_media.specs.card_layout.Files.{image_size_of};
ghost use Rattle.card_session.specs.card_model.Days.{Day};
ghost use Rattle.card_session.specs.card_model.Changes.{trimmed};
ghost use Rattle.hand_model.specs.card_image.View.{card_view};
ghost use Rattle.card_session.specs.card_retention.Expected.{WordDay, Counted, is_newest, closes, goes_on, with_entry};
ghost use Rattle.card_session.specs.card_retention.Expected.{expected_days};
ghost use Rattle.card_session.specs.card_retention.Retains.{CardRetains};
ghost use Rattle.card_session.specs.card_retention.Shown.{Bound, AllUpTo, sizes, is_open};
ghost use Rattle.hand_model.specs.card_image.Fields.{file_bytes, card_days, card_number, end_mark, session_time};
ghost use Rattle.hand_model.specs.card_image.Judging.{IsValid};
ghost use Rattle.activity_codec.specs.declared.entries.Manual.{Manual};
ghost use Rattle.hand_model.specs.Counted.{with_by_hand, and_by_hand};
ghost use Rattle.card_session.specs.Sessions.{Session, IsSession};
ghost use Rattle.card_session.specs.Cards.{IsCardKeeping};
ghost use Rattle.card_session.specs.Overwriting.{DaysFollowOverwriting, IsRepairable, ShowsEntries};
ghost use Rattle.card_session.specs.ByHand.{IsCardByHand, IsCardEntering};
ghost use Rattle.card_by_hand.specs.Clear.{BeginsLater};
ghost use Rattle.card_by_hand.specs.Over.{IsOver};
ghost use Rattle.card_by_hand.specs.Wider.{Wider, with_hands, AreOnDay};
ghost use Rattle.card_by_hand.specs.Listed.{AreLeft};
ghost use Rattle.hand_model.specs.ByHand.{by_hand_up_to, by_hand_in};

/// At each moment of an entry by hand the end mark, the session time, the events and the number of the card are as they
/// were.
pub fn an_entry_by_hand_leaves_the_card()
    ensures mark { (s : Session) (e : Manual) (x y : List ℕ) → IsCardEntering s e x y
        → end_mark s.application y ≡ end_mark s.application x }
    ensures session { (s : Session) (e : Manual) (x y : List ℕ) → IsCardEntering s e x y
        → session_time s.application y ≡ session_time s.application x }
    ensures events { (s : Session) (e : Manual) (x y : List ℕ) → IsCardEntering s e x y
        → file_bytes s.application 0x0502 y ≡ file_bytes s.application 0x0502 x }
    ensures number { (s : Session) (e : Manual) (x y : List ℕ) → IsCardEntering s e x y
        → card_number s.application y ≡ card_number s.application x }
    ensures ended { (s next : Session) (e : Manual) (x y : List ℕ) → IsCardByHand s next e x y
        → IsCardEntering s e x y }
{}

/// A stop in an entry by hand leaves a card that shows the entries of before whose day is there, and no other.
pub fn an_entry_by_hand_shows_the_entries_of_before()
    ensures { (s : Session) (e : Manual) (x y : List ℕ) → IsApplication s.application → IsSession s x
        → s.minute < e.minute → BeginsLater s.application e.minute x →
        (all : List Entry) → AllUpTo (end_mark s.application x) all → ShowsEntries s.application all x
        → IsCardEntering s e x y → ShowsEntries s.application all y }
{}

/// It leaves a card valid that was, while its session is open.
pub fn an_entry_by_hand_leaves_a_valid_card()
    ensures { (s : Session) (e : Manual) (x y : List ℕ) → IsApplication s.application
        → image_size_of s.application ≤ length x → 0 < session_time s.application x → IsValid s.application x →
        IsSession s x → s.minute < e.minute → BeginsLater s.application e.minute x → IsCardEntering s e x y
        → IsValid s.application y }
{}

/// Where no entry is open at the end mark, the days with an entry by hand are those that the stated overwriting leaves,
/// where its word counts in its day.
pub fn an_entry_by_hand_counts_in_its_day()
    ensures { (s next : Session) (e : Manual) (x y : List ℕ) → IsApplication s.application → IsSession s x
        → s.minute < e.minute → BeginsLater s.application e.minute x
        → is_open (end_mark s.application x) (card_days s.application x) ≡ false →
        (slack : Bound) (covered from : ℕ) (c : Counted) → 16 ≤ slack.bytes → from ≤ e.minute
        → DaysFollowOverwriting s.application slack covered from c x → IsCardByHand s next e x y →
        DaysFollowOverwriting s.application slack covered (suc e.minute) (with_by_hand covered c e.minute) y }
{}

/// A stop in a session's first keep, before its end mark moves, leaves days that are, once a repair has cut them to the
/// mark, those that the stated overwriting leaves of the entries of before, by 32 bytes: those of a day of ten words,
/// eight of them by hand, which the repair cuts again. So it is after each of the entries by hand and at each of their
/// moments, and at each moment of the entry behind them.
pub fn a_first_keep_may_be_repaired()
    ensures first { (s : Session) (e : Manual) (x y : List ℕ) → IsApplication s.application → IsSession s x
        → s.minute < e.minute → BeginsLater s.application e.minute x → IsCardEntering s e x y →
        IsOver s.application.activity (end_mark s.application x) 16 (card_days s.application x)
        (card_days s.application y) }
    ensures next { (s : Session) (e : Manual) (days : List Day) (bytes : ℕ) (x y : List ℕ) → IsApplication s.application
        → IsSession s x → s.minute < e.minute → is_newest (e.minute / 1440) (sizes (card_days s.application x)) ≡ true
        → bytes ≤ 30 →
        IsOver s.application.activity (end_mark s.application x) bytes days (card_days s.application x)
        → IsCardEntering s e x y →
        IsOver s.application.activity (end_mark s.application x) (bytes + 2) days (card_days s.application y) }
    ensures repaired { (app : Application) (x y : List ℕ) (bytes : ℕ) → IsApplication app → bytes ≤ 32
        → end_mark app y ≡ end_mark app x
        → IsOver app.activity (end_mark app x) bytes (card_days app x) (card_days app y) →
        (slack : Bound) (covered from next : ℕ) (c : Counted) → 32 ≤ slack.bytes → from ≤ next
        → DaysFollowOverwriting app slack covered from c x → IsRepairable app slack covered next c y }
    ensures keep { (s : Session) (e : Entry) (odometer : ℕ) (days : List Day) (bytes : ℕ) (x y : List ℕ)
        → IsApplication s.application → IsSession s x → s.minute < e.minute
        → is_newest (e.minute / 1440) (sizes (card_days s.application x)) ≡ true →
        is_open (end_mark s.application x) (card_days s.application x) ≡ false → bytes ≤ 30
        → IsOver s.application.activity (end_mark s.application x) bytes days (card_days s.application x) →
        IsCardKeeping s e odometer x y → end_mark s.application y ≡ end_mark s.application x →
        (slack : Bound) (covered from next : ℕ) (c : Counted) → 32 ≤ slack.bytes → from ≤ next →
        (first : List ℕ) → card_days s.application first ≡ days
        → end_mark s.application first ≡ end_mark s.application x
        → DaysFollowOverwriting s.application slack covered from c first
        → IsRepairable s.application slack covered next c y }
{}

/// More words of the expected days, as those of entries by hand, and more bytes, keep what the stated overwriting says
/// of a card.
pub fn more_words_keep_the_overwriting()
    ensures { (length slack more marked : ℕ) (expected : List WordDay) (by_hand : List Manual) (all : List Entry)
        (days : List WordDay) (shown : List Entry) → slack ≤ more →
        CardRetains length slack marked expected all days shown
        → CardRetains length more marked (and_by_hand by_hand expected) all days shown }
{}

/// Behind entries by hand of its day, of a session whose last entry was closed before them, an entry leaves days with
/// no more words than those with the entry alone and a word more for each entry by hand.
pub fn each_entry_by_hand_is_a_word_of_its_day()
    ensures { (covered : ℕ) (c : Counted) (e : Entry) (h : Manual) (hs : List Manual)
        → AreOnDay (e.minute / 1440) e.minute (h ∷ hs) →
        closes covered c.before h.minute c.days ≡ closes covered c.before e.minute c.days → goes_on c.before e ≡ false →
        Wider (with_entry covered (with_hands covered c (h ∷ hs)) e).days
        (and_by_hand (h ∷ hs) (with_entry covered c e).days) }
{}

/// An entry by hand is the last of those that a card's days tell up to any mark that it is not behind; of the others
/// only those of the oldest days may be missing. A keep adds none, and takes none but those of the oldest days: so they
/// are shown once its end mark moves.
pub fn entries_by_hand_are_told_in_order()
    ensures entered { (s next : Session) (e : Manual) (x y : List ℕ) (mark : ℕ) → IsApplication s.application
        → IsSession s x → e.minute ≤ mark → IsCardByHand s next e x y →
        (kept : List Manual) × AreLeft (by_hand_up_to mark (card_days s.application x)) kept
        × (by_hand_up_to mark (card_days s.application y) ≡ kept ++ e ∷ []) }
    ensures keep { (s : Session) (e : Entry) (odometer : ℕ) (x y : List ℕ) (mark : ℕ) → IsCardKeeping s e odometer x y
        → AreLeft (by_hand_up_to mark (card_days s.application x)) (by_hand_up_to mark (card_days s.application y)) }
    ensures shown { (app : Application) (x : List ℕ)
        → by_hand_in app x ≡ by_hand_up_to (end_mark app x) (card_days app x) }
{}

/// Where a cut to the end mark leaves no entry open, as behind each insertion that has written or needs no closing
/// word, an entry by hand leaves the newest minute, which is the end mark, at each of its moments; so it leaves the
/// stored time of a card whose session is open.
pub fn an_entry_by_hand_leaves_the_newest_minute()
    ensures shut { (s : Session) (e : Manual) (x y : List ℕ) → IsApplication s.application → IsSession s x
        → s.minute < e.minute → BeginsLater s.application e.minute x → IsCardEntering s e x y →
        is_open (end_mark s.application x) (trimmed (end_mark s.application x) (card_days s.application x)) ≡ false
        → is_open (end_mark s.application y) (trimmed (end_mark s.application y) (card_days s.application y)) ≡ false }
    ensures newest { (s : Session) (e : Manual) (x y : List ℕ) → IsApplication s.application → IsSession s x
        → s.minute < e.minute → BeginsLater s.application e.minute x → IsCardEntering s e x y →
        is_open (end_mark s.application x) (trimmed (end_mark s.application x) (card_days s.application x)) ≡ false
        → (card_view s.application y).newest ≡ (card_view s.application x).newest }
    ensures stored { (s : Session) (e : Manual) (x y : List ℕ) → IsApplication s.application → IsSession s x
        → s.minute < e.minute → BeginsLater s.application e.minute x → IsCardEntering s e x y →
        0 < session_time s.application x → (card_view s.application y).stored ≡ (card_view s.application x).stored }
{}

/// So does each moment of the keep behind entries by hand, as long as its end mark is the old one.
pub fn a_keep_behind_them_leaves_the_newest_minute()
    ensures { (s : Session) (e : Entry) (odometer : ℕ) (x y : List ℕ) → IsApplication s.application → IsSession s x
        → s.minute < e.minute → BeginsLater s.application e.minute x → IsCardKeeping s e odometer x y →
        end_mark s.application y ≡ end_mark s.application x
        → is_open (end_mark s.application x) (trimmed (end_mark s.application x) (card_days s.application x)) ≡ false
        → (card_view s.application y).newest ≡ (card_view s.application x).newest }
{}

/// A count with the words of entries by hand is, whatever entries follow, never above one of the entries alone with a
/// word more for each entry by hand; so what the overwriting rule says by the first count it says by the second.
pub fn a_count_with_entries_by_hand_goes_on()
    ensures entry { (by_hand : List Manual) (covered : ℕ) (all bare : Counted) (e : Entry) → all.before ≡ bare.before
        → Wider all.days (and_by_hand by_hand bare.days) →
        Wider (with_entry covered all e).days (and_by_hand by_hand (with_entry covered bare e).days) }
    ensures expected { (by_hand : List Manual) (covered next : ℕ) (all bare : Counted) → all.before ≡ bare.before
        → Wider all.days (and_by_hand by_hand bare.days) →
        Wider (expected_days covered next all) (and_by_hand by_hand (expected_days covered next bare)) }
    ensures retains { (length slack more marked : ℕ) (counted expected : List WordDay) (all : List Entry)
        (days : List WordDay) (shown : List Entry) → slack ≤ more → Wider counted expected →
        CardRetains length slack marked counted all days shown
        → CardRetains length more marked expected all days shown }
{}
