//! Laws of the string: what is shown, kept and carried over each call.
ghost use Rattle.std.specs.Prelude.{◌≡◌, ◌⊎◌, ℕ, suc, ◌/◌, ◌<◌, ◌≤◌, max, false, List, [], ◌∷◌, ◌++◌, length, filter};
ghost use Rattle.std.specs.Prelude.{◌↔◌, nat_le, All};
ghost use Rattle.card_by_hand.specs.activity_codec.declared.entries.Entry.{Entry};
ghost use Rattle.card_by_hand.specs.activity_codec.declared.values.Activity.{Activity};
ghost use Rattle.card_by_hand.specs.tacho_types.declared.texts.Registration.{Registration};
ghost use Rattle.tach_media.specs.card_layout.declared.files.Application.{Application};
ghost use Rattle.tach_media.specs.card_layout.Application.{IsApplication};
ghost use Rattle.tach_media.specs.card_layout.Files.{image_size_of};
ghost use Rattle.card_by_hand.specs.card_model.Changes.{trimmed};
ghost use Rattle.card_by_hand.specs.card_model.Days.{AreDays};
ghost use Rattle.card_by_hand.specs.card_retention.Expected.{Counted};
ghost use Rattle.card_by_hand.specs.card_retention.Entries.{newest_minute, newest_word};
ghost use Rattle.card_by_hand.specs.card_retention.Shown.{Bound, AllUpTo, is_open};
ghost use Rattle.card_by_hand.specs.card_image.Fields.{card_days, end_mark, session_time};
ghost use Rattle.card_by_hand.specs.card_image.Judging.{IsValid};
ghost use Rattle.card_by_hand.specs.card_image.Own.{own_sizes, own_view, KeepsOf};
ghost use Rattle.card_by_hand.specs.card_image.View.{card_view};
ghost use Rattle.card_by_hand.specs.card_session.Sessions.{Session, IsSession, book_of};
ghost use Rattle.card_by_hand.specs.card_session.Cards.{IsCardKept, IsCardKeeping, IsCardClosing, IsCardClosed};
ghost use Rattle.card_by_hand.specs.card_session.Inserting.{AreOwed, Follow, IsCardInserted, IsCardInserting};
ghost use Rattle.card_by_hand.specs.card_session.Repairs.{first_minute, newest_behind, lacked_by};
ghost use Rattle.card_by_hand.specs.card_session.Overwriting.{BeginsBehind};
ghost use Rattle.card_string.specs.Carried.{StringFollowsEntries, Broke, Begun, IsFresh, IsStated};
ghost use Rattle.card_string.specs.Shows.{IsKeepShown, IsDone, IsFirstReady, IsFirstShown};
ghost use Rattle.card_string.specs.Closes.{IsClosedShown, IsCloseShown};
ghost use Rattle.card_string.specs.Since.{all_since, counted_since, HoldsSince, SitsSince, IsReadySince};
ghost use Rattle.card_by_hand.specs.hand_model.Written.{Hands, no_hands, and_sure, and_given};
ghost use Rattle.card_by_hand.specs.First.{IsFirstKept, IsFirstKeeping};
ghost use Rattle.card_by_hand.specs.Wider.{with_hands};
ghost use Rattle.card_by_hand.specs.activity_codec.declared.entries.Manual.{Manual};
ghost use Rattle.card_string.specs.Inserts.{MayReplay, IsReplayShown, IsAllShown, IsInsertionShown, IsStillShown};

/// Of a card that a session knows, an image that a keep may leave shows the old end mark, or the entry's minute; the
/// newest minute goes with it, and so does what is carried of the days. Where the entry's day is new it is later than
/// the end mark's, or that is later than each day so far.
pub fn a_keep_is_shown()
    ensures { (s : Session) (e : Entry) (odometer : ℕ) (x y : List ℕ) (slack : Bound) (covered from : ℕ) (c : Counted)
        (all : List Entry) →
        IsApplication s.application → from ≤ e.minute → s.minute < e.minute → 16 ≤ slack.bytes → IsSession s x →
        StringFollowsEntries s.application slack covered from c all x
        → BeginsBehind s.application e x ⊎ IsFresh s.application c all x → IsCardKeeping s e odometer x y →
        IsKeepShown s.application slack covered c all e x y }
{}

/// Of a card whose day of the end mark was begun, and that a repair has cut to it, the first keep goes on so too, where
/// its entry lies on that day.
pub fn a_begun_day_is_kept()
    ensures { (s : Session) (e : Entry) (odometer : ℕ) (x y : List ℕ) (slack : Bound) (covered from : ℕ) (c : Counted)
        (all : List Entry) →
        IsApplication s.application → from ≤ e.minute → s.minute < e.minute → 16 ≤ slack.bytes → IsSession s x →
        Begun s.application slack covered from c all x →
        trimmed (end_mark s.application x) (card_days s.application x) ≡ card_days s.application x →
        e.minute / 1440 ≡ end_mark s.application x / 1440 → IsCardKeeping s e odometer x y →
        IsKeepShown s.application slack covered c all e x y }
{}

/// A session's first keep is shown so, with its entries by hand: at most eight, on a card on which no entry is open at
/// the end mark, as behind each insertion. Where it has none it is shown as a keep.
pub fn a_first_keep_is_shown()
    ensures shown { (s : Session) (hands : List Manual) (e : Entry) (odometer : ℕ) (x y : List ℕ) (slack : Bound)
        (covered from : ℕ) (c : Counted) (all : List Entry) →
        IsFirstReady s slack covered from c all hands e x → IsFirstKeeping s hands e odometer x y
        → IsFirstShown s.application slack covered c all hands e x y }
    ensures kept { (s t : Session) (hands : List Manual) (e : Entry) (odometer : ℕ) (x y : List ℕ) (slack : Bound)
        (covered from : ℕ) (c : Counted) (all : List Entry) →
        IsFirstReady s slack covered from c all hands e x → IsFirstKept s t hands e odometer x y
        → IsDone s.application slack covered (with_hands covered c hands) all e x y }
    ensures keep { (app : Application) (slack : Bound) (covered : ℕ) (c : Counted) (all : List Entry) (e : Entry)
        (x y : List ℕ) → IsFirstShown app slack covered c all [] e x y ↔ IsKeepShown app slack covered c all e x y }
{}

/// A withdrawal of a card that a session knows: at each moment the session is still open and what a repair leaves keeps
/// the rule, or the last entry is closed and the days go on; at its end they do. The next entry is later than the
/// card's newest minute.
pub fn a_withdrawal_is_shown()
    ensures moments { (s : Session) (act : Activity) (x y : List ℕ) (slack : Bound) (covered from next : ℕ)
        (c : Counted) (all : List Entry) →
        IsApplication s.application → image_size_of s.application ≤ length x → from ≤ next
        → newest_minute (end_mark s.application x) (card_days s.application x) < next → 16 ≤ slack.bytes → IsSession s x
        →
        StringFollowsEntries s.application slack covered from c all x → IsCardClosing s act x y
        → IsCloseShown s.application slack covered next c all x y }
    ensures closed { (s : Session) (act : Activity) (x y : List ℕ) (slack : Bound) (covered from next : ℕ) (c : Counted)
        (all : List Entry) →
        IsApplication s.application → image_size_of s.application ≤ length x → from ≤ next
        → newest_minute (end_mark s.application x) (card_days s.application x) < next → 16 ≤ slack.bytes → IsSession s x
        →
        StringFollowsEntries s.application slack covered from c all x → IsCardClosed s act x y
        → IsClosedShown s.application slack covered next c all x y }
{}

/// An insertion of a card whose session was left open: at each moment the session is the same and the first of the
/// entries that it lacked are on the card, or all of them are, as at its end. The first of them may come: on a new day
/// that is later than the end mark's, or on that day, where no day so far is as late or it was begun. What comes next
/// is later than the newest minute with all of them.
pub fn an_insertion_is_shown()
    ensures moments { (app : Application) (registration : Registration) (odometer now : ℕ) (owed : List Entry)
        (x y : List ℕ) → IsApplication app → image_size_of app ≤ length x → length registration.0 ≡ 15
        → AreOwed now owed → IsValid app x → 0 < session_time app x →
        (slack : Bound) (covered from next : ℕ) (c : Counted) (all : List Entry) → 16 ≤ slack.bytes
        → from ≤ first_minute next (lacked_by app x owed)
        → newest_behind (card_view app x).newest (lacked_by app x owed) < next →
        MayReplay app slack covered from c all (lacked_by app x owed) x
        → IsCardInserting app registration odometer owed now x y
        → IsInsertionShown app slack covered next c all (lacked_by app x owed) x y }
    ensures done { (app : Application) (registration : Registration) (odometer now : ℕ) (owed : List Entry)
        (x y : List ℕ) → IsApplication app → image_size_of app ≤ length x → length registration.0 ≡ 15
        → AreOwed now owed → IsValid app x → 0 < session_time app x →
        (slack : Bound) (covered from next : ℕ) (c : Counted) (all : List Entry) → 16 ≤ slack.bytes
        → from ≤ first_minute next (lacked_by app x owed)
        → newest_behind (card_view app x).newest (lacked_by app x owed) < next →
        MayReplay app slack covered from c all (lacked_by app x owed) x
        → IsCardInserted app registration odometer owed now x y
        → IsAllShown app slack covered next c all (lacked_by app x owed) x y }
    ensures rest { (app : Application) (now : ℕ) (owed : List Entry) (x y : List ℕ) → AreOwed now owed
        → (slack : Bound) (covered next : ℕ) (c : Counted) (all : List Entry) →
        (shown : IsReplayShown app slack covered next c all (lacked_by app x owed) x y)
        → lacked_by app y owed ≡ shown.first.rest }
    ensures shut { (app : Application) (registration : Registration) (odometer now : ℕ) (owed : List Entry)
        (x y : List ℕ) → IsApplication app → image_size_of app ≤ length x → length registration.0 ≡ 15
        → session_time app x ≡ 0 → is_open (end_mark app x) (card_days app x) ≡ false →
        (slack : Bound) (covered from : ℕ) (c : Counted) (all : List Entry)
        → StringFollowsEntries app slack covered from c all x → IsCardInserting app registration odometer owed now x y
        → IsStillShown app slack covered from c all x y }
    ensures unclosed { (app : Application) (registration : Registration) (odometer now : ℕ) (owed : List Entry)
        (x y : List ℕ) → IsApplication app → image_size_of app ≤ length x → length registration.0 ≡ 15 → IsValid app x
        → session_time app x ≡ 0 →
        (slack : Bound) (covered from next : ℕ) (c : Counted) (all : List Entry) → 16 ≤ slack.bytes → from ≤ next
        → newest_minute (end_mark app x) (card_days app x) < next → StringFollowsEntries app slack covered from c all x
        → IsCardInserting app registration odometer owed now x y →
        StringFollowsEntries app slack covered next c all y × (end_mark app y / 1440 ≡ end_mark app x / 1440) }
{}

/// What is carried of a string gives what is stated of it, where the next entry is not earlier than it may come, in a
/// session and where one was broken off.
pub fn what_is_carried_is_stated()
    ensures goes { (app : Application) (slack : Bound) (covered from marked : ℕ) (c : Counted) (first all : List Entry)
        (x : List ℕ) →
        IsApplication app → 16 ≤ slack.bytes → slack.all ≡ first ++ all
        → StringFollowsEntries app slack covered from c all x →
        (n : ℕ) → from ≤ n → IsStated app slack covered marked c first all n x }
    ensures broke { (app : Application) (slack : Bound) (covered from marked : ℕ) (c : Counted) (first all : List Entry)
        (x : List ℕ) →
        0 < session_time app x → slack.all ≡ first ++ all → Broke app slack covered from c all x →
        (n : ℕ) → from ≤ n → IsStated app slack covered marked c first all n x }
    ensures begun { (app : Application) (slack : Bound) (covered from : ℕ) (c : Counted) (first all : List Entry)
        (x : List ℕ) →
        0 < session_time app x → slack.all ≡ first ++ all → Begun app slack covered from c all x →
        (n : ℕ) → from ≤ n → IsStated app slack covered (end_mark app x / 1440) c first all n x }
{}

/// At the start a card holds its string, and lacks all that came: one whose session is open, and a valid one without a
/// session, behind whose words the first entry comes.
pub fn a_card_holds_its_string_at_the_start()
    ensures open { (image : List ℕ) (brought : List Entry) (next : ℕ) → All (λ b. b < 256) image
        → AreDays 0 (card_days (own_sizes image) image) → Follow (end_mark (own_sizes image) image) brought
        → end_mark (own_sizes image) image < next →
        0 < session_time (own_sizes image) image → HoldsSince (own_sizes image) image no_hands brought next image }
    ensures shut { (image : List ℕ) (brought : List Entry) (next : ℕ) → All (λ b. b < 256) image
        → AreDays 0 (card_days (own_sizes image) image) → Follow (end_mark (own_sizes image) image) brought →
        IsValid (own_sizes image) image → session_time (own_sizes image) image ≡ 0
        → max (end_mark (own_sizes image) image) (newest_word (card_days (own_sizes image) image))
        < first_minute next brought →
        HoldsSince (own_sizes image) image no_hands brought next image }
{}

/// A keep of a card in a session, the first one with its entries by hand, leaves its string as it is to stand since the
/// start: with the old end mark the entry is lacked, and of its entries by hand none counts; with the new one they are
/// there, as at its end; those behind it are lacked.
pub fn a_keep_keeps_the_string()
    ensures moments { (s : Session) (image : List ℕ) (h : Hands) (done es : List Entry) (hands : List Manual)
        (e : Entry) (odometer n next : ℕ) (x y : List ℕ) → IsReadySince s image h done n hands e x →
        Follow e.minute es → e.minute < next → IsFirstKeeping s hands e odometer x y
        → HoldsSince s.application image (and_given hands h) (done ++ e ∷ es) next y }
    ensures kept { (s t : Session) (image : List ℕ) (h : Hands) (done : List Entry) (hands : List Manual) (e : Entry)
        (odometer n : ℕ) (x y : List ℕ) → IsReadySince s image h done n hands e x →
        IsFirstKept s t hands e odometer x y
        → SitsSince s.application image (and_sure hands h) (done ++ e ∷ []) (suc e.minute) y }
{}

/// So does a withdrawal, which brings no entry.
pub fn a_withdrawal_keeps_the_string()
    ensures { (s : Session) (act : Activity) (image : List ℕ) (h : Hands) (done : List Entry) (n next : ℕ)
        (x y : List ℕ) → IsApplication s.application → image_size_of s.application ≤ length x → IsSession s x
        → 0 < session_time s.application x →
        n ≤ next → newest_minute (end_mark s.application x) (card_days s.application x) < next
        → SitsSince s.application image h done n x → IsCardClosing s act x y
        → HoldsSince s.application image h done next y }
{}

/// So does an insertion that is given the entries that the card lacks; at its end the session that is open then may go
/// on with any entry later than the newest minute that it knows. Of a card without a session nothing is lacked.
pub fn an_insertion_keeps_the_string()
    ensures open { (app : Application) (registration : Registration) (odometer now : ℕ) (owed : List Entry)
        (image : List ℕ) (h : Hands) (done : List Entry) (n next : ℕ) (x y : List ℕ) → IsApplication app
        → image_size_of app ≤ length x → length registration.0 ≡ 15 → AreOwed now owed →
        IsValid app x → 0 < session_time app x → AllUpTo (end_mark app x) done → n ≤ next
        → newest_behind (card_view app x).newest (lacked_by app x owed) < next
        → HoldsSince app image h (done ++ lacked_by app x owed) n x →
        IsCardInserting app registration odometer owed now x y
        → HoldsSince app image h (done ++ lacked_by app x owed) next y }
    ensures sits { (app : Application) (registration : Registration) (odometer now : ℕ) (owed : List Entry)
        (image : List ℕ) (h : Hands) (done : List Entry) (n : ℕ) (x y : List ℕ) (t : Session) → IsApplication app
        → image_size_of app ≤ length x → length registration.0 ≡ 15 → AreOwed now owed →
        IsValid app x → 0 < session_time app x → AllUpTo (end_mark app x) done
        → n ≤ suc (newest_behind (card_view app x).newest (lacked_by app x owed))
        → HoldsSince app image h (done ++ lacked_by app x owed) n x →
        IsCardInserted app registration odometer owed now x y → t.application ≡ app → IsSession t y →
        SitsSince app image h (done ++ lacked_by app x owed) (suc t.minute) y
        × (t.minute ≡ newest_behind (card_view app x).newest (lacked_by app x owed)) }
    ensures shut { (app : Application) (registration : Registration) (odometer now : ℕ) (owed : List Entry)
        (image : List ℕ) (h : Hands) (done : List Entry) (n next : ℕ) (x y : List ℕ) → IsApplication app
        → image_size_of app ≤ length x → length registration.0 ≡ 15 → IsValid app x → session_time app x ≡ 0 →
        AllUpTo (end_mark app x) done → n ≤ next → newest_minute (end_mark app x) (card_days app x) < next
        → HoldsSince app image h done n x → IsCardInserting app registration odometer owed now x y
        → HoldsSince app image h done next y }
    ensures shut_sits { (app : Application) (registration : Registration) (odometer now : ℕ) (owed : List Entry)
        (image : List ℕ) (h : Hands) (done : List Entry) (n : ℕ) (x y : List ℕ) (t : Session) → IsApplication app
        → image_size_of app ≤ length x → length registration.0 ≡ 15 → IsValid app x → session_time app x ≡ 0 →
        AllUpTo (end_mark app x) done → HoldsSince app image h done n x
        → IsCardInserted app registration odometer owed now x y → t.application ≡ app → IsSession t y → n ≤ suc t.minute
        → SitsSince app image h done (suc t.minute) y }
{}

/// So does what leaves days, vehicle entries and session time, as a note does. A later bound does, further entries that
/// are brought, and further entries by hand that were given.
pub fn a_string_holds_on()
    ensures given { (app : Application) (image : List ℕ) (h : Hands) (hands : List Manual) (brought : List Entry)
        (n : ℕ) (x : List ℕ) → HoldsSince app image h brought n x
        → HoldsSince app image (and_given hands h) brought n x }
    ensures beside { (app : Application) (image : List ℕ) (h : Hands) (brought : List Entry) (n : ℕ) (x y : List ℕ)
        → book_of app y ≡ book_of app x → session_time app y ≡ session_time app x →
        HoldsSince app image h brought n x → HoldsSince app image h brought n y }
    ensures later { (app : Application) (image : List ℕ) (h : Hands) (brought : List Entry) (n next : ℕ) (x : List ℕ)
        → n ≤ next → HoldsSince app image h brought n x → HoldsSince app image h brought next x }
    ensures brought { (app : Application) (image : List ℕ) (h : Hands) (brought es : List Entry) (m n next : ℕ)
        (x : List ℕ) → Follow m (brought ++ es) → n ≤ first_minute next es → HoldsSince app image h brought n x
        → HoldsSince app image h (brought ++ es) next x }
{}

/// In a session each entry that is not earlier than it may come can be kept: its day, where it is new, is later than
/// the end mark's, or that is later than each day so far.
pub fn an_entry_may_come()
    ensures { (app : Application) (image : List ℕ) (h : Hands) (more : List Entry) (next : ℕ) (x : List ℕ)
        → (sits : SitsSince app image h more next x) → (e : Entry) → next ≤ e.minute →
        BeginsBehind app e x ⊎ IsFresh app (counted_since image sits.written) (all_since image more) x }
{}

/// A string that stands so keeps the entries of the start and those that came since up to its end mark, but for those
/// that the stated overwriting took.
pub fn a_string_that_holds_is_kept()
    ensures { (app : Application) (image : List ℕ) (h : Hands) (brought : List Entry) (next : ℕ) (x : List ℕ)
        → IsApplication app → own_sizes image ≡ app → own_sizes x ≡ app → HoldsSince app image h brought next x →
        KeepsOf image h.given (all_since image (filter (λ (e : Entry). nat_le e.minute (own_view x).mark) brought))
        (own_view x).held }
{}
