//! Laws of a session's first keep, behind its entries by hand.
ghost use Rattle.std.specs.Prelude.{◌≡◌, ◌⊎◌, ℕ, suc, ◌<◌, ◌≤◌, false, List, [], ◌∷◌, ◌++◌, length};
ghost use Rattle.activity_codec.specs.declared.entries.Entry.{Entry};
ghost use Rattle.activity_codec.specs.declared.entries.Manual.{Manual};
ghost use Rattle.tach_media.specs.card_layout.Files.{image_size_of};
ghost use Rattle.card_session.specs.card_model.Changes.{trimmed};
ghost use Rattle.card_session.specs.card_retention.Expected.{Counted, with_entry};
ghost use Rattle.card_session.specs.card_retention.Shown.{Bound, AllUpTo, is_open};
ghost use Rattle.hand_model.specs.card_image.View.{card_view};
ghost use Rattle.hand_model.specs.card_image.Fields.{file_bytes, card_days, card_number, end_mark, session_time};
ghost use Rattle.hand_model.specs.card_image.Judging.{IsValid};
ghost use Rattle.hand_model.specs.ByHand.{by_hand_up_to};
ghost use Rattle.card_session.specs.Sessions.{Session};
ghost use Rattle.card_session.specs.Overwriting.{DaysFollowOverwriting, IsRepairable, ShowsEntries, IsSilentBehind};
ghost use Rattle.card_session.specs.Overwriting.{and_entry};
ghost use Rattle.card_by_hand.specs.Listed.{AreLeft};
ghost use Rattle.card_by_hand.specs.Wider.{with_hands};
ghost use Rattle.card_by_hand.specs.First.{IsFirstKept, IsFirstKeeping, MayCome, MayFollow, AreHandsOf, ComeFrom};

/// At each moment of a session's first keep the session time, the events and the number of the card are as they were,
/// and the end mark is the old one or the minute's.
pub fn a_first_keep_leaves_the_session()
    ensures session { (s : Session) (hs : List Manual) (e : Entry) (odometer : ℕ) (x y : List ℕ)
        → IsFirstKeeping s hs e odometer x y → session_time s.application y ≡ session_time s.application x }
    ensures events { (s : Session) (hs : List Manual) (e : Entry) (odometer : ℕ) (x y : List ℕ)
        → IsFirstKeeping s hs e odometer x y → file_bytes s.application 0x0502 y ≡ file_bytes s.application 0x0502 x }
    ensures number { (s : Session) (hs : List Manual) (e : Entry) (odometer : ℕ) (x y : List ℕ)
        → IsFirstKeeping s hs e odometer x y → card_number s.application y ≡ card_number s.application x }
    ensures mark { (s : Session) (hs : List Manual) (e : Entry) (odometer : ℕ) (x y : List ℕ)
        → IsFirstKeeping s hs e odometer x y
        → (end_mark s.application y ≡ end_mark s.application x) ⊎ (end_mark s.application y ≡ e.minute) }
{}

/// As long as its end mark is the old one, a card shows the entries of before whose day is there, and no other.
pub fn a_first_keep_shows_the_entries_of_before()
    ensures { (s : Session) (hs : List Manual) (e : Entry) (odometer : ℕ) (x y : List ℕ) → MayFollow s e.minute x
        → AreHandsOf s e.minute hs → (all : List Entry) → AllUpTo (end_mark s.application x) all
        → ShowsEntries s.application all x →
        IsFirstKeeping s hs e odometer x y → end_mark s.application y ≡ end_mark s.application x
        → ShowsEntries s.application all y }
{}

/// It leaves a card valid that was, whose session is open.
pub fn a_first_keep_leaves_a_valid_card()
    ensures { (s : Session) (hs : List Manual) (e : Entry) (odometer : ℕ) (x y : List ℕ) → MayCome s e.minute x
        → AreHandsOf s e.minute hs → image_size_of s.application ≤ length x → 0 < session_time s.application x
        → IsValid s.application x →
        IsFirstKeeping s hs e odometer x y → IsValid s.application y }
{}

/// As long as its end mark is the old one, the newest minute and the stored time are the old ones, where a cut to the
/// end mark leaves no entry open, as behind each insertion.
pub fn a_first_keep_leaves_the_newest_minute()
    ensures newest { (s : Session) (hs : List Manual) (e : Entry) (odometer : ℕ) (x y : List ℕ) → MayFollow s e.minute x
        → AreHandsOf s e.minute hs →
        is_open (end_mark s.application x) (trimmed (end_mark s.application x) (card_days s.application x)) ≡ false
        → IsFirstKeeping s hs e odometer x y → end_mark s.application y ≡ end_mark s.application x →
        (card_view s.application y).newest ≡ (card_view s.application x).newest }
    ensures stored { (s : Session) (hs : List Manual) (e : Entry) (odometer : ℕ) (x y : List ℕ) → MayFollow s e.minute x
        → AreHandsOf s e.minute hs → 0 < session_time s.application x → IsFirstKeeping s hs e odometer x y →
        end_mark s.application y ≡ end_mark s.application x
        → (card_view s.application y).stored ≡ (card_view s.application x).stored }
{}

/// A stop in it before its end mark moves leaves days that are, once a repair has cut them to the mark, those that the
/// stated overwriting leaves of the entries of before, by 32 bytes, for at most eight entries by hand.
pub fn a_whole_first_keep_may_be_repaired()
    ensures { (s : Session) (h : Manual) (hs : List Manual) (e : Entry) (odometer : ℕ) (x y : List ℕ)
        → MayFollow s e.minute x → AreHandsOf s e.minute (h ∷ hs) → length hs < 8
        → IsFirstKeeping s (h ∷ hs) e odometer x y → end_mark s.application y ≡ end_mark s.application x →
        (slack : Bound) (covered from next : ℕ) (c : Counted) → 32 ≤ slack.bytes → from ≤ next
        → DaysFollowOverwriting s.application slack covered from c x
        → IsRepairable s.application slack covered next c y }
{}

/// Once its end mark is the minute's, the days are those that the stated overwriting leaves, each entry by hand counted
/// as a word of its day and the minute's entry behind them.
pub fn a_first_keep_leaves_the_entries()
    ensures { (s : Session) (h : Manual) (hs : List Manual) (e : Entry) (odometer : ℕ) (x y : List ℕ)
        → MayCome s e.minute x → AreHandsOf s e.minute (h ∷ hs)
        → is_open (end_mark s.application x) (card_days s.application x) ≡ false →
        (slack : Bound) (covered from : ℕ) (c : Counted) → 16 ≤ slack.bytes
        → ComeFrom (end_mark s.application x) covered from (h ∷ hs) e
        → DaysFollowOverwriting s.application slack covered from c x → IsFirstKeeping s (h ∷ hs) e odometer x y
        → end_mark s.application y ≡ e.minute →
        DaysFollowOverwriting s.application (and_entry slack e) covered (suc e.minute)
        (with_entry covered (with_hands covered c (h ∷ hs)) e) y }
{}

/// Once its end mark is the minute's, it shows the minute's entry behind those of before, where no minute behind the
/// old end mark told one.
pub fn a_first_keep_shows_its_entry()
    ensures { (s : Session) (hs : List Manual) (e : Entry) (odometer : ℕ) (x y : List ℕ) → MayFollow s e.minute x
        → AreHandsOf s e.minute hs → IsSilentBehind (end_mark s.application x) (card_days s.application x) →
        (all : List Entry) → AllUpTo (end_mark s.application x) all → ShowsEntries s.application all x
        → IsFirstKeeping s hs e odometer x y → end_mark s.application y ≡ e.minute
        → ShowsEntries s.application (all ++ e ∷ []) y }
{}

/// Its entries by hand are told behind those of before, in their order; of all of them only those of the oldest days
/// may be missing.
pub fn a_first_keep_tells_its_entries_by_hand()
    ensures { (s next : Session) (hs : List Manual) (e : Entry) (odometer : ℕ) (x y : List ℕ) (mark : ℕ)
        → MayFollow s e.minute x → AreHandsOf s e.minute hs → e.minute ≤ mark → IsFirstKept s next hs e odometer x y →
        AreLeft (by_hand_up_to mark (card_days s.application x) ++ hs)
        (by_hand_up_to mark (card_days s.application y)) }
{}
