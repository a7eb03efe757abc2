//! Laws of what is written behind entries by hand.
ghost use Rattle.std.specs.Prelude.{◌≡◌, ℕ, ◌+◌, ◌/◌, ◌<◌, ◌≤◌, IfSome, List, [], ◌∷◌, ◌++◌, length};
ghost use Rattle.activity_codec.specs.declared.entries.Entry.{Entry};
ghost use Rattle.activity_codec.specs.declared.entries.Manual.{Manual};
ghost use Rattle.card_session.specs.card_retention.Expected.{WordDay, Counted, counted, expected_days};
ghost use Rattle.card_session.specs.card_retention.Retains.{entries_in, begun_on};
ghost use Rattle.card_session.specs.card_retention.Shown.{AllUpTo};
ghost use Rattle.card_session.specs.card_retention.ByHand.{and_by_hand};
ghost use Rattle.hand_model.specs.card_image.Fields.{card_days, end_mark};
ghost use Rattle.hand_model.specs.ByHand.{TellsHands};
ghost use Rattle.hand_model.specs.Written.{Written, Rises, IsUpTo, IsPartOf, entries_of, hands_of, written_by};
ghost use Rattle.hand_model.specs.Written.{counted_by};
ghost use Rattle.card_session.specs.Overwriting.{ShowsEntries, IsSilentBehind};
ghost use Rattle.card_session.specs.Sessions.{Session};
ghost use Rattle.card_by_hand.specs.First.{IsFirstKeeping, MayTell, AreHandsOf, IsFreshFor};
ghost use Rattle.card_by_hand.specs.Over.{BeginsOver};
ghost use Rattle.card_by_hand.specs.Wider.{Wider};

/// What was written counts never more words than its entries alone with a word more for each entry by hand: of these,
/// or of any others among which they are.
pub fn what_is_written_counts_no_more()
    ensures counted { (covered next after : ℕ) (start : Counted) (ws : List Written) → Rises after ws
        → IfSome start.before (λ p. p.minute ≤ after) →
        Wider (expected_days covered next (counted_by covered start ws))
        (and_by_hand (hands_of ws) (expected_days covered next (counted covered start (entries_of ws)))) }
    ensures among { (days : List WordDay) (some all : List Manual) → IsPartOf some all
        → Wider (and_by_hand some days) (and_by_hand all days) }
{}

/// With its entries by hand a keep comes behind what was written, as it comes alone.
pub fn a_keep_is_written_behind()
    ensures rises { (after : ℕ) (ws : List Written) (s : Session) (e : Entry) (hs : List Manual) → Rises after ws
        → after ≤ s.minute → IsUpTo s.minute ws → AreHandsOf s e.minute hs → Rises after (ws ++ written_by hs e) }
    ensures entries { (ws : List Written) (hs : List Manual) (e : Entry)
        → entries_of (ws ++ written_by hs e) ≡ entries_of ws ++ e ∷ [] }
    ensures hands { (ws : List Written) (hs : List Manual) (e : Entry)
        → hands_of (ws ++ written_by hs e) ≡ hands_of ws ++ hs }
{}

/// At each moment of a session's first keep the days tell of the entries by hand so far those whose day is there: with
/// the old end mark those up to it, and with the minute's end mark its own too, up to any mark that the minute is not
/// behind.
pub fn a_first_keep_tells_whose_day_is_there()
    ensures before { (s : Session) (hs : List Manual) (e : Entry) (odometer : ℕ) (x y : List ℕ) (all : List Manual)
        → MayTell s e.minute all x → AreHandsOf s e.minute hs
        → TellsHands (end_mark s.application x) all (card_days s.application x) →
        IsFirstKeeping s hs e odometer x y → end_mark s.application y ≡ end_mark s.application x
        → TellsHands (end_mark s.application y) all (card_days s.application y) }
    ensures behind { (s : Session) (hs : List Manual) (e : Entry) (odometer : ℕ) (x y : List ℕ) (all : List Manual)
        (mark : ℕ) → MayTell s e.minute all x → AreHandsOf s e.minute hs → e.minute ≤ mark
        → TellsHands mark all (card_days s.application x) →
        IsFirstKeeping s hs e odometer x y → end_mark s.application y ≡ e.minute
        → TellsHands mark (all ++ hs) (card_days s.application y) }
{}

/// A session's first keep, with an entry by hand, on a card whose end mark lies in a later day than its newest day, as
/// another unit may leave it: before the mark moves only some of the oldest days are gone, or behind them that day is
/// begun, of which a repair leaves the first word alone; once it has moved the card shows the minute's entry behind
/// those of before, of which none is on that day.
pub fn a_first_keep_begins_the_day_of_the_mark()
    ensures moments { (s : Session) (h : Manual) (hs : List Manual) (e : Entry) (odometer : ℕ) (x y : List ℕ)
        → IsFreshFor s e.minute x → AreHandsOf s e.minute (h ∷ hs) → length hs < 8
        → IsFirstKeeping s (h ∷ hs) e odometer x y →
        end_mark s.application y ≡ end_mark s.application x
        → BeginsOver s.application.activity (end_mark s.application x) 32 (card_days s.application x)
        (card_days s.application y) }
    ensures entry { (s : Session) (h : Manual) (hs : List Manual) (e : Entry) (odometer : ℕ) (x y : List ℕ)
        → IsFreshFor s e.minute x → AreHandsOf s e.minute (h ∷ hs)
        → IsSilentBehind (end_mark s.application x) (card_days s.application x) →
        (all : List Entry) → entries_in (begun_on (end_mark s.application x / 1440) ∷ []) all ≡ []
        → AllUpTo (end_mark s.application x) all → ShowsEntries s.application all x
        → IsFirstKeeping s (h ∷ hs) e odometer x y →
        end_mark s.application y ≡ e.minute → ShowsEntries s.application (all ++ e ∷ []) y }
{}
