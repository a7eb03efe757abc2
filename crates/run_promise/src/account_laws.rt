//! What each acceptance of a card brought is accounted for, as a run goes on: laws.
ghost use Rattle.std.specs.Prelude.{◌≡◌, ◌⊎◌, ℕ, ◌/◌, ◌<◌, ◌≤◌, true, None, List, [], ◌++◌, All, Contains, drop};
ghost use Rattle.std.specs.List.{AllByRecursion, list_any};
ghost use Rattle.run_course.specs.trace_model.declared.Card.{Card};
ghost use Rattle.run_course.specs.trace_model.Trace.{TraceSecond};
ghost use Rattle.run_course.specs.minute_model.declared.Rule.{Rule};
ghost use Rattle.run_course.specs.log_model.declared.lines.Break.{Break};
ghost use Rattle.run_course.specs.log_model.declared.lines.Mark.{Mark};
ghost use Rattle.run_course.specs.log_model.Causes.{second_of};
ghost use Rattle.run_course.specs.log_model.Course.{went};
ghost use Rattle.run_course.specs.log_model.Spans.{AreInOrder};
ghost use Rattle.unit_rule.specs.unit_model.Decoding.{Decodes};
ghost use Rattle.unit_rule.specs.unit_model.Image.{last_kept};
ghost use Rattle.run_course.specs.history_model.Presence.{Start, CardStart};
ghost use Rattle.run_course.specs.history_model.Minutes.{HistoryMinute};
ghost use Rattle.run_course.specs.history_model.History.{unit_history};
ghost use Rattle.run_course.specs.history_model.Book.{Book, Follows, IsMark, kept, broken};
ghost use Rattle.unit_rule.specs.run_unit_course.Lines.{found_from};
ghost use Rattle.unit_rule.specs.run_unit_course.Followed.{Lit};
ghost use Rattle.run_course.specs.Followed.{Progress, BookFollowsRun};
ghost use Rattle.unit_rule.specs.card_image.Own.{IsOwnValid};
ghost use Rattle.unit_rule.specs.safety_model.Safe.{IsSafe};
ghost use Rattle.unit_rule.specs.safety_model.Recording.{Recording, card_image, start_of, history_of, lost_of};
ghost use Rattle.unit_rule.specs.safety_model.Cards.{shows_lost};
ghost use Rattle.unit_rule.specs.device_rule.Rules.{Standing};
ghost use Rattle.unit_rule.specs.device_rule.Marked.{HasBrought};
ghost use Rattle.run_promise.specs.Rule.{Started};
ghost use Rattle.run_promise.specs.Marks.{UnitFollowsBook};
ghost use Rattle.run_promise.specs.Found.{Found};
ghost use Rattle.run_promise.specs.Between.{RunLedger, LedgerStands, IsFound, HandsFollowed, AreBrought, AreUntouched};
ghost use Rattle.run_promise.specs.Between.{devices};
ghost use Rattle.run_promise.specs.Accounts.{IsAccount, HasAccounts, IsShownLost};
ghost use Rattle.run_promise.specs.Stays.{AddsLater, IsStep};
ghost use Rattle.run_promise.specs.Going.{AreAccounted, IsTakenAt, ASecondIsAccounted, KeptMinutesAreSure};
ghost use Rattle.run_promise.specs.Going.{FoundStaysAccounted, AFailureStaysAccounted, ADarkMinuteStaysAccounted};
ghost use Rattle.run_promise.specs.Going.{AnOffLineStaysAccounted, AnOffCutStaysAccounted, NothingIsAccountedYet};
ghost use Rattle.run_promise.specs.Going.{TheEndIsAccounted};

use tach_media::{Chip, Medium};

/// Where each acceptance of a card is accounted for, it has its last-kept minute: what the unit had kept by then is not
/// later, and it had kept nothing that is not sure.
pub fn accounts_are_brought()
    ensures { (r : Recording) (c : Card) (from : ℕ) (b : Book) (ks : List ℕ) → AreInOrder from r.trace
        → last_kept r.unit < from / 60 →
        Follows (history_of r) (lost_of r) b → HasAccounts r c (last_kept r.unit) b ks → AreBrought r c b ks }
{}

/// An account goes on with the run: where the log shows no other cut before its second, each minute of the history was
/// there before or is not earlier than that second's, and its mark stays. Neither breaks of its second and later ones
/// change what the log shows, nor what is found after such.
pub fn an_account_goes_on()
    ensures goes { (r s : Recording) (c : Card) (first : ℕ) (b d : Book) (u k : ℕ) →
        ((m : ℕ) → list_any (shows_lost u m) s.log.breaks ≡ list_any (shows_lost u m) r.log.breaks) →
        All (λ i. Contains (history_of r) i ⊎ (u / 60 ≤ i.minute)) (history_of s)
        → (IsMark first b.sure k → IsMark first d.sure k) →
        IsAccount r c first b u k → IsAccount s c first d u k }
    ensures later { (u m : ℕ) (breaks rest : List Break) → AllByRecursion (λ (b : Break). u ≤ second_of b) rest →
        list_any (shows_lost u m) (breaks ++ rest) ≡ list_any (shows_lost u m) breaks }
    ensures found { (u m unfound k : ℕ) (breaks : List Break)
        → AllByRecursion (λ (b : Break). u ≤ second_of b) (drop unfound breaks) →
        list_any (shows_lost u m) (found_from unfound k breaks) ≡ list_any (shows_lost u m) breaks }
{}

/// An acceptance is accounted for by the unit's last-kept minute, where each minute of the history is not later, or not
/// earlier than the minute of its second, or shown to be lost.
pub fn an_acceptance_is_accounted()
    ensures { (r : Recording) (c : Card) (first : ℕ) (b : Book) (u k : ℕ) → IsMark first b.sure k →
        All (λ i. (i.minute ≤ k) ⊎ ((u / 60 ≤ i.minute) ⊎ (list_any (shows_lost u i.minute) r.log.breaks ≡ true)))
        (history_of r) → IsAccount r c first b u k }
{}

/// While power has just come back, each minute of the history is a sure one, or shown to be lost.
pub fn what_is_lost_is_shown()
    ensures { (rule : Rule) (start : Start) (from first : ℕ) (done : List TraceSecond) (p : Progress)
        → BookFollowsRun rule start from first done (record p { supply = Lit []; waiting = [] }) →
        All (λ i. Contains p.book.sure i ⊎ IsShownLost p.log p.next i)
        (unit_history rule start p.log (went p.log done).told) }
{}

/// Each acceptance so far stays accounted for over a second with power, whole or a cut's, and one in it is, by the
/// minute that the unit had kept last at that time.
pub fn a_second_is_accounted()
    ensures { ASecondIsAccounted }
{}

/// The unit's last-kept minute is what is to be told of an acceptance, where the book that the unit held at that time
/// had all that the second decides, and nothing was half kept.
pub fn an_acceptance_is_taken_at_the_last_kept_minute<M: Medium>(unit: &M)
    ensures { (s : Started) (due : ℕ) (p b q : Book) (marks : List Mark) (new more : List HistoryMinute)
        → b.sure ≡ p.sure ++ new → q.sure ≡ b.sure ++ more → b.maybe ≡ None →
        UnitFollowsBook s due b marks (M.state unit.now) → (u : List ℕ) → (M.state unit.now).may_leave u
        → IsTakenAt s.first p q new (last_kept u) }
{}

/// The minutes that a second kept are sure then.
pub fn kept_minutes_are_sure()
    ensures { KeptMinutesAreSure }
{}

/// Accounts stay where power is back and the last-kept minute is found, and where that fails.
pub fn accounts_stay_as_power_returns()
    ensures found { FoundStaysAccounted }
    ensures failed { AFailureStaysAccounted }
{}

/// They stay over seconds without power, and over the cut of an `off` line.
pub fn accounts_stay_without_power()
    ensures dark { ADarkMinuteStaysAccounted }
    ensures off { AnOffLineStaysAccounted }
    ensures cut { AnOffCutStaysAccounted }
{}

/// At the start nothing is to be accounted for; and what is at the end of the run is what the theorem takes.
pub fn accounts_begin_and_end()
    ensures begin { NothingIsAccountedYet }
    ensures end { TheEndIsAccounted }
{}

/// What an acceptance brought stays so over each step behind which the rule that joins unit and card holds again,
/// whatever the step is: the unit had kept what the book was sure of, no end mark falls, and what comes to the card's
/// entries is later.
pub fn what_was_brought_stays_by_the_rules<M: Medium, N: Medium, C: Chip, D: Chip>(
    unit: &M,
    card: &C,
    unit_behind: &N,
    card_behind: &D,
)
    ensures { (f : Found) (c : Card) (k : ℕ) (b d : Book) (y z : Standing)
        → IsStep f c k b d y z (M.state unit.now) (C.state card.now) (N.state unit_behind.now) (D.state card_behind.now)
        →
        HasBrought f.card_a.number f.card_b.number c k (M.state unit.now) (C.state card.now)
        → HasBrought f.card_a.number f.card_b.number c k (N.state unit_behind.now) (D.state card_behind.now) }
{}

/// What a minute that is kept, or broken off, brings to a card's entries is its own.
pub fn what_a_minute_adds_is_its_own()
    ensures none { (c : Card) (start : CardStart) (k : ℕ) (b : Book) → b.maybe ≡ None → AddsLater c start k b b }
    ensures kept { (c : Card) (start : CardStart) (k : ℕ) (b : Book) (i : HistoryMinute) → k < i.minute
        → AddsLater c start k b (kept i b) }
    ensures broken { (c : Card) (start : CardStart) (k : ℕ) (b : Book) (i : HistoryMinute) → k < i.minute
        → AddsLater c start k b (broken i b) }
{}

/// THE END OF A RUN: where a book is followed, with its log, and carried by unit and cards, and each acceptance of a
/// card that was valid is accounted for, the crash-safety theorem holds.
pub fn what_is_followed_and_carried_is_safe<
    M: Medium,
    C: Chip,
    D: Chip,
    N: Medium,
    E: Chip,
    F: Chip,
>(old_unit: &M, old_a: &C, old_b: &D, unit: &N, card_a: &E, card_b: &F)
    ensures { (r : Recording) (f : Found) (w : RunLedger) (from : ℕ) (p : Progress) → Decodes r.unit →
        IsFound r f (devices (M.state old_unit.now) (C.state old_a.now) (D.state old_b.now)) →
        BookFollowsRun r.rule (start_of r) from (last_kept r.unit) r.trace p → p.log ≡ r.log → w.book ≡ p.book →
        LedgerStands f w (devices (N.state unit.now) (E.state card_a.now) (F.state card_b.now)) →
        ((c : Card) → IsOwnValid (card_image r c) → HandsFollowed r c (w.hands c) (w.firsts c) w.marks) →
        ((c : Card) → IsOwnValid (card_image r c) → AreAccounted r c (last_kept r.unit) r.trace p (w.brought c)) →
        AreUntouched r f (devices (N.state unit.now) (E.state card_a.now) (F.state card_b.now)) →
        IsSafe r w.marks (devices (M.state old_unit.now) (C.state old_a.now) (D.state old_b.now))
        (devices (N.state unit.now) (E.state card_a.now) (F.state card_b.now)) }
{}
