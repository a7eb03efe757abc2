//! The events of a run with cards, second by second, and how an image shows them: laws.
ghost use Rattle.std.specs.Prelude.{◌≡◌, ◌≢◌, ℕ, suc, ◌+◌, ◌^◌, ◌<◌, ◌≤◌, Bool, true, false, List, [], ◌∷◌, ◌++◌, All};
ghost use Rattle.std.specs.Prelude.{length, take, Contains};
ghost use Rattle.std.specs.List.{AllByRecursion};
ghost use Rattle.card_layout.specs.Images.{SameOutside};
ghost use Rattle.trace_model.specs.declared.Card.{Card};
ghost use Rattle.trace_model.specs.Trace.{TraceSecond};
ghost use Rattle.tacho_types.specs.declared.card_number.FullCardNumber.{FullCardNumber};
ghost use Rattle.log_model.specs.declared.lines.Break.{Break};
ghost use Rattle.log_model.specs.Log.{RunLog, kept_after};
ghost use Rattle.log_model.specs.Same.{SameAt};
ghost use Rattle.log_model.specs.Spans.{AreInOrder};
ghost use Rattle.log_model.specs.Course.{ToldSecond, Visit, has_power, went};
ghost use Rattle.run_unit_course.specs.Lines.{tells_cut, found_from};
ghost use Rattle.run_unit_course.specs.Turn.{begins_with};
ghost use Rattle.run_unit_course.specs.Followed.{UnitPower, Lit, Due, Lost, IsDark};
ghost use Rattle.note_model.specs.Done.{has_failed_in};
ghost use Rattle.note_model.specs.Events.{noting_second};
ghost use Rattle.unit_model.specs.declared.layout.TheConstants.{IMAGE_SIZE, SPARE_COUNTS, EVENTS};
ghost use Rattle.event_model.specs.declared.kinds.TheConstants.{OVER_SPEEDING};
ghost use Rattle.event_model.specs.declared.entries.Over.{Over};
ghost use Rattle.event_model.specs.Events.{Event, Seen, Tearing, AreTorn, number_of, seen_of, seen_spans, events_of};
ghost use Rattle.unit_notes.specs.declared.unit_event.UnitEvent.{UnitEvent};
ghost use Rattle.unit_notes.specs.Entries.{fault_bytes, over_bytes};
ghost use Rattle.unit_notes.specs.Fields.{IsEventOf, IsOverOf};
ghost use Rattle.unit_notes.specs.Noting.{IsEventNoted, IsNotingEvent, IsNotingOver, IsOverNoted};
ghost use Rattle.note_model.specs.Tables.{AreNoted};
ghost use Rattle.note_model.specs.Unsure.{AreNotedBut, IsFirstBut, IsCountedBut};
ghost use Rattle.unit_events.specs.Noted.{are_sure, StayFailed};
ghost use Rattle.unit_events.specs.Shown.{all_kinds, first_on, count_on, HaveBegins, KeepsEvents};
ghost use Rattle.run_events.specs.Shown.{by_kind, none, is_sure_by, none_sure, all_sure, ShowsEvents, HasUnsureMore};
ghost use Rattle.run_events.specs.Shown.{AllLead, AreTheFirst, AreNumbers, SaysNothing};
ghost use Rattle.run_events.specs.Seconds.{last_of, bares_by, overs_by, second_events, quiet_events, IsBehind, IsIdle};
ghost use Rattle.run_events.specs.Seconds.{IsQuiet, IsDarkSeen, seen_next};
ghost use Rattle.run_events.specs.Gaps.{IsUntold, HasGaps, TellsMore};
ghost use Rattle.run_events.specs.Choice.{chosen, told_at, AreEarlier, IsTornIn, IsPlainFrom};
ghost use Rattle.run_events.specs.Running.{second_notes, IsCutOff};

/// What an image shows of the events goes on by a step: where the step leads to more events by bringing some, and the
/// image shows these more than one before it, it shows all.
pub fn a_step_is_shown()
    ensures { (number : Card → List ℕ) (start x c : List ℕ) (log later : RunLog) (l more now : ℕ → List Event)
        → ShowsEvents number (is_sure_by log) start l x → StayFailed log later
        → AllLead (is_sure_by later) l more now → ShowsEvents number (is_sure_by later) x more c
        → ShowsEvents number (is_sure_by later) start now c }
{}

/// Some events more, and then some more, are all of them more; so it is where a stop came at a moment of the first, or
/// of the others behind those.
pub fn more_is_shown_after_more()
    ensures more { (number : Card → List ℕ) (sure : Event → Bool) (more rest : List Event) (x y c : List ℕ)
        → ShowsEvents number sure x (by_kind more) y → ShowsEvents number sure y (by_kind rest) c →
        ShowsEvents number sure x (by_kind (more ++ rest)) c }
    ensures first { (number : Card → List ℕ) (more rest : List Event) (x c : List ℕ)
        → ShowsEvents number none_sure x (by_kind more) c
        → ShowsEvents number none_sure x (by_kind (more ++ rest)) c }
    ensures behind { (number : Card → List ℕ) (more rest : List Event) (x y c : List ℕ)
        → ShowsEvents number all_sure x (by_kind more) y → ShowsEvents number none_sure y (by_kind rest) c →
        ShowsEvents number none_sure x (by_kind (more ++ rest)) c }
{}

/// An event or fault that was noted on the unit, with the numbers of its cards, is shown more; and where a stop came at
/// a moment of its note it was, or nothing has come of it, or its place is empty.
pub fn an_event_is_shown()
    ensures noted { (number : Card → List ℕ) → AreNumbers number → (e : Event) → Contains all_kinds e.kind
        → (x c : List ℕ) → length x ≡ IMAGE_SIZE → (v : UnitEvent) → e.kind ≢ OVER_SPEEDING →
        e.begin < 2 ^ 32 → e.end < 2 ^ 32 → IsEventOf number e v → IsEventNoted e.kind (fault_bytes v) x c
        → ShowsEvents number all_sure x (by_kind (e ∷ [])) c }
    ensures moment { (number : Card → List ℕ) → AreNumbers number → (e : Event) → Contains all_kinds e.kind
        → (x c : List ℕ) → length x ≡ IMAGE_SIZE → (v : UnitEvent) → e.kind ≢ OVER_SPEEDING →
        e.begin < 2 ^ 32 → e.end < 2 ^ 32 → IsEventOf number e v → IsNotingEvent e.kind (fault_bytes v) x c
        → ShowsEvents number none_sure x (by_kind (e ∷ [])) c }
{}

/// So is an over speeding, with the first one and their number.
pub fn an_over_speeding_is_shown()
    ensures noted { (number : Card → List ℕ) → AreNumbers number → (e : Event) → Contains all_kinds e.kind
        → (x c : List ℕ) → length x ≡ IMAGE_SIZE → (over : Over) (card : FullCardNumber) →
        e.begin < 2 ^ 32 → e.end < 2 ^ 32 → IsOverOf number e over card
        → IsOverNoted over.begin (over_bytes over card) x c → ShowsEvents number all_sure x (by_kind (e ∷ [])) c }
    ensures moment { (number : Card → List ℕ) → AreNumbers number → (e : Event) → Contains all_kinds e.kind
        → (x c : List ℕ) → length x ≡ IMAGE_SIZE → (over : Over) (card : FullCardNumber) →
        e.begin < 2 ^ 32 → e.end < 2 ^ 32 → IsOverOf number e over card
        → IsNotingOver over.begin (over_bytes over card) x c → ShowsEvents number none_sure x (by_kind (e ∷ [])) c }
{}

/// Of what a failed call has left of the first events of a second nothing is sure: so it has left that of all of them.
pub fn what_a_failed_call_leaves_is_shown()
    ensures { (number : Card → List ℕ) (sure : Event → Bool) (some all : ℕ → List Event) (x c : List ℕ)
        → AreTheFirst some all
        → ((kind : ℕ) → Contains all_kinds kind → AllByRecursion (λ (e : Event). sure e ≡ false) (all kind))
        → ShowsEvents number none_sure x some c → ShowsEvents number sure x all c }
{}

/// Where each event of a type is sure, each was noted, one after another; and so were the first over speeding and their
/// number.
pub fn what_is_sure_was_noted()
    ensures tables { (number : Card → List ℕ) (sure : Event → Bool) (events : List Event) (old new : List (List ℕ))
        → AllByRecursion (λ (e : Event). sure e ≡ true) events → AreNotedBut number sure old events new
        → AreNoted number old events new }
    ensures first { (sure : Event → Bool) (held : ℕ) (overs : List Event) (now : ℕ) → HaveBegins overs
        → AllByRecursion (λ (e : Event). sure e ≡ true) overs → IsFirstBut sure held overs now
        → now ≡ first_on held overs }
    ensures count { (sure : Event → Bool) (held : ℕ) (overs : List Event) (now : ℕ)
        → AllByRecursion (λ (e : Event). sure e ≡ true) overs → IsCountedBut sure held overs now
        → now ≡ count_on held overs }
{}

/// Bytes between the numbers of over speedings and the places of events tell of no event: the owed rows and the days,
/// insertions and places; nor does what the journal writes.
pub fn other_bytes_tell_of_no_event()
    ensures between { (base size : ℕ) (x c : List ℕ) → SameOutside base size x c → SPARE_COUNTS.place ≤ base
        → base + size ≤ EVENTS.place → SaysNothing x c }
    ensures journal { (x c : List ℕ) → KeepsEvents x c → SaysNothing x c }
{}

/// Where nothing has changed that tells of events, what is shown stays.
pub fn what_is_shown_stays()
    ensures { (number : Card → List ℕ) (sure : Event → Bool) (x c : List ℕ) → SaysNothing x c
        → ShowsEvents number sure x none c }
{}

/// One second more of a run brings these events of each type, and no others.
pub fn a_second_brings_its_events()
    ensures { (kind limit : ℕ) (sessions : ℕ → Visit → ℕ) (t : Tearing) (log : RunLog) (done : List TraceSecond)
        (s : TraceSecond) →
        events_of kind limit sessions t log (done ++ s ∷ []) ≡ events_of kind limit sessions t log done
        ++ second_events kind limit sessions t log (seen_spans (seen_of log done)) (seen_next log done s) }
{}

/// All that a second notes is, type by type, what it brings.
pub fn what_a_second_notes_is_what_it_brings()
    ensures { (limit : ℕ) (sessions : ℕ → Visit → ℕ) (t : Tearing) (log : RunLog) (spans : List (List Seen)) (x : Seen)
        (kind : ℕ) → Contains all_kinds kind →
        by_kind (second_notes limit sessions t log spans x) kind ≡ second_events kind limit sessions t log spans x }
{}

/// Each event that a second brings is noted in it: so none of a second in which a call on the unit failed is sure.
pub fn each_event_is_noted_in_its_second()
    ensures noted { (kind limit : ℕ) (sessions : ℕ → Visit → ℕ) (t : Tearing) (log : RunLog) (spans : List (List Seen))
        (x : Seen) → IsBehind spans x →
        AllByRecursion (λ (e : Event). noting_second e ≡ number_of x)
        (second_events kind limit sessions t log spans x) }
    ensures unsure { (later : RunLog) (u : ℕ) (events : List Event) → has_failed_in later u ≡ true
        → AllByRecursion (λ (e : Event). noting_second e ≡ u) events → are_sure later events ≡ true → events ≡ [] }
    ensures behind { (log : RunLog) (from : ℕ) (done : List TraceSecond) (s : TraceSecond) → AreInOrder from done
        → s.number ≡ from + length done → IsBehind (seen_spans (seen_of log done)) (seen_next log done s) }
{}

/// Lines of the log that come later tell of no other event of the seconds before that is sure: an interruption of which
/// it was not known what was kept was to be noted in a second in which a call failed.
pub fn later_lines_change_no_event()
    ensures seen { (log later : RunLog) (done : List TraceSecond) → All (λ s. SameAt log later s.number) done
        → seen_of later done ≡ seen_of log done }
    ensures events { (log later : RunLog) (unfound : ℕ) (supply : UnitPower) (done : List TraceSecond)
        → HasGaps log unfound supply done → TellsMore log (take unfound log.breaks) later done →
        (kind limit : ℕ) (sessions : ℕ → Visit → ℕ) (t : Tearing)
        → HasUnsureMore (is_sure_by later) (events_of kind limit sessions t log done)
        (events_of kind limit sessions t later done) }
{}

/// What is chosen of one second changes no event of the others, and fits the run where it fits that second.
pub fn a_choice_of_one_second_changes_no_other()
    ensures events { (n : ℕ) (here t : Tearing) (own sessions : ℕ → Visit → ℕ) (kind limit : ℕ) (log : RunLog)
        (done : List TraceSecond) → AreEarlier n (seen_of log done) →
        events_of kind limit (told_at n own sessions) (chosen n here t) log done
        ≡ events_of kind limit sessions t log done }
    ensures fits { (n : ℕ) (here t : Tearing) (xs : List Seen) (x : Seen) → AreTorn t xs → AreEarlier n xs
        → number_of x ≡ n → IsTornIn here x → AreTorn (chosen n here t) (xs ++ x ∷ []) }
{}

/// What is known of the cuts between the power spans, over each kind of step: a run begins, what was kept is found, a
/// second with power goes on or breaks off, a power-on fails, a second is without power.
pub fn it_is_known_what_was_kept()
    ensures begins { HasGaps (record { breaks = []; refused = []; finds = [] }) 0 Due [] }
    ensures found { (log later : RunLog) (unfound k : ℕ) (supply : UnitPower) (done : List TraceSecond) → IsDark supply
        → HasGaps log unfound supply done → All (λ s. SameAt log later s.number) done →
        later.breaks ≡ found_from unfound k log.breaks → HasGaps later (length later.breaks) (Lit []) done }
    ensures goes_on { (log later : RunLog) (unfound : ℕ) (done : List TraceSecond) (s : TraceSecond)
        → All (λ s. SameAt log later s.number) done → (rest : List Break) → later.breaks ≡ log.breaks ++ rest →
        take unfound later.breaks ≡ take unfound log.breaks
        → (supply now : UnitPower) (span more : List ToldSecond) (t : ToldSecond) → supply ≡ Lit span
        → now ≡ Lit (more ++ t ∷ []) → HasGaps log unfound supply done →
        (seen_next later done s).told.lit ≡ true → (seen_next later done s).told.starts ≡ begins_with span
        → HasGaps later unfound now (done ++ s ∷ []) }
    ensures breaks_off { (log later : RunLog) (unfound : ℕ) (done : List TraceSecond) (s : TraceSecond)
        → All (λ s. SameAt log later s.number) done → (rest : List Break) → later.breaks ≡ log.breaks ++ rest →
        take unfound later.breaks ≡ take unfound log.breaks → (supply : UnitPower) (span : List ToldSecond)
        → supply ≡ Lit span → HasGaps log unfound supply done → (seen_next later done s).told.lit ≡ true →
        (seen_next later done s).told.starts ≡ begins_with span
        → IsUntold later (take unfound log.breaks) (seen_next later done s ∷ [])
        → HasGaps later unfound Lost (done ++ s ∷ []) }
    ensures fails { (log later : RunLog) (unfound : ℕ) (done : List TraceSecond) (s : TraceSecond)
        → All (λ s. SameAt log later s.number) done → (rest : List Break) → later.breaks ≡ log.breaks ++ rest →
        take unfound later.breaks ≡ take unfound log.breaks → (supply : UnitPower) → IsDark supply
        → HasGaps log unfound supply done → (seen_next later done s).told.lit ≡ true
        → (seen_next later done s).told.starts ≡ true →
        has_failed_in later (number_of (seen_next later done s)) ≡ true
        → IsUntold later (take unfound log.breaks) (seen_next later done s ∷ [])
        → HasGaps later unfound Lost (done ++ s ∷ []) }
    ensures dark { (log later : RunLog) (unfound : ℕ) (done : List TraceSecond) (s : TraceSecond)
        → All (λ s. SameAt log later s.number) done → (rest : List Break) → later.breaks ≡ log.breaks ++ rest →
        take unfound later.breaks ≡ take unfound log.breaks → (supply now : UnitPower) → IsDark supply → IsDark now
        → HasGaps log unfound supply done → (seen_next later done s).told.lit ≡ false
        → HasGaps later unfound now (done ++ s ∷ []) }
{}

/// Seconds in which no card was judged or torn out, and none entered: with power they bring what they end, and without
/// it nothing; and a choice of which nothing was chosen from them on fits them.
pub fn quiet_seconds_bring_what_they_end()
    ensures quiet { (kind limit : ℕ) (sessions : ℕ → Visit → ℕ) (t : Tearing) (log : RunLog)
        (done more : List TraceSecond) (xs : List Seen) → seen_of log (done ++ more) ≡ seen_of log done ++ xs
        → AllByRecursion IsQuiet xs →
        events_of kind limit sessions t log (done ++ more) ≡ events_of kind limit sessions t log done
        ++ quiet_events kind limit (last_of (seen_spans (seen_of log done))) xs }
    ensures dark { (kind limit : ℕ) (sessions : ℕ → Visit → ℕ) (t : Tearing) (log : RunLog)
        (done more : List TraceSecond) (xs : List Seen) → seen_of log (done ++ more) ≡ seen_of log done ++ xs
        → AllByRecursion IsDarkSeen xs →
        events_of kind limit sessions t log (done ++ more) ≡ events_of kind limit sessions t log done }
    ensures parts { (limit : ℕ) (span xs ys : List Seen)
        → (bares_by span (xs ++ ys) ≡ bares_by span xs ++ bares_by (span ++ xs) ys)
        × (overs_by limit span (xs ++ ys) ≡ overs_by limit span xs ++ overs_by limit (span ++ xs) ys) }
    ensures fits { (t : Tearing) (n : ℕ) (seen xs : List Seen) → IsPlainFrom n t → AreTorn t seen
        → AllByRecursion (λ (x : Seen). n ≤ number_of x) xs → AllByRecursion IsIdle xs → AreTorn t (seen ++ xs) }
    ensures plain { (n : ℕ) (here t : Tearing) → IsPlainFrom n t → IsPlainFrom (suc n) (chosen n here t) }
{}

/// Where the last second with power turns out to be a cut's, behind all of its actions, its events are the same, but
/// interruptions that are not sure.
pub fn a_cut_behind_a_second_leaves_its_events()
    ensures events { (log later : RunLog) (front : List TraceSecond) (s : TraceSecond)
        → All (λ s. SameAt log later s.number) front → IsCutOff log later s → has_power (went log front).before s ≡ true
        → (unfound : ℕ) (supply : UnitPower) →
        HasGaps log unfound supply (front ++ s ∷ []) → StayFailed log later
        → ((u : ℕ) → tells_cut u (take unfound log.breaks) ≡ true → kept_after later u ≡ kept_after log u) →
        (kind limit : ℕ) (sessions : ℕ → Visit → ℕ) (t : Tearing)
        → HasUnsureMore (is_sure_by later) (events_of kind limit sessions t log (front ++ s ∷ []))
        (events_of kind limit sessions t later (front ++ s ∷ [])) }
    ensures fits { (log later : RunLog) (front : List TraceSecond) (s : TraceSecond)
        → All (λ s. SameAt log later s.number) front → IsCutOff log later s → has_power (went log front).before s ≡ true
        →
        (t : Tearing) → AreTorn t (seen_of log (front ++ s ∷ [])) → AreTorn t (seen_of later (front ++ s ∷ [])) }
    ensures gaps { (log later : RunLog) (front : List TraceSecond) (s : TraceSecond)
        → All (λ s. SameAt log later s.number) front → IsCutOff log later s → has_power (went log front).before s ≡ true
        → (unfound : ℕ) (supply : UnitPower) (rest : List Break) →
        later.breaks ≡ log.breaks ++ rest → take unfound later.breaks ≡ take unfound log.breaks
        → HasGaps log unfound supply (front ++ s ∷ []) → (seen_next log front s).told.lit ≡ true →
        IsUntold later (take unfound log.breaks) (seen_next log front s ∷ [])
        → HasGaps later unfound Lost (front ++ s ∷ []) }
{}
