//! What is watched of the seconds of a span are its events: laws.
ghost use Rattle.std.specs.Prelude.{◌≡◌, ℕ, List, [], ◌∷◌, ◌++◌, length, map, flat_map};
ghost use Rattle.std.specs.List.{AllByRecursion, filter_map};
ghost use Rattle.trace_model.specs.declared.Card.{Card};
ghost use Rattle.tacho_types.specs.declared.card_number.FullCardNumber.{FullCardNumber};
ghost use Rattle.event_model.specs.Runs.{ended_runs};
ghost use Rattle.event_model.specs.Spans.{is_above};
ghost use Rattle.trace_model.specs.Trace.{TraceSecond, driven};
ghost use Rattle.log_model.specs.Log.{RunLog};
ghost use Rattle.log_model.specs.Slots.{Slots};
ghost use Rattle.log_model.specs.Course.{went};
ghost use Rattle.event_model.specs.Events.{Event, Seen, crew_of, seen_of, seen_spans, is_bare, bare_event, bare_events};
ghost use Rattle.event_model.specs.Events.{speed_second, over_event, over_events};
ghost use Rattle.unit_model.specs.declared.layout.TheConstants.{IMAGE_SIZE};
ghost use Rattle.run_events.specs.Shown.{by_kind, none_sure, all_sure, ShowsEvents, AreNumbers};
ghost use Rattle.run_events.specs.Seconds.{bares_by, overs_by, IsQuiet, seen_next};
ghost use Rattle.run_crew.specs.declared.cards.Crew.{Crew};
ghost use Rattle.run_events.specs.declared.watch.Ended.{Ended};
ghost use Rattle.run_events.specs.declared.watch.Watch.{Watch};
ghost use Rattle.run_events.specs.Watching.{WatchesSpan, seconds_with, bares_with, overs_with};
ghost use Rattle.run_events.specs.Noting.{IsFed, AreNoted, AreBeingNoted};
ghost use Rattle.run_events.specs.Watched.{watched, named, number_bytes, ArePairs, IsBareOf, IsFastOf};
ghost use Rattle.run_events.specs.Turned.{AreEnded, AreLow};
ghost use Rattle.run_events.specs.Fed.{IsSilentFrom, going_with, still_seconds};

/// What is watched of a span's seconds, with the numbers of the cards that are accepted in them, is the driving without
/// a card that has ended in it, one for one.
pub fn what_is_watched_are_the_bare_events()
    ensures { (number : Card → FullCardNumber) (span : List Seen)
        → ArePairs (IsBareOf number) (filter_map bare_event (ended_runs is_bare span))
        (bares_with (map (watched number) span)) }
{}

/// And so are the over speedings.
pub fn what_is_watched_are_the_over_speedings()
    ensures { (number : Card → FullCardNumber) (limit : ℕ) (span : List Seen)
        → ArePairs (IsFastOf number) (filter_map over_event (ended_runs (λ x. is_above limit (speed_second x)) span))
        (overs_with limit (map (watched number) span)) }
{}

/// So, over the power spans of a run, are its driving without a card and its over speedings, in their order.
pub fn what_is_watched_are_the_events_of_a_run()
    ensures bares { (number : Card → FullCardNumber) (log : RunLog) (ss : List TraceSecond)
        → ArePairs (IsBareOf number) (bare_events log ss)
        (flat_map (λ span. bares_with (map (watched number) span)) (seen_spans (seen_of log ss))) }
    ensures overs { (number : Card → FullCardNumber) (limit : ℕ) (log : RunLog) (ss : List TraceSecond)
        → ArePairs (IsFastOf number) (over_events limit log ss)
        (flat_map (λ span. overs_with limit (map (watched number) span)) (seen_spans (seen_of log ss))) }
{}

/// What a turn of seconds with the same cards ends, behind the seconds of its span, is what these seconds bring; and
/// what is watched then stands for all of them.
pub fn what_a_turn_ends_is_what_it_brings()
    ensures ended { (number : Card → FullCardNumber) (w v : Watch) (span new : List Seen) (first n speed : ℕ)
        (crew : Crew) (ended : Ended) → IsFed w v first n speed crew ended → WatchesSpan w (map (watched number) span) →
        map (watched number) new ≡ seconds_with first n speed crew → AreEnded number w.over.limit span new ended }
    ensures stands { (number : Card → FullCardNumber) (w v : Watch) (span new : List Seen) (first n speed : ℕ)
        (crew : Crew) (ended : Ended) → IsFed w v first n speed crew ended → WatchesSpan w (map (watched number) span) →
        map (watched number) new ≡ seconds_with first n speed crew
        → WatchesSpan v (map (watched number) (span ++ new)) }
{}

/// Once that was noted, it is shown more: driving without a card and then the over speeding. Where a stop came at a
/// moment of that, nothing has come of one of them, or it was noted, or its place is empty.
pub fn what_a_turn_notes_is_shown()
    ensures noted { (number : Card → FullCardNumber) → AreNumbers (number_bytes number)
        → (limit : ℕ) (span new : List Seen) (ended : Ended) → AreEnded number limit span new ended →
        AreLow span → AreLow new → (x c : List ℕ) → length x ≡ IMAGE_SIZE → AreNoted ended x c
        → ShowsEvents (number_bytes number) all_sure x (by_kind (bares_by span new ++ overs_by limit span new)) c }
    ensures moment { (number : Card → FullCardNumber) → AreNumbers (number_bytes number)
        → (limit : ℕ) (span new : List Seen) (ended : Ended) → AreEnded number limit span new ended →
        AreLow span → AreLow new → (x c : List ℕ) → length x ≡ IMAGE_SIZE → AreBeingNoted ended x c
        → ShowsEvents (number_bytes number) none_sure x (by_kind (bares_by span new ++ overs_by limit span new)) c }
{}

/// A second is fed with the cards that are accepted in it behind its actions; and seconds in which nothing happens,
/// with those of the slots before them.
pub fn seconds_are_fed_with_their_cards()
    ensures one { (number : Card → FullCardNumber) (log : RunLog) (done : List TraceSecond) (s : TraceSecond) →
        map (watched number) (seen_next log done s ∷ [])
        ≡ seconds_with s.number 1 s.speed (named number (crew_of (seen_next log done s).itself)) }
    ensures seen { (log : RunLog) (next : ℕ) → IsSilentFrom log next
        → (slots : Slots) (done : List TraceSecond) (n speed : ℕ) → (went log done).before ≡ going_with slots →
        seen_of log (done ++ driven n next speed []) ≡ seen_of log done ++ still_seconds n next speed slots }
    ensures quiet { (n next speed : ℕ) (slots : Slots) → AllByRecursion IsQuiet (still_seconds n next speed slots) }
    ensures fed { (number : Card → FullCardNumber) (n next speed : ℕ) (slots : Slots)
        → map (watched number) (still_seconds n next speed slots)
        ≡ seconds_with next n speed (named number (crew_of slots)) }
{}
