//! Laws of the match, and of the minutes that a unit file shows; they have no body.
ghost use Rattle.std.specs.Prelude.{◌≡◌, ℕ, List};
ghost use Rattle.activity_codec.specs.declared.entries.Entry.{Entry};
ghost use Rattle.message_model.specs.Messages.{Message};
ghost use Rattle.message_model.specs.Showing.{minutes_in};
ghost use Rattle.card_match.specs.Matching.{Against, IsMatch, minute_at};
ghost use Rattle.card_match.specs.Differences.{AreDifferences};
ghost use Rattle.card_match.specs.Files.{MatchesFiles, ComparesFiles, MatchesSource, ComparesSource};
ghost use Rattle.card_match.specs.declared.verdict.Matched.{Matched as Answer};
ghost use Rattle.card_match.specs.declared.verdict.Differences.{Differences as AllThatDiffer};
ghost use Rattle.file_calls.specs.FirstMessage.{minute_by_message, has_message, has_minute};

/// A match has one answer: of entries against minutes, of the bytes of two files, and of those of one source that has
/// both.
pub fn a_match_has_one_answer()
    ensures entries { (a : Against) (entries : List Entry) (one other : Answer) → IsMatch a entries one
        → IsMatch a entries other → one ≡ other }
    ensures files { (unit card : List ℕ) (one other : Answer) → MatchesFiles unit card one
        → MatchesFiles unit card other → one ≡ other }
    ensures source { (bytes : List ℕ) (one other : Answer) → MatchesSource bytes one → MatchesSource bytes other
        → one ≡ other }
{}

/// So has a comparison: the same runs and the same counts.
pub fn a_comparison_has_one_answer()
    ensures entries { (a : Against) (entries : List Entry) (one other : AllThatDiffer) → AreDifferences a entries one
        → AreDifferences a entries other → (one.runs.items ≡ other.runs.items) × (one.counts ≡ other.counts) }
    ensures files { (unit card : List ℕ) (one other : AllThatDiffer) → ComparesFiles unit card one
        → ComparesFiles unit card other → (one.runs.items ≡ other.runs.items) × (one.counts ≡ other.counts) }
    ensures source { (bytes : List ℕ) (one other : AllThatDiffer) → ComparesSource bytes one
        → ComparesSource bytes other → (one.runs.items ≡ other.runs.items) × (one.counts ≡ other.counts) }
{}

/// What counts of a minute that several messages of its day tell is the first of these. And a unit file shows a minute
/// of exactly the days of which it has a message.
pub fn the_first_message_of_a_day_counts()
    ensures first { (messages : List Message) (minute : ℕ)
        → minute_at (minutes_in messages) minute ≡ minute_by_message messages minute }
    ensures days { (messages : List Message) (day : ℕ) → has_minute messages day ≡ has_message messages day }
{}
