//! Laws on the definitions of specs/: they run nothing, and their contracts say what is proved of them.
ghost use Rattle.std.specs.Prelude.{◌≡◌, ◌+◌, ◌++◌, ℕ, suc, Bool};
ghost use Rattle.event_model.specs.Spans.{at_speed, all_bare};

/// n seconds and the next are n + 1 seconds: so `feed_run` of n + 1 stands for, and answers, what `feed_run` of n and
/// then `feed` do.
pub fn a_run_is_its_seconds()
    ensures speeds { (second n speed : ℕ)
        → at_speed second (suc n) speed ≡ at_speed second n speed ++ at_speed (second + n) 1 speed }
    ensures bares { (second n : ℕ) (bare : Bool)
        → all_bare second (suc n) bare ≡ all_bare second n bare ++ all_bare (second + n) 1 bare }
{}
