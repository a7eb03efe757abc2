//! Laws of the trace of a demonstration; they have no body.
ghost use Rattle.std.specs.Prelude.{◌≡◌, ◌≤◌, ◌+◌, ◌*◌, ℕ};
ghost use Rattle.trace_model.specs.Trace.{total_seconds};
ghost use Rattle.trace_text.specs.Demo.{parts_of, day_of, demo_items};
ghost use Rattle.activity_codec.specs.declared.day.TheConstants.{DAY_SECONDS};
ghost use Rattle.trace_text.specs.declared.drawn_trace.TheConstants.{PARTS, DAYS};

/// The parts of a day leave four hours of it at least, so that each day has its seconds, and the trace those of its
/// days.
pub fn a_demonstration_has_its_seconds()
    ensures parts { (x : ℕ) → total_seconds (parts_of PARTS x) + 14400 ≤ DAY_SECONDS }
    ensures day { (x : ℕ) → total_seconds (day_of x) ≡ DAY_SECONDS }
    ensures all { (x : ℕ) → total_seconds (demo_items x) ≡ DAY_SECONDS * DAYS }
{}
