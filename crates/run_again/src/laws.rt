//! A run begins with what another has left: laws.
ghost use Rattle.std.specs.Prelude.{List};
ghost use Rattle.log_model.specs.declared.lines.Mark.{Mark};
ghost use Rattle.safety_model.specs.Recording.{Recording};
ghost use Rattle.safety_model.specs.Safe.{IsSafe, MayBegin};
ghost use Rattle.run_again.specs.Left.{BeginsWithLeft, BeginsWithBytes, IsLaterRun, HasTwoNumbers};

use tach_media::Medium;

/// Whichever images a stop might have left of unit and cards since a run began, by the crash-safety theorem, each at a
/// moment of its own: a run may begin with them, in any minute later than that unit's last-kept one, and each of them
/// is of bytes. The devices are given as the run began, and as they are now.
pub fn what_a_run_has_left_begins_a_run<U: Medium, C: Medium>(
    unit_then: &U,
    card_a_then: &C,
    card_b_then: &C,
    unit: &U,
    card_a: &C,
    card_b: &C,
)
    ensures begins { (r next : Recording) (marks : List Mark) →
        IsSafe r marks (record {
          unit = U.state unit_then.now;
          card_a = C.state card_a_then.now;
          card_b = C.state card_b_then.now;
        })
        (record { unit = U.state unit.now; card_a = C.state card_a.now; card_b = C.state card_b.now }) →
        HasTwoNumbers r →
        BeginsWithLeft (record {
          unit = U.state unit_then.now;
          card_a = C.state card_a_then.now;
          card_b = C.state card_b_then.now;
        })
        (record { unit = U.state unit.now; card_a = C.state card_a.now; card_b = C.state card_b.now }) next →
        IsLaterRun next → MayBegin next }
    ensures bytes { (next : Recording) →
        BeginsWithLeft (record {
          unit = U.state unit_then.now;
          card_a = C.state card_a_then.now;
          card_b = C.state card_b_then.now;
        })
        (record { unit = U.state unit.now; card_a = C.state card_a.now; card_b = C.state card_b.now }) next →
        BeginsWithBytes next }
{
    unit.holds_bytes();
    card_a.holds_bytes();
    card_b.holds_bytes();
}
