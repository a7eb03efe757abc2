//! A card is taken out in order.
ghost use Rattle.std.specs.Prelude.{◌≡◌, ◌≤◌, ◌+◌, ℕ, true, None, List, [], IfSome, is_some};
ghost use Rattle.activity_codec.specs.Activity.{activity_of};
ghost use Rattle.card_commands.specs.Ports.{IsPort};
ghost use Rattle.card_validity.specs.card_image.Own.{own_sizes};
ghost use Rattle.card_session.specs.Sessions.{IsSession};
ghost use Rattle.unit_rule.specs.log_model.declared.lines.Mark.{Mark};
ghost use Rattle.unit_rule.specs.history_model.Book.{Book};
ghost use Rattle.unit_rule.specs.device_rule.Rules.{In, Out};
ghost use Rattle.unit_rule.specs.Rule.{Started};
ghost use Rattle.unit_rule.specs.Marks.{UnitFollowsBook};
ghost use Rattle.device_calls.specs.Calls.{CardStandsKept, ClosesOnCard};
ghost use Rattle.device_calls.specs.Rule.{Both, CardHolds};

use activity_codec::Pick;
use card_commands::Port;
use card_layout::Application;
use card_session::CardSession;
use tach_media::{Chip, Failed, Medium};
use trace_model::Card;

/// Takes out an accepted card whose minutes are kept: its words are closed with what is selected then, and its session
/// ends.
///
/// No line here reads the unit, or which card it is: `rule` speaks of them.
///
/// # Errors
///
/// `Failed` where the card failed, which is a tear.
pub fn leave<M: Medium, C: Chip>(
    unit: &M,
    card: &mut C,
    app: Application,
    session: CardSession,
    which: Card,
    selected: Pick,
) -> Result<(), Failed>
    requires port { IsPort app None (C.card card.old) (C.state card.old) }
    requires sizes { session.application ≡ app }
    ensures card { CardStandsKept result app (C.state card.old) (C.state card.new) (C.card card.new) }
    ensures closes { ClosesOnCard result session (activity_of selected) (C.state card.old) (C.state card.new) }
    ensures rule { (r : Both) (s : Started) (due : ℕ) (b : Book) (marks : List Mark) (time newest : ℕ)
        → is_some (M.state unit.now).image ≡ true → UnitFollowsBook s due b marks (M.state unit.now) → b.maybe ≡ None
        → IfSome (C.state card.old).image (λ x. (own_sizes x ≡ app) × IsSession session x)
        → CardHolds r which b (In time newest) [] [] (M.state unit.now) (C.state card.old)
        → CardHolds r which b Out [] [] (M.state unit.now) (C.state card.new) }
    ensures most { (C.state card.new).clock ≤ (C.state card.old).clock + 8 }
{
    let mut port = Port::resume(&mut *card, app);
    session.close(&mut port, selected)
}
