//! A card keeps its entry of a minute that the unit has.
ghost use Rattle.std.specs.Prelude.{◌≡◌, ◌≤◌, ◌+◌, ℕ, None, is_err};
ghost use Rattle.trace_model.specs.declared.Card.{Card};
ghost use Rattle.card_commands.specs.Ports.{IsPort};
ghost use Rattle.card_session.specs.Sessions.{MayKeep};
ghost use Rattle.device_calls.specs.Minute.{Known, Carry, MayKeepByRules};
ghost use Rattle.device_calls.specs.OnCard.{IsOnItsCard, hands_for, keep_writes};
ghost use Rattle.device_calls.specs.Calls.{CardStandsKept, MayKeepEntry};
ghost use Rattle.device_calls.specs.Calls.{CardIsWritten, KeepsEntry};

use card_by_hand::keep_with_hands;
use card_commands::Port;
use card_layout::Application;
use card_session::{CardSession, Kept};
use hand_model::Held;
use tach_media::{Chip, Failed, Medium};

/// A card behind a port keeps its entry.
fn keep_by<M: Medium, C: Medium>(
    unit: &M,
    card: &mut C,
    session: &mut CardSession,
    held: &mut Held,
    kept: &Kept,
) -> Result<(), Failed>
    requires card { MayKeep session.old.application (C.state card.old) }
    requires may { MayKeepEntry session.old kept.now held.old }
    ensures keeps { KeepsEntry result kept.now session.old session.new held.old held.new (C.state card.old)
        (C.state card.new) }
    ensures rule { (k : Known) (which : Card) (time : ℕ) (w : Carry)
        → MayKeepByRules k which time w session.old held.old kept.now.entry (M.state unit.now) (C.state card.old)
        → IsOnItsCard k.both which k.book time kept.now.entry (is_err result) (M.state unit.now) (C.state card.new) }
    ensures card { CardIsWritten result (C.state card.old) (C.state card.new) }
    ensures most { (C.state card.new).clock
        ≤ (C.state card.old).clock + keep_writes (hands_for held.old kept.now.entry.minute) }
{
    keep_with_hands(session, held, card, kept)
}

/// The card that sits in a slot, accepted, keeps its entry of a minute that the unit has. No line here reads the unit:
/// the rules between it and the card are told of it (`rule`).
///
/// # Errors
///
/// `Failed` where the card failed: then what of the minute it lacks is owed to it. The caller tears it out, and drops
/// its session and the entries by hand, of which nothing is said then.
pub fn keep_on_card<M: Medium, C: Chip>(
    unit: &M,
    card: &mut C,
    app: Application,
    session: &mut CardSession,
    held: &mut Held,
    kept: &Kept,
) -> Result<(), Failed>
    requires port { IsPort app None (C.card card.old) (C.state card.old) }
    requires sizes { session.old.application ≡ app }
    requires may { MayKeepEntry session.old kept.now held.old }
    ensures keeps { KeepsEntry result kept.now session.old session.new held.old held.new (C.state card.old)
        (C.state card.new) }
    ensures rule { (k : Known) (which : Card) (time : ℕ) (w : Carry)
        → MayKeepByRules k which time w session.old held.old kept.now.entry (M.state unit.now) (C.state card.old)
        → IsOnItsCard k.both which k.book time kept.now.entry (is_err result) (M.state unit.now) (C.state card.new) }
    ensures card { CardStandsKept result app (C.state card.old) (C.state card.new) (C.card card.new) }
    ensures most { (C.state card.new).clock
        ≤ (C.state card.old).clock + keep_writes (hands_for held.old kept.now.entry.minute) }
{
    let mut port = Port::resume(&mut *card, app);
    keep_by(unit, &mut port, session, held, kept)
}
