//! What each image of a card holds of its string is carried of the card: a law.
ghost use Rattle.std.specs.Prelude.{ℕ, List};
ghost use Rattle.device_calls.specs.trace_model.declared.Card.{Card};
ghost use Rattle.device_calls.specs.hand_model.Written.{Hands};
ghost use Rattle.device_calls.specs.history_model.Book.{Book};
ghost use Rattle.device_calls.specs.device_rule.Rules.{Standing, Out};
ghost use Rattle.run_promise.specs.Found.{Found, found_of};
ghost use Rattle.run_promise.specs.Cards.{IsStrung};
ghost use Rattle.run_devices.specs.Strung.{EachIsStrung, CardHoldsString};

use tach_media::{Chip, Medium};

/// Where each image of a card holds its string, and each since the start keeps it, that is carried of the card: what is
/// owed to it may come next, since it is what the string lacks. And so is its string held where the card is not
/// accepted any more.
pub fn a_string_that_each_image_holds_is_strung<M: Medium, C: Chip>(unit: &M, card: &C)
    ensures strung { (f : Found) (hd : Hands) (c : Card) (b : Book) (z : Standing)
        → EachIsStrung f hd c b z (M.state unit.now) (C.state card.now)
        → IsStrung f hd c b z (M.state unit.now) (C.state card.now) }
    ensures out { (f : Found) (hd : Hands) (c : Card) (b : Book) (z : Standing) (u : List ℕ)
        → (M.state unit.now).may_leave u → EachIsStrung f hd c b z (M.state unit.now) (C.state card.now)
        → CardHoldsString (found_of f c) hd c b Out (C.state card.now) }
{}
