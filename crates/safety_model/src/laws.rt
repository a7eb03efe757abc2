//! What is found of a card that was valid at the start: laws.
ghost use Rattle.std.specs.Prelude.{◌≡◌, ℕ, ◌<◌, ◌≤◌, true};
ghost use Rattle.device_rule.specs.trace_model.declared.Card.{Card};
ghost use Rattle.device_rule.specs.log_model.declared.lines.Verdict.{Verdict};
ghost use Rattle.device_rule.specs.log_model.declared.lines.Verdict.TheVariants.{TimeOverlap};
ghost use Rattle.device_rule.specs.log_model.Log.{is_accepting};
ghost use Rattle.device_rule.specs.Own.{own_view, IsOwnValid};
ghost use Rattle.safety_model.specs.Recording.{Recording, card_image};
ghost use Rattle.safety_model.specs.Safe.{entered_by, IsVerdict};

use tach_media::Medium;

/// A card that was valid at the start, and stored a later time than a second, is found so in it, with that time.
pub fn a_later_card_is_turned_away<U: Medium, C: Medium>(unit: &U, card: &C)
    ensures { (r : Recording) (m n : ℕ) (c : Card) (second : ℕ) (v : Verdict) →
        IsVerdict r ((U.state unit.now).left_since m) ((C.state card.now).left_since n) c second v →
        IsOwnValid (card_image r c) → second < (own_view (card_image r c)).stored
        → v ≡ TimeOverlap (own_view (card_image r c)).stored second }
{}

/// A card that was valid at the start, stored no later time than a second, and enters for the first time in its minute,
/// is accepted.
pub fn a_card_in_time_is_accepted<U: Medium, C: Medium>(unit: &U, card: &C)
    ensures { (r : Recording) (m n : ℕ) (c : Card) (second : ℕ) (v : Verdict) →
        IsVerdict r ((U.state unit.now).left_since m) ((C.state card.now).left_since n) c second v →
        IsOwnValid (card_image r c) → (own_view (card_image r c)).stored ≤ second → entered_by r c second ≤ 1
        → is_accepting v ≡ true }
{}
