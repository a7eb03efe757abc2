//! The laws of a card's session; they have no body.
ghost use Rattle.std.specs.Prelude.{ℕ, ◌<◌, List, All};
ghost use Rattle.activity_codec.specs.declared.entries.Entry.{Entry};
ghost use Rattle.card_retention.specs.Shown.{AllUpTo};
ghost use Rattle.card_image.specs.Fields.{end_mark};
ghost use Rattle.card_image.specs.Own.{own_sizes};
ghost use Rattle.card_session.specs.Sessions.{Session};
ghost use Rattle.safety_laws.specs.Whole.{IsInsertable, brought_in, IsSitting, IsMoment, IsShown};
ghost use Rattle.safety_laws.specs.Again.{BringsAll, IsBrokenOff, IsBegunAgain, EndsWith};

/// Of whatever valid card: an image that a stop may leave in its insertion, in a keep or in its withdrawal is valid,
/// and shows the card's entries and those that were brought, up to its end mark, but for what the stated overwriting
/// took. Between two calls none of these is lacked. From each such image another session may begin.
pub fn a_session_is_whole()
    ensures moments { (image : List ℕ) → IsInsertable image → (brought : List Entry) (x : List ℕ)
        → IsMoment image brought x → IsShown image brought x }
    ensures between { (image : List ℕ) → IsInsertable image → (brought : List Entry) (s : Session) (x : List ℕ)
        → IsSitting image brought s x → IsShown image brought x × AllUpTo (end_mark (own_sizes image) x) brought }
    ensures again { (image : List ℕ) → IsInsertable image → (brought : List Entry) (x : List ℕ)
        → IsMoment image brought x → All (λ b. b < 256) x → IsInsertable x }
{}

/// Of whatever valid card: an insertion that a stop has broken off, whatever it has left, and that is begun again, ends
/// as it would have ended: the card shows its entries and all that were to be brought, but for what the stated
/// overwriting took.
pub fn a_stopped_insertion_ends_with_the_same_entries()
    ensures { (image : List ℕ) → IsInsertable image → (owed : List Entry) (left ended : List ℕ) → BringsAll image owed
        → IsBrokenOff image owed left → IsBegunAgain image owed left ended
        → EndsWith image (brought_in image owed) ended }
{}
