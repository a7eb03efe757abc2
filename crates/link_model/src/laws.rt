//! What holds of the definitions of this crate: laws, which are functions without a body.
ghost use Rattle.std.specs.Prelude.{◌≡◌, ◌+◌, false, ◌⊎◌, ◌<◌, ℕ, ◌++◌, ◌∷◌, List, [], length, Option};
ghost use Rattle.std.specs.List.{concat};
ghost use Rattle.link_model.specs.Frames.{Heard, Right, Shape, Stream, IsShape, spelled, body_of, heard_of, second};
ghost use Rattle.link_model.specs.Frames.{third};
ghost use Rattle.link_model.specs.Answers.{LinkState, Fits, answered, cuts, has_piece};
ghost use Rattle.link_model.specs.declared.request.Request.{Request};
ghost use Rattle.link_model.specs.declared.services.TheConstants.{SHORT_FORM};
ghost use Rattle.link_model.specs.Hearing.{heard_in, kept_after, heard_in_pieces};
ghost use Rattle.link_model.specs.Writing.{written_to, written_long, with_sum};

use crate::side::End;

/// A stream is read in one way alone: the frames that are heard, and what is left of it.
pub fn one_reading(end: End)
    ensures { (bytes : List ℕ) (seen others : List Heard) (rest more : List ℕ) → Stream end bytes seen rest
        → Stream end bytes others more → (seen ≡ others) × (rest ≡ more) }
{}

/// Hearing byte after byte gives the frames of the stream, and keeps what is left of it.
pub fn hears_the_frames(end: End)
    ensures { (bytes : List ℕ) → Stream end bytes (heard_in end [] bytes) (kept_after end [] bytes) }
{}

/// In whatever pieces a stream comes, the same is heard.
pub fn hears_any_pieces(end: End)
    ensures { (pieces : List (List ℕ)) → heard_in_pieces end [] pieces ≡ heard_in end [] (concat pieces) }
{}

/// What is written is heard, and nothing else.
pub fn hears_what_is_written(end: End)
    ensures { (body : List ℕ) → 0 < length body
        → (heard_in end [] (written_to end body) ≡ Right body ∷ []) × (kept_after end [] (written_to end body) ≡ []) }
{}

/// A frame that is heard with its right sum has one of two forms: with a length, or the short one.
pub fn writes_what_is_heard(end: End)
    ensures { (shape : Shape) (body : List ℕ) → IsShape end shape → heard_of end shape ≡ Right body
        → (spelled end shape ≡ written_long end (body_of shape))
        ⊎ (spelled end shape ≡ with_sum (SHORT_FORM ∷ second end ∷ third end ∷ body_of shape)) }
{}

/// Each answer of a unit fits into a frame.
pub fn answers_fit()
    ensures { (messages : Request → Option (List ℕ)) (state : LinkState) (heard : Heard)
        → Fits (answered messages state heard) }
{}

/// The pieces of a message up to one that none follows are the message.
pub fn pieces_join()
    ensures { (content : List ℕ) (last : ℕ) → has_piece content (last + 1) ≡ false
        → concat (cuts content last) ≡ content }
{}
