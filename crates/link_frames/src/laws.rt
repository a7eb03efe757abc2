//! What holds of a run on the link: laws, which are functions without a body.
ghost use Rattle.std.specs.Prelude.{◌≡◌, ℕ, ◌≤◌, ◌-◌, ◌++◌, min, length, List, Option, Some};
ghost use Rattle.std.specs.List.{concat};
ghost use Rattle.link_model.specs.declared.request.Request.{Request};
ghost use Rattle.link_model.specs.declared.lengths.TheConstants.{WHOLE_MOST};
ghost use Rattle.link_model.specs.Frames.{Heard};
ghost use Rattle.link_model.specs.Answers.{LinkState, Idle, run_from, frames_out};
ghost use Rattle.link_frames.specs.Sending.{IsPart};
ghost use Rattle.link_frames.specs.Running.{Line, state_after, fresh_line, line_after, answers_from};

/// A run goes on where it stands: the answers to more frames follow those to the frames before.
pub fn a_run_goes_on()
    ensures { (messages : Request → Option (List ℕ)) (state : LinkState) (seen more : List Heard) →
        run_from messages state (seen ++ more) ≡ run_from messages state seen
        ++ run_from messages (state_after messages state seen) more }
{}

/// A line goes on where it stands: the answers to more bytes follow those to the bytes before.
pub fn a_line_goes_on()
    ensures answers { (messages : Request → Option (List ℕ)) (line : Line) (bytes more : List ℕ) →
        answers_from messages line (bytes ++ more) ≡ answers_from messages line bytes
        ++ answers_from messages (line_after messages line bytes) more }
    ensures stands { (messages : Request → Option (List ℕ)) (line : Line) (bytes more : List ℕ) →
        line_after messages line (bytes ++ more) ≡ line_after messages (line_after messages line bytes) more }
{}

/// The answers of a fresh line are the frames that go out by the table, one after the other.
pub fn a_fresh_line_answers_by_the_table()
    ensures { (messages : Request → Option (List ℕ)) (bytes : List ℕ)
        → answers_from messages fresh_line bytes ≡ concat (frames_out messages Idle bytes) }
{}

/// Of whatever length, and whatever bytes are read, they are the part of some message.
pub fn a_part_is_of_some_message()
    ensures { (from len : ℕ) (bytes : List ℕ) → 2 ≤ from → 2 ≤ len → length bytes ≡ min WHOLE_MOST (len - from)
        → (content : Option (List ℕ)) × IsPart content from (Some len) bytes }
{}
