//! What holds of messages and of unit files: laws, which are functions without a body.
ghost use Rattle.std.specs.Prelude.{◌≡◌, ℕ, ◌+◌, false, option_to_list, List, ◌∷◌, ◌++◌, flat_map};
ghost use Rattle.std.specs.List.{concat};
ghost use Rattle.link_model.specs.declared.services.TheConstants.{MESSAGE};
ghost use Rattle.link_model.specs.Answers.{cuts, has_piece};
ghost use Rattle.unit_model.specs.Image.{unit_minutes};
ghost use Rattle.message_model.specs.Messages.{Message, IsMessage, number_of, content_of, message_bytes};
ghost use Rattle.message_model.specs.Sending.{sent_days, Follow, requests_of, message_of, messages_of};
ghost use Rattle.message_model.specs.Showing.{minutes_in};

/// The unit file of an image shows the image's minutes.
pub fn a_file_shows_the_minutes()
    ensures { (x : List ℕ) → minutes_in (messages_of x) ≡ unit_minutes x }
{}

/// The messages of an image are those that answer the requests of a download, where its days follow one another.
pub fn a_file_answers_the_requests()
    ensures { (x : List ℕ) → Follow 0 (sent_days x) →
        messages_of x ≡ flat_map (λ r. option_to_list (message_of x r)) (requests_of x) }
{}

/// 76, the number, and the pieces up to one that none follows are the message.
pub fn pieces_are_the_message()
    ensures { (m : Message) (last : ℕ) → has_piece (content_of m) (last + 1) ≡ false →
        MESSAGE ∷ number_of m ∷ concat (cuts (content_of m) last) ≡ message_bytes m }
{}

/// The bytes of a message of the grammar, with whatever follows them, tell it in one way.
pub fn a_message_is_read_in_one_way()
    ensures { (m n : Message) (rest more : List ℕ) → IsMessage m → IsMessage n →
        message_bytes m ++ rest ≡ message_bytes n ++ more → (m ≡ n) × (rest ≡ more) }
{}
