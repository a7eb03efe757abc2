//! What holds of a download: laws, which are functions without a body.
ghost use Rattle.std.specs.Prelude.{◌≡◌, ◌≢◌, ◌≤◌, ℕ, ◌++◌, List, length};
ghost use Rattle.message_model.specs.Messages.{IsUnitFile};
ghost use Rattle.message_model.specs.Sending.{content_sent, messages_of, unit_file};
ghost use Rattle.unit_messages.specs.declared.joining.TheConstants.{LONGEST};
ghost use Rattle.link_loader.specs.declared.stage.Stage.TheVariants as stages;
ghost use Rattle.link_loader.specs.Loading.{Loading, Takes, with_piece};
ghost use Rattle.link_loader.specs.Talking.{Talk, fresh_talk, Exchanges, Talks, IsUnitImage, CanBeLoaded};

/// A frame is taken in one way: to one stage, and with one message put out or none.
pub fn a_frame_is_taken_in_one_way()
    ensures { (now a b : Loading) (frame p q : List ℕ) → Takes now frame a p → Takes now frame b q → (a ≡ b) × (p ≡ q) }
{}

/// The image of a unit, where it decodes, can be loaded, and its messages are a file of the grammar.
pub fn a_units_image_can_be_loaded()
    ensures can { (x : List ℕ) → IsUnitImage x → CanBeLoaded x }
    ensures file { (x : List ℕ) → IsUnitImage x → IsUnitFile (messages_of x) (unit_file x) }
{}

/// Against a unit that answers by the table, over the messages of its image, a download goes on until it is finished;
/// what is put out is the unit's file then, and a front of it before. It never joins more bytes than it makes room for.
pub fn a_finished_download_is_the_units_file()
    ensures file { (x : List ℕ) (frames : List (List ℕ)) (talk : Talk) → IsUnitImage x
        → Talks (content_sent x) frames fresh_talk talk →
        talk.loader.stage ≡ stages.Finished → talk.out ≡ unit_file x }
    ensures front { (x : List ℕ) (frames : List (List ℕ)) (talk : Talk) → IsUnitImage x
        → Talks (content_sent x) frames fresh_talk talk →
        (rest : List ℕ) × (talk.out ++ rest ≡ unit_file x) }
    ensures goes_on { (x : List ℕ) (frames : List (List ℕ)) (talk : Talk) → IsUnitImage x
        → Talks (content_sent x) frames fresh_talk talk →
        talk.loader.stage ≢ stages.Finished
        → (frame : List ℕ) × (new : Talk) × Exchanges (content_sent x) talk frame new }
    ensures room { (x : List ℕ) (frames : List (List ℕ)) (talk : Talk) (frame : List ℕ) (new : Talk) → IsUnitImage x
        → Talks (content_sent x) frames fresh_talk talk →
        Exchanges (content_sent x) talk frame new → length (with_piece talk.loader.bytes frame) ≤ LONGEST }
{}
