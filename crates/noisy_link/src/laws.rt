//! What holds of a noisy link: laws, which are functions without a body.
ghost use Rattle.std.specs.Prelude.{◌≡◌, ◌<◌, ◌≤◌, ◌^◌, ℕ, List, Option, Some, IfSome, length, map, take, slice_get};
ghost use Rattle.std.specs.Io.KnownBytes.{Appends};
ghost use Rattle.tach_media.specs.Streams.{AppendsFront};
ghost use Rattle.unit_model.specs.Decoding.{Decodes};
ghost use Rattle.card_layout.specs.Fields.{joined, IsBytes};
ghost use Rattle.link_model.specs.Answers.{LinkState, Idle, answered};
ghost use Rattle.link_model.specs.Frames.{Right};
ghost use Rattle.message_model.specs.Messages.{message_bytes};
ghost use Rattle.message_model.specs.Sending.{content_sent, messages_of, unit_file};
ghost use Rattle.link_session.specs.Told.{SessionView, fresh};
ghost use Rattle.link_loader.specs.declared.stage.Stage.TheVariants.{Finished};
ghost use Rattle.link_loader.specs.Loading.{Loading, Load, begun, Takes, IsRefused};
ghost use Rattle.link_loader.specs.declared.fault.LoadFault.{LoadFault};
ghost use Rattle.unit_download.specs.Ending.{IsOfFrame};
ghost use Rattle.link_loader.specs.Talking.{IsUnitImage};
ghost use Rattle.link_model.specs.declared.lengths.TheConstants.{FRAME_MOST};
ghost use Rattle.noisy_model.specs.declared.event.Event.{Event as Happening};
ghost use Rattle.noisy_model.specs.declared.packet.Packet.{Packet as Sent};
ghost use Rattle.noisy_model.specs.Ends.{Taken, New, arrival_by, brought};
ghost use Rattle.noisy_model.specs.Packets.{packet_bytes, packet_in};
ghost use Rattle.noisy_model.specs.Worlds.{World, Passes, IsTalk, Answered, distinct_requests};
ghost use Rattle.noisy_link.specs.Sides.{Sized, asked, download_sides, fresh_download, puts_of, messages_out};
ghost use Rattle.noisy_link.specs.Sides.{state_after};

/// Whatever a link loses, repeats and delays, in a download over it both ends stand where a talk over a link that keeps
/// all stands: the answers that were taken are those of that talk, and the unit's end is there, or has answered the
/// next request.
pub fn a_noisy_link_leads_where_a_talk_does()
    ensures { (image : Option (List ℕ)) (load : Load) (events : List Happening) (w : World SessionView Load)
        (took : List Taken) →
        Passes (download_sides image) (fresh_download load) events w took
        → IsTalk (download_sides image) (fresh Idle) load w took }
{}

/// A unit's session stands where its table does behind the distinct requests that came with a number, each once, in
/// order.
pub fn each_request_is_answered_once()
    ensures { (x : List ℕ) (load : Load) (events : List Happening) (w : World SessionView Load) (took : List Taken) →
        Passes (download_sides (Some x)) (fresh_download load) events w took
        → w.unit.side.state ≡ state_after (content_sent x) Idle (distinct_requests w.sent w.unit.last) }
{}

/// Of a unit that tells its image, and keeps it: the messages that the answers finish are the first ones of its file,
/// whole; all of them where the download is finished; an answer that is wanted is taken, and never refused; and a new
/// request gets an answer.
pub fn a_noisy_download_is_the_units_file()
    ensures messages { (x : List ℕ) (load : Load) (events : List Happening) (w : World SessionView Load)
        (took : List Taken) → IsUnitImage x → load.loading ≡ begun →
        Passes (download_sides (Some x)) (fresh_download load) events w took
        → puts_of took ≡ joined (map message_bytes (take (messages_out took) (messages_of x))) }
    ensures file { (x : List ℕ) (load : Load) (events : List Happening) (w : World SessionView Load) (took : List Taken)
        → IsUnitImage x → load.loading ≡ begun →
        Passes (download_sides (Some x)) (fresh_download load) events w took → w.loader.side.loading.stage ≡ Finished
        → puts_of took ≡ unit_file x }
    ensures taken { (x : List ℕ) (load : Load) (events : List Happening) (w : World SessionView Load)
        (took : List Taken) → IsUnitImage x → load.loading ≡ begun →
        Passes (download_sides (Some x)) (fresh_download load) events w took → (place : ℕ) (p : Sent) (frame : List ℕ)
        → slice_get w.answers place ≡ Some p →
        brought asked w.loader p ≡ Some frame
        → (new : Loading) × (put : List ℕ) × Takes w.loader.side.loading frame new put }
    ensures never_refused { (x : List ℕ) (load : Load) (events : List Happening) (w : World SessionView Load)
        (took : List Taken) → IsUnitImage x → load.loading ≡ begun →
        Passes (download_sides (Some x)) (fresh_download load) events w took
        → (place : ℕ) (p : Sent) (frame : List ℕ) (fault : LoadFault) → slice_get w.answers place ≡ Some p →
        brought asked w.loader p ≡ Some frame → IsOfFrame fault → IsRefused w.loader.side.loading frame fault → ⊥ }
    ensures answered { (x : List ℕ) (load : Load) (events : List Happening) (w : World SessionView Load)
        (took : List Taken) → IsUnitImage x → load.loading ≡ begun →
        Passes (download_sides (Some x)) (fresh_download load) events w took → (place : ℕ) (p : Sent) (request : List ℕ)
        → slice_get w.sent place ≡ Some p →
        arrival_by w.unit.last p.number p.frame ≡ New request
        → (frame : List ℕ) × (next : LinkState)
        × (answered (content_sent x) w.unit.side.state (Right request) ≡ record { answer = Some frame; state = next }) }
{}

/// Of any unit, whether it tells its image or not, where the sink has what the answers put out, behind what it held:
/// where the download is finished the unit's image decodes, and of one of bytes the sink has the file; before that a
/// front of it.
pub fn a_noisy_download_goes_to_a_sink()
    ensures file { (image : Option (List ℕ)) (load : Load) (events : List Happening) (w : World SessionView Load)
        (took : List Taken) (held sunk : Option (List ℕ)) → Sized image → load.loading ≡ begun →
        Passes (download_sides image) (fresh_download load) events w took → Appends held sunk (puts_of took)
        → w.loader.side.loading.stage ≡ Finished →
        IfSome image (λ x. Decodes x × (IsBytes x → Appends held sunk (unit_file x))) }
    ensures front { (image : Option (List ℕ)) (load : Load) (events : List Happening) (w : World SessionView Load)
        (took : List Taken) (held sunk : Option (List ℕ)) → Sized image → load.loading ≡ begun →
        Passes (download_sides image) (fresh_download load) events w took → Appends held sunk (puts_of took)
        → IfSome image (λ x. IsBytes x → AppendsFront held sunk (unit_file x)) }
{}

/// What is written of a packet is read as that packet, and bytes that are read as a packet are those that are written
/// of it.
pub fn packets_are_read_as_written()
    ensures read { (p : Sent) → p.number < 2 ^ 64
        → IfSome p.frame (λ frame. (0 < length frame) × (length frame ≤ FRAME_MOST))
        → packet_in (packet_bytes p) ≡ Some p }
    ensures written { (bytes : List ℕ) (p : Sent) → IsBytes bytes → packet_in bytes ≡ Some p → packet_bytes p ≡ bytes }
{}
