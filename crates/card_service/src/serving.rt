//! A card that answers the commands of a stream.
ghost use Rattle.std.specs.Prelude.{◌≡◌, ◌≤◌, ◌<◌, ◌++◌, [], ◌∷◌, ℕ, List, Option, true, length, OnOk, OnErr, IfErr};
ghost use Rattle.std.specs.Prelude.{is_err};
ghost use Rattle.std.specs.Io.KnownBytes.{Appends, IsAtEnd};
ghost use Rattle.card_layout.specs.Outcomes.{after_reset};
ghost use Rattle.tach_media.specs.Medium.{Rose, LeavesOnly, HasCause, Unchanged, revivable};
ghost use Rattle.tach_media.specs.Streams.{AppendsFront};
ghost use Rattle.link_session.specs.Asked.{AnswersInTime};
ghost use Rattle.card_service.specs.declared.packets.TheConstants.{ANSWER_MOST};
ghost use Rattle.card_service.specs.Packets.{packet, IsPart};
ghost use Rattle.card_service.specs.declared.serving.Asked.TheVariants.{Command};
ghost use Rattle.card_layout.specs.Outcomes.{outcome_of};
ghost use Rattle.card_service.specs.Answering.{Card, card_told, IsRevived, asked_by, asked_by_word, PartlyBy, LeavesAt};
ghost use Rattle.card_service.specs.Serving.{IsHeard, IsHeardAs, IsServing, Serving, ServingAll, IsCardServed, IsCaused};
ghost use Rattle.card_service.specs.Serving.{Leaves, CardInTime};

use crate::packets::{Gathering, write_packet};
use link_session::Peer;
use tach_media::{Answer, Chip, Sink, put_all};

/// As many reads as a service makes at most.
pub const MOST_TURNS: u64 = 18_446_744_073_709_551_615;

/// The card's answer to a reset: direct convention, no interface byte, so T=0 alone with all default values, and no
/// historical byte (ISO/IEC 7816-3).
pub const ANSWER_TO_RESET: [u8; 2] = [0x3B, 0x00];

/// What a packet asks for.
#[derive(Clone, Copy, Debug, PartialEq, Eq)]
pub enum Asked {
    /// Power off, power on and reset, which all reset the card: nothing goes back.
    Reset,
    /// The answer to reset.
    AnswerToReset,
    /// What the card answers to a command.
    Command,
}

/// The status word of a command at which the card's memory failed.
const MEMORY_FAILED: [u8; 2] = [0x65, 0x81];

/// Why a service ended before its source did.
#[derive(Clone, Copy, Debug, PartialEq, Eq)]
pub enum CardFault {
    /// The source failed.
    ReadFault,
    /// The sink failed.
    WriteFault,
    /// The card failed.
    Failed,
    /// The source ended inside a packet.
    Cut,
    /// 18446744073709551615 reads were made.
    TooLong,
}

/// Answers what comes to a card in a slot until the source ends: packets, each behind its length in two bytes. Four of
/// one byte are words to the slot: 0, 1 and 2 reset the card, and 4 asks for its answer to reset. Every other packet is
/// a command.
///
/// # Errors
///
/// `ReadFault` and `TooLong` after the answers to all that came, and `Cut` where the source ended inside a packet;
/// `WriteFault` where the sink failed at the last answer, and `Failed` where the card did: a command is answered 6581
/// then.
pub fn serve_card<S: Peer<K>, K: Sink, C: Chip>(
    source: &mut S,
    sink: &mut K,
    chip: &mut C,
) -> Result<(), CardFault>
    ensures served { IsCardServed result (C.state chip.old) (C.state chip.new) (C.card chip.old) (C.card chip.new)
        (S.left source.old) (S.left source.new) (K.held sink.old) (K.held sink.new) }
    // Before each read all packets that had come were answered.
    ensures in_time { AnswersInTime (CardInTime (C.state chip.old) (C.card chip.old)) (S.left source.old)
        (S.left source.new) (K.held sink.old) (S.asked source.old) (S.asked source.new) }
    // At the end nothing of the source is left.
    ensures end { OnOk result (IsAtEnd (S.left source.new)) }
    ensures cause { IfErr result (λ fault. IsCaused fault (Rose (S.faults source.old) (S.faults source.new))
        (Rose (K.faults sink.old) (K.faults sink.new)) (Rose (C.state chip.old).faults (C.state chip.new).faults)) }
    ensures counts { (S.faults source.old ≤ S.faults source.new) × (K.faults sink.old ≤ K.faults sink.new)
        × ((C.state chip.old).faults ≤ (C.state chip.new).faults) }
{
    reset(chip)?;
    let mut gathering = Gathering::new();
    let mut block = [0u8; 4096];
    for _turn in 0..MOST_TURNS {
        let Ok(count) = source.read_after(&mut block, sink) else {
            return Err(CardFault::ReadFault);
        };
        if count == 0 {
            return ended(&gathering);
        }
        take_all(&mut gathering, &block[..count], sink, chip)?;
    }
    Err(CardFault::TooLong)
}

/// The source has ended.
fn ended(gathering: &Gathering) -> Result<(), CardFault>
    ensures ok { OnOk result (gathering.now ≡ []) }
    ensures err { IfErr result (λ fault. (fault ≡ CardFault.Cut) × (0 < length gathering.now)) }
{
    if gathering.is_empty() {
        return Ok(());
    }
    Err(CardFault::Cut)
}

/// These bytes come.
fn take_all<K: Sink, C: Chip>(
    gathering: &mut Gathering,
    bytes: &[u8],
    sink: &mut K,
    chip: &mut C,
) -> Result<(), CardFault>
    requires works { (C.state chip.old).works ≡ true }
    requires part { IsPart gathering.old }
    ensures goes { (begun : Card) (held : Option (List ℕ)) (came : List ℕ)
        → IsServing begun came gathering.old (card_told (C.state chip.old) (C.card chip.old)) held (K.held sink.old)
        → ServingAll result begun came bytes.now gathering.new (card_told (C.state chip.new) (C.card chip.new)) held
        (K.held sink.new) }
    ensures moments { (begun : Card) (held : Option (List ℕ)) (came : List ℕ)
        → IsServing begun came gathering.old (card_told (C.state chip.old) (C.card chip.old)) held (K.held sink.old)
        → LeavesOnly (C.state chip.old) (C.state chip.new) (λ x c. Leaves begun (came ++ bytes.now) c) }
    ensures works { OnOk result ((C.state chip.new).works ≡ true) }
    ensures part { OnOk result (IsPart gathering.new) }
    ensures cause { IfErr result (λ fault. IsCaused fault ⊥ (Rose (K.faults sink.old) (K.faults sink.new))
        (Rose (C.state chip.old).faults (C.state chip.new).faults)) }
    ensures counts { (K.faults sink.old ≤ K.faults sink.new) × ((C.state chip.old).faults ≤ (C.state chip.new).faults) }
{
    for byte in bytes {
        take(gathering, *byte, sink, chip)?;
    }
    Ok(())
}

/// A byte comes.
fn take<K: Sink, C: Chip>(
    gathering: &mut Gathering,
    byte: u8,
    sink: &mut K,
    chip: &mut C,
) -> Result<(), CardFault>
    requires works { (C.state chip.old).works ≡ true }
    requires part { IsPart gathering.old }
    ensures goes { (begun : Card) (held : Option (List ℕ)) (came : List ℕ)
        → IsServing begun came gathering.old (card_told (C.state chip.old) (C.card chip.old)) held (K.held sink.old)
        → Serving result begun (came ++ byte ∷ []) gathering.new (card_told (C.state chip.new) (C.card chip.new)) held
        (K.held sink.new) }
    ensures moments { (begun : Card) (held : Option (List ℕ)) (came : List ℕ)
        → IsServing begun came gathering.old (card_told (C.state chip.old) (C.card chip.old)) held (K.held sink.old)
        → LeavesOnly (C.state chip.old) (C.state chip.new) (λ x c. Leaves begun (came ++ byte ∷ []) c) }
    ensures works { OnOk result ((C.state chip.new).works ≡ true) }
    ensures part { OnOk result (IsPart gathering.new) }
    ensures cause { IfErr result (λ fault. IsCaused fault ⊥ (Rose (K.faults sink.old) (K.faults sink.new))
        (Rose (C.state chip.old).faults (C.state chip.new).faults)) }
    ensures counts { (K.faults sink.old ≤ K.faults sink.new) × ((C.state chip.old).faults ≤ (C.state chip.new).faults) }
{
    if !gathering.take(byte) {
        return Ok(());
    }
    let heard = hear(gathering.bytes(), sink, chip);
    gathering.clear();
    heard
}

/// A packet comes.
fn hear<K: Sink, C: Chip>(bytes: &[u8], sink: &mut K, chip: &mut C) -> Result<(), CardFault>
    requires works { (C.state chip.old).works ≡ true }
    ensures heard { IsHeard result (card_told (C.state chip.old) (C.card chip.old)) bytes.now
        (card_told (C.state chip.new) (C.card chip.new)) (K.held sink.old) (K.held sink.new) }
    ensures moments { LeavesOnly (C.state chip.old) (C.state chip.new)
        (λ x c. LeavesAt (card_told (C.state chip.old) (C.card chip.old)) bytes.now c) }
    ensures works { OnOk result ((C.state chip.new).works ≡ true) }
    ensures cause { IfErr result (λ fault. IsCaused fault ⊥ (Rose (K.faults sink.old) (K.faults sink.new))
        (Rose (C.state chip.old).faults (C.state chip.new).faults)) }
    ensures counts { (K.faults sink.old ≤ K.faults sink.new) × ((C.state chip.old).faults ≤ (C.state chip.new).faults) }
{
    match asked_by(bytes) {
        Asked::Reset => reset(chip),
        Asked::AnswerToReset => send(&ANSWER_TO_RESET, sink),
        Asked::Command => answer(bytes, sink, chip),
    }
}

/// What a packet asks for. The words to the slot have one byte.
fn asked_by(bytes: &[u8]) -> Asked
    ensures { result ≡ asked_by bytes.now }
{
    if bytes.len() != 1 {
        return Asked::Command;
    }
    asked_by_word(bytes[0])
}

/// The same of a packet of one byte.
fn asked_by_word(word: u8) -> Asked
    ensures { result ≡ asked_by_word word }
{
    if word <= 2 {
        return Asked::Reset;
    }
    if word == 4 {
        return Asked::AnswerToReset;
    }
    Asked::Command
}

/// The card is reset.
fn reset<C: Chip>(chip: &mut C) -> Result<(), CardFault>
    ensures image { IsRevived (C.state chip.old) (C.state chip.new).image }
    ensures moments { LeavesOnly (C.state chip.old) (C.state chip.new) Unchanged }
    ensures clock { (C.state chip.new).clock ≡ (C.state chip.old).clock }
    ensures state { C.card chip.new ≡ after_reset (C.card chip.old) }
    ensures works { OnOk result ((C.state chip.new).works ≡ true) }
    ensures err { IfErr result (λ fault. fault ≡ CardFault.Failed) }
    ensures cause { OnErr result (Rose (C.state chip.old).faults (C.state chip.new).faults) }
    ensures counts { (C.state chip.old).faults ≤ (C.state chip.new).faults }
{
    match chip.revive() {
        Ok(()) => Ok(()),
        Err(_) => Err(CardFault::Failed),
    }
}

/// A command comes, and is answered.
fn answer<K: Sink, C: Chip>(command: &[u8], sink: &mut K, chip: &mut C) -> Result<(), CardFault>
    ensures heard { IsHeardAs Command result (card_told (C.state chip.old) (C.card chip.old)) command.now
        (card_told (C.state chip.new) (C.card chip.new)) (K.held sink.old) (K.held sink.new) }
    ensures moments { LeavesOnly (C.state chip.old) (C.state chip.new)
        (λ x c. PartlyBy (outcome_of (C.card chip.old) command.now).effect (C.state chip.old).image c) }
    ensures works { OnOk result ((C.state chip.new).works ≡ true) }
    ensures cause { IfErr result (λ fault. IsCaused fault ⊥ (Rose (K.faults sink.old) (K.faults sink.new))
        (Rose (C.state chip.old).faults (C.state chip.new).faults)) }
    ensures counts { (K.faults sink.old ≤ K.faults sink.new) × ((C.state chip.old).faults ≤ (C.state chip.new).faults) }
{
    let mut answer = Answer::new();
    if chip.transmit(command, &mut answer).is_err() {
        send(&MEMORY_FAILED, sink)?;
        return Err(CardFault::Failed);
    }
    send(answer.as_slice(), sink)
}

/// Sends a packet.
fn send<K: Sink>(bytes: &[u8], sink: &mut K) -> Result<(), CardFault>
    requires { length bytes.now ≤ ANSWER_MOST }
    ensures ok { OnOk result (Appends (K.held sink.old) (K.held sink.new) (packet bytes.now)) }
    ensures err { IfErr result (λ fault. (fault ≡ CardFault.WriteFault)
        × AppendsFront (K.held sink.old) (K.held sink.new) (packet bytes.now)
        × Rose (K.faults sink.old) (K.faults sink.new)) }
    ensures counts { K.faults sink.old ≤ K.faults sink.new }
{
    let packet = write_packet(bytes);
    match put_all(sink, packet.as_slice()) {
        Ok(()) => Ok(()),
        Err(_) => Err(CardFault::WriteFault),
    }
}
