//! Calls on a lent card, each through a port of its own.
ghost use Rattle.std.specs.Prelude.{◌≡◌, ◌≢◌, ◌≤◌, ◌<◌, ◌+◌, ◌^◌, Some, None, IfOk, IfErr};
ghost use Rattle.std.specs.Prelude.{IfSome};
ghost use Rattle.tach_media.specs.Medium.{Reads};
ghost use Rattle.card_commands.specs.Ports.{IsPort};
ghost use Rattle.card_validity.specs.card_image.Judging.{first_bad_file};
ghost use Rattle.card_validity.specs.Faults.{IfNotValid, IfTimeOverlap, has_failed};
ghost use Rattle.card_validity.specs.Judged.{TellsSizes, IsLook};
ghost use Rattle.device_calls.specs.Calls.{CardStandsKept};
ghost use Rattle.device_calls.specs.Calls.{CardStandsPlaced, MayNoteOnCard, NotesEventOnCard, NotesPlaceOnCard};

use card_commands::Port;
use card_files::{CardEvent, note_event, note_place};
use card_layout::Application;
use card_validity::{CardLook, InsertFault, look};
use tach_media::{Chip, Failed};
use tacho_types::PlaceEntry;

/// A card that goes by these sizes is read and judged.
///
/// # Errors
///
/// 1. `Failed` where the card failed.
/// 2. `NotValid` exactly where the card is not valid, with the file that first fails and the place in it.
pub fn look_by<C: Chip>(card: &mut C, app: Application) -> Result<CardLook, InsertFault>
    requires port { IsPort app None (C.card card.old) (C.state card.old) }
    requires told { IfSome (C.state card.old).image (TellsSizes app) }
    ensures look { IfOk result (λ l. IfSome (C.state card.old).image (λ x. IsLook app x l)) }
    ensures bad { IfErr result (λ fault. IfNotValid fault (λ fid place. IfSome (C.state card.old).image
        (λ x. first_bad_file app x ≡ Some (fid, place)))) }
    ensures in_time { IfErr result (λ fault. IfTimeOverlap fault (λ stored now. ⊥)) }
    ensures reads { Reads (C.state card.old) (C.state card.new) (has_failed result) }
    ensures port { IsPort app None (C.card card.new) (C.state card.new) }
{
    let mut port = Port::resume(&mut *card, app);
    look(&mut port, &app)
}

/// An event is noted on a card that goes by these sizes.
///
/// # Errors
///
/// `Failed` where the card failed, which is a tear; then the event may be there or not.
pub fn note_event_on<C: Chip>(
    card: &mut C,
    app: Application,
    event: &CardEvent,
) -> Result<(), Failed>
    requires port { IsPort app None (C.card card.old) (C.state card.old) }
    requires event { MayNoteOnCard event.now }
    ensures note { NotesEventOnCard result app event.now (C.state card.old) (C.state card.new) }
    ensures card { CardStandsKept result app (C.state card.old) (C.state card.new) (C.card card.new) }
    ensures most { (C.state card.new).clock ≤ (C.state card.old).clock + 4 }
{
    let mut port = Port::resume(&mut *card, app);
    note_event(&mut port, &app, event)
}

/// A place is noted on a card that goes by these sizes. Where the pointer of Places is not an index it writes nothing:
/// such a card is not valid.
///
/// # Errors
///
/// `Failed` where the card failed, which is a tear; then the place may be there or not.
pub fn note_place_on<C: Chip>(
    card: &mut C,
    app: Application,
    entry: &PlaceEntry,
) -> Result<(), Failed>
    requires port { IsPort app None (C.card card.old) (C.state card.old) }
    requires time { entry.now.time.0 ≢ 0 }
    requires odometer { entry.now.odometer.0 < 2 ^ 24 }
    ensures note { NotesPlaceOnCard result app entry.now (C.state card.old) (C.state card.new) }
    ensures card { CardStandsPlaced result app (C.state card.old) (C.state card.new) (C.card card.new) }
    ensures most { (C.state card.new).clock ≤ (C.state card.old).clock + 5 }
{
    let mut port = Port::resume(&mut *card, app);
    note_place(&mut port, &app, entry)
}
