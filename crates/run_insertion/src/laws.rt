//! The events that a card shows.
ghost use Rattle.std.specs.Prelude.{◌≡◌, ℕ, ◌≤◌, Bool, true, false, List, [], ◌++◌, length};
ghost use Rattle.std.specs.List.{AllByRecursion};
ghost use Rattle.activity_codec.specs.declared.values.Activity.{Activity};
ghost use Rattle.activity_codec.specs.declared.entries.Entry.{Entry};
ghost use Rattle.tacho_types.specs.declared.texts.Registration.{Registration};
ghost use Rattle.card_layout.specs.declared.files.Application.{Application};
ghost use Rattle.card_layout.specs.Files.{image_size_of};
ghost use Rattle.run_events.specs.card_files.declared.card_event.CardEvent.{CardEvent};
ghost use Rattle.run_events.specs.card_files.Noting.{IsNotingEvent, IsEventNoted};
ghost use Rattle.card_validity.specs.card_image.Fields.{file_bytes};
ghost use Rattle.card_session.specs.Sessions.{Session};
ghost use Rattle.card_session.specs.Cards.{IsCardKeeping, IsCardClosing};
ghost use Rattle.card_session.specs.Inserting.{IsCardInserted, IsCardInserting};
ghost use Rattle.run_minutes.specs.CardEvents.{LeavesEvents};
ghost use Rattle.run_insertion.specs.Noted.{AreDone, AreBeingDone};
ghost use Rattle.run_insertion.specs.CardEvents.{ShowsMore, NotesOnCard, IsPlain, unclosed_on};

use tach_media::Chip;

/// What a card shows, type by type: behind the notes of several events, one after another, each has taken its place;
/// behind an insertion the session that was left open is among them, if one was; and at each moment of these so many of
/// them are, and at most the place of the next is empty. A keep and a withdrawal leave them, at each moment too; and
/// where its file of events is the same it shows the same.
pub fn the_events_of_a_card()
    ensures noted { (app : Application) (events : List CardEvent) (x y : List ℕ) → AllByRecursion IsPlain events
        → AreDone (IsEventNoted app) events x y → ShowsMore app events false x y }
    ensures noting { (app : Application) (events : List CardEvent) (x c : List ℕ) → AllByRecursion IsPlain events
        → AreBeingDone (IsEventNoted app) (IsNotingEvent app) events x c → ShowsMore app events true x c }
    ensures inserted { (app : Application) (registration : Registration) (odometer now : ℕ) (owed : List Entry)
        (x y : List ℕ) → image_size_of app ≤ length x → IsCardInserted app registration odometer owed now x y
        → ShowsMore app (unclosed_on app now x) false x y }
    ensures inserting { (app : Application) (registration : Registration) (odometer now : ℕ) (owed : List Entry)
        (x c : List ℕ) → image_size_of app ≤ length x → IsCardInserting app registration odometer owed now x c
        → ShowsMore app (unclosed_on app now x) true x c }
    ensures kept { (s : Session) (entry : Entry) (odometer : ℕ) (x c : List ℕ) → IsCardKeeping s entry odometer x c
        → ShowsMore s.application [] false x c }
    ensures closed { (s : Session) (act : Activity) (x c : List ℕ) → image_size_of s.application ≤ length x
        → IsCardClosing s act x c → ShowsMore s.application [] false x c }
    ensures still { (app : Application) (x c : List ℕ) → file_bytes app 0x0502 c ≡ file_bytes app 0x0502 x
        → ShowsMore app [] false x c }
{}

/// What calls one after another note on a card it shows behind all of them; and calls that leave its file of events
/// note nothing.
pub fn notes_on_a_card_go_on<C: Chip, D: Chip, E: Chip>(before: &C, between: &D, after: &E)
    ensures joined { (app : Application) (events more : List CardEvent) (cut : Bool)
        → NotesOnCard app events false (C.state before.now) (D.state between.now)
        → NotesOnCard app more cut (D.state between.now) (E.state after.now)
        → NotesOnCard app (events ++ more) cut (C.state before.now) (E.state after.now) }
    ensures still { (app : Application) (cut : Bool) → LeavesEvents app (C.state before.now) (D.state between.now)
        → NotesOnCard app [] cut (C.state before.now) (D.state between.now) }
{}
