//! A card that is found to be accepted is so: its insertion is noted, its row begins, and what comes with it is noted.
ghost use Rattle.std.specs.Prelude.{◌≡◌, ℕ, ◌+◌, ◌/◌, ◌≤◌, Bool, Option};
ghost use Rattle.std.specs.Prelude.{length, is_err, option_map};
ghost use Rattle.tacho_types.specs.CardNumber.{card_number_bytes};
ghost use Rattle.device_calls.specs.device_rule.Views.{other};
ghost use Rattle.run_crew.specs.Cards.{known_of};
ghost use Rattle.run_minutes.specs.Keeping.{UnitMayBeCalled};
ghost use Rattle.run_insertion.specs.Entering.{taken_as, most_owed};
ghost use Rattle.card_session.specs.Sessions.{IsValue};
ghost use Rattle.run_minutes.specs.run_devices.Told.{arranged};
ghost use Rattle.run_insertion.specs.Told.{BooksSeat, BooksNotes, TimesNotes, BooksTaken};
ghost use Rattle.run_insertion.specs.Entered.{FitsInsertion, IsSeated, IsMoved, IsNotedOn, IsEntry, IsTaken};
ghost use Rattle.run_insertion.specs.Calls.{CardGoesBy, IsWithinBounds, MayComeIn, StandsEntered};
ghost use Rattle.run_insertion.specs.Calls.{StandsSeated, CardMayBeNotedOn, EnteringGoesWithin, MaySeat, StandsJudged};
ghost use Rattle.run_insertion.specs.Writes.{seat_unit_most, moving_unit_most, moving_card_most, entered_unit_most};
ghost use Rattle.run_insertion.specs.Writes.{enter_unit_most};
ghost use Rattle.device_calls.specs.Calls.{MayBeginRow};
ghost use Rattle.run_minutes.specs.Calls.{MayTear};

use crate::lines::{Entering, find, insertion_of, other_card, tell_replayed};
use crate::noting::{note_driving, note_unclosed};
use activity_codec::MINUTE_SECONDS;
use card_layout::Application;
use card_session::CardSession;
use card_validity::CardLook;
use device_calls::{Entered, NewRow, begin, note_event_on};
use hand_model::Held;
use log_model::{Break, Verdict};
use run_crew::Accepted;
use run_events::{card_driving, on_card};
use run_minutes::Keeper;
use run_outcome::{Lines, Outcome};
use tach_media::{Chip, Failed, Medium};
use unit_notes::UnitNotes;

/// A card that is to be seated: how it entered, what it told, its session, and which row of the unit is to be its.
#[derive(Drop)]
struct Seating {
    entering: Entering,
    look: CardLook,
    session: CardSession,
    row: u32,
}

/// A card that was seated: how it entered, its sizes, and when the session began that it told unclosed, 0 for none.
#[derive(Clone, Copy)]
struct CardSeated {
    entering: Entering,
    app: Application,
    unclosed: u32,
}

/// The unit notes the insertion of a card, which is accepted in its slot, and its row, which was told before, begins.
fn seat<M: Medium, C: Chip, D: Chip>(
    keeper: &mut Keeper,
    noted: &mut u64,
    seating: Seating,
    unit: &mut M,
    card: &C,
    others: &D,
) -> Result<(), Failed>
    requires ready { UnitMayBeCalled keeper.old (M.state unit.old) }
    requires may { MaySeat seating.entering seating.session.application keeper.old }
    requires row { MayBeginRow seating.row (card_number_bytes seating.look.number)
        (option_map (λ n. card_number_bytes n)
        (known_of keeper.old.cabin.cards (other seating.entering.which)).number) (M.state unit.old) }
    ensures seated { (entry : Option ℕ)
        × IsSeated seating.look seating.session seating.row seating.entering
        (is_err result) keeper.old keeper.new noted.old noted.new
        (M.state unit.old) (M.state unit.new) entry }
    ensures value { IsValue seating.session }
    ensures booked { BooksSeat seating.look seating.session seating.entering (is_err result) keeper.old keeper.new
        (M.state unit.old)
        (M.state unit.new) (C.state card.now) (D.state others.now) }
    ensures behind { StandsSeated seating.entering result keeper.old keeper.new (M.state unit.old) (M.state unit.new) }
    ensures most { (M.state unit.new).clock ≤ (M.state unit.old).clock + seat_unit_most }
{
    let entering = seating.entering;
    let look = seating.look;
    let row = seating.row;
    let begin_second = entering.at.second;
    let entry = keeper
        .memory
        .note_insertion(unit, &insertion_of(&look, entering))?;
    *noted = noted.saturating_add(1);
    let spared = keeper.cabin.cards.of(other_card(entering.which)).number;
    let accepted = Accepted {
        session: seating.session,
        held: Held::new(begin_second / MINUTE_SECONDS),
        entry,
        noted: *noted,
    };
    keeper
        .cabin
        .accept(entering.slot, entering.which, look.number, row, accepted);
    let new_row = NewRow {
        number: look.number,
        session: begin_second,
        index: row,
        spared,
    };
    begin(
        unit,
        &mut keeper.journal,
        card,
        others,
        entering.which,
        new_row,
    )
}

/// That the vehicle moved is noted on the unit and on the accepted card, which is torn out where it fails.
fn note_moving<M: Medium, C: Chip, D: Chip>(
    keeper: &mut Keeper,
    seated: CardSeated,
    unit: &mut M,
    card: &mut C,
    others: &D,
    breaks: &mut Lines<Break>,
) -> Result<(), Failed>
    requires ready { UnitMayBeCalled keeper.old (M.state unit.old) }
    requires may { MayTear seated.entering.at keeper.old breaks.old }
    requires card { CardMayBeNotedOn seated.app (known_of keeper.old.cabin.cards seated.entering.which)
        (C.card card.old) (C.state card.old) }
    ensures noted { (fell : Bool) × IsMoved seated.app seated.entering
        (is_err result) keeper.old keeper.new breaks.old breaks.new
        (M.state unit.old) (M.state unit.new) (C.state card.old) (C.state card.new) fell
        × BooksNotes seated.app seated.entering (is_err result) keeper.old keeper.new fell
        (arranged seated.entering.which (M.state unit.old) (C.state card.old) (D.state others.now))
        (arranged seated.entering.which (M.state unit.new) (C.state card.new) (D.state others.now)) }
    ensures timed { TimesNotes seated.app seated.entering keeper.old
        (arranged seated.entering.which (M.state unit.old) (C.state card.old) (D.state others.now)) (C.state card.old)
        (C.state card.new) }
    ensures behind { StandsEntered seated.entering.which keeper.old.cabin.slots.minute result keeper.old keeper.new
        (M.state unit.old) (M.state unit.new)
        (C.state card.old) (C.state card.new) (C.card card.new) }
    ensures goes { EnteringGoesWithin moving_unit_most moving_card_most breaks.old.items breaks.new.items
        (M.state unit.old) (M.state unit.new)
        (C.state card.old) (C.state card.new) }
{
    let entering = seated.entering;
    let second = entering.at.second;
    note_driving(keeper, second, unit)?;
    let event = on_card(
        &card_driving(second, keeper.cabin.crew()),
        &keeper.memory.identity().registration,
    );
    match note_event_on(card, seated.app, &event) {
        Ok(()) => Ok(()),
        Err(_) => keeper.tear(entering.which, entering.slot, entering.at, unit, breaks),
    }
}

/// What comes with an accepted card is noted: that the vehicle moved, and that the card's last session was not closed.
fn note_entered<M: Medium, C: Chip, D: Chip>(
    keeper: &mut Keeper,
    seated: CardSeated,
    unit: &mut M,
    card: &mut C,
    others: &D,
    breaks: &mut Lines<Break>,
) -> Result<(), Failed>
    requires ready { UnitMayBeCalled keeper.old (M.state unit.old) }
    requires may { MayTear seated.entering.at keeper.old breaks.old }
    requires card { CardMayBeNotedOn seated.app (known_of keeper.old.cabin.cards seated.entering.which)
        (C.card card.old) (C.state card.old) }
    ensures noted { (fell : Bool) × IsNotedOn seated.app seated.unclosed seated.entering
        (is_err result) keeper.old keeper.new breaks.old
        breaks.new (M.state unit.old) (M.state unit.new) (C.state card.old) (C.state card.new) fell
        × BooksNotes seated.app seated.entering (is_err result) keeper.old keeper.new fell
        (arranged seated.entering.which (M.state unit.old) (C.state card.old) (D.state others.now))
        (arranged seated.entering.which (M.state unit.new) (C.state card.new) (D.state others.now)) }
    ensures timed { TimesNotes seated.app seated.entering keeper.old
        (arranged seated.entering.which (M.state unit.old) (C.state card.old) (D.state others.now)) (C.state card.old)
        (C.state card.new) }
    ensures behind { StandsEntered seated.entering.which keeper.old.cabin.slots.minute result keeper.old keeper.new
        (M.state unit.old) (M.state unit.new)
        (C.state card.old) (C.state card.new) (C.card card.new) }
    ensures goes { EnteringGoesWithin entered_unit_most moving_card_most breaks.old.items breaks.new.items
        (M.state unit.old) (M.state unit.new)
        (C.state card.old) (C.state card.new) }
{
    let entering = seated.entering;
    let session = seated.unclosed;
    let crew = keeper.cabin.crew();
    if entering.speed > 0 {
        note_moving(keeper, seated, unit, card, others, breaks)?;
    }
    if session == 0 {
        return Ok(());
    }
    note_unclosed(keeper, crew, entering.at.second, session, unit)
}

/// What a card told fills the fields of its insertion. For the proof alone: it does nothing, and is handed the value,
/// whose fields are as long as their types say.
fn fills_its_fields(look: CardLook)
    ensures sized { FitsInsertion look }
{
    let _ = look;
}

/// A card that is found to be accepted, by these sizes, beside the other one.
#[derive(Drop)]
pub(crate) struct Found<O> {
    pub entering: Entering,
    pub app: Application,
    pub entered: Entered,
    /// The other card, which is never called.
    pub others: O,
}

// A card that is found to be accepted: that is told, the entries that were owed to it are marked, and it is seated.
pub(crate) fn take_in<M: Medium, C: Chip, D: Chip>(
    keeper: &mut Keeper,
    noted: &mut u64,
    found: Found<&D>,
    unit: &mut M,
    card: &mut C,
    outcome: &mut Outcome,
) -> Result<(), Failed>
    requires ready { UnitMayBeCalled keeper.old (M.state unit.old) }
    requires come { MayComeIn found.entering keeper.old outcome.old }
    requires card { CardGoesBy found.app (known_of keeper.old.cabin.cards found.entering.which) (C.card card.old)
        (C.state card.old) }
    requires session { found.entered.session.application ≡ found.app }
    requires row { MayBeginRow found.entered.row (card_number_bytes found.entered.look.number)
        (option_map (λ n. card_number_bytes n) (known_of keeper.old.cabin.cards (other found.entering.which)).number)
        (M.state unit.old) }
    ensures marks { (outcome.new.marks.room ≡ outcome.old.marks.room)
        × (length outcome.new.marks.items ≤ length outcome.old.marks.items + most_owed) }
    ensures ended { (fell : Bool) × (entry : Option ℕ) × IsEntry entry (is_err result) (M.state unit.old).image
        × IsTaken found.entry.app found.entry.entering
        (is_err result) keeper.old keeper.new noted.old noted.new outcome.old outcome.new
        (M.state unit.old) (M.state unit.new) (C.state card.old) (C.state card.new)
        (taken_as fell found.entry.entered (C.state card.old).clock entry)
        × BooksTaken found.entry.entered
        (taken_as fell found.entry.entered (C.state card.old).clock entry) found.entry.entering
        (is_err result) keeper.old
        keeper.new (M.state unit.old) (M.state unit.new) (C.state card.old) (C.state card.new)
        (D.state found.entry.others.now) }
    ensures behind { StandsJudged found.entry.entering.which (found.entry.entering.at.second / 60) result keeper.old
        keeper.new (M.state unit.old) (M.state unit.new) (C.state card.old) (C.state card.new) (C.card card.new) }
    ensures judged { IsWithinBounds found.entry.entered }
    ensures goes { EnteringGoesWithin enter_unit_most moving_card_most outcome.old.breaks.items outcome.new.breaks.items
        (M.state unit.old)
        (M.state unit.new) (C.state card.old) (C.state card.new) }
{
    let entering = found.entering;
    let app = found.app;
    let others = found.others;
    let entered = found.entered;
    let look = entered.look;
    fills_its_fields(look);
    let replayed = entered.replayed;
    find(entering, Verdict::Accepted { replayed }, &mut outcome.finds);
    let clock = card.clock();
    tell_replayed(
        entering.which,
        &entered.owed,
        replayed,
        clock,
        &mut outcome.marks,
    );
    let seating = Seating {
        entering,
        look,
        session: entered.session,
        row: entered.row,
    };
    seat(keeper, noted, seating, unit, card, others)?;
    let seated = CardSeated {
        entering,
        app,
        unclosed: look.session,
    };
    note_entered(keeper, seated, unit, card, others, &mut outcome.breaks)
}
