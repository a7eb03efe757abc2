//! What helps behind `usage`, by the first word that fits no form (profile).
ghost use Rattle.std.specs.Prelude.{◌≡◌};
ghost use Rattle.tacho.specs.Hints.{hint_of, hint_of_two, hint_of_three, hint_of_six, unit_hint, card_hint};
ghost use Rattle.tacho.specs.Hints.{last_hint, command_hint, is_command, hint_text};

use crate::forms::{
    CARD_NUMBER, LIMIT_LEAST, LIMIT_MOST, NAME, NATION_MOST, PLATE, VIN, form_of_one, form_of_two,
    is_text, is_word, number,
};
use crate::sources::reads_all;
use crate::words::Words;
use trace_model::Card;

/// What helps behind `usage`.
#[derive(Clone, Copy, Debug, PartialEq, Eq)]
pub enum Hint {
    /// The forms.
    Help,
    /// That the first word is no command.
    NoCommand,
    /// That a form which reads a file has one word more, as a name without `.` and `/`.
    OneMore,
    /// Which words `format` takes.
    Format,
    /// Which devices `format` makes.
    Devices,
    /// Which cards there are.
    Cards,
    /// What the number of a nation may be.
    Nation,
    /// What a plate may be.
    Plate,
    /// What a vehicle's number may be.
    VehicleNumber,
    /// What a speed limit may be.
    Limit,
    /// What a card's number may be.
    CardNumber,
    /// What a surname may be.
    Surname,
    /// What a first name may be.
    FirstName,
    /// Of how many last days may be told.
    Days,
    /// Of how many last minutes may be told.
    Minutes,
    /// What a drawing may begin with.
    Seed,
}

/// What helps where these words are in no form.
pub fn hint_of(words: &Words) -> Hint
    ensures { result ≡ hint_of words.now }
{
    if let Some((command, _more)) = words.two() {
        return hint_of_two(command);
    }
    if let Some((command, which, _count)) = words.three() {
        return hint_of_three(command, which);
    }
    if let Some((command, what, first, second, third, fourth)) = words.six() {
        return hint_of_six(command, what, first, second, third, fourth);
    }
    if words.is_empty() {
        return Hint::Help;
    }
    command_hint(words.get(0))
}

/// What helps where two words are in no form.
fn hint_of_two(command: &str) -> Hint
    ensures { result ≡ hint_of_two command.now }
{
    if reads_all(form_of_one(command)) {
        return Hint::OneMore;
    }
    if is_text(command, "card") {
        return Hint::Cards;
    }
    if is_text(command, "demo") {
        return Hint::Seed;
    }
    command_hint(command)
}

/// What helps where three words are in no form.
fn hint_of_three(command: &str, which: &str) -> Hint
    ensures { result ≡ hint_of_three command.now which.now }
{
    if reads_all(form_of_two(command, which)) {
        return Hint::OneMore;
    }
    if is_text(which, "last") {
        return last_hint(command);
    }
    if is_text(command, "download") && is_text(which, "noisy") {
        return Hint::Seed;
    }
    if is_text(command, "serve") && is_text(which, "card") {
        return Hint::Cards;
    }
    command_hint(command)
}

/// What helps where `last N` behind a command is in no form.
fn last_hint(command: &str) -> Hint
    ensures { result ≡ last_hint command.now }
{
    if is_text(command, "speeds") {
        return Hint::Minutes;
    }
    if is_text(command, "view")
        || is_text(command, "totals")
        || is_text(command, "chart")
        || is_text(command, "show")
    {
        return Hint::Days;
    }
    command_hint(command)
}

/// What helps where six words are in no form.
fn hint_of_six(
    command: &str,
    what: &str,
    first: &str,
    second: &str,
    third: &str,
    fourth: &str,
) -> Hint
    ensures { result ≡ hint_of_six command.now what.now first.now second.now third.now fourth.now }
{
    if !is_text(command, "format") {
        return command_hint(command);
    }
    if is_text(what, "unit") {
        return unit_hint(first, second, third, fourth);
    }
    if Card::named(what.as_bytes()).is_none() {
        return Hint::Devices;
    }
    card_hint(first, second, third, fourth)
}

/// Which of the words of a unit is the first that it can't have.
fn unit_hint(nation: &str, plate: &str, vin: &str, limit: &str) -> Hint
    ensures { result ≡ unit_hint nation.now plate.now vin.now limit.now }
{
    if number(nation, 0, NATION_MOST as u32).is_none() {
        return Hint::Nation;
    }
    if !is_word(plate.as_bytes(), 1, PLATE) {
        return Hint::Plate;
    }
    if !is_word(vin.as_bytes(), VIN, VIN) {
        return Hint::VehicleNumber;
    }
    if number(limit, LIMIT_LEAST as u32, LIMIT_MOST as u32).is_none() {
        return Hint::Limit;
    }
    Hint::Help
}

/// Which of the words of a card is the first that it can't have.
fn card_hint(state: &str, card_number: &str, surname: &str, first: &str) -> Hint
    ensures { result ≡ card_hint state.now card_number.now surname.now first.now }
{
    if number(state, 0, NATION_MOST as u32).is_none() {
        return Hint::Nation;
    }
    if !is_word(card_number.as_bytes(), CARD_NUMBER, CARD_NUMBER) {
        return Hint::CardNumber;
    }
    if !is_word(surname.as_bytes(), 1, NAME) {
        return Hint::Surname;
    }
    if !is_word(first.as_bytes(), 1, NAME) {
        return Hint::FirstName;
    }
    Hint::Help
}

/// What helps by the first word alone.
fn command_hint(command: &str) -> Hint
    ensures { result ≡ command_hint command.now }
{
    if is_text(command, "format") {
        Hint::Format
    } else if is_command(command) {
        Hint::Help
    } else {
        Hint::NoCommand
    }
}

/// Whether a form begins with this word, `format` left out.
fn is_command(command: &str) -> bool
    ensures { result ≡ is_command command.now }
{
    form_of_one(command).is_some() || is_text(command, "card") || is_text(command, "demo")
}

/// The line of what helps, but for those that begin with a word that was given.
pub fn hint_text(hint: Hint) -> &'static str
    ensures { result.now ≡ hint_text hint }
{
    match hint {
        Hint::Help | Hint::NoCommand | Hint::OneMore => "try: tacho help",
        Hint::Format =>
            "format takes unit N PLATE VIN LIMIT, or a N NUMBER SURNAME FIRST, or b and these",
        Hint::Devices => "format makes unit, a or b",
        Hint::Cards => "the cards are a and b",
        Hint::Nation => "N is a number from 0 to 255",
        Hint::Plate => "PLATE has 1 to 13 ASCII characters and no blank, and does not begin with -",
        Hint::VehicleNumber =>
            "VIN has 17 ASCII characters and no blank, and does not begin with -",
        Hint::Limit => "LIMIT is a number from 1 to 254",
        Hint::CardNumber =>
            "NUMBER has 16 ASCII characters and no blank, and does not begin with -",
        Hint::Surname =>
            "SURNAME has 1 to 35 ASCII characters and no blank, and does not begin with -",
        Hint::FirstName =>
            "FIRST has 1 to 35 ASCII characters and no blank, and does not begin with -",
        Hint::Days => "N is a number of days from 1 to 366",
        Hint::Minutes => "N is a number of minutes from 1 to 1440",
        Hint::Seed => "X is a number from 0 to 2147483647",
    }
}
