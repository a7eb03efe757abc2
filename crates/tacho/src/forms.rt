//! The forms of words that the program knows (profile).
ghost use Rattle.std.specs.Prelude.{◌≡◌, ◌∷◌, ◌+◌, ◌≤◌, IfSome, length, bytes_eq};
ghost use Rattle.std.specs.List.{list_all};
ghost use Rattle.tacho_types.specs.Texts.{padded_text};
ghost use Rattle.tacho.specs.Texts.{is_character, is_word, begins_with_dash, word_in, number_in};
ghost use Rattle.tacho.specs.Forms.{name_in, card_in, registration_in, unit_in, reading_of, form_of_one, form_of_two};
ghost use Rattle.tacho.specs.Forms.{file_of, demo_of, last_in, days_form, last_form, speeds_of, noisy_of, slot_of};
ghost use Rattle.tacho.specs.Forms.{form_of_three, format_of, form_of_six, form_of};

use crate::words::Words;
use card_files::CardIdentity;
use minute_rules::Rule;
use speed_model::BLOCK_SLOTS;
use tacho_types::{Name36, Nation, Registration, write_padded};
use text_fields::number_between;
use trace_model::Card;
use unit_memory::Identity;
use unit_model::layout::DAY_SLOTS;

/// How many characters a card's number has.
pub const CARD_NUMBER: usize = 16;

/// The most characters of a name.
pub const NAME: usize = 35;

/// The most characters of a vehicle's registration.
pub const PLATE: usize = 13;

/// How many characters a vehicle's identification number has.
pub const VIN: usize = 17;

/// The greatest number of a nation: a NationNumeric is one byte (Annex IB, Appendix 1).
pub const NATION_MOST: u8 = 255;

/// The least speed limit in km/h.
pub const LIMIT_LEAST: u8 = 1;

/// The greatest speed limit in km/h.
pub const LIMIT_MOST: u8 = 254;

/// The least number of days that `last N` takes.
pub const LAST_LEAST: u32 = 1;

/// The greatest number of days that `last N` takes: so many days a unit keeps.
pub const LAST_MOST: u32 = DAY_SLOTS;

/// The greatest number of minutes that `speeds last N` takes: so many minutes of detailed speed a unit keeps.
pub const SPEEDS_MOST: u32 = BLOCK_SLOTS;

/// The greatest number that a demonstration is drawn from.
pub const SEED_MOST: u32 = 2147483647;

/// What the words of the command line ask for.
#[derive(Clone, Copy, Debug, PartialEq, Eq)]
pub enum Form {
    /// `minutes`: the decided minutes of a trace are printed; `minutes 2009`: those by the amended rule.
    Minutes { rule: Rule },
    /// `record`: a trace is recorded on the unit and the cards.
    Record,
    /// `format a N NUMBER SURNAME FIRST`, and `format b ..`: the card is issued to this identity.
    FormatCard { card: Card, identity: CardIdentity },
    /// `format unit N PLATE VIN LIMIT`: the unit is made new, of this identity.
    FormatUnit { identity: Identity },
    /// `upgrade`: the unit gets version 2 with the amended rule of minutes.
    Upgrade,
    /// `state`: what the unit and the cards tell of themselves is printed.
    State,
    /// `serve`: the unit answers the frames among the bytes of the source.
    Serve,
    /// `serve --hex`: the same of lines of hexadecimal digits, each answer as a line.
    ServeHex,
    /// `serve packets`: the unit's end of a link of packets.
    ServePackets,
    /// `download`: the unit's file is written.
    Download,
    /// `download noisy X`: the same over a link that loses, repeats and delays, as it is drawn from this number, from 0
    /// to 2147483647.
    DownloadNoisy { seed: u32 },
    /// `serve card a` and `serve card b`: the card answers the commands that come as packets.
    ServeCard { card: Card },
    /// `download packets`: the loader's end of a link of packets; the unit's file goes to a file.
    DownloadPackets,
    /// What a file tells is printed: it is read to its end first.
    Read { reading: Reading },
    /// `card a` and `card b`: the card's file is written.
    CardFile { card: Card },
    /// `demo X`: a demonstration is recorded that is drawn from this number, from 0 to 2147483647.
    Demo { seed: u32 },
    /// `help` and `--help`: the forms are printed, a line each.
    Help,
    /// `--version`: the version is printed, and the logic of the toolchain.
    Version,
}

/// What is told of a file.
#[derive(Clone, Copy, Debug, PartialEq, Eq)]
pub enum Reading {
    /// `view`: the days of a unit file or a card file; `view last N`: its last so many, from 1 to 366.
    View { last: Option<u32> },
    /// `view manual`: the entries by hand of a card file.
    ByHand,
    /// `match`: whether the entries of a card file stand in a unit file.
    Match,
    /// `match all`: which of them do not, and how they differ.
    MatchAll,
    /// `totals`: the hours of each day of a unit file or a card file; `totals last N`: of its last so many.
    Totals { last: Option<u32> },
    /// `chart`: a picture of these days; `chart last N`: of the last so many.
    Chart { last: Option<u32> },
    /// `speeds`: the detailed speed of a unit file; `speeds last N`: of its last so many minutes, from 1 to 1440.
    Speeds { last: Option<u32> },
    /// `show`: all that stands in a unit file or a card file, as JSON; `show last N`: of its days the last so many.
    Show { last: Option<u32> },
}

/// What the words ask for, if they are in a form that is known. The test takes no memory.
pub fn form_of(words: &Words) -> Option<Form>
    ensures { result ≡ form_of words.now }
{
    if let Some(word) = words.one() {
        return form_of_one(word);
    }
    if let Some((command, option)) = words.two() {
        return form_of_two(command, option);
    }
    if let Some((command, which, count)) = words.three() {
        return form_of_three(command, which, count);
    }
    let (command, what, first, second, third, fourth) = words.six()?;
    form_of_six(command, what, first, second, third, fourth)
}

/// The form of one word. `--help` and `--version` are the only such that begin with `-`.
pub(crate) fn form_of_one(word: &str) -> Option<Form>
    ensures { result ≡ form_of_one word.now }
{
    if is_text(word, "minutes") {
        return Some(Form::Minutes {
            rule: Rule::Original,
        });
    }
    if is_text(word, "record") {
        return Some(Form::Record);
    }
    if is_text(word, "serve") {
        return Some(Form::Serve);
    }
    if is_text(word, "download") {
        return Some(Form::Download);
    }
    if is_text(word, "upgrade") {
        return Some(Form::Upgrade);
    }
    if is_text(word, "state") {
        return Some(Form::State);
    }
    if is_text(word, "help") || is_text(word, "--help") {
        return Some(Form::Help);
    }
    if is_text(word, "--version") {
        return Some(Form::Version);
    }
    let reading = reading_of(word)?;
    Some(Form::Read { reading })
}

/// What is told of a file by one word.
fn reading_of(word: &str) -> Option<Reading>
    ensures { result ≡ reading_of word.now }
{
    if is_text(word, "view") {
        return Some(Reading::View { last: None });
    }
    if is_text(word, "match") {
        return Some(Reading::Match);
    }
    if is_text(word, "totals") {
        return Some(Reading::Totals { last: None });
    }
    if is_text(word, "chart") {
        return Some(Reading::Chart { last: None });
    }
    if is_text(word, "speeds") {
        return Some(Reading::Speeds { last: None });
    }
    if is_text(word, "show") {
        return Some(Reading::Show { last: None });
    }
    None
}

/// The form of two words. The second may begin with `-`.
pub(crate) fn form_of_two(command: &str, option: &str) -> Option<Form>
    ensures { result ≡ form_of_two command.now option.now }
{
    if is_text(command, "minutes") && is_text(option, "2009") {
        return Some(Form::Minutes {
            rule: Rule::Amended,
        });
    }
    if is_text(command, "serve") && is_text(option, "--hex") {
        return Some(Form::ServeHex);
    }
    if is_text(command, "serve") && is_text(option, "packets") {
        return Some(Form::ServePackets);
    }
    if is_text(command, "download") && is_text(option, "packets") {
        return Some(Form::DownloadPackets);
    }
    if is_text(command, "match") && is_text(option, "all") {
        return Some(Form::Read {
            reading: Reading::MatchAll,
        });
    }
    if is_text(command, "view") && is_text(option, "manual") {
        return Some(Form::Read {
            reading: Reading::ByHand,
        });
    }
    if is_text(command, "card") {
        return file_of(option);
    }
    if is_text(command, "demo") {
        return demo_of(option);
    }
    None
}

/// Which card's file is to be written.
fn file_of(which: &str) -> Option<Form>
    ensures { result ≡ file_of which.now }
{
    let card = Card::named(which.as_bytes())?;
    Some(Form::CardFile { card })
}

/// Which demonstration is asked for.
fn demo_of(seed: &str) -> Option<Form>
    ensures { result ≡ demo_of seed.now }
{
    let seed = number(seed, 0, SEED_MOST)?;
    Some(Form::Demo { seed })
}

/// The form of three words.
fn form_of_three(command: &str, which: &str, count: &str) -> Option<Form>
    ensures { result ≡ form_of_three command.now which.now count.now }
{
    if is_text(command, "download") {
        return noisy_of(which, count);
    }
    if is_text(command, "speeds") {
        return speeds_of(which, count);
    }
    if is_text(command, "serve") {
        return slot_of(which, count);
    }
    last_form(command, which, count)
}

/// Which noisy download is asked for.
fn noisy_of(which: &str, seed: &str) -> Option<Form>
    ensures { result ≡ noisy_of which.now seed.now }
{
    if is_text(which, "noisy") {
        let seed = number(seed, 0, SEED_MOST)?;
        return Some(Form::DownloadNoisy { seed });
    }
    None
}

/// Which card is to answer commands.
fn slot_of(what: &str, letter: &str) -> Option<Form>
    ensures { result ≡ slot_of what.now letter.now }
{
    if is_text(what, "card") {
        let card = Card::named(letter.as_bytes())?;
        return Some(Form::ServeCard { card });
    }
    None
}

/// `last N` behind one of the words that tell of days.
fn last_form(command: &str, which: &str, count: &str) -> Option<Form>
    ensures { result ≡ last_form command.now which.now count.now }
{
    let days = last_in(which, count, LAST_MOST)?;
    days_form(command, days)
}

/// `last N` behind the word that tells of minutes.
fn speeds_of(which: &str, count: &str) -> Option<Form>
    ensures { result ≡ speeds_of which.now count.now }
{
    let minutes = last_in(which, count, SPEEDS_MOST)?;
    let last = Some(minutes);
    Some(Form::Read {
        reading: Reading::Speeds { last },
    })
}

/// Of how many last ones is to be told, if of no more than so many.
fn last_in(which: &str, count: &str, most: u32) -> Option<u32>
    ensures { result ≡ last_in most which.now count.now }
{
    if is_text(which, "last") {
        return number(count, LAST_LEAST, most);
    }
    None
}

/// What is told of so many last days.
fn days_form(command: &str, days: u32) -> Option<Form>
    ensures { result ≡ days_form command.now days }
{
    let last = Some(days);
    if is_text(command, "view") {
        return Some(Form::Read {
            reading: Reading::View { last },
        });
    }
    if is_text(command, "totals") {
        return Some(Form::Read {
            reading: Reading::Totals { last },
        });
    }
    if is_text(command, "chart") {
        return Some(Form::Read {
            reading: Reading::Chart { last },
        });
    }
    if is_text(command, "show") {
        return Some(Form::Read {
            reading: Reading::Show { last },
        });
    }
    None
}

/// The form of six words.
fn form_of_six(
    command: &str,
    what: &str,
    first: &str,
    second: &str,
    third: &str,
    fourth: &str,
) -> Option<Form>
    ensures { result ≡ form_of_six command.now what.now first.now second.now third.now fourth.now }
{
    if is_text(command, "format") {
        return format_of(what, first, second, third, fourth);
    }
    None
}

/// What is made new, and of which identity.
fn format_of(what: &str, first: &str, second: &str, third: &str, fourth: &str) -> Option<Form>
    ensures { result ≡ format_of what.now first.now second.now third.now fourth.now }
{
    if is_text(what, "unit") {
        let identity = unit_identity(first, second, third, fourth)?;
        return Some(Form::FormatUnit { identity });
    }
    let card = Card::named(what.as_bytes())?;
    let identity = card_identity(first, second, third, fourth)?;
    Some(Form::FormatCard { card, identity })
}

/// Whether a word is this text.
pub(crate) fn is_text(word: &str, text: &str) -> bool
    ensures { result ≡ bytes_eq word.now text.now }
{
    word == text
}

/// The identity that N, NUMBER, SURNAME and FIRST tell.
fn card_identity(state: &str, number: &str, surname: &str, first: &str) -> Option<CardIdentity>
    ensures { result ≡ card_in state.now number.now surname.now first.now }
{
    let state = byte_between(state, 0, NATION_MOST)?;
    let number = card_number(number)?;
    let surname = name(surname)?;
    let first = name(first)?;
    Some(CardIdentity {
        state: Nation(state),
        number,
        surname,
        first,
    })
}

/// The identity that N, PLATE, VIN and LIMIT tell.
fn unit_identity(nation: &str, plate: &str, vin: &str, limit: &str) -> Option<Identity>
    ensures { result ≡ unit_in nation.now plate.now vin.now limit.now }
{
    let registration = registration(nation, plate)?;
    let vin = vehicle_number(vin)?;
    let limit = byte_between(limit, LIMIT_LEAST, LIMIT_MOST)?;
    Some(Identity {
        vin,
        registration,
        limit,
    })
}

/// The registration that N and a word of 1 to 13 characters tell.
fn registration(nation: &str, plate: &str) -> Option<Registration>
    ensures { result ≡ registration_in nation.now plate.now }
{
    let nation = byte_between(nation, 0, NATION_MOST)?;
    let text = plate.as_bytes();
    if !is_word(text, 1, PLATE) {
        return None;
    }
    let mut bytes = [0; Registration::SIZE];
    write_registration(nation, text, &mut bytes);
    Some(Registration(bytes))
}

/// Writes a nation's number and a registration's characters.
fn write_registration(nation: u8, text: &[u8], out: &mut [u8])
    requires out { length out.old ≡ PLATE + 2 }
    requires text { length text.now ≤ PLATE }
    ensures { out.new ≡ nation ∷ padded_text PLATE text.now }
{
    let (first, rest) = out.split_at_mut(1);
    first.copy_from_slice(&[nation]);
    write_padded(text, rest);
}

/// The vehicle's number that a word tells.
fn vehicle_number(word: &str) -> Option<[u8; VIN]>
    ensures { result ≡ word_in VIN VIN word.now }
{
    let text = word.as_bytes();
    if !is_word(text, VIN, VIN) {
        return None;
    }
    let mut number = [0; VIN];
    number.copy_from_slice(text);
    Some(number)
}

/// The number in this range that a word spells, without a sign or a leading zero.
pub(crate) fn number(word: &str, least: u32, most: u32) -> Option<u32>
    ensures value { result ≡ number_in least most word.now }
    ensures most { IfSome result (λ n. n ≤ most) }
{
    number_between(word.as_bytes(), least, most)
}

/// The same, of a byte.
fn byte_between(word: &str, least: u8, most: u8) -> Option<u8>
    ensures { result ≡ number_in least most word.now }
{
    Some(number(word, least as u32, most as u32)? as u8)
}

/// The card number that a word tells.
fn card_number(word: &str) -> Option<[u8; CARD_NUMBER]>
    ensures { result ≡ word_in CARD_NUMBER CARD_NUMBER word.now }
{
    let text = word.as_bytes();
    if !is_word(text, CARD_NUMBER, CARD_NUMBER) {
        return None;
    }
    let mut number = [0; CARD_NUMBER];
    number.copy_from_slice(text);
    Some(number)
}

/// The name that a word tells.
fn name(word: &str) -> Option<Name36>
    ensures { result ≡ name_in word.now }
{
    let text = word.as_bytes();
    if !is_word(text, 1, NAME) {
        return None;
    }
    let mut bytes = [0; Name36::SIZE];
    write_padded(text, &mut bytes);
    Some(Name36(bytes))
}

/// Whether a word has so many characters, each from 21 to 7E and the first no `-`.
pub(crate) fn is_word(text: &[u8], least: usize, most: usize) -> bool
    ensures { result ≡ is_word least most text.now }
{
    least <= text.len() && text.len() <= most && !begins_with_dash(text) && has_characters(text)
}

/// Whether each is a character of a word.
fn has_characters(text: &[u8]) -> bool
    ensures { result ≡ list_all is_character text.now }
{
    text.iter().all(|c| is_character(*c))
}

/// Whether the first is `-`.
fn begins_with_dash(text: &[u8]) -> bool
    ensures { result ≡ begins_with_dash text.now }
{
    match text {
        [] => false,
        [first, ..] => *first == b'-',
    }
}

/// Whether it is a character of a word: 21 to 7E.
fn is_character(c: u8) -> bool
    ensures { result ≡ is_character c }
{
    0x21 <= c && c <= 0x7E
}
