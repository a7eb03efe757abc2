//! What the bytes of a field tell, as JSON values.
ghost use Rattle.std.specs.Prelude.{◌≡◌, ◌==◌, ◌+◌, ◌++◌, ◌<◌, ◌≤◌, if◌then◌else◌, IfOk, OnOk, length, take};
ghost use Rattle.std.specs.Prelude.{string_bytes, encode_utf8_all};
ghost use Rattle.hex.specs.Hex.{encode_lower};
ghost use Rattle.json.specs.Json.{array, string};
ghost use Rattle.json.specs.Tree.{json_tokens};
ghost use Rattle.json_fields.specs.Shown.{CanShowPlain, plain_shown};
ghost use Rattle.json_fields.specs.Texts.{activity_word, are_zeros, card_status, card_value, change_value, code_value};
ghost use Rattle.json_fields.specs.Texts.{holder_value, name_value, numbers_shown, or_none, registration_value};
ghost use Rattle.json_fields.specs.Texts.{cut, slot_word, status_word, text_of, text_value, time_value};

use crate::codes::Coding;
use crate::fields::Form;
use crate::times::time_text;
use crate::writer::TextWriter;
use byteorder::{BigEndian, ByteOrder};
use std::alloc::{AllocError, Global};

/// How many bytes a name has: its code page and 35 characters (Appendix 1, Name).
const NAME: usize = 36;

/// Writes the bytes of a field that is no record as a JSON value.
pub(crate) fn write_plain(
    alloc: Global,
    writer: &mut TextWriter,
    form: Form,
    bytes: &[u8],
) -> Result<(), AllocError>
    requires { CanShowPlain form (length bytes.now) }
    ensures { OnOk result (writer.new ≡ writer.old ++ json_tokens (plain_shown form bytes.now)) }
{
    match form {
        Form::Number => write_number(writer, bytes),
        Form::Numbers => write_numbers(writer, bytes),
        Form::Bytes => write_digits(alloc, writer, bytes),
        Form::Time => write_time(alloc, writer, bytes),
        Form::Text => write_text(alloc, writer, bytes),
        Form::Characters => write_characters(alloc, writer, bytes),
        Form::Coded(coding) => write_code(writer, coding, bytes[0]),
        Form::Card => write_card(alloc, writer, bytes),
        Form::Registration => write_registration(alloc, writer, bytes),
        Form::HolderName => write_holder(alloc, writer, bytes),
        Form::Group(_) => unreachable!(),
    }
}

/// Whether bytes are all 0.
pub(crate) fn are_zeros(bytes: &[u8]) -> bool
    ensures { result ≡ are_zeros bytes.now }
{
    bytes.iter().all(|b| *b == 0)
}

/// Writes a number of one to eight bytes.
fn write_number(writer: &mut TextWriter, bytes: &[u8]) -> Result<(), AllocError>
    requires { CanShowPlain Form.Number (length bytes.now) }
    ensures { OnOk result (writer.new ≡ writer.old ++ json_tokens (plain_shown Form.Number bytes.now)) }
{
    let number = BigEndian::read_uint(bytes, bytes.len());
    writer.u64(number)?;
    Ok(())
}

/// Writes a number for each byte.
fn write_numbers(writer: &mut TextWriter, bytes: &[u8]) -> Result<(), AllocError>
    ensures { OnOk result (writer.new ≡ writer.old ++ json_tokens (array (numbers_shown bytes.now))) }
{
    writer.begin_array()?;
    for byte in bytes {
        writer.u64(*byte as u64)?;
    }
    writer.end_array()?;
    Ok(())
}

/// Writes a time, null where it is 0.
fn write_time(alloc: Global, writer: &mut TextWriter, bytes: &[u8]) -> Result<(), AllocError>
    requires { length bytes.now ≡ 4 }
    ensures { OnOk result (writer.new ≡ writer.old ++ json_tokens (or_none time_value bytes.now)) }
{
    if are_zeros(bytes) {
        writer.null()?;
        return Ok(());
    }
    let text = time_text(alloc, BigEndian::read_u32(bytes))?;
    write_latin(alloc, writer, &text)
}

/// Writes a code, and what it stands for.
fn write_code(writer: &mut TextWriter, coding: Coding, code: u8) -> Result<(), AllocError>
    ensures { OnOk result (writer.new ≡ writer.old ++ json_tokens (code_value coding code)) }
{
    writer.begin_object()?;
    writer.key("code")?;
    writer.u64(code as u64)?;
    writer.key("name")?;
    write_name(writer, coding.meaning(code))?;
    writer.end_object()?;
    Ok(())
}

/// Writes a name, null where there is none.
fn write_name(writer: &mut TextWriter, name: &str) -> Result<(), AllocError>
    ensures { OnOk result (writer.new ≡ writer.old ++ json_tokens (name_value name.now)) }
{
    if name.is_empty() {
        writer.null()?;
        return Ok(());
    }
    writer.string(name)?;
    Ok(())
}

/// Writes a code page and characters, null where all is 0.
fn write_text(alloc: Global, writer: &mut TextWriter, bytes: &[u8]) -> Result<(), AllocError>
    requires { 1 ≤ length bytes.now }
    ensures { OnOk result (writer.new ≡ writer.old ++ json_tokens (or_none text_value bytes.now)) }
{
    if are_zeros(bytes) {
        writer.null()?;
        return Ok(());
    }
    writer.begin_object()?;
    writer.key("codePage")?;
    writer.u64(bytes[0] as u64)?;
    writer.key("text")?;
    write_latin(alloc, writer, &bytes[1..])?;
    writer.end_object()?;
    Ok(())
}

/// Writes characters, null where all is 0.
fn write_characters(alloc: Global, writer: &mut TextWriter, bytes: &[u8]) -> Result<(), AllocError>
    ensures { OnOk result (writer.new ≡ writer.old ++ json_tokens (or_none text_of bytes.now)) }
{
    if are_zeros(bytes) {
        writer.null()?;
        return Ok(());
    }
    write_latin(alloc, writer, bytes)
}

/// Writes a card's number, null where all is 0.
fn write_card(alloc: Global, writer: &mut TextWriter, bytes: &[u8]) -> Result<(), AllocError>
    requires { length bytes.now ≡ 18 }
    ensures { OnOk result (writer.new ≡ writer.old ++ json_tokens (or_none card_value bytes.now)) }
{
    if are_zeros(bytes) {
        writer.null()?;
        return Ok(());
    }
    writer.begin_object()?;
    writer.key("cardType")?;
    write_code(writer, Coding::Equipment, bytes[0])?;
    writer.key("cardIssuingMemberState")?;
    write_code(writer, Coding::Nation, bytes[1])?;
    writer.key("cardNumber")?;
    write_latin(alloc, writer, &bytes[2..])?;
    writer.end_object()?;
    Ok(())
}

/// Writes a vehicle's registration, null where all is 0.
fn write_registration(
    alloc: Global,
    writer: &mut TextWriter,
    bytes: &[u8],
) -> Result<(), AllocError>
    requires { length bytes.now ≡ 15 }
    ensures { OnOk result (writer.new ≡ writer.old ++ json_tokens (or_none registration_value bytes.now)) }
{
    if are_zeros(bytes) {
        writer.null()?;
        return Ok(());
    }
    writer.begin_object()?;
    writer.key("vehicleRegistrationNation")?;
    write_code(writer, Coding::Nation, bytes[0])?;
    writer.key("vehicleRegistrationNumber")?;
    write_text(alloc, writer, &bytes[1..])?;
    writer.end_object()?;
    Ok(())
}

/// Writes a holder's names, null where all is 0.
fn write_holder(alloc: Global, writer: &mut TextWriter, bytes: &[u8]) -> Result<(), AllocError>
    requires { length bytes.now ≡ 72 }
    ensures { OnOk result (writer.new ≡ writer.old ++ json_tokens (or_none holder_value bytes.now)) }
{
    if are_zeros(bytes) {
        writer.null()?;
        return Ok(());
    }
    let (surname, first_names) = bytes.split_at(NAME);
    writer.begin_object()?;
    writer.key("holderSurname")?;
    write_text(alloc, writer, surname)?;
    writer.key("holderFirstNames")?;
    write_text(alloc, writer, first_names)?;
    writer.end_object()?;
    Ok(())
}

/// Writes a change of activity, of a unit or on a card.
///
/// # Errors
///
/// `AllocError` where memory runs out.
pub fn write_change(writer: &mut TextWriter, on_card: bool, word: u16) -> Result<(), AllocError>
    ensures { OnOk result (writer.new ≡ writer.old ++ json_tokens (change_value on_card word)) }
{
    writer.begin_object()?;
    writer.key("minute")?;
    writer.u64((word % 2048) as u64)?;
    writer.key("slot")?;
    writer.string(slot_word(word))?;
    writer.key(status_word(on_card, word))?;
    writer.boolean(word / 16384 % 2 == 1)?;
    writer.key("present")?;
    writer.boolean(word / 8192 % 2 == 0)?;
    writer.key("activity")?;
    writer.string(activity_word(word / 2048 % 4))?;
    writer.end_object()?;
    Ok(())
}

/// What an activity is called.
fn activity_word(n: u16) -> &'static str
    ensures { result.now ≡ activity_word n }
{
    match n {
        0 => "rest",
        1 => "available",
        2 => "work",
        _ => "drive",
    }
}

/// What a slot is called.
fn slot_word(word: u16) -> &'static str
    ensures { result.now ≡ slot_word word }
{
    if word / 32768 == 0 {
        "driver"
    } else {
        "codriver"
    }
}

/// What the bit behind the slot's tells, of a unit or on a card.
fn status_word(on_card: bool, word: u16) -> &'static str
    ensures { result.now ≡ status_word on_card word }
{
    if on_card { card_status(word) } else { "crew" }
}

/// CREW where the card was in, else an entry by hand.
fn card_status(word: u16) -> &'static str
    ensures { result.now ≡ card_status word }
{
    if word / 8192 % 2 == 0 {
        "crew"
    } else {
        "byHand"
    }
}

/// Writes characters, without the spaces at their end, each byte as the character of that number.
fn write_latin(alloc: Global, writer: &mut TextWriter, bytes: &[u8]) -> Result<(), AllocError>
    ensures { OnOk result (writer.new ≡ writer.old ++ json_tokens (text_of bytes.now)) }
{
    let (front, _spaces) = bytes.split_at(length_of_cut(bytes));
    let text = latin_text(alloc, front)?;
    writer.string(text.as_str())?;
    Ok(())
}

/// Bytes as text, each as the character of its number.
fn latin_text(alloc: Global, bytes: &[u8]) -> Result<String, AllocError>
    ensures { IfOk result (λ text. string_bytes text ≡ encode_utf8_all bytes.now) }
{
    let mut text = String::new(alloc);
    for byte in bytes {
        text.push(*byte as char)?;
    }
    Ok(text)
}

/// How many bytes stand before the spaces at the end.
fn length_of_cut(bytes: &[u8]) -> usize
    ensures within { result ≤ length bytes.now }
    ensures cut { take result bytes.now ≡ cut bytes.now }
{
    let mut end = 0;
    for (i, byte) in bytes.iter().enumerate() {
        end = end_after(end, i, *byte);
    }
    end
}

/// Where the front ends with the byte at an index: behind it, but as before where it is a space.
fn end_after(end: usize, i: usize, byte: u8) -> usize
    requires { i < usize.MAX }
    ensures { result ≡ (if byte == 32 then end else i + 1) }
{
    if byte == b' ' { end } else { i + 1 }
}

/// Writes bytes as a string of digits.
///
/// # Errors
///
/// `AllocError` where memory runs out.
pub fn write_digits(alloc: Global, writer: &mut TextWriter, bytes: &[u8]) -> Result<(), AllocError>
    ensures { OnOk result (writer.new ≡ writer.old ++ json_tokens (string (encode_lower bytes.now))) }
{
    let digits = hex::encode(alloc, bytes)?;
    writer.string(digits.as_str())?;
    Ok(())
}
