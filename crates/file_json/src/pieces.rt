//! The text of a file in pieces, each of which is made by itself: so a text is never in memory as a whole.
ghost use Rattle.std.specs.Prelude.{◌≡◌, ◌≢◌, ◌+◌, ◌-◌, ◌≤◌, ◌<◌, ◌^◌, ◌++◌, ◌∷◌, [], ◌==◌, ◌&&◌, not, true};
ghost use Rattle.std.specs.Prelude.{if◌then◌else◌, ℕ, List, All, IfOk, IfErr, OnOk, length};
ghost use Rattle.card_image.specs.CardFile.{FileEntry};
ghost use Rattle.file_view.specs.CardFiles.{IsBadCardFile};
ghost use Rattle.file_view.specs.Faults.{IfBadFile};
ghost use Rattle.file_view.specs.UnitFiles.{IsBadUnitFile};
ghost use Rattle.message_model.specs.Messages.{Message as FileMessage, IsUnitFile};
ghost use Rattle.file_view.specs.Files.{AreFiles};
ghost use Rattle.file_view.specs.Places.{ArePlaced};
ghost use Rattle.file_json.specs.Cards.{IsCardJson, json_of_card};
ghost use Rattle.file_json.specs.Pieces.{IsPiece, asks_day, day_in, days_asked, item_pieces, piece_text, pieces_text};
ghost use Rattle.file_json.specs.Units.{IsUnitJson};
ghost use Rattle.json.specs.Print.{print};
ghost use Rattle.json.specs.Tree.{json_tokens};

use crate::card::file_text;
use crate::days::first_of;
use crate::unit::message_text;
use card_layout::FILE_HEAD;
use file_view::{MessageAt, ViewFault, file_len, messages_at, part, read_card_file};
use std::alloc::{AllocError, Global};
use unit_messages::Request;

/// A piece of the text of a file.
#[derive(Clone, Copy, Debug, PartialEq, Eq)]
pub enum Piece {
    /// What stands in front of the messages of a unit.
    UnitBegin,
    /// What stands in front of the files of a card.
    CardBegin,
    /// The message that stands there.
    Message {
        place: usize,
        len: usize,
    },
    /// The file of a card that stands there, with its head; of the string of days all records, or the newest so many.
    File {
        place: usize,
        len: usize,
        last: Option<u32>,
    },
    Comma,
    /// What stands behind them all, with LF.
    End,
}

/// The pieces of the JSON of a unit file, of all its days or of the last so many.
///
/// # Errors
///
/// As those of `file_view::read_download`.
pub fn unit_pieces(alloc: Global, last: Option<u32>, b: &[u8]) -> Result<Vec<Piece>, ViewFault>
    requires { length b.now < 2 ^ 32 }
    ensures text { IfOk result (λ pieces. IsUnitJson last b.now (pieces_text b.now pieces.items)) }
    ensures each { IfOk result (λ pieces. All (IsPiece b.now) pieces.items) }
    ensures bad { IfErr result (λ fault. IfBadFile fault (λ place. IsBadUnitFile place b.now)) }
{
    let all = messages_at(alloc, b)?;
    let pieces = pieces_of_messages(alloc, last, b, all.as_slice())?;
    Ok(pieces)
}

/// Those of messages, one after the other, without those of days before the last so many.
fn pieces_of_messages(
    alloc: Global,
    last: Option<u32>,
    b: &[u8],
    all: &[MessageAt],
) -> Result<Vec<Piece>, AllocError>
    requires { (messages : List FileMessage) × IsUnitFile messages b.now × ArePlaced b.now all.now messages }
    ensures text { IfOk result (λ pieces. IsUnitJson last b.now (pieces_text b.now pieces.items)) }
    ensures each { IfOk result (λ pieces. All (IsPiece b.now) pieces.items) }
{
    let days = count_days(all);
    let mut skip = first_of(days, last);
    let mut pieces = begun(alloc, Piece::UnitBegin)?;
    let mut rest = b;
    let mut place = 0;
    let mut after = false;
    for at in all {
        let (_message, behind) = rest.split_at(at.len);
        let message = Piece::Message { place, len: at.len };
        let out = is_left_out(skip, at.request);
        add_unless(&mut pieces, out, after, message)?;
        after = after_one(after, out);
        skip = skip_behind(skip, out);
        rest = behind;
        place += at.len;
    }
    pieces.push(Piece::End)?;
    Ok(pieces)
}

/// How many of these messages are of days.
fn count_days(all: &[MessageAt]) -> usize
    ensures { result ≡ days_asked all.now }
{
    let mut days = 0;
    for at in all {
        let day = day_in(at.request);
        days += day;
    }
    days
}

/// One where a message that answers this is of a day.
fn day_in(request: Request) -> usize
    ensures { result ≡ day_in request }
{
    if is_day(request) { 1 } else { 0 }
}

/// Whether it is.
fn is_day(request: Request) -> bool
    ensures { result ≡ asks_day request }
{
    match request {
        Request::Overview => false,
        Request::Day(_) => true,
        Request::Events => false,
        Request::Speed => false,
        Request::Technical => false,
    }
}

/// Whether a message is left out where so many of days are.
fn is_left_out(skip: usize, request: Request) -> bool
    ensures { result ≡ not (skip == 0) && asks_day request }
{
    skip != 0 && is_day(request)
}

/// How many are left out behind one.
fn skip_behind(skip: usize, out: bool) -> usize
    ensures { result ≡ (if out then skip - 1 else skip) }
{
    if out { skip.saturating_sub(1) } else { skip }
}

/// Whether one stands in front behind one.
fn after_one(after: bool, out: bool) -> bool
    ensures { result ≡ (if out then after else true) }
{
    if out { after } else { true }
}

/// The pieces of the JSON of a card file, of all its days or of the newest so many.
///
/// # Errors
///
/// As those of `file_view::read_card_file`.
pub fn card_pieces(alloc: Global, last: Option<u32>, b: &[u8]) -> Result<Vec<Piece>, ViewFault>
    requires { length b.now < 2 ^ 32 }
    ensures text { IfOk result (λ pieces. IsCardJson last b.now (pieces_text b.now pieces.items)) }
    ensures each { IfOk result (λ pieces. All (IsPiece b.now) pieces.items) }
    ensures bad { IfErr result (λ fault. IfBadFile fault (λ place. IsBadCardFile place b.now)) }
{
    let _history = read_card_file(alloc, b)?;
    let pieces = pieces_of_files(alloc, last, b)?;
    Ok(pieces)
}

/// Those of the files of a card, one after the other.
fn pieces_of_files(alloc: Global, last: Option<u32>, b: &[u8]) -> Result<Vec<Piece>, AllocError>
    requires { (entries : List FileEntry) × AreFiles entries b.now }
    ensures text { (entries : List FileEntry) → AreFiles entries b.now → IfOk result (λ pieces.
        pieces_text b.now pieces.items ≡ print (json_tokens (json_of_card last entries)) ++ 10 ∷ []) }
    ensures each { IfOk result (λ pieces. All (IsPiece b.now) pieces.items) }
{
    let mut pieces = begun(alloc, Piece::CardBegin)?;
    let mut rest = b;
    let mut place = 0;
    let mut after = false;
    while rest.len() != 0 {
        let len = FILE_HEAD + file_len(rest);
        let (_file, behind) = rest.split_at(len);
        let file = Piece::File { place, len, last };
        add_item(&mut pieces, after, file)?;
        after = true;
        rest = behind;
        place += len;
    }
    pieces.push(Piece::End)?;
    Ok(pieces)
}

/// One piece.
fn begun(alloc: Global, piece: Piece) -> Result<Vec<Piece>, AllocError>
    ensures { IfOk result (λ pieces. pieces.items ≡ piece ∷ []) }
{
    let mut pieces = Vec::new(alloc);
    pieces.push(piece)?;
    Ok(pieces)
}

/// Adds a message as below, unless it is left out.
fn add_unless(
    pieces: &mut Vec<Piece>,
    out: bool,
    after: bool,
    piece: Piece,
) -> Result<(), AllocError>
    ensures { OnOk result (pieces.new.items
        ≡ (if out then pieces.old.items else pieces.old.items ++ item_pieces after piece)) }
{
    if out {
        return Ok(());
    }
    add_item(pieces, after, piece)
}

/// Adds a message or a file, with a comma in front of it where another one stands there.
fn add_item(pieces: &mut Vec<Piece>, after: bool, piece: Piece) -> Result<(), AllocError>
    ensures { OnOk result (pieces.new.items ≡ pieces.old.items ++ item_pieces after piece) }
{
    if after {
        pieces.push(Piece::Comma)?;
    }
    pieces.push(piece)?;
    Ok(())
}

/// The text of a piece.
///
/// # Errors
///
/// `AllocError` where memory runs out.
pub fn piece_text(alloc: Global, b: &[u8], piece: Piece) -> Result<Vec<u8>, AllocError>
    requires { IsPiece b.now piece }
    ensures { IfOk result (λ text. text.items ≡ piece_text b.now piece) }
{
    match piece {
        Piece::UnitBegin => bytes_of(alloc, b"{\"file\":\"unit\",\"messages\":["),
        Piece::CardBegin => bytes_of(alloc, b"{\"file\":\"card\",\"files\":["),
        Piece::Message { place, len } => message_text(alloc, place, part(b, place, len)),
        Piece::File { place, len, last } => file_text(alloc, last, place, part(b, place, len)),
        Piece::Comma => bytes_of(alloc, b","),
        Piece::End => bytes_of(alloc, b"]}\n"),
    }
}

/// The same bytes.
fn bytes_of(alloc: Global, bytes: &[u8]) -> Result<Vec<u8>, AllocError>
    ensures { IfOk result (λ text. text.items ≡ bytes.now) }
{
    let mut text = Vec::new(alloc);
    text.extend_from_slice(bytes)?;
    Ok(text)
}
