//! What `show` prints: all that stands in a file, as JSON, piece by piece, so that the text is never in memory as a
//! whole.
ghost use Rattle.std.specs.Prelude.{◌≡◌, ◌≤◌, ◌<◌, ◌^◌, All, Err, IfOk, IfErr, length};
ghost use Rattle.file_json.specs.Cards.{IsCardJson};
ghost use Rattle.file_json.specs.Pieces.{IsPiece, piece_text, pieces_text};
ghost use Rattle.file_json.specs.Units.{IsUnitJson};
ghost use Rattle.file_view.specs.CardFiles.{IsBadCardFile};
ghost use Rattle.file_view.specs.UnitFiles.{IsBadUnitFile};
ghost use Rattle.tach_media.specs.Medium.{Rose};
ghost use Rattle.tacho.specs.declared.forms.Reading.TheVariants.{Show as ReadingOfShow};
ghost use Rattle.tacho.specs.Read.{EndsPut, IsUnshown};
ghost use Rattle.tacho.specs.Reports.{PrintsJson};
ghost use Rattle.tacho.specs.Show.{PutsPieces};
ghost use Rattle.tacho.specs.View.{IsBadFile};

use crate::end::Fault;
use crate::printing::print_text;
use crate::view_command::is_unit_file;
use file_json::{Piece, card_pieces, piece_text, unit_pieces};
use std::alloc::Global;
use tach_media::Sink;

/// Prints all that stands in a file, as JSON, of all its days or of the last so many.
///
/// # Errors
///
/// `BadFile` with the place where it is neither a unit file nor a card file, and nothing is printed. `Memory`, also
/// behind a front of the text, and `WriteFault` where the sink failed, behind a front of it.
pub fn put_json<K: Sink>(
    alloc: Global,
    last: Option<u32>,
    b: &[u8],
    sink: &mut K,
) -> Result<(), Fault>
    requires { length b.now < 2 ^ 32 }
    ensures ends { EndsPut (ReadingOfShow last) b.now result (K.held sink.old) (K.held sink.new) (sink.new ≡ sink.old) }
    ensures cause { result ≡ Err Fault.WriteFault → Rose (K.faults sink.old) (K.faults sink.new) }
    ensures counts { K.faults sink.old ≤ K.faults sink.new }
{
    let pieces = file_pieces(alloc, last, b)?;
    put_pieces(alloc, b, pieces.as_slice(), sink)
}

/// The pieces of the text of a file.
fn file_pieces(alloc: Global, last: Option<u32>, b: &[u8]) -> Result<Vec<Piece>, Fault>
    requires { length b.now < 2 ^ 32 }
    ensures text { IfOk result (λ pieces. PrintsJson last b.now (pieces_text b.now pieces.items)) }
    ensures each { IfOk result (λ pieces. All (IsPiece b.now) pieces.items) }
    ensures err { IfErr result (IsUnshown (λ place. IsBadFile place b.now)) }
{
    if is_unit_file(b) {
        return pieces_of_unit(alloc, last, b);
    }
    pieces_of_card(alloc, last, b)
}

/// Those of a unit file.
fn pieces_of_unit(alloc: Global, last: Option<u32>, b: &[u8]) -> Result<Vec<Piece>, Fault>
    requires { length b.now < 2 ^ 32 }
    ensures text { IfOk result (λ pieces. IsUnitJson last b.now (pieces_text b.now pieces.items)) }
    ensures each { IfOk result (λ pieces. All (IsPiece b.now) pieces.items) }
    ensures err { IfErr result (IsUnshown (λ place. IsBadUnitFile place b.now)) }
{
    Ok(unit_pieces(alloc, last, b)?)
}

/// Those of a card file.
fn pieces_of_card(alloc: Global, last: Option<u32>, b: &[u8]) -> Result<Vec<Piece>, Fault>
    requires { length b.now < 2 ^ 32 }
    ensures text { IfOk result (λ pieces. IsCardJson last b.now (pieces_text b.now pieces.items)) }
    ensures each { IfOk result (λ pieces. All (IsPiece b.now) pieces.items) }
    ensures err { IfErr result (IsUnshown (λ place. IsBadCardFile place b.now)) }
{
    Ok(card_pieces(alloc, last, b)?)
}

/// Writes pieces, one after the other.
fn put_pieces<K: Sink>(alloc: Global, b: &[u8], pieces: &[Piece], sink: &mut K) -> Result<(), Fault>
    requires { All (IsPiece b.now) pieces.now }
    ensures writes { PutsPieces (pieces_text b.now pieces.now) result (K.held sink.old) (K.held sink.new) }
    ensures cause { result ≡ Err Fault.WriteFault → Rose (K.faults sink.old) (K.faults sink.new) }
    ensures counts { K.faults sink.old ≤ K.faults sink.new }
{
    for piece in pieces {
        put_piece(alloc, b, *piece, sink)?;
    }
    Ok(())
}

/// Writes a piece.
fn put_piece<K: Sink>(alloc: Global, b: &[u8], piece: Piece, sink: &mut K) -> Result<(), Fault>
    requires { IsPiece b.now piece }
    ensures writes { PutsPieces (piece_text b.now piece) result (K.held sink.old) (K.held sink.new) }
    ensures cause { result ≡ Err Fault.WriteFault → Rose (K.faults sink.old) (K.faults sink.new) }
    ensures counts { K.faults sink.old ≤ K.faults sink.new }
{
    let text = piece_text(alloc, b, piece)?;
    print_text(text.as_slice(), sink)
}
