//! The entries of a card file, copied from a card's flat image to a sink.
ghost use Rattle.std.specs.Prelude.{◌≡◌, ◌≤◌, ◌<◌, ◌+◌, ◌^◌, true, length, IfSome, OnOk, OnErr, IfErr, IsErrOf};
ghost use Rattle.card_layout.specs.Application.{IsApplication};
ghost use Rattle.card_layout.specs.Files.{image_size_of};
ghost use Rattle.tach_media.specs.Medium.{Reads, Rose, bytes_at};
ghost use Rattle.card_image.specs.CardFile.{card_file};
ghost use Rattle.card_download.specs.Copied.{Copies, CountsWrites, head_bytes, file_part};
ghost use Rattle.card_download.specs.Faults.{copy_failed};
ghost use Rattle.card_download.specs.declared.files.TheConstants.{BLOCK};

use crate::fault::CopyFault;
use byteorder::{BigEndian, ByteOrder};
use card_files::{file_of, files};
use card_layout::{Application, CardFile, FILE_HEAD, Fid, Range};
use tach_media::{Medium, Sink, put_all};

/// The kind of an entry that is a file's value; 1 is that of a signature.
const VALUE: u8 = 0;

/// At most so many bytes are read at once: as many as one READ BINARY gives.
const BLOCK: u32 = 256;

/// Copies all files but Card_Download, in their order, each as an entry of a card file.
///
/// # Errors
///
/// 1. `Failed` where a call on the card failed.
/// 2. `WriteFault` where the sink failed.
pub fn copy_files<M: Medium, K: Sink>(
    app: &Application,
    medium: &mut M,
    sink: &mut K,
) -> Result<(), CopyFault>
    requires good { IsApplication app.now }
    requires size { image_size_of app.now ≤ (M.state medium.old).size }
    requires works { (M.state medium.old).works ≡ true }
    ensures copies { IfSome (M.state medium.old).image
        (λ x. Copies result (card_file app.now x) (K.held sink.old) (K.held sink.new)) }
    ensures counts { CountsWrites result (K.faults sink.old) (K.faults sink.new) }
    ensures reads { Reads (M.state medium.old) (M.state medium.new) (copy_failed result) }
{
    for file in files(app) {
        copy_file(app, file, medium, sink)?;
    }
    Ok(())
}

/// Copies one file as an entry; nothing of Card_Download, which a download itself changes.
fn copy_file<M: Medium, K: Sink>(
    app: &Application,
    file: CardFile,
    medium: &mut M,
    sink: &mut K,
) -> Result<(), CopyFault>
    requires good { IsApplication app.now }
    requires size { image_size_of app.now ≤ (M.state medium.old).size }
    requires works { (M.state medium.old).works ≡ true }
    ensures copies { IfSome (M.state medium.old).image
        (λ x. Copies result (file_part app.now x file) (K.held sink.old) (K.held sink.new)) }
    ensures counts { CountsWrites result (K.faults sink.old) (K.faults sink.new) }
    ensures reads { Reads (M.state medium.old) (M.state medium.new) (copy_failed result) }
{
    if file.fid.0 == Fid::DOWNLOAD.0 {
        return Ok(());
    }
    let range = file_of(app, file.fid);
    put(sink, &head(file.fid, range.len as u16))?;
    copy_range(range, medium, sink)
}

/// The head of an entry: the file's identifier, the kind, and how many bytes follow.
fn head(fid: Fid, len: u16) -> [u8; FILE_HEAD]
    ensures { result ≡ head_bytes fid.0 len }
{
    let mut head = [VALUE; FILE_HEAD];
    BigEndian::write_u16(&mut head[..2], fid.0);
    BigEndian::write_u16(&mut head[3..], len);
    head
}

/// Writes all of the bytes.
fn put<K: Sink>(sink: &mut K, bytes: &[u8]) -> Result<(), CopyFault>
    ensures copies { Copies result bytes.now (K.held sink.old) (K.held sink.new) }
    ensures counts { CountsWrites result (K.faults sink.old) (K.faults sink.new) }
    ensures fault { IfErr result (λ fault. fault ≡ CopyFault.WriteFault) }
{
    match put_all(sink, bytes) {
        Ok(()) => Ok(()),
        Err(_) => Err(CopyFault::WriteFault),
    }
}

/// Copies a range of the flat image, block by block.
fn copy_range<M: Medium, K: Sink>(
    range: Range,
    medium: &mut M,
    sink: &mut K,
) -> Result<(), CopyFault>
    requires inside { range.base + range.len ≤ (M.state medium.old).size }
    requires short { range.base + range.len < 2 ^ 32 }
    requires works { (M.state medium.old).works ≡ true }
    ensures copies { IfSome (M.state medium.old).image
        (λ x. Copies result (bytes_at x range.base range.len) (K.held sink.old) (K.held sink.new)) }
    ensures counts { CountsWrites result (K.faults sink.old) (K.faults sink.new) }
    ensures reads { Reads (M.state medium.old) (M.state medium.new) (copy_failed result) }
{
    let mut done = 0;
    while done < range.len {
        let len = BLOCK.min(range.len - done);
        copy_block(range.base + done, len, medium, sink)?;
        done += len;
    }
    Ok(())
}

/// Copies so many bytes from a place on, which one read gives.
fn copy_block<M: Medium, K: Sink>(
    place: u32,
    len: u32,
    medium: &mut M,
    sink: &mut K,
) -> Result<(), CopyFault>
    requires few { len ≤ BLOCK }
    requires inside { place + len ≤ (M.state medium.old).size }
    ensures copies { IfSome (M.state medium.old).image
        (λ x. Copies result (bytes_at x place len) (K.held sink.old) (K.held sink.new)) }
    ensures counts { CountsWrites result (K.faults sink.old) (K.faults sink.new) }
    ensures reads { Reads (M.state medium.old) (M.state medium.new) (copy_failed result) }
{
    let mut room = [0; BLOCK as usize];
    let block = &mut room[..len as usize];
    if medium.read_at(place, block).is_err() {
        return Err(CopyFault::Failed);
    }
    put(sink, block)
}
