//! A whole source read, and bytes written whole.
ghost use Rattle.std.specs.Prelude.{◌≡◌, ◌≤◌, ◌<◌, ◌↔◌, ◌^◌, IfOk, OnOk, OnErr, IsErrOf, vec_len};
ghost use Rattle.std.specs.Io.KnownBytes.{Appends, Consumes, IsAtEnd};
ghost use Rattle.tach_media.specs.Medium.{Rose};
ghost use Rattle.tach_media.specs.Streams.{CountsFaults, IsLongerThan, AppendsFront, Came};

use crate::{Failed, Sink, Source};
use std::alloc::Global;

/// Why a source was not read to its end.
#[derive(Clone, Copy, Debug, PartialEq, Eq)]
pub enum TakeFault {
    /// A read failed.
    ReadFault,
    /// More bytes came than were to be taken.
    TooLong,
    /// Memory ran out.
    Memory,
}

/// Reads a source to its end, of at most `most` bytes.
///
/// # Errors
///
/// 1. `ReadFault` where a read failed.
/// 2. `TooLong` exactly where more than `most` bytes came.
/// 3. `Memory` where memory ran out.
pub fn take_all<S: Source>(alloc: Global, source: &mut S, most: u32) -> Result<Vec<u8>, TakeFault>
    ensures bytes { IfOk result (λ bytes. Consumes (S.left source.old) (S.left source.new) bytes.items) }
    ensures end { OnOk result (IsAtEnd (S.left source.new)) }
    ensures few { IfOk result (λ bytes. vec_len bytes ≤ most) }

    ensures read_fault { IsErrOf result TakeFault.ReadFault → Rose (S.faults source.old) (S.faults source.new) }
    ensures too_long { IsErrOf result TakeFault.TooLong → IsLongerThan most (S.left source.old) }
    ensures exactly { OnErr result (Came (S.left source.old) (S.left source.new)
        (λ n. (IsErrOf result TakeFault.TooLong) ↔ (most < n))) }
    ensures later { S.faults source.old ≤ S.faults source.new }
{
    let mut bytes = Vec::new(alloc);
    let mut block = [0u8; 4096];
    for _turn in 0..most as u64 + 1 {
        let Ok(count) = source.read(&mut block) else {
            return Err(TakeFault::ReadFault);
        };
        if count == 0 {
            return Ok(bytes);
        }
        if count > most as usize - bytes.len() {
            return Err(TakeFault::TooLong);
        }
        if bytes.extend_from_slice(&block[..count]).is_err() {
            return Err(TakeFault::Memory);
        }
    }
    unreachable!()
}

/// Writes all of the bytes.
///
/// # Errors
///
/// `Failed` where a write failed; a front of the bytes was written then.
pub fn put_all<K: Sink>(sink: &mut K, bytes: &[u8]) -> Result<(), Failed>
    ensures ok { OnOk result (Appends (K.held sink.old) (K.held sink.new) bytes.now) }
    ensures err { OnErr result (AppendsFront (K.held sink.old) (K.held sink.new) bytes.now) }
    ensures cause { CountsFaults (K.faults sink.old) (K.faults sink.new) result }
{
    let mut done = 0usize;
    while done < bytes.len() {
        done += sink.write(&bytes[done..])?;
    }
    Ok(())
}
