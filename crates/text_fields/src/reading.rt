//! The bytes that a line of hexadecimal digits spells.
ghost use Rattle.std.specs.Prelude.{◌≡◌, ◌<◌, ◌≤◌, Some, None, IfSome, IfNone, IfOk, IfErr, Err, length};
ghost use Rattle.hex.specs.Hex.{hex_digit_value};
ghost use Rattle.text_fields.specs.Lines.{behind_byte, byte_of, in_front, line_bytes, IsFaultOf};

use std::alloc::Global;

/// Why a line was not read.
#[derive(Clone, Copy, Debug, PartialEq, Eq)]
pub enum LineFault {
    /// It spells no bytes.
    Bad,
    Memory,
}

/// The bytes that a line spells: two digits each, of either case; a single space may stand between two bytes.
///
/// # Errors
///
/// `Bad` only where the line spells none, and `Memory`.
pub fn read_line(alloc: Global, line: &[u8]) -> Result<Vec<u8>, LineFault>
    ensures bytes { IfOk result (λ bytes. line_bytes line.now ≡ Some bytes.items) }
    ensures bad { IfErr result (IsFaultOf line.now) }
{
    let mut bytes = Vec::new(alloc);
    let mut rest = line;
    while !rest.is_empty() {
        let Some((byte, behind)) = first_byte(rest) else {
            return Err(LineFault::Bad);
        };
        if bytes.push(byte).is_err() {
            return Err(LineFault::Memory);
        }
        rest = behind;
    }
    Ok(bytes)
}

/// The first byte, and what stands behind it and a space.
fn first_byte(text: &[u8]) -> Option<(u8, &[u8])>
    requires some { 0 < length text.now }
    ensures found { IfSome result (λ first. line_bytes text.now ≡ in_front (Some first.0) (line_bytes first.1.now)) }
    ensures shorter { IfSome result (λ first. length first.1.now < length text.now) }
    ensures none { IfNone result (line_bytes text.now ≡ None) }
{
    if text.len() < 2 {
        return None;
    }
    let byte = byte_of(text[0], text[1])?;
    let behind = behind_space(&text[2..])?;
    Some((byte, behind))
}

/// What stands behind a space, where there is one and something behind it; all where there is no space.
fn behind_space(text: &[u8]) -> Option<&[u8]>
    ensures found { IfSome result (λ rest. behind_byte text.now ≡ line_bytes rest.now) }
    ensures shorter { IfSome result (λ rest. length rest.now ≤ length text.now) }
    ensures none { IfNone result (behind_byte text.now ≡ None) }
{
    if text.is_empty() || text[0] != b' ' {
        return Some(text);
    }
    if text.len() < 2 {
        return None;
    }
    Some(&text[1..])
}

/// The byte that two digits spell.
fn byte_of(high: u8, low: u8) -> Option<u8>
    ensures { result ≡ byte_of high low }
{
    let high = digit(high)?;
    let low = digit(low)?;
    Some(16 * high + low)
}

/// The value of a digit.
fn digit(c: u8) -> Option<u8>
    ensures value { result ≡ hex_digit_value c }
    ensures small { IfSome result (λ value. value < 16) }
{
    if 65 <= c && c <= 70 {
        return Some(c - 55);
    }
    if 97 <= c && c <= 102 {
        return Some(c - 87);
    }
    if 48 <= c && c <= 57 {
        return Some(c - 48);
    }
    None
}
