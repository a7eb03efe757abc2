//! Bytes of a device as text that stands on a line.
ghost use Rattle.std.specs.Prelude.{◌≡◌, ◌==◌, ◌+◌, ◌≤◌, ◌<◌, ◌++◌, if◌then◌else◌, OnOk, length, take};
ghost use Rattle.std.specs.List.{flat_map};
ghost use Rattle.state_text.specs.Shown.{cut, is_plain, two_hex, byte_text, shown};

use std::alloc::AllocError;
use text_fields::byte_digits;

/// Adds bytes as text: without the spaces at their end, and what is no printable character of ASCII as `\x` and two
/// digits.
pub(crate) fn write_shown(text: &mut Vec<u8>, bytes: &[u8]) -> Result<(), AllocError>
    ensures { OnOk result (text.new.items ≡ text.old.items ++ shown bytes.now) }
{
    let (front, _spaces) = bytes.split_at(length_of_cut(bytes));
    write_bytes(text, front)
}

/// Adds bytes, each as it is or as `\x` and two digits.
fn write_bytes(text: &mut Vec<u8>, bytes: &[u8]) -> Result<(), AllocError>
    ensures { OnOk result (text.new.items ≡ text.old.items ++ flat_map byte_text bytes.now) }
{
    for byte in bytes {
        write_byte(text, *byte)?;
    }
    Ok(())
}

/// How many bytes stand before the spaces at the end.
fn length_of_cut(bytes: &[u8]) -> usize
    ensures within { result ≤ length bytes.now }
    ensures cut { take result bytes.now ≡ cut bytes.now }
{
    let mut end = 0;
    for (i, byte) in bytes.iter().enumerate() {
        end = end_after(end, i, *byte);
    }
    end
}

/// Where the front ends with the byte at an index: behind it, but as before where it is a space.
fn end_after(end: usize, i: usize, byte: u8) -> usize
    requires { i < usize.MAX }
    ensures { result ≡ (if byte == 32 then end else i + 1) }
{
    if byte == b' ' { end } else { i + 1 }
}

/// Adds a byte: as it is, or as `\x` and two digits.
fn write_byte(text: &mut Vec<u8>, byte: u8) -> Result<(), AllocError>
    ensures { OnOk result (text.new.items ≡ text.old.items ++ byte_text byte) }
{
    if is_plain(byte) {
        text.push(byte)?;
        return Ok(());
    }
    text.extend_from_slice(b"\\x")?;
    write_two_hex(text, byte)?;
    Ok(())
}

/// Whether a byte stands as it is: a printable character of ASCII, but no `\`.
fn is_plain(byte: u8) -> bool
    ensures { result ≡ is_plain byte }
{
    byte >= 0x20 && byte <= 0x7E && byte != b'\\'
}

/// Adds a byte as two hexadecimal digits, in lower case.
pub(crate) fn write_two_hex(text: &mut Vec<u8>, byte: u8) -> Result<(), AllocError>
    ensures { OnOk result (text.new.items ≡ text.old.items ++ two_hex byte) }
{
    text.extend_from_slice(&byte_digits(byte))?;
    Ok(())
}
