//! Bytes as hexadecimal digits: of one byte, and as a line.
ghost use Rattle.std.specs.Prelude.{◌≡◌, ◌≤◌, ◌++◌, ◌∷◌, [], length};
ghost use Rattle.hex.specs.Hex.{encode_lower};

use arrayvec::ArrayVec;

/// The two hexadecimal digits of a byte, in lower case.
pub fn byte_digits(byte: u8) -> [u8; 2]
    ensures { result ≡ encode_lower (byte ∷ []) }
{
    let mut digits = [0u8; 2];
    let _ = hex::encode_to_slice(&[byte], &mut digits);
    digits
}

/// The most bytes of a line that is written.
pub const MOST: usize = 260;

/// The line of these bytes: two digits each, in lower case, and LF.
pub fn write_line(bytes: &[u8]) -> ArrayVec<u8, 521>
    requires { length bytes.now ≤ MOST }
    ensures { result.items ≡ encode_lower bytes.now ++ 10 ∷ [] }
{
    let mut room = [0u8; 520];
    let digits = &mut room[..2 * bytes.len()];
    let _ = hex::encode_to_slice(bytes, digits);
    let mut line = ArrayVec::new();
    let _ = line.try_extend_from_slice(digits);
    line.push(b'\n');
    line
}
