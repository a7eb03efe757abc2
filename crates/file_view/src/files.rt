//! The files of a card file, one after the other (Annex IB, Appendix 7, 3.4).
ghost use Rattle.std.specs.Prelude.{◌≡◌, ◌+◌, ◌≤◌, length, take, drop};
ghost use Rattle.byteorder.specs.Endian.{big_number};

use byteorder::{BigEndian, ByteOrder};
use card_layout::FILE_HEAD;

/// The length that the file at the front tells.
pub fn file_len(rest: &[u8]) -> usize
    requires { 5 ≤ length rest.now }
    ensures { result ≡ big_number 2 (drop 3 rest.now) }
{
    BigEndian::read_u16(&rest[3..]) as usize
}

/// What the file at the front holds, of so many bytes.
pub fn file_value(rest: &[u8], len: usize) -> &[u8]
    requires { 5 + len ≤ length rest.now }
    ensures { result.now ≡ take len (drop 5 rest.now) }
{
    &rest[FILE_HEAD..][..len]
}

/// What stands behind it.
pub fn file_behind(rest: &[u8], len: usize) -> &[u8]
    requires { 5 + len ≤ length rest.now }
    ensures { result.now ≡ drop len (drop 5 rest.now) }
{
    &rest[FILE_HEAD..][len..]
}
