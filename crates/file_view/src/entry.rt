//! One entry of a card file.
ghost use Rattle.std.specs.Prelude.{◌≡◌, ◌+◌, ◌≤◌, ◌<◌, ◌^◌, length, drop, IfSome, IfNone};
ghost use Rattle.file_view.specs.CardFiles.{HasNoEntry};
ghost use Rattle.tach_media.specs.Medium.{bytes_at};
ghost use Rattle.file_view.specs.Reading.{IsEntryAt, value_at};

use byteorder::{BigEndian, ByteOrder};
use card_layout::FILE_HEAD;

/// An entry of a card file (Appendix 7, 3.4), and where its value stands.
#[derive(Clone, Copy, Debug, PartialEq, Eq)]
pub struct EntryAt {
    /// The file's identifier.
    pub fid: u16,
    /// 0 for a value, 1 for a signature.
    pub kind: u8,
    /// Where its value begins in the file.
    pub place: usize,
    /// How many bytes its value has.
    pub len: usize,
}

impl EntryAt {
    /// The entry that stands there; `None` exactly where none of the grammar does.
    pub fn read(b: &[u8], place: usize) -> Option<EntryAt>
        requires inside { place ≤ length b.now }
        requires short { length b.now < 2 ^ 32 }
        ensures some { IfSome result (IsEntryAt b.now place) }
        ensures none { IfNone result (HasNoEntry (drop place b.now)) }
    {
        let rest = &b[place..];
        if rest.len() < FILE_HEAD {
            return None;
        }
        let fid = BigEndian::read_u16(&rest[..2]);
        let kind = rest[2];
        let len = BigEndian::read_u16(&rest[3..FILE_HEAD]) as usize;
        if kind > 1 {
            return None;
        }
        let left = rest.len() - FILE_HEAD;
        if left < len {
            return None;
        }
        Some(EntryAt {
            fid,
            kind,
            place: place + FILE_HEAD,
            len,
        })
    }

    /// Its value.
    pub fn value<'a>(&self, b: &'a [u8]) -> &'a [u8]
        requires { self.now.place + self.now.len ≤ length b.now }
        ensures { result.now ≡ value_at b.now self.now }
    {
        part(b, self.place, self.len)
    }
}

/// So many bytes from a place on.
pub fn part(b: &[u8], place: usize, len: usize) -> &[u8]
    requires { place + len ≤ length b.now }
    ensures bytes { result.now ≡ bytes_at b.now place len }
    ensures len { length result.now ≡ len }
{
    &b[place..][..len]
}
