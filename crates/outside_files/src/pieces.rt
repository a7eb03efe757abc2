//! Places in a whole of several pieces.
ghost use Rattle.std.specs.Prelude.{◌≡◌, [], IfSome, IfNone};
ghost use Rattle.outside_files.specs.Pieces.{LiesAt};

/// In which piece of a whole a place lies, by the sizes of the pieces, and the place in that piece. What lies at the end
/// of the whole, or behind it, lies in the last piece, at its end or behind it.
pub fn piece_at(sizes: &[u64], place: u64) -> Option<(usize, u64)>
    ensures found { IfSome result (λ found. LiesAt sizes.now place found.0 found.1) }
    ensures none { IfNone result (sizes.now ≡ []) }
{
    let mut rest = place;
    for (i, size) in sizes.iter().enumerate() {
        if rest < *size || i + 1 == sizes.len() {
            return Some((i, rest));
        }
        rest -= *size;
    }
    None
}
