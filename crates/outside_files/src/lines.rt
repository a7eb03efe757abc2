//! Lines of a text that comes in pieces.
ghost use Rattle.std.specs.Prelude.{◌≡◌};
ghost use Rattle.outside_files.specs.Lines.{lines_begun, begins_behind};

/// How many lines begin in a piece of a text; `begins` says whether its first byte begins one.
pub fn lines_begun(piece: &[u8], begins: bool) -> usize
    ensures { result ≡ lines_begun begins piece.now }
{
    let mut begins = begins;
    let mut count = 0;
    for byte in piece {
        if begins {
            count += 1;
        }
        begins = *byte == b'\n';
    }
    count
}

/// Whether the byte behind a piece begins a line.
pub fn begins_behind(piece: &[u8], begins: bool) -> bool
    ensures { result ≡ begins_behind begins piece.now }
{
    match piece.last() {
        None => begins,
        Some(byte) => *byte == b'\n',
    }
}
