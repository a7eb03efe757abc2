//! The file in which a place of the flat image lies.
ghost use Rattle.std.specs.Prelude.{◌≡◌, ◌+◌, ◌<◌, ◌≤◌, ◌^◌, Some};
ghost use Rattle.card_layout.specs.Files.{image_size_of, total_size};
ghost use Rattle.card_commands.specs.Ports.{file_at, file_from};

use card_files::files;
use card_layout::{Application, CardFile, ElementaryFile, Range};

/// The file in which a place of the flat image lies.
pub fn file_at(app: &Application, place: u32) -> ElementaryFile
    requires { place < image_size_of app.now }
    ensures value { file_at app.now place ≡ Some result }
    ensures before { result.range.base ≤ place }
    ensures behind { place < result.range.base + result.range.len }
    ensures inside { result.range.base + result.range.len ≤ image_size_of app.now }
{
    file_in(&files(app), place).unwrap()
}

/// The same among files that stand one after the other.
fn file_in(files: &[CardFile], place: u32) -> Option<ElementaryFile>
    requires { total_size files.now < 2 ^ 32 }
    ensures { result ≡ file_from 0 files.now place }
{
    let mut base = 0;
    for file in files {
        if place < base + file.size {
            return Some(ElementaryFile {
                fid: file.fid,
                range: Range {
                    base,
                    len: file.size,
                },
                updated: file.updated,
            });
        }
        base += file.size;
    }
    None
}
