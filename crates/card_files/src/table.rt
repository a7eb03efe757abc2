//! The table of a card's files.
ghost use Rattle.std.specs.Prelude.{◌≡◌, ◌≢◌, ◌↔◌, ◌+◌, ◌^◌, ◌<◌, ◌≤◌, IsTrue, IsSome, IfSome, Some};
ghost use Rattle.card_layout.specs.declared.files.Fid.{Fid};
ghost use Rattle.card_layout.specs.declared.files.Range.{Range};
ghost use Rattle.card_layout.specs.Files as spec;
ghost use Rattle.card_layout.specs.Application.{IsApplication};
ghost use Rattle.card_layout.specs.Files.{files_of, range_from, total_size, range_of, place_of, size_of, image_size_of};
ghost use Rattle.card_layout.specs.Files.{is_listed, AreApart};

use card_layout::{Application, CardFile, Fid, Range};

/// The files in their order, with their sizes in bytes.
#[tactic(auto, unfolding(card_layout::specs::Files::files_of))]
pub fn files(app: &Application) -> [CardFile; 16]
    ensures table { result ≡ files_of app.now }
    ensures small { image_size_of app.now < 2 ^ 22 }
{
    [
        kept(Fid::ICC, 25),
        kept(Fid::IC, 8),
        kept(Fid::APPLICATION, 10),
        updated(Fid::EVENTS, 6 * u32::from(app.events) * 24),
        updated(Fid::FAULTS, 2 * u32::from(app.faults) * 24),
        updated(Fid::ACTIVITY, 4 + u32::from(app.activity)),
        updated(Fid::VEHICLES, 2 + 31 * u32::from(app.vehicles)),
        updated(Fid::PLACES, 1 + 10 * u32::from(app.places)),
        updated(Fid::CURRENT_USE, 19),
        kept(Fid::CONTROL, 46),
        kept(Fid::DOWNLOAD, 4),
        kept(Fid::IDENTIFICATION, 143),
        kept(Fid::LICENCE, 53),
        kept(Fid::CONDITIONS, 280),
        kept(Fid::CARD_CERTIFICATE, 194),
        kept(Fid::CA_CERTIFICATE, 194),
    ]
}

/// A file that stays as the card's maker wrote it.
fn kept(fid: Fid, size: u32) -> CardFile
    ensures { result ≡ spec.kept fid.0 size }
{
    CardFile {
        fid,
        size,
        updated: false,
    }
}

/// A file that the unit updates.
fn updated(fid: Fid, size: u32) -> CardFile
    ensures { result ≡ spec.updated fid.0 size }
{
    CardFile {
        fid,
        size,
        updated: true,
    }
}

/// The range of a file in the flat image; `None` exactly for an identifier that is not in the table. The ranges of
/// two files do not overlap.
pub fn file_range(app: &Application, fid: Fid) -> Option<Range>
    ensures value { result ≡ range_of app.now fid }
    ensures listed { IsSome result ↔ IsTrue (is_listed (files_of app.now) fid) }
    ensures inside { IfSome result (λ r. r.base + r.len ≤ image_size_of app.now) }
    ensures apart { IfSome result (λ r. (other : Fid) (b : Range) → fid.0 ≢ other.0 → range_of app.now other ≡ Some b
        → AreApart r b) }
{
    range_in(&files(app), fid)
}

/// The range of a file, which is empty for an identifier that is not in the table.
pub fn file_of(app: &Application, fid: Fid) -> Range
    ensures base { result.base ≡ place_of app.now fid }
    ensures len { result.len ≡ size_of app.now fid }
    ensures inside { result.base + result.len ≤ image_size_of app.now }
    ensures short { IsApplication app.now → result.base + result.len < 2 ^ 16 }
{
    match file_range(app, fid) {
        Some(range) => range,
        None => Range { base: 0, len: 0 },
    }
}

/// The range of a file among files that stand one after the other.
fn range_in(files: &[CardFile], fid: Fid) -> Option<Range>
    requires { total_size files.now < 2 ^ 32 }
    ensures { result ≡ range_from 0 files.now fid }
{
    let mut base = 0;
    for file in files {
        if file.fid.0 == fid.0 {
            return Some(Range {
                base,
                len: file.size,
            });
        }
        base += file.size;
    }
    None
}

/// The size of the flat image in bytes.
pub fn image_size(app: &Application) -> u32
    ensures { result ≡ image_size_of app.now }
{
    let mut size = 0;
    for file in files(app) {
        size += file.size;
    }
    size
}
