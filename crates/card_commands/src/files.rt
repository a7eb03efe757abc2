//! The files that a command finds.
ghost use Rattle.std.specs.Prelude.{◌≡◌, ◌≤◌, ◌||◌, ◌&&◌, ◌==◌, nat_le, is_some, false, None, IfSome};
ghost use Rattle.card_layout.specs.Application.{application_of};
ghost use Rattle.card_layout.specs.Files.{is_updated};
ghost use Rattle.card_layout.specs.Outcomes.{is_under, is_fixed, sized_file, file_of};
ghost use Rattle.card_commands.specs.Performing.{IsFile};

use card_files::{file_range, read_application};
use card_layout::{APPLICATION_RANGE, Directory, ElementaryFile, Fid, Range};

/// Whether a file stands in a directory: ICC and IC in the master file, all the others in DF Tachograph.
pub fn is_under(directory: Directory, fid: Fid) -> bool
    ensures { result ≡ is_under directory fid }
{
    let in_master = fid == Fid::ICC || fid == Fid::IC;
    match directory {
        Directory::Master => in_master,
        Directory::Tachograph => !in_master,
    }
}

/// One of the three files whose places no sizes move: ICC, IC and Application_Identification.
pub fn fixed_file(fid: Fid) -> Option<ElementaryFile>
    ensures value { result ≡ file_of None fid }
    ensures variant { is_some result ≡ is_fixed fid }
    ensures inside { IfSome result IsFile }
{
    let range = match fid {
        Fid::ICC => Range { base: 0, len: 25 },
        Fid::IC => Range { base: 25, len: 8 },
        Fid::APPLICATION => APPLICATION_RANGE,
        _ => return None,
    };
    Some(ElementaryFile {
        fid,
        range,
        updated: false,
    })
}

/// A file by the sizes in these bytes of Application_Identification. There is none where one of its fields is out of
/// its range.
#[tactic(auto, unfolding(card_layout::specs::Files::files_of))]
pub fn sized_file(application: &[u8; 10], fid: Fid) -> Option<ElementaryFile>
    requires { is_fixed fid ≡ false }
    ensures value { result ≡ sized_file application.now fid }
    ensures inside { IfSome result IsFile }
{
    let app = read_application(application).ok()?;
    let range = file_range(&app, fid)?;
    Some(ElementaryFile {
        fid,
        range,
        updated: is_updated(fid),
    })
}

/// Whether the unit updates a file.
fn is_updated(fid: Fid) -> bool
    ensures { result ≡ (nat_le 0x0502 fid.0 && nat_le fid.0 0x0507) }
{
    (Fid::EVENTS.0..=Fid::CURRENT_USE.0).contains(&fid.0)
}
