//! A unit downloaded into memory, for the length of its file and its messages of a day.
ghost use Rattle.std.specs.Prelude.{◌≡◌, ◌≤◌, [], Some, IfOk, IfErr, IfSome, IsErrOf};
ghost use Rattle.unit_model.specs.Image.{IsUnit};
ghost use Rattle.unit_model.specs.Decoding.{first_bad_place};
ghost use Rattle.unit_minutes.specs.Reading.{ReadsIfAny};
ghost use Rattle.unit_messages.specs.declared.joining.TheConstants.{LONGEST};
ghost use Rattle.link_loader.specs.Loading.{begun};
ghost use Rattle.unit_download.specs.declared.fault.DownloadFault.{DownloadFault};
ghost use Rattle.unit_download.specs.Ending.{IfBad, has_failed};
ghost use Rattle.unit_download.specs.Measures.{IsSizeOf};

use crate::counting::day_count;
use crate::{DownloadFault, Unlisted, exchange_all};
use link_loader::Downloader;
use tach_media::{Medium, MemSink};

/// The size of a unit's file.
#[derive(Clone, Copy, Debug, PartialEq, Eq)]
pub struct FileSize {
    /// How many bytes it has.
    pub bytes: usize,
    /// How many of its messages are of a day.
    pub days: usize,
}

/// Downloads a unit into a file in memory, and measures it. The unit is read, and never written; no memory is taken.
///
/// # Errors
///
/// Those of `exchange_all`: `WriteFault` where the file has no room left, or one of its calls is to fail.
pub fn measure<U: Medium>(
    loader: &mut Downloader,
    file: &mut MemSink,
    unit: &mut U,
) -> Result<FileSize, DownloadFault>
    requires unit { IsUnit (U.state unit.old) }
    requires begun { loader.old.loading ≡ begun }
    requires room { LONGEST ≤ loader.old.room }
    requires empty { file.old.held ≡ [] }
    ensures measured { IfOk result (λ m. IfSome (U.state unit.old).image (λ x. IsSizeOf x m)) }
    // No unit that tells its image gives no answer, or one that the loader refuses.
    ensures changed { IsErrOf result DownloadFault.Changed → IfSome (U.state unit.old).image (λ x. ⊥) }
    ensures bad { IfErr result (λ fault. IfBad fault (λ p. IfSome (U.state unit.old).image
        (λ x. first_bad_place x ≡ Some p))) }
    ensures unit { ReadsIfAny (U.state unit.old) (U.state unit.new) (has_failed result) }
{
    U::holds_bytes(unit);
    let mut tape = Unlisted::new();
    exchange_all(loader, file, unit, &mut tape)?;
    let bytes = file.held();
    Ok(FileSize {
        bytes: bytes.len(),
        days: day_count(bytes),
    })
}
