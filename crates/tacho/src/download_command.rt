//! The command `download`: the unit's file is written.
ghost use Rattle.std.specs.Prelude.{◌≡◌};
ghost use Rattle.tacho.specs.Downloading.{end_of_download};

use crate::end::Fault;
use run_model::Device;
use unit_download::DownloadFault;

/// The end by what a download answers.
pub fn download_end(done: Result<(), DownloadFault>) -> Fault
    ensures { result ≡ end_of_download done }
{
    match done {
        Ok(()) => Fault::Done,
        Err(DownloadFault::Failed) => Fault::MediumFault(Device::Unit),
        Err(DownloadFault::BadUnit(place)) => Fault::BadUnit(place),
        Err(DownloadFault::Changed) => Fault::Changed,
        Err(DownloadFault::WriteFault) => Fault::WriteFault,
        Err(DownloadFault::Memory) => Fault::Memory,
    }
}
