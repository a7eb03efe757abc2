//! The card file of a card that is reached by its commands.
ghost use Rattle.std.specs.Prelude.{◌≡◌, ◌≤◌, IfSome, IsErrAnd, IfErr};
ghost use Rattle.tach_media.specs.Medium.{Reads, Rose};
ghost use Rattle.card_download.specs.Faults.{has_failed};
ghost use Rattle.card_download.specs.Written.{Writes, IsWriteFault, IsBad};

use crate::fault::CardFileFault;
use crate::files::copy_files;
use card_commands::{Port, read_sizes};
use card_layout::LARGEST_IMAGE;
use tach_media::{Chip, Sink};

/// Reads a card by its commands, and writes its card file to a sink (Appendix 7, 3.4): all files but Card_Download, in
/// their order, with no signature (the order, and that there is none: profile). The card is read, and never written.
///
/// # Errors
///
/// `BadApplication` exactly where a field of Application_Identification is out of its range, with the number of the
/// first; nothing was written then. `Failed` only where a call on the card failed, and `WriteFault` only where the sink
/// failed, after a front of the card file.
pub fn write_card_file<C: Chip, K: Sink>(card: &mut C, sink: &mut K) -> Result<(), CardFileFault>
    requires { LARGEST_IMAGE ≤ (C.state card.old).size }
    ensures writes { IfSome (C.state card.old).image (λ x. Writes result x (K.held sink.old) (K.held sink.new)) }
    // Where a field is named, the sink was not called.
    ensures untouched { IsBad result → sink.new ≡ sink.old }
    ensures cause { IsWriteFault result → Rose (K.faults sink.old) (K.faults sink.new) }
    ensures counts { K.faults sink.old ≤ K.faults sink.new }
    ensures card { Reads (C.state card.old) (C.state card.new) (has_failed result) }
{
    let app = read_sizes(&mut *card)?;
    let mut port = Port::new(&mut *card, app);
    Ok(copy_files(&app, &mut port, sink)?)
}
