//! The commands `card a` and `card b`: a card is read by its commands, and its card file is written to the sink.
ghost use Rattle.std.specs.Prelude.{◌≡◌};
ghost use Rattle.tacho.specs.CardFile.{end_of_card};

use crate::end::Fault;
use card_download::CardFileFault;
use run_model::Device;

/// The end by what the writing of the card file of this device answers.
pub fn card_end(device: Device, done: Result<(), CardFileFault>) -> Fault
    ensures { result ≡ end_of_card device done }
{
    match done {
        Ok(()) => Fault::Done,
        Err(CardFileFault::Failed) => Fault::MediumFault(device),
        Err(CardFileFault::WriteFault) => Fault::WriteFault,
        Err(CardFileFault::BadApplication(field)) => Fault::BadCard(field),
    }
}
