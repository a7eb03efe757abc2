//! The commands `serve card a` and `serve card b`: the card answers the commands that come as packets.
ghost use Rattle.std.specs.Prelude.{◌≡◌};
ghost use Rattle.tacho.specs.ServingCard.{end_of_slot};

use crate::end::Fault;
use card_service::CardFault;
use run_model::Device;

/// The end by what the service of this device answers.
pub fn slot_end(device: Device, done: Result<(), CardFault>) -> Fault
    ensures { result ≡ end_of_slot device done }
{
    match done {
        Ok(()) => Fault::Done,
        Err(CardFault::ReadFault) => Fault::ReadFault,
        Err(CardFault::WriteFault) => Fault::WriteFault,
        Err(CardFault::Failed) => Fault::MediumFault(device),
        Err(CardFault::Cut) => Fault::LinkEnded,
        Err(CardFault::TooLong) => Fault::TooLong(0),
    }
}
