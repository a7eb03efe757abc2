//! The commands `serve` and `serve --hex`: the unit answers the bytes of the source on the link, or those that its
//! lines spell.
ghost use Rattle.std.specs.Prelude.{◌≡◌};
ghost use Rattle.tacho.specs.Serving.{end_of_service, end_of_lines, serve_refusal_of};

use crate::end::Fault;
use link_session::{LinesFault, ServeFault};
use run_model::Device;

/// The end by what a service answers.
pub fn serve_end(done: Result<(), ServeFault>) -> Fault
    ensures { result ≡ end_of_service done }
{
    match done {
        Ok(()) => Fault::Done,
        Err(fault) => serve_refusal(fault),
    }
}

/// The end by what a service of lines answers.
pub fn lines_end(done: Result<(), LinesFault>) -> Fault
    ensures { result ≡ end_of_lines done }
{
    match done {
        Ok(()) => Fault::Done,
        Err(LinesFault::Ended(fault)) => serve_refusal(fault),
        Err(LinesFault::BadLine(number)) => Fault::BadTrace(number),
        Err(LinesFault::Memory) => Fault::Memory,
    }
}

/// The end where a service ended before its source.
fn serve_refusal(fault: ServeFault) -> Fault
    ensures { result ≡ serve_refusal_of fault }
{
    match fault {
        ServeFault::ReadFault => Fault::ReadFault,
        ServeFault::WriteFault => Fault::WriteFault,
        ServeFault::Failed => Fault::MediumFault(Device::Unit),
        ServeFault::BadUnit(place) => Fault::BadUnit(place),
        ServeFault::TooLong => Fault::TooLong(0),
    }
}
