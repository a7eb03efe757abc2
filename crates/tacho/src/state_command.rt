//! The command `state`: what the unit and the cards tell of themselves is printed, a line each.
ghost use Rattle.std.specs.Prelude.{◌≤◌};
ghost use Rattle.device_state.specs.Lines.{state_lines};
ghost use Rattle.tacho.specs.End.{end_of};
ghost use Rattle.tacho.specs.State.{PrintsState};

use crate::end::Fault;
use crate::printing::print_text;
use device_state::{DevicesTold, state_text};
use std::alloc::Global;
use tach_media::Sink;

/// Prints what devices tell.
///
/// # Errors
///
/// `Memory`, and nothing is printed; `WriteFault` where the sink failed: a front of the lines went to it.
pub fn print_state<K: Sink>(alloc: Global, told: &DevicesTold, sink: &mut K) -> Result<(), Fault>
    ensures prints { PrintsState (state_lines told.now) (record { held = K.held sink.old; faults = K.faults sink.old })
        (record { held = K.held sink.new; faults = K.faults sink.new }) (end_of result) }
    ensures counts { K.faults sink.old ≤ K.faults sink.new }
{
    let text = state_text(alloc, told)?;
    print_text(text.as_slice(), sink)
}
