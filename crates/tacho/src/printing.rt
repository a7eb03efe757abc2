//! A text that goes to the sink.
ghost use Rattle.tacho.specs.Printing.{PutsText};

use crate::end::Fault;
use tach_media::{Sink, put_all};

/// Prints a text.
///
/// # Errors
///
/// `WriteFault` where the sink failed: a front of the text went to it.
pub fn print_text<K: Sink>(text: &[u8], sink: &mut K) -> Result<(), Fault>
    ensures { PutsText text.now (record { held = K.held sink.old; faults = K.faults sink.old })
        (record { held = K.held sink.new; faults = K.faults sink.new }) result }
{
    if put_all(sink, text).is_err() {
        return Err(Fault::WriteFault);
    }
    Ok(())
}
