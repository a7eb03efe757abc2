//! Traces that stand in a test.
ghost use Rattle.std.specs.Prelude.{IfOk};
ghost use Rattle.trace_text.specs.Trace.{IsWellFormed};

use crate::fault::Untold;
use std::alloc::Global;
use tach_media::MemSource;
use trace_text::{Form, Trace, read_trace};

/// The trace that a text spells.
pub fn trace_of(alloc: Global, text: &[u8]) -> Result<Trace, Untold>
    ensures { IfOk result (λ trace. IsWellFormed trace.start trace.items) }
{
    let mut source = MemSource::new(text.to_vec(alloc)?, Vec::new(alloc));
    let trace = read_trace(alloc, &mut source, Form::Whole)?;
    Ok(trace)
}
