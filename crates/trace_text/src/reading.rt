//! A trace, read line by line: what its lines tell, and the items that are kept of them.

use crate::coming::{Came, Coming, PUT_IN};
use crate::lines_trace::{Form, Items, Trace, TraceFault};
use std::alloc::Global;
use tach_media::Memory;
use trace_model::Item;

/// A trace as far as its lines were read.
#[derive(Drop)]
pub struct Reading {
    /// The lines that have come.
    pub coming: Coming,
    /// Their items, with the seconds that are put in before an `off`.
    pub items: Items,
}

impl Reading {
    ghost use Rattle.std.specs.Prelude.{◌^◌, ◌-◌, ◌≡◌, ◌+◌, ◌<◌, ℕ, List, [], ◌∷◌, ◌++◌, OnOk, IfErr, MatchResult};
    ghost use Rattle.std.specs.Prelude.{Some as Second};
    ghost use Rattle.trace_model.specs.declared.Item.TheVariants.{Run};
    ghost use Rattle.trace_text.specs.Line.{InRange};
    ghost use Rattle.trace_text.specs.RunLines.{run_line};
    ghost use Rattle.trace_text.specs.Trace.{IsTraceOf};
    ghost use Rattle.trace_text.specs.Coming.{told, IsFaultOf};
    ghost use Rattle.trace_text.specs.Reading.{HasRead};

    /// No line was read.
    pub fn new(alloc: Global, form: Form) -> Self
        ensures read { HasRead [] result }
        ensures form { result.coming.form ≡ form }
        ensures lines { result.coming.lines ≡ 0 }
    {
        Reading {
            coming: Coming::new(form),
            items: Items::new(alloc),
        }
    }

    /// Reads one more line.
    ///
    /// # Errors
    ///
    /// `BadLine` with the line's number where it is not in the grammar, `TooLong` where a limit is passed at it or at
    /// the line of an action before it, and `Memory`.
    pub fn take(&mut self, line: &[u8]) -> Result<(), TraceFault>
        requires { self.old.coming.lines < 2 ^ 32 - 1 }
        ensures ok { (lines : List (List ℕ)) → HasRead lines self.old
            → OnOk result (HasRead (lines ++ line.now ∷ []) self.new) }
        ensures fault { (lines behind : List (List ℕ)) → HasRead lines self.old
            → IfErr result (IsFaultOf self.old.coming.form (lines ++ line.now ∷ behind)) }
        ensures form { self.new.coming.form ≡ self.old.coming.form }
        ensures lines { OnOk result (self.new.coming.lines ≡ self.old.coming.lines + 1) }
    {
        let came = self.coming.take(line)?;
        keep(&mut self.items, came)?;
        Ok(())
    }

    /// Takes the `run` line of these seconds at this speed, in km/h.
    ///
    /// # Errors
    ///
    /// `TooLong` with the line's number where a limit is passed at it, and `Memory`.
    pub fn take_run(&mut self, start: u32, seconds: u32, speed: u8) -> Result<(), TraceFault>
        requires lines { self.old.coming.lines < 2 ^ 32 - 1 }
        requires later { self.old.coming.start ≡ Second start }
        requires range { InRange (Run seconds speed) }
        ensures ok { (lines : List (List ℕ)) → HasRead lines self.old
            → OnOk result (HasRead (lines ++ run_line seconds speed ∷ []) self.new) }
        ensures fault { (lines behind : List (List ℕ)) → HasRead lines self.old
            → IfErr result (IsFaultOf self.old.coming.form (lines ++ run_line seconds speed ∷ behind)) }
        ensures form { self.new.coming.form ≡ self.old.coming.form }
        ensures lines { OnOk result (self.new.coming.lines ≡ self.old.coming.lines + 1) }
    {
        self.coming.take_run(start, seconds, speed)?;
        self.items.push(Item::Run { seconds, speed })?;
        Ok(())
    }

    /// The trace of the lines that were read, with the second that is put in where no run follows the actions at the
    /// end.
    ///
    /// # Errors
    ///
    /// `BadLine` with the number behind the last line where no `start` line was read, `TooLong` with the line of the
    /// last action where a limit is passed by the second that is put in, and `Memory`.
    pub fn finish(mut self) -> Result<Trace, TraceFault>
        requires { self.coming.lines < 2 ^ 32 - 1 }
        ensures { (lines : List (List ℕ)) → HasRead lines self
            → MatchResult result (λ t. IsTraceOf self.coming.form lines t.start t.items)
            (IsFaultOf self.coming.form lines) }
    {
        let Some(start) = self.coming.start else {
            return Err(TraceFault::BadLine(self.coming.lines + 1));
        };
        let came = self.coming.end()?;
        keep(&mut self.items, came)?;
        let Reading { items, .. } = self;
        Ok(Trace { start, items })
    }
}

/// Keeps the items that came.
fn keep(items: &mut Items, came: Came) -> Result<(), Memory>
    ensures { OnOk result (items.new ≡ items.old ++ told came) }
{
    match came {
        Came::Nothing | Came::Start(_) => Ok(()),
        Came::Next(item) => items.push(item),
        Came::Behind(item) => {
            items.push(PUT_IN)?;
            items.push(item)
        }
    }
}

ghost use Rattle.std.specs.Prelude.{◌≡◌, ◌++◌, OnOk};
ghost use Rattle.trace_text.specs.Coming.{told};
