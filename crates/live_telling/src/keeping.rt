//! A minute that is kept, and then told: the smallest recorder.
ghost use Rattle.std.specs.Prelude.{◌≡◌, ◌≤◌, ◌+◌, [], ◌∷◌, OnOk, length};
ghost use Rattle.tach_media.specs.Medium.{LiesInside};
ghost use Rattle.live_telling.specs.Telling.{TellsLines, once};
ghost use Rattle.log_model.specs.run_model.declared.Device.TheVariants.{Unit as Recorder};

use crate::{Teller, put_line};
use tach_media::{Chip, Failed, Medium};

/// Writes these bytes on the unit, and then tells this line of them.
///
/// # Errors
///
/// `Failed` where the unit failed, with nothing told, or the sink.
pub fn keep_and_tell<K: Teller<U, C>, U: Medium, C: Chip>(
    sink: &mut K,
    unit: &mut U,
    card_a: &C,
    card_b: &C,
    bytes: &[u8],
    line: &[u8],
) -> Result<(), Failed>
    requires inside { length bytes.now ≤ (U.state unit.old).size }
    requires writable { LiesInside (U.state unit.old).writable 0 (length bytes.now) }
    // The line was told when the unit's clock had come to the one that it has behind the write.
    ensures told { OnOk result (TellsLines
        (record { text = line.now; since = once Recorder (U.state unit.new).clock } ∷ []) (K.told sink.old)
        (K.told sink.new)) }
{
    unit.write_at(0, bytes)?;
    put_line(sink, line, unit, card_a, card_b)?;
    Ok(())
}
