//! Times as text.
ghost use Rattle.std.specs.Prelude.{◌≡◌, ◌++◌, ◌/◌, IfOk};
ghost use Rattle.json_fields.specs.Dates.{date_of, date_text, time_text};

use activity_codec::DAY_SECONDS;
use calendar_days::{day_text, seconds_text};
use std::alloc::{AllocError, Global};

/// A time as `2010-03-01T07:29:59Z`.
pub(crate) fn time_text(alloc: Global, second: u32) -> Result<Vec<u8>, AllocError>
    ensures { IfOk result (λ text. text.items ≡ time_text second) }
{
    let date = day_text(second / DAY_SECONDS);
    let mut text = Vec::new(alloc);
    text.extend_from_slice(date.as_slice())?;
    text.extend_from_slice(b"T")?;
    text.extend_from_slice(&seconds_text(second))?;
    text.extend_from_slice(b"Z")?;
    Ok(text)
}
