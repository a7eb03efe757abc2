//! Whether two slots, or two activities, are one.
ghost use Rattle.std.specs.Prelude.{◌≡◌};
ghost use Rattle.activity_codec.specs.Activity.{same_slot, same_activity};

use crate::values::{Activity, Slot};

/// Whether the two slots are one.
pub fn is_same_slot(one: Slot, other: Slot) -> bool
    ensures { result ≡ same_slot one other }
{
    one == other
}

/// Whether the two activities are one.
pub fn is_same_activity(one: Activity, other: Activity) -> bool
    ensures { result ≡ same_activity one other }
{
    one == other
}
