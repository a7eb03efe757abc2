//! What is proved of the figures of a day.
ghost use Rattle.std.specs.Prelude.{◌≡◌, ◌+◌, List, map, length};
ghost use Rattle.activity_codec.specs.declared.values.Slot.{Slot};
ghost use Rattle.view_model.specs.declared.UnitShown.{UnitShown};
ghost use Rattle.view_model.specs.declared.Viewed.{Viewed};
ghost use Rattle.view_model.specs.declared.marks.Gap.{Gap};
ghost use Rattle.slot_bars.specs.declared.seen.Seen.{Seen};
ghost use Rattle.slot_bars.specs.Seeing.{slot_seen};
ghost use Rattle.day_totals.specs.declared.figures.Figure.TheVariants.{Drive, Work, Available, Rest, Unknown, In};
ghost use Rattle.day_totals.specs.Figures.{total, out_total, AreSeen};

/// The figures of a day add up: the four activities are the minutes with a card, and with those that were not recorded
/// and those known to be without a card they are all minutes.
pub fn figures_add_up()
    ensures with_card { (minutes : List (Viewed Seen))
        → total Drive minutes + total Work minutes + total Available minutes + total Rest minutes ≡ total In minutes }
    ensures all { (minutes : List (Viewed Seen)) → AreSeen minutes
        → total In minutes + total Unknown minutes + out_total minutes ≡ length minutes }
    ensures seen { (gaps : List Gap) (slot : Slot) (minutes : List (Viewed UnitShown))
        → AreSeen (map (slot_seen gaps slot) minutes) }
{}
