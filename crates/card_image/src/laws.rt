//! Laws of what a card shows.
ghost use Rattle.std.specs.Prelude.{◌≡◌, ℕ, max, List};
ghost use Rattle.card_files.specs.card_layout.declared.files.Application.{Application};
ghost use Rattle.card_files.specs.card_layout.Application.{IsApplication};
ghost use Rattle.card_files.specs.tach_media.Medium.{SameOutside};
ghost use Rattle.card_files.specs.Vehicles.{vehicle_of};
ghost use Rattle.card_retention.specs.card_model.Days.{Day, AreDays};
ghost use Rattle.card_retention.specs.Entries.{entries_up_to, last_entry, closed_at};
ghost use Rattle.card_files.specs.gated_ring.Ring.{PointsInside, IsLast, entry_at};
ghost use Rattle.card_image.specs.Fields.{vehicle_ring, last_use, end_mark, session_time, card_days, card_number};
ghost use Rattle.card_image.specs.View.{view_of, card_view, counting};
ghost use Rattle.card_image.specs.Judging.{first_bad_file};
ghost use Rattle.card_image.specs.Beside.{HaveSameDays, HaveSameVehicles, HaveSameSession, IsBeside};

/// A write beside the sizes, the days, the vehicles, the pointer of places, the second of the session and the number
/// leaves what a card shows, how it is judged, and its number.
pub fn a_write_beside_is_not_seen()
    ensures { (app : Application) (x c : List ℕ) → IsApplication app → PointsInside (vehicle_ring app) x →
        (place len : ℕ) → IsBeside app place len → SameOutside place len x c →
        (card_view app c ≡ card_view app x) × (first_bad_file app c ≡ first_bad_file app x)
        × (card_number app c ≡ card_number app x) }
{}

/// Where days and session stay, a card shows them with the end mark that its vehicle entries now have.
pub fn vehicles_move_the_mark()
    ensures { (app : Application) (x c : List ℕ) → HaveSameDays app x c → HaveSameSession app x c →
        card_view app c ≡ view_of (last_use app c) (end_mark app c) (session_time app x) (card_days app x) }
{}

/// The last use is that of the newest vehicle entry.
pub fn the_last_entry_is_the_mark()
    ensures { (app : Application) (x : List ℕ) (i : ℕ) → IsLast (vehicle_ring app) x i →
        last_use app x ≡ (vehicle_of (entry_at (vehicle_ring app) x i)).last_use.0 }
{}

/// Where days and vehicles stay, a card shows them with the session that it now has.
pub fn a_session_is_alone()
    ensures { (app : Application) (x c : List ℕ) → IsApplication app → PointsInside (vehicle_ring app) x →
        HaveSameVehicles app x c → HaveSameDays app x c →
        card_view app c ≡ view_of (last_use app x) (end_mark app x) (session_time app c) (card_days app x) }
{}

/// The newest minute is the end mark, or that of the closing word behind the last entry. The entries are those of the
/// days that count.
pub fn newest_is_behind_the_entries()
    ensures newest { (app : Application) (x : List ℕ) → AreDays 0 (card_days app x) →
        (card_view app x).newest ≡ max (card_view app x).mark (closed_at (last_entry (card_view app x).held.entries)) }
    ensures entries { (session mark : ℕ) (days : List Day) → AreDays 0 days →
        entries_up_to mark (counting session mark days) ≡ entries_up_to mark days }
{}
