//! Laws: what each call on a journal is to one who sees the unit by its views.
ghost use Rattle.std.specs.Prelude.{◌≡◌, ◌≢◌, ◌<◌, ◌≤◌, ℕ, List, [], Some, All, length};
ghost use Rattle.unit_minutes.specs.activity_codec.declared.entries.Entry.{Entry};
ghost use Rattle.run_unit_course.specs.trace_model.declared.Card.TheVariants.{A, B};
ghost use Rattle.unit_minutes.specs.unit_model.Image.{day_ring};
ghost use Rattle.unit_minutes.specs.unit_model.NewImage.{new_image};
ghost use Rattle.unit_minutes.specs.gated_ring.Ring.{PointsInside};
ghost use Rattle.run_unit_course.specs.history_model.Minutes.{HistoryMinute};
ghost use Rattle.unit_minutes.specs.unit_owed.Owed.{owed_to, row_view};
ghost use Rattle.unit_minutes.specs.unit_owed.Rows.{IsPutting as IsPuttingRow, OwedRowHas as IsPutRow, IsRowBeginning};
ghost use Rattle.unit_minutes.specs.unit_owed.Rows.{IsRowBegun};
ghost use Rattle.unit_minutes.specs.unit_owed.Rows.{HasRow};
ghost use Rattle.unit_minutes.specs.declared.notes.Notes.{Notes};
ghost use Rattle.unit_minutes.specs.Image.{IsKeeping as IsKeepingImage, IsKept as IsKeptImage};
ghost use Rattle.unit_minutes.specs.Mends.{IsMending as IsMendingImage, IsMended as IsMendedImage};
ghost use Rattle.safety_model.specs.device_rule.Views.{unit_view};
ghost use Rattle.safety_model.specs.device_rule.Steps.{IsKeeping, IsKept, IsPutting, UnitOwes, IsBeginning, IsBegun};
ghost use Rattle.safety_model.specs.device_rule.Steps.{IsMending};
ghost use Rattle.safety_model.specs.device_rule.Steps.{IsMended, cleared};
ghost use Rattle.safety_model.specs.device_rule.Filling.{seen_by_unit, KeepsMinute, GivesUpDay};

/// A moment of the keeping of a minute of the history is one of the rule's keeping: the minute kept, or not yet, with
/// the oldest day given up for it or not. At its end it is kept.
pub fn a_keeping_is_seen()
    ensures moments { (a b : List ℕ) (i : HistoryMinute) (odometer : ℕ) (x c : List ℕ) →
        IsKeepingImage (seen_by_unit i) odometer x c →
        IsKeeping KeepsMinute GivesUpDay i (unit_view a b x) (unit_view a b c) }
    ensures kept { (a b : List ℕ) (i : HistoryMinute) (x c : List ℕ) →
        IsKeptImage (seen_by_unit i) x c → IsKept KeepsMinute i (unit_view a b x) (unit_view a b c) }
{}

/// A moment of the beginning of a card's row, which spares the other card's, is one of the rule's beginning.
pub fn a_row_beginning_is_seen()
    ensures first { (a b : List ℕ) (session : ℕ) (x c : List ℕ) → a ≢ b → PointsInside day_ring x →
        IsRowBeginning a session (Some b) x c → IsBeginning A (unit_view a b x) (unit_view a b c) }
    ensures second { (a b : List ℕ) (session : ℕ) (x c : List ℕ) → a ≢ b → PointsInside day_ring x →
        IsRowBeginning b session (Some a) x c → IsBeginning B (unit_view a b x) (unit_view a b c) }
{}

/// At its end the row has this session, and no cell.
pub fn a_row_is_begun()
    ensures first { (a b : List ℕ) (session : ℕ) (x c : List ℕ) → a ≢ b → PointsInside day_ring x →
        IsRowBegun a session (Some b) x c → IsBegun A session (unit_view a b x) (unit_view a b c) }
    ensures second { (a b : List ℕ) (session : ℕ) (x c : List ℕ) → a ≢ b → PointsInside day_ring x →
        IsRowBegun b session (Some a) x c → IsBegun B session (unit_view a b x) (unit_view a b c) }
{}

/// A moment of the putting of an entry that is later than the row's others is one of the rule's putting: as it was,
/// without the cell of its place, or with the entry behind the others.
pub fn a_putting_is_seen()
    ensures first { (a b : List ℕ) (e : Entry) (x c : List ℕ) → a ≢ b → PointsInside day_ring x → 1440 ≤ e.minute →
        All (λ d. d.minute < e.minute) (cleared e (row_view a x)).cells →
        IsPuttingRow a e x c → IsPutting A e (unit_view a b x) (unit_view a b c) }
    ensures second { (a b : List ℕ) (e : Entry) (x c : List ℕ) → a ≢ b → PointsInside day_ring x → 1440 ≤ e.minute →
        All (λ d. d.minute < e.minute) (cleared e (row_view b x)).cells →
        IsPuttingRow b e x c → IsPutting B e (unit_view a b x) (unit_view a b c) }
{}

/// At its end, where the card's number has a row, the entry stands in it behind the others.
pub fn an_entry_is_put()
    ensures first { (a b : List ℕ) (e : Entry) (x c : List ℕ) → a ≢ b → PointsInside day_ring x → 1440 ≤ e.minute →
        All (λ d. d.minute < e.minute) (cleared e (row_view a x)).cells →
        HasRow a x → IsPutRow a e x c → UnitOwes A e (unit_view a b x) (unit_view a b c) }
    ensures second { (a b : List ℕ) (e : Entry) (x c : List ℕ) → a ≢ b → PointsInside day_ring x → 1440 ≤ e.minute →
        All (λ d. d.minute < e.minute) (cleared e (row_view b x)).cells →
        HasRow b x → IsPutRow b e x c → UnitOwes B e (unit_view a b x) (unit_view a b c) }
{}

/// A moment of a mend is one of the rule's mending; at its end no cell is later than the last-kept minute.
pub fn a_mending_is_seen()
    ensures moments { (a b : List ℕ) (j : Notes) (x c : List ℕ) →
        IsMendingImage j x c → IsMending (unit_view a b x) (unit_view a b c) }
    ensures mended { (a b x c : List ℕ) → IsMendedImage x c → IsMended (unit_view a b x) (unit_view a b c) }
{}

/// A new unit is seen with no day, no minute and no row, and owes nothing to any card.
pub fn a_new_unit_owes_nothing()
    ensures seen { (vin registration : List ℕ) (limit : ℕ) → length vin ≡ 17 → length registration ≡ 15 → (a b : List ℕ)
        →
        unit_view a b (new_image vin registration limit)
        ≡ record {
          days = [];
          last = 0;
          row_a = record { session = 0; cells = [] };
          row_b = record { session = 0; cells = [] };
        } }
    ensures owed { (vin registration : List ℕ) (limit : ℕ) → length vin ≡ 17 → length registration ≡ 15
        → (number : List ℕ) (session after : ℕ) →
        owed_to (new_image vin registration limit) number session after ≡ [] }
{}
