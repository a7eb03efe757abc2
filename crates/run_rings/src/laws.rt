//! What a ring carries, and what a second notes in it: laws.
ghost use Rattle.std.specs.Prelude.{◌≡◌, ◌⊎◌, ℕ, suc, ◌+◌, ◌<◌, ◌≤◌, ◌==◌, true, false, Some, List, [], ◌∷◌, ◌++◌};
ghost use Rattle.std.specs.Prelude.{length, map, if◌then◌else◌};
ghost use Rattle.std.specs.List.{AllByRecursion, list_any};
ghost use Rattle.card_layout.specs.Images.{SameOutside};
ghost use Rattle.gated_ring.specs.Ring.{Shape, IsShape, PointsInside, size_of, pointer, indices, ring_list, entry_at};
ghost use Rattle.gated_ring.specs.Ring.{taken, staying, with_head};
ghost use Rattle.gated_ring.specs.Change.{IsAdding, IsAdded};
ghost use Rattle.log_model.specs.Slots.{same_card};
ghost use Rattle.note_model.specs.Noted.{InsertionNote, Withdrawal, with_withdrawal};
ghost use Rattle.run_rings.specs.Carried.{RingKeeps};
ghost use Rattle.run_rings.specs.Spans.{TheyAreTheSpans, EarlierOdometersStay, AlikeSecondsCountAlike};
ghost use Rattle.run_rings.specs.Spans.{TheOdometerOfNow};
ghost use Rattle.run_rings.specs.Notes.{LaterLinesChangeNoNote, AnActionNotes, ASecondHasNoted, ACutNotesNoMore};
ghost use Rattle.run_rings.specs.Notes.{SelectionsNoteNothing, PullsNoteNothing, EntriesByHandNoteNothing};
ghost use Rattle.run_rings.specs.Notes.{RefusalsNoteNothing, PlacesAreNoted, WithdrawalsAreNoted, InsertionsAreNoted};
ghost use Rattle.run_rings.specs.Notes.{PowerOnsAreNoted};

/// A ring carries what it showed at the start and the entries that were added since, over each step: an
/// entry is added, or a stop comes at a moment of that; bytes outside the ring are written; one of the run's entries
/// gets other bytes where it stands, or would have, but is gone.
pub fn what_a_ring_carries()
    ensures begins { (r : Shape) (start : List ℕ) → PointsInside r start → RingKeeps r start start [] }
    ensures added { (r : Shape) (start x : List ℕ) (more : List (List ℕ)) → RingKeeps r start x more → (head y : List ℕ)
        → IsAdded r head x y → RingKeeps r start y (more ++ with_head r x (taken r x) head ∷ []) }
    ensures moment { (r : Shape) (start x : List ℕ) (more : List (List ℕ)) → RingKeeps r start x more
        → (head c : List ℕ) → IsAdding r head x c →
        RingKeeps r start c more ⊎ RingKeeps r start c (more ++ with_head r x (taken r x) head ∷ []) }
    ensures elsewhere { (r : Shape) (start x : List ℕ) (more : List (List ℕ)) → RingKeeps r start x more → IsShape r
        → (place len : ℕ) (c : List ℕ) → (place + len ≤ r.base) ⊎ (r.base + size_of r ≤ place) →
        SameOutside place len x c → RingKeeps r start c more }
    ensures changed { (r : Shape) (start x : List ℕ) (more : List (List ℕ)) → RingKeeps r start x more
        → (c : List ℕ) (i : ℕ) (bytes front back : List ℕ) → pointer r c ≡ pointer r x → indices r c ≡ indices r x →
        indices r x ≡ front ++ i ∷ back → AllByRecursion (λ (j : ℕ). (j == i) ≡ false) (front ++ back)
        → ring_list r c ≡ map (λ j. if j == i then bytes else entry_at r x j) (indices r x) → (i == i) ≡ true →
        (older : List (List ℕ)) (e : List ℕ) (newer : List (List ℕ)) → more ≡ older ++ e ∷ newer
        → length newer ≡ length back → (e ≡ entry_at r x i) × RingKeeps r start c (older ++ bytes ∷ newer) }
    ensures gone { (r : Shape) (start x : List ℕ) (more : List (List ℕ)) → RingKeeps r start x more
        → (older : List (List ℕ)) (e other : List ℕ) (newer : List (List ℕ)) → more ≡ older ++ e ∷ newer →
        length (ring_list r x) ≤ length newer → RingKeeps r start x (older ++ other ∷ newer) }
{}

/// A withdrawal is told by the last insertion of its card.
pub fn a_withdrawal_is_told_by_the_last_insertion()
    ensures { (w : Withdrawal) (older : List InsertionNote) (i : InsertionNote) (newer : List InsertionNote)
        → same_card i.accepted.card w.card ≡ true →
        list_any (λ (j : InsertionNote). same_card j.accepted.card w.card) newer ≡ false
        → with_withdrawal w (older ++ i ∷ newer) ≡ older ++ record i { withdrawn = Some w.second } ∷ newer }
{}

/// An entry that was added stands with the last index, and as more are added with those behind it, until one takes its
/// place; and no index stands twice.
pub fn an_index_stays()
    ensures last { (r : Shape) (head x y : List ℕ) → PointsInside r x → IsAdded r head x y
        → indices r y ≡ staying r x ++ taken r x ∷ [] }
    ensures stays { (r : Shape) (head x y : List ℕ) → PointsInside r x → IsAdded r head x y
        → (front : List ℕ) (i : ℕ) (back : List ℕ) → indices r x ≡ front ++ i ∷ back →
        ((before : List ℕ) × (indices r y ≡ before ++ i ∷ (back ++ taken r x ∷ [])))
        ⊎ ((front ≡ []) × (indices r y ≡ back ++ taken r x ∷ []) × (i ≡ taken r x)) }
    ensures turn { (count index places at : ℕ) → index < count → places < count → at < count
        → (at ≡ index + places) ⊎ (at + count ≡ index + places) →
        ((if at + 1 == count then 0 else at + 1) ≡ index + suc places)
        ⊎ ((if at + 1 == count then 0 else at + 1) + count ≡ index + suc places) }
    ensures alone { (r : Shape) (x front : List ℕ) (i : ℕ) (back : List ℕ) → indices r x ≡ front ++ i ∷ back
        → AllByRecursion (λ (j : ℕ). (j == i) ≡ false) (front ++ back) }
    ensures itself { (i : ℕ) → (i == i) ≡ true }
{}

/// What a second notes up to some of its actions: later lines of the log change nothing of it, one action more adds its
/// own notes, and at the end it is what the second notes, up to its cut if it has one.
pub fn a_second_notes_action_by_action()
    ensures stays { LaterLinesChangeNoNote }
    ensures action { AnActionNotes }
    ensures ends { ASecondHasNoted }
    ensures cut { ACutNotesNoMore }
{}

/// What each action of a second notes, and its power-on.
pub fn what_an_action_notes()
    ensures selection { SelectionsNoteNothing }
    ensures pull { PullsNoteNothing }
    ensures by_hand { EntriesByHandNoteNothing }
    ensures refusal { RefusalsNoteNothing }
    ensures place { PlacesAreNoted }
    ensures withdrawal { WithdrawalsAreNoted }
    ensures insertion { InsertionsAreNoted }
    ensures power_on { PowerOnsAreNoted }
{}

/// The power spans of a run with their odometers, as one second more comes: they are its spans; the odometers before a
/// later second stay, and what else is told of a second counts nothing; in a second with power it is that of its span,
/// and what was travelled in it.
pub fn odometers_go_on_with_their_spans()
    ensures spans { TheyAreTheSpans }
    ensures earlier { EarlierOdometersStay }
    ensures alike { AlikeSecondsCountAlike }
    ensures now { TheOdometerOfNow }
{}
