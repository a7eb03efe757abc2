//! Laws on the definitions of specs/: they run nothing, and their contracts say what is proved of them.
ghost use Rattle.std.specs.Prelude.{◌≡◌, ℕ, ◌+◌, ◌≤◌, Bool, true, false, List, [], ◌∷◌, ◌++◌, length, drop, is_some};
ghost use Rattle.std.specs.Prelude.{IfSome};
ghost use Rattle.tach_media.specs.card_layout.Images.{SameOutside};
ghost use Rattle.tach_media.specs.Medium.{LeavesOnly};
ghost use Rattle.speed_store.specs.gated_ring.Change.{IsAdding, IsAdded};
ghost use Rattle.speed_store.specs.unit_model.declared.layout.TheConstants.{SPARE_FAULTS, SPEEDS};
ghost use Rattle.speed_store.specs.speed_model.declared.block.Block.{Block};
ghost use Rattle.speed_store.specs.speed_model.Blocks.{block_bytes};
ghost use Rattle.speed_store.specs.speed_model.Stored.{speed_ring};
ghost use Rattle.run_speeds.specs.Speeds.{HasSpeedRing, HasSpeeds, HasSameSpeeds, LeavesSpeeds};

use tach_media::Medium;

/// A unit that begins with one image carries no block of the run yet.
pub fn a_run_begins_with_no_block<M: Medium>(unit: &M)
    ensures { (is_sure : Block → Bool) (start : List ℕ) (began : ℕ) → HasSpeedRing start
        → began ≤ (M.state unit.now).clock → ((x : List ℕ) → (M.state unit.now).may_leave x → x ≡ start) →
        ((x : List ℕ) → (M.state unit.now).left_since began x → x ≡ start)
        → HasSpeeds is_sure start began [] (M.state unit.now) }
{}

/// Calls that leave the ring carry its blocks on.
pub fn other_calls_carry_the_blocks_on<M: Medium, N: Medium>(old: &M, new: &N)
    ensures { (is_sure : Block → Bool) (start : List ℕ) (began : ℕ) (blocks : List Block)
        → HasSpeeds is_sure start began blocks (M.state old.now) → LeavesSpeeds (M.state old.now) (N.state new.now) →
        HasSpeeds is_sure start began blocks (N.state new.now) }
{}

/// A block that was added is carried; so is one whose call failed, which is not sure, and may stand or not.
pub fn a_block_is_carried<M: Medium, N: Medium>(old: &M, new: &N)
    ensures added { (is_sure : Block → Bool) (start : List ℕ) (began : ℕ) (blocks : List Block)
        → HasSpeeds is_sure start began blocks (M.state old.now) → (b : Block) → length b.speeds ≡ 60 →
        LeavesOnly (M.state old.now) (N.state new.now) (IsAdding speed_ring (block_bytes b))
        → (N.state new.now).works ≡ true → is_some (M.state old.now).image ≡ true →
        IfSome (M.state old.now).image (λ x. IfSome (N.state new.now).image (IsAdded speed_ring (block_bytes b) x))
        → HasSpeeds is_sure start began (blocks ++ b ∷ []) (N.state new.now) }
    ensures broken { (is_sure : Block → Bool) (start : List ℕ) (began : ℕ) (blocks : List Block)
        → HasSpeeds is_sure start began blocks (M.state old.now) → (b : Block) → length b.speeds ≡ 60 →
        is_sure b ≡ false → LeavesOnly (M.state old.now) (N.state new.now) (IsAdding speed_ring (block_bytes b))
        → HasSpeeds is_sure start began (blocks ++ b ∷ []) (N.state new.now) }
{}

/// Which calls leave the ring: those whose moments do, and more of them.
pub fn calls_beside_the_ring_leave_it<M: Medium, N: Medium, O: Medium>(first: &M, mid: &N, last: &O)
    ensures none { LeavesSpeeds (M.state first.now) (M.state first.now) }
    ensures two { LeavesSpeeds (M.state first.now) (N.state mid.now) → LeavesSpeeds (N.state mid.now) (O.state last.now)
        → LeavesSpeeds (M.state first.now) (O.state last.now) }
    ensures moments { LeavesOnly (M.state first.now) (N.state mid.now) HasSameSpeeds
        → LeavesSpeeds (M.state first.now) (N.state mid.now) }
{}

/// Which writes leave it: those before the ring, and all that leave the bytes behind the faults.
pub fn writes_beside_the_ring_leave_it()
    ensures before { (x c : List ℕ) (place len : ℕ) → place + len ≤ SPEEDS.place → SameOutside place len x c
        → HasSameSpeeds x c }
    ensures behind { (x c : List ℕ) → drop SPARE_FAULTS.place c ≡ drop SPARE_FAULTS.place x → HasSameSpeeds x c }
{}
