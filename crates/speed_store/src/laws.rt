//! Laws on the definitions of specs/: they run nothing, and their contracts say what is proved of them.
ghost use Rattle.std.specs.Prelude.{◌≡◌, ◌⊎◌, ℕ, ◌+◌, ◌≤◌, List, [], ◌∷◌, ◌++◌, length, map};
ghost use Rattle.card_layout.specs.Images.{SameOutside};
ghost use Rattle.unit_model.specs.declared.layout.TheConstants.{SPEEDS};
ghost use Rattle.gated_ring.specs.Ring.{PointsInside, IsDense};
ghost use Rattle.gated_ring.specs.Change.{IsAdding, IsAdded};
ghost use Rattle.run_rings.specs.Carried.{RingKeeps};
ghost use Rattle.speed_model.specs.declared.block.Block.{Block};
ghost use Rattle.speed_model.specs.Blocks.{block_bytes};
ghost use Rattle.speed_model.specs.Stored.{speed_ring, HoldsNewest};

/// What the ring holds of a run that began with a dense one: as long as each block was added, the newest 1440 of those
/// that it began with and the run's. At a moment of an `add`, and behind one that failed, blocks are missing at its old
/// end only where it has 1439 or 1440.
pub fn what_the_ring_holds_of_a_run()
    ensures begins { (start : List ℕ) → PointsInside speed_ring start → IsDense speed_ring start
        → HoldsNewest start start [] }
    ensures added { (start x : List ℕ) (more : List Block) → HoldsNewest start x more → (b : Block) (y : List ℕ)
        → length b.speeds ≡ 60 → IsAdded speed_ring (block_bytes b) x y → HoldsNewest start y (more ++ b ∷ []) }
    ensures elsewhere { (start x : List ℕ) (more : List Block) → HoldsNewest start x more → (place len : ℕ) (c : List ℕ)
        → place + len ≤ SPEEDS.place → SameOutside place len x c → HoldsNewest start c more }
    ensures carries { (start x : List ℕ) (more : List Block) → HoldsNewest start x more
        → RingKeeps speed_ring start x (map block_bytes more) }
    ensures carries_more { (start x : List ℕ) (more : List Block) → RingKeeps speed_ring start x (map block_bytes more)
        → (b : Block) (y : List ℕ) → length b.speeds ≡ 60 → IsAdded speed_ring (block_bytes b) x y
        → RingKeeps speed_ring start y (map block_bytes (more ++ b ∷ [])) }
    ensures moment { (start x : List ℕ) (more : List Block) → RingKeeps speed_ring start x (map block_bytes more)
        → (b : Block) (c : List ℕ) → length b.speeds ≡ 60 → IsAdding speed_ring (block_bytes b) x c →
        RingKeeps speed_ring start c (map block_bytes more)
        ⊎ RingKeeps speed_ring start c (map block_bytes (more ++ b ∷ [])) }
{}
