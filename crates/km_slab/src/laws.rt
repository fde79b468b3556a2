//! What other hosts do leaves the slab blocks as they are.

ghost use Rattle.std.specs.Prelude.{◌≡◌, ℕ, List, length, Option, Some, ◌∷◌, [], ◌++◌, false};
ghost use Rattle.km_model.specs.Placement.{Allocation, is_slab_block, kmalloc_span, kmalloc_use, without_allocation};
ghost use Rattle.km_pages.specs.declared.runs.Run.{Run};
ghost use Rattle.km_pages.specs.declared.runs.Use as kinds;
ghost use Rattle.km_pages.specs.declared.runs.Use.TheVariants.{Slab as slab_use};
ghost use Rattle.km_pages.specs.Uses.{same_use};
ghost use Rattle.km_pages.specs.Runs.{run_at, run_from};
ghost use Rattle.km_pages.specs.Laid.{AreLaid};
ghost use Rattle.km_slab.specs.Blocks.{AreBlocks, Fits, IsBlock, Sheets};

/// Allocations that are no slab blocks come and go beside them.
pub fn others_leave_blocks()
    ensures come { (slab : Sheets) (used : List Allocation) (x : Allocation) → AreBlocks slab used → is_slab_block x ≡ false → AreBlocks slab (used ++ x ∷ []) }
    ensures go { (slab : Sheets) (pages : List (Option Run)) (used : List Allocation) (kind : kinds.Use) (a n : ℕ) → AreBlocks slab used → AreLaid pages used → run_at pages kind a ≡ Some n → same_use slab_use kind ≡ false → AreBlocks slab (without_allocation used a) }
{}

/// Where no slab page is taken or given back, the slab pages are still those.
pub fn others_leave_slab_pages()
    ensures { (slab : Sheets) (pages new : List (Option Run)) → Fits slab pages → length new ≡ length pages → ((p : ℕ) → run_from new slab_use p ≡ run_from pages slab_use p) → Fits slab new }
{}

/// What a request allocates is a block of its size.
pub fn requests_make_blocks()
    ensures { (size a : ℕ) → IsBlock size a (record { «use» = kmalloc_use size; start = a; size = kmalloc_span size }) }
{}
