//! What other hosts do leaves the areas as they are.

ghost use Rattle.std.specs.Prelude.{◌≡◌, ℕ, List, Option, Some, ◌∷◌, [], ◌++◌, true, false};
ghost use Rattle.std.specs.List.{list_any};
ghost use Rattle.km_base.specs.declared.spans.Addr.{Addr};
ghost use Rattle.km_model.specs.Placement.{Allocation, kmalloc_span, kmalloc_use, without_allocation};
ghost use Rattle.km_model.specs.Answers.{is_kmalloc_at};
ghost use Rattle.km_pages.specs.declared.runs.Run.{Run};
ghost use Rattle.km_pages.specs.declared.runs.Use as kinds;
ghost use Rattle.km_pages.specs.declared.runs.Use.TheVariants.{Slab as slab_use, Vmalloc as vmalloc_use};
ghost use Rattle.km_pages.specs.Uses.{same_use};
ghost use Rattle.km_pages.specs.Runs.{run_at, run_from};
ghost use Rattle.km_pages.specs.Laid.{AreApart, AreLaid};
ghost use Rattle.km_slab.specs.Blocks.{Fits as SlabFits, IsSlot, Sheets, is_block_at};
ghost use Rattle.km_vmalloc.specs.declared.areas.VmArea.{VmArea};
ghost use Rattle.km_vmalloc.specs.Areas.{AreAreas, Fits, area_at, is_head_at, is_part};

/// Allocations that are neither heads nor areas come and go beside them.
pub fn others_leave_areas()
    ensures come { (areas : List (Option VmArea)) (used : List Allocation) (x : Allocation) → AreAreas areas used → is_part x ≡ false → AreAreas areas (used ++ x ∷ []) }
    ensures come_block { (areas : List (Option VmArea)) (used : List Allocation) (size a : ℕ) → AreAreas areas used → AreAreas areas (used ++ record { «use» = kmalloc_use size; start = a; size = kmalloc_span size } ∷ []) }
    ensures go { (areas : List (Option VmArea)) (used : List Allocation) (a : ℕ) → AreAreas areas used → ((s : ℕ) (v : VmArea) → area_at areas s ≡ Some v → v.head.start.0 ≡ a → ⊥) → ((s : ℕ) (v : VmArea) → area_at areas s ≡ Some v → v.area.start.0 ≡ a → ⊥) → AreAreas areas (without_allocation used a) }
    ensures go_run { (areas : List (Option VmArea)) (slab : Sheets) (pages : List (Option Run)) (used : List Allocation) (kind : kinds.Use) (a n : ℕ) → AreAreas areas used → Fits areas slab pages → SlabFits slab pages → run_at pages kind a ≡ Some n → same_use slab_use kind ≡ false → same_use vmalloc_use kind ≡ false → AreAreas areas (without_allocation used a) }
    ensures go_block { (areas : List (Option VmArea)) (pages : List (Option Run)) (used : List Allocation) (a : ℕ) → AreAreas areas used → AreLaid pages used → list_any (is_kmalloc_at a) used ≡ true → list_any (is_head_at a) used ≡ false → AreAreas areas (without_allocation used a) }
{}

/// Where no head and no run of an area goes, each live area still has both.
pub fn others_leave_parts()
    ensures come { (areas : List (Option VmArea)) (slab new_slab : Sheets) (pages new_pages : List (Option Run)) → Fits areas slab pages → ((n b : ℕ) → IsSlot slab n b → IsSlot new_slab n b) → ((p : ℕ) → run_from new_pages vmalloc_use p ≡ run_from pages vmalloc_use p) → Fits areas new_slab new_pages }
    ensures go { (areas : List (Option VmArea)) (slab new_slab : Sheets) (pages new_pages : List (Option Run)) (start : Addr) → Fits areas slab pages → ((s : ℕ) (v : VmArea) → area_at areas s ≡ Some v → v.head.start ≡ start → ⊥) → ((n b : ℕ) → IsSlot slab n b → (b ≡ start.0 → ⊥) → IsSlot new_slab n b) → ((p : ℕ) → run_from new_pages vmalloc_use p ≡ run_from pages vmalloc_use p) → Fits areas new_slab new_pages }
{}

/// A head is a slab block, and no block of kmalloc.
pub fn heads_are_no_blocks()
    ensures elsewhere { (used : List Allocation) (a : ℕ) → list_any (is_head_at a) used ≡ false → list_any (is_block_at a) used ≡ list_any (is_kmalloc_at a) used }
    ensures here { (pages : List (Option Run)) (used : List Allocation) (a : ℕ) → AreLaid pages used → AreApart used → list_any (is_head_at a) used ≡ true → list_any (is_kmalloc_at a) used ≡ false }
{}
