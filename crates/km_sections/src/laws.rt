//! What other hosts do leaves the sections as they are.

ghost use Rattle.std.specs.Prelude.{◌≡◌, ℕ, List, Option, Some, ◌∷◌, [], ◌++◌, true, false};
ghost use Rattle.std.specs.List.{list_any};
ghost use Rattle.km_model.specs.Placement.{Allocation, head_with, kmalloc_span, kmalloc_use, slot_of_area, without_allocation};
ghost use Rattle.km_model.specs.Answers.{is_kmalloc_at};
ghost use Rattle.km_model.specs.World.{is_any_section};
ghost use Rattle.km_pages.specs.declared.runs.Run.{Run};
ghost use Rattle.km_pages.specs.declared.runs.Use as kinds;
ghost use Rattle.km_pages.specs.declared.runs.Use.TheVariants.{Section as section_use};
ghost use Rattle.km_pages.specs.Uses.{same_use};
ghost use Rattle.km_pages.specs.Runs.{run_at};
ghost use Rattle.km_pages.specs.Laid.{AreLaid};
ghost use Rattle.km_sections.specs.Named.{AreSections};

/// Allocations that are no sections come and go beside them: runs of pages, blocks of kmalloc, an area with its head.
pub fn others_leave_sections()
    ensures come { (given used : List Allocation) (x : Allocation) → AreSections given used → is_any_section x ≡ false → AreSections given (used ++ x ∷ []) }
    ensures come_block { (given used : List Allocation) (size a : ℕ) → AreSections given used → AreSections given (used ++ record { «use» = kmalloc_use size; start = a; size = kmalloc_span size } ∷ []) }
    ensures go_run { (pages : List (Option Run)) (given used : List Allocation) (kind : kinds.Use) (a n : ℕ) → AreSections given used → AreLaid pages used → run_at pages kind a ≡ Some n → same_use section_use kind ≡ false → AreSections given (without_allocation used a) }
    ensures go_block { (pages : List (Option Run)) (given used : List Allocation) (a : ℕ) → AreSections given used → AreLaid pages used → list_any (is_kmalloc_at a) used ≡ true → AreSections given (without_allocation used a) }
    ensures go_area { (pages : List (Option Run)) (given used : List Allocation) (a s h : ℕ) → AreSections given used → AreLaid pages used → slot_of_area used a ≡ Some s → head_with used s ≡ Some h → AreSections given (without_allocation (without_allocation used a) h) }
{}
