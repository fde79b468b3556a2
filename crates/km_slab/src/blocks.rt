//! Where a block of a size lies.

ghost use Rattle.std.specs.Prelude.{◌≡◌, ◌+◌, ◌*◌, ◌<◌, ◌≤◌, ◌⊎◌, ℕ, List, ◌∷◌, [], ◌++◌, length, true, false, IfOk, OnErr, nat_le};
ghost use Rattle.std.specs.List.{All};
ghost use Rattle.km_base.specs.declared.sizes.TheConstants.{PAGE, PAGE_WORDS};
ghost use Rattle.km_model.specs.Placement.{Allocation, class_of, kmalloc_place, kmalloc_span, lowest_slab};
ghost use Rattle.km_pages.specs.declared.runs.Use as kinds;
ghost use Rattle.km_pages.specs.declared.runs.Use.TheVariants.{Large as large_use, Slab as slab_use};
ghost use Rattle.km_pages.specs.Uses.{same_use};
ghost use Rattle.km_pages.specs.Runs.{run_from};
ghost use Rattle.km_pages.specs.Laid.{AreLaid};
ghost use Rattle.km_slab.specs.Blocks.{AreBlocks, Fits, Gains, IsBlock, IsSlot, Takes, start_of};
ghost use Rattle.km_slab.specs.Tables.{IsKept, sheets};

use crate::classes::class_for;
use crate::large::take_large;
use crate::small::take_small;
use crate::table::{PAGE, Table};
use km_base::Span;
use km_pages::{NoRoom, Pages};

/// Allocates a block: a slot of a slab page up to 4096 bytes, whole pages above.
pub fn take_block(table: &mut Table, pages: &mut Pages, size: u32) -> Result<Span, NoRoom>
    requires marks { IsKept table.old }
    requires fits { Fits (sheets table.old) pages.old }
    requires some { 0 < size }
    requires most { size ≤ 32768 }
    ensures marks { IsKept table.new }
    ensures place { (used : List Allocation) → AreLaid pages.old used → AreBlocks (sheets table.old) used → start_of result ≡ kmalloc_place (PAGE_WORDS * length pages.old) used size }
    ensures lowest { IfOk result (λ s. (used : List Allocation) → AreLaid pages.old used → AreBlocks (sheets table.old) used → nat_le size PAGE ≡ true → s.start.0 ≡ lowest_slab used (class_of size)) }
    ensures span { IfOk result (λ s. s.size ≡ kmalloc_span size) }
    ensures apart { IfOk result (λ s. (used : List Allocation) → AreLaid pages.old used → AreBlocks (sheets table.old) used → All (λ (x : Allocation). (x.start + x.size ≤ s.start.0) ⊎ (s.start.0 + s.size ≤ x.start)) used) }
    ensures gains { IfOk result (λ s. nat_le size PAGE ≡ true → Gains (sheets table.old) (sheets table.new) s.size s.start.0) }
    ensures takes { IfOk result (λ s. nat_le size PAGE ≡ true → Takes (sheets table.old) (sheets table.new) pages.old pages.new s.size s.start.0) }
    ensures large { nat_le size PAGE ≡ false → sheets table.new ≡ sheets table.old }
    ensures still { (n b : ℕ) → IsSlot (sheets table.old) n b → IsSlot (sheets table.new) n b }
    ensures refused { OnErr result (sheets table.new ≡ sheets table.old) }
    ensures pages_stay { OnErr result (pages.new ≡ pages.old) }
    ensures pages_count { length pages.new ≡ length pages.old }
    ensures others { (other : kinds.Use) (p : ℕ) → same_use slab_use other ≡ false → same_use large_use other ≡ false → run_from pages.new other p ≡ run_from pages.old other p }
    ensures small { nat_le size PAGE ≡ true → (other : kinds.Use) (p : ℕ) → same_use slab_use other ≡ false → run_from pages.new other p ≡ run_from pages.old other p }
    ensures fits { Fits (sheets table.new) pages.new }
    ensures laid { IfOk result (λ s. (used : List Allocation) (x : Allocation) → AreLaid pages.old used → IsBlock size s.start.0 x → AreLaid pages.new (used ++ x ∷ [])) }
    ensures blocks { IfOk result (λ s. (used : List Allocation) (x : Allocation) → AreBlocks (sheets table.old) used → IsBlock size s.start.0 x → AreBlocks (sheets table.new) (used ++ x ∷ [])) }
{
    if size <= PAGE {
        take_small(table, pages, class_for(size))
    } else {
        take_large(pages, size)
    }
}
