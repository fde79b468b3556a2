//! Blocks of slab pages, in the words of the definitions.

ghost use Rattle.std.specs.Prelude.{◌≡◌, ◌+◌, ◌*◌, ◌/◌, ◌<◌, ◌≤◌, ◌^◌, ◌==◌, ◌||◌, ◌⊎◌, ℕ, List, ◌∷◌, [], ◌++◌, length, slice_index_or, slice_set, Option, Some, None, true, false, IfOk, OnErr, if◌then◌else◌};
ghost use Rattle.std.specs.List.{All};
ghost use Rattle.km_marks.specs.Sets.{has, with_mark};
ghost use Rattle.km_base.specs.declared.sizes.TheConstants.{PAGE, PAGE_WORDS};
ghost use Rattle.km_model.specs.Placement.{Allocation, free_slot, is_slab_block, lowest_run, lowest_slab, page_start, run_place, slab_place, without_allocation};
ghost use Rattle.km_pages.specs.declared.runs.Run.{Run};
ghost use Rattle.km_pages.specs.declared.runs.Use as kinds;
ghost use Rattle.km_pages.specs.declared.runs.Use.TheVariants.{Slab as slab_use};
ghost use Rattle.km_pages.specs.Uses.{same_use};
ghost use Rattle.km_pages.specs.Runs.{IsTaken, run_at, run_from};
ghost use Rattle.km_pages.specs.Laid.{AreLaid, BeginAt};
ghost use Rattle.km_slab.specs.Blocks.{AreBlocks, Fits, Gains, HasFree, IsFreeAt, IsFull, IsSize, IsSlot, Loses, Sheets, Takes, TakesSlot, start_of};
ghost use Rattle.km_slab.specs.Tables.{IsKept, sheets};

use crate::table::{
    SLOT_WORDS, Table, drop_page, give_slot, lowest_slot, open_page, take_page, take_slot,
};
use km_base::sizes::{BASE, PAGE};
use km_base::{Addr, Span};
use km_pages::{NoRoom, Pages, Use};

/// Where a slot lies.
fn span_of(page: usize, class: u32, slot: usize) -> Span
    requires page { page < 2 ^ 32 }
    requires class { class ≤ PAGE }
    requires slot { slot < PAGE_WORDS }
    ensures start { result.start.0 ≡ page_start page + class * slot }
    ensures size { result.size ≡ class }
{
    Span {
        start: Addr(BASE + PAGE * page as u64 + class as u64 * slot as u64),
        size: class as u64,
    }
}

/// Takes the lowest free slot of a page of a class that has one, and tells its number.
fn take_lowest(table: &mut Table, page: usize, class: u32) -> usize
    requires marks { IsKept table.old }
    requires page { page < length table.old.classes.items }
    requires size { IsSize class }
    requires free { HasFree (sheets table.old) class page }
    ensures marks { IsKept table.new }
    ensures classes { table.new.classes.items ≡ table.old.classes.items }
    ensures slot { IsFreeAt (sheets table.old) class page result }
    ensures small { result < PAGE_WORDS }
    ensures live { (j : ℕ) → has table.new.live j ≡ (j == PAGE_WORDS * page + result || has table.old.live j) }
    ensures marked { table.new.live ≡ with_mark table.old.live (PAGE_WORDS * page + result) }
{
    let slot = lowest_slot(table, page, class);
    take_slot(table, page, class, slot);
    slot
}

/// Allocates a block in the lowest slab page of a class that has a free slot.
pub fn take_open(table: &mut Table, page: usize, class: u32) -> Span
    requires marks { IsKept table.old }
    requires page { page < length table.old.classes.items }
    requires size { IsSize class }
    requires free { HasFree (sheets table.old) class page }
    requires lowest { (q : ℕ) → q < page → IsFull (sheets table.old) class q }
    ensures marks { IsKept table.new }
    ensures size { result.size ≡ class }
    ensures place { (pages : List (Option Run)) (used : List Allocation) → Fits (sheets table.old) pages → AreLaid pages used → AreBlocks (sheets table.old) used → free_slot used class ≡ Some result.start.0 }
    ensures apart { (pages : List (Option Run)) (used : List Allocation) → Fits (sheets table.old) pages → AreLaid pages used → AreBlocks (sheets table.old) used → All (λ (x : Allocation). (x.start + x.size ≤ result.start.0) ⊎ (result.start.0 + result.size ≤ x.start)) used }
    ensures gains { Gains (sheets table.old) (sheets table.new) class result.start.0 }
    ensures takes { (pages : List (Option Run)) → Fits (sheets table.old) pages → Takes (sheets table.old) (sheets table.new) pages pages class result.start.0 }
    ensures fits { (pages : List (Option Run)) → Fits (sheets table.old) pages → Fits (sheets table.new) pages }
    ensures laid { (pages : List (Option Run)) (used : List Allocation) (x : Allocation) → Fits (sheets table.old) pages → AreLaid pages used → is_slab_block x ≡ true → x.size ≡ class → x.start ≡ result.start.0 → AreLaid pages (used ++ x ∷ []) }
    ensures blocks { (used : List Allocation) (x : Allocation) → AreBlocks (sheets table.old) used → is_slab_block x ≡ true → x.size ≡ class → x.start ≡ result.start.0 → AreBlocks (sheets table.new) (used ++ x ∷ []) }
{
    let slot = take_lowest(table, page, class);
    span_of(page, class, slot)
}

/// Allocates a block at the start of a new slab page.
pub fn take_new(table: &mut Table, pages: &mut Pages, class: u32) -> Result<Span, NoRoom>
    requires marks { IsKept table.old }
    requires size { IsSize class }
    requires fits { Fits (sheets table.old) pages.old }
    ensures marks { IsKept table.new }
    ensures size { IfOk result (λ s. s.size ≡ class) }
    ensures place { (used : List Allocation) → AreLaid pages.old used → start_of result ≡ run_place (PAGE_WORDS * length pages.old) used 1 }
    ensures lowest { IfOk result (λ s. (used : List Allocation) → AreLaid pages.old used → s.start.0 ≡ page_start (lowest_run used 1)) }
    ensures apart { IfOk result (λ s. (used : List Allocation) → AreLaid pages.old used → All (λ (x : Allocation). (x.start + x.size ≤ s.start.0) ⊎ (s.start.0 + s.size ≤ x.start)) used) }
    ensures gains { IfOk result (λ s. Gains (sheets table.old) (sheets table.new) class s.start.0) }
    ensures takes { IfOk result (λ s. Takes (sheets table.old) (sheets table.new) pages.old pages.new class s.start.0) }
    ensures still { (n b : ℕ) → IsSlot (sheets table.old) n b → IsSlot (sheets table.new) n b }
    ensures refused { OnErr result (sheets table.new ≡ sheets table.old) }
    ensures pages_stay { OnErr result (pages.new ≡ pages.old) }
    ensures pages_count { length pages.new ≡ length pages.old }
    ensures others { (other : kinds.Use) (p : ℕ) → same_use slab_use other ≡ false → run_from pages.new other p ≡ run_from pages.old other p }
    ensures fits { Fits (sheets table.new) pages.new }
    ensures laid { IfOk result (λ s. (used : List Allocation) (x : Allocation) → AreLaid pages.old used → is_slab_block x ≡ true → x.size ≡ class → x.start ≡ s.start.0 → AreLaid pages.new (used ++ x ∷ [])) }
    ensures blocks { IfOk result (λ s. (used : List Allocation) (x : Allocation) → AreBlocks (sheets table.old) used → is_slab_block x ≡ true → x.size ≡ class → x.start ≡ s.start.0 → AreBlocks (sheets table.new) (used ++ x ∷ [])) }
{
    let start = pages.take(1, Use::Slab)?;
    let page = ((start.0 - BASE) / PAGE) as usize;
    take_page(table, page, class);
    take_slot(table, page, class, 0);
    Ok(Span {
        start,
        size: class as u64,
    })
}

/// Allocates a block of a class: in the lowest free slot of its pages, or else on the lowest free page.
pub fn take_small(table: &mut Table, pages: &mut Pages, class: u32) -> Result<Span, NoRoom>
    requires marks { IsKept table.old }
    requires size { IsSize class }
    requires fits { Fits (sheets table.old) pages.old }
    ensures marks { IsKept table.new }
    ensures size { IfOk result (λ s. s.size ≡ class) }
    ensures place { (used : List Allocation) → AreLaid pages.old used → AreBlocks (sheets table.old) used → start_of result ≡ slab_place (PAGE_WORDS * length pages.old) used class }
    ensures lowest { IfOk result (λ s. (used : List Allocation) → AreLaid pages.old used → AreBlocks (sheets table.old) used → s.start.0 ≡ lowest_slab used class) }
    ensures apart { IfOk result (λ s. (used : List Allocation) → AreLaid pages.old used → AreBlocks (sheets table.old) used → All (λ (x : Allocation). (x.start + x.size ≤ s.start.0) ⊎ (s.start.0 + s.size ≤ x.start)) used) }
    ensures gains { IfOk result (λ s. Gains (sheets table.old) (sheets table.new) class s.start.0) }
    ensures takes { IfOk result (λ s. Takes (sheets table.old) (sheets table.new) pages.old pages.new class s.start.0) }
    ensures still { (n b : ℕ) → IsSlot (sheets table.old) n b → IsSlot (sheets table.new) n b }
    ensures refused { OnErr result (sheets table.new ≡ sheets table.old) }
    ensures pages_stay { OnErr result (pages.new ≡ pages.old) }
    ensures pages_count { length pages.new ≡ length pages.old }
    ensures others { (other : kinds.Use) (p : ℕ) → same_use slab_use other ≡ false → run_from pages.new other p ≡ run_from pages.old other p }
    ensures fits { Fits (sheets table.new) pages.new }
    ensures laid { IfOk result (λ s. (used : List Allocation) (x : Allocation) → AreLaid pages.old used → is_slab_block x ≡ true → x.size ≡ class → x.start ≡ s.start.0 → AreLaid pages.new (used ++ x ∷ [])) }
    ensures blocks { IfOk result (λ s. (used : List Allocation) (x : Allocation) → AreBlocks (sheets table.old) used → is_slab_block x ≡ true → x.size ≡ class → x.start ≡ s.start.0 → AreBlocks (sheets table.new) (used ++ x ∷ [])) }
{
    match open_page(table, class) {
        Some(page) => Ok(take_open(table, page, class)),
        None => take_new(table, pages, class),
    }
}

/// Gives a slab page back that has no live slots.
fn give_page(table: &mut Table, pages: &mut Pages, page: usize, class: u32)
    requires marks { IsKept table.old }
    requires page { page < length table.old.classes.items }
    requires class { slice_index_or table.old.classes.items page None ≡ Some class }
    requires dead { (i : ℕ) → i < PAGE_WORDS → has table.old.live (PAGE_WORDS * page + i) ≡ false }
    requires run { run_at pages.old slab_use (page_start page) ≡ Some 1 }
    ensures marks { IsKept table.new }
    ensures classes { table.new.classes.items ≡ slice_set table.old.classes.items page None }
    ensures live { table.new.live ≡ table.old.live }
    ensures pages_count { length pages.new ≡ length pages.old }
    ensures runs { (p : ℕ) → run_from pages.new slab_use p ≡ (if p == page then None else run_from pages.old slab_use p) }
    ensures others { (other : kinds.Use) (p : ℕ) → same_use slab_use other ≡ false → run_from pages.new other p ≡ run_from pages.old other p }
    ensures back { (before : List (Option Run)) → IsTaken before pages.old slab_use (page_start page) 1 → pages.new ≡ before }
    ensures emptied { (used : List Allocation) (b : ℕ) → AreLaid pages.old used → BeginAt used 1 (page_start page) b → AreLaid pages.new (without_allocation used b) }
{
    drop_page(table, page, class);
    match pages.give(Addr(BASE + PAGE * page as u64), Use::Slab) {
        Ok(_) => (),
        Err(_) => unreachable!(),
    }
}

/// Frees a live slot, and gives its page back where no other slot of it is live.
pub fn give_small(table: &mut Table, pages: &mut Pages, page: usize, class: u32, slot: usize)
    requires marks { IsKept table.old }
    requires fits { Fits (sheets table.old) pages.old }
    requires class { slice_index_or table.old.classes.items page None ≡ Some class }
    requires small { slot < PAGE_WORDS }
    requires live { has table.old.live (PAGE_WORDS * page + slot) ≡ true }
    ensures marks { IsKept table.new }
    ensures loses { Loses (sheets table.old) (sheets table.new) (page_start page + class * slot) }
    ensures back { (before : Sheets) (held : List (Option Run)) → TakesSlot before (sheets table.old) held pages.old class page slot → (sheets table.new ≡ before) × (pages.new ≡ held) }
    ensures pages_count { length pages.new ≡ length pages.old }
    ensures others { (other : kinds.Use) (p : ℕ) → same_use slab_use other ≡ false → run_from pages.new other p ≡ run_from pages.old other p }
    ensures fits { Fits (sheets table.new) pages.new }
    ensures laid { (used : List Allocation) → AreLaid pages.old used → AreBlocks (sheets table.old) used → AreLaid pages.new (without_allocation used (page_start page + class * slot)) }
    ensures blocks { (used : List Allocation) → AreBlocks (sheets table.old) used → AreBlocks (sheets table.new) (without_allocation used (page_start page + class * slot)) }
{
    give_slot(table, page, class, slot);
    match table
        .live
        .lowest(SLOT_WORDS * page, SLOT_WORDS * page + SLOT_WORDS)
    {
        Some(_) => (),
        None => give_page(table, pages, page, class),
    }
}
