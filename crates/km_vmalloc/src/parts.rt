//! A head among the slab blocks, and a run of pages.

ghost use Rattle.std.specs.Prelude.{◌≡◌, ◌+◌, ◌*◌, ◌<◌, ◌≤◌, ◌==◌, ◌⊎◌, ◌↔◌, ℕ, List, ◌∷◌, [], ◌++◌, length, Option, Some, None, true, false, IfOk, OnErr, option_map, if◌then◌else◌};
ghost use Rattle.std.specs.List.{All};
ghost use Rattle.std.specs.Result.{result_ok};
ghost use Rattle.km_base.specs.declared.sizes.TheConstants.{PAGE, PAGE_WORDS};
ghost use Rattle.km_model.specs.Placement.{Allocation, area_place, lowest_slab, next_head, page_of, pages_for, run_place, without_allocation};
ghost use Rattle.km_pages.specs.declared.runs.Run.{Run};
ghost use Rattle.km_pages.specs.declared.runs.Use as kinds;
ghost use Rattle.km_pages.specs.declared.runs.Use.TheVariants.{Large as large_use, Slab as slab_use, Vmalloc as vmalloc_use};
ghost use Rattle.km_pages.specs.Uses.{same_use};
ghost use Rattle.km_pages.specs.Runs.{run_at, run_from};
ghost use Rattle.km_pages.specs.Laid.{AreLaid, Fills};
ghost use Rattle.km_slab.specs.Blocks.{AreBlocks, Fits as SlabFits, Gains, IsSlot, Loses, Sheets, Takes};
ghost use Rattle.km_vmalloc.specs.Areas.{IsApart, IsPlaced, as_area};

use km_base::sizes::PAGE;
use km_base::{Addr, Span};
use km_pages::{NoRoom, Pages, Use};
use km_slab::Slab;

/// The bytes of a head.
const HEAD: u64 = 64;

/// The pages that so many bytes need.
fn pages_needed(size: u64) -> u32
    requires some { 0 < size }
    requires most { size ≤ 1048576 }
    ensures pages { result ≡ pages_for size }
    ensures some { 0 < result }
{
    ((size + PAGE - 1) / PAGE) as u32
}

/// Takes the pages of an area.
fn take_run(pages: &mut Pages, size: u64) -> Result<Span, NoRoom>
    requires some { 0 < size }
    requires most { size ≤ 1048576 }
    ensures place { (used : List Allocation) → AreLaid pages.old used → option_map (λ s. s.start.0) (result_ok result) ≡ run_place (PAGE_WORDS * length pages.old) used (pages_for size) }
    ensures size { IfOk result (λ s. s.size ≡ PAGE * pages_for size) }
    ensures apart { IfOk result (λ s. (used : List Allocation) → AreLaid pages.old used → All (IsApart s) used) }
    ensures fresh { IfOk result (λ s. run_at pages.old vmalloc_use s.start.0 ≡ None) }
    ensures pages_stay { OnErr result (pages.new ≡ pages.old) }
    ensures pages_count { length pages.new ≡ length pages.old }
    ensures runs { IfOk result (λ s. (p : ℕ) → run_from pages.new vmalloc_use p ≡ (if p == page_of s.start.0 then Some (pages_for size) else run_from pages.old vmalloc_use p)) }
    ensures here { IfOk result (λ s. run_at pages.new vmalloc_use s.start.0 ≡ Some (pages_for size)) }
    ensures others { (other : kinds.Use) (p : ℕ) → same_use vmalloc_use other ≡ false → run_from pages.new other p ≡ run_from pages.old other p }
    ensures laid { IfOk result (λ s. (used : List Allocation) (slot : ℕ) → AreLaid pages.old used → AreLaid pages.new (used ++ as_area slot s ∷ [])) }
{
    let count = pages_needed(size);
    let Ok(start) = pages.take(count, Use::Vmalloc) else {
        return Err(NoRoom);
    };
    Ok(Span {
        start,
        size: PAGE * count as u64,
    })
}

/// Gives the pages of an area back.
fn give_run(pages: &mut Pages, start: Addr)
    requires { (n : ℕ) × (run_at pages.old vmalloc_use start.0 ≡ Some n) }
    ensures pages_count { length pages.new ≡ length pages.old }
    ensures runs { (p : ℕ) → run_from pages.new vmalloc_use p ≡ (if p == page_of start.0 then None else run_from pages.old vmalloc_use p) }
    ensures others { (other : kinds.Use) (p : ℕ) → same_use vmalloc_use other ≡ false → run_from pages.new other p ≡ run_from pages.old other p }
    ensures laid { (used : List Allocation) → AreLaid pages.old used → AreLaid pages.new (without_allocation used start.0) }
{
    match pages.give(start, Use::Vmalloc) {
        Ok(_) => (),
        Err(_) => unreachable!(),
    }
}

/// Gives a head back.
fn give_head(pages: &mut Pages, slab: &mut Slab, head: Addr)
    requires fits { SlabFits slab.old pages.old }
    requires live { IsSlot slab.old 64 head.0 }
    ensures fits { SlabFits slab.new pages.new }
    ensures loses { Loses slab.old slab.new head.0 }
    ensures back { (before : Sheets) (held : List (Option Run)) (n : ℕ) → Takes before slab.old held pages.old n head.0 → (slab.new ≡ before) × (pages.new ≡ held) }
    ensures pages_count { length pages.new ≡ length pages.old }
    ensures others { (other : kinds.Use) (p : ℕ) → same_use slab_use other ≡ false → run_from pages.new other p ≡ run_from pages.old other p }
    ensures laid { (used : List Allocation) → AreLaid pages.old used → AreBlocks slab.old used → AreLaid pages.new (without_allocation used head.0) }
    ensures blocks { (used : List Allocation) → AreBlocks slab.old used → AreBlocks slab.new (without_allocation used head.0) }
{
    match slab.kfree(pages, head) {
        Ok(_) => (),
        Err(_) => unreachable!(),
    }
}

/// Takes a head and then pages for an area; where these have no room the head is given back.
pub fn take_parts(pages: &mut Pages, slab: &mut Slab, size: u64) -> Result<(Span, Span), NoRoom>
    requires some { 0 < size }
    requires most { size ≤ 1048576 }
    requires fits { SlabFits slab.old pages.old }
    ensures place { (used : List Allocation) → AreLaid pages.old used → AreBlocks slab.old used → option_map (λ r. r.1.start.0) (result_ok result) ≡ area_place (PAGE_WORDS * length pages.old) used size }
    ensures parts { IfOk result (λ r. IsPlaced pages.old slab.old pages.new slab.new size r.0 r.1) }
    ensures slab_stays { OnErr result (slab.new ≡ slab.old) }
    ensures pages_stay { OnErr result (pages.new ≡ pages.old) }
    ensures fits { SlabFits slab.new pages.new }
    ensures still { (n b : ℕ) → IsSlot slab.old n b → IsSlot slab.new n b }
    ensures pages_count { length pages.new ≡ length pages.old }
    ensures others { (other : kinds.Use) (p : ℕ) → same_use slab_use other ≡ false → same_use vmalloc_use other ≡ false → run_from pages.new other p ≡ run_from pages.old other p }
{
    let Ok(head) = slab.kmalloc(pages, HEAD) else {
        return Err(NoRoom);
    };
    match take_run(pages, size) {
        Ok(area) => Ok((head, area)),
        Err(_) => {
            give_head(pages, slab, head.start);
            Err(NoRoom)
        }
    }
}

/// Gives an area's pages back, and then its head.
pub fn give_parts(pages: &mut Pages, slab: &mut Slab, start: Addr, head: Addr)
    requires fits { SlabFits slab.old pages.old }
    requires live { IsSlot slab.old 64 head.0 }
    requires run { (n : ℕ) × (run_at pages.old vmalloc_use start.0 ≡ Some n) }
    ensures fits { SlabFits slab.new pages.new }
    ensures loses { Loses slab.old slab.new head.0 }
    ensures pages_count { length pages.new ≡ length pages.old }
    ensures runs { (p : ℕ) → run_from pages.new vmalloc_use p ≡ (if p == page_of start.0 then None else run_from pages.old vmalloc_use p) }
    ensures others { (other : kinds.Use) (p : ℕ) → same_use slab_use other ≡ false → same_use vmalloc_use other ≡ false → run_from pages.new other p ≡ run_from pages.old other p }
    ensures laid { (used : List Allocation) → AreLaid pages.old used → AreBlocks slab.old used → AreLaid pages.new (without_allocation (without_allocation used start.0) head.0) }
    ensures blocks { (used : List Allocation) → AreLaid pages.old used → AreBlocks slab.old used → AreBlocks slab.new (without_allocation (without_allocation used start.0) head.0) }
{
    give_run(pages, start);
    give_head(pages, slab, head);
}
