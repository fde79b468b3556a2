//! Blocks of whole pages.

ghost use Rattle.std.specs.Prelude.{◌≡◌, ◌+◌, ◌*◌, ◌<◌, ◌≤◌, ◌⊎◌, ℕ, List, ◌∷◌, [], ◌++◌, length, true, false, IfOk, OnErr, is_ok};
ghost use Rattle.std.specs.List.{All, list_any};
ghost use Rattle.km_base.specs.declared.sizes.TheConstants.{PAGE, PAGE_WORDS};
ghost use Rattle.km_model.specs.Placement.{Allocation, LargeRun, pages_for, run_place, without_allocation};
ghost use Rattle.km_pages.specs.declared.runs.Use as kinds;
ghost use Rattle.km_pages.specs.declared.runs.Use.TheVariants.{Large as large_use};
ghost use Rattle.km_pages.specs.Uses.{same_use};
ghost use Rattle.km_pages.specs.Runs.{run_from};
ghost use Rattle.km_pages.specs.Laid.{AreLaid};
ghost use Rattle.km_slab.specs.Blocks.{is_large_at, start_of};

use crate::classes::pages_needed;
use km_base::sizes::PAGE;
use km_base::{Addr, Span};
use km_pages::{NoRoom, NotAllocated, Pages, Use};

/// Allocates a block of as many pages as a size needs.
pub fn take_large(pages: &mut Pages, size: u32) -> Result<Span, NoRoom>
    requires some { 0 < size }
    requires small { size ≤ 32768 }
    ensures place { (used : List Allocation) → AreLaid pages.old used → start_of result ≡ run_place (PAGE_WORDS * length pages.old) used (pages_for size) }
    ensures size { IfOk result (λ s. s.size ≡ PAGE * pages_for size) }
    ensures apart { IfOk result (λ s. (used : List Allocation) → AreLaid pages.old used → All (λ (x : Allocation). (x.start + x.size ≤ s.start.0) ⊎ (s.start.0 + s.size ≤ x.start)) used) }
    ensures pages_stay { OnErr result (pages.new ≡ pages.old) }
    ensures pages_count { length pages.new ≡ length pages.old }
    ensures others { (other : kinds.Use) (p : ℕ) → same_use large_use other ≡ false → run_from pages.new other p ≡ run_from pages.old other p }
    ensures laid { IfOk result (λ s. (used : List Allocation) (x : Allocation) → AreLaid pages.old used → x.«use» ≡ LargeRun → x.size ≡ PAGE * pages_for size → x.start ≡ s.start.0 → AreLaid pages.new (used ++ x ∷ [])) }
{
    let count = pages_needed(size);
    let Ok(start) = pages.take(count, Use::Large) else {
        return Err(NoRoom);
    };
    Ok(Span {
        start,
        size: PAGE * count as u64,
    })
}

/// Frees such a block.
pub fn give_large(pages: &mut Pages, start: Addr) -> Result<Span, NotAllocated>
    ensures answer { (used : List Allocation) → AreLaid pages.old used → is_ok result ≡ list_any (is_large_at start.0) used }
    ensures start { IfOk result (λ s. s.start ≡ start) }
    ensures span { IfOk result (λ s. (used : List Allocation) → AreLaid pages.old used → All (λ (x : Allocation). is_large_at start.0 x ≡ true → x.size ≡ s.size) used) }
    ensures pages_stay { OnErr result (pages.new ≡ pages.old) }
    ensures pages_count { length pages.new ≡ length pages.old }
    ensures others { (other : kinds.Use) (p : ℕ) → same_use large_use other ≡ false → run_from pages.new other p ≡ run_from pages.old other p }
    ensures laid { IfOk result (λ _. (used : List Allocation) → AreLaid pages.old used → AreLaid pages.new (without_allocation used start.0)) }
{
    let Ok(count) = pages.give(start, Use::Large) else {
        return Err(NotAllocated);
    };
    Ok(Span {
        start,
        size: PAGE * count as u64,
    })
}
