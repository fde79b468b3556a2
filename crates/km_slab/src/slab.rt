//! The slab host.

ghost use Rattle.std.specs.Prelude.{◌≡◌, ◌+◌, ◌*◌, ◌<◌, ◌≤◌, ◌⊎◌, ℕ, List, ◌∷◌, [], ◌++◌, length, replicate, Option, None, true, false, IfOk, OnErr, is_ok, nat_le};
ghost use Rattle.std.specs.List.{All, list_any};
ghost use Rattle.km_base.specs.declared.sizes.TheConstants.{PAGE, PAGE_WORDS};
ghost use Rattle.km_model.specs.Placement.{Allocation, class_of, is_slab_block, kmalloc_span, lowest_slab, without_allocation};
ghost use Rattle.km_pages.specs.declared.runs.Run.{Run};
ghost use Rattle.km_pages.specs.declared.runs.Use as kinds;
ghost use Rattle.km_pages.specs.declared.runs.Use.TheVariants.{Large as large_use, Slab as slab_use};
ghost use Rattle.km_pages.specs.Uses.{same_use};
ghost use Rattle.km_pages.specs.Runs.{run_from};
ghost use Rattle.km_pages.specs.Laid.{AreLaid};
ghost use Rattle.km_slab.specs.Blocks.{AreBlocks, Fits, Gains, IsBlock, IsSlot, Loses, Sheets, Takes, answer_of, is_block_at, is_live, kmalloc_answer};

use crate::blocks::take_block;
use crate::errors::SlabFault;
use crate::large::give_large;
use crate::small::give_small;
use crate::table::{SLOT_WORDS, SLOTS, Table, slot_at};
use km_base::{Addr, NoMemory, Span};
use km_marks::Marks;
use km_pages::{NoRoom, NotAllocated, Pages};
use std::alloc::Global;
use std::marker::Model;

/// The most bytes of a block.
const MOST: u64 = 32768;

/// The slab pages of a memory, and which of their slots are live.
#[derive(Drop)]
pub struct Slab {
    table: Table,
}

impl Model for Slab {
    ghost use Rattle.km_slab.specs.Blocks.{Sheets};
    ghost use Rattle.km_slab.specs.Tables.{IsKept, sheets};

    ghost Value = { Sheets };

    ghost view = { λ s. sheets s.table };

    ghost invariant = { λ s. IsKept s.table };
}

impl Slab {
    /// A host for a memory of so many pages, with no blocks.
    pub fn new(alloc: Global, pages: u32) -> Result<Slab, NoMemory>
        ensures pages { IfOk result (λ s. s.classes ≡ replicate pages None) }
        ensures none { IfOk result (λ s. (p i : ℕ) → is_live s p i ≡ false) }
        ensures fits { IfOk result (λ s. (held : List (Option Run)) → length held ≡ pages → ((p : ℕ) → run_from held slab_use p ≡ None) → Fits s held) }
        ensures blocks { IfOk result (λ s. (used : List Allocation) → All (λ (x : Allocation). is_slab_block x ≡ false) used → AreBlocks s used) }
    {
        let count = pages as usize;
        let row = count / 64 + 1;
        let Ok(classes) = vec![in alloc; None; count] else {
            return Err(NoMemory);
        };
        Ok(Slab {
            table: Table {
                classes,
                free: Marks::new(alloc, SLOT_WORDS * count)?,
                live: Marks::new(alloc, SLOT_WORDS * count)?,
                opened: Marks::new(alloc, (SLOTS + 1) * row)?,
                row,
            },
        })
    }

    /// Allocates a block: a slot of a slab page up to 4096 bytes, whole pages above.
    pub fn kmalloc(&mut self, pages: &mut Pages, size: u64) -> Result<Span, SlabFault>
        requires { Fits self.old pages.old }
        ensures answer { (used : List Allocation) → AreLaid pages.old used → AreBlocks self.old used → answer_of result ≡ kmalloc_answer (PAGE_WORDS * length pages.old) used size }
        ensures lowest { IfOk result (λ s. (used : List Allocation) → AreLaid pages.old used → AreBlocks self.old used → nat_le size PAGE ≡ true → s.start.0 ≡ lowest_slab used (class_of size)) }
        ensures span { IfOk result (λ s. s.size ≡ kmalloc_span size) }
        ensures apart { IfOk result (λ s. (used : List Allocation) → AreLaid pages.old used → AreBlocks self.old used → All (λ (x : Allocation). (x.start + x.size ≤ s.start.0) ⊎ (s.start.0 + s.size ≤ x.start)) used) }
        ensures gains { IfOk result (λ s. nat_le size PAGE ≡ true → Gains self.old self.new s.size s.start.0) }
        ensures takes { IfOk result (λ s. nat_le size PAGE ≡ true → Takes self.old self.new pages.old pages.new s.size s.start.0) }
        ensures large { nat_le size PAGE ≡ false → self.new ≡ self.old }
        ensures still { (n b : ℕ) → IsSlot self.old n b → IsSlot self.new n b }
        ensures refused { OnErr result (self.new ≡ self.old) }
        ensures pages_stay { OnErr result (pages.new ≡ pages.old) }
        ensures pages_count { length pages.new ≡ length pages.old }
        ensures others { (other : kinds.Use) (p : ℕ) → same_use slab_use other ≡ false → same_use large_use other ≡ false → run_from pages.new other p ≡ run_from pages.old other p }
        ensures small { nat_le size PAGE ≡ true → (other : kinds.Use) (p : ℕ) → same_use slab_use other ≡ false → run_from pages.new other p ≡ run_from pages.old other p }
        ensures fits { Fits self.new pages.new }
        ensures laid { IfOk result (λ s. (used : List Allocation) (x : Allocation) → AreLaid pages.old used → IsBlock size s.start.0 x → AreLaid pages.new (used ++ x ∷ [])) }
        ensures blocks { IfOk result (λ s. (used : List Allocation) (x : Allocation) → AreBlocks self.old used → IsBlock size s.start.0 x → AreBlocks self.new (used ++ x ∷ [])) }
    {
        if size == 0 || size > MOST {
            return Err(SlabFault::BadSize);
        }
        match take_block(&mut self.table, pages, size as u32) {
            Ok(block) => Ok(block),
            Err(NoRoom) => Err(SlabFault::NoRoom),
        }
    }

    /// Frees a block, and gives its page back where no other block of it is live.
    pub fn kfree(&mut self, pages: &mut Pages, start: Addr) -> Result<Span, NotAllocated>
        requires { Fits self.old pages.old }
        ensures answer { (used : List Allocation) → AreLaid pages.old used → AreBlocks self.old used → is_ok result ≡ list_any (is_block_at start.0) used }
        ensures start { IfOk result (λ s. s.start ≡ start) }
        ensures span { IfOk result (λ s. (used : List Allocation) → AreLaid pages.old used → AreBlocks self.old used → All (λ (x : Allocation). is_block_at start.0 x ≡ true → x.size ≡ s.size) used) }
        ensures live { (n : ℕ) → IsSlot self.old n start.0 → IfOk result (λ s. (s.size ≡ n) × Loses self.old self.new start.0) × (is_ok result ≡ true) }
        ensures back { (before : Sheets) (held : List (Option Run)) (n : ℕ) → Takes before self.old held pages.old n start.0 → (self.new ≡ before) × (pages.new ≡ held) }
        ensures large { ((n : ℕ) → IsSlot self.old n start.0 → ⊥) → self.new ≡ self.old }
        ensures still { (n b : ℕ) → IsSlot self.old n b → (b ≡ start.0 → ⊥) → IsSlot self.new n b }
        ensures refused { OnErr result (self.new ≡ self.old) }
        ensures pages_stay { OnErr result (pages.new ≡ pages.old) }
        ensures pages_count { length pages.new ≡ length pages.old }
        ensures others { (other : kinds.Use) (p : ℕ) → same_use slab_use other ≡ false → same_use large_use other ≡ false → run_from pages.new other p ≡ run_from pages.old other p }
        ensures small { (n : ℕ) → IsSlot self.old n start.0 → (other : kinds.Use) (p : ℕ) → same_use slab_use other ≡ false → run_from pages.new other p ≡ run_from pages.old other p }
        ensures fits { Fits self.new pages.new }
        ensures laid { IfOk result (λ _. (used : List Allocation) → AreLaid pages.old used → AreBlocks self.old used → AreLaid pages.new (without_allocation used start.0)) }
        ensures blocks { IfOk result (λ _. (used : List Allocation) → AreBlocks self.old used → AreBlocks self.new (without_allocation used start.0)) }
    {
        let Some((page, class, slot)) = slot_at(&self.table, start) else {
            return give_large(pages, start);
        };
        give_small(&mut self.table, pages, page, class, slot);
        Ok(Span {
            start,
            size: class as u64,
        })
    }
}
