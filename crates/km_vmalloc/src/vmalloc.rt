//! The vmalloc host.

ghost use Rattle.std.specs.Prelude.{◌≡◌, ◌+◌, ◌*◌, ◌<◌, ◌↔◌, ℕ, List, ◌∷◌, [], ◌++◌, length, slice_set, Option, Some, None, true, false, is_ok, is_some, option_map, IfOk, IfSome, OnErr};
ghost use Rattle.std.specs.List.{All, list_any};
ghost use Rattle.km_base.specs.declared.sizes.TheConstants.{PAGE, PAGE_WORDS, VMAP_SLOTS};
ghost use Rattle.km_model.specs.Placement.{Allocation, head_with, lowest_slab, lowest_slot, pages_for, slot_of_area};
ghost use Rattle.km_pages.specs.declared.runs.Run.{Run};
ghost use Rattle.km_pages.specs.declared.runs.Use as kinds;
ghost use Rattle.km_pages.specs.declared.runs.Use.TheVariants.{Slab as slab_use, Vmalloc as vmalloc_use};
ghost use Rattle.km_pages.specs.Uses.{same_use};
ghost use Rattle.km_pages.specs.Runs.{run_from};
ghost use Rattle.km_pages.specs.Laid.{AreLaid};
ghost use Rattle.km_slab.specs.Blocks.{AreBlocks, Fits as SlabFits, IsSlot, Loses, Sheets};
ghost use Rattle.km_vmalloc.specs.declared.areas.VmArea.{VmArea};
ghost use Rattle.km_vmalloc.specs.declared.vmalloc.TheConstants.{PAGES};
ghost use Rattle.km_vmalloc.specs.Areas.{AreAreas, Fits, IsApart, answer_of, area_at, head_of, is_head_at, is_part, vmalloc_answer, with_area, without_area};

use crate::areas::{VmArea, area_beginning, free_slot, has_head};
use crate::errors::VmFault;
use crate::parts::{give_parts, take_parts};
use km_base::sizes::{PAGE, VMAP_SLOTS};
use km_base::{Addr, NoMemory};
use km_pages::{NotAllocated, Pages};
use km_slab::Slab;
use std::alloc::Global;
use std::marker::Model;

/// The most bytes that can be asked for.
const MOST: u64 = 1_048_576;

/// The most pages that a memory can have.
const PAGES: usize = 8192;

/// The live areas, by their vmap slots.
#[derive(Drop)]
pub struct Vmalloc {
    areas: Vec<Option<VmArea>>,
    // No area is live from this slot on.
    reach: usize,
    // By the page where an area begins, the slot of the last that began there: where to look first.
    hints: Vec<u32>,
}

impl Model for Vmalloc {
    ghost use Rattle.std.specs.Prelude.{List, Option};
    ghost use Rattle.km_vmalloc.specs.declared.areas.VmArea.{VmArea};
    ghost use Rattle.km_vmalloc.specs.Areas.{AreSeen};

    ghost Value = { List (Option VmArea) };

    ghost view = { λ s. s.areas.items };

    ghost invariant = { λ s. AreSeen s.areas.items s.reach s.hints.items };
}

/// The place of an area's hint.
fn place(start: Addr) -> usize
    ensures { result < PAGES }
{
    (start.0 / PAGE) as usize % PAGES
}

/// All slots, with no live area.
fn no_areas(alloc: Global) -> Result<Vec<Option<VmArea>>, NoMemory>
    ensures count { IfOk result (λ v. length v.items ≡ VMAP_SLOTS) }
    ensures none { IfOk result (λ v. (s : ℕ) → area_at v.items s ≡ None) }
{
    match vec![in alloc; None; VMAP_SLOTS] {
        Ok(areas) => Ok(areas),
        Err(_) => Err(NoMemory),
    }
}

impl Vmalloc {
    /// No areas, with memory for all that can live at once.
    pub fn new(alloc: Global) -> Result<Vmalloc, NoMemory>
        ensures none { IfOk result (λ m. (s : ℕ) → area_at m s ≡ None) }
        ensures fits { IfOk result (λ m. (slab : Sheets) (pages : List (Option Run)) → ((p : ℕ) → run_from pages vmalloc_use p ≡ None) → Fits m slab pages) }
        ensures areas { IfOk result (λ m. (used : List Allocation) → All (λ (x : Allocation). is_part x ≡ false) used → AreAreas m used) }
    {
        let areas = no_areas(alloc)?;
        match vec![in alloc; 0; PAGES] {
            Ok(hints) => Ok(Vmalloc {
                areas,
                reach: 0,
                hints,
            }),
            Err(_) => Err(NoMemory),
        }
    }

    /// Takes a head and then pages for an area; where these have no room the head is given back.
    pub fn take(&mut self, pages: &mut Pages, slab: &mut Slab, size: u64) -> Result<VmArea, VmFault>
        requires slab_fits { SlabFits slab.old pages.old }
        requires fits { Fits self.old slab.old pages.old }
        ensures answer { (used : List Allocation) → AreLaid pages.old used → AreBlocks slab.old used → AreAreas self.old used → answer_of result ≡ vmalloc_answer (PAGE_WORDS * length pages.old) used size }
        ensures head { IfOk result (λ v. (used : List Allocation) → AreLaid pages.old used → AreBlocks slab.old used → v.head.start.0 ≡ lowest_slab used 64) }
        ensures slot { IfOk result (λ v. (used : List Allocation) → AreAreas self.old used → v.slot ≡ lowest_slot used) }
        ensures sizes { IfOk result (λ v. (v.head.size ≡ 64) × (v.area.size ≡ PAGE * pages_for size)) }
        ensures head_apart { IfOk result (λ v. (used : List Allocation) → AreLaid pages.old used → AreBlocks slab.old used → All (IsApart v.head) used) }
        ensures area_apart { IfOk result (λ v. (used : List Allocation) → AreLaid pages.old used → AreBlocks slab.old used → All (IsApart v.area) (used ++ head_of v ∷ [])) }
        ensures free { IfOk result (λ v. area_at self.old v.slot ≡ None) }
        ensures taken { IfOk result (λ v. self.new ≡ slice_set self.old v.slot (Some v)) }
        ensures refused { OnErr result (self.new ≡ self.old) }
        ensures slab_stays { OnErr result (slab.new ≡ slab.old) }
        ensures pages_stay { OnErr result (pages.new ≡ pages.old) }
        ensures slots_back { OnErr result ((n b : ℕ) → IsSlot slab.new n b ↔ IsSlot slab.old n b) }
        ensures runs_back { OnErr result ((kind : kinds.Use) (p : ℕ) → run_from pages.new kind p ≡ run_from pages.old kind p) }
        ensures laid_back { OnErr result ((used : List Allocation) → AreLaid pages.old used → AreBlocks slab.old used → AreLaid pages.new used) }
        ensures blocks_back { OnErr result ((used : List Allocation) → AreLaid pages.old used → AreBlocks slab.old used → AreBlocks slab.new used) }
        ensures still { (n b : ℕ) → IsSlot slab.old n b → IsSlot slab.new n b }
        ensures pages_count { length pages.new ≡ length pages.old }
        ensures others { (other : kinds.Use) (p : ℕ) → same_use slab_use other ≡ false → same_use vmalloc_use other ≡ false → run_from pages.new other p ≡ run_from pages.old other p }
        ensures slab_fits { SlabFits slab.new pages.new }
        ensures fits { Fits self.new slab.new pages.new }
        ensures laid { IfOk result (λ v. (used : List Allocation) → AreLaid pages.old used → AreBlocks slab.old used → AreLaid pages.new (with_area used v)) }
        ensures blocks { IfOk result (λ v. (used : List Allocation) → AreBlocks slab.old used → AreBlocks slab.new (with_area used v)) }
        ensures areas { IfOk result (λ v. (used : List Allocation) → AreAreas self.old used → AreAreas self.new (with_area used v)) }
    {
        if size == 0 || size > MOST {
            return Err(VmFault::BadSize);
        }
        let Some(slot) = free_slot(&self.areas, self.reach) else {
            return Err(VmFault::NoSlot);
        };
        let Ok((head, area)) = take_parts(pages, slab, size) else {
            return Err(VmFault::NoRoom);
        };
        let taken = VmArea {
            head,
            area,
            slot: slot as u32,
        };
        self.areas[slot] = Some(taken);
        self.reach = self.reach.max(slot + 1);
        self.hints[place(area.start)] = slot as u32;
        Ok(taken)
    }

    /// The live area that begins at an address.
    pub fn find(&self, start: Addr) -> Option<VmArea>
        ensures live { IfSome result (λ v. area_at self.now v.slot ≡ Some v) }
        ensures start { IfSome result (λ v. v.area.start ≡ start) }
        ensures none { result ≡ None → (s : ℕ) (v : VmArea) → area_at self.now s ≡ Some v → v.area.start ≡ start → ⊥ }
        ensures among { (slab : Sheets) (pages : List (Option Run)) (used : List Allocation) → Fits self.now slab pages → AreAreas self.now used → slot_of_area used start.0 ≡ option_map (λ v. v.slot) result }
    {
        let slot = self.hints[place(start)] as usize;
        area_beginning(&self.areas, self.reach, slot, start)
    }

    /// Gives an area's pages back, and then its head.
    pub fn give(
        &mut self,
        pages: &mut Pages,
        slab: &mut Slab,
        start: Addr,
    ) -> Result<VmArea, NotAllocated>
        requires slab_fits { SlabFits slab.old pages.old }
        requires fits { Fits self.old slab.old pages.old }
        ensures live { IfOk result (λ v. (area_at self.old v.slot ≡ Some v) × (v.area.start ≡ start)) }
        ensures none { OnErr result ((s : ℕ) (v : VmArea) → area_at self.old s ≡ Some v → v.area.start ≡ start → ⊥) }
        ensures answer { (used : List Allocation) → AreAreas self.old used → is_ok result ≡ is_some (slot_of_area used start.0) }
        ensures slot { IfOk result (λ v. (used : List Allocation) → AreAreas self.old used → slot_of_area used start.0 ≡ Some v.slot) }
        ensures head { IfOk result (λ v. (used : List Allocation) → AreAreas self.old used → head_with used v.slot ≡ Some v.head.start.0) }
        ensures gone { IfOk result (λ v. self.new ≡ slice_set self.old v.slot None) }
        ensures refused { OnErr result (self.new ≡ self.old) }
        ensures slab_stays { OnErr result (slab.new ≡ slab.old) }
        ensures pages_stay { OnErr result (pages.new ≡ pages.old) }
        ensures loses { IfOk result (λ v. Loses slab.old slab.new v.head.start.0) }
        ensures pages_count { length pages.new ≡ length pages.old }
        ensures others { (other : kinds.Use) (p : ℕ) → same_use slab_use other ≡ false → same_use vmalloc_use other ≡ false → run_from pages.new other p ≡ run_from pages.old other p }
        ensures slab_fits { SlabFits slab.new pages.new }
        ensures fits { Fits self.new slab.new pages.new }
        ensures laid { IfOk result (λ v. (used : List Allocation) → AreLaid pages.old used → AreBlocks slab.old used → AreLaid pages.new (without_area used v)) }
        ensures blocks { IfOk result (λ v. (used : List Allocation) → AreLaid pages.old used → AreBlocks slab.old used → AreBlocks slab.new (without_area used v)) }
        ensures areas { IfOk result (λ v. (used : List Allocation) → AreAreas self.old used → AreAreas self.new (without_area used v)) }
    {
        let Some(area) = self.find(start) else {
            return Err(NotAllocated);
        };
        give_parts(pages, slab, start, area.head.start);
        self.areas[area.slot as usize] = None;
        Ok(area)
    }

    /// Whether the head of a live area begins at an address.
    pub fn owns(&self, start: Addr) -> bool
        ensures live { result ≡ true → (s : ℕ) × (v : VmArea) × (area_at self.now s ≡ Some v) × (v.head.start ≡ start) }
        ensures none { result ≡ false → (s : ℕ) (v : VmArea) → area_at self.now s ≡ Some v → v.head.start ≡ start → ⊥ }
        ensures among { (used : List Allocation) → AreAreas self.now used → result ≡ list_any (is_head_at start.0) used }
    {
        has_head(&self.areas, self.reach, start)
    }
}
