//! The hosts of one memory.

ghost use Rattle.std.specs.Prelude.{◌≡◌, ◌+◌, ◌*◌, ◌<◌, ◌≤◌, ◌^◌, ℕ, List, ◌∷◌, [], ◌++◌, length, Option, Some, None, true, false, not, is_some, is_none, option_map, IfErr, IfOk, IfSome, OnErr};
ghost use Rattle.std.specs.Result.{result_ok};
ghost use Rattle.std.specs.List.{list_any};
ghost use Rattle.km_base.specs.declared.sizes.TheConstants.{PAGE};
ghost use Rattle.km_base.specs.declared.acts.Answer.TheVariants.{Done};
ghost use Rattle.km_base.specs.declared.acts.Refusal.TheVariants as refusal;
ghost use Rattle.km_model.specs.Memory.{base};
ghost use Rattle.km_model.specs.Answers.{is_boot_with, is_kmalloc_at, is_plain_at, unless};
ghost use Rattle.km_model.specs.Placement.{Allocation, AreaRun, BootRun, HeadBlock, PlainRun, SectionRun, StackPage, head_with, kmalloc_span, kmalloc_use, lowest_run, lowest_slab, lowest_slot, page_start, pages_for, run_place, slot_of_area, without_allocation};
ghost use Rattle.km_model.specs.Tasks.{Task, register, task_named};
ghost use Rattle.km_model.specs.World.{opening, section_named};
ghost use Rattle.km_sections.specs.Named.{section_answer};
ghost use Rattle.km_slab.specs.Blocks.{kmalloc_answer};
ghost use Rattle.km_tasks.specs.Roll.{start_answer, with_task, with_value, without};
ghost use Rattle.km_vmalloc.specs.Areas.{area_at, vmalloc_answer};
ghost use Rattle.km_vmalloc.specs.declared.areas.VmArea.{VmArea as Area};
ghost use Rattle.km_hosts.specs.Hosting.{Hold, StartsDiffer, at, at_area, at_span, boot_answer, done, pages_answer, with_use, words_in};

use crate::refusals;
use km_base::{Addr, Name, NoMemory, Refusal, Reg, Span};
use km_pages::{Pages, Use};
use km_sections::Sections;
use km_slab::Slab;
use km_tasks::Tasks;
use km_vmalloc::{VmArea, Vmalloc};
use std::alloc::Global;
use std::marker::Model;

/// The most pages of an untracked run.
const MOST_PAGES: u64 = 1024;

/// The most bytes of boot memory that can be asked for at once.
const MOST_BOOT: u64 = 1_048_576;

/// The hosts of one memory. What one of them does leaves all runs of the others as they are.
#[derive(Drop)]
pub struct Hosts {
    pages: Pages,
    slab: Slab,
    vmalloc: Vmalloc,
    sections: Sections,
    tasks: Tasks,
}

impl Model for Hosts {
    ghost use Rattle.km_hosts.specs.Hosting.{Agree, Hosting};

    ghost Value = { Hosting };

    ghost view = { λ h. record { pages = h.pages; slab = h.slab; areas = h.vmalloc; sections = h.sections; roll = h.tasks } };

    ghost invariant = { λ h. Agree (record { pages = h.pages; slab = h.slab; areas = h.vmalloc; sections = h.sections; roll = h.tasks }) };
}

impl Hosts {
    /// The hosts of a memory of so many pages, of which the first is that of the vmap slots.
    pub fn new(alloc: Global, pages: u32) -> Result<Hosts, NoMemory>
        requires some { 0 < pages }
        ensures pages { IfOk result (λ h. length h.pages ≡ pages) }
        ensures roll { IfOk result (λ h. h.roll ≡ record { started = 0; tasks = [] }) }
        ensures held { IfOk result (λ h. Hold h opening.used) }
    {
        let mut held = Pages::new(alloc, pages)?;
        let slab = Slab::new(alloc, pages)?;
        let vmalloc = Vmalloc::new(alloc)?;
        let sections = Sections::new(alloc)?;
        let tasks = Tasks::new(alloc)?;
        let _ = held.take(1, Use::Section);
        Ok(Hosts {
            pages: held,
            slab,
            vmalloc,
            sections,
            tasks,
        })
    }

    /// Adds a section of so many words, and gives them.
    pub fn section(&mut self, name: Name, words: u64) -> Result<Span, Refusal>
        ensures answer { (used : List Allocation) → Hold self.old used → done result ≡ section_answer used name words (run_place (words_in self.old) used (pages_for (8 * words))) }
        ensures start { IfOk result (λ s. (used : List Allocation) → Hold self.old used → s.start.0 ≡ page_start (lowest_run used (pages_for (8 * words)))) }
        ensures size { IfOk result (λ s. s.size ≡ 8 * words) }
        ensures held { IfOk result (λ s. (used : List Allocation) → Hold self.old used → Hold self.new (with_use used (SectionRun name) s.start.0 (PAGE * pages_for (8 * words)))) }
        ensures roll { self.new.roll ≡ self.old.roll }
        ensures refused { OnErr result (self.new ≡ self.old) }
        ensures pages { length self.new.pages ≡ length self.old.pages }
    {
        match self.sections.add(&mut self.pages, name, words) {
            Ok(span) => Ok(span),
            Err(fault) => Err(refusals::of_section(fault)),
        }
    }

    /// The first byte of the section of a name.
    pub fn section_start(&self, name: Name) -> Result<Addr, Refusal>
        ensures start { (used : List Allocation) → Hold self.now used → option_map (λ a. a.0) (result_ok result) ≡ section_named used name }
        ensures refusal { IfErr result (λ r. r ≡ refusal.NoSection) }
    {
        match self.sections.start(name) {
            Ok(start) => Ok(start),
            Err(_) => Err(Refusal::NoSection),
        }
    }

    /// Starts a task, with a stack on the lowest free page.
    pub fn start_task(&mut self, name: Name) -> Result<(), Refusal>
        requires { self.old.roll.started + 1 < 2 ^ 64 }
        ensures answer { (used : List Allocation) → Hold self.old used → done result ≡ start_answer self.old.roll.tasks name (run_place (words_in self.old) used 1) }
        ensures roll { IfOk result (λ _. (used : List Allocation) → Hold self.old used → self.new.roll ≡ with_task self.old.roll name (page_start (lowest_run used 1))) }
        ensures started { IfOk result (λ _. self.new.roll.started ≡ self.old.roll.started + 1) }
        ensures held { IfOk result (λ _. (used : List Allocation) → Hold self.old used → Hold self.new (with_use used StackPage (page_start (lowest_run used 1)) PAGE)) }
        ensures refused { OnErr result (self.new ≡ self.old) }
        ensures pages { length self.new.pages ≡ length self.old.pages }
    {
        match self.tasks.start(&mut self.pages, name) {
            Ok(()) => Ok(()),
            Err(fault) => Err(refusals::of_task(fault)),
        }
    }

    /// Ends the task of a name, and gives its stack back.
    pub fn exit_task(&mut self, name: Name) -> Result<(), Refusal>
        ensures answer { done result ≡ unless (not (is_some (task_named self.old.roll.tasks name))) refusal.NoTask Done }
        ensures roll { IfOk result (λ _. self.new.roll ≡ without self.old.roll name) }
        ensures held { IfOk result (λ _. (used : List Allocation) (t : Task) → Hold self.old used → task_named self.old.roll.tasks name ≡ Some t → Hold self.new (without_allocation used t.stack)) }
        ensures refused { OnErr result (self.new ≡ self.old) }
        ensures pages { length self.new.pages ≡ length self.old.pages }
    {
        match self.tasks.exit(&mut self.pages, name) {
            Ok(()) => Ok(()),
            Err(_) => Err(Refusal::NoTask),
        }
    }

    /// Sets a register of a task.
    pub fn set_reg(&mut self, name: Name, reg: Reg, value: u64) -> Result<(), Refusal>
        ensures answer { done result ≡ unless (not (is_some (task_named self.old.roll.tasks name))) refusal.NoTask Done }
        ensures set { IfOk result (λ _. self.new ≡ record self.old { roll = with_value self.old.roll name reg value }) }
        ensures refused { OnErr result (self.new ≡ self.old) }
    {
        match self.tasks.set_reg(name, reg, value) {
            Ok(()) => Ok(()),
            Err(_) => Err(Refusal::NoTask),
        }
    }

    /// Allocates a block: a slot of a slab page up to 4096 bytes, whole pages above.
    pub fn kmalloc(&mut self, size: u64) -> Result<Span, Refusal>
        ensures answer { (used : List Allocation) → Hold self.old used → at_span result ≡ kmalloc_answer (words_in self.old) used size }
        ensures size { IfOk result (λ s. s.size ≡ kmalloc_span size) }
        ensures held { IfOk result (λ s. (used : List Allocation) → Hold self.old used → Hold self.new (with_use used (kmalloc_use size) s.start.0 (kmalloc_span size))) }
        ensures roll { self.new.roll ≡ self.old.roll }
        ensures refused { OnErr result (self.new ≡ self.old) }
        ensures pages { length self.new.pages ≡ length self.old.pages }
    {
        match self.slab.kmalloc(&mut self.pages, size) {
            Ok(span) => Ok(span),
            Err(fault) => Err(refusals::of_slab(fault)),
        }
    }

    /// Frees a block. The head of an area is none.
    pub fn kfree(&mut self, start: Addr) -> Result<(), Refusal>
        ensures answer { (used : List Allocation) → Hold self.old used → StartsDiffer used → done result ≡ unless (not (list_any (is_kmalloc_at start.0) used)) refusal.NotAllocated Done }
        ensures held { IfOk result (λ _. (used : List Allocation) → Hold self.old used → StartsDiffer used → Hold self.new (without_allocation used start.0)) }
        ensures roll { self.new.roll ≡ self.old.roll }
        ensures refused { OnErr result (self.new ≡ self.old) }
        ensures pages { length self.new.pages ≡ length self.old.pages }
    {
        if self.vmalloc.owns(start) {
            return Err(Refusal::NotAllocated);
        }
        match self.slab.kfree(&mut self.pages, start) {
            Ok(_) => Ok(()),
            Err(_) => Err(Refusal::NotAllocated),
        }
    }

    /// Takes a run of untracked pages.
    pub fn take_pages(&mut self, count: u64) -> Result<Addr, Refusal>
        ensures answer { (used : List Allocation) → Hold self.old used → at result ≡ pages_answer (words_in self.old) used count }
        ensures held { IfOk result (λ a. (used : List Allocation) → Hold self.old used → Hold self.new (with_use used PlainRun a.0 (PAGE * count))) }
        ensures roll { self.new.roll ≡ self.old.roll }
        ensures refused { OnErr result (self.new ≡ self.old) }
        ensures pages { length self.new.pages ≡ length self.old.pages }
    {
        if count == 0 || count > MOST_PAGES {
            return Err(Refusal::BadSize);
        }
        match self.pages.take(count as u32, Use::Plain) {
            Ok(start) => Ok(start),
            Err(_) => Err(Refusal::NoRoom),
        }
    }

    /// Gives back a run of untracked pages.
    pub fn give_pages(&mut self, start: Addr) -> Result<(), Refusal>
        ensures answer { (used : List Allocation) → Hold self.old used → done result ≡ unless (not (list_any (is_plain_at start.0) used)) refusal.NotAllocated Done }
        ensures held { IfOk result (λ _. (used : List Allocation) → Hold self.old used → Hold self.new (without_allocation used start.0)) }
        ensures roll { self.new.roll ≡ self.old.roll }
        ensures refused { OnErr result (self.new ≡ self.old) }
        ensures pages { length self.new.pages ≡ length self.old.pages }
    {
        match self.pages.give(start, Use::Plain) {
            Ok(_) => Ok(()),
            Err(_) => Err(Refusal::NotAllocated),
        }
    }

    /// Takes an area of a vmalloc, with its head and a vmap slot.
    pub fn take_area(&mut self, size: u64) -> Result<VmArea, Refusal>
        ensures answer { (used : List Allocation) → Hold self.old used → at_area result ≡ vmalloc_answer (words_in self.old) used size }
        ensures head { IfOk result (λ v. (used : List Allocation) → Hold self.old used → v.head.start.0 ≡ lowest_slab used 64) }
        ensures slot { IfOk result (λ v. (used : List Allocation) → Hold self.old used → v.slot ≡ lowest_slot used) }
        ensures sizes { IfOk result (λ v. (v.head.size ≡ 64) × (v.area.size ≡ PAGE * pages_for size)) }
        ensures held { IfOk result (λ v. (used : List Allocation) → Hold self.old used → Hold self.new (with_use (with_use used (HeadBlock v.slot) v.head.start.0 64) (AreaRun v.slot) v.area.start.0 (PAGE * pages_for size))) }
        ensures roll { self.new.roll ≡ self.old.roll }
        ensures refused { OnErr result (self.new ≡ self.old) }
        ensures pages { length self.new.pages ≡ length self.old.pages }
    {
        match self.vmalloc.take(&mut self.pages, &mut self.slab, size) {
            Ok(area) => Ok(area),
            Err(fault) => Err(refusals::of_vmalloc(fault)),
        }
    }

    /// Gives back an area and its head.
    pub fn give_area(&mut self, start: Addr) -> Result<VmArea, Refusal>
        ensures answer { (used : List Allocation) → Hold self.old used → done result ≡ unless (is_none (slot_of_area used start.0)) refusal.NotAllocated Done }
        ensures slot { IfOk result (λ v. (used : List Allocation) → Hold self.old used → slot_of_area used start.0 ≡ Some v.slot) }
        ensures head { IfOk result (λ v. (used : List Allocation) → Hold self.old used → head_with used v.slot ≡ Some v.head.start.0) }
        ensures area { IfOk result (λ v. v.area.start ≡ start) }
        ensures live { IfOk result (λ v. area_at self.old.areas v.slot ≡ Some v) }
        ensures held { IfOk result (λ v. (used : List Allocation) → Hold self.old used → Hold self.new (without_allocation (without_allocation used start.0) v.head.start.0)) }
        ensures roll { self.new.roll ≡ self.old.roll }
        ensures refused { OnErr result (self.new ≡ self.old) }
        ensures pages { length self.new.pages ≡ length self.old.pages }
    {
        match self.vmalloc.give(&mut self.pages, &mut self.slab, start) {
            Ok(area) => Ok(area),
            Err(_) => Err(Refusal::NotAllocated),
        }
    }

    /// Takes boot memory of so many bytes, in whole pages. It is never given back.
    pub fn take_boot(&mut self, size: u64) -> Result<Addr, Refusal>
        ensures answer { (used : List Allocation) → Hold self.old used → at result ≡ boot_answer (words_in self.old) used size }
        ensures held { IfOk result (λ a. (used : List Allocation) → Hold self.old used → Hold self.new (with_use used BootRun a.0 (PAGE * pages_for size))) }
        ensures roll { self.new.roll ≡ self.old.roll }
        ensures refused { OnErr result (self.new ≡ self.old) }
        ensures pages { length self.new.pages ≡ length self.old.pages }
    {
        if size == 0 || size % 8 != 0 || size > MOST_BOOT {
            return Err(Refusal::BadSize);
        }
        match self.pages.take(((size + 4095) / 4096) as u32, Use::Boot) {
            Ok(start) => Ok(start),
            Err(_) => Err(Refusal::NoRoom),
        }
    }

    /// Whether an address of the memory is in a run of boot memory.
    pub fn is_boot(&self, a: Addr) -> bool
        requires memory { base ≤ a.0 }
        requires inside { a.0 < base + 8 * words_in self.now }
        ensures { (used : List Allocation) → Hold self.now used → result ≡ list_any (is_boot_with a.0) used }
    {
        matches!(self.pages.run_at(a), Some(Use::Boot))
    }

    /// The live area that begins at an address.
    pub fn area(&self, start: Addr) -> Option<VmArea>
        ensures slot { (used : List Allocation) → Hold self.now used → slot_of_area used start.0 ≡ option_map (λ v. v.slot) result }
        ensures live { IfSome result (λ v. area_at self.now.areas v.slot ≡ Some v) }
        ensures start { IfSome result (λ v. v.area.start ≡ start) }
    {
        self.vmalloc.find(start)
    }

    /// The tasks.
    pub fn tasks(&self) -> &Tasks
        ensures { result.now ≡ self.now.roll }
    {
        &self.tasks
    }

    /// The sections.
    pub fn sections(&self) -> &Sections
        ensures { result.now ≡ self.now.sections }
    {
        &self.sections
    }
}
