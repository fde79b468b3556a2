//! The page host.

ghost use Rattle.std.specs.Prelude.{◌≡◌, ◌+◌, ◌*◌, ◌<◌, ◌≤◌, ◌^◌, ◌==◌, ◌&&◌, IsTrue, ℕ, List, ◌∷◌, [], ◌++◌, length, replicate, Some, None, Ok, IfOk, OnErr, IfSome, true, false, Option, ◌↔◌, ◌⊎◌, is_ok, option_map, if◌then◌else◌};
ghost use Rattle.std.specs.Result.{result_ok};
ghost use Rattle.std.specs.List.{All, list_any};
ghost use Rattle.km_base.specs.declared.sizes.TheConstants.{PAGE, PAGE_WORDS};
ghost use Rattle.km_model.specs.Memory.{base};
ghost use Rattle.km_model.specs.Placement.{Allocation, page_start, page_of, lowest_run, run_place, without_allocation};
ghost use Rattle.km_model.specs.Answers.{is_boot_with, is_plain_at};
ghost use Rattle.km_pages.specs.declared.runs.Use.{Use};
ghost use Rattle.km_pages.specs.declared.runs.Use.TheVariants.{Boot, Plain, Slab};
ghost use Rattle.km_pages.specs.declared.runs.Run.{Run};
ghost use Rattle.km_pages.specs.Uses.{same_use};
ghost use Rattle.km_pages.specs.Runs.{IsTaken, address_of, first_fit, length_if, lowest_free, place, run_at, run_from, run_with, given, taken, with_run};
ghost use Rattle.km_pages.specs.Laid.{AreLaid, BeginAt, Fills};

use crate::errors::{NoRoom, NotAllocated};
use crate::runs::{Run, Use};
use km_base::sizes::{BASE, PAGE};
use km_base::{Addr, NoMemory};
use std::alloc::Global;
use std::marker::Model;

/// The pages of a memory, each with the run that has it, or free.
#[derive(Drop)]
pub struct Pages {
    pages: Vec<Option<Run>>,
}

impl Model for Pages {
    ghost use Rattle.std.specs.Prelude.{List, Option};
    ghost use Rattle.km_pages.specs.declared.runs.Run.{Run};
    ghost use Rattle.km_pages.specs.Runs.{AreRuns};

    ghost Value = { List (Option Run) };

    ghost view = { λ s. s.pages.items };

    ghost invariant = { λ s. AreRuns s.pages.items };
}

/// The lowest page from which `n` pages are free, if there are such pages.
fn lowest_room(pages: &[Option<Run>], n: usize) -> Option<usize>
    requires { 0 < n }
    ensures { result ≡ first_fit pages.now n }
{
    let mut free = 0;
    for p in 0..pages.len() {
        if pages[p].is_some() {
            free = 0;
            continue;
        }
        free += 1;
        if free == n {
            return Some(p + 1 - n);
        }
    }
    None
}

/// Gives `n` pages from `first` on to a run, or frees them.
fn hold(pages: &mut Vec<Option<Run>>, first: usize, n: usize, run: Option<Run>)
    requires { first + n ≤ length pages.old.items }
    ensures { pages.new.items ≡ with_run pages.old.items first n run }
{
    pages[first..first + n].fill(run);
}

/// The address of a page.
fn address(page: usize) -> Addr
    requires { page < 2 ^ 32 }
    ensures { result.0 ≡ page_start page }
{
    Addr(BASE + PAGE * page as u64)
}

/// The page that begins at an address, if there is one among so many.
fn page_at(count: usize, start: Addr) -> Option<usize>
    ensures here { IfSome result (λ p. (start.0 ≡ page_start p) × (p < count)) }
    ensures nowhere { result ≡ None → (p : ℕ) → p < count → start.0 ≡ page_start p → ⊥ }
{
    let Some(offset) = start.0.checked_sub(BASE) else {
        return None;
    };
    let page = (offset / PAGE) as usize;
    if offset % PAGE == 0 && page < count {
        Some(page)
    } else {
        None
    }
}

/// Whether a run is of a use and begins at a page.
fn begins_at(run: Run, kind: Use, page: usize) -> bool
    ensures test { result ≡ (same_use run.kind kind && run.first == page) }
    ensures its_use { IsTrue result → run.kind ≡ kind }
    ensures first { IsTrue result → run.first ≡ page }
{
    run.kind.is(kind) && run.first as usize == page
}

/// The run of a use that begins at an address.
fn run_beginning(pages: &[Option<Run>], start: Addr, kind: Use) -> Option<Run>
    ensures length { option_map (λ r. r.len) result ≡ run_at pages.now kind start.0 }
    ensures here { IfSome result (λ r. run_with pages.now r.first ≡ Some r) }
    ensures its_use { IfSome result (λ r. r.kind ≡ kind) }
    ensures first { IfSome result (λ r. start.0 ≡ page_start r.first) }
{
    let Some(page) = page_at(pages.len(), start) else {
        return None;
    };
    let Some(run) = pages[page] else {
        return None;
    };
    if begins_at(run, kind, page) {
        Some(run)
    } else {
        None
    }
}

/// What a page is used for, if it is.
fn use_of_page(pages: &[Option<Run>], page: usize) -> Option<Use>
    requires { page < length pages.now }
    ensures { result ≡ option_map (λ r. r.kind) (run_with pages.now page) }
{
    match pages[page] {
        Some(run) => Some(run.kind),
        None => None,
    }
}

impl Pages {
    /// A memory of so many free pages.
    pub fn new(alloc: Global, pages: u32) -> Result<Pages, NoMemory>
        ensures free { IfOk result (λ m. m ≡ replicate pages None) }
        ensures size { IfOk result (λ m. length m ≡ pages) }
        ensures runs { IfOk result (λ m. (kind : Use) (p : ℕ) → run_from m kind p ≡ None) }
        ensures laid { IfOk result (λ m. AreLaid m []) }
    {
        match vec![in alloc; None; pages as usize] {
            Ok(pages) => Ok(Pages { pages }),
            Err(_) => Err(NoMemory),
        }
    }

    /// Takes the lowest run of `n` free pages.
    pub fn take(&mut self, n: u32, kind: Use) -> Result<Addr, NoRoom>
        requires { 0 < n }
        ensures place { address_of result ≡ place self.old n }
        ensures place_among { (used : List Allocation) → AreLaid self.old used → address_of result ≡ run_place (PAGE_WORDS * length self.old) used n }
        ensures taken { IfOk result (λ a. self.new ≡ taken self.old kind a.0 n) }
        ensures lowest { IfOk result (λ a. a.0 ≡ page_start (lowest_free self.old n)) }
        ensures lowest_among { IfOk result (λ a. (used : List Allocation) → AreLaid self.old used → a.0 ≡ page_start (lowest_run used n)) }
        ensures fresh { IfOk result (λ a. (any : Use) → run_at self.old any a.0 ≡ None) }
        ensures apart { IfOk result (λ a. (used : List Allocation) → AreLaid self.old used → All (λ (x : Allocation). (x.start + x.size ≤ a.0) ⊎ (a.0 + PAGE * n ≤ x.start)) used) }
        ensures inside { IfOk result (λ a. a.0 + PAGE * n ≤ base + PAGE * length self.old) }
        ensures refused { OnErr result (self.new ≡ self.old) }
        ensures size { length self.new ≡ length self.old }
        ensures runs { IfOk result (λ a. (p : ℕ) → run_from self.new kind p ≡ (if p == page_of a.0 then Some n else run_from self.old kind p)) }
        ensures others { (other : Use) (p : ℕ) → same_use kind other ≡ false → run_from self.new other p ≡ run_from self.old other p }
        ensures took { IfOk result (λ a. IsTaken self.old self.new kind a.0 n) }
        ensures laid { IfOk result (λ a. (used : List Allocation) (x : Allocation) → AreLaid self.old used → Fills kind n a.0 x → AreLaid self.new (used ++ x ∷ [])) }
    {
        let Some(first) = lowest_room(&self.pages, n as usize) else {
            return Err(NoRoom);
        };
        let run = Run {
            kind,
            first: first as u32,
            len: n,
        };
        hold(&mut self.pages, first, n as usize, Some(run));
        Ok(address(first))
    }

    /// Gives back the run of a use that begins at an address, and tells how many pages it had.
    pub fn give(&mut self, start: Addr, kind: Use) -> Result<u32, NotAllocated>
        ensures answer { result_ok result ≡ run_at self.old kind start.0 }
        ensures given { IfOk result (λ n. self.new ≡ given self.old start.0 n) }
        ensures refused { OnErr result (self.new ≡ self.old) }
        ensures size { length self.new ≡ length self.old }
        ensures runs { IfOk result (λ _. (p : ℕ) → run_from self.new kind p ≡ (if p == page_of start.0 then None else run_from self.old kind p)) }
        ensures others { (other : Use) (p : ℕ) → same_use kind other ≡ false → run_from self.new other p ≡ run_from self.old other p }
        ensures back { (before : List (Option Run)) (n : ℕ) → IsTaken before self.old kind start.0 n → (result ≡ Ok n) × (self.new ≡ before) }
        ensures laid { IfOk result (λ _. (used : List Allocation) → AreLaid self.old used → same_use kind Slab ≡ false → AreLaid self.new (without_allocation used start.0)) }
        ensures emptied { IfOk result (λ n. (used : List Allocation) (b : ℕ) → AreLaid self.old used → BeginAt used n start.0 b → AreLaid self.new (without_allocation used b)) }
        ensures plain { kind ≡ Plain → (used : List Allocation) → AreLaid self.old used → list_any (is_plain_at start.0) used ≡ is_ok result }
    {
        let Some(run) = run_beginning(&self.pages, start, kind) else {
            return Err(NotAllocated);
        };
        hold(&mut self.pages, run.first as usize, run.len as usize, None);
        Ok(run.len)
    }

    /// What the page of an address is used for, if it is.
    pub fn run_at(&self, a: Addr) -> Option<Use>
        requires memory { base ≤ a.0 }
        requires inside { a.0 < base + PAGE * length self.now }
        ensures use_there { result ≡ option_map (λ r. r.kind) (run_with self.now (page_of a.0)) }
        ensures boot { (used : List Allocation) → AreLaid self.now used → (list_any (is_boot_with a.0) used ≡ true) ↔ (result ≡ Some Boot) }
    {
        use_of_page(&self.pages, ((a.0 - BASE) / PAGE) as usize)
    }
}
