//! The marks of slab pages.

ghost use Rattle.std.specs.Prelude.{◌≡◌, ◌+◌, ◌*◌, ◌/◌, ◌^◌, ◌<◌, ◌≤◌, ◌==◌, ◌&&◌, ◌||◌, not, nat_le, nat_lt, ℕ, List, length, slice_index_or, slice_set, None, Some, true, false, IfSome};
ghost use Rattle.km_marks.specs.Sets.{has, with_mark};
ghost use Rattle.km_slab.specs.Blocks.{HasFree, IsFreeAt, IsFull, IsSize};
ghost use Rattle.km_slab.specs.Tables.{IsKept, sheets};
ghost use Rattle.km_base.specs.declared.sizes.TheConstants.{PAGE, PAGE_WORDS};
ghost use Rattle.km_model.specs.Placement.{page_start};

use km_base::Addr;
use km_base::sizes::{self, BASE, PAGE_WORDS};
use km_marks::Marks;

/// The bytes of a page.
pub const PAGE: u32 = sizes::PAGE as u32;

/// The most slots of a page: each has a word at least.
pub const SLOTS: usize = PAGE_WORDS as usize;

/// The words that hold the marks of a page's slots.
pub const SLOT_WORDS: usize = SLOTS / 64;

/// The slab pages of a memory, and which of their slots are live.
#[derive(Drop)]
pub struct Table {
    /// The size of the slots of each page, if it is a slab page.
    pub classes: Vec<Option<u32>>,
    /// The free slots of slab pages: slot `i` of page `p` is number `512 * p + i`.
    pub free: Marks,
    /// The live slots, alike.
    pub live: Marks,
    /// For each class a row of marks: its pages that have a free slot.
    pub opened: Marks,
    /// The words of such a row.
    pub row: usize,
}

/// The lowest page of a class that has a free slot.
pub fn open_page(table: &Table, class: u32) -> Option<usize>
    requires marks { IsKept table.now }
    requires size { IsSize class }
    ensures open { IfSome result (λ p. HasFree (sheets table.now) class p) }
    ensures lowest { IfSome result (λ p. (q : ℕ) → q < p → IsFull (sheets table.now) class q) }
    ensures none { result ≡ None → (q : ℕ) → IsFull (sheets table.now) class q }
{
    let first = table.row * (class / 8) as usize;
    let mark = table.opened.lowest(first, first + table.row)?;
    Some(mark - 64 * first)
}

/// Marks so many numbers from one on.
pub fn fill(marks: &mut Marks, first: usize, count: usize)
    requires within { first + count ≤ 64 * length marks.old }
    requires small { first + count < 2 ^ 50 }
    ensures words { length marks.new ≡ length marks.old }
    ensures filled { (j : ℕ) → has marks.new j ≡ (nat_le first j && nat_lt j (first + count) || has marks.old j) }
{
    for i in first..first + count {
        marks.insert(i);
    }
}

/// Unmarks them.
pub fn clear(marks: &mut Marks, first: usize, count: usize)
    requires within { first + count ≤ 64 * length marks.old }
    requires small { first + count < 2 ^ 50 }
    ensures words { length marks.new ≡ length marks.old }
    ensures cleared { (j : ℕ) → has marks.new j ≡ (not (nat_le first j && nat_lt j (first + count)) && has marks.old j) }
{
    for i in first..first + count {
        marks.remove(i);
    }
}

/// Makes a page a slab page of a class, with all its slots free.
pub fn take_page(table: &mut Table, page: usize, class: u32)
    requires marks { IsKept table.old }
    requires size { IsSize class }
    requires page { page < length table.old.classes.items }
    requires no_slab { slice_index_or table.old.classes.items page None ≡ None }
    ensures marks { IsKept table.new }
    ensures classes { table.new.classes.items ≡ slice_set table.old.classes.items page (Some class) }
    ensures live { table.new.live ≡ table.old.live }
{
    table.classes[page] = Some(class);
    fill(&mut table.free, SLOTS * page, (PAGE / class) as usize);
    table
        .opened
        .insert(64 * (table.row * (class / 8) as usize) + page);
}

/// The lowest free slot of a page of a class that has one.
pub fn lowest_slot(table: &Table, page: usize, class: u32) -> usize
    requires marks { IsKept table.now }
    requires page { page < length table.now.classes.items }
    requires free { HasFree (sheets table.now) class page }
    ensures slot { IsFreeAt (sheets table.now) class page result }
    ensures small { result < PAGE_WORDS }
{
    match table
        .free
        .lowest(SLOT_WORDS * page, SLOT_WORDS * page + SLOT_WORDS)
    {
        Some(number) => number - SLOTS * page,
        None => unreachable!(),
    }
}

/// Takes a free slot of a page of a class.
pub fn take_slot(table: &mut Table, page: usize, class: u32, slot: usize)
    requires marks { IsKept table.old }
    requires page { page < length table.old.classes.items }
    requires size { IsSize class }
    requires small { slot < PAGE_WORDS }
    requires free { IsFreeAt (sheets table.old) class page slot }
    ensures marks { IsKept table.new }
    ensures classes { table.new.classes.items ≡ table.old.classes.items }
    ensures live { (j : ℕ) → has table.new.live j ≡ (j == PAGE_WORDS * page + slot || has table.old.live j) }
    ensures marked { table.new.live ≡ with_mark table.old.live (PAGE_WORDS * page + slot) }
{
    table.free.remove(SLOTS * page + slot);
    table.live.insert(SLOTS * page + slot);
    match table
        .free
        .lowest(SLOT_WORDS * page, SLOT_WORDS * page + SLOT_WORDS)
    {
        Some(_) => (),
        None => table
            .opened
            .remove(64 * (table.row * (class / 8) as usize) + page),
    }
}

/// Frees a live slot of a page of a class.
pub fn give_slot(table: &mut Table, page: usize, class: u32, slot: usize)
    requires marks { IsKept table.old }
    requires page { page < length table.old.classes.items }
    requires size { IsSize class }
    requires class { slice_index_or table.old.classes.items page None ≡ Some class }
    requires small { slot < PAGE_WORDS }
    requires fits { slot < PAGE / class }
    ensures marks { IsKept table.new }
    ensures classes { table.new.classes.items ≡ table.old.classes.items }
    ensures live { (j : ℕ) → has table.new.live j ≡ (not (j == PAGE_WORDS * page + slot) && has table.old.live j) }
    ensures back { (before : List ℕ) → table.old.live ≡ with_mark before (PAGE_WORDS * page + slot) → has table.old.live (PAGE_WORDS * page + slot) ≡ true → table.new.live ≡ before }
{
    table.live.remove(SLOTS * page + slot);
    table.free.insert(SLOTS * page + slot);
    table
        .opened
        .insert(64 * (table.row * (class / 8) as usize) + page);
}

/// Makes a page with no live slots no slab page.
pub fn drop_page(table: &mut Table, page: usize, class: u32)
    requires marks { IsKept table.old }
    requires page { page < length table.old.classes.items }
    requires size { IsSize class }
    requires class { slice_index_or table.old.classes.items page None ≡ Some class }
    requires dead { (i : ℕ) → i < PAGE_WORDS → has table.old.live (PAGE_WORDS * page + i) ≡ false }
    ensures marks { IsKept table.new }
    ensures classes { table.new.classes.items ≡ slice_set table.old.classes.items page None }
    ensures live { table.new.live ≡ table.old.live }
{
    clear(&mut table.free, SLOTS * page, (PAGE / class) as usize);
    table
        .opened
        .remove(64 * (table.row * (class / 8) as usize) + page);
    table.classes[page] = None;
}

/// The live slot that begins at an address: its page, its class and its place.
pub fn slot_at(table: &Table, start: Addr) -> Option<(usize, u32, usize)>
    requires marks { IsKept table.now }
    ensures page { IfSome result (λ r. r.0 < length table.now.classes.items) }
    ensures class { IfSome result (λ r. slice_index_or table.now.classes.items r.0 None ≡ Some r.1) }
    ensures small { IfSome result (λ r. r.2 < PAGE_WORDS) }
    ensures live { IfSome result (λ r. has table.now.live (PAGE_WORDS * r.0 + r.2) ≡ true) }
    ensures start { IfSome result (λ r. start.0 ≡ page_start r.0 + r.1 * r.2) }
    ensures none { result ≡ None → (p class i : ℕ) → slice_index_or table.now.classes.items p None ≡ Some class → i < PAGE_WORDS → start.0 ≡ page_start p + class * i → has table.now.live (PAGE_WORDS * p + i) ≡ false }
{
    let offset = start.0.checked_sub(BASE)?;
    let page = (offset / PAGE as u64) as usize;
    if page >= table.classes.len() {
        return None;
    }
    let class = table.classes[page]?;
    let inside = (offset % PAGE as u64) as u32;
    let slot = (inside / class) as usize;
    if inside % class == 0 && table.live.contains(SLOTS * page + slot) {
        Some((page, class, slot))
    } else {
        None
    }
}
