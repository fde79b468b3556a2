//! Blocks of 8 bytes are allocated, every second one is freed, and as many are allocated again, over and over until
//! ten million calls are made, in memories of their own. How many blocks live at once is to make little difference.

ghost use Rattle.km_slab.specs.Blocks.{Fits};

use km_base::{Addr, NoMemory};
use km_pages::Pages;
use km_slab::Slab;
use std::alloc::Global;

/// The address of the first page.
const BASE: u64 = 0xffff_8880_0000_0000;

/// The pages of the memory.
const PAGES: u32 = 8192;

/// The calls that are made.
const CALLS: u64 = 10_000_000;

/// Allocates so many blocks, and tells how many there was room for.
fn allocate(pages: &mut Pages, slab: &mut Slab, count: u64) -> u64
    requires { Fits slab.old pages.old }
    ensures { Fits slab.new pages.new }
{
    let mut calls: u64 = 0;
    for _ in 0..count {
        if slab.kmalloc(pages, 8).is_ok() {
            calls = calls.saturating_add(1);
        }
    }
    calls
}

/// Frees every second of so many blocks, and tells how many were live.
fn free_every_second(pages: &mut Pages, slab: &mut Slab, count: u64) -> u64
    requires { Fits slab.old pages.old }
    ensures { Fits slab.new pages.new }
{
    let mut calls: u64 = 0;
    for i in 0..count / 2 {
        let start = Addr(BASE.wrapping_add(16u64.wrapping_mul(i)));
        if slab.kfree(pages, start).is_ok() {
            calls = calls.saturating_add(1);
        }
    }
    calls
}

/// Allocates and frees in a memory of its own, and tells how many calls succeeded.
fn round(alloc: Global, blocks: u64) -> Result<u64, NoMemory> {
    let mut pages = Pages::new(alloc, PAGES)?;
    let mut slab = Slab::new(alloc, PAGES)?;
    let first = allocate(&mut pages, &mut slab, blocks);
    let freed = free_every_second(&mut pages, &mut slab, blocks);
    let again = allocate(&mut pages, &mut slab, blocks / 2);
    Ok(first.saturating_add(freed).saturating_add(again))
}

/// Makes the calls with up to so many live blocks, and tells how many succeeded.
pub fn calls(alloc: Global, blocks: u32) -> Result<u64, NoMemory> {
    let blocks = u64::from(blocks.max(2));
    let mut calls: u64 = 0;
    for _ in 0..CALLS / blocks / 2 {
        calls = calls.saturating_add(round(alloc, blocks)?);
    }
    Ok(calls)
}
