//! Trees of two million spans that come in the middle, and a tree beside a sorted map.

ghost use Rattle.std.specs.Prelude.{◌≡◌, ◌+◌, ◌^◌, ◌<◌, ◌≤◌};

use super::calls::{Call, Layer, done, not_a_call};
use crate::troubles::Trouble;
use km_base::{Addr, Span};
use km_map::{ObjectMap, SortedMap};
use km_tree::TreeMap;
use std::alloc::{AllocError, Global};

/// What makes the trees. It keeps nothing.
#[derive(Drop)]
pub struct Trees;

/// Half of the spans.
const HALF: u32 = 1_048_576;

/// The span of a few words so far from the first word.
fn span(offset: u64, size: u64) -> Span
    requires offset { offset < 2 ^ 40 }
    requires size { 0 < size }
    requires small { size ≤ 16 }
    ensures size { result.size ≡ size }
    ensures end { result.start.0 + result.size < 2 ^ 64 }
{
    Span {
        start: Addr(0xffff_8880_0000_0000 + offset),
        size,
    }
}

/// Where the word of a slot begins.
fn word(slot: u32) -> Addr {
    Addr(0xffff_8880_0000_0000 + 8 * u64::from(slot))
}

/// A trouble with an answer at a place.
fn differs(alloc: Global, what: &str, place: u32) -> Result<(), Trouble> {
    Err(Trouble::Differs(format!(in alloc; "{what} gave another answer at {place}")?))
}

/// Adds a word for a slot.
fn add(alloc: Global, map: &mut TreeMap, slot: u32) -> Result<(), Trouble> {
    let span = span(8 * u64::from(slot), 8);
    if map.spare() == 0 || map.try_insert(span, slot) != Ok(()) {
        return differs(alloc, "try_insert", slot);
    }
    Ok(())
}

/// Looks a word up by its last byte.
fn find(alloc: Global, map: &TreeMap, slot: u32) -> Result<(), Trouble> {
    if map.find(Addr(word(slot).0.wrapping_add(7))) != Some(slot) {
        return differs(alloc, "find", slot);
    }
    Ok(())
}

/// Takes a word out.
fn remove(alloc: Global, map: &mut TreeMap, slot: u32) -> Result<(), Trouble> {
    if map.remove(word(slot)) != Some(slot) {
        return differs(alloc, "remove", slot);
    }
    Ok(())
}

/// Adds words from both ends to the middle, looks all up, and takes all out from the front and from the middle on.
fn fill_and_empty(alloc: Global) -> Result<String, Trouble> {
    let mut map = TreeMap::new(alloc, 2 * HALF)?;
    for slot in 0..HALF {
        add(alloc, &mut map, slot)?;
        add(alloc, &mut map, 2 * HALF - 1 - slot)?;
    }
    for slot in 0..2 * HALF {
        find(alloc, &map, slot)?;
    }
    for slot in 0..HALF {
        remove(alloc, &mut map, slot)?;
        remove(alloc, &mut map, HALF + slot)?;
    }
    if map.spare() != 2 * HALF {
        differs(alloc, "spare", map.spare())?;
    }
    done(alloc)
}

/// Makes the same call on both maps, which a number chooses, and says whether both gave the same.
fn agree(tree: &mut TreeMap, sorted: &mut SortedMap, draw: u64, number: u32) -> bool {
    let wanted = span(8 * (draw % 400), 8 + 8 * (draw / 400 % 2));
    let probe = Addr(wanted.start.0.wrapping_add(draw / 800 % 16));
    let found = tree.find(probe) == sorted.find(probe)
        && tree.find_start(probe) == sorted.find_start(probe);
    let changed = if draw / 12_800 % 2 == 1 {
        tree.remove(wanted.start) == sorted.remove(wanted.start)
    } else if tree.spare() > 0 && sorted.spare() > 0 {
        tree.try_insert(wanted, number) == sorted.try_insert(wanted, number)
    } else {
        true
    };
    found && changed && tree.spare() == sorted.spare()
}

/// Makes calls on a tree and on a sorted map, which a generator chooses.
fn compare(alloc: Global, calls: u32) -> Result<String, Trouble> {
    let mut tree = TreeMap::new(alloc, 120)?;
    let mut sorted = SortedMap::new(alloc, 120)?;
    let mut seed = 1u32;
    for number in 0..calls {
        seed = seed.wrapping_mul(1_664_525).wrapping_add(1_013_904_223);
        if !agree(&mut tree, &mut sorted, u64::from(seed / 65_536), number) {
            differs(alloc, "a call", number)?;
        }
    }
    done(alloc)
}

impl Layer for Trees {
    fn make(&mut self, alloc: Global, call: Call<'_>) -> Result<String, Trouble> {
        match call.name {
            "millions" => fill_and_empty(alloc),
            "compare" => compare(alloc, call.small(0)?),
            _ => Err(not_a_call()),
        }
    }
}
