//! Layers that are called by themselves, as far as no script reaches them.

mod blocks;
mod calls;
mod cores;
mod hosts;
mod lines;
mod links;
mod maps;
mod marks;
mod pages;
mod texts;
mod trackers;
mod trees;

use crate::notation::with_addresses;
use crate::troubles::Trouble;
use blocks::Block;
use calls::try_calls;
use cores::Machine;
use hosts::Memory;
use km_map::SortedMap;
use km_tree::TreeMap;
use lines::Lines;
use links::Lists;
use maps::{Spans, with_a_span};
use marks::Set;
use pages::Runs;
use std::alloc::Global;
use texts::Texts;
use trackers::Blocks;
use trees::Trees;

/// How many spans a map takes here.
const SPANS: u32 = 8;

/// Makes the calls of a row on a new layer of this name, and gives their number.
pub fn try_layer(alloc: Global, name: &str, calls: &str) -> Result<u64, Trouble> {
    let calls = with_addresses(alloc, calls)?;
    let calls = calls.as_str();
    match name {
        "lines" => try_calls(alloc, Lines, calls),
        "texts" => try_calls(alloc, Texts, calls),
        "marks" => try_calls(alloc, Set::new(alloc)?, calls),
        "pages" => try_calls(alloc, Runs::new(alloc)?, calls),
        "hosts" => try_calls(alloc, Memory::new(alloc)?, calls),
        "links" => try_calls(alloc, Lists::new(alloc)?, calls),
        "block" => try_calls(alloc, Block::new(), calls),
        "tracker" => try_calls(alloc, Blocks::new(alloc)?, calls),
        "trees" => try_calls(alloc, Trees, calls),
        "core" => try_calls(alloc, Machine::boot(alloc)?, calls),
        _ => try_map(alloc, name, calls),
    }
}

/// The same for a map: a tree or a sorted vector, which is empty or has a span.
fn try_map(alloc: Global, name: &str, calls: &str) -> Result<u64, Trouble> {
    match name {
        "tree" => try_calls(alloc, Spans::new(TreeMap::new(alloc, SPANS)?), calls),
        "sorted" => try_calls(alloc, Spans::new(SortedMap::new(alloc, SPANS)?), calls),
        "tree with a span" => try_calls(alloc, with_a_span(TreeMap::new(alloc, SPANS)?), calls),
        "sorted with a span" => {
            try_calls(alloc, with_a_span(SortedMap::new(alloc, SPANS)?), calls)
        }
        _ => Err(Trouble::Malformed("a layer of no such name")),
    }
}
