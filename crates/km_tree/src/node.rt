//! What a place of the table holds.

use km_map::Entry;
use std::mem::size_of;

/// What stands where no node does. It is no place, since a table has at most as many.
pub const NO_NODE: u32 = u32::MAX;

/// An entry of the tree and the places of what stands below it: 40 bytes.
///
/// In a free place `left` is the next free one.
#[derive(Clone, Copy, Debug, Drop)]
pub struct Node {
    pub entry: Entry,
    pub left: u32,
    pub right: u32,
    pub height: u32,
}

const _: () = prove!(size_of::<Node>() == 40);

/// An entry beside the place of its node.
#[derive(Clone, Copy, Drop)]
pub struct Placed {
    pub place: u32,
    pub entry: Entry,
}
