//! A map that is a balanced tree.

ghost use Rattle.std.specs.Prelude.{◌≡◌, ℕ, ◌<◌, List, [], IfOk, vec_capacity};
ghost use Rattle.km_tree.specs.Trees.{Tree};
ghost use Rattle.km_tree.specs.Maps.{AnyRoom, Kept, Ready};

use crate::change::{try_hang, unhang};
use crate::node::{NO_NODE, Node};
use crate::search::ending_behind;
use km_base::{Addr, NoMemory, Span};
use km_map::{Entry, ObjectMap};
use std::alloc::Global;
use std::marker::Model;

/// Entries as the nodes of an AVL tree, in a table that is reserved once and first written where
/// it is first used.
#[derive(Debug, Drop)]
pub struct TreeMap {
    nodes: Vec<Node>,
    /// The place of the node at the top.
    root: u32,
    /// The first place that was used and is free again.
    free: u32,
    /// How many more spans it can take.
    room: u32,
    /// The lowest start of any span that ever came.
    lowest: u64,
    /// The highest end of any span that ever came.
    highest: u64,
}

impl Model for TreeMap {
    ghost use Rattle.km_map.specs.Sorted.{Sorted};

    ghost Value = { Sorted };

    ghost use Rattle.std.specs.Prelude.{vec_capacity};
    ghost use Rattle.km_tree.specs.Trees.{entries_of};
    ghost use Rattle.km_tree.specs.Maps.{Bounded, tree_at};

    ghost view = { λ m. record { entries = entries_of (tree_at m.nodes.items m.root); room = m.room } };

    ghost invariant = { λ m. Bounded m.nodes.items m.root m.free m.room (vec_capacity m.nodes) m.lowest m.highest };
}

/// A free place: the one that is given, or else the first that was never used.
fn ready(nodes: &mut Vec<Node>, free: u32, entry: Entry) -> u32
    requires { AnyRoom nodes.old.items free (vec_capacity nodes.old) }
    ensures { (tree : Tree) (spare : List ℕ) (root room : ℕ) → 0 < room → Kept nodes.old.items tree spare root free room (vec_capacity nodes.old) → Ready nodes.new.items tree root result room (vec_capacity nodes.new) }
{
    if free != NO_NODE {
        return free;
    }
    let place = nodes.len() as u32;
    let node = Node {
        entry,
        left: NO_NODE,
        right: NO_NODE,
        height: 1,
    };
    let Ok(()) = nodes.push(node) else {
        unreachable!()
    };
    place
}

impl TreeMap {
    /// A map that takes `capacity` spans.
    pub fn new(alloc: Global, capacity: u32) -> Result<TreeMap, NoMemory>
        ensures { IfOk result (λ m. m ≡ record { entries = []; room = capacity }) }
    {
        match Vec::with_capacity(alloc, capacity as usize) {
            Ok(nodes) => Ok(TreeMap {
                nodes,
                root: NO_NODE,
                free: NO_NODE,
                room: capacity,
                lowest: u64::MAX,
                highest: 0,
            }),
            Err(_) => Err(NoMemory),
        }
    }
}

impl ObjectMap for TreeMap {
    ghost entries = { λ m. m.entries };

    ghost room = { λ m. m.room };

    fn try_insert(&mut self, span: Span, slot: u32) -> Result<(), u32> {
        let entry = Entry { span, slot };
        self.free = ready(&mut self.nodes, self.free, entry);
        let next = self.nodes[self.free as usize].left;
        self.root = try_hang(&mut self.nodes, self.root, self.free, entry, None)?;
        self.free = next;
        self.room -= 1;
        self.lowest = self.lowest.min(span.start.0);
        self.highest = self.highest.max(span.start.0 + span.size);
        Ok(())
    }

    fn remove(&mut self, start: Addr) -> Option<u32> {
        let (taken, root) = unhang(&mut self.nodes, self.root, start.0);
        self.root = root;
        let taken = taken?;
        self.nodes[taken.place as usize].left = self.free;
        self.free = taken.place;
        self.room += 1;
        Some(taken.entry.slot)
    }

    fn find(&self, a: Addr) -> Option<u32> {
        if a.0 < self.lowest || self.highest <= a.0 {
            return None;
        }
        match ending_behind(&self.nodes, self.root, a.0) {
            Some(e) if e.span.start.0 <= a.0 => Some(e.slot),
            _ => None,
        }
    }

    fn find_start(&self, a: Addr) -> Option<u32> {
        match ending_behind(&self.nodes, self.root, a.0) {
            Some(e) if e.span.start.0 == a.0 => Some(e.slot),
            _ => None,
        }
    }

    fn spare(&self) -> u32 {
        self.room
    }
}
