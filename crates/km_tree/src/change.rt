//! How an entry comes into a tree and leaves it, along one path.

ghost use Rattle.std.specs.Prelude.{◌≡◌, ◌<◌};
ghost use Rattle.km_map.specs.Entries.{IsRising};
ghost use Rattle.km_map.specs.declared.entries.Entry.{Entry as KeptEntry};
ghost use Rattle.km_tree.specs.Tables.{AnyBeside, AnyFork, AnyLevel, AnyPair, Held, Made, Pair, Sides, Tried};
ghost use Rattle.km_tree.specs.Trees.{Tree, Leaf, Fork, IsLevel, entries_of, gone, joined, lowest, met_by, no_node, unhung};

use crate::node::{NO_NODE, Node, Placed};
use crate::shape::{fork, height, level, relevel_left, relevel_right};
use km_base::Span;
use km_map::Entry;

/// The slot of an entry that starts behind the start of a span, if it meets it, or else another.
fn met_or(entry: &Entry, span: &Span, other: Option<u32>) -> Option<u32>
    requires { span.now.start.0 < entry.now.span.start.0 }
    ensures { result ≡ met_by span.now other entry.now }
{
    if entry.span.start.0 - span.start.0 < span.size {
        Some(entry.slot)
    } else {
        other
    }
}

/// Hangs an entry that meets none into a tree, as the node at a place that is not in it, and gives
/// the new root. Else it gives the slot of the lowest that it meets, and nothing changes.
///
/// That one has the start of the entry or is the first behind it, so it lies on the way down. `met`
/// is the slot of the first behind it so far, if the entry meets that.
pub fn try_hang(
    nodes: &mut [Node],
    root: u32,
    new: u32,
    entry: Entry,
    met: Option<u32>,
) -> Result<u32, u32>
    requires tree { AnyBeside nodes.old root new }
    requires sized { 0 < entry.span.size }
    ensures { (t : Tree) → IsLevel t → IsRising (entries_of t) → Sides nodes.old t root new no_node Leaf → Tried nodes.old nodes.new new entry t met result }
{
    if root == NO_NODE {
        if let Some(slot) = met {
            return Err(slot);
        }
        fork(nodes, NO_NODE, new, entry, NO_NODE);
        return Ok(new);
    }
    let node = nodes[root as usize];
    let span = node.entry.span;
    if entry.span.start.0 < span.start.0 {
        let met = met_or(&node.entry, &entry.span, met);
        let before = height(nodes, node.left);
        let left = try_hang(nodes, node.left, new, entry, met)?;
        Ok(relevel_left(nodes, root, before, left))
    } else if entry.span.start.0 - span.start.0 < span.size {
        Err(node.entry.slot)
    } else {
        let before = height(nodes, node.right);
        let right = try_hang(nodes, node.right, new, entry, met)?;
        Ok(relevel_right(nodes, root, before, right))
    }
}

/// Takes the lowest node out of a tree, and gives its place, its entry and the new root.
fn take_lowest(nodes: &mut [Node], i: u32) -> (u32, Entry, u32)
    requires { AnyFork nodes.old i }
    ensures { (l : Tree) (e : KeptEntry) (r : Tree) → IsLevel (Fork l i e r) → Held nodes.old (Fork l i e r) i → (result.0 ≡ (lowest l i e r).0) × (result.1 ≡ (lowest l i e r).1) × Made nodes.old nodes.new (lowest l i e r).2 result.2 }
{
    let node = nodes[i as usize];
    if node.left == NO_NODE {
        return (i, node.entry, node.right);
    }
    let before = height(nodes, node.left);
    let (place, entry, left) = take_lowest(nodes, node.left);
    (place, entry, relevel_left(nodes, i, before, left))
}

/// One tree of two, the first before the second.
fn join(nodes: &mut [Node], left: u32, right: u32) -> u32
    requires { AnyPair nodes.old left right }
    ensures { (t u : Tree) → IsLevel u → Pair nodes.old t left right u → Made nodes.old nodes.new (joined t u) result }
{
    if right == NO_NODE {
        return left;
    }
    let (place, entry, rest) = take_lowest(nodes, right);
    level(nodes, left, place, entry, rest)
}

/// Takes the entry whose span starts at an address out of a tree, and gives it and the new root.
pub fn unhang(nodes: &mut [Node], root: u32, start: u64) -> (Option<Placed>, u32)
    requires { AnyLevel nodes.old root }
    ensures { (t : Tree) → IsLevel t → Held nodes.old t root → (result.0 ≡ gone start t) × Made nodes.old nodes.new (unhung start t) result.1 }
{
    if root == NO_NODE {
        return (None, root);
    }
    let node = nodes[root as usize];
    let entry = node.entry;
    if start == entry.span.start.0 {
        let taken = Placed { place: root, entry };
        return (Some(taken), join(nodes, node.left, node.right));
    }
    if start < entry.span.start.0 {
        let before = height(nodes, node.left);
        let (taken, left) = unhang(nodes, node.left, start);
        (taken, relevel_left(nodes, root, before, left))
    } else {
        let before = height(nodes, node.right);
        let (taken, right) = unhang(nodes, node.right, start);
        (taken, relevel_right(nodes, root, before, right))
    }
}
