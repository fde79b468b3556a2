//! One node over two trees, and the rotations that level it.

ghost use Rattle.std.specs.Prelude.{◌≡◌};
ghost use Rattle.km_map.specs.declared.entries.Entry.{Entry as KeptEntry};
ghost use Rattle.km_tree.specs.Tables.{AnyHeld, AnyOverLeft, AnyOverRight, AnySides, Held, Made, OverLeft, OverRight, Sides};
ghost use Rattle.km_tree.specs.Trees.{Tree, Fork, height_of, leant_left, leant_right, levelled, lifted_left, lifted_right};

use crate::node::{NO_NODE, Node};
use km_map::Entry;

/// How many nodes the longest way down has.
pub fn height(nodes: &[Node], root: u32) -> u32
    requires { AnyHeld nodes.now root }
    ensures { (t : Tree) → Held nodes.now t root → result ≡ height_of t }
{
    if root == NO_NODE {
        0
    } else {
        nodes[root as usize].height
    }
}

/// Writes the node over two trees.
pub fn fork(nodes: &mut [Node], left: u32, i: u32, entry: Entry, right: u32)
    requires { AnySides nodes.old left i right }
    ensures { (t u : Tree) → Sides nodes.old t left i right u → Made nodes.old nodes.new (Fork t i entry u) i }
{
    let height = height(nodes, left).max(height(nodes, right)) + 1;
    nodes[i as usize] = Node {
        entry,
        left,
        right,
        height,
    };
}

/// The left side lifted over the node.
fn lift_left(nodes: &mut [Node], left: u32, i: u32, entry: Entry, right: u32) -> u32
    requires { AnySides nodes.old left i right }
    ensures { (t u : Tree) → Sides nodes.old t left i right u → Made nodes.old nodes.new (lifted_left t i entry u) result }
{
    if left == NO_NODE {
        fork(nodes, left, i, entry, right);
        return i;
    }
    let side = nodes[left as usize];
    fork(nodes, side.right, i, entry, right);
    fork(nodes, side.left, left, side.entry, i);
    left
}

/// The right side lifted over the node.
fn lift_right(nodes: &mut [Node], left: u32, i: u32, entry: Entry, right: u32) -> u32
    requires { AnySides nodes.old left i right }
    ensures { (t u : Tree) → Sides nodes.old t left i right u → Made nodes.old nodes.new (lifted_right t i entry u) result }
{
    if right == NO_NODE {
        fork(nodes, left, i, entry, right);
        return i;
    }
    let side = nodes[right as usize];
    fork(nodes, left, i, entry, side.left);
    fork(nodes, i, right, side.entry, side.right);
    right
}

/// A tree whose right side is not the higher one.
fn lean_left(nodes: &mut [Node], root: u32) -> u32
    requires { AnyHeld nodes.old root }
    ensures { (t : Tree) → Held nodes.old t root → Made nodes.old nodes.new (leant_left t) result }
{
    if root == NO_NODE {
        return root;
    }
    let node = nodes[root as usize];
    if height(nodes, node.left) < height(nodes, node.right) {
        lift_right(nodes, node.left, root, node.entry, node.right)
    } else {
        root
    }
}

/// A tree whose left side is not the higher one.
fn lean_right(nodes: &mut [Node], root: u32) -> u32
    requires { AnyHeld nodes.old root }
    ensures { (t : Tree) → Held nodes.old t root → Made nodes.old nodes.new (leant_right t) result }
{
    if root == NO_NODE {
        return root;
    }
    let node = nodes[root as usize];
    if height(nodes, node.right) < height(nodes, node.left) {
        lift_left(nodes, node.left, root, node.entry, node.right)
    } else {
        root
    }
}

/// The node over two trees, which differ in height by at most 2, levelled.
pub fn level(nodes: &mut [Node], left: u32, i: u32, entry: Entry, right: u32) -> u32
    requires { AnySides nodes.old left i right }
    ensures { (t u : Tree) → Sides nodes.old t left i right u → Made nodes.old nodes.new (levelled t i entry u) result }
{
    let left_height = height(nodes, left);
    let right_height = height(nodes, right);
    if right_height + 1 < left_height {
        let left = lean_left(nodes, left);
        lift_left(nodes, left, i, entry, right)
    } else if left_height + 1 < right_height {
        let right = lean_right(nodes, right);
        lift_right(nodes, left, i, entry, right)
    } else {
        fork(nodes, left, i, entry, right);
        i
    }
}

/// A node that gets another left side, levelled. Where that has the place and the height of the
/// old one, nothing above it changes.
pub fn relevel_left(nodes: &mut [Node], root: u32, before: u32, left: u32) -> u32
    requires { AnyOverLeft nodes.old before left root }
    ensures { (l m : Tree) (e : KeptEntry) (r : Tree) → OverLeft nodes.old before left root l m e r → Made nodes.old nodes.new (levelled m root e r) result }
{
    let node = nodes[root as usize];
    if left == node.left && height(nodes, left) == before {
        return root;
    }
    level(nodes, left, root, node.entry, node.right)
}

/// A node that gets another right side, levelled.
pub fn relevel_right(nodes: &mut [Node], root: u32, before: u32, right: u32) -> u32
    requires { AnyOverRight nodes.old before right root }
    ensures { (l : Tree) (e : KeptEntry) (r m : Tree) → OverRight nodes.old before right root l e r m → Made nodes.old nodes.new (levelled l root e m) result }
{
    let node = nodes[root as usize];
    if right == node.right && height(nodes, right) == before {
        return root;
    }
    level(nodes, node.left, root, node.entry, right)
}
