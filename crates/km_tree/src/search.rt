//! The descent of a search.

ghost use Rattle.std.specs.Prelude.{◌≡◌, find};
ghost use Rattle.km_map.specs.Entries.{IsRising, ends_behind};
ghost use Rattle.km_tree.specs.Tables.{TreeAt, Stands};
ghost use Rattle.km_tree.specs.Trees.{Tree, root_of, entries_of};

use crate::node::{NO_NODE, Node};
use km_map::Entry;

/// The lowest entry that ends behind an address.
#[inline(never)]
pub fn ending_behind(nodes: &[Node], root: u32, a: u64) -> Option<Entry>
    requires { TreeAt nodes.now root }
    ensures { (t : Tree) → root_of t ≡ root → Stands nodes.now t → IsRising (entries_of t) → result ≡ find (ends_behind a) (entries_of t) }
{
    let mut found = None;
    let mut at = root;
    while at != NO_NODE {
        let node = &nodes[at as usize];
        let span = &node.entry.span;
        if a < span.start.0 {
            found = Some(node.entry);
            at = node.left;
        } else if a - span.start.0 < span.size {
            return Some(node.entry);
        } else {
            at = node.right;
        }
    }
    found
}
