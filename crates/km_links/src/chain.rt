//! One list.

ghost use Rattle.std.specs.Prelude.{◌≡◌, ℕ, ◌+◌, ◌<◌, ◌≤◌, false, true, [], ◌∷◌, ◌++◌, IsTrue, MatchOption, IfOk, length, vec_len, vec_capacity};
ghost use Rattle.km_links.specs.Chains.{IsDistinct, first_of, is_in, slot_behind, without};
ghost use Rattle.km_links.specs.Linked.{end_at_slot, node_at, pushed_nodes, taken_nodes};

use std::alloc::{AllocError, Global};
use std::marker::Model;

/// What stands where no slot does. It is no slot, since a table has at most as many.
const NO_SLOT: u32 = u32::MAX;

/// The neighbours of a slot in a list. A slot that is not in the list names itself.
#[derive(Clone, Copy, Debug, PartialEq)]
pub struct Node {
    pub previous: u32,
    pub next: u32,
}

/// A list of slots.
#[derive(Debug, Drop)]
pub struct Chain {
    nodes: Vec<Node>,
    first: u32,
    last: u32,
    capacity: u32,
}

impl Model for Chain {
    ghost use Rattle.km_links.specs.Chains.{Chained};

    ghost Value = { Chained };

    ghost use Rattle.std.specs.Prelude.{◌≤◌, length, vec_len, vec_capacity};
    ghost use Rattle.km_links.specs.Linked.{IsLinked, no_slot, walk};

    ghost view = { λ c. record { slots = walk (length c.nodes.items) c.nodes.items c.first; capacity = c.capacity } };

    ghost invariant = { λ c. record { linked : IsLinked c.nodes.items c.first c.last (walk (length c.nodes.items) c.nodes.items c.first); within : vec_len c.nodes ≤ c.capacity; reserved : c.capacity ≤ vec_capacity c.nodes; small : c.capacity ≤ no_slot } };
}

/// Makes the nodes reach a slot. The new ones name themselves.
fn reach(nodes: &mut Vec<Node>, slot: u32)
    requires { slot < vec_capacity nodes.old }
    ensures reached { slot < length nodes.new.items }
    ensures longest { (n : ℕ) → length nodes.old.items ≤ n → slot < n → length nodes.new.items ≤ n }
    ensures old { (n : ℕ) → n < length nodes.old.items → (n < length nodes.new.items) × (node_at nodes.new.items n ≡ node_at nodes.old.items n) }
    ensures new { (n : ℕ) → length nodes.old.items ≤ n → n < length nodes.new.items → (node_at nodes.new.items n).next ≡ n }
    ensures capacity { vec_capacity nodes.old ≤ vec_capacity nodes.new }
{
    while nodes.len() <= slot as usize {
        let own = nodes.len() as u32;
        let node = Node {
            previous: own,
            next: own,
        };
        let Ok(()) = nodes.push(node) else {
            unreachable!()
        };
    }
}

/// Links a slot behind the last one.
fn link_last(nodes: &mut Vec<Node>, last: u32, slot: u32)
    requires { slot < length nodes.old.items }
    ensures nodes { nodes.new.items ≡ pushed_nodes nodes.old.items last slot }
    ensures capacity { vec_capacity nodes.new ≡ vec_capacity nodes.old }
{
    nodes[slot as usize] = Node {
        previous: last,
        next: NO_SLOT,
    };
    if (last as usize) < nodes.len() {
        nodes[last as usize].next = slot;
    }
}

/// Links the neighbours of a slot with each other. It names itself from then on.
fn link_around(nodes: &mut Vec<Node>, slot: u32, previous: u32, next: u32)
    requires { slot < length nodes.old.items }
    ensures nodes { nodes.new.items ≡ taken_nodes nodes.old.items slot previous next }
    ensures capacity { vec_capacity nodes.new ≡ vec_capacity nodes.old }
{
    if (previous as usize) < nodes.len() {
        nodes[previous as usize].next = next;
    }
    if (next as usize) < nodes.len() {
        nodes[next as usize].previous = previous;
    }
    nodes[slot as usize] = Node {
        previous: slot,
        next: slot,
    };
}

/// An end of a list: another slot where it has no neighbour on this side, else the old end.
fn end_at(neighbour: u32, new: u32, old: u32) -> u32
    ensures { result ≡ end_at_slot neighbour new old }
{
    if neighbour == NO_SLOT { new } else { old }
}

impl Chain {
    /// An empty list over `capacity` slots.
    pub fn new(alloc: Global, capacity: u32) -> Result<Chain, AllocError>
        ensures { IfOk result (λ c. c ≡ record { slots = []; capacity = capacity }) }
    {
        Ok(Chain {
            nodes: Vec::with_capacity(alloc, capacity as usize)?,
            first: NO_SLOT,
            last: NO_SLOT,
            capacity,
        })
    }

    /// Puts a slot at the end.
    pub fn push_back(&mut self, slot: u32)
        requires table { slot < self.old.capacity }
        requires out { is_in slot self.old.slots ≡ false }
        ensures { self.new ≡ record self.old { slots = self.old.slots ++ slot ∷ [] } }
    {
        reach(&mut self.nodes, slot);
        let last = self.last;
        link_last(&mut self.nodes, last, slot);
        self.first = end_at(last, slot, self.first);
        self.last = slot;
    }

    /// Takes a slot out.
    pub fn unlink(&mut self, slot: u32)
        requires { is_in slot self.old.slots ≡ true }
        ensures { self.new ≡ record self.old { slots = without slot self.old.slots } }
    {
        let Node { previous, next } = self.nodes[slot as usize];
        self.first = end_at(previous, next, self.first);
        self.last = end_at(next, previous, self.last);
        link_around(&mut self.nodes, slot, previous, next);
    }

    /// The first slot.
    pub fn first(&self) -> Option<u32>
        ensures slot { result ≡ first_of self.now.slots }
        ensures distinct { IsDistinct self.now.slots }
    {
        if self.first == NO_SLOT {
            None
        } else {
            Some(self.first)
        }
    }

    /// The slot behind one.
    pub fn next(&self, slot: u32) -> Option<u32>
        requires { is_in slot self.now.slots ≡ true }
        ensures { result ≡ slot_behind slot self.now.slots }
    {
        let next = self.nodes[slot as usize].next;
        if next == NO_SLOT { None } else { Some(next) }
    }

    /// Whether a slot is in the list.
    pub fn has(&self, slot: u32) -> bool
        ensures { result ≡ is_in slot self.now.slots }
    {
        (slot as usize) < self.nodes.len() && self.nodes[slot as usize].next != slot
    }
}
