//! The three lists.

ghost use Rattle.std.specs.Prelude.{◌≡◌, ◌<◌, false, true, [], ◌∷◌, ◌++◌, IfOk, IfSome, drop};
ghost use Rattle.km_links.specs.Chains.{IsDistinct, first_of, is_in, list_of, slot_behind, with_list, without};

use crate::chain::Chain;
use km_base::NoMemory;
use std::alloc::Global;
use std::marker::Model;

/// One of the lists.
#[derive(Clone, Copy, Debug, PartialEq)]
pub enum Which {
    /// The live slots, in order of registration.
    Order,
    /// The slots that wait to be scanned.
    Grey,
    /// The slots that were used and are free again.
    Free,
}

/// Three lists over one table of slots. A slot may be in each of them, at most once.
#[derive(Debug, Drop)]
pub struct Links {
    order: Chain,
    grey: Chain,
    free: Chain,
    capacity: u32,
}

impl Model for Links {
    ghost use Rattle.km_links.specs.Chains.{Lists};

    ghost Value = { Lists };

    ghost use Rattle.std.specs.Prelude.{◌≡◌};

    ghost view = { λ l. record { order = l.order.slots; grey = l.grey.slots; free = l.free.slots; capacity = l.capacity } };

    ghost invariant = { λ l. record { order : l.order.capacity ≡ l.capacity; grey : l.grey.capacity ≡ l.capacity; free : l.free.capacity ≡ l.capacity } };
}

impl Links {
    /// Empty lists over the slots from 0 to `capacity - 1`.
    pub fn new(alloc: Global, capacity: u32) -> Result<Links, NoMemory>
        ensures { IfOk result (λ l. l ≡ record { order = []; grey = []; free = []; capacity = capacity }) }
    {
        let chain = || Chain::new(alloc, capacity).map_err(|_| NoMemory);
        Ok(Links {
            order: chain()?,
            grey: chain()?,
            free: chain()?,
            capacity,
        })
    }

    fn chain(&self, list: Which) -> &Chain
        ensures slots { result.now.slots ≡ list_of list self.now }
    {
        match list {
            Which::Order => &self.order,
            Which::Grey => &self.grey,
            Which::Free => &self.free,
        }
    }

    /// Puts a slot at the end of a list in which it is not.
    pub fn push_back(&mut self, list: Which, slot: u32)
        requires table { slot < self.old.capacity }
        requires out { is_in slot (list_of list self.old) ≡ false }
        ensures { self.new ≡ with_list list (list_of list self.old ++ slot ∷ []) self.old }
    {
        match list {
            Which::Order => self.order.push_back(slot),
            Which::Grey => self.grey.push_back(slot),
            Which::Free => self.free.push_back(slot),
        }
    }

    /// Takes a slot out of a list in which it is.
    pub fn unlink(&mut self, list: Which, slot: u32)
        requires { is_in slot (list_of list self.old) ≡ true }
        ensures { self.new ≡ with_list list (without slot (list_of list self.old)) self.old }
    {
        match list {
            Which::Order => self.order.unlink(slot),
            Which::Grey => self.grey.unlink(slot),
            Which::Free => self.free.unlink(slot),
        }
    }

    /// Takes out the first slot.
    pub fn pop_front(&mut self, list: Which) -> Option<u32>
        ensures slot { result ≡ first_of (list_of list self.old) }
        ensures rest { self.new ≡ with_list list (drop 1 (list_of list self.old)) self.old }
        ensures out { IfSome result (λ n. is_in n (list_of list self.new) ≡ false) }
    {
        let slot = self.first(list)?;
        self.unlink(list, slot);
        Some(slot)
    }

    /// The first slot of a list. No slot is there twice.
    pub fn first(&self, list: Which) -> Option<u32>
        ensures slot { result ≡ first_of (list_of list self.now) }
        ensures distinct { IsDistinct (list_of list self.now) }
    {
        self.chain(list).first()
    }

    /// The slot behind one in a list in which it is.
    pub fn next(&self, list: Which, slot: u32) -> Option<u32>
        requires { is_in slot (list_of list self.now) ≡ true }
        ensures { result ≡ slot_behind slot (list_of list self.now) }
    {
        self.chain(list).next(slot)
    }

    /// Whether a slot is in a list.
    pub fn has(&self, list: Which, slot: u32) -> bool
        ensures { result ≡ is_in slot (list_of list self.now) }
    {
        self.chain(list).has(slot)
    }
}
